//! Stops while an image of the first layout is brought over. What is written and synced there, and what each stop leaves, is worked out by hand.
use super::common::{OpaqueDisk, TEARS, formatted, put, sample};
use super::runs::{Shown, booted_to, first_wrong, settled};
use disk_model::{Disk, FIRST_CELL, MemDisk, Tear};
use plant_core::Front;
use plant_model::System;
use recovery::{BootFault, MigrateFault, MigrateRefused, migrate};
use std::alloc::Global;
use std::test::Fail;

// The gates and fields of the full cells of an image of the first layout, after tick, send, tick and send of the sample and a save of A.
const IDENTITY: [u8; 45] = [
    0xa5, 0x42, 0x49, 0x50, 0x46, 0, 1, 0, 2, 0, 0, 0, 8, 0x9c, 0x7e, 0x11, 0x45, 0xc9, 0xae, 8,
    0xc4, 0x23, 0xf0, 0xf7, 0xca, 0x90, 0xe4, 0x33, 0x10, 0xe0, 0xae, 0xdb, 0xd9, 0x4c, 0xbd, 0xbf,
    0xb8, 0x25, 0xa0, 0xdd, 0xef, 0xb2, 8, 0x1b, 0x48,
];

const BASE: [u8; 9] = [0xa5, 0, 0, 0, 0, 0, 0, 0, 1];

const FIRST_OF_A: [u8; 36] = [
    0xa5, 0, 0, 0, 0, 0, 0, 0, 0, 0, 0, 0, 0, 0, 0, 0, 0, 0, 0, 0, 0, 0, 0, 0, 0, 0, 1, 1, 0, 0, 0,
    0, 0, 0, 0, 0,
];

const SAVED_OF_A: [u8; 36] = [
    0xa5, 0, 0, 0, 0, 0, 0, 0, 0, 0, 4, 0, 0, 0, 0, 0, 0, 0, 4, 0, 0, 0, 0, 0, 0, 0, 1, 1, 0, 0, 0,
    0, 0, 0, 0, 4,
];

const FIRST_OF_B: [u8; 36] = [
    0xa5, 0, 1, 0, 0, 0, 0, 0, 0, 0, 0, 0, 0, 0, 0, 0, 0, 0, 0, 0, 0, 0, 0, 0, 0, 0, 1, 1, 0, 0, 0,
    0, 0, 0, 0, 0,
];

const RECORD_1: [u8; 26] = [
    0xa5, 0, 0, 0, 0, 0, 0, 0, 1, 0, 0, 1, 0, 0, 0, 0, 0, 0, 0, 0, 0, 0, 0, 1, 0, 0,
];

const RECORD_2: [u8; 48] = [
    0xa5, 0, 0, 0, 0, 0, 0, 0, 2, 0, 1, 2, 0, 0, 0, 0, 0, 0, 0, 0, 0, 0, 0, 2, 0, 0, 0, 1, 0, 0, 0,
    0, 0, 0, 0, 0, 0, 1, 1, 1, 0, 0, 0, 0, 0, 0, 0, 1,
];

const RECORD_3: [u8; 26] = [
    0xa5, 0, 0, 0, 0, 0, 0, 0, 3, 0, 0, 1, 0, 0, 0, 0, 0, 0, 0, 0, 0, 0, 0, 3, 0, 0,
];

const RECORD_4: [u8; 48] = [
    0xa5, 0, 0, 0, 0, 0, 0, 0, 4, 0, 1, 2, 0, 0, 0, 0, 0, 0, 0, 0, 0, 0, 0, 4, 0, 0, 0, 1, 0, 0, 0,
    0, 0, 0, 0, 0, 0, 2, 1, 1, 0, 0, 0, 0, 0, 0, 0, 3,
];

/// How many bytes that image has, with a ring of 8 records.
const BYTES: usize = 15 * 512;

/// Writes the bytes from the beginning of the cell on.
fn put_cell(disk: &mut OpaqueDisk, cell: u64, front: &[u8]) -> Result<(), Fail> {
    put(disk, cell.saturating_mul(FIRST_CELL), front)
}

/// A device that holds that image, and nothing is pending.
fn old_image(alloc: Global) -> Result<MemDisk, Fail> {
    let mut disk = OpaqueDisk::over(MemDisk::new(alloc, BYTES as u64, 64)?);
    put_cell(&mut disk, 0, &IDENTITY)?;
    put_cell(&mut disk, 1, &BASE)?;
    put_cell(&mut disk, 3, &FIRST_OF_A)?;
    put_cell(&mut disk, 4, &SAVED_OF_A)?;
    put_cell(&mut disk, 5, &FIRST_OF_B)?;
    put_cell(&mut disk, 8, &RECORD_1)?;
    put_cell(&mut disk, 9, &RECORD_2)?;
    put_cell(&mut disk, 10, &RECORD_3)?;
    put_cell(&mut disk, 11, &RECORD_4)?;
    disk.sync()?;
    Ok(disk.into_memory().stop(Tear::Old))
}

/// All bytes of the device.
fn bytes_of(disk: MemDisk) -> Result<[u8; BYTES], Fail> {
    let mut disk = OpaqueDisk::over(disk);
    let mut bytes = [0; BYTES];
    if disk.size()? != BYTES as u64 {
        return Err(Fail::new("a device of another size"));
    }
    disk.read_at(0, &mut bytes)?;
    Ok(bytes)
}

/// Whether the device holds what the old image holds.
fn is_old(alloc: Global, disk: MemDisk) -> Result<bool, Fail> {
    Ok(bytes_of(disk)? == bytes_of(old_image(alloc)?)?)
}

/// What a stop at the `k`-th write or sync of the new device leaves, on which the plant was formatted: what the new one boots to, where the old
/// image is as it was.
fn left_at(alloc: Global, system: &System, k: u64, tear: Tear) -> Result<Option<Shown>, Fail> {
    let mut new = formatted(alloc, system, 8, 128)?;
    new.fuse_change(k);
    let old = OpaqueDisk::over(old_image(alloc)?);
    let (old, new) = match migrate(alloc, old, OpaqueDisk::over(new), system, 8) {
        Ok(devices) => devices,
        Err(
            MigrateRefused {
                old,
                new,
                fault: MigrateFault::NewDisk,
            },
        ) => (old, new),
        Err(_) => return Err(Fail::new("the image is not brought over")),
    };
    if !is_old(alloc, old.into_memory().stop(tear))? {
        return Err(Fail::new("the old image is not as it was"));
    }
    booted_to(alloc, system, new.into_memory().stop(tear))
}

/// Four were fired, and the new image has none of their records.
const OLD_FRONT: Front = Front {
    fired: 4,
    acked: 4,
    base: 5,
};

/// First the gate of the identity is closed, and a sync follows. Then the gates of a base and two slots are closed, and a sync follows. Then four
/// cells are set by four changes each, the identity last. So at the second change its gate is pending, and again at the last two.
const CHANGES: u64 = 2 + 4 + 4 * 4;

#[test]
fn a_stop_while_an_image_is_brought_over_leaves_what_was_there_or_nothing_or_the_old_state(
    rt: HostRuntime,
) -> Result<(), Fail> {
    let system = sample(rt.alloc())?;
    // The new device is stopped: it has the first state or the state of the old image.
    let wrong = first_wrong(CHANGES, (0, 0, settled(0)), (4, 3, OLD_FRONT), |k, tear| {
        left_at(rt.alloc(), &system, k, tear)
    })?;
    assert_eq!(rt; wrong, None);
    Ok(())
}

/// The old device is stopped at its only change, a sync: whether it is as it was, and what the new one boots to.
fn left_by_old(alloc: Global, system: &System, tear: Tear) -> Result<(bool, Option<Shown>), Fail> {
    let mut old = old_image(alloc)?;
    old.fuse_change(1);
    let new = OpaqueDisk::over(formatted(alloc, system, 8, 128)?);
    match migrate(alloc, OpaqueDisk::over(old), new, system, 8) {
        Err(
            MigrateRefused {
                old,
                new,
                fault: MigrateFault::Old(BootFault::Disk),
            },
        ) => {
            let is_same = is_old(alloc, old.into_memory().stop(tear))?;
            let shown = booted_to(alloc, system, new.into_memory().stop(tear))?;
            Ok((is_same, shown))
        }
        _ => Err(Fail::new("the old device did not fail")),
    }
}

#[test]
fn a_stop_of_the_old_device_leaves_both_as_they_were(rt: HostRuntime) -> Result<(), Fail> {
    let system = sample(rt.alloc())?;
    for tear in TEARS {
        assert_eq!(rt;
            left_by_old(rt.alloc(), &system, tear)?,
            (true, Some((0, 0, settled(0))))
        );
    }
    Ok(())
}
