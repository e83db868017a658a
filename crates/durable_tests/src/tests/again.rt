//! Stops on a device that an earlier run or an earlier stop has left: it is formatted again, or booted. What writes and syncs there are, and what each leaves, is
//! worked out by hand.
use super::common::{OpaqueDisk, TEARS, sample};
use super::runs::{
    FLUSH, NEVER, Shown, a_saved, booted_to, fire_0, first_wrong, run, settled, shown, torn_flush,
    try_boot, whole_run,
};
use disk_model::{MemDisk, Tear};
use plant_core::Front;
use plant_model::System;
use recovery::{FormatFault, format};
use std::alloc::Global;
use std::test::Fail;

/// The device of a run that is formatted again, stopped at the `k`-th write or sync of that.
fn formatted_again(alloc: Global, system: &System, k: u64, tear: Tear) -> Result<MemDisk, Fail> {
    let mut disk = whole_run(alloc, system, &a_saved())?.disk;
    disk.fuse_change(k);
    match format(alloc, OpaqueDisk::over(disk), system, 8) {
        Ok(disk) => Ok(disk.into_memory().stop(tear)),
        Err(refused) if refused.fault == FormatFault::Disk => Ok(
            refused.disk.into_memory().stop(tear),
        ),
        Err(_) => Err(Fail::new("the device is not formatted")),
    }
}

/// What that boots to.
fn booted_again(alloc: Global, system: &System, k: u64, tear: Tear) -> Result<Option<Shown>, Fail> {
    let left = formatted_again(alloc, system, k, tear)?;
    booted_to(alloc, system, left)
}

/// First the gate of the identity is closed, and a sync follows. Then the gates of a base, three slots and four records are closed, and a sync follows.
/// Then four cells are set by four changes each, the identity last. So at the second change its gate is pending, and again at the last two.
const CHANGES: u64 = 2 + 9 + 4 * 4;

#[test]
fn a_stop_inside_formatting_leaves_what_was_there_or_nothing_or_the_first_state(
    rt: HostRuntime,
) -> Result<(), Fail> {
    let system = sample(rt.alloc())?;
    // A stop leaves the run or the first state.
    let wrong = first_wrong(CHANGES, (4, 3, settled(4)), (0, 0, settled(0)), |k, tear| {
        booted_again(rt.alloc(), &system, k, tear)
    })?;
    assert_eq!(rt; wrong, None);
    Ok(())
}

/// Whether a boot of the device comes to its end, where its `k`-th write or sync is stopped, and what it leaves.
fn booted_until(
    alloc: Global,
    system: &System,
    disk: MemDisk,
    k: u64,
    tear: Tear,
) -> Result<(bool, MemDisk), Fail> {
    let mut disk = disk;
    disk.fuse_change(k);
    match try_boot(alloc, OpaqueDisk::over(disk), system)? {
        Ok(plant) => Ok((true, plant.into_disk().into_memory().stop(tear))),
        Err(disk) => Ok((false, disk.into_memory().stop(tear))),
    }
}

/// Whether a boot of the torn flush comes to its end where its `k`-th write or sync is stopped, and what the next boot shows.
fn booted_twice(
    alloc: Global,
    system: &System,
    torn: Tear,
    k: u64,
    tear: Tear,
) -> Result<(bool, Shown), Fail> {
    let disk = torn_flush(alloc, system, torn)?;
    let (ended, left) = booted_until(alloc, system, disk, k, tear)?;
    Ok((ended, shown(alloc, system, left)?))
}

/// The first of so many writes and syncs of the boot, or the one after them, at which a stop does something else.
fn first_wrong_boot(
    alloc: Global,
    system: &System,
    torn: Tear,
    wanted: Shown,
    changes: u64,
) -> Result<Option<u64>, Fail> {
    let end = changes.saturating_add(1);
    for k in 1..=end {
        for tear in TEARS {
            if booted_twice(alloc, system, torn, k, tear)? != (k > changes, wanted) {
                return Ok(Some(k));
            }
        }
    }
    Ok(None)
}

/// Two records are acknowledged, and the gates of two more are torn. A boot syncs, closes the gate of a record after one that is closed, and syncs.
#[test]
fn however_often_a_boot_is_stopped_the_same_is_booted(rt: HostRuntime) -> Result<(), Fail> {
    let system = sample(rt.alloc())?;
    for (torn, wanted, changes) in [
        (Tear::Old, (2, 1, settled(2)), 2),
        (Tear::New, (4, 3, settled(4)), 2),
        (Tear::Gates, (4, 3, settled(4)), 2),
        (Tear::Mixed, (2, 1, settled(2)), 3),
    ] {
        let found = first_wrong_boot(rt.alloc(), &system, torn, wanted, changes)?;
        assert_eq!(rt; found, None);
    }
    Ok(())
}

/// The front of one more that is fired and flushed on the device, and what it is booted to then.
fn one_more(alloc: Global, system: &System, disk: MemDisk) -> Result<(Front, Shown), Fail> {
    let ran = run(alloc, system, disk, NEVER, &[fire_0(), FLUSH])?;
    Ok((ran.front, shown(alloc, system, ran.disk)?))
}

/// Records 3 and 4 go in one flush, which is stopped with the first gate closed and the second open. The boot empties the second, and so it is
/// never read after another record 3.
#[test]
fn a_record_past_the_end_is_never_read_again(rt: HostRuntime) -> Result<(), Fail> {
    let alloc = rt.alloc();
    let system = sample(alloc)?;
    let torn = torn_flush(alloc, &system, Tear::Mixed)?;
    let found = one_more(alloc, &system, torn)?;
    assert!(rt; found == (settled(3), (3, 1, settled(3))));
    Ok(())
}
