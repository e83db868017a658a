//! Plants on devices of which one call fails, and those after it serve again. Numbers and states are worked out by hand.
use super::common::{OpaqueDisk, sample};
use super::runs::{
    FLUSH, NEVER, answers_of, boots_right, fire_0, fire_1, new_device, refusal_in, settled,
    torn_flush, try_boot, value_of,
};
use disk_model::{MemDisk, Tear};
use plant_core::{Event, Front, Happened, Plant, Refused};
use plant_model::System;
use std::alloc::Global;
use std::test::Fail;

/// Tick, send, tick, send, all of it acknowledged, A saved after all of them, and one event more of each kind.
fn a_saved_and_on() -> [Event; 11] {
    [
        fire_0(),
        fire_1(),
        fire_0(),
        fire_1(),
        FLUSH,
        Event::Ask(0),
        Event::Put(0),
        fire_0(),
        FLUSH,
        Event::Ask(0),
        Event::Trim,
    ]
}

/// Tick and send, both atoms saved after them, a tick, A saved again, and the three records dropped.
fn all_saved_and_on() -> [Event; 9] {
    [
        fire_0(),
        fire_1(),
        FLUSH,
        Event::Save,
        fire_0(),
        FLUSH,
        Event::Save,
        Event::Trim,
        fire_1(),
    ]
}

/// The plant that the device is booted to, and how many boots the device failed. Behind the first of them it is booted again.
fn booted<'s>(
    alloc: Global,
    system: &'s System,
    disk: MemDisk,
) -> Result<(Plant<'s, OpaqueDisk>, u64), Fail> {
    let disk = match try_boot(alloc, OpaqueDisk::over(disk), system)? {
        Ok(plant) => return Ok((plant, 0)),
        Err(disk) => disk,
    };
    match try_boot(alloc, disk, system)? {
        Ok(plant) => Ok((plant, 1)),
        Err(_) => Err(Fail::new("the second boot is refused")),
    }
}

/// How many of the answers say that the device failed. After the first of them the plant is broken, for whatever is asked.
fn failures_in(answers: &[Happened]) -> Result<u64, Fail> {
    let mut failed = 0u64;
    for happened in answers {
        match (refusal_in(happened), happened) {
            (Some(Refused::Disk), _) => failed = failed.saturating_add(1),
            (Some(Refused::Broken), _) | (_, Happened::Empty(_)) => {}
            _ if failed == 0 => {}
            _ => return Err(Fail::new("a broken plant goes on")),
        }
    }
    Ok(failed)
}

/// The run of these events on the device: what it leaves, the front, and how many of the calls answer that the device failed.
fn driven(
    alloc: Global,
    system: &System,
    disk: MemDisk,
    events: &[Event],
) -> Result<(MemDisk, Front, u64), Fail> {
    let (mut plant, failed) = booted(alloc, system, disk)?;
    let answers = answers_of(alloc, &mut plant, events)?;
    let failed = failed.saturating_add(failures_in(&answers)?);
    let front = plant.front();
    Ok((plant.into_disk().into_memory(), front, failed))
}

/// The run of these events on a device of which the `k`-th call fails: how many of the calls answer so. Booted again without a stop, the device has to stand
/// for what was acknowledged, and a front of the rest.
fn failing_once(
    alloc: Global,
    system: &System,
    events: &[Event],
    last_base: u64,
    k: u64,
) -> Result<u64, Fail> {
    let mut disk = new_device(alloc, system, 8)?;
    disk.fuse_once(k);
    let (mut left, front, failed) = driven(alloc, system, disk, events)?;
    left.fuse_once(NEVER);
    if !boots_right(alloc, system, left, front, last_base, events)? {
        return Err(Fail::new("another state was booted"));
    }
    Ok(failed)
}

/// The boot makes 18 calls. In the first run the flushes of four and of one make 10 and 4, the put 6 and the trim 8. In the second one the flushes of two
/// and of one make 6 and 4, the first save 10, of which 4 read the slots of the atoms, the second 6, and the trim of three records 12. Each call fails in
/// turn, while those before and after it serve. The call after the last is never made.
#[test]
fn each_call_that_fails_is_told_once(rt: HostRuntime) -> Result<(), Fail> {
    let alloc = rt.alloc();
    let system = sample(alloc)?;
    let (of_a, of_all) = (a_saved_and_on(), all_saved_and_on());
    for (events, last_base, calls) in [
        (of_a.as_slice(), 2, 18 + 10 + 6 + 4 + 8),
        (&of_all, 4, 18 + 6 + 10 + 4 + 6 + 12),
    ] {
        for k in 1..=calls + 1 {
            let told = failing_once(alloc, &system, events, last_base, k)?;
            assert_eq!(rt; told, u64::from(k <= calls), "at {k}");
        }
    }
    Ok(())
}

/// The torn device is booted while its `k`-th call fails: how many boots the device failed, and what the plant shows.
fn booted_at(alloc: Global, system: &System, k: u64) -> Result<(u64, i64, i64, Front), Fail> {
    // The first gate is closed and the second open.
    let mut disk = torn_flush(alloc, system, Tear::Mixed)?;
    disk.fuse_once(k);
    let (plant, failed) = booted(alloc, system, disk)?;
    Ok((
        failed,
        value_of(&plant, 0),
        value_of(&plant, 1),
        plant.front(),
    ))
}

/// The boot makes a sync, asks the size, reads 15 cells, closes the gate of record 4, and syncs. It reads no cell again. The call after the last is never
/// made.
#[test]
fn a_boot_that_the_device_fails_is_made_again(rt: HostRuntime) -> Result<(), Fail> {
    let alloc = rt.alloc();
    let system = sample(alloc)?;
    let calls = 2 + 15 + 1 + 1;
    for k in 1..=calls + 1 {
        let found = booted_at(alloc, &system, k)?;
        let failed = u64::from(k <= calls);
        assert!(rt; found == (failed, 2, 1, settled(2)), "at {k}");
    }
    Ok(())
}
