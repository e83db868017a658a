//! Restarts by several workers: they answer as one does, and work at once. Images and answers are worked out by hand.
ghost use Rattle.std.specs.Prelude.{◌≤◌};
ghost use Rattle.parallel_replay.specs.declared.workers.TheConstants.{MOST_WORKERS};

use super::common::{OpaqueDisk, put, sample};
use super::runs::{Shown, a_saved, settled, value_of, whole_run};
use disk_model::CELL;
use plant_core::{Event, Plant};
use plant_image::ImageFault;
use plant_model::System;
use recovery::{BootFault, BootRefused, MOST_WORKERS, Quiet, Turn, boot, boot_par};
use std::alloc::Global;
use std::sync::atomic::{AtomicBool, Ordering};
use std::test::Fail;
use std::thread;
use std::thread::Threads;

/// How often a worker looks for the other.
const TURNS: u64 = 1_000_000;

/// Two workers meet: each waits, before it replays its atom, until the other has begun too.
#[derive(Drop)]
struct Meeting {
    of_a: AtomicBool,
    of_b: AtomicBool,
    late: AtomicBool,
}

impl Meeting {
    fn new() -> Meeting {
        Meeting {
            of_a: AtomicBool::new(false),
            of_b: AtomicBool::new(false),
            late: AtomicBool::new(false),
        }
    }

    /// Says that one has come, and waits for the other until it has looked often enough.
    fn meet(&self, own: &AtomicBool, other: &AtomicBool) {
        own.store(true, Ordering::SeqCst);
        for _ in 0..TURNS {
            if other.load(Ordering::SeqCst) {
                return;
            }
            thread::yield_now();
        }
        self.late.store(true, Ordering::SeqCst);
    }
}

impl Turn for Meeting {
    fn replaying(&self, atom: u16) {
        if atom == 0 {
            self.meet(&self.of_a, &self.of_b);
        } else {
            self.meet(&self.of_b, &self.of_a);
        }
    }
}

/// What a restart answers: what the plant shows, or why there is none.
type Answer = Result<Shown, BootFault>;

fn answer(booted: Result<Plant<'_, OpaqueDisk>, BootRefused<OpaqueDisk>>) -> Answer {
    match booted {
        Ok(plant) => Ok((value_of(&plant, 0), value_of(&plant, 1), plant.front())),
        Err(refused) => Err(refused.fault),
    }
}

/// Whether the workers met, so many of them, over an image in which A is saved; and what they answered.
fn met<R: Threads + Sync>(rt: &R, alloc: Global, workers: usize) -> Result<(bool, Answer), Fail>
    requires some { 1 ≤ workers }
    requires few { workers ≤ MOST_WORKERS }
{
    let system = sample(alloc)?;
    let disk = OpaqueDisk::over(whole_run(alloc, &system, &a_saved())?.disk);
    let meeting = Meeting::new();
    let found = answer(boot_par(rt, alloc, disk, &system, workers, &meeting));
    Ok((!meeting.late.load(Ordering::SeqCst), found))
}

#[test]
fn two_replays_meet(rt: HostRuntime) -> Result<(), Fail> {
    assert_eq!(rt; met(&rt, rt.alloc(), 2)?, (true, Ok((4, 3, settled(4)))));
    Ok(())
}

/// A single worker waits in vain: so the test above can fail.
#[test]
fn one_replay_meets_nobody(rt: HostRuntime) -> Result<(), Fail> {
    assert_eq!(rt; met(&rt, rt.alloc(), 1)?, (false, Ok((4, 3, settled(4)))));
    Ok(())
}

/// The device of a run of these events, in which these bytes were then changed.
fn changed(
    alloc: Global,
    system: &System,
    events: &[Event],
    changes: &[(u64, u8)],
) -> Result<OpaqueDisk, Fail> {
    let mut disk = OpaqueDisk::over(whole_run(alloc, system, events)?.disk);
    for (at, byte) in changes {
        put(&mut disk, *at, &[*byte])?;
    }
    Ok(disk)
}

/// The answers of one thread and of two workers.
fn answers<R: Threads + Sync>(
    rt: &R,
    alloc: Global,
    system: &System,
    events: &[Event],
    changes: &[(u64, u8)],
) -> Result<(Answer, Answer), Fail> {
    let disk = changed(alloc, system, events, changes)?;
    let by_one = answer(boot(alloc, disk, system));
    let disk = changed(alloc, system, events, changes)?;
    let by_two = answer(boot_par(rt, alloc, disk, system, 2, &Quiet));
    Ok((by_one, by_two))
}

/// Base 4 stands in cell 2: the records of both atoms begin too late, and A's gap is answered.
const BASE_4: [(u64, u8); 2] = [(2 * CELL, 0xa5), (2 * CELL + 8, 4)];

/// The cell of record 3 is closed: so record 4 is not live, and A was saved after four.
const RECORD_3_CLOSED: [(u64, u8); 1] = [(10 * CELL, 0)];

/// And of record 2 the number is 5 with which B took part, which no record 2 can have.
const RECORD_2_SPOILT: [(u64, u8); 2] = [(10 * CELL, 0), (9 * CELL + 37, 5)];

#[test]
fn two_workers_answer_as_one_thread(rt: HostRuntime) -> Result<(), Fail> {
    let system = sample(rt.alloc())?;
    let gap: Answer = Err(BootFault::Image(ImageFault::Gap(0)));
    let damaged: Answer = Err(BootFault::Image(ImageFault::Damaged(9)));
    let all = a_saved();
    for (events, changes, wanted) in [
        (&all[..], &[][..], Ok((4, 3, settled(4)))),
        (&all[..5], &BASE_4[..], gap),
        (&all[..], &RECORD_3_CLOSED[..], gap),
        (&all[..], &RECORD_2_SPOILT[..], damaged),
    ] {
        assert_eq!(rt;
            answers(&rt, rt.alloc(), &system, events, changes)?,
            (wanted, wanted)
        );
    }
    Ok(())
}
