//! A host of a durable plant, whose seats are in two threads.
ghost use Rattle.std.specs.Prelude.{◌≡◌, ◌≤◌};
ghost use Rattle.engine_host.specs.Names.{IsNamedFor, hosted};

use super::common::{APART, SAMPLE, first_plant, value_of};
use bare_disk::BareDisk;
use disk_model::Disk;
use engine_host::{Closed, Gate, Host, Named, Naming, Seat, name, open};
use plant_core::Plant;
use plant_model::Inputs;
use plant_text::plant_of_text;
use std::alloc::Global;
use std::marker::Brand;
use std::process::Abort;
use std::sync::Wait;
use std::sync::atomic::{AtomicBool, Ordering};
use std::test::*;
use std::thread::{Threads, join, yield_now};

/// How often a thread looks for another before it gives up.
const TURNS: u32 = 1_000_000;

/// Whether the flag was set before the turns were over.
fn is_set_in_time(flag: &AtomicBool) -> bool {
    for _ in 0..TURNS {
        if flag.load(Ordering::SeqCst) {
            return true;
        }
        yield_now();
    }
    false
}

/// A gate that is held until another thread's call was answered.
#[derive(Drop)]
struct Held {
    reached: AtomicBool,
    answered: AtomicBool,
    left: AtomicBool,
}

impl Gate for Held {
    fn outside(&self, _atom: u16) {
        self.reached.store(true, Ordering::SeqCst);
        if is_set_in_time(&self.answered) {
            self.left.store(true, Ordering::SeqCst);
        }
    }
}

/// The call that is held.
#[derive(Clone, Copy)]
enum Asked {
    /// A fire and a flush, and then the first atom is saved.
    Save,
    /// The first choice is fired, with its update outside the lock.
    Work,
}

/// Makes the call, held at the gate.
fn ask<D: Disk, N: Naming>(
    rt: &impl Wait,
    host: &Host<'_, D, N>,
    mut seat: Seat<N>,
    asked: Asked,
    gate: &Held,
) -> (Seat<N>, bool) {
    let is_ok = match asked {
        Asked::Save => {
            let fired = host.fire(rt, &mut seat, 0, &Inputs::none()).is_ok();
            let flushed = host.flush(rt, &mut seat).is_ok();
            let saved = host.save_one(rt, &mut seat, 0, gate).is_ok();
            fired && flushed && saved
        }
        Asked::Work => host.work(rt, &mut seat, 0, &Inputs::none(), gate).is_ok(),
    };
    (seat, is_ok)
}

/// Fires while the other is at its gate.
fn fire_meanwhile<D: Disk, N: Naming>(
    rt: &impl Wait,
    host: &Host<'_, D, N>,
    mut seat: Seat<N>,
    gate: &Held,
) -> (Seat<N>, bool) {
    let reached = is_set_in_time(&gate.reached);
    let fired = host.fire(rt, &mut seat, 0, &Inputs::none()).is_ok();
    gate.answered.store(true, Ordering::SeqCst);
    (seat, reached && fired)
}

/// One call of a host works outside the lock while another is answered. Both together fire twice, and leave these values.
fn call_one_waits<D: Disk + Drop + Send, N: Naming + Send + Sync, R: Threads + Wait + Abort + Sync>(
    rt: &R,
    alloc: Global,
    named: Named,
    plant: Plant<'_, D>,
    asked: Asked,
    left: (i64, i64),
) -> Result<(), Fail>
    requires named { IsNamedFor named (record { table = N.table; opening = N.opening; ledger = N.name; parts = N.parts; seats = N.seats }) (record { plant = N.plant; view = N.view; digest = N.digest; keeps = N.keeps }) (hosted plant) }
    requires seats { N.seats ≡ 2 }
    requires parts { N.parts ≡ 2 }
{
    let room = named.room(alloc)?;
    let (host, mut seats) = open::<D, N>(named, plant, room);
    let (Some(first), Some(second)) = (seats.pop(), seats.pop()) else {
        return Err(Fail::new("two seats"));
    };
    let gate = Held {
        reached: AtomicBool::new(false),
        answered: AtomicBool::new(false),
        left: AtomicBool::new(false),
    };
    let ((first, is_ok), (second, fired)) = join(
        rt,
        || ask(rt, &host, first, asked, &gate),
        || fire_meanwhile(rt, &host, second, &gate),
    );
    assert!(rt; is_ok && fired);
    assert!(rt; gate.left.load(Ordering::SeqCst));
    seats.push(first)?;
    seats.push(second)?;
    let Ok(Closed { fired, plant }) = host.close(seats) else {
        return Err(Fail::new("both seats are there"));
    };
    assert_eq!(rt; (fired, plant.front().fired), (2, 2));
    assert_eq!(rt; (value_of(&plant, 0), value_of(&plant, 1)), left);
    Ok(())
}

/// Both calls over the plant of the text.
fn call_in_turn<R: Threads + Wait + Abort + Sync>(
    rt: &R,
    alloc: Global,
    text: &[u8],
    asked: Asked,
    left: (i64, i64),
) -> Result<(), Fail> {
    let system = plant_of_text(alloc, text)?;
    let plant = first_plant(alloc, &system, 64)?;
    let named = name(alloc, &plant, 2)?;
    call_one_waits::<BareDisk, Brand, R>(rt, alloc, named, plant, asked, left)
}

#[test]
fn call_one_waits_for_call_two(rt: HostRuntime) -> Result<(), Fail> {
    call_in_turn(&rt, rt.alloc(), SAMPLE, Asked::Save, (2, 0))
}

/// While A works, B's is the only choice there is.
#[test]
fn work_waits_for_call_two(rt: HostRuntime) -> Result<(), Fail> {
    call_in_turn(&rt, rt.alloc(), APART, Asked::Work, (1, 1))
}
