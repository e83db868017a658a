//! A durable plant under a lock, which two threads fire and flush.
use super::common::{OpaqueDisk, formatted, sample};
use super::runs::{try_boot, value_of};
use disk_model::Disk;
use plant_core::Plant;
use plant_model::{Inputs, System};
use std::alloc::Global;
use std::sync::{Mutex, Wait};
use std::test::Fail;
use std::thread::{Threads, join};

/// How often each thread fires and flushes.
const ROUNDS: u64 = 20;

/// Room for the records of both.
const RING: u32 = 64;

/// A plant in its first state, with nothing fired.
fn first_plant(alloc: Global, system: &System) -> Result<Plant<'_, OpaqueDisk>, Fail> {
    let disk = formatted(alloc, system, RING, 1_000)?;
    match try_boot(alloc, OpaqueDisk::over(disk), system)? {
        Ok(plant) => Ok(plant),
        Err(_) => Err(Fail::new("the device failed")),
    }
}

/// Fires by the pick and flushes, time after time, and gives how many choices it fired.
fn fire_and_flush<D: Disk>(rt: &impl Wait, shared: &Mutex<Plant<'_, D>>, pick: u128) -> u64 {
    let mut fired = 0u64;
    for _ in 0..ROUNDS {
        let mut plant = shared.lock(rt);
        if plant.fire(pick, &Inputs::none()).is_ok() && plant.flush().is_ok() {
            fired = fired.saturating_add(1);
        }
    }
    fired
}

/// Two threads do so with one plant, by different picks.
fn by_two_threads<D: Disk + Send, R: Threads + Wait + Sync>(
    rt: &R,
    shared: &Mutex<Plant<'_, D>>,
) -> (u64, u64) {
    join(
        rt,
        || fire_and_flush(rt, shared, 0),
        || fire_and_flush(rt, shared, 1),
    )
}

/// What the plant shows after both threads: how many were fired and acknowledged, and what A has counted.
fn counts_in(plant: &Plant<'_, OpaqueDisk>) -> (u64, u64, i64) {
    let front = plant.front();
    (front.fired, front.acked, value_of(plant, 0))
}

/// Each firing is a step of A, which counts them.
#[test]
fn two_threads_fire_and_flush_one_plant(rt: HostRuntime) -> Result<(), Fail> {
    let system = sample(rt.alloc())?;
    let shared = Mutex::new(first_plant(rt.alloc(), &system)?);
    let fired = by_two_threads(&rt, &shared);
    let plant = shared.into_inner();
    assert!(rt; fired == (ROUNDS, ROUNDS) && counts_in(&plant) == (40, 40, 40));
    Ok(())
}
