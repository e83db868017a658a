//! Threads with a seat each, that fire together.
use crate::course::{Course, SEED, next_number};
use crate::firing::{Open, settle_seated};
use disk_model::Disk;
use engine_host::{Host, Naming, Seat};
use plant_core::{FiredAs, Refused};
use plant_model::Inputs;
use run_text::RandomPicks;
use std::alloc::{AllocError, Global};
use std::rt::Clock;
use std::sync::Wait;
use std::thread::{Threads, map_vec};
use std::time::Instant;

/// How a seat fires a choice.
#[derive(Clone, Copy, Debug, PartialEq, Eq)]
pub(crate) enum Way {
    /// In one hold of the lock.
    Fire,
    /// With its updates outside of the lock.
    Work,
}

/// What each thread does.
#[derive(Clone, Copy, Debug)]
pub(crate) struct Plan {
    pub(crate) way: Way,
    /// How many atoms the plant has.
    pub(crate) atoms: u16,
    /// How many choices a thread fires.
    pub(crate) choices: u64,
    /// How often it tries at most.
    pub(crate) attempts: u64,
}

/// A thread's seat, the seed of its picks, and what it does.
#[derive(Drop)]
struct Worker<N: Naming> {
    seat: Seat<N>,
    seed: u64,
    plan: Plan,
}

/// A worker for each seat, each with other picks.
fn workers_of<N: Naming>(
    alloc: Global,
    seats: Vec<Seat<N>>,
    plan: Plan,
) -> Result<Vec<Worker<N>>, AllocError> {
    let mut workers = Vec::new(alloc);
    let mut seed = SEED;
    for seat in seats {
        workers.push(Worker { seat, seed, plan })?;
        seed = seed.wrapping_add(1);
    }
    Ok(workers)
}

/// Fires the choice at the pick in this way.
fn fire_in_way<D: Disk, N: Naming>(
    rt: &impl Wait,
    host: &Host<'_, D, N>,
    seat: &mut Seat<N>,
    way: Way,
    pick: u64,
) -> Result<FiredAs, Refused> {
    match way {
        Way::Fire => host.fire(rt, seat, u128::from(pick), &Inputs::none()),
        Way::Work => host.work(rt, seat, u128::from(pick), &Inputs::none(), &Open),
    }
}

/// Fires the choice at the next pick, or settles the plant where that may help, and says how many choices were fired. None where nothing helps.
fn fire_next<D: Disk, N: Naming>(
    rt: &impl Wait,
    host: &Host<'_, D, N>,
    seat: &mut Seat<N>,
    plan: Plan,
    picks: &mut RandomPicks,
) -> Option<u64> {
    let pick = next_number(picks)?;
    match fire_in_way(rt, host, seat, plan.way, pick) {
        Ok(_) => Some(1),
        Err(Refused::TailFull | Refused::RingFull | Refused::Busy) => {
            // Others fire meanwhile, so that a save may be refused. Then the next time helps.
            let _ = settle_seated(rt, host, seat, plan.atoms);
            Some(0)
        }
        Err(_) => None,
    }
}

/// Does what the worker's plan says, and gives how many choices it fired.
fn fire_by_plan<D: Disk, N: Naming>(
    rt: &impl Wait,
    host: &Host<'_, D, N>,
    worker: Worker<N>,
) -> u64 {
    let Worker {
        mut seat,
        seed,
        plan,
    } = worker;
    let mut picks = RandomPicks::new(seed, plan.attempts);
    let mut fired = 0u64;
    for _attempt in 0..plan.attempts {
        if fired >= plan.choices {
            break;
        }
        let Some(count) = fire_next(rt, host, &mut seat, plan, &mut picks) else {
            break;
        };
        fired = fired.saturating_add(count);
    }
    fired
}

/// Does what the plan says in a thread for each seat, if the memory and the clock do not fail.
pub(crate) fn fire_together<
    D: Disk + Send,
    N: Naming + Send + Sync,
    R: Clock + Threads + Wait + Sync,
>(rt: &R, alloc: Global, host: &Host<'_, D, N>, seats: Vec<Seat<N>>, plan: Plan) -> Option<Course> {
    let Ok(workers) = workers_of(alloc, seats, plan) else {
        return None;
    };
    let start = Instant::now(rt);
    let Ok(counts) = map_vec(
        rt,
        workers,
        &|worker: Worker<N>| fire_by_plan(rt, host, worker),
    ) else {
        return None;
    };
    let time = start.ok()?.elapsed(rt).ok()?;
    let mut fired = 0u64;
    for count in counts {
        fired = fired.saturating_add(count);
    }
    Some(Course {
        fired,
        nanoseconds: time.as_nanos(),
    })
}
