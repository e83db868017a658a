//! Threads that make many events of one plant.
ghost use Rattle.std.specs.Prelude.{◌≡◌, ◌≤◌};
ghost use Rattle.engine_host.specs.Names.{IsNamedFor, hosted};

use super::common::{SAMPLE, TABLE, first_plant};
use super::replay::is_one_run;
use super::told::{Told, Worker, ask_all};
use bare_disk::BareDisk;
use disk_model::Disk;
use engine_host::{Closed, MOST_SEATS, Named, Naming, Seat, name, open};
use plant_core::Plant;
use plant_text::plant_of_text;
use std::alloc::{AllocError, Global};
use std::marker::Brand;
use std::process::Abort;
use std::sync::Wait;
use std::test::*;
use std::thread::{Threads, map_vec};

/// How often each test runs: the threads meet in another way each time.
const RUNS: u32 = 10;

/// A worker for each seat.
fn workers_of<N: Naming>(alloc: Global, seats: Vec<Seat<N>>) -> Result<Vec<Worker<N>>, AllocError> {
    let mut workers = Vec::new(alloc);
    for seat in seats {
        workers.push(Worker {
            seat,
            told: Told::nothing(alloc),
        })?;
    }
    Ok(workers)
}

/// The seats of the workers, and what they were answered together.
fn parted<N: Naming>(
    alloc: Global,
    workers: Vec<Worker<N>>,
) -> Result<(Vec<Seat<N>>, Told), AllocError> {
    let mut seats = Vec::new(alloc);
    let mut all = Told::nothing(alloc);
    for Worker { seat, told } in workers {
        seats.push(seat)?;
        all.add(told)?;
    }
    Ok((seats, all))
}

/// What the threads of a host were answered is one run of the plant, and leads to where it stands.
fn many_seats<D: Disk + Drop + Send, N: Naming + Send + Sync, R: Threads + Wait + Abort + Sync>(
    rt: &R,
    alloc: Global,
    named: Named,
    plant: Plant<'_, D>,
) -> Result<(), Fail>
    requires named { IsNamedFor named (record { table = N.table; opening = N.opening; ledger = N.name; parts = N.parts; seats = N.seats }) (record { plant = N.plant; view = N.view; digest = N.digest; keeps = N.keeps }) (hosted plant) }
    requires some { 1 ≤ N.seats }
    requires parts { N.parts ≡ N.seats }
{
    let room = named.room(alloc)?;
    let (host, seats) = open::<D, N>(named, plant, room);
    let workers = workers_of(alloc, seats)?;
    let workers = map_vec(rt, workers, &|worker: Worker<N>| ask_all(rt, &host, worker))?;
    let (seats, told) = parted(alloc, workers)?;
    let Ok(Closed { fired, plant }) = host.close(seats) else {
        return Err(Fail::new("all seats are there"));
    };
    assert_eq!(rt;
        (fired, plant.front().fired),
        (told.fires.len() as u64, fired)
    );
    assert!(rt; fired > 500 && told.others > 100 && told.is_in_order);
    assert!(rt; is_one_run(alloc, &plant, told.fires)?);
    Ok(())
}

/// One run of a host of the plant of the text, with so many seats.
fn run_once<R: Threads + Wait + Abort + Sync>(
    rt: &R,
    alloc: Global,
    text: &[u8],
    seats: usize,
) -> Result<(), Fail>
    requires from { 1 ≤ seats }
    requires to { seats ≤ MOST_SEATS }
{
    let system = plant_of_text(alloc, text)?;
    let plant = first_plant(alloc, &system, 64)?;
    let named = name(alloc, &plant, seats)?;
    many_seats::<BareDisk, Brand, R>(rt, alloc, named, plant)
}

#[test]
fn what_two_threads_were_told_is_one_run(rt: HostRuntime) -> Result<(), Fail> {
    for _run in 0..RUNS {
        run_once(&rt, rt.alloc(), SAMPLE, 2)?;
    }
    Ok(())
}

#[test]
fn what_four_threads_were_told_is_one_run(rt: HostRuntime) -> Result<(), Fail> {
    for _run in 0..RUNS {
        run_once(&rt, rt.alloc(), TABLE, 4)?;
    }
    Ok(())
}
