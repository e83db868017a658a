//! The plants that are measured, and their hosts.
ghost use Rattle.engine_host.specs.Names.{IsNamedFor, hosted};

use crate::course::{Course, fire_all, fire_in_turns};
use crate::reading::{Watched, fire_while_read};
use crate::working::{Plan, fire_together};
use bare_disk::BareDisk;
use disk_model::{CELL, Disk};
use engine_host::{Named, Naming, open};
use plant_core::Plant;
use plant_model::System;
use record_codec::MOST_RING;
use record_codec::ring::device_cells;
use recovery::{boot, format};
use std::alloc::Global;
use std::rt::Clock;
use std::sync::Wait;
use std::thread::Threads;

/// How many atoms the system has.
pub(crate) fn atoms_of(system: &System) -> u16 {
    system.keeps_its_rules();
    system.atoms().len() as u16
}

/// A durable plant in its first state, over the longest ring, if there is memory for it.
pub(crate) fn first_plant(alloc: Global, system: &System) -> Option<Plant<'_, BareDisk>> {
    let bytes = CELL * device_cells(atoms_of(system), MOST_RING);
    let disk = BareDisk::new(alloc, bytes).ok()?;
    let disk = format(alloc, disk, system, MOST_RING).ok()?;
    boot(alloc, disk, system).ok()
}

/// What is measured of firing: alone, and through a seat.
#[derive(Drop)]
pub(crate) struct Fired {
    pub(crate) alone: Course,
    pub(crate) hosted: Course,
}

/// Fires the plant that is alone and the one that is named, which comes under a host, in turns.
pub(crate) fn fire_both<D: Disk + Drop, N: Naming, R: Clock + Wait>(
    rt: &R,
    alloc: Global,
    mut alone: Plant<'_, D>,
    named: Named,
    plant: Plant<'_, D>,
    steps: u64,
) -> Option<Fired>
    requires { IsNamedFor named (record { table = N.table; opening = N.opening; ledger = N.name; parts = N.parts; seats = N.seats }) (record { plant = N.plant; view = N.view; digest = N.digest; keeps = N.keeps }) (hosted plant) }
{
    let atoms = atoms_of(plant.system());
    let Ok(room) = named.room(alloc) else {
        return None;
    };
    let (host, mut seats) = open::<D, N>(named, plant, room);
    let Some(mut seat) = seats.pop() else {
        return None;
    };
    let Ok((alone, hosted)) = fire_in_turns(rt, &mut alone, &host, &mut seat, atoms, steps) else {
        return None;
    };
    Some(Fired { alone, hosted })
}

/// What is measured of reading: a seat that fires alone, and one that fires while others read.
#[derive(Drop)]
pub(crate) struct Read {
    pub(crate) alone: Course,
    pub(crate) watched: Watched,
}

/// Fires the named plant under a host, first alone, and then while others read.
pub(crate) fn fire_and_read<
    D: Disk + Drop + Send,
    N: Naming + Send + Sync,
    R: Clock + Threads + Wait + Sync,
>(rt: &R, alloc: Global, named: Named, plant: Plant<'_, D>, steps: u64) -> Option<Read>
    requires { IsNamedFor named (record { table = N.table; opening = N.opening; ledger = N.name; parts = N.parts; seats = N.seats }) (record { plant = N.plant; view = N.view; digest = N.digest; keeps = N.keeps }) (hosted plant) }
{
    let atoms = atoms_of(plant.system());
    let Ok(room) = named.room(alloc) else {
        return None;
    };
    let (host, mut seats) = open::<D, N>(named, plant, room);
    let Some(mut seat) = seats.pop() else {
        return None;
    };
    let Ok(alone) = fire_all(rt, &host, &mut seat, atoms, steps) else {
        return None;
    };
    let Some(watched) = fire_while_read(rt, alloc, &host, seat, atoms, steps) else {
        return None;
    };
    Some(Read { alone, watched })
}

/// Fires the named plant under a host by a thread for each seat.
pub(crate) fn fire_shared<
    D: Disk + Drop + Send,
    N: Naming + Send + Sync,
    R: Clock + Threads + Wait + Sync,
>(rt: &R, alloc: Global, named: Named, plant: Plant<'_, D>, plan: Plan) -> Option<Course>
    requires { IsNamedFor named (record { table = N.table; opening = N.opening; ledger = N.name; parts = N.parts; seats = N.seats }) (record { plant = N.plant; view = N.view; digest = N.digest; keeps = N.keeps }) (hosted plant) }
{
    let Ok(room) = named.room(alloc) else {
        return None;
    };
    let (host, seats) = open::<D, N>(named, plant, room);
    fire_together(rt, alloc, &host, seats, plan)
}
