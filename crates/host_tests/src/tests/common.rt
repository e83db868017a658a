//! What several tests share: plants, and a device of which contracts say little, so that to prove the tests costs little.
ghost use Rattle.std.specs.Prelude.{◌≤◌};
ghost use Rattle.record_codec.specs.declared.layout.TheConstants.{LEAST_RING, MOST_RING};

use bare_disk::BareDisk;
use disk_model::{CELL, Disk};
use engine_host::Gate;
use plant_core::Plant;
use plant_model::System;
use record_codec::ring::device_cells;
use record_codec::{LEAST_RING, MOST_RING};
use recovery::{boot, format};
use std::alloc::Global;
use std::test::Fail;

/// A counts, and B takes what A has counted.
pub(super) const SAMPLE: &[u8] =
    b"atom A\nplace s init\nvar n 0\nport t n\ntrans t from s to s do n := + n 1\natom B\nplace s init\nvar m 0\nport u m\ntrans u from s to s\nconnector tick A.t\nconnector send A.t B.u\nmove B.m := A.n\n";

/// A counts by itself, and so does B.
pub(super) const APART: &[u8] =
    b"atom A\nplace s init\nvar n 0\nport t\ntrans t from s to s do n := + n 1\natom B\nplace s init\nvar m 0\nport u\ntrans u from s to s do m := + m 1\nconnector tick A.t\nconnector tock B.u\n";

/// Two who think and eat at a table with two forks: who takes both keeps the other from eating, until both are back.
pub(super) const TABLE: &[u8] =
    b"atom L\nplace free init\nplace held\nport get\nport put\ntrans get from free to held\ntrans put from held to free\natom R\nplace free init\nplace held\nport get\nport put\ntrans get from free to held\ntrans put from held to free\natom P\nplace think init\nplace eat\nvar meals 0\nport take\nport done\ntrans take from think to eat do meals := + meals 1\ntrans done from eat to think\natom Q\nplace think init\nplace eat\nvar meals 0\nport take\nport done\ntrans take from think to eat do meals := + meals 1\ntrans done from eat to think\nconnector take_p L.get R.get P.take\nconnector done_p L.put R.put P.done\nconnector take_q L.get R.get Q.take\nconnector done_q L.put R.put Q.done\n";

/// Nobody is held outside the lock.
pub(super) struct Open;

impl Gate for Open {
    fn outside(&self, _atom: u16) {}
}

/// How many bytes a device has for the plant and a ring of so many records.
pub(super) fn bytes_for(system: &System, ring: u32) -> u64
    requires { ring ≤ MOST_RING }
{
    system.keeps_its_rules();
    CELL * device_cells(system.atoms().len() as u16, ring)
}

/// The device, formatted for the plant, with a ring of so many records.
pub(super) fn formatted<D: Disk + Drop>(
    alloc: Global,
    disk: D,
    system: &System,
    ring: u32,
) -> Result<D, Fail>
    requires from { LEAST_RING ≤ ring }
    requires to { ring ≤ MOST_RING }
{
    match format(alloc, disk, system, ring) {
        Ok(disk) => Ok(disk),
        Err(_) => Err(Fail::new("the device was not formatted")),
    }
}

/// The plant of a device that is formatted for it.
pub(super) fn booted<D: Disk + Drop>(
    alloc: Global,
    disk: D,
    system: &System,
) -> Result<Plant<'_, D>, Fail> {
    match boot(alloc, disk, system) {
        Ok(plant) => Ok(plant),
        Err(_) => Err(Fail::new("the image is refused")),
    }
}

/// A plant in its first state, with nothing fired, over a ring of so many records.
pub(super) fn first_plant(
    alloc: Global,
    system: &System,
    ring: u32,
) -> Result<Plant<'_, BareDisk>, Fail>
    requires from { LEAST_RING ≤ ring }
    requires to { ring ≤ MOST_RING }
{
    let disk = BareDisk::new(alloc, bytes_for(system, ring))?;
    let disk = formatted(alloc, disk, system, ring)?;
    booted(alloc, disk, system)
}

/// The first variable of the atom in the plant, and 0 where it has none.
pub(super) fn value_of<D: Disk>(plant: &Plant<'_, D>, atom: u16) -> i64 {
    match plant.look(atom) {
        Some(state) => match state.values().first() {
            Some(value) => *value,
            None => 0,
        },
        None => 0,
    }
}
