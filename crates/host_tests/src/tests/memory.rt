//! A host that is named and opened while one growth of memory is refused. Here none is: the tests of the program run this test once more for each
//! growth after its first line, refuse that one, and read which call was refused it. Made again, the call succeeds.
ghost use Rattle.std.specs.Prelude.{◌≡◌, ◌≤◌, [], IfOk, vec_capacity};
ghost use Rattle.engine_host.specs.Names.{IsNamedFor, hosted};
ghost use Rattle.engine_host.specs.Views.{front_in};
ghost use Rattle.plant_core.specs.Plants.{view_of};

use super::common::{SAMPLE, first_plant};
use super::rows::is_front;
use bare_disk::BareDisk;
use disk_model::Disk;
use engine_host::{Closed, Named, Naming, Seat, name, open};
use plant_core::Plant;
use plant_text::plant_of_text;
use std::alloc::Global;
use std::marker::Brand;
use std::process::Abort;
use std::test::*;

/// A host of the plant with two seats, which is named anew where memory was refused.
fn named_again<D: Disk>(rt: &impl Print, alloc: Global, plant: &Plant<'_, D>) -> Result<Named, Fail>
    ensures opening { IfOk result (λ n. n.opening ≡ front_in (view_of plant.now)) }
    ensures seats { IfOk result (λ n. n.seats ≡ 2) }
    ensures parts { IfOk result (λ n. n.parts ≡ 2) }
{
    if let Ok(named) = name(alloc, plant, 2) {
        return Ok(named);
    }
    rt.println("name")?;
    Ok(name(alloc, plant, 2)?)
}

/// Room for the seats of the host, which is asked for anew where it was refused.
fn room_again<N: Naming>(
    rt: &impl Print,
    alloc: Global,
    named: &Named,
) -> Result<Vec<Seat<N>>, Fail>
    ensures none { IfOk result (λ room. room.items ≡ []) }
    ensures room { IfOk result (λ room. named.now.seats ≤ vec_capacity room) }
{
    if let Ok(room) = named.room(alloc) {
        return Ok(room);
    }
    rt.println("room")?;
    Ok(named.room(alloc)?)
}

/// Opens the host and closes it.
fn opened_and_closed<D: Disk + Drop, N: Naming, R: Print + Abort>(
    rt: &R,
    alloc: Global,
    named: Named,
    plant: Plant<'_, D>,
) -> Result<(), Fail>
    requires named { IsNamedFor named (record { table = N.table; opening = N.opening; ledger = N.name; parts = N.parts; seats = N.seats }) (record { plant = N.plant; view = N.view; digest = N.digest; keeps = N.keeps }) (hosted plant) }
    requires seats { N.seats ≡ 2 }
    requires parts { N.parts ≡ 2 }
{
    let room = room_again::<N>(rt, alloc, &named)?;
    let (host, seats) = open::<D, N>(named, plant, room);
    let Ok(Closed { fired, plant }) = host.close(seats) else {
        return Err(Fail::new("both seats are there"));
    };
    assert!(rt; fired == 0 && is_front(plant.front(), 0, 0, 1));
    Ok(())
}

#[test]
fn a_refused_growth_opens_no_host(rt: HostRuntime) -> Result<(), Fail> {
    let alloc = rt.alloc();
    let system = plant_of_text(alloc, SAMPLE)?;
    let plant = first_plant(alloc, &system, 8)?;
    rt.println("host")?;
    let named = named_again(&rt, alloc, &plant)?;
    opened_and_closed::<BareDisk, Brand, _>(&rt, alloc, named, plant)
}
