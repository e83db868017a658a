//! A plant that is read, formatted, booted, driven and explored while one growth of memory is refused. Here none is: the tests of the program run these tests
//! once more for each growth, refuse that one, and read which call was refused it. Made again, the call succeeds.
ghost use Rattle.std.specs.Prelude.{IfOk, length};
ghost use Rattle.plant_core.specs.Handed.{hands_of};
ghost use Rattle.plant_core.specs.Hands.{AreHandsFor};
ghost use Rattle.plant_core.specs.Plants.{definition_of};

use super::common::{OpaqueDisk, SAMPLE};
use super::runs::{FLUSH, ROOM, Shown, fire_0, fire_1, settled, value_of};
use crash_explorer::{ExploreFault, Report, explore};
use disk_model::{BODY, CELL, Cells, Disk, MemDisk};
use plant_core::{Event, Hands, Happened, Plant, drive};
use plant_image::ImageFault;
use plant_model::System;
use plant_text::{Fault, read_plant};
use recovery::{BootFault, FormatFault, boot, format};
use std::alloc::Global;
use std::test::Fail;

/// The bytes of the sample's device with a ring of 8.
const BYTES: usize = 15_360;

/// The cell of record 5.
const FIFTH: u64 = 12;

/// How many events the plant is driven through.
const EVENTS: usize = 5;

/// Tick, send, both acknowledged, and A saved after both.
fn two() -> [Event; EVENTS] {
    [fire_0(), fire_1(), FLUSH, Event::Ask(0), Event::Put(0)]
}

/// The plant that is read, and before it one line where memory was refused.
fn plant_read(rt: &impl Print, alloc: Global) -> Result<System, Fail> {
    let mut text = SAMPLE;
    match read_plant(alloc, &mut text) {
        Ok(system) => return Ok(system),
        Err(refused) if refused.fault == Fault::Memory => rt.println("plant")?,
        Err(_) => return Err(Fail::new("the plant is refused")),
    }
    let mut again = SAMPLE;
    Ok(read_plant(alloc, &mut again)?)
}

/// All that the device holds.
fn bytes_of(disk: &mut OpaqueDisk) -> Result<[u8; BYTES], Fail> {
    if disk.size()? < BYTES as u64 {
        return Err(Fail::new("the device is too small"));
    }
    let mut bytes = [0; BYTES];
    disk.read_at(0, &mut bytes)?;
    Ok(bytes)
}

/// A device of zeros.
fn new_disk(rt: &impl Print, alloc: Global) -> Result<OpaqueDisk, Fail> {
    if let Ok(disk) = MemDisk::with_cells(alloc, BYTES as u64, ROOM, CELL) {
        return Ok(OpaqueDisk::over(disk));
    }
    rt.println("device")?;
    Ok(OpaqueDisk::over(MemDisk::with_cells(alloc, BYTES as u64, ROOM, CELL)?))
}

/// The device, formatted for the plant.
fn formatted(
    rt: &impl Print,
    alloc: Global,
    system: &System,
    disk: OpaqueDisk,
) -> Result<OpaqueDisk, Fail> {
    let calls = disk.calls();
    let refused = match format(alloc, disk, system, 8) {
        Ok(disk) => return Ok(disk),
        Err(refused) => refused,
    };
    if refused.fault != FormatFault::Memory || refused.disk.calls() != calls {
        return Err(Fail::new("the device is not formatted"));
    }
    rt.println("format")?;
    match format(alloc, refused.disk, system, 8) {
        Ok(disk) => Ok(disk),
        Err(_) => Err(Fail::new("the device is not formatted")),
    }
}

/// The device with a full cell of the ring that no record needs: a boot empties it.
fn with_a_stale_cell(disk: OpaqueDisk) -> Result<OpaqueDisk, Fail> {
    let mut cells = Cells::new(disk);
    if cells.size()? / CELL <= FIFTH {
        return Err(Fail::new("no such cell"));
    }
    cells.replace(FIFTH, &[7; BODY])?;
    Ok(cells.into_disk())
}

/// Whether the device holds the same as before.
fn is_unchanged(disk: &mut OpaqueDisk, before: &[u8; BYTES]) -> Result<bool, Fail> {
    Ok(bytes_of(disk)? == *before)
}

/// The plant that the device is booted to.
fn booted<'s>(
    rt: &impl Print,
    alloc: Global,
    system: &'s System,
    disk: OpaqueDisk,
) -> Result<Plant<'s, OpaqueDisk>, Fail> {
    let mut disk = disk;
    let before = bytes_of(&mut disk)?;
    let mut refused = match boot(alloc, disk, system) {
        Ok(plant) => return Ok(plant),
        Err(refused) => refused,
    };
    if refused.fault != BootFault::Image(ImageFault::Memory)
        || !is_unchanged(&mut refused.disk, &before)?
    {
        return Err(Fail::new("the image is refused"));
    }
    rt.println("boot")?;
    match boot(alloc, refused.disk, system) {
        Ok(plant) => Ok(plant),
        Err(_) => Err(Fail::new("the image is refused")),
    }
}

/// Empty hands for so many atoms.
fn new_hands<'s>(rt: &impl Print, alloc: Global, atoms: usize) -> Result<Hands<'s>, Fail>
    ensures { IfOk result (λ hands. AreHandsFor atoms (hands_of hands)) }
{
    if let Ok(hands) = Hands::new(alloc, atoms) {
        return Ok(hands);
    }
    rt.println("hands")?;
    Ok(Hands::new(alloc, atoms)?)
}

/// The answers of the plant.
fn driven<'s>(
    rt: &impl Print,
    alloc: Global,
    plant: &mut Plant<'s, OpaqueDisk>,
    hands: &mut Hands<'s>,
) -> Result<Vec<Happened>, Fail>
    requires { AreHandsFor (length (definition_of plant.old).atoms) (hands_of hands.old) }
{
    let events = two();
    if let Ok(answers) = drive(alloc, plant, &events, hands) {
        return Ok(answers);
    }
    if plant.front() != settled(0) || value_of(plant, 0) != 0 {
        return Err(Fail::new("something was fired"));
    }
    rt.println("drive")?;
    Ok(drive(alloc, plant, &events, hands)?)
}

/// A device that is formatted for the plant, with a cell that a boot empties.
fn new_plant(rt: &impl Print, alloc: Global, system: &System) -> Result<OpaqueDisk, Fail> {
    let disk = new_disk(rt, alloc)?;
    with_a_stale_cell(formatted(rt, alloc, system, disk)?)
}

/// How many answers the plant gives.
fn answers_of(
    rt: &impl Print,
    alloc: Global,
    plant: &mut Plant<'_, OpaqueDisk>,
) -> Result<usize, Fail> {
    let mut hands = new_hands(rt, alloc, plant.system().atoms().len())?;
    let answers = driven(rt, alloc, plant, &mut hands)?;
    Ok(answers.len())
}

/// What the plant shows.
fn shown_by(plant: &Plant<'_, OpaqueDisk>) -> Shown {
    (value_of(plant, 0), value_of(plant, 1), plant.front())
}

/// The plant that the device is booted to, driven: how many answers there are, and what it shows then.
fn booted_and_driven(
    rt: &impl Print,
    alloc: Global,
    system: &System,
    disk: OpaqueDisk,
) -> Result<(usize, Shown), Fail> {
    let mut plant = booted(rt, alloc, system, disk)?;
    let count = answers_of(rt, alloc, &mut plant)?;
    Ok((count, shown_by(&plant)))
}

#[test]
fn a_refused_growth_changes_nothing(rt: HostRuntime) -> Result<(), Fail> {
    let alloc = rt.alloc();
    let system = plant_read(&rt, alloc)?;
    let disk = new_plant(&rt, alloc, &system)?;
    let found = booted_and_driven(&rt, alloc, &system, disk)?;
    assert!(rt; found == (EVENTS, (2, 1, settled(2))));
    Ok(())
}

/// What the stops of a run without events come to.
fn explored(rt: &impl Print, alloc: Global, system: &System) -> Result<Report, Fail> {
    match explore(alloc, system, 8, &[]) {
        Ok(report) => return Ok(report),
        Err(ExploreFault::Memory) => rt.println("explore")?,
    }
    Ok(explore(alloc, system, 8, &[])?)
}

/// Each of the run's 20 writes and syncs is stopped in four ways.
#[test]
fn a_refused_growth_ends_an_exploration(rt: HostRuntime) -> Result<(), Fail> {
    let alloc = rt.alloc();
    let system = plant_read(&rt, alloc)?;
    let report = explored(&rt, alloc, &system)?;
    assert_eq!(rt; (report.stops, report.boots, report.bad), (20, 80, 0));
    Ok(())
}
