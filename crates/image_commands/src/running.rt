//! Running a plant on its image.
ghost use Rattle.std.specs.Prelude.{◌≡◌, true, IfErr, IfOk, Err};
ghost use Rattle.image_commands.specs.Seen.{plant_of, digest_of, View, DiskState};
ghost use Rattle.image_commands.specs.Runs.{HasRunOn, IsRunOn, fault_on};
ghost use Rattle.image_commands.specs.Strict.{HasRunStrictlyOn};
ghost use Rattle.image_commands.specs.Endings.{IsEndingOf};
ghost use Rattle.image_commands.specs.declared.refusal.ImageRefusal.{ImageRefusal};
ghost use Rattle.image_commands.specs.declared.ending.ImageEnding.TheVariants.{Failed, Refused};

use crate::booting::booted;
use crate::ending::ImageEnding;
use crate::refusal::ImageRefusal;
use disk_model::Disk;
use plant_core::{Event, Hands};
use plant_image::ImageFault;
use plant_model::System;
use script_lines::{Stop, run_script, run_strictly};
use std::alloc::Global;
use std::io::Write;
use std::thread::Threads;

/// Boots the plant of the system from the device, after any stop, asks the events of it, one after another, and prints the answer of each; after
/// them, where the plant then stands. What was printed is handed on before each event that makes calls of the device, and at the
/// end. The hands of the atoms are empty at first; they are made before the device is asked for anything.
// It has a frame of its own, so that a caller of several runs needs no more stack than for one.
#[inline(never)]
pub fn run_image<R: Threads + Sync, D: Disk + Drop, W: Write>(
    rt: &R,
    alloc: Global,
    system: &System,
    events: &[Event],
    disk: D,
    output: &mut W,
) -> Result<D, ImageEnding>
    ensures ran { IfOk result (λ image. HasRunOn (plant_of system.now) (digest_of system.now) (D.state disk) events.now (D.state image) (W.contents output.old) (W.contents output.new)) }
    ensures failed { result ≡ Err Failed → (after : View) × ((image : DiskState) × IsRunOn (plant_of system.now) (digest_of system.now) (D.state disk) events.now true after image (W.contents output.old) (W.contents output.new)) }
    ensures ending { (D.state disk).keeps ≡ true → IfErr result (IsEndingOf (fault_on (plant_of system.now) (digest_of system.now) (D.state disk))) }
    ensures nothing_printed { (refusal : ImageRefusal) → result ≡ Err (Refused refusal) → output.new ≡ output.old }
{
    let mut hands = match Hands::new(alloc, system.atoms().len()) {
        Ok(hands) => hands,
        Err(_) => return Err(ImageEnding::Refused(ImageRefusal::Image(ImageFault::Memory))),
    };
    let mut plant = match booted(rt, alloc, system, disk) {
        Ok(plant) => plant,
        Err(refusal) => return Err(ImageEnding::Refused(refusal)),
    };
    if run_script(&mut plant, &mut hands, events, output)? {
        return Err(ImageEnding::Failed);
    }
    plant.stands();
    Ok(plant.into_disk())
}

/// The device behind a strict run, and where that ended.
#[derive(Drop)]
pub struct StrictRun<D> {
    /// At which event the run ended, and why, if one was refused.
    pub stop: Option<Stop>,
    /// The device. Where it failed in the last call, it stands for the state after some front of what was not acknowledged.
    pub disk: D,
}

/// Runs the plant as [`run_image`] does, up to the first event that is refused, as [`run_strictly`] does.
// It has a frame of its own, so that a caller of several runs needs no more stack than for one.
#[inline(never)]
pub fn run_image_strictly<R: Threads + Sync, D: Disk + Drop, W: Write>(
    rt: &R,
    alloc: Global,
    system: &System,
    events: &[Event],
    disk: D,
    output: &mut W,
) -> Result<StrictRun<D>, ImageEnding>
    ensures ran { IfOk result (λ r. HasRunStrictlyOn (plant_of system.now) (digest_of system.now) (D.state disk) events.now r.stop (D.state r.disk) (W.contents output.old) (W.contents output.new)) }
    ensures ending { (D.state disk).keeps ≡ true → IfErr result (IsEndingOf (fault_on (plant_of system.now) (digest_of system.now) (D.state disk))) }
    ensures nothing_printed { (refusal : ImageRefusal) → result ≡ Err (Refused refusal) → output.new ≡ output.old }
{
    let mut hands = match Hands::new(alloc, system.atoms().len()) {
        Ok(hands) => hands,
        Err(_) => return Err(ImageEnding::Refused(ImageRefusal::Image(ImageFault::Memory))),
    };
    let mut plant = match booted(rt, alloc, system, disk) {
        Ok(plant) => plant,
        Err(refusal) => return Err(ImageEnding::Refused(refusal)),
    };
    let stop = run_strictly(&mut plant, &mut hands, events, output)?;
    plant.stands();
    Ok(StrictRun {
        stop,
        disk: plant.into_disk(),
    })
}
