//! Running a plant on its image by workers.
ghost use Rattle.std.specs.Prelude.{◌≡◌, ◌≤◌, true, IfErr, IfOk, Err};
ghost use Rattle.disk_model.specs.DiskState.{DiskState};
ghost use Rattle.engine_host.specs.declared.opening.TheConstants.{MOST_SEATS};
ghost use Rattle.plant_model.specs.System.{digest_of, plant_of};
ghost use Rattle.plant_core.specs.View.{View};
ghost use Rattle.image_commands.specs.Runs.{fault_on};
ghost use Rattle.image_commands.specs.declared.refusal.ImageRefusal.{ImageRefusal};
ghost use Rattle.image_commands.specs.declared.ending.ImageEnding.TheVariants.{Failed, Refused};
ghost use Rattle.worker_runs.specs.Runs.{HasRunByWorkers, IsRunByWorkers, IsEndingOfWorkers};
ghost use Rattle.worker_runs.specs.declared.ending.WorkersEnding.TheVariants.{Image, Memory};

use crate::ending::WorkersEnding;
use crate::printing::print_fired;
use crate::progress::RunProgress;
use crate::sharing::share_out;
use disk_model::Disk;
use engine_host::{Closed, name};
use image_commands::{ImageEnding, booted};
use plant_core::Event;
use plant_model::System;
use script_lines::print_standing;
use std::alloc::Global;
use std::io::Write;
use std::marker::Brand;
use std::sync::Wait;
use std::thread::Threads;
use text_io::hand_on;

/// Boots the plant of the system from the device, after any stop, and has so many workers ask the events of it, each in a thread where one can be
/// made: the event at a place, counted from 0, is of the worker with that number modulo theirs. Then it prints where the plant stands, and how
/// many choices were fired. Answers are not printed, and a refusal stops nobody.
// By itself it has a frame of its own, so that a run without workers needs no more stack for it.
#[inline(never)]
pub fn run_by_workers<R: Threads + Wait + Sync, D: Disk + Drop + Send, W: Write, P: RunProgress>(
    rt: &R,
    alloc: Global,
    system: &System,
    events: &[Event],
    workers: usize,
    disk: D,
    output: &mut W,
    progress: &P,
) -> Result<D, WorkersEnding>
    requires from { 1 ≤ workers }
    requires to { workers ≤ MOST_SEATS }
    ensures ran { IfOk result (λ image. HasRunByWorkers (plant_of system.now) (digest_of system.now) (D.state disk) workers events.now (D.state image) (W.contents output.old) (W.contents output.new)) }
    ensures failed { result ≡ Err (Image Failed) → (after : View) × (after.broken ≡ true) × IsRunByWorkers (plant_of system.now) (digest_of system.now) (D.state disk) workers events.now after (W.contents output.old) (W.contents output.new) }
    ensures ending { (D.state disk).keeps ≡ true → IfErr result (IsEndingOfWorkers (fault_on (plant_of system.now) (digest_of system.now) (D.state disk))) }
    ensures nothing_printed { (refusal : ImageRefusal) → result ≡ Err (Image (Refused refusal)) → output.new ≡ output.old }
    ensures no_memory { result ≡ Err Memory → output.new ≡ output.old }
{
    let plant = match booted(rt, alloc, system, disk) {
        Ok(plant) => plant,
        Err(refusal) => return Err(WorkersEnding::Image(ImageEnding::Refused(refusal))),
    };
    let Ok(named) = name(alloc, &plant, workers) else {
        return Err(WorkersEnding::Memory);
    };
    let Ok(Closed { fired, plant }) = share_out::<D, Brand, _, _>(
        rt, alloc, named, plant, events, progress,
    ) else {
        return Err(WorkersEnding::Memory);
    };
    progress.hide();
    print_standing(&plant, output)?;
    print_fired(fired, output)?;
    hand_on(output)?;
    if plant.is_broken() {
        return Err(WorkersEnding::Image(ImageEnding::Failed));
    }
    plant.stands();
    Ok(plant.into_disk())
}
