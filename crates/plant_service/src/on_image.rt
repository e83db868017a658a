//! Serving a plant on its image.
ghost use Rattle.std.specs.Prelude.{◌≡◌, true, IfErr, IfOk, IfSome, Err};
ghost use Rattle.image_commands.specs.Seen.{plant_of, digest_of, View, DiskState};
ghost use Rattle.image_commands.specs.Runs.{fault_on};
ghost use Rattle.image_commands.specs.declared.refusal.ImageRefusal.{ImageRefusal};
ghost use Rattle.image_commands.specs.declared.ending.ImageEnding.TheVariants.{Failed, Refused};
ghost use Rattle.plant_service.specs.Endings.{IsEndingOf};
ghost use Rattle.plant_service.specs.Served.{HasServedOn, IsServedOn};
ghost use Rattle.plant_service.specs.declared.ending.ServiceEnding.TheVariants.{Image};

use crate::ending::ServiceEnding;
use crate::serving::serve;
use disk_model::Disk;
use image_commands::{ImageEnding, booted};
use plant_model::System;
use std::alloc::Global;
use std::io::{BufRead, Write};
use std::thread::Threads;

/// Boots the plant of the system from the device, after any stop, and serves it: prints where it stands, answers each line of the input until one
/// asks to quit, or to its end, and prints how far the plant is then. Rule k of the plant stands on the line `rule_lines[k]` of its text.
pub fn serve_image<R: Threads + Sync, D: Disk + Drop, I: BufRead, W: Write>(
    rt: &R,
    alloc: Global,
    system: &System,
    rule_lines: &[u32],
    disk: D,
    input: &mut I,
    output: &mut W,
) -> Result<D, ServiceEnding>
    ensures served { IfOk result (λ image. IfSome (I.remaining input.old) (λ bytes. HasServedOn (plant_of system.now) (digest_of system.now) rule_lines.now (D.state disk) bytes (D.state image) (W.contents output.old) (W.contents output.new))) }
    ensures failed { result ≡ Err (Image Failed) → IfSome (I.remaining input.old) (λ bytes. (after : View) × ((image : DiskState) × IsServedOn (plant_of system.now) (digest_of system.now) rule_lines.now (D.state disk) bytes true after image (W.contents output.old) (W.contents output.new))) }
    ensures ending { (D.state disk).keeps ≡ true → IfErr result (IsEndingOf (fault_on (plant_of system.now) (digest_of system.now) (D.state disk))) }
    ensures nothing_printed { (refusal : ImageRefusal) → result ≡ Err (Image (Refused refusal)) → output.new ≡ output.old }
{
    let mut plant = match booted(rt, alloc, system, disk) {
        Ok(plant) => plant,
        Err(refusal) => return Err(ServiceEnding::Image(ImageEnding::Refused(refusal))),
    };
    if serve(alloc, &mut plant, rule_lines, input, output)? {
        return Err(ServiceEnding::Image(ImageEnding::Failed));
    }
    plant.stands();
    Ok(plant.into_disk())
}
