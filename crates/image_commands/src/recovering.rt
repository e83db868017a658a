//! Telling where a plant stands by its image.
ghost use Rattle.std.specs.Prelude.{◌≡◌, ◌+◌, true, IfErr, IfOk, OnOk, Err};
ghost use Rattle.std.specs.Io.KnownBytes.{Appends};
ghost use Rattle.script_lines.specs.Answers.{standing_text};
ghost use Rattle.image_commands.specs.Seen.{plant_of, digest_of, View, seen_cells, BODY};
ghost use Rattle.image_commands.specs.Printed.{recovered_text};
ghost use Rattle.image_commands.specs.Runs.{StandsAsRead, fault_on};
ghost use Rattle.image_commands.specs.Endings.{IsOfNoRun, IsEndingOf};
ghost use Rattle.image_commands.specs.declared.refusal.ImageRefusal.{ImageRefusal};
ghost use Rattle.image_commands.specs.declared.ending.ImageEnding.TheVariants.{Refused};

use crate::booting::booted;
use crate::ending::ImageEnding;
use disk_model::Disk;
use plant_model::System;
use script_lines::print_standing;
use std::alloc::Global;
use std::io::Write;
use std::thread::Threads;
use text_io::hand_on;

/// Boots the plant of the system from the device, after any stop, and prints where it stands: the state of each atom, and how far it is.
pub fn recover_image<R: Threads + Sync, D: Disk + Drop, W: Write>(
    rt: &R,
    alloc: Global,
    system: &System,
    disk: D,
    output: &mut W,
) -> Result<D, ImageEnding>
    ensures printed { (D.state disk).keeps ≡ true → OnOk result (Appends (W.contents output.old) (W.contents output.new)
        (recovered_text (plant_of system.now) (seen_cells (BODY + 1) (D.state disk)))) }
    ensures shape { OnOk result ((v : View) × Appends (W.contents output.old) (W.contents output.new) (standing_text (plant_of system.now) v)) }
    ensures stands { (D.state disk).keeps ≡ true → IfOk result (λ image. StandsAsRead (plant_of system.now) (digest_of system.now) (D.state disk) (D.state image)) }
    ensures ending { (D.state disk).keeps ≡ true → IfErr result (IsEndingOf (fault_on (plant_of system.now) (digest_of system.now) (D.state disk))) }
    ensures no_run { IfErr result IsOfNoRun }
    ensures nothing_printed { (refusal : ImageRefusal) → result ≡ Err (Refused refusal) → output.new ≡ output.old }
{
    let plant = match booted(rt, alloc, system, disk) {
        Ok(plant) => plant,
        Err(refusal) => return Err(ImageEnding::Refused(refusal)),
    };
    print_standing(&plant, output)?;
    hand_on(output)?;
    plant.stands();
    Ok(plant.into_disk())
}
