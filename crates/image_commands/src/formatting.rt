//! Making an image.
ghost use Rattle.std.specs.Prelude.{◌≡◌, ◌≤◌, true, IfErr, IfOk, OnOk, Err};
ghost use Rattle.std.specs.Io.KnownBytes.{Appends};
ghost use Rattle.image_commands.specs.Seen.{plant_of, digest_of, LEAST_RING, MOST_RING, HasFormatted, formatted_size, size_of};
ghost use Rattle.image_commands.specs.Printed.{formatted_line, image_cells};
ghost use Rattle.image_commands.specs.Endings.{IsEndingOfFormat};
ghost use Rattle.image_commands.specs.declared.refusal.ImageRefusal.{ImageRefusal};
ghost use Rattle.image_commands.specs.declared.ending.ImageEnding.TheVariants.{Refused};

use crate::ending::ImageEnding;
use disk_model::{CELL, Disk};
use plant_model::System;
use record_codec::ring::device_cells;
use std::alloc::Global;
use std::io::Write;
use text_io::{WriteFault, end_line, hand_on, print_number, print_text};

/// How many cells the image of a plant has that has room for so many records.
fn image_cells(system: &System, ring: u32) -> u64
    ensures { result ≡ image_cells (plant_of system.now) ring }
{
    system.keeps_its_rules();
    device_cells(system.atoms().len() as u16, ring)
}

/// How many bytes a device has to have for the image of a plant that has room for so many records.
pub fn image_bytes(system: &System, ring: u32) -> u64
    requires { ring ≤ MOST_RING }
    ensures { result ≡ formatted_size (plant_of system.now) ring }
{
    CELL * image_cells(system, ring)
}

/// Makes of the device an image in which the plant stands in its first state, with room for so many records, and prints how many cells it
/// has. Whatever the device held is gone then.
pub fn format_image<D: Disk + Drop, W: Write>(
    alloc: Global,
    system: &System,
    ring: u32,
    disk: D,
    output: &mut W,
) -> Result<D, ImageEnding>
    requires ring_from { LEAST_RING ≤ ring }
    requires ring_to { ring ≤ MOST_RING }
    ensures printed { IfOk result (λ _. Appends (W.contents output.old) (W.contents output.new) (formatted_line (image_cells (plant_of system.now) ring))) }
    ensures sized { IfOk result (λ _. size_of (D.state disk) ≡ formatted_size (plant_of system.now) ring) }
    ensures formatted { (D.state disk).keeps ≡ true → IfOk result
        (λ image. HasFormatted (plant_of system.now) (digest_of system.now) ring (D.state image)) }
    ensures ending { IfErr result (IsEndingOfFormat (size_of (D.state disk)) (formatted_size (plant_of system.now) ring)) }
    ensures nothing_printed { (refusal : ImageRefusal) → result ≡ Err (Refused refusal) → output.new ≡ output.old }
{
    let image = match recovery::format(alloc, disk, system, ring) {
        Ok(image) => image,
        Err(refused) => return Err(ImageEnding::Refused(refused.fault.into())),
    };
    print_formatted(image_cells(system, ring), output)?;
    hand_on(output)?;
    Ok(image)
}

/// Prints how many cells a formatted image has.
fn print_formatted<W: Write>(cells: u64, output: &mut W) -> Result<(), WriteFault>
    ensures { OnOk result (Appends (W.contents output.old) (W.contents output.new) (formatted_line cells)) }
{
    print_text(output, b"formatted ")?;
    print_number(output, cells)?;
    end_line(output)
}
