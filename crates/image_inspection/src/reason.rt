//! What more is told of an image that a boot refuses.
ghost use Rattle.std.specs.Prelude.{◌≡◌, ◌⊎◌, true, false, option_copied, IfErr, OnOk};
ghost use Rattle.std.specs.Io.KnownBytes.{Appends};
ghost use Rattle.image_inspection.specs.Endings.{IsUnwritten, has_failed, is_disk};
ghost use Rattle.image_inspection.specs.Inspected.{IsWithin, atoms_told, inspected_cells};
ghost use Rattle.image_inspection.specs.Reasons.{both_sizes_words, both_texts_words, fault_text, no_cell_words, plant_words, reason_text, sizes_words, texts_of_plant, texts_words};
ghost use Rattle.image_inspection.specs.Seen.{Prints, Reads, contents_in, identity_held, size_of};

use crate::contents::identity_held;
use crate::ending::InspectionEnding;
use crate::inspecting::find;
use crate::lines::digits_of;
use crate::naming::{atom_count, atoms_told, names_told};
use crate::places::print_place;
use crate::reading::{ReadCells, load_cells};
use disk_model::{BODY, CELL};
use plant_image::{Held, ImageFault};
use plant_model::System;
use record_codec::Identity;
use record_codec::ring::device_cells;
use std::alloc::Global;
use std::io::Write;
use text_io::{WriteFault, end_line, hand_on, print_number, print_text};

/// Prints more of what is wrong with an image: both sizes, for which plant it was made, or where in the image the fault is. Of another fault, and of
/// none, it prints nothing. It is the fault that a boot of the plant would answer; without a plant, what is wrong whatever the plant. Nothing is written to the device, and it is not synced.
pub fn print_reason<C: ReadCells, W: Write>(
    alloc: Global,
    plant: Option<&System>,
    cells: &mut C,
    output: &mut W,
) -> Result<(), InspectionEnding>
    ensures reads { Reads (has_failed result) (C.state cells.old) (C.state cells.new) }
    ensures printed { (C.state cells.old).keeps ≡ true → OnOk result (Appends (W.contents output.old) (W.contents output.new)
        (reason_text (option_copied plant.entry) (size_of (C.state cells.old)) (inspected_cells (C.state cells.old)))) }
    ensures nothing_printed { IfErr result (λ ending. IsUnwritten ending ⊎ (output.new ≡ output.old)) }
{
    let bytes = cells.bytes()?;
    let list = load_cells(alloc, cells, bytes)?;
    print_reason_in(alloc, plant, bytes, &list, output)
}

/// Prints the same of an image of so many bytes with these cells.
fn print_reason_in<W: Write>(
    alloc: Global,
    plant: Option<&System>,
    bytes: u64,
    cells: &[Option<[u8; BODY]>],
    output: &mut W,
) -> Result<(), InspectionEnding>
    ensures printed { OnOk result (Appends (W.contents output.old) (W.contents output.new) (reason_text (option_copied plant.entry) bytes cells.now)) }
    ensures no_failure { IfErr result (λ ending. is_disk ending ≡ false) }
    ensures nothing_printed { IfErr result (λ ending. IsUnwritten ending ⊎ (output.new ≡ output.old)) }
{
    let identity = identity_held(cells);
    let atoms = atoms_told(plant, &identity);
    let found = find(alloc, plant, atoms, bytes, cells)?;
    match found.fault {
        Some(fault) => print_fault_text(
            plant,
            bytes,
            &identity,
            atoms,
            &found.held,
            fault,
            output,
        )?,
        None => print_text(output, b"")?,
    }
    hand_on(output)?;
    Ok(())
}

/// Prints more of a fault.
fn print_fault_text<W: Write>(
    plant: Option<&System>,
    bytes: u64,
    identity: &Option<Identity>,
    atoms: u16,
    held: &Held,
    fault: ImageFault,
    output: &mut W,
) -> Result<(), WriteFault>
    requires within { IsWithin held.now }
    requires atoms { atoms ≡ atoms_told (option_copied plant) identity.now }
    ensures { Prints result (W.contents output.old) (W.contents output.new) (fault_text (option_copied plant.entry) bytes identity.now (contents_in held.now) fault) }
{
    match fault {
        ImageFault::NotFormatted | ImageFault::OtherVersion | ImageFault::Memory => {
            print_text(output, b"")
        }
        ImageFault::OtherSystem => {
            print_text(output, b"  ")?;
            print_texts(plant, identity, output)?;
            end_line(output)
        }
        ImageFault::WrongSize => {
            print_text(output, b"  ")?;
            print_sizes(bytes, identity, output)?;
            end_line(output)
        }
        ImageFault::Damaged(_) | ImageFault::Gap(_) | ImageFault::NotEnabled(_, _) => {
            print_text(output, b"  ")?;
            print_place(names_told(plant, identity), atoms, held, fault, output)?;
            end_line(output)
        }
    }
}

/// Prints how many bytes the file has, and how many its image, if the first cell says so.
fn print_sizes<W: Write>(
    bytes: u64,
    identity: &Option<Identity>,
    output: &mut W,
) -> Result<(), WriteFault>
    ensures { Prints result (W.contents output.old) (W.contents output.new) (sizes_words bytes identity.now) }
{
    match identity {
        None => print_no_cell(bytes, output),
        Some(identity) => print_both_sizes(bytes, identity, output),
    }
}

/// Prints how many bytes the file has, which is less than a cell.
fn print_no_cell<W: Write>(bytes: u64, output: &mut W) -> Result<(), WriteFault>
    ensures { Prints result (W.contents output.old) (W.contents output.new) (no_cell_words bytes) }
{
    print_text(output, b"the file has ")?;
    print_number(output, bytes)?;
    print_text(output, b" bytes, and no whole cell")
}

/// Prints how many bytes the file has, and how many its image.
fn print_both_sizes<W: Write>(
    bytes: u64,
    identity: &Identity,
    output: &mut W,
) -> Result<(), WriteFault>
    ensures { Prints result (W.contents output.old) (W.contents output.new) (both_sizes_words bytes identity.now) }
{
    print_text(output, b"the file has ")?;
    print_number(output, bytes)?;
    print_text(output, b" bytes, its image ")?;
    print_number(
        output,
        CELL * device_cells(identity.atoms(), identity.ring()),
    )
}

/// Prints for which plant text the image was made, and which the plant's is, if there is a plant.
fn print_texts<W: Write>(
    plant: Option<&System>,
    identity: &Option<Identity>,
    output: &mut W,
) -> Result<(), WriteFault>
    ensures { Prints result (W.contents output.old) (W.contents output.new) (texts_words (option_copied plant.entry) identity.now) }
{
    match plant {
        None => print_text(output, b""),
        Some(system) => print_texts_of_plant(system, identity, output),
    }
}

/// Prints the same, if the first cell says for which text the image was made.
fn print_texts_of_plant<W: Write>(
    system: &System,
    identity: &Option<Identity>,
    output: &mut W,
) -> Result<(), WriteFault>
    ensures { Prints result (W.contents output.old) (W.contents output.new) (texts_of_plant system.now identity.now) }
{
    match identity {
        None => print_text(output, b""),
        Some(identity) => print_both_texts(system, identity, output),
    }
}

/// Prints for which plant text the image was made, and which the plant's is.
fn print_both_texts<W: Write>(
    system: &System,
    identity: &Identity,
    output: &mut W,
) -> Result<(), WriteFault>
    ensures { Prints result (W.contents output.old) (W.contents output.new) (both_texts_words system.now identity.now) }
{
    print_text(output, b"the image is for ")?;
    print_plant(identity.atoms(), identity.digest(), output)?;
    print_text(output, b"; this plant has ")?;
    print_plant(atom_count(system), system.digest(), output)
}

/// Prints how many atoms a plant has, and the digest of its text.
fn print_plant<W: Write>(atoms: u16, digest: &[u8; 32], output: &mut W) -> Result<(), WriteFault>
    ensures { Prints result (W.contents output.old) (W.contents output.new) (plant_words atoms digest.now) }
{
    print_number(output, u64::from(atoms))?;
    print_text(output, b" atoms and the text ")?;
    print_text(output, &digits_of(digest))
}
