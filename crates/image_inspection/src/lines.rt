//! The lines of an image.
ghost use Rattle.std.specs.Prelude.{◌≡◌, ◌++◌, codes, decimal, flat_map, option_copied};
ghost use Rattle.std.specs.List.{range_with_len};
ghost use Rattle.hex.specs.Hex.{encode_lower};
ghost use Rattle.image_inspection.specs.Inspected.{IsWithin};
ghost use Rattle.image_inspection.specs.Lines.{answer_line, atom_line, atom_words, base_line, base_words, held_line, holding_words, identity_words, image_line, keeper_word, leads_words, missing_line, newest_words, room_words};
ghost use Rattle.image_inspection.specs.Seen.{Prints, contents_in};
ghost use Rattle.snapshot_writer.specs.Slots.{newest};

use crate::contents::{last_number, newest};
use crate::holding::{behind, first_held, keeps_base};
use crate::listing::print_saved;
use crate::places::{print_atom, print_option, print_refusal};
use disk_model::{BODY, CELL};
use plant_image::{Held, ImageFault};
use plant_model::System;
use record_codec::Identity;
use std::io::Write;
use text_io::{WriteFault, end_line, print_number, print_text};
use trimmer::{Mark, SavedAt};

/// Prints for which plant text and ring the image was formatted, and how many whole cells the device has.
pub(crate) fn print_image_line<W: Write>(
    identity: &Option<Identity>,
    bytes: u64,
    output: &mut W,
) -> Result<(), WriteFault>
    ensures { Prints result (W.contents output.old) (W.contents output.new) (image_line identity.now bytes) }
{
    print_text(output, b"image ")?;
    print_identity(identity, output)?;
    print_text(output, b" cells ")?;
    print_number(output, bytes / CELL)?;
    end_line(output)
}

/// Prints for which plant text and ring the image was formatted.
fn print_identity<W: Write>(identity: &Option<Identity>, output: &mut W) -> Result<(), WriteFault>
    ensures { Prints result (W.contents output.old) (W.contents output.new) (identity_words identity.now) }
{
    match identity {
        Some(identity) => {
            print_text(output, &digits_of(identity.digest()))?;
            print_text(output, b" ring ")?;
            print_number(output, u64::from(identity.ring()))
        }
        None => print_text(output, b"- ring -"),
    }
}

/// A digest as 64 digits of base 16.
pub(crate) fn digits_of(digest: &[u8; 32]) -> [u8; 64]
    ensures { result ≡ encode_lower digest.now }
{
    let mut digits = [0; 64];
    let _written = hex::encode_to_slice(digest.as_slice(), &mut digits);
    digits
}

/// Prints the first record that is kept, the last number, how many are live, and for how many more there is room.
pub(crate) fn print_base_line<W: Write>(
    base: Option<u64>,
    held: &Held,
    output: &mut W,
) -> Result<(), WriteFault>
    requires { IsWithin held.now }
    ensures { Prints result (W.contents output.old) (W.contents output.new) (base_line base (contents_in held.now)) }
{
    print_base_words(base, held, output)?;
    print_room(held, output)
}

/// Prints the first record that is kept, and the last number.
fn print_base_words<W: Write>(
    base: Option<u64>,
    held: &Held,
    output: &mut W,
) -> Result<(), WriteFault>
    requires { IsWithin held.now }
    ensures { Prints result (W.contents output.old) (W.contents output.new) (base_words base (contents_in held.now)) }
{
    print_text(output, b"base ")?;
    print_option(base, output)?;
    print_text(output, b" last ")?;
    print_number(output, last_number(held))
}

/// Prints how many records are live, and for how many more there is room.
fn print_room<W: Write>(held: &Held, output: &mut W) -> Result<(), WriteFault>
    requires { IsWithin held.now }
    ensures { Prints result (W.contents output.old) (W.contents output.new) (room_words (contents_in held.now)) }
{
    let live = held.records.len() as u64;
    print_text(output, b" live ")?;
    print_number(output, live)?;
    print_text(output, b" free ")?;
    print_number(output, u64::from(held.ring) - live)?;
    end_line(output)
}

/// Prints a line for each of the atoms.
pub(crate) fn print_atoms<W: Write>(
    names: Option<&System>,
    atoms: u16,
    cells: &[Option<[u8; BODY]>],
    saved: &[SavedAt],
    marks: &[Mark],
    output: &mut W,
) -> Result<(), WriteFault>
    ensures { Prints result (W.contents output.old) (W.contents output.new)
        (flat_map (atom_line (option_copied names.entry) cells.now saved.now marks.now) (range_with_len 0 atoms)) }
{
    for atom in 0..atoms {
        print_atom_line(names, atom, cells, saved, marks, output)?;
    }
    Ok(())
}

/// Prints the line of an atom: its newest saved state, how many firings come after it, and the first record that it holds.
fn print_atom_line<W: Write>(
    names: Option<&System>,
    atom: u16,
    cells: &[Option<[u8; BODY]>],
    saved: &[SavedAt],
    marks: &[Mark],
    output: &mut W,
) -> Result<(), WriteFault>
    ensures { Prints result (W.contents output.old) (W.contents output.new) (atom_line (option_copied names.entry) cells.now saved.now marks.now atom) }
{
    print_atom_words(names, atom, cells, output)?;
    print_holding(saved, marks, atom, output)
}

/// Prints an atom, and its newest saved state.
fn print_atom_words<W: Write>(
    names: Option<&System>,
    atom: u16,
    cells: &[Option<[u8; BODY]>],
    output: &mut W,
) -> Result<(), WriteFault>
    ensures { Prints result (W.contents output.old) (W.contents output.new) (atom_words (option_copied names.entry) cells.now atom) }
{
    print_text(output, b"atom ")?;
    print_atom(names, atom, output)?;
    print_text(output, b" ")?;
    print_newest(atom, cells, output)
}

/// Prints how many firings of an atom come after its newest saved state, and the first record that it holds.
fn print_holding<W: Write>(
    saved: &[SavedAt],
    marks: &[Mark],
    atom: u16,
    output: &mut W,
) -> Result<(), WriteFault>
    ensures { Prints result (W.contents output.old) (W.contents output.new) (holding_words saved.now marks.now atom) }
{
    print_text(output, b" behind ")?;
    print_number(output, behind(saved, marks, atom))?;
    print_text(output, b" holds ")?;
    print_option(first_held(saved, marks, atom), output)?;
    end_line(output)
}

/// Prints the newest saved state of an atom: how often the atom had taken part, and the last record when it was copied.
fn print_newest<W: Write>(
    atom: u16,
    cells: &[Option<[u8; BODY]>],
    output: &mut W,
) -> Result<(), WriteFault>
    ensures { Prints result (W.contents output.old) (W.contents output.new) (newest_words (newest atom cells.now)) }
{
    match newest(atom, cells) {
        Some(saved) => print_saved(&saved, output),
        None => print_text(output, b"saved - at -"),
    }
}

/// Prints the atoms that keep the base where it is.
pub(crate) fn print_held_line<W: Write>(
    names: Option<&System>,
    atoms: u16,
    saved: &[SavedAt],
    marks: &[Mark],
    output: &mut W,
) -> Result<(), WriteFault>
    ensures { Prints result (W.contents output.old) (W.contents output.new) (held_line (option_copied names.entry) atoms saved.now marks.now) }
{
    print_text(output, b"held")?;
    print_keepers(names, atoms, saved, marks, output)?;
    end_line(output)
}

/// Prints each of the atoms that keeps the base where it is, with a space before it.
fn print_keepers<W: Write>(
    names: Option<&System>,
    atoms: u16,
    saved: &[SavedAt],
    marks: &[Mark],
    output: &mut W,
) -> Result<(), WriteFault>
    ensures { Prints result (W.contents output.old) (W.contents output.new)
        (flat_map (keeper_word (option_copied names.entry) saved.now marks.now) (range_with_len 0 atoms)) }
{
    for atom in 0..atoms {
        print_keeper(names, saved, marks, atom, output)?;
    }
    Ok(())
}

/// Prints an atom with a space before it, if it keeps the base where it is.
fn print_keeper<W: Write>(
    names: Option<&System>,
    saved: &[SavedAt],
    marks: &[Mark],
    atom: u16,
    output: &mut W,
) -> Result<(), WriteFault>
    ensures { Prints result (W.contents output.old) (W.contents output.new) (keeper_word (option_copied names.entry) saved.now marks.now atom) }
{
    if keeps_base(saved, marks, atom) {
        print_text(output, b" ")?;
        print_atom(names, atom, output)
    } else {
        print_text(output, b"")
    }
}

/// Prints that there are so many interactions more than the atoms took part in, if there are any.
pub(crate) fn print_missing<W: Write>(count: u64, output: &mut W) -> Result<(), WriteFault>
    ensures { Prints result (W.contents output.old) (W.contents output.new) (missing_line count) }
{
    if count > 0 {
        print_text(output, b"doubt: ")?;
        print_number(output, count)?;
        print_text(output, b" more interactions than the atoms took part in\n")
    } else {
        print_text(output, b"")
    }
}

/// Prints what a boot would answer; without a plant, how far the image reads.
pub(crate) fn print_answer<W: Write>(
    plant: Option<&System>,
    names: Option<&System>,
    atoms: u16,
    held: &Held,
    fault: Option<ImageFault>,
    output: &mut W,
) -> Result<(), WriteFault>
    requires { IsWithin held.now }
    ensures { Prints result (W.contents output.old) (W.contents output.new)
        (answer_line (option_copied plant.entry) (option_copied names.entry) atoms (contents_in held.now) fault) }
{
    match fault {
        Some(fault) => print_refusal(names, atoms, held, fault, output),
        None => print_leads(plant, last_number(held), output),
    }
}

/// Prints to which number the image boots, or without a plant reads.
fn print_leads<W: Write>(
    plant: Option<&System>,
    last: u64,
    output: &mut W,
) -> Result<(), WriteFault>
    ensures { Prints result (W.contents output.old) (W.contents output.new)
        (leads_words (option_copied plant.entry) ++ decimal last ++ codes "\n") }
{
    match plant {
        Some(_) => print_text(output, b"boots to ")?,
        None => print_text(output, b"reads to ")?,
    }
    print_number(output, last)?;
    end_line(output)
}
