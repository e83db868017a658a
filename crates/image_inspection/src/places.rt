//! The line of a refusal: what a boot would answer, and where in the image that is.
ghost use Rattle.std.specs.Prelude.{◌≡◌, ◌≤◌, ◌==◌, option_copied};
ghost use Rattle.record_codec.specs.Ring.{record_cell};
ghost use Rattle.image_inspection.specs.Inspected.{IsWithin};
ghost use Rattle.image_inspection.specs.Places.{atom_word, cell_words, fault_words, number_at, number_word, place_words, refusal_line, slot_words};
ghost use Rattle.image_inspection.specs.Seen.{Prints, contents_in};
ghost use Rattle.plant_image.specs.declared.fault.ImageFault.TheVariants.{NotEnabled};

use plant_image::{Held, ImageFault};
use plant_model::System;
use record_codec::ring::{IDENTITY_CELL, base_cell, record_cell, slot_cell};
use script_lines::atom_name;
use std::io::Write;
use text_io::{WriteFault, end_line, print_number, print_text};

/// Prints the line of a refusal.
pub(crate) fn print_refusal<W: Write>(
    names: Option<&System>,
    atoms: u16,
    held: &Held,
    fault: ImageFault,
    output: &mut W,
) -> Result<(), WriteFault>
    requires { IsWithin held.now }
    ensures { Prints result (W.contents output.old) (W.contents output.new) (refusal_line (option_copied names.entry) atoms (contents_in held.now) fault) }
{
    print_text(output, b"refusal ")?;
    print_fault(fault, output)?;
    print_text(output, b": ")?;
    print_place(names, atoms, held, fault, output)?;
    end_line(output)
}

/// Prints the number and the name of a refusal.
fn print_fault<W: Write>(fault: ImageFault, output: &mut W) -> Result<(), WriteFault>
    ensures { Prints result (W.contents output.old) (W.contents output.new) (fault_words fault) }
{
    match fault {
        ImageFault::NotFormatted => print_text(output, b"1 NotFormatted"),
        ImageFault::OtherVersion => print_text(output, b"2 OtherVersion"),
        ImageFault::OtherSystem => print_text(output, b"3 OtherSystem"),
        ImageFault::WrongSize => print_text(output, b"4 WrongSize"),
        ImageFault::Damaged(k) => {
            print_text(output, b"5 Damaged(")?;
            print_number(output, k)?;
            print_text(output, b")")
        }
        ImageFault::Gap(atom) => {
            print_text(output, b"6 Gap(")?;
            print_number(output, u64::from(atom))?;
            print_text(output, b")")
        }
        ImageFault::NotEnabled(number, atom) => print_not_enabled(number, atom, output),
        ImageFault::Memory => print_text(output, b"9 Memory"),
    }
}

/// Prints the number and the name of the refusal for a transition of the atom that is not enabled.
fn print_not_enabled<W: Write>(number: u64, atom: u16, output: &mut W) -> Result<(), WriteFault>
    ensures { Prints result (W.contents output.old) (W.contents output.new) (fault_words (NotEnabled number atom)) }
{
    print_text(output, b"7 NotEnabled(")?;
    print_number(output, number)?;
    print_text(output, b", ")?;
    print_number(output, u64::from(atom))?;
    print_text(output, b")")
}

/// Prints the place of a refusal.
pub(crate) fn print_place<W: Write>(
    names: Option<&System>,
    atoms: u16,
    held: &Held,
    fault: ImageFault,
    output: &mut W,
) -> Result<(), WriteFault>
    requires { IsWithin held.now }
    ensures { Prints result (W.contents output.old) (W.contents output.new) (place_words (option_copied names.entry) atoms (contents_in held.now) fault) }
{
    match fault {
        ImageFault::NotFormatted | ImageFault::OtherVersion | ImageFault::OtherSystem => {
            print_text(output, b"identity")
        }
        ImageFault::WrongSize => print_text(output, b"size"),
        ImageFault::Damaged(k) => print_cell(names, atoms, held, k, output),
        ImageFault::Gap(atom) => {
            print_text(output, b"atom ")?;
            print_atom(names, atom, output)
        }
        ImageFault::NotEnabled(number, atom) => {
            print_text(output, b"record ")?;
            print_number(output, number)?;
            print_text(output, b", atom ")?;
            print_atom(names, atom, output)
        }
        ImageFault::Memory => print_text(output, b"memory"),
    }
}

/// Prints what stands in cell `k`.
fn print_cell<W: Write>(
    names: Option<&System>,
    atoms: u16,
    held: &Held,
    k: u64,
    output: &mut W,
) -> Result<(), WriteFault>
    requires { IsWithin held.now }
    ensures { Prints result (W.contents output.old) (W.contents output.new) (cell_words (option_copied names.entry) atoms (contents_in held.now) k) }
{
    if k == IDENTITY_CELL {
        print_text(output, b"identity")
    } else if k == base_cell(0) {
        print_text(output, b"first base")
    } else if k == base_cell(1) {
        print_text(output, b"second base")
    } else if k < slot_cell(atoms, 0) {
        let place = k - slot_cell(0, 0);
        print_slot(names, (place / 2) as u16, (place % 2) as u8, output)
    } else {
        print_text(output, b"record ")?;
        print_option(number_at(atoms, held, k), output)
    }
}

/// Prints which slot it is, and of which atom.
pub(crate) fn print_slot<W: Write>(
    names: Option<&System>,
    atom: u16,
    slot: u8,
    output: &mut W,
) -> Result<(), WriteFault>
    ensures { Prints result (W.contents output.old) (W.contents output.new) (slot_words (option_copied names.entry) atom slot) }
{
    print_text(output, b"slot ")?;
    print_number(output, u64::from(slot))?;
    print_text(output, b" of atom ")?;
    print_atom(names, atom, output)
}

/// The record of the round that begins at the base which has cell `k`.
fn number_at(atoms: u16, held: &Held, k: u64) -> Option<u64>
    requires { IsWithin held.now }
    ensures { result ≡ number_at atoms (contents_in held.now) k }
{
    let ring = held.ring;
    for number in held.base..held.base + u64::from(ring) {
        if has_cell(atoms, ring, number, k) {
            return Some(number);
        }
    }
    None
}

/// Whether the record with the number has cell `k`.
fn has_cell(atoms: u16, ring: u32, number: u64, k: u64) -> bool
    requires { 1 ≤ ring }
    ensures { result ≡ (record_cell atoms ring number == k) }
{
    record_cell(atoms, ring, number) == k
}

/// Prints a number, or `-` if there is none.
pub(crate) fn print_option<W: Write>(number: Option<u64>, output: &mut W) -> Result<(), WriteFault>
    ensures { Prints result (W.contents output.old) (W.contents output.new) (number_word number) }
{
    match number {
        Some(number) => print_number(output, number),
        None => print_text(output, b"-"),
    }
}

/// Prints an atom: its name, or its number if there are no names.
pub(crate) fn print_atom<W: Write>(
    names: Option<&System>,
    atom: u16,
    output: &mut W,
) -> Result<(), WriteFault>
    ensures { Prints result (W.contents output.old) (W.contents output.new) (atom_word (option_copied names.entry) atom) }
{
    match names {
        Some(system) => print_text(output, atom_name(system, atom)),
        None => print_number(output, u64::from(atom)),
    }
}
