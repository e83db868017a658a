//! The inspection of an image.
ghost use Rattle.std.specs.Prelude.{◌≡◌, ◌≤◌, ◌⊎◌, true, false, option_copied, IfErr, IfOk, OnOk};
ghost use Rattle.std.specs.Io.KnownBytes.{Appends};
ghost use Rattle.image_inspection.specs.Endings.{IsUnwritten, has_failed, is_disk};
ghost use Rattle.image_inspection.specs.Inspected.{IsWithin, atoms_told, inspected_cells, marks_in_contents, saved_in_contents};
ghost use Rattle.image_inspection.specs.Found.{IsFound};
ghost use Rattle.image_inspection.specs.Lines.{contents_text, inspection_text};
ghost use Rattle.image_inspection.specs.Seen.{Prints, Reads, contents_in, identity_held, size_of};
ghost use Rattle.image_inspection.specs.declared.ending.InspectionEnding.TheVariants.{Memory};
ghost use Rattle.record_codec.specs.declared.layout.TheConstants.{MOST_ATOMS};
ghost use Rattle.image_inspection.specs.Verdicts.{IsAsBooted, is_doubtful, verdict_on};

use crate::contents::{base_of, contents_of, identity_held, known_of_all, last_number, ring_held};
use crate::ending::InspectionEnding;
use crate::holding::missing;
use crate::judging::fault_told;
use crate::lines::{
    print_answer, print_atoms, print_base_line, print_held_line, print_image_line, print_missing,
};
use crate::listing::{print_records, print_slots};
use crate::naming::{atoms_told, keeps_its_rules, names_told};
use crate::open::print_open;
use crate::reading::{ReadCells, load_cells};
use crate::shown::Shown;
use crate::verdict::Verdict;
use disk_model::BODY;
use plant_core::marks_of;
use plant_image::{Held, ImageFault};
use plant_model::System;
use record_codec::Identity;
use std::alloc::Global;
use std::io::Write;
use text_io::{WriteFault, hand_on};
use trimmer::{Mark, SavedAt};

/// What is known of an image.
#[derive(Drop)]
pub(crate) struct Found {
    /// What the cells hold.
    pub(crate) held: Held,
    /// What is known of the newest saved states.
    saved: Vec<SavedAt>,
    /// What is known of the live records.
    marks: Vec<Mark>,
    /// What is wrong.
    pub(crate) fault: Option<ImageFault>,
}

/// Reads an image and prints what it says. With a plant, atoms have its names, and the last line is what a boot of it would answer. Nothing is
/// written to the device, and it is not synced. If the device or the memory fails, nothing was printed.
pub fn inspect_image<C: ReadCells, W: Write>(
    alloc: Global,
    plant: Option<&System>,
    shown: Shown,
    cells: &mut C,
    output: &mut W,
) -> Result<Verdict, InspectionEnding>
    ensures reads { Reads (has_failed result) (C.state cells.old) (C.state cells.new) }
    ensures printed { (C.state cells.old).keeps ≡ true → OnOk result (Appends (W.contents output.old) (W.contents output.new)
        (inspection_text shown (option_copied plant.entry) (size_of (C.state cells.old)) (inspected_cells (C.state cells.old)))) }
    ensures verdict { (C.state cells.old).keeps ≡ true → IfOk result (λ verdict.
        verdict ≡ verdict_on (option_copied plant.entry) (size_of (C.state cells.old)) (inspected_cells (C.state cells.old))) }
    ensures booted { (C.state cells.old).keeps ≡ true → IfOk result (IsAsBooted (option_copied plant.entry) (C.state cells.old)) }
    ensures nothing_printed { IfErr result (λ ending. IsUnwritten ending ⊎ (output.new ≡ output.old)) }
{
    keeps_its_rules(plant);
    let bytes = cells.bytes()?;
    let list = load_cells(alloc, cells, bytes)?;
    inspect_cells(alloc, plant, shown, bytes, &list, output)
}

/// Prints what an image of so many bytes with these cells says.
fn inspect_cells<W: Write>(
    alloc: Global,
    plant: Option<&System>,
    shown: Shown,
    bytes: u64,
    cells: &[Option<[u8; BODY]>],
    output: &mut W,
) -> Result<Verdict, InspectionEnding>
    ensures printed { OnOk result (Appends (W.contents output.old) (W.contents output.new) (inspection_text shown (option_copied plant.entry) bytes cells.now)) }
    ensures verdict { IfOk result (λ verdict. verdict ≡ verdict_on (option_copied plant.entry) bytes cells.now) }
    ensures no_failure { IfErr result (λ ending. is_disk ending ≡ false) }
    ensures nothing_printed { IfErr result (λ ending. IsUnwritten ending ⊎ (output.new ≡ output.old)) }
{
    let identity = identity_held(cells);
    let atoms = atoms_told(plant, &identity);
    let found = find(alloc, plant, atoms, bytes, cells)?;
    Ok(print_found(plant, shown, &identity, atoms, bytes, cells, &found, output)?)
}

/// What is known of an image of so many bytes with these cells, which has slots for so many atoms. All memory is taken here.
pub(crate) fn find(
    alloc: Global,
    plant: Option<&System>,
    atoms: u16,
    bytes: u64,
    cells: &[Option<[u8; BODY]>],
) -> Result<Found, InspectionEnding>
    requires few { atoms ≤ MOST_ATOMS }
    requires atoms { atoms ≡ atoms_told (option_copied plant) (identity_held cells.now) }
    ensures found { IfOk result (IsFound (option_copied plant.entry) atoms bytes cells.now) }
    ensures no_failure { IfErr result (λ ending. ending ≡ Memory) }
{
    let held = contents_of(alloc, atoms, ring_held(cells), cells)?;
    let saved = known_of_all(alloc, &held.slots)?;
    let marks = marks_of(alloc, &held.records, held.ring)?;
    let fault = fault_told(alloc, plant, atoms, bytes, cells, &held)?;
    Ok(Found {
        held,
        saved,
        marks,
        fault,
    })
}

/// Prints what is known of an image, and answers what it comes to.
fn print_found<W: Write>(
    plant: Option<&System>,
    shown: Shown,
    identity: &Option<Identity>,
    atoms: u16,
    bytes: u64,
    cells: &[Option<[u8; BODY]>],
    found: &Found,
    output: &mut W,
) -> Result<Verdict, WriteFault>
    requires identity { identity.now ≡ identity_held cells.now }
    requires atoms { atoms ≡ atoms_told (option_copied plant) identity.now }
    requires found { IsFound (option_copied plant) atoms bytes cells.now found.now }
    ensures printed { Prints result (W.contents output.old) (W.contents output.new) (inspection_text shown (option_copied plant.entry) bytes cells.now) }
    ensures verdict { IfOk result (λ verdict. verdict ≡ verdict_on (option_copied plant.entry) bytes cells.now) }
{
    let fault = found.fault;
    let names = names_told(plant, identity);
    print_image_line(identity, bytes, output)?;
    print_base_line(base_of(cells), &found.held, output)?;
    let doubtful = print_contents(
        names,
        shown,
        atoms,
        cells,
        &found.held,
        &found.saved,
        &found.marks,
        output,
    )?;
    print_answer(plant, names, atoms, &found.held, fault, output)?;
    hand_on(output)?;
    Ok(Verdict { fault, doubtful })
}

/// Prints the lines of the contents of an image, and tells whether there is a doubt.
fn print_contents<W: Write>(
    names: Option<&System>,
    shown: Shown,
    atoms: u16,
    cells: &[Option<[u8; BODY]>],
    held: &Held,
    saved: &[SavedAt],
    marks: &[Mark],
    output: &mut W,
) -> Result<bool, WriteFault>
    requires within { IsWithin held.now }
    requires saved { saved.now ≡ saved_in_contents (contents_in held.now) }
    requires marks { marks.now ≡ marks_in_contents (contents_in held.now) }
    ensures printed { Prints result (W.contents output.old) (W.contents output.new) (contents_text shown (option_copied names.entry) atoms cells.now (contents_in held.now)) }
    ensures doubtful { IfOk result (λ doubtful. doubtful ≡ is_doubtful atoms cells.now (contents_in held.now)) }
{
    print_atoms(names, atoms, cells, saved, marks, output)?;
    print_held_line(names, atoms, saved, marks, output)?;
    print_records(shown.records, names, &held.records, output)?;
    print_slots(shown.states, names, atoms, cells, output)?;
    let doubted = print_open(cells, atoms, held, output)?;
    let count = missing(last_number(held), saved, marks, atoms);
    print_missing(count, output)?;
    Ok((count > 0) | doubted)
}
