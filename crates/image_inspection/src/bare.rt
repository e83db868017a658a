//! What is wrong with an image, whatever the plant.
ghost use Rattle.std.specs.Prelude.{◌≡◌, ◌≤◌, ◌&&◌, is_none, map};
ghost use Rattle.std.specs.List.{range_with_len};
ghost use Rattle.disk_model.specs.Cells.{cell};
ghost use Rattle.image_inspection.specs.Inspected.{IsWithin};
ghost use Rattle.image_inspection.specs.Seen.{contents_in, contents_of};
ghost use Rattle.image_inspection.specs.Verdicts.{bare_atom_fault, bare_fault, bare_record_fault, bare_slot_fault, judged_numbers};
ghost use Rattle.plant_image.specs.Faults.{base_cell_fault, base_fault, fault_where, first_cell_fault, first_fault};
ghost use Rattle.plant_image.specs.declared.fault.ImageFault.TheVariants.{Damaged};
ghost use Rattle.record_codec.specs.Ring.{identity_cell};

use crate::bodies::body_of;
use disk_model::{BODY, CELL};
use plant_image::{Held, ImageFault};
use record_codec::ring::{IDENTITY_CELL, base_cell, device_cells, record_cell, slot_cell};
use record_codec::{Base, Fired, Identity, Saved, VERSION};

/// What is wrong with an image of so many bytes, whatever the plant.
pub(crate) fn bare_fault(
    atoms: u16,
    bytes: u64,
    cells: &[Option<[u8; BODY]>],
    held: &Held,
) -> Option<ImageFault>
    requires within { IsWithin held.now }
    requires contents { contents_in held.now ≡ contents_of atoms cells.now }
    ensures { result ≡ bare_fault atoms bytes cells.now }
{
    if bytes < CELL {
        return Some(ImageFault::WrongSize);
    }
    if let Some(fault) = first_cell_fault(cells) {
        return Some(fault);
    }
    if bytes != CELL * device_cells(atoms, held.ring) {
        return Some(ImageFault::WrongSize);
    }
    if let Some(fault) = base_fault(cells) {
        return Some(fault);
    }
    if let Some(fault) = slots_fault(atoms, cells) {
        return Some(fault);
    }
    records_fault(atoms, cells, held)
}

/// What is wrong with the first cell.
fn first_cell_fault(cells: &[Option<[u8; BODY]>]) -> Option<ImageFault>
    ensures { result ≡ first_cell_fault (cell cells.now identity_cell) }
{
    let Some(body) = body_of(cells, IDENTITY_CELL) else {
        return Some(ImageFault::NotFormatted);
    };
    match Identity::version_in(body) {
        None => return Some(ImageFault::NotFormatted),
        Some(VERSION) => {}
        Some(_) => return Some(ImageFault::OtherVersion),
    }
    if Identity::from_body(body).is_none() {
        return Some(ImageFault::Damaged(IDENTITY_CELL));
    }
    None
}

/// What is wrong with the base cells.
fn base_fault(cells: &[Option<[u8; BODY]>]) -> Option<ImageFault>
    ensures { result ≡ base_fault cells.now }
{
    if let Some(fault) = base_cell_fault(cells, 0) {
        return Some(fault);
    }
    if let Some(fault) = base_cell_fault(cells, 1) {
        return Some(fault);
    }
    none_full(cells, base_cell(0), base_cell(1))
}

/// That the first of two cells is damaged, if both are empty.
fn none_full(cells: &[Option<[u8; BODY]>], first: u64, second: u64) -> Option<ImageFault>
    ensures { result ≡ fault_where (is_none (cell cells.now first) && is_none (cell cells.now second)) (Damaged first) }
{
    if body_of(cells, first).is_none() && body_of(cells, second).is_none() {
        Some(ImageFault::Damaged(first))
    } else {
        None
    }
}

/// What is wrong with base cell 0 or 1.
fn base_cell_fault(cells: &[Option<[u8; BODY]>], base: u8) -> Option<ImageFault>
    ensures { result ≡ base_cell_fault cells.now base }
{
    let k = base_cell(base);
    let body = body_of(cells, k)?;
    match Base::from_body(body) {
        Some(_) => None,
        None => Some(ImageFault::Damaged(k)),
    }
}

/// What is wrong with the slots of the atoms.
fn slots_fault(atoms: u16, cells: &[Option<[u8; BODY]>]) -> Option<ImageFault>
    ensures { result ≡ first_fault (map (bare_atom_fault cells.now) (range_with_len 0 atoms)) }
{
    for atom in 0..atoms {
        if let Some(fault) = bare_atom_fault(atom, cells) {
            return Some(fault);
        }
    }
    None
}

/// What is wrong with the slots of an atom.
fn bare_atom_fault(atom: u16, cells: &[Option<[u8; BODY]>]) -> Option<ImageFault>
    ensures { result ≡ bare_atom_fault cells.now atom }
{
    if let Some(fault) = bare_slot_fault(atom, 0, cells) {
        return Some(fault);
    }
    if let Some(fault) = bare_slot_fault(atom, 1, cells) {
        return Some(fault);
    }
    none_full(cells, slot_cell(atom, 0), slot_cell(atom, 1))
}

/// What is wrong with slot 0 or 1 of an atom: it is full with no state of the atom.
fn bare_slot_fault(atom: u16, slot: u8, cells: &[Option<[u8; BODY]>]) -> Option<ImageFault>
    ensures { result ≡ bare_slot_fault cells.now atom slot }
{
    let k = slot_cell(atom, slot);
    let body = body_of(cells, k)?;
    match Saved::from_body(body) {
        Some(saved) if saved.atom() == atom => None,
        _ => Some(ImageFault::Damaged(k)),
    }
}

/// What is wrong with the cells of the live records, and with the one after the last.
fn records_fault(atoms: u16, cells: &[Option<[u8; BODY]>], held: &Held) -> Option<ImageFault>
    requires { IsWithin held.now }
    ensures { result ≡ first_fault (map (bare_record_fault cells.now atoms held.now.ring) (judged_numbers (contents_in held.now))) }
{
    let live = held.records.len() as u64;
    let judged = u64::from(held.ring).min(live + 1);
    for number in held.base..held.base + judged {
        if let Some(fault) = bare_record_fault(atoms, held.ring, number, cells) {
            return Some(fault);
        }
    }
    None
}

/// What is wrong with the cell of the record with the number: it is full with no record.
fn bare_record_fault(
    atoms: u16,
    ring: u32,
    number: u64,
    cells: &[Option<[u8; BODY]>],
) -> Option<ImageFault>
    requires { 1 ≤ ring }
    ensures { result ≡ bare_record_fault cells.now atoms ring number }
{
    let k = record_cell(atoms, ring, number);
    let body = body_of(cells, k)?;
    match Fired::from_body(body) {
        Some(_) => None,
        None => Some(ImageFault::Damaged(k)),
    }
}
