//! The slots of the atoms.
ghost use Rattle.std.specs.Prelude.{◌≡◌, ◌&&◌, true, length, map, is_none, IfSome};
ghost use Rattle.std.specs.List.{range_with_len};
ghost use Rattle.disk_model.specs.Cells.{cell};
ghost use Rattle.petri_atom.specs.Atom.{definition_of};
ghost use Rattle.record_codec.specs.Ring.{slot_cell};
ghost use Rattle.snapshot_writer.specs.Slots.{saved_at};
ghost use Rattle.plant_model.specs.Rules.{first_fault_in};
ghost use Rattle.plant_model.specs.System.{plant_of};
ghost use Rattle.plant_image.specs.Contents.{newest_held};
ghost use Rattle.plant_image.specs.Faults.{atom_fault, is_of_atom, marks_known, slot_fault};
ghost use Rattle.plant_image.specs.Reading.{Tells};

use crate::bodies::body_of;
use crate::fault::ImageFault;
use disk_model::BODY;
use petri_atom::{Atom, MAX_PLACES};
use plant_model::System;
use record_codec::Saved;
use record_codec::ring::slot_cell;
use std::alloc::Global;

/// The newest saved state of each atom, by the atoms' numbers.
pub(crate) fn read_slots(
    alloc: Global,
    system: &System,
    cells: &[Option<[u8; BODY]>],
) -> Result<Vec<Saved>, ImageFault>
    ensures { Tells (first_fault_in (atom_fault cells.now) 0 (plant_of system.now).atoms)
        (λ slots. slots.items ≡ map (newest_held cells.now) (range_with_len 0 (length (plant_of system.now).atoms))) result }
{
    system.keeps_its_rules();
    let atoms = system.atoms();
    let mut slots = Vec::with_capacity(alloc, atoms.len())?;
    for (number, atom) in atoms.iter().enumerate() {
        slots.push_reserved(newest_saved(atom, number as u16, cells)?);
    }
    Ok(slots)
}

/// The newest saved state of the atom with the number: the one with the greater count, and the one in slot 0 if both are equal.
fn newest_saved(atom: &Atom, number: u16, cells: &[Option<[u8; BODY]>]) -> Result<Saved, ImageFault>
    ensures { Tells (atom_fault cells.now number (definition_of atom.now)) (λ saved. saved ≡ newest_held cells.now number) result }
{
    let first = slot_of(atom, number, 0, cells)?;
    let second = slot_of(atom, number, 1, cells)?;
    match (first, second) {
        (None, None) => Err(ImageFault::Damaged(slot_cell(number, 0))),
        (Some(saved), None) => Ok(saved),
        (None, Some(saved)) => Ok(saved),
        (Some(first), Some(second)) => {
            if first.count() < second.count() {
                Ok(second)
            } else {
                Ok(first)
            }
        }
    }
}

/// The state that slot 0 or 1 of the atom with the number holds.
fn slot_of(
    atom: &Atom,
    number: u16,
    slot: u8,
    cells: &[Option<[u8; BODY]>],
) -> Result<Option<Saved>, ImageFault>
    ensures { Tells (slot_fault cells.now number (definition_of atom.now) slot)
        (λ found. (found ≡ saved_at number slot cells.now) × (is_none found ≡ is_none (cell cells.now (slot_cell number slot)))) result }
{
    let k = slot_cell(number, slot);
    let Some(body) = body_of(cells, k) else {
        return Ok(None);
    };
    match Saved::from_body(body) {
        Some(saved) if is_of_atom(number, atom, &saved) => Ok(Some(saved)),
        _ => Err(ImageFault::Damaged(k)),
    }
}

/// Whether the saved state is one of the atom with the number: it has a value for each variable, and marks no place that the atom has not.
fn is_of_atom(number: u16, atom: &Atom, saved: &Saved) -> bool
    ensures { result ≡ is_of_atom number (definition_of atom.now) saved.now }
{
    saved.atom() == number
        && saved.values().len() == atom.variables().len()
        && marks_known(atom, saved.marking())
}

/// Whether no place is marked that the atom has not.
fn marks_known(atom: &Atom, marking: u64) -> bool
    ensures { result ≡ marks_known (definition_of atom.now) marking }
{
    let places = atom.places().len();
    places >= MAX_PLACES || marking < 1 << places
}
