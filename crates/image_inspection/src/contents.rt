//! What the cells of a device hold, whether or not something is wrong with them.
ghost use Rattle.std.specs.Prelude.{◌≡◌, ◌+◌, ◌<◌, ◌≤◌, length, map, unwrap_or, IfOk, IfSome};
ghost use Rattle.std.specs.List.{range_with_len};
ghost use Rattle.disk_model.specs.Cells.{cell};
ghost use Rattle.gated_journal.specs.Bases as bases;
ghost use Rattle.gated_journal.specs.Live.{live_among, record_in};
ghost use Rattle.image_inspection.specs.Inspected.{IsWithin};
ghost use Rattle.plant_core.specs.Snapshots.{known_of};
ghost use Rattle.plant_image.specs.Contents.{contents_of, identity_held, last_number, newest_held, ring_held};
ghost use Rattle.plant_image.specs.Reading.{contents_in};
ghost use Rattle.record_codec.specs.Ring.{base_cell, record_cell};
ghost use Rattle.record_codec.specs.declared.layout.TheConstants.{LAST_NUMBER, MOST_ATOMS, MOST_RING};
ghost use Rattle.snapshot_writer.specs.Slots.{newest, saved_at};

use crate::bodies::body_of;
use disk_model::BODY;
use plant_image::Held;
use record_codec::ring::{IDENTITY_CELL, base_cell, record_cell, slot_cell};
use record_codec::{Base, Fired, Identity, Saved};
use std::alloc::{AllocError, Global};
use trimmer::SavedAt;

/// The identity that the first cell holds, if it holds one.
pub(crate) fn identity_held(cells: &[Option<[u8; BODY]>]) -> Option<Identity>
    ensures { result ≡ identity_held cells.now }
{
    match body_of(cells, IDENTITY_CELL) {
        Some(body) => Identity::from_body(body),
        None => None,
    }
}

/// How many records the ring has cells for; none if the first cell does not say.
pub(crate) fn ring_held(cells: &[Option<[u8; BODY]>]) -> u32
    ensures ring { result ≡ ring_held cells.now }
    ensures few { result ≤ MOST_RING }
{
    match identity_held(cells) {
        Some(identity) => identity.ring(),
        None => 0,
    }
}

/// What the cells of a device for so many atoms hold, with a ring of so many records.
pub(crate) fn contents_of(
    alloc: Global,
    atoms: u16,
    ring: u32,
    cells: &[Option<[u8; BODY]>],
) -> Result<Held, AllocError>
    requires ring { ring ≡ ring_held cells.now }
    requires few { ring ≤ MOST_RING }
    requires atoms { atoms ≤ MOST_ATOMS }
    ensures contents { IfOk result (λ held. contents_in held ≡ contents_of atoms cells.now) }
    ensures within { IfOk result IsWithin }
{
    let base = counting_base(cells);
    let slots = newest_states(alloc, atoms, cells)?;
    let records = live_records(alloc, atoms, ring, base, cells)?;
    Ok(Held {
        ring,
        base_cell: counting_cell(cells),
        base,
        slots,
        records,
    })
}

/// The base that base cell 0 or 1 holds, if it holds one.
fn base_held(cells: &[Option<[u8; BODY]>], base: u8) -> Option<Base>
    ensures { result ≡ bases.base_held (cell cells.now (base_cell base)) }
{
    match body_of(cells, base_cell(base)) {
        Some(body) => Base::from_body(body),
        None => None,
    }
}

/// The cell of the base that counts: the first where both are equal or neither is there.
fn counting_cell(cells: &[Option<[u8; BODY]>]) -> u64
    ensures { result ≡ bases.base_cell_of cells.now }
{
    match (base_held(cells, 0), base_held(cells, 1)) {
        (Some(first), Some(second)) if first.number() < second.number() => base_cell(1),
        (None, Some(_)) => base_cell(1),
        _ => base_cell(0),
    }
}

/// The base that counts, if there is one.
pub(crate) fn base_of(cells: &[Option<[u8; BODY]>]) -> Option<u64>
    ensures base { result ≡ bases.base_of cells.now }
    ensures in_range { IfSome result (λ base. (1 ≤ base) × (base ≤ LAST_NUMBER + 1)) }
{
    let base = match (base_held(cells, 0), base_held(cells, 1)) {
        (Some(first), Some(second)) if first.number() < second.number() => Some(second),
        (None, second) => second,
        (first, _) => first,
    };
    match base {
        Some(base) => Some(base.number()),
        None => None,
    }
}

/// The number of the first record that is kept; 1 if no base is there.
fn counting_base(cells: &[Option<[u8; BODY]>]) -> u64
    ensures base { result ≡ unwrap_or (bases.base_of cells.now) 1 }
    ensures in_range { (1 ≤ result) × (result ≤ LAST_NUMBER + 1) }
{
    match base_of(cells) {
        Some(base) => base,
        None => 1,
    }
}

/// The state that slot 0 or 1 of the atom holds, if it holds one of it.
pub(crate) fn saved_at(atom: u16, slot: u8, cells: &[Option<[u8; BODY]>]) -> Option<Saved>
    ensures { result ≡ saved_at atom slot cells.now }
{
    let body = body_of(cells, slot_cell(atom, slot))?;
    let saved = Saved::from_body(body)?;
    if saved.atom() == atom {
        Some(saved)
    } else {
        None
    }
}

/// The newest saved state of the atom: the one with the greater count, and the one in slot 0 if both are equal.
pub(crate) fn newest(atom: u16, cells: &[Option<[u8; BODY]>]) -> Option<Saved>
    ensures { result ≡ newest atom cells.now }
{
    match (saved_at(atom, 0, cells), saved_at(atom, 1, cells)) {
        (None, second) => second,
        (first, None) => first,
        (Some(first), Some(second)) => {
            if first.count() < second.count() {
                Some(second)
            } else {
                Some(first)
            }
        }
    }
}

/// The newest saved state of the atom; if there is none, one of an atom that has taken part in nothing.
fn newest_held(atom: u16, cells: &[Option<[u8; BODY]>]) -> Saved
    requires { atom < MOST_ATOMS }
    ensures { result ≡ newest_held cells.now atom }
{
    match newest(atom, cells) {
        Some(saved) => saved,
        None => Saved::new(atom, 0, 0, 0, &[]),
    }
}

/// The newest saved state of each of so many atoms.
fn newest_states(
    alloc: Global,
    atoms: u16,
    cells: &[Option<[u8; BODY]>],
) -> Result<Vec<Saved>, AllocError>
    requires { atoms ≤ MOST_ATOMS }
    ensures { IfOk result (λ slots. slots.items ≡ map (newest_held cells.now) (range_with_len 0 atoms)) }
{
    let mut slots = Vec::with_capacity(alloc, usize::from(atoms))?;
    for atom in 0..atoms {
        slots.push_reserved(newest_held(atom, cells));
    }
    Ok(slots)
}

/// The record with the number, if its cell holds it.
fn record_in(atoms: u16, ring: u32, number: u64, cells: &[Option<[u8; BODY]>]) -> Option<Fired>
    requires { 1 ≤ ring }
    ensures record { result ≡ record_in number (cell cells.now (record_cell atoms ring number)) }
    ensures in_range { IfSome result (λ _. number ≤ LAST_NUMBER) }
{
    let body = body_of(cells, record_cell(atoms, ring, number))?;
    let fired = Fired::from_body(body)?;
    if fired.number() == number {
        Some(fired)
    } else {
        None
    }
}

/// The live records: the base and those after it, up to the first cell that is empty or holds another number.
fn live_records(
    alloc: Global,
    atoms: u16,
    ring: u32,
    base: u64,
    cells: &[Option<[u8; BODY]>],
) -> Result<Vec<Fired>, AllocError>
    requires few { ring ≤ MOST_RING }
    requires base { base ≤ LAST_NUMBER + 1 }
    ensures records { IfOk result (λ records. records.items ≡ live_among cells.now (record_cell atoms ring) (range_with_len base ring)) }
    ensures room { IfOk result (λ records. length records.items ≤ ring) }
    ensures in_range { IfOk result (λ records. base + length records.items ≤ LAST_NUMBER + 1) }
{
    let mut records = Vec::with_capacity(alloc, ring as usize)?;
    for number in base..base + u64::from(ring) {
        let Some(fired) = record_in(atoms, ring, number, cells) else {
            return Ok(records);
        };
        records.push_reserved(fired);
    }
    Ok(records)
}

/// The number of the last live record, and one less than the base if none is live.
pub(crate) fn last_number(held: &Held) -> u64
    requires { IsWithin held.now }
    ensures { result ≡ last_number (contents_in held.now) }
{
    held.base + held.records.len() as u64 - 1
}

/// Of each saved state how often its atom had taken part, and the last record when it was copied.
pub(crate) fn known_of_all(alloc: Global, slots: &[Saved]) -> Result<Vec<SavedAt>, AllocError>
    ensures { IfOk result (λ saved. saved.items ≡ map known_of slots.now) }
{
    let mut saved = Vec::with_capacity(alloc, slots.len())?;
    for slot in slots {
        saved.push_reserved(SavedAt {
            count: slot.count(),
            at: slot.at(),
        });
    }
    Ok(saved)
}
