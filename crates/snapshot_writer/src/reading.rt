//! What the slots of an atom hold.
ghost use Rattle.std.specs.Prelude.{◌≡◌, ◌+◌, ◌<◌, true, is_err, is_some, IfOk, IfSome};
ghost use Rattle.disk_model.specs.DiskState.{Reads};
ghost use Rattle.disk_model.specs.Cells.{cell, cell_count, seen_cells};
ghost use Rattle.record_codec.specs.Ring.{slot_cell};
ghost use Rattle.snapshot_writer.specs.Slots.{saved_at, slotted, newest_slotted, other_slot};

use disk_model::{BODY, Cells, Disk, DiskFault};
use record_codec::Saved;
use record_codec::ring::slot_cell;

/// The slot of an atom that its next state goes in.
#[derive(Clone, Copy, Debug, PartialEq, Eq)]
pub struct FreeSlot {
    /// 0 or 1.
    pub slot: u8,
    /// Whether its cell is full.
    pub full: bool,
}

/// What a read of a slot gives.
#[derive(Drop)]
struct Held {
    /// Whether its cell is full.
    full: bool,
    /// The state that it holds.
    saved: Option<Saved>,
}

/// Whether slot 0 or 1 of the atom is full, and the state that it holds. Of a body that is another atom's or no saved state's it holds none.
fn read_held<D: Disk>(cells: &mut Cells<D>, atom: u16, slot: u8) -> Result<Held, DiskFault>
    requires inside { slot_cell atom slot < cell_count (BODY + 1) cells.old }
    ensures saved { cells.old.keeps ≡ true → IfOk result
        (λ held. held.saved ≡ saved_at atom slot (seen_cells (BODY + 1) cells.old)) }
    ensures full { cells.old.keeps ≡ true → IfOk result
        (λ held. held.full ≡ is_some (cell (seen_cells (BODY + 1) cells.old) (slot_cell atom slot))) }
    ensures reads { Reads (is_err result) cells.old cells.new }
{
    let mut body = [0; BODY];
    let full = cells.read_cell(slot_cell(atom, slot), &mut body)?;
    if !full {
        return Ok(Held { full, saved: None });
    }
    match Saved::from_body(&body) {
        Some(saved) if saved.atom() == atom => Ok(Held {
            full,
            saved: Some(saved),
        }),
        _ => Ok(Held { full, saved: None }),
    }
}

/// The state that slot 0 or 1 of the atom holds. Of a body that is another atom's or no saved state's it holds none.
pub fn read_slot<D: Disk>(
    cells: &mut Cells<D>,
    atom: u16,
    slot: u8,
) -> Result<Option<Saved>, DiskFault>
    requires inside { slot_cell atom slot < cell_count (BODY + 1) cells.old }
    ensures saved { cells.old.keeps ≡ true → IfOk result
        (λ found. found ≡ saved_at atom slot (seen_cells (BODY + 1) cells.old)) }
    ensures reads { Reads (is_err result) cells.old cells.new }
{
    Ok(read_held(cells, atom, slot)?.saved)
}

/// The newest of an atom's two states, with its slot.
fn newest(first: Option<Saved>, second: Option<Saved>) -> Option<(u8, Saved)>
    ensures newest { result ≡ slotted first second }
    ensures in_range { IfSome result (λ found. found.0 < 2) }
{
    match (first, second) {
        (Some(first), Some(second)) => {
            if first.count() < second.count() {
                Some((1, second))
            } else {
                Some((0, first))
            }
        }
        (Some(first), None) => Some((0, first)),
        (None, Some(second)) => Some((1, second)),
        (None, None) => None,
    }
}

/// The newest state of the atom, with the slot that holds it.
pub fn read_newest<D: Disk>(
    cells: &mut Cells<D>,
    atom: u16,
) -> Result<Option<(u8, Saved)>, DiskFault>
    requires inside { slot_cell atom 1 < cell_count (BODY + 1) cells.old }
    ensures newest { cells.old.keeps ≡ true → IfOk result
        (λ found. found ≡ newest_slotted atom (seen_cells (BODY + 1) cells.old)) }
    ensures in_range { IfOk result (λ found. IfSome found (λ there. there.0 < 2)) }
    ensures reads { Reads (is_err result) cells.old cells.new }
{
    let first = read_slot(cells, atom, 0)?;
    let second = read_slot(cells, atom, 1)?;
    Ok(newest(first, second))
}

/// The slot that the atom's next state is stored in: the one that does not hold the newest. Both are read.
pub fn slot_to_write<D: Disk>(cells: &mut Cells<D>, atom: u16) -> Result<FreeSlot, DiskFault>
    requires inside { slot_cell atom 1 < cell_count (BODY + 1) cells.old }
    ensures slot { cells.old.keeps ≡ true → IfOk result
        (λ free. free.slot ≡ other_slot atom (seen_cells (BODY + 1) cells.old)) }
    ensures full { cells.old.keeps ≡ true → IfOk result
        (λ free. free.full ≡ is_some (cell (seen_cells (BODY + 1) cells.old) (slot_cell atom free.slot))) }
    ensures in_range { IfOk result (λ free. free.slot < 2) }
    ensures reads { Reads (is_err result) cells.old cells.new }
{
    let first = read_held(cells, atom, 0)?;
    let second = read_held(cells, atom, 1)?;
    match newest(first.saved, second.saved) {
        Some((0, _)) => Ok(FreeSlot {
            slot: 1,
            full: second.full,
        }),
        _ => Ok(FreeSlot {
            slot: 0,
            full: first.full,
        }),
    }
}
