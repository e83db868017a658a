//! What a stop leaves of an atom's slots, call by call, on devices of two atoms. Each state's marking and value are its count.
ghost use Rattle.std.specs.Prelude.{◌≡◌, ◌<◌, ◌≤◌};

use super::common::TEARS;
use disk_model::{BODY, CELL, Cells, DiskFault, MemDisk, Tear};
use petri_atom::AtomState;
use record_codec::Saved;
use record_codec::ring::{device_cells, slot_cell};
use snapshot_writer::{FreeSlot, Parcel, encode, read_newest, read_slot, slot_to_write, store};
use std::alloc::Global;
use std::process::Abort;
use std::test::Fail;

type Engine = Cells<MemDisk>;

/// The last record when the states are taken.
const AT: u64 = 100;

/// What stands for a state that is not as it was stored.
const ANOTHER: u64 = 999;

/// The state of atom 0 or 1 that had taken part so often.
fn parcel_of(atom: u16, count: u64) -> Parcel
    requires atom { atom < 2 }
    requires count { count ≤ AT }
    ensures { result.atom ≡ atom }
{
    Parcel::new(atom, count, AT, AtomState::with(count, &[count as i64]))
}

/// The count of a state, if all of it is as it was stored.
fn count_of(saved: &Saved) -> u64 {
    let count = saved.count();
    let values = saved.values();
    if saved.at() == AT && saved.marking() == count && values == [count as i64].as_slice() {
        count
    } else {
        ANOTHER
    }
}

/// Stores the state in the slot, with the device dead from its `k`-th device call on.
fn stopped(disk: MemDisk, slot: u8, parcel: Parcel, k: u64) -> Result<(bool, MemDisk), Fail> {
    let encoded = encode(parcel);
    let mut cells = Engine::new(disk);
    if slot > 1 || cells.size()? / CELL <= slot_cell(encoded.parcel().atom(), slot) {
        return Err(Fail::new("no such slot"));
    }
    cells.sync()?;
    let mut held = [0; BODY];
    let full = cells.read_cell(slot_cell(encoded.parcel().atom(), slot), &mut held)?;
    let mut disk = cells.into_disk();
    disk.fuse_dead(k);
    let mut cells = Engine::new(disk);
    let ok = store(&mut cells, FreeSlot { slot, full }, &encoded).is_ok();
    Ok((ok, cells.into_disk()))
}

/// The count in the slot, and 0 if it holds no state.
fn count_in(cells: &mut Engine, atom: u16, slot: u8) -> Result<u64, DiskFault> {
    if cells.size()? / CELL <= slot_cell(atom, slot) {
        return Ok(ANOTHER);
    }
    match read_slot(cells, atom, slot)? {
        Some(saved) => Ok(count_of(&saved)),
        None => Ok(0),
    }
}

/// The slot and the count of the newest state, and slot 2 if there is none.
fn newest_in(cells: &mut Engine, atom: u16) -> Result<(u8, u64), DiskFault> {
    if cells.size()? / CELL <= slot_cell(atom, 1) {
        return Ok((2, ANOTHER));
    }
    match read_newest(cells, atom)? {
        Some((slot, saved)) => Ok((slot, count_of(&saved))),
        None => Ok((2, 0)),
    }
}

/// The slot of atom 0 that is written next.
fn next_in(disk: MemDisk) -> Result<u8, DiskFault> {
    let mut cells = Engine::new(disk);
    if cells.size()? / CELL <= slot_cell(0, 1) {
        return Ok(2);
    }
    Ok(slot_to_write(&mut cells, 0)?.slot)
}

/// The counts in both slots of an atom, and the slot and the count of its newest state.
type Slots = ([u64; 2], (u8, u64));

fn slots_of(cells: &mut Engine, atom: u16) -> Result<Slots, DiskFault> {
    let first = count_in(cells, atom, 0)?;
    let second = count_in(cells, atom, 1)?;
    Ok(([first, second], newest_in(cells, atom)?))
}

/// The slots of both atoms.
fn found_in(disk: MemDisk) -> Result<[Slots; 2], DiskFault> {
    let mut cells = Engine::new(disk);
    let first = slots_of(&mut cells, 0)?;
    Ok([first, slots_of(&mut cells, 1)?])
}

/// The device before the call: the two counts of atom 0, where 0 stands for an empty slot, and count 3 in slot 1 of atom 1.
fn prepared(alloc: Global, counts: [u64; 2]) -> Result<MemDisk, Fail> {
    let mut disk = MemDisk::with_cells(alloc, CELL * device_cells(2, 8), 64, CELL)?;
    for slot in 0..2u8 {
        let count = counts[usize::from(slot)];
        if count > 0 && count <= AT {
            let (_, stored) = stopped(disk, slot, parcel_of(0, count), u64::MAX)?;
            disk = stored;
        }
    }
    let (_, disk) = stopped(disk, 1, parcel_of(1, 3), u64::MAX)?;
    Ok(disk)
}

/// The slots of atom 1 before and after each store.
const ATOM_1: Slots = ([0, 3], (1, 3));

/// Slots of atom 0 before a store, the slot and the count that are stored, and what is the newest before it and after it.
#[derive(Clone, Copy)]
struct Row {
    before: [u64; 2],
    slot: u8,
    count: u64,
    newest: (u8, u64),
}

/// Whether the slots are what a stop may leave, and if the call ended what they have to be.
fn is_right(row: Row, ok: bool, found: [Slots; 2]) -> bool {
    let [(counts, newest), others] = found;
    let (written, old, kept) = if row.slot == 0 {
        (counts[0], row.before[0], counts[1] == row.before[1])
    } else {
        (counts[1], row.before[1], counts[0] == row.before[0])
    };
    if !kept || others != ATOM_1 {
        return false;
    }
    if ok || written == row.count {
        return written == row.count && newest == (row.slot, row.count);
    }
    (written == old || written == 0) && newest == row.newest
}

/// The store on its device, which is dead from its `k`-th device call on.
fn stored(alloc: Global, row: Row, k: u64) -> Result<(bool, MemDisk), Fail> {
    if row.count > AT {
        return Err(Fail::new("no such count"));
    }
    let disk = prepared(alloc, row.before)?;
    stopped(disk, row.slot, parcel_of(0, row.count), k)
}

/// Stops the store at its `k`-th device call under each tear: whether it ended before, and how many stops fell inside it.
fn ends_before(rt: &impl Abort, alloc: Global, row: Row, k: u64) -> Result<(bool, u64), Fail> {
    let mut ended = false;
    let mut stops = 0u64;
    for tear in TEARS {
        let (ok, disk) = stored(alloc, row, k)?;
        let found = found_in(disk.stop(tear))?;
        assert!(rt; is_right(row, ok, found), "device call {k}");
        stops = stops.saturating_add(u64::from(!ok));
        ended = ok;
    }
    Ok((ended, stops))
}

/// Stops the store at each of its device calls under each tear: how many device calls it makes, and how many stops there were.
fn stops(rt: &impl Abort, alloc: Global, row: Row) -> Result<(u64, u64), Fail> {
    let mut all = 0u64;
    for k in 1..50 {
        let (ended, stops) = ends_before(rt, alloc, row, k)?;
        all = all.saturating_add(stops);
        if ended {
            return Ok((k - 1, all));
        }
    }
    Ok((0, all))
}

/// An empty slot takes 4 calls to fill it; a full one 2 calls to empty it, and the same 4. In all 4 * 30 stops.
#[test]
fn a_stop_inside_a_store_leaves_the_old_newest_or_the_new(rt: HostRuntime) -> Result<(), Fail> {
    for (before, slot, count, newest, calls) in [
        ([0, 0], 0, 1, (2, 0), 4),
        ([4, 0], 1, 7, (0, 4), 4),
        ([0, 4], 0, 9, (1, 4), 4),
        ([4, 7], 0, 9, (1, 7), 6),
        ([7, 4], 1, 9, (0, 7), 6),
        // of equal counts the first is the newest
        ([4, 4], 1, 9, (0, 4), 6),
    ] {
        let row = Row {
            before,
            slot,
            count,
            newest,
        };
        let next = next_in(prepared(rt.alloc(), before)?)?;
        let found = (next, stops(&rt, rt.alloc(), row)?);
        assert_eq!(rt; found, (slot, (calls, 4 * calls)));
    }
    Ok(())
}

/// What the other slot is for: stopped after the emptying of the newest's own slot, a store loses the newest.
#[test]
fn a_store_over_the_newest_may_lose_it(rt: HostRuntime) -> Result<(), Fail> {
    let disk = prepared(rt.alloc(), [4, 7])?;
    let (ok, disk) = stopped(disk, 1, parcel_of(0, 9), 4)?;
    let left = found_in(disk.stop(Tear::Old))?;
    assert_eq!(rt; (ok, left), (false, [([4, 0], (0, 4)), ATOM_1]));
    Ok(())
}

/// The device with a state of atom 1 in the first slot of atom 0.
fn with_a_stranger(disk: MemDisk) -> Result<MemDisk, Fail> {
    let mut cells = Engine::new(disk);
    if cells.size()? / CELL <= 3 {
        return Err(Fail::new("a device of four cells at least"));
    }
    let body = Saved::new(1, 8, AT, 8, &[8]).to_body();
    cells.sync()?;
    cells.replace(3, &body)?;
    Ok(cells.into_disk())
}

/// The state of another atom in a slot counts for nothing there.
#[test]
fn a_slot_holds_its_own_atom_alone(rt: HostRuntime) -> Result<(), Fail> {
    let disk = with_a_stranger(prepared(rt.alloc(), [0, 0])?)?;
    assert_eq!(rt; found_in(disk)?, [([0, 0], (2, 0)), ATOM_1]);
    Ok(())
}

/// What a parcel holds: atom, count, last record and marking.
fn numbers_in(parcel: &Parcel) -> (u16, u64, u64, u64) {
    let places = parcel.state().places();
    (parcel.atom(), parcel.count(), parcel.at(), places)
}

/// Whether it is the same as one of atom 1 and count 5, of another atom and of another count.
fn sames_of(parcel: &Parcel) -> [bool; 3] {
    [
        parcel.same(&parcel_of(1, 5)),
        parcel.same(&parcel_of(0, 5)),
        parcel.same(&parcel_of(1, 6)),
    ]
}

/// Whether this is the one value of its state.
fn has_value(parcel: Parcel, value: i64) -> bool {
    parcel.into_state().values() == [value].as_slice()
}

/// A parcel gives back what it was made of, also once it is encoded.
#[test]
fn a_parcel_keeps_its_state(rt: HostRuntime) {
    let parcel = encode(parcel_of(1, 5)).into_parcel();
    let found = (numbers_in(&parcel), sames_of(&parcel));
    assert_eq!(rt; found, ((1, 5, AT, 5), [true, false, false]));
    assert!(rt; has_value(parcel, 5));
}
