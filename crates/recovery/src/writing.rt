//! Writing a state of a plant afresh, into a device that may hold anything.
ghost use Rattle.std.specs.Prelude.{◌≡◌, ◌≢◌, ◌+◌, ◌*◌, ◌-◌, ◌<◌, ◌≤◌, ℕ, None, Some, true, false, length, slice_get, is_err, IfErr, IfOk, OnOk};
ghost use Rattle.std.specs.List.{range_with_len};
ghost use Rattle.record_codec.specs.Identity.{IsIdentity};
ghost use Rattle.record_codec.specs.Ring.{slot_cell};
ghost use Rattle.record_codec.specs.declared.layout.TheConstants.{LAST_NUMBER, MOST_ATOMS, MOST_VARIABLES};
ghost use Rattle.record_replay.specs.Records.{count_of};
ghost use Rattle.plant_image.specs.Standing.{identity_for};
ghost use Rattle.recovery.specs.Seen.{plant_of, digest_of, Local, HasRoom, LEAST_RING, MOST_RING, device_cells, identity_cell, CountsUpTo, IsSettled, Reads, size_of, Leaves, cell, cell_count, seen_cells};
ghost use Rattle.recovery.specs.Formatting.{formatted_size, is_disk_error};
ghost use Rattle.recovery.specs.Writing.{HasStoredStates, HasWritten, IsBlank, IsOldOrUnformatted, IsWriting};

use crate::fault::FormatFault;
use disk_model::{BODY, CELL, Cells, Disk, DiskFault};
use plant_model::{PlantState, System};
use record_codec::ring::{IDENTITY_CELL, base_cell, device_cells};
use record_codec::{Base, DIGEST, Identity};
use snapshot_writer::{FreeSlot, Parcel, encode, store};
use std::alloc::{AllocError, Global};

/// How many cells the device has for the plant and a ring of so many records.
fn cells_for(system: &System, ring: u32) -> u64
    ensures { result ≡ device_cells (length (plant_of system.now).atoms) ring }
{
    system.keeps_its_rules();
    device_cells(system.atoms().len() as u16, ring)
}

/// The cells of the device but the first.
pub(crate) fn other_cells(alloc: Global, system: &System, ring: u32) -> Result<Vec<u64>, AllocError>
    ensures { IfOk result (λ others. others.items
        ≡ range_with_len 1 (device_cells (length (plant_of system.now).atoms) ring - 1)) }
{
    (1..cells_for(system, ring)).collect(alloc)
}

/// What the device is formatted for.
fn identity_for(system: &System, ring: u32) -> Identity
    requires ring_from { LEAST_RING ≤ ring }
    requires ring_to { ring ≤ MOST_RING }
    ensures value { result ≡ identity_for (plant_of system.now) (digest_of system.now) ring }
    ensures in_range { IsIdentity result }
{
    system.keeps_its_rules();
    Identity::new(system.atoms().len() as u16, ring, digest_of(system))
}

/// The digest of the text that the plant was read from. As a value of its own it is known to have all its bytes.
fn digest_of(system: &System) -> [u8; DIGEST]
    ensures { result ≡ digest_of system.now }
{
    *system.digest()
}

/// Makes of the device one that stands for the state and the number, with a ring of so many records, if it has exactly as many cells as
/// that asks for. Each atom has taken part as often as `counts` says. Whatever the device held is gone then. A stop inside leaves what it
/// held, or an unformatted device, or the whole new one.
pub(crate) fn write_image<D: Disk>(
    cells: &mut Cells<D>,
    system: &System,
    ring: u32,
    states: &PlantState,
    counts: &[u64],
    number: u64,
    others: &[u64],
) -> Result<(), FormatFault>
    requires ring_from { LEAST_RING ≤ ring }
    requires ring_to { ring ≤ MOST_RING }
    requires room { HasRoom (plant_of system.now) states.now counts.now number }
    requires others { others.now ≡ range_with_len 1 (device_cells (length (plant_of system.now).atoms) ring - 1) }
    ensures sized { OnOk result (size_of cells.old ≡ formatted_size (plant_of system.now) ring) }
    ensures wrong_size { IfErr result (λ fault. fault ≡ FormatFault.WrongSize → size_of cells.old ≢ formatted_size (plant_of system.now) ring) }
    ensures untouched { IfErr result (λ fault. fault ≢ FormatFault.Disk → Reads false cells.old cells.new) }
    ensures memory { IfErr result (λ fault. fault ≢ FormatFault.Memory) }
    ensures counts { CountsUpTo (is_disk_error result) (6 + 3 * length (plant_of system.now).atoms) cells.old cells.new }
    ensures stops { cells.old.keeps ≡ true
        → Leaves (BODY + 1) (IsWriting (plant_of system.now) (digest_of system.now) states.now number cells.old) cells.old cells.new }
    ensures written { cells.old.keeps ≡ true → OnOk result
        (HasWritten (plant_of system.now) (digest_of system.now) ring states.now counts.now number cells.new) }
{
    let Ok(size) = cells.size() else {
        return Err(FormatFault::Disk);
    };
    if size != CELL * cells_for(system, ring) {
        return Err(FormatFault::WrongSize);
    }
    match write_cells(cells, system, ring, states, counts, number, others) {
        Ok(()) => Ok(()),
        Err(DiskFault) => Err(FormatFault::Disk),
    }
}

/// Writes all that a device holds that stands for the state and the number, and empties all else.
fn write_cells<D: Disk>(
    cells: &mut Cells<D>,
    system: &System,
    ring: u32,
    states: &PlantState,
    counts: &[u64],
    number: u64,
    others: &[u64],
) -> Result<(), DiskFault>
    requires ring_from { LEAST_RING ≤ ring }
    requires ring_to { ring ≤ MOST_RING }
    requires room { HasRoom (plant_of system.now) states.now counts.now number }
    requires others { others.now ≡ range_with_len 1 (device_cells (length (plant_of system.now).atoms) ring - 1) }
    requires sized { size_of cells.old ≡ formatted_size (plant_of system.now) ring }
    ensures counts { CountsUpTo (is_err result) (6 + 3 * length (plant_of system.now).atoms) cells.old cells.new }
    ensures stops { cells.old.keeps ≡ true
        → Leaves (BODY + 1) (IsWriting (plant_of system.now) (digest_of system.now) states.now number cells.old) cells.old cells.new }
    ensures written { cells.old.keeps ≡ true → OnOk result
        (HasWritten (plant_of system.now) (digest_of system.now) ring states.now counts.now number cells.new) }
{
    system.keeps_its_rules();
    // A stop in here leaves what the device held, or its first cell empty.
    empty_cells(cells, others)?;
    // From now on the first cell is empty: a stop leaves an unformatted device, whatever else stands there.
    cells.set(base_cell(0), &Base::new(number + 1).to_body())?;
    // A stop in here leaves the states of some atoms, and the first cell empty.
    store_states(cells, states, counts, number)?;
    // All the rest stands: a stop leaves the first cell empty still, or the device whole.
    cells.set(IDENTITY_CELL, &identity_for(system, ring).to_body())
}

/// Empties the first cell, and then all others by one sync.
fn empty_cells<D: Disk>(cells: &mut Cells<D>, others: &[u64]) -> Result<(), DiskFault>
    requires some { 0 < cell_count (BODY + 1) cells.old }
    requires others { others.now ≡ range_with_len 1 (cell_count (BODY + 1) cells.old - 1) }
    ensures counts { CountsUpTo (is_err result) 2 cells.old cells.new }
    ensures stops { cells.old.keeps ≡ true → Leaves (BODY + 1) (IsOldOrUnformatted cells.old) cells.old cells.new }
    ensures blank { cells.old.keeps ≡ true → OnOk result (IsBlank cells.new) }
{
    // It goes alone: emptied beside the others it might be the last to go, and a stop would leave an identity over half of its cells.
    cells.erase(IDENTITY_CELL)?;
    // Without it the device is unformatted, and the others may go in any order.
    cells.erase_run(others)
}

/// The slot 0 of an atom, which is empty.
const FIRST: FreeSlot = FreeSlot {
    slot: 0,
    full: false,
};

/// Stores the state of each atom in its slot 0, which reads empty, with its count, at the number.
fn store_states<D: Disk>(
    cells: &mut Cells<D>,
    states: &PlantState,
    counts: &[u64],
    number: u64,
) -> Result<(), DiskFault>
    requires few { length states.now ≤ MOST_ATOMS }
    requires values { (atom : ℕ) (state : Local) → slice_get states.now atom ≡ Some state → length state.values ≤ MOST_VARIABLES }
    requires counted { length states.now ≤ length counts.now }
    requires within { (atom : ℕ) → atom < length states.now → count_of counts.now atom ≤ number }
    requires number { number ≤ LAST_NUMBER }
    requires inside { 3 + 2 * length states.now ≤ cell_count (BODY + 1) cells.old }
    requires settled { cells.old.keeps ≡ true → IsSettled cells.old.now }
    requires empty { cells.old.keeps ≡ true → (atom : ℕ) → atom < length states.now → cell (seen_cells (BODY + 1) cells.old) (slot_cell atom 0) ≡ None }
    ensures counts { CountsUpTo (is_err result) (3 * length states.now) cells.old cells.new }
    ensures stops { cells.old.keeps ≡ true
        → Leaves (BODY + 1) (λ left. cell left identity_cell ≡ cell (seen_cells (BODY + 1) cells.old) identity_cell) cells.old cells.new }
    ensures stored { cells.old.keeps ≡ true → OnOk result
        (HasStoredStates (length states.now) states.now counts.now number cells.old cells.new) }
{
    for atom in 0..states.len() as u16 {
        let count = counts[usize::from(atom)];
        let parcel = Parcel::new(atom, count, number, states.state(atom).copy());
        // A stop leaves the slot as it was, empty or with the whole state, and every other cell, the first among them, as it was.
        store(cells, FIRST, &encode(parcel))?;
    }
    Ok(())
}
