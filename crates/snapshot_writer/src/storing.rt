//! Writing slots.
ghost use Rattle.std.specs.Prelude.{◌≡◌, ◌+◌, ◌<◌, ℕ, Some, true, is_err, is_some, slice_get, OnOk};
ghost use Rattle.disk_model.specs.DiskState.{CountsUpTo, IsSettled};
ghost use Rattle.disk_model.specs.Cells.{cell, cell_count, seen_cells, Leaves};
ghost use Rattle.record_codec.specs.Ring.{slot_cell};
ghost use Rattle.snapshot_writer.specs.Batches.{SlottedFields, AreStored, HaveStored, cell_of};
ghost use Rattle.snapshot_writer.specs.Storing.{HasStored, IsStored};

use crate::batch::Batch;
use crate::encoded::Encoded;
use crate::reading::FreeSlot;
use disk_model::{BODY, Cells, Disk, DiskFault};

/// Stores the parcel in slot 0 or 1 of its atom, by two syncs, and a third if the slot is full. No cell is read. The newest state is safe from a
/// stop if it is in the other slot.
pub fn store<D: Disk>(
    cells: &mut Cells<D>,
    free: FreeSlot,
    encoded: &Encoded,
) -> Result<(), DiskFault>
    requires slot { free.slot < 2 }
    requires inside { slot_cell encoded.now.atom free.slot < cell_count (BODY + 1) cells.old }
    requires full { cells.old.keeps ≡ true → is_some (cell (seen_cells (BODY + 1) cells.old) (slot_cell encoded.now.atom free.slot)) ≡ free.full }
    requires settled { cells.old.keeps ≡ true → IsSettled cells.old.now }
    ensures counts { CountsUpTo (is_err result) 3 cells.old cells.new }
    ensures leaves { cells.old.keeps ≡ true
        → Leaves (BODY + 1) (HasStored free.slot encoded.now (seen_cells (BODY + 1) cells.old)) cells.old cells.new }
    ensures stored { cells.old.keeps ≡ true → OnOk result (IsStored free.slot encoded.now cells.old cells.new) }
{
    // Emptied, then filled: no stop leaves a body of which a part is the old state's and a part the new one's.
    cells.replace_known(encoded.cell(free.slot), free.full, encoded.body())
}

/// Stores each state of the batch in its slot, all by two syncs, and a third if some of the slots are full. No cell is read.
pub fn store_batch<D: Disk>(cells: &mut Cells<D>, batch: &Batch) -> Result<(), DiskFault>
    requires inside { (i : ℕ) (s : SlottedFields) → slice_get batch.now i ≡ Some s → cell_of s < cell_count (BODY + 1) cells.old }
    requires full { cells.old.keeps ≡ true → (i : ℕ) (s : SlottedFields) → slice_get batch.now i ≡ Some s
        → is_some (cell (seen_cells (BODY + 1) cells.old) (cell_of s)) ≡ s.full }
    requires settled { cells.old.keeps ≡ true → IsSettled cells.old.now }
    ensures counts { CountsUpTo (is_err result) 3 cells.old cells.new }
    ensures leaves { cells.old.keeps ≡ true
        → Leaves (BODY + 1) (HaveStored batch.now (seen_cells (BODY + 1) cells.old)) cells.old cells.new }
    ensures stored { cells.old.keeps ≡ true → OnOk result (AreStored batch.now cells.old cells.new) }
{
    // A stop leaves each slot by itself old, empty, or with its whole new state, as storing one after the other does.
    cells.replace_run(&batch.cells, &batch.full, &batch.bodies)
}
