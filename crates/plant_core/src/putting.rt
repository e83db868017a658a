//! Storing the saved state of an atom.
ghost use Rattle.std.specs.Prelude.{◌≡◌, ◌≢◌, ◌+◌, ◌<◌, List, true, false, is_err, is_some, IfErr, IfOk, IfSome, OnOk};
ghost use Rattle.disk_model.specs.Cells.{Cell, Leaves, MayBe, cell, cell_count, seen_cells};
ghost use Rattle.disk_model.specs.DiskState.{CountsUpTo, IsSettled, Reads, size_of};
ghost use Rattle.disk_model.specs.declared.cells.TheConstants.{BODY};
ghost use Rattle.record_codec.specs.Ring.{slot_cell};
ghost use Rattle.snapshot_writer.specs.Slots.{other_slot};
ghost use Rattle.snapshot_writer.specs.Storing.{HasStored, IsStored};
ghost use Rattle.plant_core.specs.Events.{IsEvent, is_disk};
ghost use Rattle.plant_core.specs.Invariant.{IsNextSlot};
ghost use Rattle.plant_core.specs.Puts.{IsRefusedPut, refusal_in};
ghost use Rattle.plant_core.specs.declared.events.Happened.TheVariants.{Put};
ghost use Rattle.plant_core.specs.Plants.{definition_of, device_of, text_digest, view_of};
ghost use Rattle.plant_core.specs.Stops.{StandsForAcked};

use crate::plant::Plant;
use crate::refused::{PutRefused, Refused};
use disk_model::{Cells, Disk, DiskFault};
use snapshot_writer::{Encoded, FreeSlot, Parcel, slot_to_write, store};

impl<'s, D: Disk> Plant<'s, D> {
    /// Stores a state that was asked for, in the slot of its atom that does not hold the newest one, and answers how often the atom had taken part. It
    /// has to be the one that was asked for last, and all firings that it includes have to be acknowledged. If it is refused it comes
    /// back, and may be handed in again. Also if the device fails in this call, a stop leaves what stands for the acknowledged state.
    ///
    /// The first put of an atom since the start reads both slots of the atom, to find the newest state. Each later one reads nothing.
    pub fn put(&mut self, encoded: Encoded) -> Result<u64, PutRefused>
        ensures event { IsEvent (definition_of self.old) (view_of self.old) (Put encoded (refusal_in result)) (view_of self.new) }
        ensures returned { IfErr result (λ refused. refused.encoded ≡ encoded) }
        ensures refused { (view_of self.old).broken ≡ true → device_of self.new ≡ device_of self.old }
        ensures untouched { IfErr result (λ refused. refused.refused ≢ Refused.Disk → device_of self.new ≡ device_of self.old) }
        ensures counts { CountsUpTo (is_disk (refusal_in result)) 3 (device_of self.old) (device_of self.new) }
        ensures stops { (device_of self.old).keeps ≡ true → (view_of self.old).broken ≡ false
            → Leaves (BODY + 1) (StandsForAcked (definition_of self.old) (text_digest self.old) (size_of (device_of self.old)) (view_of self.old)) (device_of self.old) (device_of self.new) }
        ensures now { (device_of self.old).keeps ≡ true → (view_of self.old).broken ≡ false
            → (cells : List Cell) → MayBe (BODY + 1) (device_of self.new) cells
            → StandsForAcked (definition_of self.old) (text_digest self.old) (size_of (device_of self.old)) (view_of self.old) cells }
        ensures stored { (device_of self.old).keeps ≡ true → OnOk result
            (IsStored (other_slot encoded.atom (seen_cells (BODY + 1) (device_of self.old))) encoded (device_of self.old) (device_of self.new)) }
        ensures plant { definition_of self.new ≡ definition_of self.old }
        ensures digest { text_digest self.new ≡ text_digest self.old }
    {
        if let Some(refused) = self.put_refusal(encoded.parcel()) {
            return Err(PutRefused { encoded, refused });
        }
        let known = self.snapshots.next_slot(encoded.parcel().atom());
        self.broken = true;
        // A stop here leaves the newest state as it was, or the whole new one in its place: either leads to what is acknowledged.
        let Ok(slot) = store_next(&mut self.cells, known, &encoded) else {
            return Err(PutRefused {
                encoded,
                refused: Refused::Disk,
            });
        };
        let parcel = encoded.into_parcel();
        self.snapshots.stored(&parcel, slot);
        self.broken = false;
        Ok(parcel.count())
    }

    /// Why this state would not be taken now.
    fn put_refusal(&self, parcel: &Parcel) -> Option<Refused>
        ensures { IsRefusedPut (view_of self.now) parcel.now result }
    {
        if self.broken {
            return Some(Refused::Broken);
        }
        if !self.snapshots.is_kept(parcel) {
            return Some(Refused::Stranger);
        }
        if parcel.count() > self.acked_counts[usize::from(parcel.atom())] {
            return Some(Refused::Ahead(parcel.atom()));
        }
        None
    }
}

/// Stores the state in the slot of its atom that does not hold the newest one, and answers that slot.
fn store_next<D: Disk>(
    cells: &mut Cells<D>,
    known: Option<u8>,
    encoded: &Encoded,
) -> Result<u8, DiskFault>
    requires in_range { IfSome known (λ slot. slot < 2) }
    requires known { cells.old.keeps ≡ true → IfSome known (λ slot. IsNextSlot encoded.now.atom slot (seen_cells (BODY + 1) cells.old)) }
    requires inside { slot_cell encoded.now.atom 1 < cell_count (BODY + 1) cells.old }
    requires settled { cells.old.keeps ≡ true → IsSettled cells.old.now }
    ensures counts { CountsUpTo (is_err result) 3 cells.old cells.new }
    ensures in_range { IfOk result (λ slot. slot < 2) }
    ensures slot { cells.old.keeps ≡ true → IfOk result (λ slot. slot ≡ other_slot encoded.now.atom (seen_cells (BODY + 1) cells.old)) }
    ensures leaves { cells.old.keeps ≡ true → Leaves (BODY + 1)
        (HasStored (other_slot encoded.now.atom (seen_cells (BODY + 1) cells.old)) encoded.now (seen_cells (BODY + 1) cells.old)) cells.old cells.new }
    ensures stored { cells.old.keeps ≡ true
        → OnOk result (IsStored (other_slot encoded.now.atom (seen_cells (BODY + 1) cells.old)) encoded.now cells.old cells.new) }
{
    let free = free_slot(cells, known, encoded.parcel().atom())?;
    store(cells, free, encoded).map(|()| free.slot)
}

/// The slot of the atom that does not hold the newest state, and whether it is full. If it is known it is full, and no cell is read.
pub(crate) fn free_slot<D: Disk>(
    cells: &mut Cells<D>,
    known: Option<u8>,
    atom: u16,
) -> Result<FreeSlot, DiskFault>
    requires in_range { IfSome known (λ slot. slot < 2) }
    requires known { cells.old.keeps ≡ true → IfSome known (λ slot. IsNextSlot atom slot (seen_cells (BODY + 1) cells.old)) }
    requires inside { slot_cell atom 1 < cell_count (BODY + 1) cells.old }
    ensures slot { cells.old.keeps ≡ true → IfOk result (λ free. free.slot ≡ other_slot atom (seen_cells (BODY + 1) cells.old)) }
    ensures full { cells.old.keeps ≡ true → IfOk result (λ free. free.full ≡ is_some (cell (seen_cells (BODY + 1) cells.old) (slot_cell atom free.slot))) }
    ensures in_range { IfOk result (λ free. free.slot < 2) }
    ensures reads { Reads (is_err result) cells.old cells.new }
    ensures untouched { IfSome known (λ slot. cells.new ≡ cells.old) }
{
    match known {
        Some(slot) => Ok(FreeSlot { slot, full: true }),
        None => slot_to_write(cells, atom),
    }
}
