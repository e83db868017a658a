//! What a durable plant knows of the saved states of its atoms.
ghost use Rattle.std.specs.Prelude.{◌≡◌, ◌<◌, ◌↔◌, ℕ, Some, IsTrue, IfOk, IfSome, length, slice_get};
ghost use Rattle.snapshot_writer.specs.Batches.{SlottedFields};
ghost use Rattle.trimmer.specs.Covered.{saved_count};
ghost use Rattle.plant_core.specs.Snapshots.{held_at, next_slot, nothing_kept, with_copy, with_slot, with_slots};

use record_codec::Saved;
use snapshot_writer::{Batch, Parcel};
use std::alloc::{AllocError, Global};
use std::marker::Model;
use trimmer::SavedAt;

/// What a durable plant knows of the saved states of its atoms: of the newest in the slots of each atom how often the atom had taken part, and
/// which record was the last then; a copy of each state that was asked for and is not stored yet; and in which slot the next state of each atom goes.
/// That is known of an atom once the plant has stored a state of it since its start, and that slot is full: until then the slots of the atom tell. Only
/// making it takes memory.
#[derive(Drop)]
pub struct Snapshots {
    saved: Vec<SavedAt>,
    kept: Vec<Option<Parcel>>,
    next_slots: Vec<Option<u8>>,
}

// Clauses see the three lists.
impl Model for Snapshots {
    ghost use Rattle.plant_core.specs.Snapshots.{AreSnapshots, SnapshotFields};

    ghost Value = { SnapshotFields };

    ghost view = { λ s. record { saved = s.saved.items; kept = s.kept.items; next_slots = s.next_slots.items } };

    ghost invariant = { λ s. AreSnapshots (record { saved = s.saved.items; kept = s.kept.items; next_slots = s.next_slots.items }) };
}

impl Snapshots {
    /// What is known if these states stand in the slots of the atoms, by the atoms' numbers, and none was asked for.
    pub fn of(alloc: Global, slots: &[Saved]) -> Result<Snapshots, AllocError>
        ensures { IfOk result (λ s. s ≡ nothing_kept slots.now) }
    {
        let mut saved = Vec::with_capacity(alloc, slots.len())?;
        let mut kept = Vec::with_capacity(alloc, slots.len())?;
        let mut next_slots = Vec::with_capacity(alloc, slots.len())?;
        for slot in slots {
            saved.push_reserved(SavedAt {
                count: slot.count(),
                at: slot.at(),
            });
            kept.push_reserved(None);
            next_slots.push_reserved(None);
        }
        Ok(Snapshots {
            saved,
            kept,
            next_slots,
        })
    }

    /// How often the atom had taken part when its newest state was saved.
    pub(crate) fn saved_count(&self, atom: u16) -> u64
        ensures { result ≡ saved_count self.now.saved atom }
    {
        match self.saved.get(usize::from(atom)) {
            Some(newest) => newest.count,
            None => 0,
        }
    }

    /// What is known of the newest state in the slots of each atom, by the atoms' numbers.
    pub(crate) fn saved(&self) -> &[SavedAt]
        ensures { result.now ≡ self.now.saved }
    {
        &self.saved
    }

    /// Whether a copy of this very state is kept.
    pub(crate) fn is_kept(&self, parcel: &Parcel) -> bool
        ensures { IsTrue result ↔ (held_at self.now.kept parcel.now.atom ≡ Some parcel.now) }
    {
        match self.kept.get(usize::from(parcel.atom())) {
            Some(Some(copy)) => copy.same(parcel),
            _ => false,
        }
    }

    /// Keeps this copy, in place of one that was kept before.
    pub(crate) fn keep(&mut self, copy: Parcel)
        requires { copy.atom < length self.old.kept }
        ensures { self.new ≡ with_copy copy self.old }
    {
        let atom = usize::from(copy.atom());
        self.kept[atom] = Some(copy);
    }

    /// The slot in which the next state of the atom goes, if it is known.
    pub(crate) fn next_slot(&self, atom: u16) -> Option<u8>
        ensures known { result ≡ next_slot self.now.next_slots atom }
        ensures in_range { IfSome result (λ slot. slot < 2) }
    {
        match self.next_slots.get(usize::from(atom)) {
            Some(Some(slot)) => Some(*slot),
            _ => None,
        }
    }

    /// The state is stored in the slot: its copy is given up, it is the newest of its atom, and the next one goes in the other slot.
    pub(crate) fn stored(&mut self, parcel: &Parcel, slot: u8)
        requires there { parcel.now.atom < length self.old.kept }
        requires slot { slot < 2 }
        ensures { self.new ≡ with_slot parcel.now slot self.old }
    {
        let atom = usize::from(parcel.atom());
        self.saved[atom] = SavedAt {
            count: parcel.count(),
            at: parcel.at(),
        };
        self.kept[atom] = None;
        self.next_slots[atom] = Some(1 - slot);
    }

    /// The states of the batch are stored, each in its slot.
    pub(crate) fn all_stored(&mut self, batch: &Batch)
        requires { (i : ℕ) (s : SlottedFields) → slice_get batch.now i ≡ Some s → s.saved.atom < length self.old.kept }
        ensures { self.new ≡ with_slots batch.now self.old }
    {
        for i in 0..batch.len() {
            self.stored(batch.parcel(i), batch.slot(i));
        }
    }
}
