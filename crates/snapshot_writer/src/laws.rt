//! Which state of an atom is the newest, before a store and after it. These functions make no call: their clauses are the laws.
ghost use Rattle.std.specs.Prelude.{◌≡◌, ◌≢◌, ℕ, ◌<◌, ◌≤◌, ◌∷◌, [], List, Some, IsSomeAnd};
ghost use Rattle.disk_model.specs.Cells.{Cell, cell};
ghost use Rattle.record_codec.specs.Ring.{slot_cell};
ghost use Rattle.record_codec.specs.Saved.{SavedFields};
ghost use Rattle.snapshot_writer.specs.Batches.{SlottedFields, HaveStored, cell_of, with_first};
ghost use Rattle.snapshot_writer.specs.Slots.{saved_at, newest, newest_slot, other_slot, IsFree, IsAbove, IsSameNewest};
ghost use Rattle.snapshot_writer.specs.Storing.{HoldsSaved, HasStored, IsKeptOrStored};

/// The newest state is what its slot holds, and no state in a slot of the atom has a greater count.
pub fn the_newest_stands_in_its_slot()
    ensures slot { (atom : ℕ) (cells : List Cell) → newest_slot atom cells < 2 }
    ensures held { (atom : ℕ) (cells : List Cell) → saved_at atom (newest_slot atom cells) cells ≡ newest atom cells }
    ensures greatest { (atom slot : ℕ) (cells : List Cell) (saved : SavedFields) → slot < 2 → saved_at atom slot cells ≡ Some saved
        → IsSomeAnd (newest atom cells) (λ (best : SavedFields). saved.count ≤ best.count) }
{}

/// The slot that is written next is never the newest's.
pub fn the_slot_that_is_written_next_is_free()
    ensures slot { (atom : ℕ) (cells : List Cell) → other_slot atom cells < 2 }
    ensures free { (atom : ℕ) (cells : List Cell) → IsFree atom (other_slot atom cells) cells }
{}

/// Wherever storing in a free slot is stopped, the newest state is the old one or the whole new one.
pub fn a_stop_leaves_the_old_newest_or_the_new()
    ensures { (slot : ℕ) (saved : SavedFields) (before cells : List Cell) → slot < 2 → IsFree saved.atom slot before
        → HasStored slot saved before cells → IsKeptOrStored slot saved before cells }
{}

/// A state with a greater count that stands in a free slot is the newest.
pub fn a_stored_state_with_a_greater_count_is_the_newest()
    ensures newest { (slot : ℕ) (saved : SavedFields) (before cells : List Cell) → slot < 2 → IsFree saved.atom slot before
        → HasStored slot saved before cells → HoldsSaved saved (cell cells (slot_cell saved.atom slot))
        → IsAbove saved (newest saved.atom before) → newest saved.atom cells ≡ Some saved }
    ensures slot { (slot : ℕ) (saved : SavedFields) (before cells : List Cell) → slot < 2 → IsFree saved.atom slot before
        → HasStored slot saved before cells → HoldsSaved saved (cell cells (slot_cell saved.atom slot))
        → IsAbove saved (newest saved.atom before) → newest_slot saved.atom cells ≡ slot }
{}

/// Storing a state of one atom leaves the newest state of every other.
pub fn other_atoms_keep_their_newest()
    ensures { (slot atom : ℕ) (saved : SavedFields) (before cells : List Cell) → slot < 2 → atom ≢ saved.atom
        → HasStored slot saved before cells → IsSameNewest atom before cells }
{}

/// Storing a batch leaves what storing its first state and then the rest of the batch leaves: of the first what stands in its slot in the end.
/// So storing is one store after another, down to a batch of no state, which changes nothing.
pub fn a_batch_is_stored_one_state_after_another()
    ensures first { (s : SlottedFields) (rest : List SlottedFields) (before cells : List Cell) → HaveStored (s ∷ rest) before cells
        → HasStored s.slot s.saved before (with_first s before cells) }
    ensures here { (s : SlottedFields) (rest : List SlottedFields) (before cells : List Cell) → HaveStored (s ∷ rest) before cells
        → cell (with_first s before cells) (cell_of s) ≡ cell cells (cell_of s) }
    ensures rest { (s : SlottedFields) (rest : List SlottedFields) (before cells : List Cell) → HaveStored (s ∷ rest) before cells
        → HaveStored rest (with_first s before cells) cells }
    ensures nothing { (before cells : List Cell) → HaveStored [] before cells → cells ≡ before }
{}
