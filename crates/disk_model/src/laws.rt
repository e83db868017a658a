//! What the definitions of the disk model say of one another. These functions make no call: their clauses are the laws.
ghost use Rattle.std.specs.Prelude.{◌≡◌, ◌≢◌, ◌*◌, ◌<◌, ℕ, List, false, slice_index, ◌↔◌};
ghost use Rattle.disk_model.specs.DiskState.{Moment, DiskState, MayLeave, IsSettled, LeftSince, moment_of, size_of, is_pending};
ghost use Rattle.disk_model.specs.Cells.{cell_count, IsClosed};
ghost use Rattle.disk_model.specs.Laws.{IsShut};

/// What a read gives is itself among what a stop may leave.
pub fn what_a_read_gives_may_be_left()
    ensures { (m : Moment) → MayLeave m m.seen }
{}

/// This moment is one of those since any earlier one.
pub fn this_moment_counts()
    ensures { (s : DiskState) (t : ℕ) (image : List ℕ) → MayLeave s.now image → LeftSince s t image }
{}

/// Since this moment there is no other.
pub fn since_now_there_is_only_now()
    ensures { (s : DiskState) (image : List ℕ) → LeftSince s (moment_of s) image → MayLeave s.now image }
{}

/// A stop leaves what a read gives and nothing else exactly where no byte is pending.
pub fn settled_is_nothing_pending()
    ensures { (s : DiskState) → IsSettled s.now ↔ ((i : ℕ) → i < size_of s → is_pending s.now i ≡ false) }
{}

/// A cell is empty whatever a stop leaves exactly where its gate reads closed and is not pending.
pub fn closed_is_shut_and_not_pending()
    ensures { (size k : ℕ) (s : DiskState) → 0 < size → k < cell_count size s → IsClosed size s k ↔ IsShut size s k }
{}
