//! What is true of covered records.
ghost use Rattle.std.specs.Prelude.{◌≡◌, ℕ, ◌<◌, ◌≤◌, ◌↔◌, IsTrue, List, length, take};
ghost use Rattle.std.specs.List.{list_all, prefix_len};
ghost use Rattle.trimmer.specs.Covered.{MarkFields, is_covered};
ghost use Rattle.trimmer.specs.declared.saved.SavedAt.{SavedAt};

/// A front of records is covered exactly if it is no longer than what may go.
pub fn the_cut_is_the_longest_covered_front()
    ensures { (saved : List SavedAt) (records : List MarkFields) (k : ℕ) → k ≤ length records
        → IsTrue (list_all (is_covered saved) (take k records)) ↔ (k ≤ prefix_len (is_covered saved) records) }
{}
