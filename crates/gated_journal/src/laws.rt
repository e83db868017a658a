//! What the definitions of a journal say of one another. These functions make no call: their clauses are the laws.
ghost use Rattle.std.specs.Prelude.{◌≡◌, ◌≢◌, ◌⊎◌, ◌+◌, ◌*◌, ◌<◌, ◌≤◌, ℕ};
ghost use Rattle.gated_journal.specs.declared.ring.Ring.{Ring};
ghost use Rattle.gated_journal.specs.Live.{place};
ghost use Rattle.gated_journal.specs.Rings.{IsRing, IsAhead, cells_of_ring};

/// Each record cell is a live record's or that of a record ahead, so that emptying the latter empties all that are not live.
pub fn each_record_cell_is_live_or_ahead()
    ensures { (j : Ring) (k : ℕ) → IsRing j → 3 + 2 * j.atoms ≤ k → k < cells_of_ring j
        → ((n : ℕ) × (j.base ≤ n) × (n ≤ j.last) × (place j n ≡ k)) ⊎ ((n : ℕ) × IsAhead j n × (place j n ≡ k)) }
{}

/// And no cell is both.
pub fn no_record_ahead_has_the_cell_of_a_live_one()
    ensures { (j : Ring) (live ahead : ℕ) → j.base ≤ live → live ≤ j.last → IsAhead j ahead → place j live ≢ place j ahead }
{}
