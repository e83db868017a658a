//! How often numbers came.
ghost use Rattle.std.specs.Prelude.{◌≡◌, ℕ, List, [], ◌∷◌, IfOk, slice_index};
ghost use Rattle.run_summary.specs.Counts.{counts_of};

use std::alloc::{AllocError, Global};
use std::marker::Model;

/// How often each number below a bound came. A count that would be more than 2^64 - 1 stays there. In a contract it is the list of
/// the counts.
#[derive(Drop)]
pub(crate) struct Counts {
    counts: Vec<u64>,
}

impl Model for Counts {
    ghost use Rattle.std.specs.Prelude.{ℕ, List};

    ghost Value = { List ℕ };

    ghost view = { λ c. c.counts.items };
}

impl Counts {
    /// None came of the numbers below the bound. It takes memory for the counts.
    pub(crate) fn none(alloc: Global, bound: usize) -> Result<Self, AllocError>
        ensures { IfOk result (λ counts. counts ≡ counts_of bound []) }
    {
        let counts = vec![in alloc; 0; bound]?;
        Ok(Counts { counts })
    }

    /// A number came once more. One that is not below the bound is not counted.
    pub(crate) fn count(&mut self, number: usize)
        ensures { (bound : ℕ) (numbers : List ℕ) → self.old ≡ counts_of bound numbers → self.new ≡ counts_of bound (number ∷ numbers) }
    {
        if number < self.counts.len() {
            self.counts[number] = self.counts[number].saturating_add(1);
        }
    }

    /// How often the number came; 0 of one that is not counted.
    pub(crate) fn of(&self, number: usize) -> u64
        ensures { result ≡ slice_index self.now number }
    {
        self.counts.get(number).copied().unwrap_or(0)
    }
}
