//! The seeds of runs by random picks.
ghost use Rattle.std.specs.Prelude.{◌≡◌};
ghost use Rattle.run_tallies.specs.Seeds.{asked_of, number_of, random_run};

use run_text::{RandomPicks, Weights};

/// A run by random picks for each seed from the first to the last, both included; none if the last is before the first.
#[derive(Clone, Copy, Debug, PartialEq, Eq)]
pub struct Seeds {
    /// How many picks each run has.
    pub count: u64,
    /// The first seed.
    pub first: u64,
    /// The last.
    pub last: u64,
}

impl Seeds {
    /// How many seeds there are.
    pub(crate) fn number(self) -> u128
        ensures { result ≡ number_of self }
    {
        (u128::from(self.last) + 1).saturating_sub(u128::from(self.first))
    }

    /// How many picks all runs have; one more than 2^64 - 1 counts as that.
    pub(crate) fn asked(self) -> u64
        ensures { result ≡ asked_of self }
    {
        let all = u128::from(self.count) * self.number();
        all.min(u128::from(u64::MAX)) as u64
    }
}

/// So many random picks by a seed, and by weights where they are given.
pub(crate) fn random_run(weights: Option<Weights>, seed: u64, count: u64) -> RandomPicks
    ensures { result ≡ random_run weights count seed }
{
    match weights {
        Some(weights) => RandomPicks::weighted(seed, count, weights),
        None => RandomPicks::new(seed, count),
    }
}
