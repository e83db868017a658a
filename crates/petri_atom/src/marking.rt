//! Sets of places as machine words: bit k stands for place k.
ghost use Rattle.std.specs.Prelude.{◌≡◌, ◌≤◌, ◌↔◌, ℕ, IsTrue, false};
ghost use Rattle.petri_atom.specs.Local.{has, is_in, set_below, are_places};
ghost use Rattle.petri_atom.specs.declared.state.TheConstants.{MAX_PLACES};

use crate::state::MAX_PLACES;

/// The word whose bits are the places of the list.
pub(crate) fn word_of(places: &[u8]) -> u64
    requires { IsTrue (are_places places.now) }
    ensures { result ≡ set_below MAX_PLACES (is_in places.now) }
{
    let mut word = 0;
    for place in places {
        word |= 1u64 << *place;
    }
    word
}

/// Whether each place of the word is one of the first `count`.
pub(crate) fn is_within(places: u64, count: usize) -> bool
    ensures { IsTrue result ↔ ((k : ℕ) → count ≤ k → has places k ≡ false) }
{
    count >= MAX_PLACES || places >> count == 0
}
