//! One word of a set of interactions: some of its 64 put in and taken out.
ghost use Rattle.std.specs.Prelude.{◌≡◌, ◌/◌, ◌%◌, ◌<◌, ℕ, true, false};
ghost use Rattle.std.specs.FinSet.{contains};
ghost use Rattle.priority_filter.specs.Members.{has_bit};
ghost use Rattle.priority_filter.specs.declared.interaction_set.TheConstants.{ROW_WORDS};

use priority_filter::InteractionSet;

/// Makes the set right, of the 64 interactions from 64 times the place on, at those whose bit is set in `own`: it has those whose bit is
/// set in the word, which has no other bits. Says whether the set changed.
#[inline]
pub(crate) fn put_word(own: u64, place: usize, word: u64, set: &mut InteractionSet) -> bool
    requires place { place < ROW_WORDS }
    requires own { (k : ℕ) → has_bit own k ≡ false → has_bit word k ≡ false }
    ensures here { (n : ℕ) → n / 64 ≡ place → has_bit own (n % 64) ≡ true → contains set.new n ≡ has_bit word (n % 64) }
    ensures out { (n : ℕ) → n / 64 ≡ place → has_bit own (n % 64) ≡ false → contains set.new n ≡ contains set.old n }
    ensures others { (n : ℕ) → ¬ (n / 64 ≡ place) → contains set.new n ≡ contains set.old n }
    ensures same { result ≡ false → (n : ℕ) → contains set.new n ≡ contains set.old n }
{
    let before = set.word(place);
    let after = before & !own | word;
    set.set_word(place, after);
    after != before
}
