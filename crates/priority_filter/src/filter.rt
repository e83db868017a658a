//! The interactions that an order leaves of some of them, 64 at a time.
ghost use Rattle.std.specs.Prelude.{◌≡◌, ℕ, ◌+◌, ◌*◌, ◌/◌, ◌%◌, ◌<◌, ◌≤◌, ◌&&◌, not};
ghost use Rattle.std.specs.FinSet as set;
ghost use Rattle.priority_filter.specs.Active.{active, unconditional, may_be_marked};
ghost use Rattle.priority_filter.specs.Decided.{is_overruled};
ghost use Rattle.priority_filter.specs.Members.{has_bit};
ghost use Rattle.priority_filter.specs.declared.interaction_set.TheConstants.{ROW_WORDS};

use crate::interaction_set::{InteractionSet, ROW_WORDS};
use crate::order::Order;
use crate::seen::{SEEN_ATOMS, Seen};

impl Order {
    /// Says of each interaction of the first words, 64 for each word, whether it is in `kept`: it is there if it is a candidate and no
    /// rival is above it, by the rules that count as far as is seen. What `kept` has past the words stays.
    pub fn filter(
        &self,
        seen: &[Seen; SEEN_ATOMS],
        candidates: &InteractionSet,
        rivals: &InteractionSet,
        words: usize,
        kept: &mut InteractionSet,
    )
        requires { words ≤ ROW_WORDS }
        ensures within { (n : ℕ) → n < 64 * words → set.contains kept.new n ≡ (set.contains candidates.now n && not (is_overruled (active (may_be_marked seen.now) self.now.rules) self.now.interactions (set.contains rivals.now) n)) }
        ensures past { (n : ℕ) → 64 * words ≤ n → set.contains kept.new n ≡ set.contains kept.old n }
    {
        self.filter_always(candidates, rivals, words, kept);
        if self.has_conditions() {
            let over = self.overruled_by_conditions(seen, rivals);
            kept.remove_words(&over, words);
        }
    }

    /// The same by the rules without a condition.
    fn filter_always(
        &self,
        candidates: &InteractionSet,
        rivals: &InteractionSet,
        words: usize,
        kept: &mut InteractionSet,
    )
        requires { words ≤ ROW_WORDS }
        ensures within { (n : ℕ) → n < 64 * words → set.contains kept.new n ≡ (set.contains candidates.now n && not (is_overruled (unconditional self.now.rules) self.now.interactions (set.contains rivals.now) n)) }
        ensures past { (n : ℕ) → 64 * words ≤ n → set.contains kept.new n ≡ set.contains kept.old n }
    {
        for place in 0..words {
            let word = self.kept_word(candidates, rivals, place);
            kept.set_word(place, word);
        }
    }

    /// Which of 64 interactions are candidates with no rival above them. Those that nothing is above are not asked for.
    fn kept_word(&self, candidates: &InteractionSet, rivals: &InteractionSet, place: usize) -> u64
        requires { place < ROW_WORDS }
        ensures { (n : ℕ) → n / 64 ≡ place → has_bit result (n % 64) ≡ (set.contains candidates.now n && not (is_overruled (unconditional self.now.rules) self.now.interactions (set.contains rivals.now) n)) }
    {
        let here = candidates.word(place);
        let kept = here & self.free_word(place);
        kept | self.without_overruled(rivals, place, here & !kept)
    }

    /// Those of some of 64 interactions that have no rival above them.
    fn without_overruled(&self, rivals: &InteractionSet, place: usize, some: u64) -> u64
        requires { place < ROW_WORDS }
        ensures { (k : ℕ) → k < 64 → has_bit result k ≡ (has_bit some k && not (is_overruled (unconditional self.now.rules) self.now.interactions (set.contains rivals.now) (64 * place + k))) }
    {
        let mut kept = some;
        let mut left = some;
        while left != 0 {
            let bit = left.trailing_zeros() as usize;
            if self.is_overruled((64 * place + bit) as u16, rivals) {
                kept &= !(1 << bit);
            }
            left &= !(1 << bit);
        }
        kept
    }
}
