//! The rules with a condition, each kept as two sets, and which interactions they put below a rival.
ghost use Rattle.std.specs.Prelude.{◌≡◌, ℕ, ◌*◌, ◌<◌, ◌≤◌, ◌↔◌, Bool, true, false, IsTrue};
ghost use Rattle.std.specs.FinSet as set;
ghost use Rattle.priority_filter.specs.Active.{may_be_marked};
ghost use Rattle.priority_filter.specs.Conditions.{IsHit, IsClosedBy, IsClosed, IsLeastClosed, AreWithin};
ghost use Rattle.priority_filter.specs.declared.interaction_set.TheConstants.{ROW_WORDS};

use crate::interaction_set::{InteractionSet, ROW_WORDS};
use crate::seen::{At, SEEN_ATOMS, Seen};

/// A rule with a condition: all interactions at or below its left side, and all at or above its right side, by the rules without
/// a condition. So a chain through it leads from one that is below up to one that is above.
#[derive(Drop)]
pub(crate) struct Condition {
    pub(crate) at: At,
    pub(crate) below: InteractionSet,
    pub(crate) above: InteractionSet,
}

impl Condition {
    /// Whether the condition may hold, and something above the rule is a rival or in the set.
    fn is_hit(
        &self,
        seen: &[Seen; SEEN_ATOMS],
        rivals: &InteractionSet,
        words: usize,
        over: &InteractionSet,
    ) -> bool
        requires words { words ≤ ROW_WORDS }
        requires within { (n : ℕ) → IsTrue (set.contains self.now.above n) → n < 64 * words }
        ensures { IsTrue result ↔ IsHit self.now (may_be_marked seen.now) (set.contains rivals.now) (set.contains over.now) }
    {
        self.at.may_be_marked(seen)
            && (self.above.meets(rivals, words) || self.above.meets(over, words))
    }

    /// Puts in what is below the rule, if it is hit. Says whether anything came in.
    fn lower(
        &self,
        seen: &[Seen; SEEN_ATOMS],
        rivals: &InteractionSet,
        words: usize,
        over: &mut InteractionSet,
    ) -> bool
        requires words { words ≤ ROW_WORDS }
        requires above { (n : ℕ) → IsTrue (set.contains self.now.above n) → n < 64 * words }
        requires below { (n : ℕ) → IsTrue (set.contains self.now.below n) → n < 64 * words }
        ensures same { result ≡ false → over.new ≡ over.old }
        ensures closed { result ≡ false → IsClosedBy self.now (may_be_marked seen.now) (set.contains rivals.now) (set.contains over.new) }
        ensures more { result ≡ true → ((n : ℕ) × (n < 64 * words) × (set.contains over.old n ≡ false) × (set.contains over.new n ≡ true)) }
        ensures grows { (n : ℕ) → IsTrue (set.contains over.old n) → IsTrue (set.contains over.new n) }
        ensures least { (other : ℕ → Bool) → IsClosedBy self.now (may_be_marked seen.now) (set.contains rivals.now) other → ((n : ℕ) → IsTrue (set.contains over.old n) → IsTrue (other n)) → (n : ℕ) → IsTrue (set.contains over.new n) → IsTrue (other n) }
    {
        if !self.is_hit(seen, rivals, words, over) {
            return false;
        }
        over.add_words(&self.below, words)
    }
}

/// Goes once through the conditions, and puts in what is below each that is hit. Says whether anything came in.
fn lower_once(
    conditions: &[Condition],
    seen: &[Seen; SEEN_ATOMS],
    rivals: &InteractionSet,
    words: usize,
    over: &mut InteractionSet,
) -> bool
    requires words { words ≤ ROW_WORDS }
    requires within { AreWithin conditions.now (64 * words) }
    ensures closed { result ≡ false → IsClosed conditions.now (may_be_marked seen.now) (set.contains rivals.now) (set.contains over.new) }
    ensures more { result ≡ true → ((n : ℕ) × (n < 64 * words) × (set.contains over.old n ≡ false) × (set.contains over.new n ≡ true)) }
    ensures grows { (n : ℕ) → IsTrue (set.contains over.old n) → IsTrue (set.contains over.new n) }
    ensures least { (other : ℕ → Bool) → IsClosed conditions.now (may_be_marked seen.now) (set.contains rivals.now) other → ((n : ℕ) → IsTrue (set.contains over.old n) → IsTrue (other n)) → (n : ℕ) → IsTrue (set.contains over.new n) → IsTrue (other n) }
{
    let mut added = false;
    for condition in conditions {
        added |= condition.lower(seen, rivals, words, over);
    }
    added
}

/// What the conditions put below a rival, by chains of them too.
pub(crate) fn overruled_by(
    conditions: &[Condition],
    seen: &[Seen; SEEN_ATOMS],
    rivals: &InteractionSet,
    words: usize,
) -> InteractionSet
    requires words { words ≤ ROW_WORDS }
    requires within { AreWithin conditions.now (64 * words) }
    ensures { IsLeastClosed conditions.now (may_be_marked seen.now) (set.contains rivals.now) (set.contains result) }
{
    let mut over = InteractionSet::new();
    'lowering: loop {
        let added = lower_once(conditions, seen, rivals, words, &mut over);
        if !added {
            return over;
        }
    }
}
