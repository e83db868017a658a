//! Which interactions are kept, again after what is possible has changed, or what is seen.
ghost use Rattle.std.specs.Prelude.{◌≡◌, ◌≤◌, ℕ, true, false, length};
ghost use Rattle.std.specs.FinSet.{contains};
ghost use Rattle.priority_filter.specs.Active.{may_be_marked};
ghost use Rattle.priority_filter.specs.Members.{has_bit};
ghost use Rattle.plant_model.specs.ConnectorRows.{is_of_connector};
ghost use Rattle.plant_model.specs.System.{interactions_in, plant_of};
ghost use Rattle.step_core.specs.Renewal.{IsKeptBehind, is_kept_of_possible};
ghost use Rattle.step_core.specs.Standing.{IsStanding};

use crate::choices::keep;
use crate::keeping::Keeping;
use crate::standing::Standing;
use plant_model::System;
use priority_filter::{InteractionSet, SEEN_ATOMS, Seen};

/// What is possible now, and what is seen, after it was another for some connectors, with the rivals that overrule what is below them.
#[derive(Drop)]
pub(crate) struct Renewal<'a> {
    pub(crate) system: &'a System,
    pub(crate) seen: &'a [Seen; SEEN_ATOMS],
    pub(crate) possible: &'a InteractionSet,
    pub(crate) rivals: &'a InteractionSet,
    pub(crate) standing: &'a Standing,
    /// The connectors of which another interaction is possible than before, or a rival, and those of which something possible may be
    /// overruled that was not, or the other way round, by the rules without a condition.
    pub(crate) affected: u64,
    /// Whether a place that a rule asks for may have changed.
    pub(crate) is_seen_new: bool,
}

impl Renewal<'_> {
    /// Keeps the possible interactions again that no rival is above, by the rules that count as far as is seen. Says of which connectors
    /// another one is kept now.
    pub(crate) fn keep_again(&self, kept: &mut InteractionSet) -> u64
        requires within { (k : ℕ) → length (plant_of self.now.system.now).wires ≤ k → has_bit self.now.affected k ≡ false }
        requires past { (n : ℕ) → length (interactions_in self.now.system.now) ≤ n → contains self.now.possible.now n ≡ false }
        requires standing { IsStanding (plant_of self.now.system.now) (interactions_in self.now.system.now) self.now.system.now.ranks (contains self.now.rivals.now) self.now.standing.now }
        requires behind { IsKeptBehind (plant_of self.now.system.now) (interactions_in self.now.system.now) self.now.affected self.now.is_seen_new (may_be_marked self.now.seen.now) (contains self.now.possible.now) (contains self.now.rivals.now) kept.old }
        ensures kept { (n : ℕ) → contains kept.new n ≡ is_kept_of_possible (plant_of self.now.system.now) (interactions_in self.now.system.now) (may_be_marked self.now.seen.now) (contains self.now.possible.now) (contains self.now.rivals.now) n }
        ensures within { (k : ℕ) → length (plant_of self.now.system.now).wires ≤ k → has_bit result k ≡ false }
        ensures told { (n k : ℕ) → is_of_connector (interactions_in self.now.system.now) k n ≡ true → has_bit result k ≡ false → contains kept.new n ≡ contains kept.old n }
    {
        if !self.system.order.has_conditions() {
            let keeping = Keeping {
                system: self.system,
                possible: self.possible,
                rivals: self.rivals,
                standing: self.standing,
            };
            return keeping.keep_connectors(self.affected, kept);
        }
        if self.affected == 0 && !self.is_seen_new {
            return 0;
        }
        keep(self.system, self.seen, self.possible, self.rivals, kept)
    }
}
