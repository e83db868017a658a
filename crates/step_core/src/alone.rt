//! Connectors that no other one has to do with by the rules without a condition: each is settled by itself.
ghost use Rattle.std.specs.Prelude.{◌≡◌, ◌≢◌, ◌<◌, ◌≤◌, ◌+◌, ◌/◌, ◌%◌, ◌&&◌, not, ℕ, true, false, None, Some, IfSome, length, slice_get, slice_index_or};
ghost use Rattle.std.specs.FinSet.{contains};
ghost use Rattle.priority_filter.specs.Members.{has_bit};
ghost use Rattle.priority_filter.specs.declared.interaction_set.TheConstants.{ROW_WORDS};
ghost use Rattle.plant_model.specs.Choice.{is_possible_at};
ghost use Rattle.plant_model.specs.ConnectorRows.{is_of_connector};
ghost use Rattle.plant_model.specs.Fitting.{IsOf};
ghost use Rattle.plant_model.specs.System.{interactions_in, plant_of};
ghost use Rattle.step_core.specs.Alone.{IsAlone};
ghost use Rattle.step_core.specs.ChoicesIn.{AreAllPossible};
ghost use Rattle.step_core.specs.Judgement.{IsOffers};
ghost use Rattle.step_core.specs.KeptAlone.{IsKeptAlone};
ghost use Rattle.step_core.specs.Settling.{AreBounded, IsSettledBut};
ghost use Rattle.step_core.specs.Standing.{IsStanding, is_kept_always};
ghost use Rattle.step_core.specs.Weights.{AreSums, is_kept_of, weight_of};

use crate::changes::Changes;
use crate::enabled_transitions::EnabledTransitions;
use crate::judgement::Judgement;
use crate::keeping::Keeping;
use crate::leaves::Leaves;
use crate::settling::{has_connector, weigh_one};
use crate::standing::Standing;
use crate::weights::{Weighing, Weights};
use crate::words::put_word;
use plant_model::{ConnectorRows, PlantState, Rank, System};
use priority_filter::InteractionSet;

/// Settles those of the connectors in `alone` that a change reached.
pub(crate) fn settle_alone(
    system: &System,
    states: &PlantState,
    alone: u64,
    changes: Changes,
    judgement: &mut Judgement,
)
    requires of_plant { IsOf (plant_of system.now) states.now }
    requires within { (k : ℕ) → length (plant_of system.now).wires ≤ k → (has_bit changes.dirty k ≡ false) × (has_bit changes.heavy k ≡ false) }
    requires alone { (k : ℕ) → has_bit alone k ≡ true → IsAlone (plant_of system.now) (interactions_in system.now) k }
    requires settled { IsSettledBut (plant_of system.now) (interactions_in system.now) system.now.ranks states.now (has_bit changes.dirty) (has_bit changes.heavy) judgement.old }
    ensures { IsSettledBut (plant_of system.now) (interactions_in system.now) system.now.ranks states.now (λ k. has_bit changes.dirty k && not (has_bit alone k)) (λ k. has_bit changes.heavy k && not (has_bit alone k)) judgement.new }
{
    let mut left = (changes.dirty | changes.heavy) & alone;
    while left != 0 {
        let connector = left.trailing_zeros() as usize;
        left &= left - 1;
        let is_dirty = has_connector(changes.dirty, connector);
        let is_heavy = has_connector(changes.heavy, connector);
        let apart = Apart {
            system,
            states,
            offers: &judgement.offers,
            leaves: &judgement.leaves,
            standing: &judgement.standing,
            is_dirty,
            is_heavy,
        };
        apart.settle(
            connector,
            &mut judgement.possible,
            &mut judgement.kept,
            &mut judgement.weights,
        );
    }
}

/// What atoms and leaves offer in a state, and which connectors have a rival, with what a change reached of a connector that is alone.
#[derive(Drop)]
struct Apart<'a> {
    system: &'a System,
    states: &'a PlantState,
    offers: &'a EnabledTransitions,
    leaves: &'a Leaves,
    standing: &'a Standing,
    /// Whether its interactions are to be judged again.
    is_dirty: bool,
    /// Whether it is to be weighed again.
    is_heavy: bool,
    ghost of_plant: { IsOf (plant_of system.now) states.now },
    ghost offering: { IsOffers (plant_of system.now) states.now offers.now.sets offers.now.counts leaves.now },
}

impl Apart<'_> {
    /// Judges the interactions of the connector again, and keeps and weighs them.
    fn settle(
        &self,
        connector: usize,
        possible: &mut InteractionSet,
        kept: &mut InteractionSet,
        weights: &mut Weights,
    )
        requires connector { connector < length (plant_of self.now.system.now).wires }
        requires alone { IsAlone (plant_of self.now.system.now) (interactions_in self.now.system.now) connector }
        requires clean { self.now.is_dirty ≡ false → (n : ℕ) → is_of_connector (interactions_in self.now.system.now) connector n ≡ true → contains possible.old n ≡ is_possible_at (plant_of self.now.system.now).atoms (plant_of self.now.system.now).wires self.now.states.now (interactions_in self.now.system.now) n }
        requires standing { IsStanding (plant_of self.now.system.now) (interactions_in self.now.system.now) self.now.system.now.ranks (contains possible.old) self.now.standing.now }
        requires kept { (n : ℕ) → contains kept.old n ≡ is_kept_always (plant_of self.now.system.now) (interactions_in self.now.system.now) (contains possible.old) n }
        requires weight { self.now.is_heavy ≡ false → slice_index_or weights.old.of_connectors connector 0 ≡ weight_of (plant_of self.now.system.now).atoms self.now.states.now (interactions_in self.now.system.now) (contains kept.old) connector }
        requires sums { AreSums weights.old }
        requires bounded { AreBounded (interactions_in self.now.system.now) weights.old.of_connectors }
        ensures judged { (n : ℕ) → is_of_connector (interactions_in self.now.system.now) connector n ≡ true → contains possible.new n ≡ is_possible_at (plant_of self.now.system.now).atoms (plant_of self.now.system.now).wires self.now.states.now (interactions_in self.now.system.now) n }
        ensures others { (n : ℕ) → is_of_connector (interactions_in self.now.system.now) connector n ≡ false → contains possible.new n ≡ contains possible.old n }
        ensures standing { IsStanding (plant_of self.now.system.now) (interactions_in self.now.system.now) self.now.system.now.ranks (contains possible.new) self.now.standing.now }
        ensures kept { (n : ℕ) → contains kept.new n ≡ is_kept_always (plant_of self.now.system.now) (interactions_in self.now.system.now) (contains possible.new) n }
        ensures other_kept { (n : ℕ) → is_of_connector (interactions_in self.now.system.now) connector n ≡ false → contains kept.new n ≡ contains kept.old n }
        ensures weight { slice_index_or weights.new.of_connectors connector 0 ≡ weight_of (plant_of self.now.system.now).atoms self.now.states.now (interactions_in self.now.system.now) (contains kept.new) connector }
        ensures other_weights { (k : ℕ) → k ≢ connector → slice_index_or weights.new.of_connectors k 0 ≡ slice_index_or weights.old.of_connectors k 0 }
        ensures sums { AreSums weights.new }
        ensures bounded { AreBounded (interactions_in self.now.system.now) weights.new.of_connectors }
    {
        let rows = &self.system.connector_rows[connector];
        if let Some(count) = self.judge(connector, rows, possible, kept) {
            // Most leaves that offer something offer one transition.
            if self.leaves.many[connector] == 0 {
                weights.set(connector, u128::from(count));
                return;
            }
        } else if !self.is_heavy {
            return;
        }
        self.weigh(connector, kept, weights);
    }

    /// Weighs the connector by what each of its kept interactions has.
    #[inline]
    fn weigh(&self, connector: usize, kept: &InteractionSet, weights: &mut Weights)
        requires connector { connector < length (plant_of self.now.system.now).wires }
        requires possible { AreAllPossible (plant_of self.now.system.now).atoms (plant_of self.now.system.now).wires self.now.states.now (interactions_in self.now.system.now) (is_kept_of (interactions_in self.now.system.now) (contains kept.now) connector) }
        requires sums { AreSums weights.old }
        requires bounded { AreBounded (interactions_in self.now.system.now) weights.old.of_connectors }
        ensures weight { slice_index_or weights.new.of_connectors connector 0 ≡ weight_of (plant_of self.now.system.now).atoms self.now.states.now (interactions_in self.now.system.now) (contains kept.now) connector }
        ensures other_weights { (k : ℕ) → k ≢ connector → slice_index_or weights.new.of_connectors k 0 ≡ slice_index_or weights.old.of_connectors k 0 }
        ensures sums { AreSums weights.new }
        ensures bounded { AreBounded (interactions_in self.now.system.now) weights.new.of_connectors }
    {
        let weighing = Weighing {
            system: self.system,
            states: self.states,
            offers: self.offers,
            leaves: self.leaves,
            kept,
        };
        weigh_one(&weighing, connector, weights);
    }

    /// Whether the word of the connector's interactions shows that none of them was possible, and none is: a leaf that takes part in each of
    /// them offers nothing.
    #[inline]
    fn is_still(&self, connector: usize, rows: &ConnectorRows, possible: &InteractionSet) -> bool
        requires connector { connector < length (plant_of self.now.system.now).wires }
        requires rows { slice_get self.now.system.now.connector_rows.items connector ≡ Some rows.now }
        requires word { rows.now.high ≡ rows.now.low + 1 }
        ensures before { result ≡ true → (n : ℕ) → is_of_connector (interactions_in self.now.system.now) connector n ≡ true → contains possible.now n ≡ false }
        ensures now { result ≡ true → (n : ℕ) → is_of_connector (interactions_in self.now.system.now) connector n ≡ true → is_possible_at (plant_of self.now.system.now).atoms (plant_of self.now.system.now).wires self.now.states.now (interactions_in self.now.system.now) n ≡ false }
    {
        if self.leaves.off[connector] & rows.must == 0 {
            return false;
        }
        let low = usize::from(rows.low);
        possible.word(low) & rows.own.word(low) == 0
    }

    /// Judges the interactions of the connector again, if it is dirty, and keeps them. Says how many are kept now, and need not where these
    /// are the same.
    fn judge(
        &self,
        connector: usize,
        rows: &ConnectorRows,
        possible: &mut InteractionSet,
        kept: &mut InteractionSet,
    ) -> Option<u64>
        requires connector { connector < length (plant_of self.now.system.now).wires }
        requires rows { slice_get self.now.system.now.connector_rows.items connector ≡ Some rows.now }
        requires alone { IsAlone (plant_of self.now.system.now) (interactions_in self.now.system.now) connector }
        requires clean { self.now.is_dirty ≡ false → (n : ℕ) → is_of_connector (interactions_in self.now.system.now) connector n ≡ true → contains possible.old n ≡ is_possible_at (plant_of self.now.system.now).atoms (plant_of self.now.system.now).wires self.now.states.now (interactions_in self.now.system.now) n }
        requires standing { IsStanding (plant_of self.now.system.now) (interactions_in self.now.system.now) self.now.system.now.ranks (contains possible.old) self.now.standing.now }
        requires kept { (n : ℕ) → contains kept.old n ≡ is_kept_always (plant_of self.now.system.now) (interactions_in self.now.system.now) (contains possible.old) n }
        ensures judged { (n : ℕ) → is_of_connector (interactions_in self.now.system.now) connector n ≡ true → contains possible.new n ≡ is_possible_at (plant_of self.now.system.now).atoms (plant_of self.now.system.now).wires self.now.states.now (interactions_in self.now.system.now) n }
        ensures others { (n : ℕ) → is_of_connector (interactions_in self.now.system.now) connector n ≡ false → contains possible.new n ≡ contains possible.old n }
        ensures standing { IsStanding (plant_of self.now.system.now) (interactions_in self.now.system.now) self.now.system.now.ranks (contains possible.new) self.now.standing.now }
        ensures kept { (n : ℕ) → contains kept.new n ≡ is_kept_always (plant_of self.now.system.now) (interactions_in self.now.system.now) (contains possible.new) n }
        ensures other_kept { (n : ℕ) → is_of_connector (interactions_in self.now.system.now) connector n ≡ false → contains kept.new n ≡ contains kept.old n }
        ensures same { result ≡ None → (n : ℕ) → contains kept.new n ≡ contains kept.old n }
        ensures count { slice_index_or self.now.leaves.now.many connector 0 ≡ 0 → IfSome result (λ count. count ≡ weight_of (plant_of self.now.system.now).atoms self.now.states.now (interactions_in self.now.system.now) (contains kept.new) connector) }
    {
        if !self.is_dirty {
            return None;
        }
        let low = usize::from(rows.low);
        let high = usize::from(rows.high);
        if rows.count == 1 {
            self.judge_one(connector, rows, possible, kept)
        } else if high == low + 1 {
            self.judge_in_word(connector, rows, possible, kept)
        } else {
            self.judge_in_words(connector, rows, possible, kept)
        }
    }

    /// Judges the only interaction of the connector again, and keeps it where it is possible.
    #[inline]
    fn judge_one(
        &self,
        connector: usize,
        rows: &ConnectorRows,
        possible: &mut InteractionSet,
        kept: &mut InteractionSet,
    ) -> Option<u64>
        requires connector { connector < length (plant_of self.now.system.now).wires }
        requires alone { IsAlone (plant_of self.now.system.now) (interactions_in self.now.system.now) connector }
        requires rows { slice_get self.now.system.now.connector_rows.items connector ≡ Some rows.now }
        requires one { rows.now.count ≡ 1 }
        ensures kept { IsKeptAlone (plant_of self.now.system.now) (interactions_in self.now.system.now) self.now.states.now connector possible.old possible.new kept.old kept.new }
        ensures same { result ≡ None → (n : ℕ) → contains kept.new n ≡ contains kept.old n }
        ensures count { slice_index_or self.now.leaves.now.many connector 0 ≡ 0 → IfSome result (λ count. count ≡ weight_of (plant_of self.now.system.now).atoms self.now.states.now (interactions_in self.now.system.now) (contains kept.new) connector) }
    {
        let is_possible = self.is_one_possible(connector, rows, possible);
        let place = usize::from(rows.low);
        let own = rows.own.word(place);
        let word = word_where(is_possible, own);
        let _ = put_word(own, place, word, possible);
        let is_new = put_word(own, place, word, kept);
        count_where(is_new | self.is_heavy, u64::from(word.count_ones()))
    }

    /// Judges the interactions of the connector again, which stand in one word, and keeps them. It passes over one of which none was possible
    /// and none is.
    fn judge_in_word(
        &self,
        connector: usize,
        rows: &ConnectorRows,
        possible: &mut InteractionSet,
        kept: &mut InteractionSet,
    ) -> Option<u64>
        requires connector { connector < length (plant_of self.now.system.now).wires }
        requires alone { IsAlone (plant_of self.now.system.now) (interactions_in self.now.system.now) connector }
        requires rows { slice_get self.now.system.now.connector_rows.items connector ≡ Some rows.now }
        requires word { rows.now.high ≡ rows.now.low + 1 }
        requires standing { IsStanding (plant_of self.now.system.now) (interactions_in self.now.system.now) self.now.system.now.ranks (contains possible.old) self.now.standing.now }
        requires kept { (n : ℕ) → contains kept.old n ≡ is_kept_always (plant_of self.now.system.now) (interactions_in self.now.system.now) (contains possible.old) n }
        ensures kept { IsKeptAlone (plant_of self.now.system.now) (interactions_in self.now.system.now) self.now.states.now connector possible.old possible.new kept.old kept.new }
        ensures same { result ≡ None → (n : ℕ) → contains kept.new n ≡ contains kept.old n }
        ensures count { slice_index_or self.now.leaves.now.many connector 0 ≡ 0 → IfSome result (λ count. count ≡ weight_of (plant_of self.now.system.now).atoms self.now.states.now (interactions_in self.now.system.now) (contains kept.new) connector) }
    {
        if self.is_still(connector, rows, possible) {
            return count_where(self.is_heavy, 0);
        }
        let off = self.leaves.off[connector];
        if !self
            .system
            .judge_connector(connector as u16, off, self.states, possible)
        {
            return None;
        }
        let place = usize::from(rows.low);
        let own = rows.own.word(place);
        let word = self.top_of_word(connector, place, possible.word(place) & own, possible);
        let is_new = put_word(own, place, word, kept);
        count_where(is_new | self.is_heavy, u64::from(word.count_ones()))
    }

    /// Does so wherever they stand.
    fn judge_in_words(
        &self,
        connector: usize,
        rows: &ConnectorRows,
        possible: &mut InteractionSet,
        kept: &mut InteractionSet,
    ) -> Option<u64>
        requires connector { connector < length (plant_of self.now.system.now).wires }
        requires alone { IsAlone (plant_of self.now.system.now) (interactions_in self.now.system.now) connector }
        requires rows { slice_get self.now.system.now.connector_rows.items connector ≡ Some rows.now }
        requires standing { IsStanding (plant_of self.now.system.now) (interactions_in self.now.system.now) self.now.system.now.ranks (contains possible.old) self.now.standing.now }
        requires kept { (n : ℕ) → contains kept.old n ≡ is_kept_always (plant_of self.now.system.now) (interactions_in self.now.system.now) (contains possible.old) n }
        ensures kept { IsKeptAlone (plant_of self.now.system.now) (interactions_in self.now.system.now) self.now.states.now connector possible.old possible.new kept.old kept.new }
        ensures same { result ≡ None → (n : ℕ) → contains kept.new n ≡ contains kept.old n }
        ensures count { slice_index_or self.now.leaves.now.many connector 0 ≡ 0 → IfSome result (λ count. count ≡ weight_of (plant_of self.now.system.now).atoms self.now.states.now (interactions_in self.now.system.now) (contains kept.new) connector) }
    {
        let off = self.leaves.off[connector];
        if !self
            .system
            .judge_connector(connector as u16, off, self.states, possible)
        {
            return None;
        }
        self.keep_top(connector, rows, possible, kept)
    }

    /// Keeps those of the connector's possible interactions that none of them is above. Says how many these are, and need not where
    /// the same were kept.
    fn keep_top(
        &self,
        connector: usize,
        rows: &ConnectorRows,
        possible: &InteractionSet,
        kept: &mut InteractionSet,
    ) -> Option<u64>
        requires connector { connector < length (plant_of self.now.system.now).wires }
        requires alone { IsAlone (plant_of self.now.system.now) (interactions_in self.now.system.now) connector }
        requires rows { slice_get self.now.system.now.connector_rows.items connector ≡ Some rows.now }
        requires standing { IsStanding (plant_of self.now.system.now) (interactions_in self.now.system.now) self.now.system.now.ranks (contains possible.now) self.now.standing.now }
        requires judged { (n : ℕ) → is_of_connector (interactions_in self.now.system.now) connector n ≡ true → contains possible.now n ≡ is_possible_at (plant_of self.now.system.now).atoms (plant_of self.now.system.now).wires self.now.states.now (interactions_in self.now.system.now) n }
        ensures kept { (n : ℕ) → is_of_connector (interactions_in self.now.system.now) connector n ≡ true → contains kept.new n ≡ is_kept_always (plant_of self.now.system.now) (interactions_in self.now.system.now) (contains possible.now) n }
        ensures others { (n : ℕ) → is_of_connector (interactions_in self.now.system.now) connector n ≡ false → contains kept.new n ≡ contains kept.old n }
        ensures same { result ≡ None → (n : ℕ) → contains kept.new n ≡ contains kept.old n }
        ensures count { slice_index_or self.now.leaves.now.many connector 0 ≡ 0 → IfSome result (λ count. count ≡ weight_of (plant_of self.now.system.now).atoms self.now.states.now (interactions_in self.now.system.now) (contains kept.new) connector) }
    {
        let rank = &self.system.ranks.of_connectors[connector];
        let mut is_new = false;
        let mut count = 0;
        for place in usize::from(rows.low)..usize::from(rows.high) {
            let own = rows.own.word(place);
            let can = possible.word(place) & own;
            let word = self.top_of_words(connector, rows, rank, place, can, possible);
            is_new |= put_word(own, place, word, kept);
            count += u64::from(word.count_ones());
        }
        count_where(is_new | self.is_heavy, count)
    }

    /// Those of the connector's possible interactions in the word with this place that none of them is above, wherever it stands.
    #[inline]
    fn top_of_words(
        &self,
        connector: usize,
        rows: &ConnectorRows,
        rank: &Rank,
        place: usize,
        word: u64,
        possible: &InteractionSet,
    ) -> u64
        requires connector { connector < length (plant_of self.now.system.now).wires }
        requires alone { IsAlone (plant_of self.now.system.now) (interactions_in self.now.system.now) connector }
        requires rows { slice_get self.now.system.now.connector_rows.items connector ≡ Some rows.now }
        requires rank { slice_get self.now.system.now.ranks.of_connectors.items connector ≡ Some rank.now }
        requires place { place < ROW_WORDS }
        requires standing { IsStanding (plant_of self.now.system.now) (interactions_in self.now.system.now) self.now.system.now.ranks (contains possible.now) self.now.standing.now }
        requires word { (n : ℕ) → n / 64 ≡ place → has_bit word (n % 64) ≡ (contains possible.now n && is_of_connector (interactions_in self.now.system.now) connector n) }
        ensures within { (k : ℕ) → has_bit word k ≡ false → has_bit result k ≡ false }
        ensures top { (n : ℕ) → n / 64 ≡ place → is_of_connector (interactions_in self.now.system.now) connector n ≡ true → has_bit result (n % 64) ≡ is_kept_always (plant_of self.now.system.now) (interactions_in self.now.system.now) (contains possible.now) n }
    {
        if rank.is_flat {
            return word;
        }
        let keeping = Keeping {
            system: self.system,
            possible,
            rivals: possible,
            standing: self.standing,
        };
        keeping.without_lower(connector, rows, place, word)
    }

    /// Whether the only interaction of the connector is possible. The set has all others as it had them.
    #[inline]
    fn is_one_possible(
        &self,
        connector: usize,
        rows: &ConnectorRows,
        possible: &mut InteractionSet,
    ) -> bool
        requires connector { connector < length (plant_of self.now.system.now).wires }
        requires rows { slice_get self.now.system.now.connector_rows.items connector ≡ Some rows.now }
        requires one { rows.now.count ≡ 1 }
        ensures own { (n : ℕ) → is_of_connector (interactions_in self.now.system.now) connector n ≡ true → result ≡ is_possible_at (plant_of self.now.system.now).atoms (plant_of self.now.system.now).wires self.now.states.now (interactions_in self.now.system.now) n }
        ensures others { (n : ℕ) → is_of_connector (interactions_in self.now.system.now) connector n ≡ false → contains possible.new n ≡ contains possible.old n }
    {
        let off = self.leaves.off[connector];
        if off & rows.must != 0 {
            return false;
        }
        if rows.under_clause.is_empty() {
            return true;
        }
        self.system
            .judge_connector(connector as u16, off, self.states, possible);
        possible.contains(rows.first)
    }

    /// Those of the connector's possible interactions, which stand in the word with this place, that none of them is above.
    #[inline]
    fn top_of_word(
        &self,
        connector: usize,
        place: usize,
        word: u64,
        possible: &InteractionSet,
    ) -> u64
        requires connector { connector < length (plant_of self.now.system.now).wires }
        requires alone { IsAlone (plant_of self.now.system.now) (interactions_in self.now.system.now) connector }
        requires place { place < ROW_WORDS }
        requires standing { IsStanding (plant_of self.now.system.now) (interactions_in self.now.system.now) self.now.system.now.ranks (contains possible.now) self.now.standing.now }
        requires in_word { (n : ℕ) → is_of_connector (interactions_in self.now.system.now) connector n ≡ true → n / 64 ≡ place }
        requires word { (n : ℕ) → n / 64 ≡ place → has_bit word (n % 64) ≡ (contains possible.now n && is_of_connector (interactions_in self.now.system.now) connector n) }
        ensures within { (k : ℕ) → has_bit word k ≡ false → has_bit result k ≡ false }
        ensures top { (n : ℕ) → is_of_connector (interactions_in self.now.system.now) connector n ≡ true → has_bit result (n % 64) ≡ is_kept_always (plant_of self.now.system.now) (interactions_in self.now.system.now) (contains possible.now) n }
    {
        if self.system.ranks.of_connectors[connector].is_flat {
            return word;
        }
        let keeping = Keeping {
            system: self.system,
            possible,
            rivals: possible,
            standing: self.standing,
        };
        keeping.without_below(place, word, place, word)
    }
}

/// The word where this is so, and else none of its bits.
#[inline]
fn word_where(is_so: bool, word: u64) -> u64
    ensures { (k : ℕ) → has_bit result k ≡ (is_so && has_bit word k) }
{
    if is_so { word } else { 0 }
}

/// The count where this is so.
#[inline]
fn count_where(is_so: bool, count: u64) -> Option<u64>
    ensures none { result ≡ None → is_so ≡ false }
    ensures some { IfSome result (λ n. n ≡ count) }
{
    if is_so { Some(count) } else { None }
}
