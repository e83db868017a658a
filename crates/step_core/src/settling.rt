//! What a change reached of a judgement is settled: the connectors that it reached are judged again, kept and weighed.
ghost use Rattle.std.specs.Prelude.{◌≡◌, ◌≢◌, ◌≤◌, ◌<◌, ◌+◌, ◌*◌, ◌^◌, ◌/◌, ◌%◌, ◌&&◌, ℕ, true, false, None, Some, IfSome, length, slice_get, slice_index_or};
ghost use Rattle.std.specs.FinSet.{contains};
ghost use Rattle.priority_filter.specs.Members.{has_bit};
ghost use Rattle.priority_filter.specs.declared.interaction_set.TheConstants.{ROW_WORDS};
ghost use Rattle.plant_model.specs.Choice.{is_possible_at};
ghost use Rattle.plant_model.specs.ConnectorRows.{IsOff, is_of_connector};
ghost use Rattle.plant_model.specs.Fitting.{IsOf};
ghost use Rattle.plant_model.specs.System.{interactions_in, plant_of};
ghost use Rattle.step_core.specs.ChoicesIn.{AreAllPossible};
ghost use Rattle.step_core.specs.Judgement.{IsJudgement, IsOffers, IsUnsettled};
ghost use Rattle.step_core.specs.Possible.{ArePossible};
ghost use Rattle.step_core.specs.Settling.{AreBounded, IsSettledBut, own_count};
ghost use Rattle.step_core.specs.Standing.{IsRivalry, IsStanding, is_always_overruled, is_kept_always};
ghost use Rattle.step_core.specs.Weights.{AreSums, AreWeighed, is_kept_of, weight_of};

use crate::alone::settle_alone;
use crate::changes::Changes;
use crate::choices::weigh;
use crate::enabled_transitions::EnabledTransitions;
use crate::judgement::Judgement;
use crate::keeping::Keeping;
use crate::leaves::Leaves;
use crate::renewal::Renewal;
use crate::standing::{Rivalry, Standing, rivalry_of, stand_one, stand_over};
use crate::weights::{Weighing, Weights};
use crate::words::put_word;
use connector_tree::Mask;
use plant_model::{ConnectorRows, PlantState, System};
use priority_filter::InteractionSet;

/// Settles the connectors that a change reached.
pub(crate) fn settle(
    system: &System,
    states: &PlantState,
    changes: Changes,
    is_seen_new: bool,
    judgement: &mut Judgement,
)
    requires of_plant { IsOf (plant_of system.now) states.now }
    requires unsettled { IsUnsettled (plant_of system.now) (interactions_in system.now) system.now.ranks states.now changes is_seen_new judgement.old }
    ensures { IsJudgement (plant_of system.now) (interactions_in system.now) system.now.ranks states.now judgement.new }
{
    if system.order.has_conditions() {
        settle_seen(system, states, changes, is_seen_new, judgement);
    } else {
        let alone = system.ranks.alone;
        settle_alone(system, states, alone, changes, judgement);
        let others = Changes {
            dirty: changes.dirty & !alone,
            heavy: changes.heavy & !alone,
        };
        if others.dirty | others.heavy != 0 {
            settle_others(system, states, others, judgement);
        }
    }
}

/// Settles them where a rule has a condition.
fn settle_seen(
    system: &System,
    states: &PlantState,
    changes: Changes,
    is_seen_new: bool,
    judgement: &mut Judgement,
)
    requires of_plant { IsOf (plant_of system.now) states.now }
    requires unsettled { IsUnsettled (plant_of system.now) (interactions_in system.now) system.now.ranks states.now changes is_seen_new judgement.old }
    ensures { IsJudgement (plant_of system.now) (interactions_in system.now) system.now.ranks states.now judgement.new }
{
    let affected = judge_standing(
        system,
        states,
        &judgement.leaves,
        changes.dirty,
        &mut judgement.possible,
        &mut judgement.standing,
    );
    let renewal = Renewal {
        system,
        seen: &judgement.seen,
        possible: &judgement.possible,
        rivals: &judgement.possible,
        standing: &judgement.standing,
        affected,
        is_seen_new,
    };
    let told = renewal.keep_again(&mut judgement.kept);
    weigh(system, states, changes.heavy | told, judgement);
}

/// Settles them where no rule has a condition.
fn settle_others(system: &System, states: &PlantState, changes: Changes, judgement: &mut Judgement)
    requires of_plant { IsOf (plant_of system.now) states.now }
    requires within { (k : ℕ) → length (plant_of system.now).wires ≤ k → (has_bit changes.dirty k ≡ false) × (has_bit changes.heavy k ≡ false) }
    requires settled { IsSettledBut (plant_of system.now) (interactions_in system.now) system.now.ranks states.now (has_bit changes.dirty) (has_bit changes.heavy) judgement.old }
    ensures { IsSettledBut (plant_of system.now) (interactions_in system.now) system.now.ranks states.now (λ _. false) (λ _. false) judgement.new }
{
    let affected = judge_standing(
        system,
        states,
        &judgement.leaves,
        changes.dirty,
        &mut judgement.possible,
        &mut judgement.standing,
    );
    let settling = Settling {
        system,
        states,
        offers: &judgement.offers,
        leaves: &judgement.leaves,
        possible: &judgement.possible,
        standing: &judgement.standing,
    };
    settling.settle_all(
        affected,
        changes.heavy,
        &mut judgement.kept,
        &mut judgement.weights,
    );
}

/// Judges the interactions of the connectors in `dirty` again, which are the rivals. Tells those connectors of which another one is possible
/// now, and those of which a possible one is overruled now that was not, or the other way round, by the rules without a condition.
#[inline(always)]
fn judge_standing(
    system: &System,
    states: &PlantState,
    leaves: &Leaves,
    dirty: u64,
    possible: &mut InteractionSet,
    standing: &mut Standing,
) -> u64
    requires of_plant { IsOf (plant_of system.now) states.now }
    requires off { (k : ℕ) → IsOff (plant_of system.now).atoms (plant_of system.now).wires states.now k (slice_index_or leaves.now.off k 0) }
    requires within { (k : ℕ) → length (plant_of system.now).wires ≤ k → has_bit dirty k ≡ false }
    requires others { (n k : ℕ) → is_of_connector (interactions_in system.now) k n ≡ true → has_bit dirty k ≡ false → contains possible.old n ≡ is_possible_at (plant_of system.now).atoms (plant_of system.now).wires states.now (interactions_in system.now) n }
    requires past { (n : ℕ) → length (interactions_in system.now) ≤ n → contains possible.old n ≡ false }
    requires standing { IsStanding (plant_of system.now) (interactions_in system.now) system.now.ranks (contains possible.old) standing.old }
    ensures possible { ArePossible (plant_of system.now).atoms (plant_of system.now).wires states.now (interactions_in system.now) possible.new }
    ensures standing { IsStanding (plant_of system.now) (interactions_in system.now) system.now.ranks (contains possible.new) standing.new }
    ensures within { (k : ℕ) → length (plant_of system.now).wires ≤ k → has_bit result k ≡ false }
    ensures same { (n k : ℕ) → is_of_connector (interactions_in system.now) k n ≡ true → has_bit result k ≡ false → contains possible.new n ≡ contains possible.old n }
    ensures told { (n k : ℕ) → is_of_connector (interactions_in system.now) k n ≡ true → has_bit result k ≡ false → contains possible.new n ≡ true → is_always_overruled (plant_of system.now) (interactions_in system.now) (contains possible.new) n ≡ is_always_overruled (plant_of system.now) (interactions_in system.now) (contains possible.old) n }
{
    let mut changed = 0;
    let mut reached = 0;
    let mut is_head_new = false;
    let mut left = dirty;
    while left != 0 {
        let connector = left.trailing_zeros() as usize;
        left &= left - 1;
        let off = leaves.off[connector];
        if let Some(rivalry) = judge_own(system, states, off, connector, possible) {
            changed |= 1 << connector;
            reached |= stand_one(system, connector, &rivalry, &mut standing.live);
            is_head_new |= rivalry.is_head_new;
        }
    }
    if is_head_new {
        reached |= stand_over(system, possible, &mut standing.over);
    }
    // Of a connector without a rival nothing is possible.
    changed | reached & standing.live
}

/// Judges the interactions of a connector again. If another one is possible now, it says what other connectors see of it.
#[inline(always)]
fn judge_own(
    system: &System,
    states: &PlantState,
    off: Mask,
    connector: usize,
    possible: &mut InteractionSet,
) -> Option<Rivalry>
    requires connector { connector < length (plant_of system.now).wires }
    requires off { IsOff (plant_of system.now).atoms (plant_of system.now).wires states.now connector off }
    ensures judged { (n : ℕ) → is_of_connector (interactions_in system.now) connector n ≡ true → contains possible.new n ≡ is_possible_at (plant_of system.now).atoms (plant_of system.now).wires states.now (interactions_in system.now) n }
    ensures none { result ≡ None → (n : ℕ) → contains possible.new n ≡ contains possible.old n }
    ensures some { IfSome result (λ r. IsRivalry (interactions_in system.now) system.now.ranks connector (contains possible.old) (contains possible.new) r) }
{
    let rows = &system.connector_rows[connector];
    let low = usize::from(rows.low);
    let high = usize::from(rows.high);
    // The interactions of most connectors stand in one word, in which it is seen which of them are others.
    if high == low + 1 {
        judge_in_word(system, states, off, connector, low, possible)
    } else {
        judge_in_words(system, states, off, connector, possible)
    }
}

/// Does so for a connector all of whose interactions stand in the word with this place.
#[inline(always)]
fn judge_in_word(
    system: &System,
    states: &PlantState,
    off: Mask,
    connector: usize,
    place: usize,
    possible: &mut InteractionSet,
) -> Option<Rivalry>
    requires connector { connector < length (plant_of system.now).wires }
    requires off { IsOff (plant_of system.now).atoms (plant_of system.now).wires states.now connector off }
    requires place { place < ROW_WORDS }
    requires own { (n : ℕ) → is_of_connector (interactions_in system.now) connector n ≡ true → n / 64 ≡ place }
    ensures judged { (n : ℕ) → is_of_connector (interactions_in system.now) connector n ≡ true → contains possible.new n ≡ is_possible_at (plant_of system.now).atoms (plant_of system.now).wires states.now (interactions_in system.now) n }
    ensures none { result ≡ None → (n : ℕ) → contains possible.new n ≡ contains possible.old n }
    ensures some { IfSome result (λ r. IsRivalry (interactions_in system.now) system.now.ranks connector (contains possible.old) (contains possible.new) r) }
{
    let rows = &system.connector_rows[connector];
    let own = rows.own.word(place);
    let before = possible.word(place) & own;
    // Most connectors that are judged miss a leaf that takes part in all of their interactions, and missed it before.
    if (off & rows.must != 0) & (before == 0) {
        return None;
    }
    if !system.judge_connector(connector as u16, off, states, possible) {
        return None;
    }
    let mut rivalry = Rivalry::none();
    rivalry.look(&system.ranks, place, before, possible.word(place) & own);
    Some(rivalry)
}

/// Does so for any connector.
fn judge_in_words(
    system: &System,
    states: &PlantState,
    off: Mask,
    connector: usize,
    possible: &mut InteractionSet,
) -> Option<Rivalry>
    requires connector { connector < length (plant_of system.now).wires }
    requires off { IsOff (plant_of system.now).atoms (plant_of system.now).wires states.now connector off }
    ensures judged { (n : ℕ) → is_of_connector (interactions_in system.now) connector n ≡ true → contains possible.new n ≡ is_possible_at (plant_of system.now).atoms (plant_of system.now).wires states.now (interactions_in system.now) n }
    ensures none { result ≡ None → (n : ℕ) → contains possible.new n ≡ contains possible.old n }
    ensures some { IfSome result (λ r. IsRivalry (interactions_in system.now) system.now.ranks connector (contains possible.old) (contains possible.new) r) }
{
    let before = possible.copy();
    if !system.judge_connector(connector as u16, off, states, possible) {
        return None;
    }
    Some(rivalry_of(system, connector, &before, possible))
}

/// What atoms and leaves offer in a state, what is possible and what stands, all of it judged again.
#[derive(Drop)]
struct Settling<'a> {
    system: &'a System,
    states: &'a PlantState,
    offers: &'a EnabledTransitions,
    leaves: &'a Leaves,
    possible: &'a InteractionSet,
    standing: &'a Standing,
    ghost of_plant: { IsOf (plant_of system.now) states.now },
    ghost offering: { IsOffers (plant_of system.now) states.now offers.now.sets offers.now.counts leaves.now },
    ghost can: { ArePossible (plant_of system.now).atoms (plant_of system.now).wires states.now (interactions_in system.now) possible.now },
    ghost stands: { IsStanding (plant_of system.now) (interactions_in system.now) system.now.ranks (contains possible.now) standing.now },
}

impl Settling<'_> {
    /// Keeps again what no rival is above, by the rules without a condition, of the connectors in `affected`, and weighs those of which another
    /// interaction is kept, and those in `heavy`. What is kept of all others is right, and so is the weight of what was kept of them.
    fn settle_all(
        &self,
        affected: u64,
        heavy: u64,
        kept: &mut InteractionSet,
        weights: &mut Weights,
    )
        requires affected_within { (k : ℕ) → length (plant_of self.now.system.now).wires ≤ k → has_bit affected k ≡ false }
        requires heavy_within { (k : ℕ) → length (plant_of self.now.system.now).wires ≤ k → has_bit heavy k ≡ false }
        requires kept { (n k : ℕ) → is_of_connector (interactions_in self.now.system.now) k n ≡ true → has_bit affected k ≡ false → contains kept.old n ≡ is_kept_always (plant_of self.now.system.now) (interactions_in self.now.system.now) (contains self.now.possible.now) n }
        requires past { (n : ℕ) → length (interactions_in self.now.system.now) ≤ n → contains kept.old n ≡ false }
        requires weights { (k : ℕ) → has_bit heavy k ≡ false → slice_index_or weights.old.of_connectors k 0 ≡ weight_of (plant_of self.now.system.now).atoms self.now.states.now (interactions_in self.now.system.now) (contains kept.old) k }
        requires sums { AreSums weights.old }
        requires bounded { AreBounded (interactions_in self.now.system.now) weights.old.of_connectors }
        ensures kept { (n : ℕ) → contains kept.new n ≡ is_kept_always (plant_of self.now.system.now) (interactions_in self.now.system.now) (contains self.now.possible.now) n }
        ensures weights { AreWeighed (plant_of self.now.system.now).atoms self.now.states.now (interactions_in self.now.system.now) (contains kept.new) weights.new }
    {
        let mut left = affected | heavy;
        while left != 0 {
            let connector = left.trailing_zeros() as usize;
            left &= left - 1;
            let is_affected = has_connector(affected, connector);
            let is_heavy = has_connector(heavy, connector);
            self.settle_one(connector, is_affected, is_heavy, kept, weights);
        }
    }

    /// Does so for one connector.
    #[inline]
    fn settle_one(
        &self,
        connector: usize,
        is_affected: bool,
        is_heavy: bool,
        kept: &mut InteractionSet,
        weights: &mut Weights,
    )
        requires connector { connector < length (plant_of self.now.system.now).wires }
        requires kept { is_affected ≡ false → (n : ℕ) → is_of_connector (interactions_in self.now.system.now) connector n ≡ true → contains kept.old n ≡ is_kept_always (plant_of self.now.system.now) (interactions_in self.now.system.now) (contains self.now.possible.now) n }
        requires weight { is_heavy ≡ false → slice_index_or weights.old.of_connectors connector 0 ≡ weight_of (plant_of self.now.system.now).atoms self.now.states.now (interactions_in self.now.system.now) (contains kept.old) connector }
        requires sums { AreSums weights.old }
        requires bounded { AreBounded (interactions_in self.now.system.now) weights.old.of_connectors }
        ensures kept { (n : ℕ) → is_of_connector (interactions_in self.now.system.now) connector n ≡ true → contains kept.new n ≡ is_kept_always (plant_of self.now.system.now) (interactions_in self.now.system.now) (contains self.now.possible.now) n }
        ensures others { (n : ℕ) → is_of_connector (interactions_in self.now.system.now) connector n ≡ false → contains kept.new n ≡ contains kept.old n }
        ensures weight { slice_index_or weights.new.of_connectors connector 0 ≡ weight_of (plant_of self.now.system.now).atoms self.now.states.now (interactions_in self.now.system.now) (contains kept.new) connector }
        ensures other_weights { (k : ℕ) → k ≢ connector → slice_index_or weights.new.of_connectors k 0 ≡ slice_index_or weights.old.of_connectors k 0 }
        ensures sums { AreSums weights.new }
        ensures bounded { AreBounded (interactions_in self.now.system.now) weights.new.of_connectors }
    {
        let rows = &self.system.connector_rows[connector];
        // The interactions of most connectors stand in one word, which takes no loop.
        if usize::from(rows.high) == usize::from(rows.low) + 1 {
            self.settle_word(connector, rows, is_affected, is_heavy, kept, weights);
        } else {
            self.settle_words(connector, is_affected, is_heavy, kept, weights);
        }
    }

    /// Does so for one all of whose interactions stand in one word.
    #[inline]
    fn settle_word(
        &self,
        connector: usize,
        rows: &ConnectorRows,
        is_affected: bool,
        is_heavy: bool,
        kept: &mut InteractionSet,
        weights: &mut Weights,
    )
        requires connector { connector < length (plant_of self.now.system.now).wires }
        requires rows { slice_get self.now.system.now.connector_rows.items connector ≡ Some rows.now }
        requires word { rows.now.high ≡ rows.now.low + 1 }
        requires kept { is_affected ≡ false → (n : ℕ) → is_of_connector (interactions_in self.now.system.now) connector n ≡ true → contains kept.old n ≡ is_kept_always (plant_of self.now.system.now) (interactions_in self.now.system.now) (contains self.now.possible.now) n }
        requires weight { is_heavy ≡ false → slice_index_or weights.old.of_connectors connector 0 ≡ weight_of (plant_of self.now.system.now).atoms self.now.states.now (interactions_in self.now.system.now) (contains kept.old) connector }
        requires sums { AreSums weights.old }
        requires bounded { AreBounded (interactions_in self.now.system.now) weights.old.of_connectors }
        ensures kept { (n : ℕ) → is_of_connector (interactions_in self.now.system.now) connector n ≡ true → contains kept.new n ≡ is_kept_always (plant_of self.now.system.now) (interactions_in self.now.system.now) (contains self.now.possible.now) n }
        ensures others { (n : ℕ) → is_of_connector (interactions_in self.now.system.now) connector n ≡ false → contains kept.new n ≡ contains kept.old n }
        ensures weight { slice_index_or weights.new.of_connectors connector 0 ≡ weight_of (plant_of self.now.system.now).atoms self.now.states.now (interactions_in self.now.system.now) (contains kept.new) connector }
        ensures other_weights { (k : ℕ) → k ≢ connector → slice_index_or weights.new.of_connectors k 0 ≡ slice_index_or weights.old.of_connectors k 0 }
        ensures sums { AreSums weights.new }
        ensures bounded { AreBounded (interactions_in self.now.system.now) weights.new.of_connectors }
    {
        let place = usize::from(rows.low);
        let word = self.word_to_keep(connector, rows, is_affected, kept);
        let is_new = put_word(rows.own.word(place), place, word, kept);
        if is_new | is_heavy {
            self.weigh_word(connector, place, word, kept, weights);
        }
    }

    /// Does so for any connector.
    fn settle_words(
        &self,
        connector: usize,
        is_affected: bool,
        is_heavy: bool,
        kept: &mut InteractionSet,
        weights: &mut Weights,
    )
        requires connector { connector < length (plant_of self.now.system.now).wires }
        requires kept { is_affected ≡ false → (n : ℕ) → is_of_connector (interactions_in self.now.system.now) connector n ≡ true → contains kept.old n ≡ is_kept_always (plant_of self.now.system.now) (interactions_in self.now.system.now) (contains self.now.possible.now) n }
        requires weight { is_heavy ≡ false → slice_index_or weights.old.of_connectors connector 0 ≡ weight_of (plant_of self.now.system.now).atoms self.now.states.now (interactions_in self.now.system.now) (contains kept.old) connector }
        requires sums { AreSums weights.old }
        requires bounded { AreBounded (interactions_in self.now.system.now) weights.old.of_connectors }
        ensures kept { (n : ℕ) → is_of_connector (interactions_in self.now.system.now) connector n ≡ true → contains kept.new n ≡ is_kept_always (plant_of self.now.system.now) (interactions_in self.now.system.now) (contains self.now.possible.now) n }
        ensures others { (n : ℕ) → is_of_connector (interactions_in self.now.system.now) connector n ≡ false → contains kept.new n ≡ contains kept.old n }
        ensures weight { slice_index_or weights.new.of_connectors connector 0 ≡ weight_of (plant_of self.now.system.now).atoms self.now.states.now (interactions_in self.now.system.now) (contains kept.new) connector }
        ensures other_weights { (k : ℕ) → k ≢ connector → slice_index_or weights.new.of_connectors k 0 ≡ slice_index_or weights.old.of_connectors k 0 }
        ensures sums { AreSums weights.new }
        ensures bounded { AreBounded (interactions_in self.now.system.now) weights.new.of_connectors }
    {
        let is_new = self.keep_one(connector, is_affected, kept);
        if is_new || is_heavy {
            let weighing = Weighing {
                system: self.system,
                states: self.states,
                offers: self.offers,
                leaves: self.leaves,
                kept,
            };
            weigh_one(&weighing, connector, weights);
        }
    }

    /// Keeps those of one connector again, if it is affected. Says whether another one is kept now.
    fn keep_one(&self, connector: usize, is_affected: bool, kept: &mut InteractionSet) -> bool
        requires connector { connector < length (plant_of self.now.system.now).wires }
        requires kept { is_affected ≡ false → (n : ℕ) → is_of_connector (interactions_in self.now.system.now) connector n ≡ true → contains kept.old n ≡ is_kept_always (plant_of self.now.system.now) (interactions_in self.now.system.now) (contains self.now.possible.now) n }
        ensures kept { (n : ℕ) → is_of_connector (interactions_in self.now.system.now) connector n ≡ true → contains kept.new n ≡ is_kept_always (plant_of self.now.system.now) (interactions_in self.now.system.now) (contains self.now.possible.now) n }
        ensures others { (n : ℕ) → is_of_connector (interactions_in self.now.system.now) connector n ≡ false → contains kept.new n ≡ contains kept.old n }
        ensures same { result ≡ false → (n : ℕ) → contains kept.new n ≡ contains kept.old n }
    {
        if !is_affected {
            return false;
        }
        let keeping = Keeping {
            system: self.system,
            possible: self.possible,
            rivals: self.possible,
            standing: self.standing,
        };
        keeping.keep_connector(connector, kept)
    }

    /// Which interactions of a connector are to be kept, all of which stand in one word: bit k for the one with k after 64 times its place.
    /// What is kept of one that is not affected is right.
    #[inline]
    fn word_to_keep(
        &self,
        connector: usize,
        rows: &ConnectorRows,
        is_affected: bool,
        kept: &InteractionSet,
    ) -> u64
        requires connector { connector < length (plant_of self.now.system.now).wires }
        requires rows { slice_get self.now.system.now.connector_rows.items connector ≡ Some rows.now }
        requires word { rows.now.high ≡ rows.now.low + 1 }
        requires kept { is_affected ≡ false → (n : ℕ) → is_of_connector (interactions_in self.now.system.now) connector n ≡ true → contains kept.now n ≡ is_kept_always (plant_of self.now.system.now) (interactions_in self.now.system.now) (contains self.now.possible.now) n }
        ensures { (n : ℕ) → n / 64 ≡ rows.now.low → has_bit result (n % 64) ≡ (is_of_connector (interactions_in self.now.system.now) connector n && is_kept_always (plant_of self.now.system.now) (interactions_in self.now.system.now) (contains self.now.possible.now) n) }
    {
        let place = usize::from(rows.low);
        if !is_affected {
            return kept.word(place) & rows.own.word(place);
        }
        let keeping = Keeping {
            system: self.system,
            possible: self.possible,
            rivals: self.possible,
            standing: self.standing,
        };
        keeping.word_again(connector, rows, place)
    }

    /// Weighs a connector all of whose interactions stand in the word with this place, of which those are kept whose bit is set. Where none
    /// of its leaves offers more than one transition, each of them has one choice.
    #[inline]
    fn weigh_word(
        &self,
        connector: usize,
        place: usize,
        word: u64,
        kept: &InteractionSet,
        weights: &mut Weights,
    )
        requires connector { connector < length (plant_of self.now.system.now).wires }
        requires in_word { (n : ℕ) → is_of_connector (interactions_in self.now.system.now) connector n ≡ true → n / 64 ≡ place }
        requires word { (n : ℕ) → n / 64 ≡ place → has_bit word (n % 64) ≡ is_kept_of (interactions_in self.now.system.now) (contains kept.now) connector n }
        requires kept { (n : ℕ) → is_of_connector (interactions_in self.now.system.now) connector n ≡ true → contains kept.now n ≡ is_kept_always (plant_of self.now.system.now) (interactions_in self.now.system.now) (contains self.now.possible.now) n }
        requires sums { AreSums weights.old }
        requires bounded { AreBounded (interactions_in self.now.system.now) weights.old.of_connectors }
        ensures weight { slice_index_or weights.new.of_connectors connector 0 ≡ weight_of (plant_of self.now.system.now).atoms self.now.states.now (interactions_in self.now.system.now) (contains kept.now) connector }
        ensures other_weights { (k : ℕ) → k ≢ connector → slice_index_or weights.new.of_connectors k 0 ≡ slice_index_or weights.old.of_connectors k 0 }
        ensures sums { AreSums weights.new }
        ensures bounded { AreBounded (interactions_in self.now.system.now) weights.new.of_connectors }
    {
        if (self.leaves.many[connector] == 0) | (word == 0) {
            put_weight(
                self.system,
                connector,
                u128::from(word.count_ones()),
                weights,
            );
        } else {
            let weighing = Weighing {
                system: self.system,
                states: self.states,
                offers: self.offers,
                leaves: self.leaves,
                kept,
            };
            weigh_one(&weighing, connector, weights);
        }
    }
}

/// Weighs one connector.
pub(crate) fn weigh_one(weighing: &Weighing, connector: usize, weights: &mut Weights)
    requires connector { connector < length (plant_of weighing.now.system.now).wires }
    requires possible { AreAllPossible (plant_of weighing.now.system.now).atoms (plant_of weighing.now.system.now).wires weighing.now.states.now (interactions_in weighing.now.system.now) (is_kept_of (interactions_in weighing.now.system.now) (contains weighing.now.kept.now) connector) }
    requires sums { AreSums weights.old }
    requires bounded { AreBounded (interactions_in weighing.now.system.now) weights.old.of_connectors }
    ensures weight { slice_index_or weights.new.of_connectors connector 0 ≡ weight_of (plant_of weighing.now.system.now).atoms weighing.now.states.now (interactions_in weighing.now.system.now) (contains weighing.now.kept.now) connector }
    ensures other_weights { (k : ℕ) → k ≢ connector → slice_index_or weights.new.of_connectors k 0 ≡ slice_index_or weights.old.of_connectors k 0 }
    ensures sums { AreSums weights.new }
    ensures bounded { AreBounded (interactions_in weighing.now.system.now) weights.new.of_connectors }
{
    put_weight(
        weighing.system,
        connector,
        weighing.weight_of(connector),
        weights,
    );
}

/// Puts this weight in the place of the connector's: one that so many interactions as it has can have.
#[inline]
fn put_weight(system: &System, connector: usize, weight: u128, weights: &mut Weights)
    requires connector { connector < length (plant_of system.now).wires }
    requires small { weight ≤ 2 ^ 122 }
    requires few { weight ≤ own_count (interactions_in system.now) connector * 2 ^ 112 }
    requires sums { AreSums weights.old }
    requires bounded { AreBounded (interactions_in system.now) weights.old.of_connectors }
    ensures weight { slice_index_or weights.new.of_connectors connector 0 ≡ weight }
    ensures other_weights { (k : ℕ) → k ≢ connector → slice_index_or weights.new.of_connectors k 0 ≡ slice_index_or weights.old.of_connectors k 0 }
    ensures sums { AreSums weights.new }
    ensures bounded { AreBounded (interactions_in system.now) weights.new.of_connectors }
{
    weights.set(connector, weight);
}

/// Whether the word has the connector's bit.
#[inline]
pub(crate) fn has_connector(word: u64, connector: usize) -> bool
    ensures { result ≡ has_bit word connector }
{
    connector < 64 && (word >> connector) & 1 == 1
}
