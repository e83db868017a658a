//! The choices of a global state: how many there are, and which.
ghost use Rattle.std.specs.Prelude.{◌≡◌, ◌↔◌, ◌∷◌, [], ◌<◌, ◌≤◌, ◌*◌, ◌/◌, ◌%◌, ◌&&◌, ◌^◌, not, nat_lt, ℕ, true, false, Some, map, length, slice_get, slice_index_or};
ghost use Rattle.std.specs.FinSet.{contains, empty};
ghost use Rattle.priority_filter.specs.Active.{active, may_be_marked};
ghost use Rattle.priority_filter.specs.Decided.{is_overruled};
ghost use Rattle.priority_filter.specs.Members.{has_bit};
ghost use Rattle.priority_filter.specs.declared.interaction_set.TheConstants.{ROW_WORDS};
ghost use Rattle.plant_model.specs.Choice.{choices, is_possible_at, named, IsAllowed, IsStuck};
ghost use Rattle.plant_model.specs.Chosen.{choice_of};
ghost use Rattle.plant_model.specs.ConnectorRows.{IsOff, is_of_connector};
ghost use Rattle.plant_model.specs.Delivery.{AreApart};
ghost use Rattle.plant_model.specs.Fitting.{IsOf};
ghost use Rattle.plant_model.specs.System.{interactions_in, plant_of};
ghost use Rattle.plant_model.specs.declared.choice.Move.{Move};
ghost use Rattle.connector_tree.specs.declared.tree.TheConstants.{MAX_LEAVES};
ghost use Rattle.step_core.specs.ChoicesIn.{choices_in};
ghost use Rattle.step_core.specs.Judgement.{IsBehind, IsJudgement, IsMovedBehind, IsOffering};
ghost use Rattle.step_core.specs.Possible.{ArePossible};
ghost use Rattle.step_core.specs.Weights.{AreSums, AreWeighed, weight_of};

use crate::changes::{judge_anew, judge_moved};
use crate::enabled_transitions::EnabledTransitions;
use crate::judgement::Judgement;
use crate::leaves::Leaves;
use crate::settling::settle;
use crate::sights::{see_again, see_moved};
use crate::standing::standing_of;
use crate::weights::{Weighing, Weights};
use plant_model::{Choice, Move, PlantState, System};
use priority_filter::{InteractionSet, SEEN_ATOMS, Seen};

/// How many choices the state has; none exactly if no interaction is possible.
pub fn count_allowed(system: &System, states: &PlantState) -> u128
    requires { IsOf (plant_of system.now) states.now }
    ensures count { result ≡ length (choices (plant_of system.now) states.now) }
    ensures stuck { (result ≡ 0) ↔ IsStuck (plant_of system.now) states.now }
{
    judge(system, states).weights.total
}

/// The choice of the state with this place, from 0, in the order of the choices.
pub fn nth_allowed(system: &System, states: &PlantState, place: u128) -> Choice
    requires of_plant { IsOf (plant_of system.now) states.now }
    requires place { place < length (choices (plant_of system.now) states.now) }
    ensures entry { slice_get (choices (plant_of system.now) states.now) place ≡ Some (choice_of result) }
    ensures allowed { IsAllowed (plant_of system.now) states.now (choice_of result) }
{
    let judgement = judge(system, states);
    choice_at(system, states, &judgement, place)
}

/// What the state offers, judged in full.
pub(crate) fn judge(system: &System, states: &PlantState) -> Judgement
    requires { IsOf (plant_of system.now) states.now }
    ensures { IsJudgement (plant_of system.now) (interactions_in system.now) system.now.ranks states.now result }
{
    let offers = EnabledTransitions::of(&system.atoms, states);
    let leaves = Leaves::of(system, &offers);
    let all = all_below(system.wires.len());
    let mut possible = InteractionSet::new();
    let _ = judge_dirty(system, states, &leaves, all, &mut possible);
    let seen = states.seen();
    let standing = standing_of(system, &possible);
    let mut kept = InteractionSet::new();
    let _ = keep(system, &seen, &possible, &possible, &mut kept);
    let mut weights = Weights::none();
    let weighing = Weighing {
        system,
        states,
        offers: &offers,
        leaves: &leaves,
        kept: &kept,
    };
    weighing.weigh_again(all, &mut weights);
    Judgement {
        offers,
        leaves,
        possible,
        seen,
        standing,
        kept,
        weights,
    }
}

/// The word that has the bits below the count.
pub(crate) fn all_below(count: usize) -> u64
    requires { count ≤ 64 }
    ensures { (k : ℕ) → has_bit result k ≡ nat_lt k count }
{
    if count < 64 {
        (1 << count) - 1
    } else {
        u64::MAX
    }
}

/// Judges again what depends on the moves, which were fired; what is kept was judged in the state before.
pub(crate) fn judge_again(
    system: &System,
    states: &PlantState,
    moves: &[Move],
    judgement: &mut Judgement,
)
    requires of_plant { IsOf (plant_of system.now) states.now }
    requires few { length moves.now ≤ MAX_LEAVES }
    requires apart { AreApart moves.now }
    requires there { (k : ℕ) (m : Move) → slice_get moves.now k ≡ Some m → m.atom < length (plant_of system.now).atoms }
    requires behind { IsMovedBehind (plant_of system.now) (interactions_in system.now) system.now.ranks moves.now states.now judgement.old }
    ensures { IsJudgement (plant_of system.now) (interactions_in system.now) system.now.ranks states.now judgement.new }
{
    let changes = judge_moved(
        system,
        states,
        moves,
        &mut judgement.offers,
        &mut judgement.leaves,
    );
    let is_seen_new = see_moved(&system.order, states, moves, &mut judgement.seen);
    settle(system, states, changes, is_seen_new, judgement);
}

/// Judges again what depends on the atom; what is kept was judged in a state in which all other atoms were as now.
pub(crate) fn judge_atom_again(
    system: &System,
    states: &PlantState,
    atom: u16,
    judgement: &mut Judgement,
)
    requires of_plant { IsOf (plant_of system.now) states.now }
    requires behind { IsBehind (plant_of system.now) (interactions_in system.now) system.now.ranks (atom ∷ []) states.now judgement.old }
    ensures { IsJudgement (plant_of system.now) (interactions_in system.now) system.now.ranks states.now judgement.new }
{
    let changes = judge_anew(
        system,
        states,
        &[atom],
        &mut judgement.offers,
        &mut judgement.leaves,
    );
    let is_seen_new = see_again(&system.order, states, &[atom], &mut judgement.seen);
    settle(system, states, changes, is_seen_new, judgement);
}

/// Weighs the connectors again whose bit in the word is set; the weights of all others are right.
pub(crate) fn weigh(system: &System, states: &PlantState, heavy: u64, judgement: &mut Judgement)
    requires of_plant { IsOf (plant_of system.now) states.now }
    requires offering { IsOffering (plant_of system.now) (interactions_in system.now) states.now judgement.old.offers.sets judgement.old.offers.counts judgement.old.leaves (contains judgement.old.kept) }
    requires within { (k : ℕ) → length (plant_of system.now).wires ≤ k → has_bit heavy k ≡ false }
    requires others { (k : ℕ) → has_bit heavy k ≡ false → slice_index_or judgement.old.weights.of_connectors k 0 ≡ weight_of (plant_of system.now).atoms states.now (interactions_in system.now) (contains judgement.old.kept) k }
    requires sums { AreSums judgement.old.weights }
    requires few { judgement.old.weights.total ≤ 2 ^ 122 }
    ensures weights { AreWeighed (plant_of system.now).atoms states.now (interactions_in system.now) (contains judgement.new.kept) judgement.new.weights }
    ensures offers { judgement.new.offers ≡ judgement.old.offers }
    ensures leaves { judgement.new.leaves ≡ judgement.old.leaves }
    ensures possible { judgement.new.possible ≡ judgement.old.possible }
    ensures seen { judgement.new.seen ≡ judgement.old.seen }
    ensures standing { judgement.new.standing ≡ judgement.old.standing }
    ensures kept { judgement.new.kept ≡ judgement.old.kept }
{
    let weighing = Weighing {
        system,
        states,
        offers: &judgement.offers,
        leaves: &judgement.leaves,
        kept: &judgement.kept,
    };
    weighing.weigh_again(heavy, &mut judgement.weights);
}

/// Judges the interactions of the connectors whose bit in the word is set. Tells those connectors of which another one is possible now.
pub(crate) fn judge_dirty(
    system: &System,
    states: &PlantState,
    leaves: &Leaves,
    dirty: u64,
    possible: &mut InteractionSet,
) -> u64
    requires of_plant { IsOf (plant_of system.now) states.now }
    requires off { (k : ℕ) → IsOff (plant_of system.now).atoms (plant_of system.now).wires states.now k (slice_index_or leaves.now.off k 0) }
    requires within { (k : ℕ) → length (plant_of system.now).wires ≤ k → has_bit dirty k ≡ false }
    requires others { (n k : ℕ) → is_of_connector (interactions_in system.now) k n ≡ true → has_bit dirty k ≡ false → contains possible.old n ≡ is_possible_at (plant_of system.now).atoms (plant_of system.now).wires states.now (interactions_in system.now) n }
    requires past { (n : ℕ) → length (interactions_in system.now) ≤ n → contains possible.old n ≡ false }
    ensures possible { ArePossible (plant_of system.now).atoms (plant_of system.now).wires states.now (interactions_in system.now) possible.new }
    ensures changed_within { (k : ℕ) → length (plant_of system.now).wires ≤ k → has_bit result k ≡ false }
    ensures same { (n k : ℕ) → is_of_connector (interactions_in system.now) k n ≡ true → has_bit result k ≡ false → contains possible.new n ≡ contains possible.old n }
{
    let mut changed = 0;
    let mut left = dirty;
    while left != 0 {
        let connector = left.trailing_zeros() as usize;
        left &= left - 1;
        let off = leaves.off[connector];
        if system.judge_connector(connector as u16, off, states, possible) {
            changed |= 1 << connector;
        }
    }
    changed
}

/// Keeps the possible interactions that no rival is above, by the rules that count as far as is seen. Says of which connectors another one is
/// kept now.
pub(crate) fn keep(
    system: &System,
    seen: &[Seen; SEEN_ATOMS],
    possible: &InteractionSet,
    rivals: &InteractionSet,
    kept: &mut InteractionSet,
) -> u64
    requires { (n : ℕ) → length (interactions_in system.now) ≤ n → contains possible.now n ≡ false }
    ensures kept { (n : ℕ) → contains kept.new n ≡ (contains possible.now n && not (is_overruled (active (may_be_marked seen.now) (plant_of system.now).rules) (map named (interactions_in system.now)) (contains rivals.now) n)) }
    ensures within { (k : ℕ) → length (plant_of system.now).wires ≤ k → has_bit result k ≡ false }
    ensures told { (n k : ℕ) → is_of_connector (interactions_in system.now) k n ≡ true → has_bit result k ≡ false → contains kept.new n ≡ contains kept.old n }
{
    let before = kept.copy();
    kept.clear();
    let words = system.interactions.len().div_ceil(64);
    system.order.filter(seen, possible, rivals, words, kept);
    let mut changed = 0;
    for place in 0..words {
        let differing = before.word(place) ^ kept.word(place);
        changed |= connectors_of(system, place, differing);
    }
    changed
}

/// The connectors of those of the 64 interactions from 64 times the place on that are there and whose bit in the word is set.
fn connectors_of(system: &System, place: usize, word: u64) -> u64
    requires { place < ROW_WORDS }
    ensures within { (k : ℕ) → length (plant_of system.now).wires ≤ k → has_bit result k ≡ false }
    ensures told { (n k : ℕ) → n / 64 ≡ place → is_of_connector (interactions_in system.now) k n ≡ true → has_bit word (n % 64) ≡ true → has_bit result k ≡ true }
{
    let mut connectors = 0;
    let mut left = word;
    while left != 0 {
        let bit = left.trailing_zeros() as usize;
        let Some(interaction) = system.interactions.get(64 * place + bit) else {
            break;
        };
        let connector = usize::from(interaction.connector);
        connectors |= 1 << connector;
        left &= !system.connector_rows[connector].own.word(place);
    }
    connectors
}

/// The choice with this place among those of the kept interactions.
pub(crate) fn choice_at(
    system: &System,
    states: &PlantState,
    judgement: &Judgement,
    place: u128,
) -> Choice
    requires of_plant { IsOf (plant_of system.now) states.now }
    requires offering { IsOffering (plant_of system.now) (interactions_in system.now) states.now judgement.now.offers.sets judgement.now.offers.counts judgement.now.leaves (contains judgement.now.kept) }
    requires weights { AreWeighed (plant_of system.now).atoms states.now (interactions_in system.now) (contains judgement.now.kept) judgement.now.weights }
    requires place { place < length (choices_in (plant_of system.now).atoms states.now (interactions_in system.now) (contains judgement.now.kept)) }
    ensures { slice_get (choices_in (plant_of system.now).atoms states.now (interactions_in system.now) (contains judgement.now.kept)) place ≡ Some (choice_of result) }
{
    let mut choice = Choice::none();
    choose(system, states, judgement, place, &mut choice);
    choice
}

/// Writes the choice with this place among those of the kept interactions.
#[inline(always)]
pub(crate) fn choose(
    system: &System,
    states: &PlantState,
    judgement: &Judgement,
    place: u128,
    choice: &mut Choice,
)
    requires of_plant { IsOf (plant_of system.now) states.now }
    requires offering { IsOffering (plant_of system.now) (interactions_in system.now) states.now judgement.now.offers.sets judgement.now.offers.counts judgement.now.leaves (contains judgement.now.kept) }
    requires weights { AreWeighed (plant_of system.now).atoms states.now (interactions_in system.now) (contains judgement.now.kept) judgement.now.weights }
    requires place { place < length (choices_in (plant_of system.now).atoms states.now (interactions_in system.now) (contains judgement.now.kept)) }
    ensures { slice_get (choices_in (plant_of system.now).atoms states.now (interactions_in system.now) (contains judgement.now.kept)) place ≡ Some (choice_of choice.new) }
{
    let weighing = Weighing {
        system,
        states,
        offers: &judgement.offers,
        leaves: &judgement.leaves,
        kept: &judgement.kept,
    };
    weighing.choose(&judgement.weights, place, choice);
}
