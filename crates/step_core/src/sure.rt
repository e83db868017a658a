//! What is sure while atoms are away: judged in full in a whole state, and again where parts of it change.
ghost use Rattle.std.specs.Prelude.{◌≡◌, ◌&&◌, ◌||◌, ◌<◌, ◌≤◌, not, Some, ℕ, true, false, is_some, map, length, slice_get};
ghost use Rattle.std.specs.FinSet.{contains};
ghost use Rattle.std.specs.List.{list_all};
ghost use Rattle.petri_atom.specs.Local.{is_in};
ghost use Rattle.connector_tree.specs.declared.tree.TheConstants.{MAX_LEAVES};
ghost use Rattle.priority_filter.specs.Active.{active, may_be_marked};
ghost use Rattle.priority_filter.specs.Decided.{is_overruled};
ghost use Rattle.priority_filter.specs.Members.{has_bit};
ghost use Rattle.plant_model.specs.Choice.{named};
ghost use Rattle.plant_model.specs.Chosen.{choice_of};
ghost use Rattle.plant_model.specs.ConnectorRows.{is_of_connector};
ghost use Rattle.plant_model.specs.Delivery.{AreApart};
ghost use Rattle.plant_model.specs.Fitting.{IsOf};
ghost use Rattle.plant_model.specs.System.{interactions_in, plant_of};
ghost use Rattle.plant_model.specs.declared.choice.Move.{Move};
ghost use Rattle.step_core.specs.Dispatching.{ArePartsOf};
ghost use Rattle.step_core.specs.EnabledTransitions.{AreOffered, AreCounted};
ghost use Rattle.step_core.specs.Parts.{shown_in};
ghost use Rattle.step_core.specs.Sure.{IsSure, is_open_at, sure_choices};
ghost use Rattle.step_core.specs.SureJudgement.{AreOpen, IsSureBehind, IsSureJudgement, IsSureMovedBehind, IsSureUnsettled, has_leaf_of};

use crate::changes::{Changes, judge_anew, judge_moved};
use crate::choices::{choose, judge, judge_dirty, weigh};
use crate::enabled_transitions::EnabledTransitions;
use crate::judgement::Judgement;
use crate::opening::OpenJudge;
use crate::parts::PlantParts;
use crate::possible::InteractionJudge;
use crate::renewal::Renewal;
use crate::sights::{see_again, see_moved};
use crate::standing::stand_again;
use plant_model::{Choice, Move, PlantState, System, port_row};
use priority_filter::InteractionSet;

/// What is sure while atoms are away. It has what the states that the parts show offer, of which the sure interactions are kept, and
/// beside it which interactions are open: a participant is away, and each port of one that is present is offered; and which are rivals: those
/// that are possible, and those that are open. It is of fixed size and takes no memory.
#[derive(Drop)]
pub(crate) struct SureJudgement {
    pub(crate) judgement: Judgement,
    pub(crate) opened: InteractionSet,
    pub(crate) rivals: InteractionSet,
}

/// What is sure in a state of which no atom is away, judged in full: what is allowed.
pub(crate) fn judge_sure(system: &System, states: &PlantState) -> SureJudgement
    requires { IsOf (plant_of system.now) states.now }
    ensures { IsSureJudgement (plant_of system.now) (interactions_in system.now) system.now.ranks (map Some states.now) result }
{
    let judgement = judge(system, states);
    let rivals = judgement.possible.copy();
    SureJudgement {
        judgement,
        opened: InteractionSet::new(),
        rivals,
    }
}

/// Judges again what depends on the moves, which were fired; what is kept was judged in the parts before. No atom has left or come back.
pub(crate) fn judge_sure_moved(
    system: &System,
    parts: &PlantParts,
    moves: &[Move],
    judgement: &mut SureJudgement,
)
    requires of_plant { ArePartsOf (plant_of system.now) parts.now }
    requires few { length moves.now ≤ MAX_LEAVES }
    requires apart { AreApart moves.now }
    requires there { (k : ℕ) (m : Move) → slice_get moves.now k ≡ Some m → m.atom < length (plant_of system.now).atoms }
    requires behind { IsSureMovedBehind (plant_of system.now) (interactions_in system.now) system.now.ranks moves.now parts.now judgement.old }
    ensures { IsSureJudgement (plant_of system.now) (interactions_in system.now) system.now.ranks parts.now judgement.new }
{
    let changes = judge_moved(
        system,
        parts.shown(),
        moves,
        &mut judgement.judgement.offers,
        &mut judgement.judgement.leaves,
    );
    let is_seen_new = see_moved(&system.order, parts, moves, &mut judgement.judgement.seen);
    settle_sure(system, parts, changes, 0, is_seen_new, judgement);
}

/// Judges again what depends on the flipped atoms, which have left or come back. What is kept was judged where all other parts were as now.
pub(crate) fn judge_sure_flipped(
    system: &System,
    parts: &PlantParts,
    flipped: &[u16],
    judgement: &mut SureJudgement,
)
    requires of_plant { ArePartsOf (plant_of system.now) parts.now }
    requires behind { IsSureBehind (plant_of system.now) (interactions_in system.now) system.now.ranks flipped.now flipped.now parts.now judgement.old }
    ensures { IsSureJudgement (plant_of system.now) (interactions_in system.now) system.now.ranks parts.now judgement.new }
{
    let changes = judge_anew(
        system,
        parts.shown(),
        flipped,
        &mut judgement.judgement.offers,
        &mut judgement.judgement.leaves,
    );
    let is_seen_new = see_again(&system.order, parts, flipped, &mut judgement.judgement.seen);
    let reached = connectors_of_atoms(system, flipped);
    settle_sure(system, parts, changes, reached, is_seen_new, judgement);
}

/// Judges the connectors again that a change reached; `flipped` are those with a leaf of an atom that has left or come back.
fn settle_sure(
    system: &System,
    parts: &PlantParts,
    changes: Changes,
    flipped: u64,
    is_seen_new: bool,
    judgement: &mut SureJudgement,
)
    requires of_plant { ArePartsOf (plant_of system.now) parts.now }
    requires unsettled { IsSureUnsettled (plant_of system.now) (interactions_in system.now) system.now.ranks parts.now changes flipped is_seen_new judgement.old }
    ensures { IsSureJudgement (plant_of system.now) (interactions_in system.now) system.now.ranks parts.now judgement.new }
{
    let states = parts.shown();
    let kept = &mut judgement.judgement;
    let changed = judge_dirty(
        system,
        states,
        &kept.leaves,
        changes.dirty,
        &mut kept.possible,
    );
    // Where a leaf offers something or nothing other than before, both words have the connector.
    let touched = changes.dirty & changes.heavy | flipped;
    let opened = open_again(
        system,
        parts,
        &kept.offers,
        flipped,
        touched,
        &mut judgement.opened,
    );
    let affected = stand_again(
        system,
        &kept.possible,
        &judgement.opened,
        changed | opened,
        &mut judgement.rivals,
        &mut kept.standing,
    );
    let renewal = Renewal {
        system,
        seen: &kept.seen,
        possible: &kept.possible,
        rivals: &judgement.rivals,
        standing: &kept.standing,
        affected,
        is_seen_new,
    };
    let told = renewal.keep_again(&mut kept.kept);
    weigh(system, states, changes.heavy | told, kept);
}

/// The connectors with a leaf of one of the atoms: bit k for connector k.
fn connectors_of_atoms(system: &System, atoms: &[u16]) -> u64
    ensures told { (k atom : ℕ) → has_bit result k ≡ false → is_in atoms.now atom ≡ true → has_leaf_of (plant_of system.now).wires atom k ≡ false }
    ensures within { (k : ℕ) → length (plant_of system.now).wires ≤ k → has_bit result k ≡ false }
{
    let mut connectors = 0;
    for atom in atoms {
        connectors |= connectors_of_atom(system, *atom);
    }
    connectors
}

/// The connectors with a leaf of the atom.
fn connectors_of_atom(system: &System, atom: u16) -> u64
    ensures told { (k : ℕ) → has_bit result k ≡ false → has_leaf_of (plant_of system.now).wires atom k ≡ false }
    ensures within { (k : ℕ) → length (plant_of system.now).wires ≤ k → has_bit result k ≡ false }
{
    let mut connectors = 0;
    let index = usize::from(atom);
    if index < system.atoms.len() {
        for port in 0..system.atoms[index].ports().len() {
            connectors |= system.reach.ports[port_row(atom, port as u16)].connectors;
        }
    }
    connectors
}

/// Judges again which interactions of the connectors whose bit in the word is set are open; what is kept of all others is right. Tells these
/// connectors if another interaction is open now. Where no bit is set, and while no atom is away and none has come back, it looks at none.
fn open_again<'x>(
    system: &'x System,
    parts: &'x PlantParts,
    offers: &'x EnabledTransitions,
    flipped: u64,
    touched: u64,
    opened: &mut InteractionSet,
) -> u64
    requires of_plant { ArePartsOf (plant_of system.now) parts.now }
    requires exact { AreOffered (plant_of system.now).atoms (shown_in parts.now) offers.now.sets }
    requires shown { AreCounted (plant_of system.now).atoms offers.now.sets offers.now.counts }
    requires within { (k : ℕ) → length (plant_of system.now).wires ≤ k → has_bit touched k ≡ false }
    requires others { (n k : ℕ) → is_of_connector (interactions_in system.now) k n ≡ true → has_bit touched k ≡ false → contains opened.old n ≡ is_open_at (plant_of system.now).atoms parts.now (interactions_in system.now) n }
    requires past { (n : ℕ) → length (interactions_in system.now) ≤ n → contains opened.old n ≡ false }
    requires whole { flipped ≡ 0 → list_all is_some parts.now ≡ true → (n : ℕ) → contains opened.old n ≡ false }
    ensures opened { AreOpen (plant_of system.now).atoms parts.now (interactions_in system.now) opened.new }
    ensures changed_within { (k : ℕ) → length (plant_of system.now).wires ≤ k → has_bit result k ≡ false }
    ensures same { (n k : ℕ) → is_of_connector (interactions_in system.now) k n ≡ true → has_bit result k ≡ false → contains opened.new n ≡ contains opened.old n }
{
    if touched == 0 {
        return 0;
    }
    if flipped == 0 && parts.is_whole() {
        return 0;
    }
    let judged = InteractionJudge {
        atoms: &system.atoms,
        states: parts.shown(),
        offers,
    };
    let judge = OpenJudge { judged, parts };
    let is_new = judge.judge_touched(
        &system.interactions,
        &interactions_of(system, touched),
        opened,
    );
    if is_new { touched } else { 0 }
}

/// The interactions of the connectors whose bit in the word is set.
fn interactions_of(system: &System, connectors: u64) -> InteractionSet
    requires { (k : ℕ) → length (plant_of system.now).wires ≤ k → has_bit connectors k ≡ false }
    ensures { (n k : ℕ) → is_of_connector (interactions_in system.now) k n ≡ true → has_bit connectors k ≡ true → contains result n ≡ true }
{
    let words = system.interactions.len().div_ceil(64);
    let mut all = InteractionSet::new();
    let mut left = connectors;
    while left != 0 {
        let connector = left.trailing_zeros() as usize;
        left &= left - 1;
        all.union_words(&system.connector_rows[connector].own, words);
    }
    all
}

/// How many sure choices there are.
pub(crate) fn count_sure_among(
    system: &System,
    parts: &PlantParts,
    judgement: &SureJudgement,
) -> u128
    requires { IsSureJudgement (plant_of system.now) (interactions_in system.now) system.now.ranks parts.now judgement.now }
    ensures { result ≡ length (sure_choices (plant_of system.now) parts.now) }
{
    judgement.judgement.weights.total
}

/// Writes the sure choice with this place, from 0, in the order of the choices.
pub(crate) fn nth_sure_among(
    system: &System,
    parts: &PlantParts,
    judgement: &SureJudgement,
    place: u128,
    choice: &mut Choice,
)
    requires of_plant { ArePartsOf (plant_of system.now) parts.now }
    requires judged { IsSureJudgement (plant_of system.now) (interactions_in system.now) system.now.ranks parts.now judgement.now }
    requires place { place < length (sure_choices (plant_of system.now) parts.now) }
    ensures entry { slice_get (sure_choices (plant_of system.now) parts.now) place ≡ Some (choice_of choice.new) }
    ensures sure { IsSure (plant_of system.now) parts.now (choice_of choice.new) }
{
    choose(system, parts.shown(), &judgement.judgement, place, choice);
}
