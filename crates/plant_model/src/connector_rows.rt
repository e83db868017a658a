//! The interactions of each connector as a range of numbers and as sets, so that a step judges those of a connector together: of each
//! of its leaves those in which that takes part, and of each of its guard clauses those to which that applies.
ghost use Rattle.std.specs.Prelude.{◌≡◌, ◌≤◌, ◌<◌, ◌&&◌, ◌^◌, ◌↔◌, ℕ, true, nat_lt, IfOk, Some, map, length, slice_get};
ghost use Rattle.std.specs.FinSet.{contains};
ghost use Rattle.connector_tree.specs.Masks.{is_set};
ghost use Rattle.connector_tree.specs.Tree.{leaves};
ghost use Rattle.connector_tree.specs.declared.tree.TheConstants.{MAX_LEAVES};
ghost use Rattle.priority_filter.specs.declared.interaction_set.TheConstants.{ROW_WORDS};
ghost use Rattle.plant_model.specs.ConnectorRows.{AreByConnector, AreConnectorRows, AreRowsOf, AreWordsAt, IsInAll, has_all_at, is_before, is_from, is_in_row};
ghost use Rattle.plant_model.specs.Interaction.{interaction_of};
ghost use Rattle.plant_model.specs.Plant.{WireDefinition};
ghost use Rattle.plant_model.specs.Wire.{wire_of};
ghost use Rattle.plant_model.specs.declared.bound_expressions.Clause.{Clause};
ghost use Rattle.plant_model.specs.declared.limits.TheConstants.{MAX_INTERACTIONS, MAX_WIRES};

use crate::bound_expressions::{BoundExpressions, Clause, has_all};
use crate::interaction::Interaction;
use crate::wire::Wire;
use connector_tree::{Mask, Port};
use priority_filter::{InteractionSet, ROW_WORDS};
use std::alloc::{AllocError, Global};

/// The interactions of a connector: they are those with `count` numbers from `first` on.
#[derive(Drop)]
pub struct ConnectorRows {
    /// The number of the first one.
    pub first: u16,
    /// How many there are.
    pub count: u16,
    /// They stand in the words of 64 interactions from this one on.
    pub low: u16,
    /// And before this one.
    pub high: u16,
    /// The leaves that take part in each of them: bit j for leaf j. While one of these offers nothing, none of them is possible.
    pub must: Mask,
    /// Of the 64 interactions of the word `low`, all that are of the connector. Most connectors have no others, and are judged by the words
    /// alone: these lie closer together than the sets.
    pub low_own: u64,
    /// Of each leaf, by its number, those of these 64 in which it takes part.
    pub low_on_leaf: Vec<u64>,
    /// Of each guard clause, in written order, those of these 64 to which it applies.
    pub low_under_clause: Vec<u64>,
    /// All of them.
    pub own: InteractionSet,
    /// Of each leaf, by its number, those in which it takes part.
    pub on_leaf: Vec<InteractionSet>,
    /// Of each guard clause, in written order, those to which it applies.
    pub under_clause: Vec<InteractionSet>,
}

/// How many interactions are of connectors before this one.
fn count_before(interactions: &[Interaction], connector: u16) -> usize
    requires { AreByConnector (map interaction_of interactions.now) }
    ensures before { (n : ℕ) → is_before (map interaction_of interactions.now) connector n ≡ nat_lt n result }
    ensures within { result ≤ length interactions.now }
{
    for (number, interaction) in interactions.iter().enumerate() {
        if interaction.connector >= connector {
            return number;
        }
    }
    interactions.len()
}

/// The interactions from the number `first` on and before `end` in which each of the leaves takes part.
fn row_with_all(
    interactions: &[Interaction],
    first: usize,
    end: usize,
    leaves: u32,
) -> InteractionSet
    requires few { length interactions.now ≤ MAX_INTERACTIONS }
    requires first { first ≤ end }
    requires end { end ≤ length interactions.now }
    ensures { (n : ℕ) → contains result n ≡ (is_from first end n && has_all_at (map interaction_of interactions.now) leaves n) }
{
    let mut row = InteractionSet::new();
    for number in first..end {
        if has_all(interactions[number].mask, leaves) {
            row.insert(number as u16);
        }
    }
    row
}

/// Of each of so many leaves the interactions from the number `first` on and before `end` in which it takes part.
fn rows_of_leaves(
    alloc: Global,
    interactions: &[Interaction],
    first: usize,
    end: usize,
    leaves: usize,
) -> Result<Vec<InteractionSet>, AllocError>
    requires few { length interactions.now ≤ MAX_INTERACTIONS }
    requires first { first ≤ end }
    requires end { end ≤ length interactions.now }
    requires leaves { leaves ≤ MAX_LEAVES }
    ensures as_many { IfOk result (λ rows. length rows.items ≡ leaves) }
    ensures each { IfOk result (λ rows. (leaf n : ℕ) → leaf < leaves → is_in_row rows.items n leaf ≡ (is_from first end n && has_all_at (map interaction_of interactions.now) (2 ^ leaf) n)) }
{
    let mut rows = Vec::with_capacity(alloc, leaves)?;
    for leaf in 0..leaves {
        rows.push(row_with_all(interactions, first, end, 1 << leaf))?;
    }
    Ok(rows)
}

/// Those of so many leaves that take part in each interaction from the number `first` on and before `end`: bit j for leaf j.
fn leaves_of_all(interactions: &[Interaction], first: usize, end: usize, leaves: usize) -> Mask
    requires first { first ≤ end }
    requires end { end ≤ length interactions.now }
    requires leaves { leaves ≤ MAX_LEAVES }
    ensures { (j : ℕ) → (is_set result j ≡ true) ↔ ((j < leaves) × IsInAll (map interaction_of interactions.now) first end j) }
{
    let mut all = ((1_u32 << leaves) - 1) as Mask;
    for number in first..end {
        all &= interactions[number].mask;
    }
    all
}

/// Of each of the clauses the interactions from the number `first` on and before `end` to which it applies.
fn rows_of_clauses(
    alloc: Global,
    interactions: &[Interaction],
    first: usize,
    end: usize,
    clauses: &[Clause],
) -> Result<Vec<InteractionSet>, AllocError>
    requires few { length interactions.now ≤ MAX_INTERACTIONS }
    requires first { first ≤ end }
    requires end { end ≤ length interactions.now }
    ensures as_many { IfOk result (λ rows. length rows.items ≡ length clauses.now) }
    ensures each { IfOk result (λ rows. (k n : ℕ) (clause : Clause) → slice_get clauses.now k ≡ Some clause → is_in_row rows.items n k ≡ (is_from first end n && has_all_at (map interaction_of interactions.now) clause.leaves n)) }
{
    let mut rows = Vec::with_capacity(alloc, clauses.len())?;
    for clause in clauses {
        rows.push(row_with_all(interactions, first, end, clause.leaves))?;
    }
    Ok(rows)
}

/// Of each row the word of the 64 interactions from 64 times the place on.
fn words_at(alloc: Global, rows: &[InteractionSet], place: usize) -> Result<Vec<u64>, AllocError>
    requires { place < ROW_WORDS }
    ensures { IfOk result (λ words. AreWordsAt place rows.now words.items) }
{
    let mut words = Vec::with_capacity(alloc, rows.len())?;
    for row in rows {
        words.push(row.word(place))?;
    }
    Ok(words)
}

/// The rows of a connector with so many leaves and these clauses.
fn rows_of(
    alloc: Global,
    interactions: &[Interaction],
    connector: u16,
    leaves: usize,
    clauses: &[Clause],
) -> Result<ConnectorRows, AllocError>
    requires few { length interactions.now ≤ MAX_INTERACTIONS }
    requires listed { AreByConnector (map interaction_of interactions.now) }
    requires connector { connector < MAX_WIRES }
    requires leaves { leaves ≤ MAX_LEAVES }
    ensures { IfOk result (λ rows. AreRowsOf (map interaction_of interactions.now) connector leaves clauses.now rows) }
{
    let first = count_before(interactions, connector);
    let end = count_before(interactions, connector + 1);
    let own = row_with_all(interactions, first, end, 0);
    let on_leaf = rows_of_leaves(alloc, interactions, first, end, leaves)?;
    let under_clause = rows_of_clauses(alloc, interactions, first, end, clauses)?;
    // A connector that begins past the last word has no interaction: any word shows that.
    let place = (first / 64).min(ROW_WORDS - 1);
    let low_on_leaf = words_at(alloc, &on_leaf, place)?;
    let low_under_clause = words_at(alloc, &under_clause, place)?;
    Ok(ConnectorRows {
        first: first as u16,
        count: (end - first) as u16,
        low: (first / 64) as u16,
        high: end.div_ceil(64) as u16,
        must: leaves_of_all(interactions, first, end, leaves),
        low_own: own.word(place),
        low_on_leaf,
        low_under_clause,
        own,
        on_leaf,
        under_clause,
    })
}

/// The rows of each connector, by the connectors' numbers; `ports` are the leaves of the wires, and `bound` their expressions.
pub(crate) fn connector_rows(
    alloc: Global,
    wires: &[Wire],
    ports: &[Vec<Port>],
    bound: &[BoundExpressions],
    interactions: &[Interaction],
) -> Result<Vec<ConnectorRows>, AllocError>
    requires few_wires { length wires.now ≤ MAX_WIRES }
    requires leaves { map (λ list. list.items) ports.now ≡ map (λ w. leaves (wire_of w).connector) wires.now }
    requires few_leaves { (n : ℕ) (w : WireDefinition) → slice_get (map wire_of wires.now) n ≡ Some w → length (leaves w.connector) ≤ MAX_LEAVES }
    requires bound { length bound.now ≡ length wires.now }
    requires few { length interactions.now ≤ MAX_INTERACTIONS }
    requires listed { AreByConnector (map interaction_of interactions.now) }
    ensures { IfOk result (λ all. AreConnectorRows (map wire_of wires.now) bound.now (map interaction_of interactions.now) all.items) }
{
    let mut all = Vec::with_capacity(alloc, wires.len())?;
    for number in 0..wires.len() {
        let clauses = &bound[number].clauses;
        let leaves = ports[number].len();
        all.push(rows_of(alloc, interactions, number as u16, leaves, clauses)?)?;
    }
    Ok(all)
}
