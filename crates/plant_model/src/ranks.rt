//! Where each connector stands among the others by the priority rules without a condition, so that a step asks the order again only
//! for interactions where the answer can be another one than before.
ghost use Rattle.std.specs.Prelude.{◌≡◌, ◌≤◌, ◌<◌, ◌+◌, ◌↔◌, ◌&&◌, ◌/◌, ℕ, true, false, not, IfOk, Some, map, length, slice_get, slice_index_or};
ghost use Rattle.std.specs.FinSet.{contains};
ghost use Rattle.priority_filter.specs.Active.{unconditional};
ghost use Rattle.priority_filter.specs.Decided.{is_below};
ghost use Rattle.priority_filter.specs.Members.{has_bit};
ghost use Rattle.priority_filter.specs.declared.interaction_set.TheConstants.{INTERACTION_LIMIT, ROW_WORDS};
ghost use Rattle.plant_model.specs.Choice.{named};
ghost use Rattle.plant_model.specs.Interaction.{interaction_of};
ghost use Rattle.plant_model.specs.Ranks.{AreRanges, AreRanks, AreRests, AreShared, IsAbove, IsAlone, IsInRestOf, IsRange, IsRankBy, IsShared, has_whole, is_head_at, is_in_parts, is_own, parts_at};
ghost use Rattle.plant_model.specs.declared.limits.TheConstants.{MAX_INTERACTIONS, MAX_WIRES};
ghost use Rattle.plant_model.specs.declared.ranks.Part.{Part};

use crate::connector_judge::take_out;
use crate::connector_rows::ConnectorRows;
use crate::interaction::Interaction;
use priority_filter::{InteractionSet, Order, ROW_WORDS};
use std::alloc::{AllocError, Global};

/// Some of 64 interactions: those from 64 times the place on whose bit is set.
#[derive(Clone, Copy)]
pub struct Part {
    pub place: u16,
    pub word: u64,
}

/// Where a connector stands among the others by the rules without a condition. A word of connectors has bit k for connector k.
#[derive(Drop)]
pub struct Rank {
    /// Other connectors, each of which has all of its interactions (and it has some) above each interaction of this one.
    pub whole: u64,
    /// Whether no interaction of it is above another one of it.
    pub is_flat: bool,
    /// The connectors that have this one in `whole`.
    pub below_whole: u64,
    /// The connectors with an interaction that has one of this one's in its rest.
    pub below_rest: u64,
}

/// Where each connector stands. What is above an interaction, of other connectors than its own, are all interactions of the connectors in
/// `whole` of its connector, the heads that are above all of its connector, and its rest.
#[derive(Drop)]
pub struct Ranks {
    /// The ranks, in the order of the connectors' numbers.
    pub of_connectors: Vec<Rank>,
    /// The connectors of which no interaction is above or below one of another connector: bit k for connector k.
    pub alone: u64,
    /// The interactions that are above each one of another connector, beside those of the connectors in its `whole`.
    pub heads: InteractionSet,
    /// By interaction, the connectors of which each interaction is below this head; nothing of one that is no head.
    pub below_head: Vec<u64>,
    /// By interaction, what else is above it, of other connectors.
    pub rest: Vec<Vec<Part>>,
    /// The interactions that have a rest.
    pub with_rest: InteractionSet,
    /// The interactions that are in a rest.
    pub watched: InteractionSet,
}

/// What is above each interaction of a connector, of other connectors.
#[derive(Drop)]
pub(crate) struct Shared {
    /// The connectors of which all interactions are, and they have some: bit k for connector k.
    pub(crate) whole: u64,
    /// The interactions that are, beside those of the connectors in `whole`.
    pub(crate) heads: InteractionSet,
    /// All that are, and the connector's own.
    pub(crate) covered: InteractionSet,
}

/// What is above interactions, beside what is above each one of their connectors, and these themselves.
#[derive(Drop)]
pub(crate) struct Rests {
    /// By interaction, its rest.
    pub(crate) parts: Vec<Vec<Part>>,
    /// The interactions that have one.
    pub(crate) with_rest: InteractionSet,
    /// The interactions that are in one.
    pub(crate) watched: InteractionSet,
}

/// Whether an interaction of the connector with these rows is above this one.
fn is_one_above(order: &Order, interaction: u16, rows: &ConnectorRows) -> bool
    requires { IsRange rows.now }
    ensures some { result ≡ true → (m : ℕ) × (contains rows.now.own m ≡ true) × (is_below (unconditional order.now.rules) order.now.interactions interaction m ≡ true) }
    ensures none { result ≡ false → (m : ℕ) → contains rows.now.own m ≡ true → is_below (unconditional order.now.rules) order.now.interactions interaction m ≡ false }
{
    for place in usize::from(rows.low)..usize::from(rows.high) {
        if rows.own.word(place) & order.above_word(interaction, place) != 0 {
            return true;
        }
    }
    false
}

/// Whether an interaction of the second connector is above one of the first.
fn is_some_above(order: &Order, below: &ConnectorRows, above: &ConnectorRows) -> bool
    requires below { IsRange below.now }
    requires above { IsRange above.now }
    ensures { (result ≡ false) ↔ ((n m : ℕ) → contains below.now.own n ≡ true → contains above.now.own m ≡ true → is_below (unconditional order.now.rules) order.now.interactions n m ≡ false) }
{
    let first = usize::from(below.first);
    for number in first..first + usize::from(below.count) {
        if is_one_above(order, number as u16, above) {
            return true;
        }
    }
    false
}

/// Whether no interaction of one of these connectors is above one of the other.
fn are_apart(order: &Order, one: &ConnectorRows, other: &ConnectorRows) -> bool
    requires one { IsRange one.now }
    requires other { IsRange other.now }
    ensures { (result ≡ true) ↔ ((n m : ℕ) → contains one.now.own n ≡ true → contains other.now.own m ≡ true → (is_below (unconditional order.now.rules) order.now.interactions n m ≡ false) × (is_below (unconditional order.now.rules) order.now.interactions m n ≡ false)) }
{
    !is_some_above(order, one, other) & !is_some_above(order, other, one)
}

/// Whether no interaction of the connector is above or below one of another connector.
fn is_alone(order: &Order, rows: &[ConnectorRows], connector: usize) -> bool
    requires few_rows { length rows.now ≤ MAX_WIRES }
    requires ranges { (k : ℕ) (r : ConnectorRows) → slice_get rows.now k ≡ Some r → IsRange r }
    requires connector { connector < length rows.now }
    ensures { (result ≡ true) ↔ IsAlone (is_below (unconditional order.now.rules) order.now.interactions) (is_own rows.now) connector }
{
    for number in 0..rows.len() {
        if number != connector && !are_apart(order, &rows[connector], &rows[number]) {
            return false;
        }
    }
    true
}

/// The connectors of which no interaction is above or below one of another connector.
fn alone_of(order: &Order, rows: &[ConnectorRows]) -> u64
    requires few_rows { length rows.now ≤ MAX_WIRES }
    requires ranges { (k : ℕ) (r : ConnectorRows) → slice_get rows.now k ≡ Some r → IsRange r }
    ensures { (k : ℕ) → (has_bit result k ≡ true) ↔ ((k < length rows.now) × IsAlone (is_below (unconditional order.now.rules) order.now.interactions) (is_own rows.now) k) }
{
    let mut alone = 0;
    for connector in 0..rows.len() {
        if is_alone(order, rows, connector) {
            alone |= 1 << connector;
        }
    }
    alone
}

/// The interactions above this one that are not in the set.
fn above_without(order: &Order, interaction: u16, set: &InteractionSet) -> InteractionSet
    requires { length order.now.interactions ≤ MAX_INTERACTIONS }
    ensures { (m : ℕ) → contains result m ≡ (is_below (unconditional order.now.rules) order.now.interactions interaction m && not (contains set.now m)) }
{
    let mut above = InteractionSet::new();
    for place in 0..ROW_WORDS {
        above.set_word(
            place,
            order.above_word(interaction, place) & !set.word(place),
        );
    }
    above
}

/// Takes out what is not above the interaction.
fn keep_above(order: &Order, interaction: u16, set: &mut InteractionSet)
    ensures within { (m : ℕ) → m / 64 < ROW_WORDS → contains set.new m ≡ (contains set.old m && is_below (unconditional order.now.rules) order.now.interactions interaction m) }
    ensures past { (m : ℕ) → ROW_WORDS ≤ m / 64 → contains set.new m ≡ contains set.old m }
{
    for place in 0..ROW_WORDS {
        let kept = set.word(place) & order.above_word(interaction, place);
        set.set_word(place, kept);
    }
}

/// What is above each interaction of the connector with these rows, of other connectors; nothing if it has none.
fn above_all(order: &Order, rows: &ConnectorRows) -> InteractionSet
    requires few { length order.now.interactions ≤ MAX_INTERACTIONS }
    requires range { IsRange rows.now }
    ensures { (m : ℕ) → (contains result m ≡ true) ↔ IsAbove (is_below (unconditional order.now.rules) order.now.interactions) (contains rows.now.own) m }
{
    if rows.count == 0 {
        return InteractionSet::new();
    }
    let first = usize::from(rows.first);
    let mut above = above_without(order, rows.first, &rows.own);
    for number in first + 1..first + usize::from(rows.count) {
        keep_above(order, number as u16, &mut above);
    }
    above
}

/// Whether the connector with these rows has interactions, and each of them is in the set.
fn is_whole_in(rows: &ConnectorRows, set: &InteractionSet) -> bool
    requires { IsRange rows.now }
    ensures { (result ≡ true) ↔ (((m : ℕ) × (contains rows.now.own m ≡ true)) × ((m : ℕ) → contains rows.now.own m ≡ true → contains set.now m ≡ true)) }
{
    for place in usize::from(rows.low)..usize::from(rows.high) {
        if rows.own.word(place) & !set.word(place) != 0 {
            return false;
        }
    }
    rows.count > 0
}

/// What is above each interaction of the connector with this number, of other connectors.
fn shared_of(order: &Order, rows: &[ConnectorRows], connector: usize) -> Shared
    requires few { length order.now.interactions ≤ MAX_INTERACTIONS }
    requires few_rows { length rows.now ≤ MAX_WIRES }
    requires ranges { (k : ℕ) (r : ConnectorRows) → slice_get rows.now k ≡ Some r → IsRange r }
    requires connector { connector < length rows.now }
    ensures { IsShared (is_below (unconditional order.now.rules) order.now.interactions) (is_own rows.now) connector result }
{
    let all = above_all(order, &rows[connector]);
    let mut whole = 0;
    let mut heads = all.copy();
    for number in 0..rows.len() {
        let other = &rows[number];
        if is_whole_in(other, &all) {
            whole |= 1 << number;
            take_out(&other.own, 0, ROW_WORDS, &mut heads);
        }
    }
    let mut covered = rows[connector].own.copy();
    covered.union_with(&all);
    Shared {
        whole,
        heads,
        covered,
    }
}

/// What is above each interaction of each connector, by the connectors' numbers.
fn all_shared(
    alloc: Global,
    order: &Order,
    rows: &[ConnectorRows],
) -> Result<Vec<Shared>, AllocError>
    requires few { length order.now.interactions ≤ MAX_INTERACTIONS }
    requires few_rows { length rows.now ≤ MAX_WIRES }
    requires ranges { (k : ℕ) (r : ConnectorRows) → slice_get rows.now k ≡ Some r → IsRange r }
    ensures { IfOk result (λ all. AreShared (is_below (unconditional order.now.rules) order.now.interactions) rows.now all.items) }
{
    let mut all = Vec::with_capacity(alloc, rows.len())?;
    for connector in 0..rows.len() {
        all.push(shared_of(order, rows, connector))?;
    }
    Ok(all)
}

/// The interactions of the set, as parts.
fn parts_of(alloc: Global, set: &InteractionSet) -> Result<Vec<Part>, AllocError>
    ensures places { IfOk result (λ parts. (k : ℕ) (p : Part) → slice_get parts.items k ≡ Some p → p.place < ROW_WORDS) }
    ensures within { IfOk result (λ parts. (m : ℕ) → is_in_parts parts.items m ≡ true → contains set.now m ≡ true) }
    ensures all { IfOk result (λ parts. (m : ℕ) → m / 64 < ROW_WORDS → contains set.now m ≡ true → is_in_parts parts.items m ≡ true) }
    ensures some { IfOk result (λ parts. 0 < length parts.items → (m : ℕ) × (contains set.now m ≡ true)) }
{
    let mut parts = Vec::new(alloc);
    for place in 0..ROW_WORDS {
        let word = set.word(place);
        if word != 0 {
            parts.push(Part {
                place: place as u16,
                word,
            })?;
        }
    }
    Ok(parts)
}

/// The rest of each interaction, by the interactions' numbers.
fn rests_of(
    alloc: Global,
    order: &Order,
    interactions: &[Interaction],
    shared: &[Shared],
) -> Result<Rests, AllocError>
    requires few { length order.now.interactions ≤ MAX_INTERACTIONS }
    requires few_interactions { length interactions.now ≤ MAX_INTERACTIONS }
    requires known { (n : ℕ) (i : Interaction) → slice_get interactions.now n ≡ Some i → i.connector < length shared.now }
    ensures { IfOk result (λ rests. AreRests (is_below (unconditional order.now.rules) order.now.interactions) (map interaction_of interactions.now) shared.now (length interactions.now) rests) }
{
    let mut parts = Vec::with_capacity(alloc, interactions.len())?;
    let mut with_rest = InteractionSet::new();
    let mut watched = InteractionSet::new();
    for number in 0..interactions.len() {
        let connector = usize::from(interactions[number].connector);
        let above = above_without(order, number as u16, &shared[connector].covered);
        let rest = parts_of(alloc, &above)?;
        if !rest.is_empty() {
            with_rest.insert(number as u16);
        }
        watched.union_with(&above);
        parts.push(rest)?;
    }
    Ok(Rests {
        parts,
        with_rest,
        watched,
    })
}

/// Whether the word has the connector's bit.
fn has_connector(word: u64, connector: usize) -> bool
    ensures { result ≡ has_bit word connector }
{
    connector < 64 && (word >> connector) & 1 == 1
}

/// The connectors that have this one in `whole`.
fn below_whole(shared: &[Shared], connector: usize) -> u64
    requires { length shared.now ≤ MAX_WIRES }
    ensures { (k : ℕ) → has_bit result k ≡ has_whole shared.now connector k }
{
    let mut below = 0;
    for number in 0..shared.len() {
        if has_connector(shared[number].whole, connector) {
            below |= 1 << number;
        }
    }
    below
}

/// Whether an interaction of the set is in one of the parts.
fn is_one_in(set: &InteractionSet, parts: &[Part]) -> bool
    requires { (k : ℕ) (p : Part) → slice_get parts.now k ≡ Some p → p.place < ROW_WORDS }
    ensures { (result ≡ true) ↔ ((m : ℕ) × (contains set.now m ≡ true) × (is_in_parts parts.now m ≡ true)) }
{
    for part in parts {
        if set.word(usize::from(part.place)) & part.word != 0 {
            return true;
        }
    }
    false
}

/// Whether an interaction of the set is in the rest of one of the connector with these rows.
fn is_one_in_rest(set: &InteractionSet, rest: &[Vec<Part>], rows: &ConnectorRows) -> bool
    requires places { (n k : ℕ) (p : Part) → slice_get (parts_at rest.now n) k ≡ Some p → p.place < ROW_WORDS }
    requires range { IsRange rows.now }
    requires within { rows.now.first + rows.now.count ≤ length rest.now }
    ensures { (result ≡ true) ↔ ((n : ℕ) × (m : ℕ) × (contains rows.now.own n ≡ true) × (contains set.now m ≡ true) × (is_in_parts (parts_at rest.now n) m ≡ true)) }
{
    let first = usize::from(rows.first);
    for number in first..first + usize::from(rows.count) {
        if is_one_in(set, &rest[number]) {
            return true;
        }
    }
    false
}

/// The connectors with an interaction that has one of this connector's in its rest.
fn below_rest(rest: &[Vec<Part>], rows: &[ConnectorRows], connector: usize) -> u64
    requires places { (n k : ℕ) (p : Part) → slice_get (parts_at rest.now n) k ≡ Some p → p.place < ROW_WORDS }
    requires few_rows { length rows.now ≤ MAX_WIRES }
    requires ranges { (k : ℕ) (r : ConnectorRows) → slice_get rows.now k ≡ Some r → IsRange r }
    requires within { (k : ℕ) (r : ConnectorRows) → slice_get rows.now k ≡ Some r → r.first + r.count ≤ length rest.now }
    requires connector { connector < length rows.now }
    ensures { (k : ℕ) → (has_bit result k ≡ true) ↔ ((k < length rows.now) × IsInRestOf (is_own rows.now) rest.now connector k) }
{
    let own = &rows[connector];
    let mut below = 0;
    for number in 0..rows.len() {
        if is_one_in_rest(&own.own, rest, &rows[number]) {
            below |= 1 << number;
        }
    }
    below
}

/// Where the connector stands.
fn rank_of(
    order: &Order,
    rows: &[ConnectorRows],
    shared: &[Shared],
    rest: &[Vec<Part>],
    connector: usize,
) -> Rank
    requires few_rows { length rows.now ≤ MAX_WIRES }
    requires as_many { length shared.now ≡ length rows.now }
    requires places { (n k : ℕ) (p : Part) → slice_get (parts_at rest.now n) k ≡ Some p → p.place < ROW_WORDS }
    requires ranges { (k : ℕ) (r : ConnectorRows) → slice_get rows.now k ≡ Some r → IsRange r }
    requires within { (k : ℕ) (r : ConnectorRows) → slice_get rows.now k ≡ Some r → r.first + r.count ≤ length rest.now }
    requires connector { connector < length rows.now }
    ensures { IsRankBy (is_below (unconditional order.now.rules) order.now.interactions) rows.now shared.now rest.now connector result }
{
    let own = &rows[connector];
    Rank {
        whole: shared[connector].whole,
        is_flat: !is_some_above(order, own, own),
        below_whole: below_whole(shared, connector),
        below_rest: below_rest(rest, rows, connector),
    }
}

/// All heads.
fn all_heads(shared: &[Shared]) -> InteractionSet
    ensures { (m : ℕ) → (contains result m ≡ true) ↔ ((k : ℕ) × (is_head_at shared.now m k ≡ true)) }
{
    let mut heads = InteractionSet::new();
    for number in 0..shared.len() {
        heads.union_with(&shared[number].heads);
    }
    heads
}

/// The connectors of which the interaction is a head.
fn below_head(shared: &[Shared], interaction: u16) -> u64
    requires { length shared.now ≤ MAX_WIRES }
    ensures { (k : ℕ) → has_bit result k ≡ is_head_at shared.now interaction k }
{
    let mut below = 0;
    for number in 0..shared.len() {
        if shared[number].heads.contains(interaction) {
            below |= 1 << number;
        }
    }
    below
}

/// The same of each of so many interactions, by their numbers.
fn below_heads(alloc: Global, shared: &[Shared], count: usize) -> Result<Vec<u64>, AllocError>
    requires few_rows { length shared.now ≤ MAX_WIRES }
    requires few { count ≤ MAX_INTERACTIONS }
    ensures as_many { IfOk result (λ below. length below.items ≡ count) }
    ensures each { IfOk result (λ below. (m k : ℕ) → m < count → has_bit (slice_index_or below.items m 0) k ≡ is_head_at shared.now m k) }
{
    let mut below = Vec::with_capacity(alloc, count)?;
    for number in 0..count {
        below.push(below_head(shared, number as u16))?;
    }
    Ok(below)
}

/// Where each connector stands by the order; `rows` are the connectors' rows.
pub(crate) fn ranks_of(
    alloc: Global,
    order: &Order,
    rows: &[ConnectorRows],
    interactions: &[Interaction],
) -> Result<Ranks, AllocError>
    requires few { length interactions.now ≤ MAX_INTERACTIONS }
    requires few_rows { length rows.now ≤ MAX_WIRES }
    requires ordered { order.now.interactions ≡ map named (map interaction_of interactions.now) }
    requires ranges { AreRanges (map interaction_of interactions.now) rows.now }
    ensures { IfOk result (λ ranks. AreRanks (length rows.now) order.now.rules (map interaction_of interactions.now) ranks) }
{
    let shared = all_shared(alloc, order, rows)?;
    let rests = rests_of(alloc, order, interactions, &shared)?;
    let below_head = below_heads(alloc, &shared, interactions.len())?;
    let mut of_connectors = Vec::with_capacity(alloc, rows.len())?;
    for connector in 0..rows.len() {
        of_connectors.push(rank_of(order, rows, &shared, &rests.parts, connector))?;
    }
    Ok(Ranks {
        of_connectors,
        alone: alone_of(order, rows),
        heads: all_heads(&shared),
        below_head,
        rest: rests.parts,
        with_rest: rests.with_rest,
        watched: rests.watched,
    })
}
