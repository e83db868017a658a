//! Which interactions of a connector are possible, all of them at once by the connector's rows.
ghost use Rattle.std.specs.Prelude.{◌≡◌, ◌≤◌, ◌<◌, ◌/◌, ◌%◌, ◌==◌, ◌&&◌, ◌||◌, not, ℕ, true, false, List, [], Some, bit_and, length, slice_get, slice_index};
ghost use Rattle.std.specs.FinSet.{contains};
ghost use Rattle.connector_tree.specs.Masks.{is_set};
ghost use Rattle.petri_atom.specs.Expression.{is_true, value_of};
ghost use Rattle.petri_atom.specs.Local.{Local};
ghost use Rattle.priority_filter.specs.Members.{has_bit};
ghost use Rattle.priority_filter.specs.declared.interaction_set.TheConstants.{ROW_WORDS};
ghost use Rattle.plant_model.specs.BoundExpressions.{clause_of};
ghost use Rattle.plant_model.specs.Values.{value_there};
ghost use Rattle.plant_model.specs.ConnectorRows.{AreLowWords, ArePossibleAt, IsJudged, IsOff, is_of_connector, is_in_row};
ghost use Rattle.plant_model.specs.Choice.{is_possible_at};
ghost use Rattle.plant_model.specs.declared.bound_expressions.Clause.{Clause};

use crate::bound_expressions::Clause;
use crate::connector_rows::ConnectorRows;
use crate::state::PlantState;
use crate::system::System;
use connector_tree::Mask;
use priority_filter::InteractionSet;

impl System {
    ghost use Rattle.plant_model.specs.System.{interactions_in, plant_of};

    /// Makes the set right at each interaction of the connector: it has exactly those that are possible in the state. Bit j of `off`
    /// is set exactly where leaf j of the connector offers nothing. A guard clause is asked only where that can change the set, and
    /// once. Says whether the set changed.
    pub fn judge_connector(
        &self,
        connector: u16,
        off: Mask,
        states: &PlantState,
        possible: &mut InteractionSet,
    ) -> bool
        requires connector { connector < length (plant_of self.now).wires }
        requires off { IsOff (plant_of self.now).atoms (plant_of self.now).wires states.now connector off }
        ensures judged { (n : ℕ) → is_of_connector (interactions_in self.now) connector n ≡ true → contains possible.new n ≡ is_possible_at (plant_of self.now).atoms (plant_of self.now).wires states.now (interactions_in self.now) n }
        ensures others { (n : ℕ) → is_of_connector (interactions_in self.now) connector n ≡ false → contains possible.new n ≡ contains possible.old n }
        ensures same { result ≡ false → (n : ℕ) → contains possible.new n ≡ contains possible.old n }
    {
        let number = usize::from(connector);
        let rows = &self.connector_rows[number];
        let clauses: &[Clause] = &self.bound[number].clauses;
        let low = usize::from(rows.low);
        let high = usize::from(rows.high);
        // The interactions of most connectors stand in one word: these take no loop over words, and read none of the sets.
        if high == low + 1 {
            judge_low_word(rows, off, clauses, states, possible)
        } else {
            judge_words(rows, low, high, off, clauses, states, possible)
        }
    }
}

/// Makes the set right at each of the connector's interactions in its first word of 64, by the leaves that offer nothing and the clauses.
/// Says whether the set changed.
#[inline]
fn judge_low_word(
    rows: &ConnectorRows,
    off: Mask,
    clauses: &[Clause],
    states: &PlantState,
    possible: &mut InteractionSet,
) -> bool
    requires low { rows.now.low < ROW_WORDS }
    requires words { AreLowWords rows.now }
    requires must { (n j : ℕ) → contains rows.now.own n ≡ true → is_set rows.now.must j ≡ true → is_in_row rows.now.on_leaf.items n j ≡ true }
    requires off { (j : ℕ) → is_set off j ≡ true → j < length rows.now.on_leaf.items }
    requires as_many { length rows.now.under_clause.items ≡ length clauses.now }
    ensures judged { IsJudged (λ n. contains rows.now.own n && (n / 64 == rows.now.low)) rows.now off clauses.now states.now possible.old possible.new }
    ensures same { result ≡ false → (n : ℕ) → contains possible.new n ≡ contains possible.old n }
{
    let here = low_possible(rows, off, clauses, states);
    put_own(possible, usize::from(rows.low), rows.low_own, here)
}

/// Which of the 64 interactions of the connector's first word are of the connector and possible, by the leaves that offer nothing and
/// the clauses.
#[inline]
fn low_possible(rows: &ConnectorRows, off: Mask, clauses: &[Clause], states: &PlantState) -> u64
    requires words { AreLowWords rows.now }
    requires must { (n j : ℕ) → contains rows.now.own n ≡ true → is_set rows.now.must j ≡ true → is_in_row rows.now.on_leaf.items n j ≡ true }
    requires off { (j : ℕ) → is_set off j ≡ true → j < length rows.now.on_leaf.items }
    requires as_many { length rows.now.under_clause.items ≡ length clauses.now }
    ensures { ArePossibleAt rows.now.low rows.now off clauses.now states.now result }
{
    // Most connectors that are judged miss a leaf that takes part in all of their interactions.
    if off & rows.must != 0 {
        return 0;
    }
    let offered = rows.low_own & !joined(&rows.low_on_leaf, off);
    without_forbidden(&rows.low_under_clause, clauses, states, offered)
}

/// The bits that are set in the word of one of the leaves in `off`.
fn joined(on_leaf: &[u64], off: Mask) -> u64
    requires { (j : ℕ) → is_set off j ≡ true → j < length on_leaf.now }
    ensures one { (k j : ℕ) → is_set off j ≡ true → has_bit (slice_index on_leaf.now j) k ≡ true → has_bit result k ≡ true }
    ensures none { (k : ℕ) → ((j : ℕ) → is_set off j ≡ true → has_bit (slice_index on_leaf.now j) k ≡ false) → has_bit result k ≡ false }
{
    let mut word = 0;
    let mut left = u64::from(off);
    while left != 0 {
        let leaf = left.trailing_zeros() as usize;
        left &= left - 1;
        word |= on_leaf[leaf];
    }
    word
}

/// The word, without the bits that are set in the word of a clause that is 0 in the state. There is a word for each clause.
fn without_forbidden(under: &[u64], clauses: &[Clause], states: &PlantState, word: u64) -> u64
    requires { length under.now ≡ length clauses.now }
    ensures stays { (i : ℕ) → i < 64 → ((k : ℕ) (clause : Clause) → slice_get clauses.now k ≡ Some clause → has_bit (slice_index under.now k) i ≡ true → is_true (value_of (value_there states.now) (clause_of clause).value) ≡ true) → has_bit result i ≡ has_bit word i }
    ensures goes { (i k : ℕ) (clause : Clause) → i < 64 → slice_get clauses.now k ≡ Some clause → has_bit (slice_index under.now k) i ≡ true → is_true (value_of (value_there states.now) (clause_of clause).value) ≡ false → has_bit result i ≡ false }
    ensures within { (i : ℕ) → i < 64 → has_bit word i ≡ false → has_bit result i ≡ false }
{
    let mut left = word;
    for number in 0..clauses.len() {
        left = word_under(left, under[number], &clauses[number], states);
    }
    left
}

/// Of the 64 interactions from 64 times the place on, takes those in `own` out of the set, and then puts those in `here` into it. Says
/// whether the set changed.
#[inline]
fn put_own(possible: &mut InteractionSet, place: usize, own: u64, here: u64) -> bool
    requires { place < ROW_WORDS }
    ensures put { (n : ℕ) → n / 64 ≡ place → has_bit own (n % 64) ≡ true → contains possible.new n ≡ has_bit here (n % 64) }
    ensures kept { (n : ℕ) → n / 64 ≡ place → has_bit own (n % 64) ≡ false → has_bit here (n % 64) ≡ false → contains possible.new n ≡ contains possible.old n }
    ensures others { (n : ℕ) → ¬ (n / 64 ≡ place) → contains possible.new n ≡ contains possible.old n }
    ensures same { result ≡ false → (n : ℕ) → contains possible.new n ≡ contains possible.old n }
{
    let before = possible.word(place);
    let after = before & !own | here;
    possible.set_word(place, after);
    after != before
}

/// Makes the set right at each of the connector's interactions in the word with this place, by the leaves that offer nothing. That is all,
/// as long as one of them takes part in each interaction or there is no clause. Says whether the set changed.
#[inline]
fn judge_word(rows: &ConnectorRows, place: usize, off: Mask, possible: &mut InteractionSet) -> bool
    requires place { place < ROW_WORDS }
    requires must { (n j : ℕ) → contains rows.now.own n ≡ true → is_set rows.now.must j ≡ true → is_in_row rows.now.on_leaf.items n j ≡ true }
    requires off { (j : ℕ) → is_set off j ≡ true → j < length rows.now.on_leaf.items }
    ensures judged { (clauses : List Clause) (states : List Local) → (bit_and off rows.now.must ≡ 0 → clauses ≡ []) → IsJudged (λ n. contains rows.now.own n && (n / 64 == place)) rows.now off clauses states possible.old possible.new }
    ensures same { result ≡ false → (n : ℕ) → contains possible.new n ≡ contains possible.old n }
{
    let here = word_possible(rows, place, off);
    put_own(possible, place, rows.own.word(place), here)
}

/// Which of the 64 interactions from 64 times the place on are of the connector and possible, by the leaves that offer nothing.
#[inline]
fn word_possible(rows: &ConnectorRows, place: usize, off: Mask) -> u64
    requires place { place < ROW_WORDS }
    requires must { (n j : ℕ) → contains rows.now.own n ≡ true → is_set rows.now.must j ≡ true → is_in_row rows.now.on_leaf.items n j ≡ true }
    requires off { (j : ℕ) → is_set off j ≡ true → j < length rows.now.on_leaf.items }
    ensures { (clauses : List Clause) (states : List Local) → (bit_and off rows.now.must ≡ 0 → clauses ≡ []) → ArePossibleAt place rows.now off clauses states result }
{
    // Most connectors that are judged miss a leaf that takes part in all of their interactions.
    if off & rows.must != 0 {
        return 0;
    }
    rows.own.word(place) & !word_on(&rows.on_leaf, off, place)
}

/// The word, without the bits of the row if the clause is 0 in the state.
fn word_under(word: u64, row: u64, clause: &Clause, states: &PlantState) -> u64
    ensures { (k : ℕ) → k < 64 → has_bit result k ≡ (has_bit word k && (not (has_bit row k) || is_true (value_of (value_there states.now) (clause_of clause.now).value))) }
{
    if word & row != 0 && !clause.is_true(states) {
        word & !row
    } else {
        word
    }
}

/// Makes the set right at each of the connector's interactions, which stand in the words from `low` on and before `high`, by the leaves
/// that offer nothing and the clauses. Says whether the set changed.
fn judge_words(
    rows: &ConnectorRows,
    low: usize,
    high: usize,
    off: Mask,
    clauses: &[Clause],
    states: &PlantState,
    possible: &mut InteractionSet,
) -> bool
    requires words { high ≤ ROW_WORDS }
    requires own { (n : ℕ) → contains rows.now.own n ≡ true → (low ≤ n / 64) × (n / 64 < high) }
    requires under { (k n : ℕ) → is_in_row rows.now.under_clause.items n k ≡ true → contains rows.now.own n ≡ true }
    requires must { (n j : ℕ) → contains rows.now.own n ≡ true → is_set rows.now.must j ≡ true → is_in_row rows.now.on_leaf.items n j ≡ true }
    requires off { (j : ℕ) → is_set off j ≡ true → j < length rows.now.on_leaf.items }
    requires as_many { length rows.now.under_clause.items ≡ length clauses.now }
    ensures judged { IsJudged (contains rows.now.own) rows.now off clauses.now states.now possible.old possible.new }
    ensures same { result ≡ false → (n : ℕ) → contains possible.new n ≡ contains possible.old n }
{
    // A clause is asked once for all words. Where none is asked, each word is judged by itself.
    if off & rows.must != 0 || clauses.is_empty() {
        return judge_each_word(rows, low, high, off, possible);
    }
    let before = possible.copy();
    put_without(rows, low, high, off, possible);
    take_forbidden(&rows.under_clause, low, high, clauses, states, possible);
    differ(&before, possible, low, high)
}

/// The same, word by word, as long as no clause has to be asked.
fn judge_each_word(
    rows: &ConnectorRows,
    low: usize,
    high: usize,
    off: Mask,
    possible: &mut InteractionSet,
) -> bool
    requires words { high ≤ ROW_WORDS }
    requires own { (n : ℕ) → contains rows.now.own n ≡ true → (low ≤ n / 64) × (n / 64 < high) }
    requires must { (n j : ℕ) → contains rows.now.own n ≡ true → is_set rows.now.must j ≡ true → is_in_row rows.now.on_leaf.items n j ≡ true }
    requires off { (j : ℕ) → is_set off j ≡ true → j < length rows.now.on_leaf.items }
    ensures judged { (clauses : List Clause) (states : List Local) → (bit_and off rows.now.must ≡ 0 → clauses ≡ []) → IsJudged (contains rows.now.own) rows.now off clauses states possible.old possible.new }
    ensures same { result ≡ false → (n : ℕ) → contains possible.new n ≡ contains possible.old n }
{
    let mut changed = false;
    for place in low..high {
        changed |= judge_word(rows, place, off, possible);
    }
    changed
}

/// Whether an interaction of the words from `low` on and before `high` is in one of the sets alone.
fn differ(one: &InteractionSet, other: &InteractionSet, low: usize, high: usize) -> bool
    requires { high ≤ ROW_WORDS }
    ensures { result ≡ false → (n : ℕ) → low ≤ n / 64 → n / 64 < high → contains one.now n ≡ contains other.now n }
{
    for place in low..high {
        if one.word(place) != other.word(place) {
            return true;
        }
    }
    false
}

/// Puts the connector's interactions in which none of the leaves in `off` takes part into the set, and takes its others out. They
/// stand in the words from `low` on and before `high`.
fn put_without(
    rows: &ConnectorRows,
    low: usize,
    high: usize,
    off: Mask,
    possible: &mut InteractionSet,
)
    requires words { high ≤ ROW_WORDS }
    requires own { (n : ℕ) → contains rows.now.own n ≡ true → (low ≤ n / 64) × (n / 64 < high) }
    requires off { (j : ℕ) → is_set off j ≡ true → j < length rows.now.on_leaf.items }
    ensures put { (n : ℕ) → contains rows.now.own n ≡ true → ((j : ℕ) → is_set off j ≡ true → is_in_row rows.now.on_leaf.items n j ≡ false) → contains possible.new n ≡ true }
    ensures out { (n j : ℕ) → contains rows.now.own n ≡ true → is_set off j ≡ true → is_in_row rows.now.on_leaf.items n j ≡ true → contains possible.new n ≡ false }
    ensures others { (n : ℕ) → contains rows.now.own n ≡ false → contains possible.new n ≡ contains possible.old n }
{
    for place in low..high {
        let own = rows.own.word(place);
        let here = own & !word_on(&rows.on_leaf, off, place);
        possible.set_word(place, possible.word(place) & !own | here);
    }
}

/// Which of the 64 interactions from 64 times the place on are in the row of one of the leaves in `off`.
fn word_on(on_leaf: &[InteractionSet], off: Mask, place: usize) -> u64
    requires place { place < ROW_WORDS }
    requires off { (j : ℕ) → is_set off j ≡ true → j < length on_leaf.now }
    ensures one { (n j : ℕ) → n / 64 ≡ place → is_set off j ≡ true → is_in_row on_leaf.now n j ≡ true → has_bit result (n % 64) ≡ true }
    ensures none { (n : ℕ) → n / 64 ≡ place → ((j : ℕ) → is_set off j ≡ true → is_in_row on_leaf.now n j ≡ false) → has_bit result (n % 64) ≡ false }
{
    let mut word = 0;
    let mut left = u64::from(off);
    while left != 0 {
        let leaf = left.trailing_zeros() as usize;
        left &= left - 1;
        word |= on_leaf[leaf].word(place);
    }
    word
}

/// Takes the interactions out of the set that are under a clause which is 0 in the state. The rows, one for each clause, stand in the
/// words from `low` on and before `high`.
fn take_forbidden(
    under: &[InteractionSet],
    low: usize,
    high: usize,
    clauses: &[Clause],
    states: &PlantState,
    possible: &mut InteractionSet,
)
    requires words { high ≤ ROW_WORDS }
    requires as_many { length under.now ≡ length clauses.now }
    requires own { (k n : ℕ) → is_in_row under.now n k ≡ true → (low ≤ n / 64) × (n / 64 < high) }
    ensures stays { (n : ℕ) → ((k : ℕ) (clause : Clause) → slice_get clauses.now k ≡ Some clause → is_in_row under.now n k ≡ true → is_true (value_of (value_there states.now) (clause_of clause).value) ≡ true) → contains possible.new n ≡ contains possible.old n }
    ensures goes { (n k : ℕ) (clause : Clause) → slice_get clauses.now k ≡ Some clause → is_in_row under.now n k ≡ true → is_true (value_of (value_there states.now) (clause_of clause).value) ≡ false → contains possible.new n ≡ false }
{
    for number in 0..clauses.len() {
        take_under(
            &under[number],
            low,
            high,
            &clauses[number],
            states,
            possible,
        );
    }
}

/// Takes the interactions of the row out of the set if the clause is 0 in the state. They stand in the words from `low` on and before
/// `high`.
fn take_under(
    row: &InteractionSet,
    low: usize,
    high: usize,
    clause: &Clause,
    states: &PlantState,
    possible: &mut InteractionSet,
)
    requires words { high ≤ ROW_WORDS }
    requires own { (n : ℕ) → contains row.now n ≡ true → (low ≤ n / 64) × (n / 64 < high) }
    ensures { (n : ℕ) → contains possible.new n ≡ (contains possible.old n && (not (contains row.now n) || is_true (value_of (value_there states.now) (clause_of clause.now).value))) }
{
    if has_common(row, possible, low, high) && !clause.is_true(states) {
        take_out(row, low, high, possible);
    }
}

/// Whether an interaction of the first set, which stand in the words from `low` on and before `high`, is in the other one.
fn has_common(set: &InteractionSet, other: &InteractionSet, low: usize, high: usize) -> bool
    requires words { high ≤ ROW_WORDS }
    requires own { (n : ℕ) → contains set.now n ≡ true → (low ≤ n / 64) × (n / 64 < high) }
    ensures { result ≡ false → (n : ℕ) → contains set.now n ≡ true → contains other.now n ≡ false }
{
    for place in low..high {
        if set.word(place) & other.word(place) != 0 {
            return true;
        }
    }
    false
}

/// Takes the interactions of the first set, which stand in the words from `low` on and before `high`, out of the other one.
pub(crate) fn take_out(set: &InteractionSet, low: usize, high: usize, from: &mut InteractionSet)
    requires words { high ≤ ROW_WORDS }
    requires own { (n : ℕ) → contains set.now n ≡ true → (low ≤ n / 64) × (n / 64 < high) }
    ensures { (n : ℕ) → contains from.new n ≡ (contains from.old n && not (contains set.now n)) }
{
    for place in low..high {
        from.set_word(place, from.word(place) & !set.word(place));
    }
}
