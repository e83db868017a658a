//! The table of an order: for each interaction the set of those that stand above it.
//!
//! It is filled with the rule steps, rule by rule, and then closed through one station after another. Turned round, it has for each
//! interaction the set of those that stand below it.
ghost use Rattle.std.specs.Prelude.{◌≡◌, ℕ, ◌/◌, ◌%◌, ◌<◌, ◌≤◌, ◌↔◌, Bool, true, false, length, vec_len, IfOk, IfSome, IfNone, IsTrue};
ghost use Rattle.std.specs.FinSet as set;
ghost use Rattle.std.specs.List.{list_all};
ghost use Rattle.priority_filter.specs.Active.{active, is_active, may_be_marked, unconditional};
ghost use Rattle.priority_filter.specs.Conditions.{IsFrom};
ghost use Rattle.priority_filter.specs.Members.{has_bit};
ghost use Rattle.priority_filter.specs.Rule.{IsOn, Puts, IsProperSubset};
ghost use Rattle.priority_filter.specs.Order.{rule_at, IsRuleStep, Leads, IsBelow};
ghost use Rattle.priority_filter.specs.Table.{row_at, Above, IsSideSet, IsLargerSet, Gains, AreTurned, row_through};
ghost use Rattle.priority_filter.specs.declared.interaction_set.TheConstants.{ROW_WORDS};

use crate::interaction_set::{INTERACTION_LIMIT, InteractionSet, ROW_WORDS};
use crate::mask;
use crate::rule::{Rule, Side};
use crate::seen::{SEEN_ATOMS, Seen};
use std::alloc::{AllocError, Global};

/// The interactions on a side.
fn on_side(interactions: &[(u16, u16)], side: Side) -> InteractionSet
    requires { length interactions.now ≤ INTERACTION_LIMIT }
    ensures { IsSideSet interactions.now side result }
{
    let mut found = InteractionSet::new();
    for b in 0..interactions.len() {
        if side.names(interactions[b]) {
            found.insert(b as u16);
        }
    }
    found
}

/// Whether the interaction is one of the connector, with all leaves of the mask and more.
fn is_larger(interaction: (u16, u16), connector: u16, leaves: u16) -> bool
    ensures { IsTrue result ↔ ((interaction.0 ≡ connector) × IsProperSubset leaves interaction.1) }
{
    interaction.0 == connector && mask::is_proper_subset(leaves, interaction.1)
}

/// The interactions of the connector that have all leaves of the mask, and more.
fn larger(interactions: &[(u16, u16)], connector: u16, leaves: u16) -> InteractionSet
    requires { length interactions.now ≤ INTERACTION_LIMIT }
    ensures { IsLargerSet interactions.now connector leaves result }
{
    let mut found = InteractionSet::new();
    for upper in 0..interactions.len() {
        if is_larger(interactions[upper], connector, leaves) {
            found.insert(upper as u16);
        }
    }
    found
}

/// Puts each interaction of the left side below each of the right.
fn add_under(rows: &mut [InteractionSet], interactions: &[(u16, u16)], left: Side, right: Side)
    requires size { length rows.old ≡ length interactions.now }
    requires limit { length interactions.now ≤ INTERACTION_LIMIT }
    ensures { Gains interactions.now (Rule.Under left right) rows.old rows.new }
{
    let above = on_side(interactions, right);
    for a in 0..interactions.len() {
        if left.names(interactions[a]) {
            rows[a].union_with(&above);
        }
    }
}

/// Puts each interaction of the connector below those that have its leaves and more.
fn add_maximal(rows: &mut [InteractionSet], interactions: &[(u16, u16)], connector: u16)
    requires size { length rows.old ≡ length interactions.now }
    requires limit { length interactions.now ≤ INTERACTION_LIMIT }
    ensures { Gains interactions.now (Rule.Maximal connector) rows.old rows.new }
{
    for a in 0..interactions.len() {
        let lower = interactions[a];
        if lower.0 == connector {
            let above = larger(interactions, connector, lower.1);
            rows[a].union_with(&above);
        }
    }
}

/// Puts above each interaction what one rule puts there.
fn add_rule(rows: &mut [InteractionSet], interactions: &[(u16, u16)], rule: Rule)
    requires size { length rows.old ≡ length interactions.now }
    requires limit { length interactions.now ≤ INTERACTION_LIMIT }
    ensures { Gains interactions.now rule rows.old rows.new }
{
    match rule {
        Rule::Under(left, right) | Rule::UnderAt(left, right, _) => {
            add_under(rows, interactions, left, right)
        }
        Rule::Maximal(connector) => add_maximal(rows, interactions, connector),
    }
}

/// A table in which nothing stands above anything.
fn empty_table(alloc: Global, size: usize) -> Result<Vec<InteractionSet>, AllocError>
    ensures size { IfOk result (λ rows. vec_len rows ≡ size) }
    ensures empty { IfOk result (λ rows. (a : ℕ) → row_at rows.items a ≡ set.empty) }
{
    let mut rows = Vec::with_capacity(alloc, size)?;
    for _i in 0..size {
        rows.push_reserved(InteractionSet::new());
    }
    Ok(rows)
}

/// Whether an earlier rule is the same one.
fn is_repeated(rules: &[Rule], k: usize) -> bool
    requires { k < length rules.now }
    ensures { IsTrue result ↔ ((j : ℕ) × (j < k) × (rule_at rules.now j ≡ rule_at rules.now k)) }
{
    for j in 0..k {
        if rules[j] == rules[k] {
            return true;
        }
    }
    false
}

/// Fills an empty table with the rule steps. A rule that stands twice is added once.
fn add_rules(rows: &mut [InteractionSet], interactions: &[(u16, u16)], rules: &[Rule])
    requires size { length rows.old ≡ length interactions.now }
    requires limit { length interactions.now ≤ INTERACTION_LIMIT }
    requires empty { (a : ℕ) → row_at rows.old a ≡ set.empty }
    ensures { (a b : ℕ) → Above rows.new a b ↔ IsRuleStep rules.now interactions.now a b }
{
    for k in 0..rules.len() {
        if !is_repeated(rules, k) {
            add_rule(rows, interactions, rules[k]);
        }
    }
}

/// Whatever stands above the station comes to stand above all that the station stands above.
fn close_through(rows: &mut [InteractionSet], station: usize)
    requires station { station < length rows.old }
    requires limit { length rows.old ≤ INTERACTION_LIMIT }
    ensures { (a : ℕ) → a < length rows.old → row_at rows.new a ≡ row_through station (row_at rows.old station) (row_at rows.old a) }
{
    let above = rows[station].copy();
    for a in 0..rows.len() {
        if rows[a].contains(station as u16) {
            rows[a].union_with(&above);
        }
    }
}

/// Makes the table of all chains out of the table of single steps.
fn close(rows: &mut [InteractionSet])
    requires { length rows.old ≤ INTERACTION_LIMIT }
    ensures { (a b : ℕ) → Above rows.new a b ↔ Leads (Above rows.old) a b }
{
    for station in 0..rows.len() {
        close_through(rows, station);
    }
}

/// The table of the order: above each interaction stands all that a chain of rules leads to.
pub fn order_table(
    alloc: Global,
    rules: &[Rule],
    interactions: &[(u16, u16)],
) -> Result<Vec<InteractionSet>, AllocError>
    requires { length interactions.now ≤ INTERACTION_LIMIT }
    ensures size { IfOk result (λ rows. vec_len rows ≡ length interactions.now) }
    ensures below { IfOk result (λ rows. (a b : ℕ) →
        Above rows.items a b ↔ IsBelow rules.now interactions.now a b) }
{
    let mut rows = empty_table(alloc, interactions.len())?;
    add_rules(&mut rows, interactions, rules);
    close(&mut rows);
    Ok(rows)
}

/// The first interaction that stands above itself.
pub fn first_cyclic(rows: &[InteractionSet]) -> Option<u16>
    requires { length rows.now ≤ INTERACTION_LIMIT }
    ensures cyclic { IfSome result (λ a. Above rows.now a a) }
    ensures first { IfSome result (λ a. (b : ℕ) → b < a → ¬ Above rows.now b b) }
    ensures none { IfNone result ((a : ℕ) → ¬ Above rows.now a a) }
{
    for number in 0..rows.len() {
        if rows[number].contains(number as u16) {
            return Some(number as u16);
        }
    }
    None
}

/// Whether no rule has a condition.
fn count_always(rules: &[Rule]) -> bool
    ensures { result ≡ list_all (is_active (λ _. false)) rules.now }
{
    rules.iter().all(|rule| rule.counts_always())
}

/// The rules without a condition.
fn rules_without_condition(alloc: Global, rules: &[Rule]) -> Result<Vec<Rule>, AllocError>
    ensures { IfOk result (λ kept. kept.items ≡ unconditional rules.now) }
{
    let mut kept = Vec::new(alloc);
    for rule in rules {
        if rule.counts_always() {
            kept.push(*rule)?;
        }
    }
    Ok(kept)
}

/// The rules that count as far as is seen.
pub fn active_rules(
    alloc: Global,
    rules: &[Rule],
    seen: &[Seen; SEEN_ATOMS],
) -> Result<Vec<Rule>, AllocError>
    ensures { IfOk result (λ kept. kept.items ≡ active (may_be_marked seen.now) rules.now) }
{
    let mut kept = Vec::new(alloc);
    for rule in rules {
        if rule.counts_at(seen) {
            kept.push(*rule)?;
        }
    }
    Ok(kept)
}

/// The table of the order by the rules without a condition, if this is the one by all of them.
pub fn table_without_conditions(
    alloc: Global,
    rules: &[Rule],
    interactions: &[(u16, u16)],
    all: Vec<InteractionSet>,
) -> Result<Vec<InteractionSet>, AllocError>
    requires limit { length interactions.now ≤ INTERACTION_LIMIT }
    requires size { vec_len all ≡ length interactions.now }
    requires below { (a b : ℕ) → Above all.items a b ↔ IsBelow rules.now interactions.now a b }
    ensures size { IfOk result (λ rows. vec_len rows ≡ length interactions.now) }
    ensures below { IfOk result (λ rows. (a b : ℕ) →
        Above rows.items a b ↔ IsBelow (unconditional rules.now) interactions.now a b) }
{
    if count_always(rules) {
        return Ok(all);
    }
    order_table(alloc, &rules_without_condition(alloc, rules)?, interactions)
}

/// The interactions that this one stands above.
fn rows_with(rows: &[InteractionSet], upper: u16) -> InteractionSet
    requires { length rows.now ≤ INTERACTION_LIMIT }
    ensures { (a : ℕ) → IsTrue (set.contains result a) ↔ Above rows.now a upper }
{
    let mut found = InteractionSet::new();
    for number in 0..rows.len() {
        if rows[number].contains(upper) {
            found.insert(number as u16);
        }
    }
    found
}

/// The table the other way round: for each interaction the set of those that it stands above.
pub fn turned(alloc: Global, rows: &[InteractionSet]) -> Result<Vec<InteractionSet>, AllocError>
    requires limit { length rows.now ≤ INTERACTION_LIMIT }
    requires within { (a b : ℕ) → Above rows.now a b → b < length rows.now }
    ensures size { IfOk result (λ lower. vec_len lower ≡ length rows.now) }
    ensures turned { IfOk result (λ lower. AreTurned rows.now lower.items) }
{
    let mut lower = Vec::with_capacity(alloc, rows.len())?;
    for upper in 0..rows.len() {
        lower.push_reserved(rows_with(rows, upper as u16));
    }
    Ok(lower)
}

/// Which of the 64 interactions from 64 times the place on are in the row of this one, bit k for the one with k after these.
pub fn row_word(rows: &[InteractionSet], interaction: u16, place: usize) -> u64
    requires { place < ROW_WORDS }
    ensures { (n : ℕ) → n / 64 ≡ place → has_bit result (n % 64) ≡ set.contains (row_at rows.now interaction) n }
{
    match rows.get(usize::from(interaction)) {
        Some(row) => row.word(place),
        None => 0,
    }
}

/// The interactions that nothing stands above.
pub fn free_rows(rows: &[InteractionSet]) -> InteractionSet
    requires { length rows.now ≤ INTERACTION_LIMIT }
    ensures { (n : ℕ) → set.contains result n ≡ true → (b : ℕ) → ¬ Above rows.now n b }
{
    let mut free = InteractionSet::new();
    for number in 0..rows.len() {
        if rows[number].is_empty() {
            free.insert(number as u16);
        }
    }
    free
}

/// The interactions on a side, and those that stand above one of them.
pub fn from_side(rows: &[InteractionSet], interactions: &[(u16, u16)], side: Side) -> InteractionSet
    requires limit { length interactions.now ≤ INTERACTION_LIMIT }
    requires size { length rows.now ≡ length interactions.now }
    ensures { (n : ℕ) → IsTrue (set.contains result n) ↔ IsFrom (Above rows.now) interactions.now side n }
{
    let on = on_side(interactions, side);
    let mut found = on.copy();
    for number in 0..rows.len() {
        if on.contains(number as u16) {
            found.union_with(&rows[number]);
        }
    }
    found
}
