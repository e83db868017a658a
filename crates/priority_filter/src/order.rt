//! The order that rules put on the interactions of a plant.
ghost use Rattle.std.specs.Prelude.{◌≡◌, ◌≢◌, ℕ, ◌*◌, ◌/◌, ◌%◌, ◌<◌, ◌≤◌, ◌↔◌, ◌||◌, Bool, true, false, length, vec_len, IfOk, IfErr, OnOk, IsTrue, IfSome, IfNone, Some, None, Contains};
ghost use Rattle.std.specs.FinSet as set;
ghost use Rattle.priority_filter.specs.Active.{active, unconditional, may_be_marked};
ghost use Rattle.priority_filter.specs.Members.{has_bit};
ghost use Rattle.priority_filter.specs.Order.{IsBelow, IsStrict, IsFirstCyclic, AreKnown, IsFirstUnknown};
ghost use Rattle.priority_filter.specs.Decided.{is_below, is_overruled, order_fault};
ghost use Rattle.priority_filter.specs.Conditions.{AreConditions, IsLeastClosed};
ghost use Rattle.priority_filter.specs.Table.{Above, AreTurned, row_at};
ghost use Rattle.priority_filter.specs.declared.rule.Side.{Side};
ghost use Rattle.priority_filter.specs.declared.seen.At.{At};
ghost use Rattle.priority_filter.specs.declared.interaction_set.TheConstants.{ROW_WORDS};

use crate::condition::{self, Condition};
use crate::fault::OrderFault;
use crate::interaction_set::{INTERACTION_LIMIT, InteractionSet, ROW_WORDS};
use crate::rule::Rule;
use crate::seen::{SEEN_ATOMS, Seen};
use crate::{table, watched};
use std::alloc::{AllocError, Global};
use std::marker::Model;

/// Which interactions are below which. An interaction is named by its number, its place in the list
/// that the order was made from.
///
/// The tables `above` and `below` are of the rules without a condition. What those with one add is kept beside them, one entry for
/// each.
#[derive(Drop)]
pub struct Order {
    rules: Vec<Rule>,
    interactions: Vec<(u16, u16)>,
    above: Vec<InteractionSet>,
    below: Vec<InteractionSet>,
    free: InteractionSet,
    conditions: Vec<Condition>,
    watched: [u64; SEEN_ATOMS],
}

impl Model for Order {
    ghost use Rattle.priority_filter.specs.Order.{Priorities};
    ghost use Rattle.priority_filter.specs.Table.{IsOrder};

    ghost Value = { Priorities };

    ghost view = { λ o. record { rules = o.rules.items; interactions = o.interactions.items } };

    ghost invariant = { λ o. IsOrder o.rules.items o.interactions.items o.above.items o.below.items o.free o.conditions.items o.watched };
}

impl Order {
    /// The order of the rules on the interactions, each a connector and a leaf mask.
    ///
    /// An unknown name is found before a cycle, and of each kind the first. An unknown name takes no memory to find, so want of
    /// memory is answered only if all names are known. A cycle is found as if all conditions held.
    pub fn new(
        alloc: Global,
        rules: &[Rule],
        interactions: &[(u16, u16)],
    ) -> Result<Self, OrderFault>
        requires { length interactions.now ≤ INTERACTION_LIMIT }
        ensures rules { IfOk result (λ order. order.rules ≡ rules.now) }
        ensures interactions { IfOk result (λ order. order.interactions ≡ interactions.now) }
        ensures known { OnOk result (AreKnown rules.now interactions.now) }
        ensures strict { OnOk result (IsStrict rules.now interactions.now) }
        ensures unknown { (k : ℕ) → (result ≡ Err (OrderFault.UnknownName k))
            ↔ IsFirstUnknown rules.now interactions.now k }
        ensures cycle { (a : ℕ) → result ≢ Err OrderFault.Memory → (result ≡ Err (OrderFault.Cycle a))
            ↔ (AreKnown rules.now interactions.now × IsFirstCyclic rules.now interactions.now a) }
        ensures memory { result ≡ Err OrderFault.Memory → AreKnown rules.now interactions.now }
        ensures sound { OnOk result (order_fault rules.now interactions.now ≡ None) }
        ensures fault { IfErr result (λ fault. fault ≢ OrderFault.Memory
            → order_fault rules.now interactions.now ≡ Some fault) }
    {
        if let Some(rule) = first_unknown(rules, interactions) {
            return Err(OrderFault::UnknownName(rule));
        }
        let above = table::order_table(alloc, rules, interactions)?;
        if let Some(interaction) = table::first_cyclic(&above) {
            return Err(OrderFault::Cycle(interaction));
        }
        Ok(Order::of(alloc, rules, interactions, above)?)
    }

    /// The order of rules without fault, if this is the table of all of them.
    fn of(
        alloc: Global,
        rules: &[Rule],
        interactions: &[(u16, u16)],
        all: Vec<InteractionSet>,
    ) -> Result<Self, AllocError>
        requires limit { length interactions.now ≤ INTERACTION_LIMIT }
        requires size { vec_len all ≡ length interactions.now }
        requires below { (a b : ℕ) → Above all.items a b ↔ IsBelow rules.now interactions.now a b }
        requires known { AreKnown rules.now interactions.now }
        requires sound { order_fault rules.now interactions.now ≡ None }
        ensures rules { IfOk result (λ order. order.rules ≡ rules.now) }
        ensures interactions { IfOk result (λ order. order.interactions ≡ interactions.now) }
    {
        let watched = watched::watched_places(rules);
        let free = table::free_rows(&all);
        let above = table::table_without_conditions(alloc, rules, interactions, all)?;
        let below = table::turned(alloc, &above)?;
        let conditions = conditions_of(alloc, rules, interactions, &above, &below)?;
        Ok(Order {
            rules: Vec::from_slice(alloc, rules)?,
            interactions: Vec::from_slice(alloc, interactions)?,
            above,
            below,
            free,
            conditions,
            watched,
        })
    }

    /// The rules that it was made of, in their order.
    pub fn rules(&self) -> &[Rule]
        ensures { result.now ≡ self.now.rules }
    {
        self.rules.as_slice()
    }

    /// The interactions that it was made of, each a connector and a mask. An interaction's number is its place here.
    pub fn interactions(&self) -> &[(u16, u16)]
        ensures { result.now ≡ self.now.interactions }
    {
        self.interactions.as_slice()
    }

    /// Whether some rule has a condition.
    pub fn has_conditions(&self) -> bool
        ensures { result ≡ false → (left right : Side) (at : At) → ¬ Contains self.now.rules (Rule.UnderAt left right at) }
    {
        !self.conditions.is_empty()
    }

    /// The places of an atom that rules ask for, bit k for place k.
    pub fn watched(&self, atom: u16) -> u64
        ensures { (left right : Side) (at : At) → Contains self.now.rules (Rule.UnderAt left right at) → at.atom ≡ atom → has_bit result at.place ≡ true }
    {
        match self.watched.get(usize::from(atom)) {
            Some(places) => *places,
            None => 0,
        }
    }

    /// Whether a chain of rules leads from interaction a up to interaction b, by the rules that count as far as is seen: those
    /// without a condition, and those whose place is marked or not known. None does if either number is of no interaction of
    /// the order.
    pub fn below_at(&self, a: u16, b: u16, seen: &[Seen; SEEN_ATOMS]) -> bool
        ensures below { IsTrue result ↔ IsBelow (active (may_be_marked seen.now) self.now.rules) self.now.interactions a b }
        ensures value { result ≡ is_below (active (may_be_marked seen.now) self.now.rules) self.now.interactions a b }
        ensures strict { IsStrict self.now.rules self.now.interactions }
        ensures sound { order_fault self.now.rules self.now.interactions ≡ None }
    {
        let mut upper = InteractionSet::new();
        upper.insert(b);
        self.is_overruled_at(a, &upper, seen)
    }

    /// The same for all pairs, as a table that is made once: row a has the interactions that interaction a is below. It takes the time
    /// and the memory that it takes to make an order.
    pub fn table_at(
        &self,
        alloc: Global,
        seen: &[Seen; SEEN_ATOMS],
    ) -> Result<Vec<InteractionSet>, AllocError>
        ensures size { IfOk result (λ rows. vec_len rows ≡ length self.now.interactions) }
        ensures below { IfOk result (λ rows. (a b : ℕ) →
            set.contains (row_at rows.items a) b ≡ is_below (active (may_be_marked seen.now) self.now.rules) self.now.interactions a b) }
    {
        let rules = table::active_rules(alloc, &self.rules, seen)?;
        table::order_table(alloc, &rules, &self.interactions)
    }

    /// Whether a rival is above this interaction, by the rules that count as far as is seen.
    fn is_overruled_at(
        &self,
        interaction: u16,
        rivals: &InteractionSet,
        seen: &[Seen; SEEN_ATOMS],
    ) -> bool
        ensures value { result ≡ is_overruled (active (may_be_marked seen.now) self.now.rules) self.now.interactions (set.contains rivals.now) interaction }
        ensures limit { length self.now.interactions ≤ INTERACTION_LIMIT }
        ensures sound { order_fault self.now.rules self.now.interactions ≡ None }
    {
        if self.has_conditions() {
            self.is_overruled(interaction, rivals)
                || self
                    .overruled_by_conditions(seen, rivals)
                    .contains(interaction)
        } else {
            self.is_overruled(interaction, rivals)
        }
    }

    /// Whether a rival is above this interaction, by the rules without a condition. None is above a number of no interaction of
    /// the order.
    pub fn is_overruled(&self, interaction: u16, rivals: &InteractionSet) -> bool
        ensures value { result ≡ is_overruled (unconditional self.now.rules) self.now.interactions (set.contains rivals.now) interaction }
        ensures limit { length self.now.interactions ≤ INTERACTION_LIMIT }
        ensures sound { order_fault self.now.rules self.now.interactions ≡ None }
    {
        let place = usize::from(interaction);
        match self.above.get(place) {
            // Under `maximal` those above follow closely, so that the own word most likely has one.
            Some(row) => row.meets_at(rivals, place / 64) || row.meets(rivals, self.words()),
            None => false,
        }
    }

    /// Those of the 64 interactions from 64 times the place on that nothing is above, if all rules count: bit k for the one with k
    /// after these.
    pub fn free_word(&self, place: usize) -> u64
        requires { place < ROW_WORDS }
        ensures { (n : ℕ) → n / 64 ≡ place → has_bit result (n % 64) ≡ true → (rivals : ℕ → Bool) → is_overruled (unconditional self.now.rules) self.now.interactions rivals n ≡ false }
    {
        self.free.word(place)
    }

    /// Which of the 64 interactions from 64 times the place on are below this one, by the rules without a condition: bit k for the
    /// one with k after these. None is below a number of no interaction of the order.
    pub fn below_word(&self, interaction: u16, place: usize) -> u64
        requires { place < ROW_WORDS }
        ensures { (n : ℕ) → n / 64 ≡ place → has_bit result (n % 64) ≡ is_below (unconditional self.now.rules) self.now.interactions n interaction }
    {
        table::row_word(&self.below, interaction, place)
    }

    /// Which of them are above this one. None is above a number of no interaction of the order.
    pub fn above_word(&self, interaction: u16, place: usize) -> u64
        requires { place < ROW_WORDS }
        ensures { (n : ℕ) → n / 64 ≡ place → has_bit result (n % 64) ≡ is_below (unconditional self.now.rules) self.now.interactions interaction n }
    {
        table::row_word(&self.above, interaction, place)
    }

    /// How many words of 64 bits have a bit for each interaction.
    fn words(&self) -> usize
        ensures enough { length self.now.interactions ≤ 64 * result }
        ensures limit { result ≤ ROW_WORDS }
    {
        self.interactions.len().div_ceil(64)
    }

    /// What the rules with a condition that may hold add: with what they put in the set, and what the rules without a condition
    /// put below a rival, an interaction is below a rival by the rules that count.
    pub(crate) fn overruled_by_conditions(
        &self,
        seen: &[Seen; SEEN_ATOMS],
        rivals: &InteractionSet,
    ) -> InteractionSet
        ensures { (n : ℕ) → is_overruled (active (may_be_marked seen.now) self.now.rules) self.now.interactions (set.contains rivals.now) n ≡ (is_overruled (unconditional self.now.rules) self.now.interactions (set.contains rivals.now) n || set.contains result n) }
    {
        condition::overruled_by(&self.conditions, seen, rivals, self.words())
    }
}

/// The index of the first rule that names something which is not in the list.
fn first_unknown(rules: &[Rule], interactions: &[(u16, u16)]) -> Option<usize>
    ensures unknown { IfSome result (IsFirstUnknown rules.now interactions.now) }
    ensures known { IfNone result (AreKnown rules.now interactions.now) }
{
    for k in 0..rules.len() {
        if !rules[k].is_known(interactions) {
            return Some(k);
        }
    }
    None
}

/// The rules with a condition, by the table of those without and the same turned.
fn conditions_of(
    alloc: Global,
    rules: &[Rule],
    interactions: &[(u16, u16)],
    above: &[InteractionSet],
    below: &[InteractionSet],
) -> Result<Vec<Condition>, AllocError>
    requires limit { length interactions.now ≤ INTERACTION_LIMIT }
    requires size { length above.now ≡ length interactions.now }
    requires turned_size { length below.now ≡ length interactions.now }
    requires exact { (a b : ℕ) → Above above.now a b ↔ IsBelow (unconditional rules.now) interactions.now a b }
    requires turned { AreTurned above.now below.now }
    ensures { IfOk result (λ conditions. AreConditions rules.now interactions.now conditions.items) }
{
    let mut conditions = Vec::new(alloc);
    for k in 0..rules.len() {
        if let Rule::UnderAt(left, right, at) = rules[k] {
            conditions.push(Condition {
                at,
                below: table::from_side(below, interactions, left),
                above: table::from_side(above, interactions, right),
            })?;
        }
    }
    Ok(conditions)
}
