//! Which possible interactions are above one.
ghost use Rattle.std.specs.Prelude.{◌≡◌, ℕ, ◌<◌, false, length, map, slice_index_or, vec_len};
ghost use Rattle.std.specs.FinSet as set;
ghost use Rattle.priority_filter.specs.Active.{active, may_be_marked};
ghost use Rattle.priority_filter.specs.Decided.{is_below};
ghost use Rattle.priority_filter.specs.Table.{row_at};
ghost use Rattle.plant_model.specs.Choice.{active_in, is_possible, is_possible_at, named, plant_interactions};
ghost use Rattle.part_text.specs.Seen.{interaction_of};

use crate::offering::first_idle;
use crate::reasons::Reasons;
use plant_model::{Interaction, PlantState};
use priority_filter::{INTERACTION_LIMIT, InteractionSet, SEEN_ATOMS, Seen};

/// A state with its possible interactions, and with the interactions that are above each.
#[derive(Drop)]
pub(crate) struct Rivals<'a> {
    pub(crate) states: &'a PlantState,
    pub(crate) seen: [Seen; SEEN_ATOMS],
    pub(crate) possible: [bool; INTERACTION_LIMIT],
    /// A row for each interaction, or none where memory was wanting.
    pub(crate) above: Vec<InteractionSet>,
}

impl Reasons<'_> {
    ghost use Rattle.blocked_text.specs.Asked.{plant_asked};
    ghost use Rattle.blocked_text.specs.Reason.{first_over, is_over};
    ghost use Rattle.blocked_text.specs.Rivals.{AreRivals};

    /// How many interactions the plant has.
    pub(crate) fn count(&self) -> u16
        ensures { result ≡ length (plant_interactions (plant_asked self.now)) }
    {
        self.system.keeps_its_rules();
        self.system.interaction_count() as u16
    }

    /// The rivals in the state.
    pub(crate) fn rivals<'a>(&self, states: &'a PlantState) -> Rivals<'a>
        ensures rivals { AreRivals (plant_asked self.now) result }
        ensures states { result.states.now ≡ states.now }
    {
        self.system.keeps_its_rules();
        let seen = states.seen();
        Rivals {
            states,
            seen,
            possible: self.possible_in(states),
            above: self.rows_above(&seen),
        }
    }

    /// Which interactions are possible, by their numbers.
    fn possible_in(&self, states: &PlantState) -> [bool; INTERACTION_LIMIT]
        ensures { (n : ℕ) → slice_index_or result n false ≡ is_possible_at (plant_asked self.now).atoms (plant_asked self.now).wires states.now (plant_interactions (plant_asked self.now)) n }
    {
        self.system.keeps_its_rules();
        let mut possible = [false; INTERACTION_LIMIT];
        for number in 0..self.count() {
            possible[usize::from(number)] = self.is_possible_at(states, number);
        }
        possible
    }

    /// For each interaction those above it by the rules that count as far as is seen. Where memory is wanting there is no row: then the
    /// order is asked for each pair, which takes longer.
    fn rows_above(&self, seen: &[Seen; SEEN_ATOMS]) -> Vec<InteractionSet>
        ensures { (n m : ℕ) → n < vec_len result → set.contains (row_at result.items n) m ≡ is_below (active (may_be_marked seen.now) (plant_asked self.now).rules) (map named (plant_interactions (plant_asked self.now))) n m }
    {
        match self.system.order.table_at(self.alloc, seen) {
            Ok(rows) => rows,
            Err(_) => Vec::new(self.alloc),
        }
    }

    /// The first possible interaction that is above the one with this number.
    pub(crate) fn first_over(&self, rivals: &Rivals<'_>, number: u16) -> Option<u16>
        requires { AreRivals (plant_asked self.now) rivals.now }
        ensures { result ≡ first_over (plant_asked self.now) rivals.now.states.now (plant_interactions (plant_asked self.now)) number }
    {
        (0..self.count()).find(|other| self.is_over(rivals, number, *other))
    }

    /// Whether the other interaction is possible, and above the one with this number.
    fn is_over(&self, rivals: &Rivals<'_>, number: u16, other: u16) -> bool
        requires { AreRivals (plant_asked self.now) rivals.now }
        ensures { result ≡ is_over (plant_asked self.now) rivals.now.states.now (plant_interactions (plant_asked self.now)) number other }
    {
        rivals.is_possible(other) && self.is_above(rivals, number, other)
    }

    /// Whether the other interaction is above the one with this number.
    fn is_above(&self, rivals: &Rivals<'_>, number: u16, other: u16) -> bool
        requires { AreRivals (plant_asked self.now) rivals.now }
        ensures { result ≡ is_below (active_in (plant_asked self.now) rivals.now.states.now) (map named (plant_interactions (plant_asked self.now))) number other }
    {
        match rivals.above.get(usize::from(number)) {
            Some(row) => row.contains(other),
            None => self.system.order.below_at(number, other, &rivals.seen),
        }
    }

    /// Whether the interaction with this number is there and possible.
    fn is_possible_at(&self, states: &PlantState, number: u16) -> bool
        ensures { result ≡ is_possible_at (plant_asked self.now).atoms (plant_asked self.now).wires states.now (plant_interactions (plant_asked self.now)) number }
    {
        match self.system.interactions().get(usize::from(number)) {
            Some(interaction) => self.is_possible(states, interaction),
            None => false,
        }
    }

    /// Whether the interaction is possible.
    fn is_possible(&self, states: &PlantState, interaction: &Interaction) -> bool
        ensures { result ≡ is_possible (plant_asked self.now).atoms (plant_asked self.now).wires states.now (interaction_of interaction.now) }
    {
        first_idle(self.system.atoms(), states, &interaction.ports).is_none()
            && self.zero_of(states, interaction).is_none()
    }
}

impl Rivals<'_> {
    /// Whether the interaction with this number is there and possible.
    fn is_possible(&self, number: u16) -> bool
        ensures { result ≡ slice_index_or self.now.possible number false }
    {
        match self.possible.get(usize::from(number)) {
            Some(possible) => *possible,
            None => false,
        }
    }
}
