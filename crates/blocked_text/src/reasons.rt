//! A plant that is asked for reasons.
ghost use Rattle.std.specs.Prelude.{◌≡◌, ℕ, None, slice_index_or};
ghost use Rattle.plant_model.specs.Choice.{plant_interactions};
ghost use Rattle.part_text.specs.Seen.{interaction_of, plant_of};

use crate::clauses::{ExportValues, first_zero};
use crate::offering::first_idle;
use crate::overruling::Rivals;
use crate::reason::Reason;
use plant_model::{Interaction, PlantState, System};
use priority_filter::INTERACTION_LIMIT;
use std::alloc::Global;

/// A plant that is asked for reasons.
#[derive(Drop)]
pub struct Reasons<'s> {
    pub(crate) alloc: Global,
    pub(crate) system: &'s System,
}

impl<'s> Reasons<'s> {
    ghost use Rattle.blocked_text.specs.Asked.{plant_asked};

    /// The plant of this system. What is asked of a state takes memory too, and is answered without it where there is none, but then it
    /// takes longer.
    pub fn new(alloc: Global, system: &'s System) -> Self
        ensures { plant_asked result ≡ plant_of system.now }
    {
        Reasons { alloc, system }
    }
}

impl Reasons<'_> {
    ghost use Rattle.blocked_text.specs.Asked.{plant_asked};
    ghost use Rattle.blocked_text.specs.Reason.{reason_by, reason_of, zero_of};
    ghost use Rattle.blocked_text.specs.Rivals.{AreRivals};

    /// Why the states do not allow the interaction with this number; `None` if they allow it, and of a number that no
    /// interaction has.
    pub fn reason_of(&self, states: &PlantState, number: u16) -> Option<Reason>
        ensures { result ≡ reason_of (plant_asked self.now) states.now number }
    {
        self.reason_among(&self.rivals(states), number)
    }

    /// The same of each number, found for all of them at once.
    pub(crate) fn reasons_in(&self, states: &PlantState) -> [Option<Reason>; INTERACTION_LIMIT]
        ensures { (n : ℕ) → slice_index_or result n None ≡ reason_of (plant_asked self.now) states.now n }
    {
        self.system.keeps_its_rules();
        let rivals = self.rivals(states);
        let mut reasons = [None; INTERACTION_LIMIT];
        for number in 0..self.count() {
            reasons[usize::from(number)] = self.reason_among(&rivals, number);
        }
        reasons
    }

    /// Why the state with these rivals does not allow the interaction with this number.
    fn reason_among(&self, rivals: &Rivals<'_>, number: u16) -> Option<Reason>
        requires { AreRivals (plant_asked self.now) rivals.now }
        ensures { result ≡ reason_of (plant_asked self.now) rivals.now.states.now number }
    {
        match self.system.interactions().get(usize::from(number)) {
            Some(interaction) => self.reason_by(rivals, number, interaction),
            None => None,
        }
    }

    /// The same of this interaction, which has this number.
    fn reason_by(
        &self,
        rivals: &Rivals<'_>,
        number: u16,
        interaction: &Interaction,
    ) -> Option<Reason>
        requires { AreRivals (plant_asked self.now) rivals.now }
        ensures { result ≡ reason_by (plant_asked self.now) rivals.now.states.now (plant_interactions (plant_asked self.now)) number (interaction_of interaction.now) }
    {
        let states = rivals.states;
        if let Some(port) = first_idle(self.system.atoms(), states, &interaction.ports) {
            return Some(Reason::NotOffered(port));
        }
        if let Some(clause) = self.zero_of(states, interaction) {
            return Some(Reason::GuardIsZero(clause));
        }
        match self.first_over(rivals, number) {
            Some(above) => Some(Reason::GivesWay(above)),
            None => None,
        }
    }

    /// The number of the first guard clause of the interaction's connector that applies to it, and is 0.
    pub(crate) fn zero_of(&self, states: &PlantState, interaction: &Interaction) -> Option<usize>
        ensures { result ≡ zero_of (plant_asked self.now).atoms (plant_asked self.now).wires states.now (interaction_of interaction.now) }
    {
        match self.system.wires().get(usize::from(interaction.connector)) {
            Some(wire) => {
                let values = ExportValues {
                    atoms: self.system.atoms(),
                    connector: &wire.connector,
                    states,
                };
                first_zero(&values, interaction.mask, &wire.guards)
            }
            None => None,
        }
    }
}
