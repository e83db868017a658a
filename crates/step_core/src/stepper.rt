//! A plant that runs: its present state, with what that state offers, judged once.
ghost use Rattle.std.specs.Prelude.{◌≡◌, ◌↔◌, ◌<◌, [], None, Some, IfOk, IfSome, map, length, slice_get, slice_set};
ghost use Rattle.petri_atom.specs.Definition.{AtomDefinition, Fits};
ghost use Rattle.plant_model.specs.Choice.{ChoiceDefinition, choices, IsAllowed, IsStuck};
ghost use Rattle.plant_model.specs.Chosen.{choice_of, firing_of};
ghost use Rattle.plant_model.specs.Delivery.{IsDelivered};
ghost use Rattle.plant_model.specs.Firing.{firing_by};
ghost use Rattle.plant_model.specs.Fitting.{IsOf, AllFit};
ghost use Rattle.plant_model.specs.Interaction.{interaction_of};
ghost use Rattle.plant_model.specs.Step.{initial_states, next, transfer};
ghost use Rattle.plant_model.specs.System.{plant_of};
ghost use Rattle.step_core.specs.Judgement.{IsJudgement};

use crate::choices::{choose, judge, judge_atom_again};
use crate::firing::step;
use crate::judgement::Judgement;
use crate::places::find;
use crate::prefetch::Prefetch;
use connector_tree::MAX_LEAVES;
use petri_atom::{AtomState, Delivered};
use plant_model::laws::choices_stand_in_order;
use plant_model::{Choice, PlantState, System, no_deliveries};
use std::alloc::{AllocError, Global};

/// A plant that runs: a system, its present state, in which each atom's state fits it, and what that state offers: transitions,
/// and possible interactions.
///
/// It judges each transition and each interaction once when it is made. After a step it judges what the firing can change of the atoms
/// that moved, and the interactions of the connectors that this reaches: a leaf offers something or nothing other than before, or a guard
/// can read an atom that moved. All of a step's questions ([`Stepper::count`], [`Stepper::nth`]) are answered
/// from what is offered. Only the states take memory, when these are made.
#[derive(Drop)]
pub struct Stepper<'s> {
    system: &'s System,
    states: PlantState,
    judgement: Judgement,
    /// What a firing delivers that nobody asks for: room that is made once.
    delivered: [Delivered; MAX_LEAVES],
    /// The choice that [`Stepper::fire_nth`] makes: room that is made once.
    choice: Choice,
    prefetch: Prefetch,
    ghost of_plant: { IsOf (plant_of system.now) states },
    ghost fits: { AllFit (plant_of system.now) states },
    ghost judged: { IsJudgement (plant_of system.now) (map interaction_of system.now.interactions.items) system.now.ranks states judgement },
}

impl<'s> Stepper<'s> {
    ghost use Rattle.step_core.specs.Running.{system_in, plant_in, states_in};

    /// The plant in its first state.
    pub fn first(alloc: Global, system: &'s System) -> Result<Self, AllocError>
        ensures system { IfOk result (λ run. system_in run ≡ system.now) }
        ensures plant { IfOk result (λ run. plant_in run ≡ plant_of system.now) }
        ensures first { IfOk result (λ run. states_in run ≡ initial_states (plant_of system.now)) }
        ensures fits { IfOk result (λ _. AllFit (plant_of system.now) (initial_states (plant_of system.now))) }
    {
        let states = PlantState::init(alloc, system)?;
        Ok(Stepper::at(system, states))
    }

    /// The plant in this state of it. It takes no memory.
    pub fn at(system: &'s System, states: PlantState) -> Self
        requires of_plant { IsOf (plant_of system.now) states }
        requires fits { AllFit (plant_of system.now) states }
        ensures system { system_in result ≡ system.now }
        ensures plant { plant_in result ≡ plant_of system.now }
        ensures states { states_in result ≡ states }
    {
        let judgement = judge(system, &states);
        Stepper {
            system,
            states,
            judgement,
            delivered: no_deliveries(),
            choice: Choice::none(),
            prefetch: Prefetch::of(system),
        }
    }

    /// The system that runs.
    pub fn system(&self) -> &'s System
        ensures system { result.now ≡ system_in self.now }
        ensures plant { plant_of result.now ≡ plant_in self.now }
    {
        self.system
    }

    /// The present state.
    pub fn states(&self) -> &PlantState
        ensures states { result.now ≡ states_in self.now }
        ensures of_plant { IsOf (plant_in self.now) result.now }
        ensures fits { AllFit (plant_in self.now) result.now }
    {
        &self.states
    }

    /// The present state of one atom.
    pub fn state(&self, atom: u16) -> AtomState
        requires { atom < length (states_in self.now) }
        ensures state { slice_get (states_in self.now) atom ≡ Some result }
        ensures fits { (a : AtomDefinition) → slice_get (plant_in self.now).atoms atom ≡ Some a → Fits a result }
    {
        self.states.state(atom).copy()
    }

    /// Puts another state in the place of one atom's. What is offered is judged again for this atom, and what is possible for the
    /// interactions that this can change.
    pub fn set(&mut self, atom: u16, state: AtomState)
        requires there { atom < length (states_in self.old) }
        requires fits { (a : AtomDefinition) → slice_get (plant_in self.old).atoms atom ≡ Some a → Fits a state }
        ensures system { system_in self.new ≡ system_in self.old }
        ensures plant { plant_in self.new ≡ plant_in self.old }
        ensures states { states_in self.new ≡ slice_set (states_in self.old) atom state }
    {
        self.states.set(atom, state);
        judge_atom_again(self.system, &self.states, atom, &mut self.judgement);
    }

    /// How many choices the present state has; none exactly if no interaction is possible.
    pub fn count(&self) -> u128
        ensures count { result ≡ length (choices (plant_in self.now) (states_in self.now)) }
        ensures stuck { (result ≡ 0) ↔ IsStuck (plant_in self.now) (states_in self.now) }
    {
        self.judgement.weights.total
    }

    /// The choice of the present state with this place, from 0, in the order of the choices.
    pub fn nth(&self, place: u128) -> Choice
        requires { place < length (choices (plant_in self.now) (states_in self.now)) }
        ensures entry { slice_get (choices (plant_in self.now) (states_in self.now)) place ≡ Some (choice_of result) }
        ensures allowed { IsAllowed (plant_in self.now) (states_in self.now) (choice_of result) }
    {
        let mut choice = Choice::none();
        self.nth_into(place, &mut choice);
        choice
    }

    /// Writes the choice of the present state with this place, from 0, in the order of the choices.
    pub fn nth_into(&self, place: u128, choice: &mut Choice)
        requires { place < length (choices (plant_in self.now) (states_in self.now)) }
        ensures entry { slice_get (choices (plant_in self.now) (states_in self.now)) place ≡ Some (choice_of choice.new) }
        ensures allowed { IsAllowed (plant_in self.now) (states_in self.now) (choice_of choice.new) }
    {
        choose(self.system, &self.states, &self.judgement, place, choice);
    }

    /// The place of the choice in the list of the present state's choices, if it is one of them.
    pub fn find(&self, choice: &Choice) -> Option<u128>
        ensures there { IfSome result (λ place. slice_get (choices (plant_in self.now) (states_in self.now)) place ≡ Some (choice_of choice.now)) }
        ensures none { result ≡ None → IsAllowed (plant_in self.now) (states_in self.now) (choice_of choice.now) → ⊥ }
    {
        choices_stand_in_order();
        find(self, choice)
    }

    /// Fires the choice: the present state becomes the next one. What is offered is judged again for the atoms that moved, and
    /// what is possible for the interactions that this can change.
    pub fn fire(&mut self, choice: &Choice, inputs: &[i64])
        requires { IsAllowed (plant_in self.old) (states_in self.old) (choice_of choice.now) }
        ensures system { system_in self.new ≡ system_in self.old }
        ensures plant { plant_in self.new ≡ plant_in self.old }
        ensures next { states_in self.new ≡ next (plant_in self.old) (states_in self.old) (firing_of choice.now inputs.now) }
        ensures fits { AllFit (plant_in self.new) (states_in self.new) }
    {
        self.prefetch.read(self.system, choice);
        step(
            self.system,
            &mut self.states,
            &mut self.judgement,
            choice,
            inputs,
            &mut self.delivered,
        );
    }

    /// Fires the choice of the present state with this place, from 0, in the order of the choices. It is [`Stepper::nth`] and
    /// [`Stepper::fire`] in one, and makes the choice in the stepper's own room. No value comes in.
    pub fn fire_nth(&mut self, place: u128)
        requires { place < length (choices (plant_in self.old) (states_in self.old)) }
        ensures system { system_in self.new ≡ system_in self.old }
        ensures plant { plant_in self.new ≡ plant_in self.old }
        ensures next { (c : ChoiceDefinition) → slice_get (choices (plant_in self.old) (states_in self.old)) place ≡ Some c → states_in self.new ≡ next (plant_in self.old) (states_in self.old) (firing_by c []) }
        ensures fits { AllFit (plant_in self.new) (states_in self.new) }
    {
        choose(
            self.system,
            &self.states,
            &self.judgement,
            place,
            &mut self.choice,
        );
        self.prefetch.read(self.system, &self.choice);
        step(
            self.system,
            &mut self.states,
            &mut self.judgement,
            &self.choice,
            &[],
            &mut self.delivered,
        );
    }

    /// Fires the choice as [`Stepper::fire`] does, and writes what it delivered: at the place of each move, what its atom got.
    pub fn fire_telling(
        &mut self,
        choice: &Choice,
        inputs: &[i64],
        delivered: &mut [Delivered; MAX_LEAVES],
    )
        requires { IsAllowed (plant_in self.old) (states_in self.old) (choice_of choice.now) }
        ensures system { system_in self.new ≡ system_in self.old }
        ensures plant { plant_in self.new ≡ plant_in self.old }
        ensures next { states_in self.new ≡ next (plant_in self.old) (states_in self.old) (firing_of choice.now inputs.now) }
        ensures fits { AllFit (plant_in self.new) (states_in self.new) }
        ensures delivered { IsDelivered choice.now.moves (transfer (plant_in self.old) (states_in self.old) (firing_of choice.now inputs.now)) delivered.new }
    {
        self.prefetch.read(self.system, choice);
        step(
            self.system,
            &mut self.states,
            &mut self.judgement,
            choice,
            inputs,
            delivered,
        );
    }
}
