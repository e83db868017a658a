//! What is known of a plant's state while some of its atoms are away.
ghost use Rattle.std.specs.Prelude.{◌≡◌, ◌<◌, ◌≤◌, true, false, Some, None, map, length, option_map, slice_get, slice_set, is_none, is_some};
ghost use Rattle.std.specs.List.{list_all};
ghost use Rattle.std.specs.Option.{option_map_or};
ghost use Rattle.plant_model.specs.Chosen.{choice_of, firing_of};
ghost use Rattle.plant_model.specs.Delivery.{IsDelivered};
ghost use Rattle.plant_model.specs.Step.{transfer};
ghost use Rattle.plant_model.specs.declared.limits.TheConstants.{MAX_ATOMS};
ghost use Rattle.step_core.specs.Dispatching.{AllPresentFit, ArePartsOf, state_at};
ghost use Rattle.step_core.specs.Parts.{is_present, shown_in};
ghost use Rattle.step_core.specs.Sure.{IsSure, went_on};

use connector_tree::MAX_LEAVES;
use petri_atom::{AtomState, Delivered};
use plant_model::{Choice, PlantState, System};
use std::marker::Model;

/// The states of a plant's atoms, of which some are away: of each that is present its state, and nothing of one that is away. In a
/// contract it is that list.
///
/// In place of the state of an atom that is away stands one without a marked place: each transition has a source, so it offers
/// nothing.
#[derive(Drop)]
pub struct PlantParts {
    states: PlantState,
    away: u64,
}

impl Model for PlantParts {
    ghost use Rattle.std.specs.Prelude.{List, Option};
    ghost use Rattle.petri_atom.specs.Local.{Local, has};
    ghost use Rattle.step_core.specs.Parts.{parts_of};
    ghost use Rattle.step_core.specs.Dispatching.{ArePartsKept};

    ghost Value = { List (Option Local) };

    ghost view = { λ p. parts_of (has p.away) p.states };

    ghost invariant = { λ p. ArePartsKept p.away p.states };
}

impl PlantParts {
    ghost use Rattle.plant_model.specs.System.{plant_of};

    /// All atoms are present, in these states.
    pub fn all(states: PlantState) -> Self
        requires { length states ≤ MAX_ATOMS }
        ensures { result ≡ map Some states }
    {
        PlantParts { states, away: 0 }
    }

    /// What is shown of the atoms: the state of each that is present, and one without a marked place of each that is away.
    pub fn shown(&self) -> &PlantState
        ensures states { result.now ≡ shown_in self.now }
        ensures few { length self.now ≤ MAX_ATOMS }
    {
        &self.states
    }

    /// Whether the atom is there and away.
    pub fn is_away(&self, atom: u16) -> bool
        ensures { result ≡ option_map_or is_none (slice_get self.now atom) false }
    {
        atom < 64 && (self.away >> atom) & 1 == 1
    }

    /// Whether no atom is away.
    pub fn is_whole(&self) -> bool
        ensures { result ≡ list_all is_some self.now }
    {
        self.away == 0
    }

    /// The state of the atom, if it is there and present.
    pub fn state(&self, atom: u16) -> Option<&AtomState>
        ensures { option_map (λ s. s.now) result ≡ state_at self.now atom }
    {
        if usize::from(atom) < self.states.len() && !self.is_away(atom) {
            Some(self.states.state(atom))
        } else {
            None
        }
    }

    /// Takes the state of an atom that is present: the atom is then away.
    pub fn take(&mut self, atom: u16) -> AtomState
        requires there { atom < length self.old }
        requires present { is_present self.old atom ≡ true }
        ensures state { slice_get self.old atom ≡ Some (Some result) }
        ensures parts { self.new ≡ slice_set self.old atom None }
    {
        let state = self.states.state(atom).copy();
        self.away |= 1 << atom;
        self.states.set(atom, AtomState::with(0, &[]));
        state
    }

    /// Copies a state into the place of the atom's part: the atom is then present.
    pub fn put(&mut self, atom: u16, state: &AtomState)
        requires { atom < length self.old }
        ensures { self.new ≡ slice_set self.old atom (Some state.now) }
    {
        self.states.copy_into(atom, state);
        self.away &= !(1 << atom);
    }

    /// Fires a sure choice, and writes what it delivered: at the place of each move, what its atom got.
    pub(crate) fn fire(
        &mut self,
        system: &System,
        choice: &Choice,
        inputs: &[i64],
        delivered: &mut [Delivered; MAX_LEAVES],
    )
        requires of_plant { ArePartsOf (plant_of system.now) self.old }
        requires sure { IsSure (plant_of system.now) self.old (choice_of choice.now) }
        ensures parts { self.new ≡ went_on (plant_of system.now) self.old (firing_of choice.now inputs.now) }
        ensures fits { AllPresentFit (plant_of system.now) self.old → AllPresentFit (plant_of system.now) self.new }
        ensures delivered { IsDelivered choice.now.moves (transfer (plant_of system.now) (shown_in self.old) (firing_of choice.now inputs.now)) delivered.new }
    {
        system.fire(&mut self.states, choice, inputs, delivered);
    }
}
