//! The global state of a plant: a local state for each atom, and what is seen of it for the conditions of priority rules.
ghost use Rattle.std.specs.Prelude.{◌≡◌, ◌<◌, ◌↔◌, [], IsTrue, map, length, IfOk, Some, slice_get, slice_set};
ghost use Rattle.plant_model.specs.Fitting.{IsOf, AllFit};
ghost use Rattle.plant_model.specs.Step.{initial_states};
ghost use Rattle.plant_model.specs.System.{plant_of};

use crate::system::System;
use petri_atom::AtomState;
use priority_filter::{At, SEEN_ATOMS, Seen};
use std::alloc::{AllocError, Global};
use std::marker::Model;

/// The states of a plant's atoms, by the atoms' numbers. In a contract it is the list of the local states.
#[derive(Drop)]
pub struct PlantState {
    /// The local states, by the atoms' numbers.
    pub states: Vec<AtomState>,
}

impl Model for PlantState {
    ghost use Rattle.std.specs.Prelude.{List};
    ghost use Rattle.petri_atom.specs.Local.{Local};

    ghost Value = { List Local };

    ghost view = { λ s. s.states.items };
}

impl PlantState {
    /// The first state of the system's plant: each atom's first one.
    pub fn init(alloc: Global, system: &System) -> Result<Self, AllocError>
        ensures first { IfOk result (λ states. states ≡ initial_states (plant_of system.now)) }
        ensures of_plant { IfOk result (λ states. IsOf (plant_of system.now) states) }
        ensures fits { IfOk result (λ states. AllFit (plant_of system.now) states) }
    {
        let atoms = system.atoms();
        let mut states = Vec::with_capacity(alloc, atoms.len())?;
        for atom in atoms {
            states.push(atom.initial())?;
        }
        Ok(PlantState { states })
    }

    /// How many atoms there are.
    pub fn len(&self) -> usize
        ensures { result ≡ length self.now }
    {
        self.states.len()
    }

    /// Whether there is no atom.
    pub fn is_empty(&self) -> bool
        ensures { IsTrue result ↔ (self.now ≡ []) }
    {
        self.states.is_empty()
    }

    /// The state of one atom.
    pub fn state(&self, atom: u16) -> &AtomState
        requires { atom < length self.now }
        ensures { slice_get self.now atom ≡ Some result.now }
    {
        &self.states[usize::from(atom)]
    }

    /// Copies a state into the place of one atom's.
    pub fn copy_into(&mut self, atom: u16, state: &AtomState)
        requires { atom < length self.old }
        ensures { self.new ≡ slice_set self.old atom state.now }
    {
        self.states[usize::from(atom)].copy_from(state);
    }

    /// Puts another state in the place of one atom's.
    pub fn set(&mut self, atom: u16, state: AtomState)
        requires { atom < length self.old }
        ensures { self.new ≡ slice_set self.old atom state }
    {
        self.states[usize::from(atom)] = state;
    }
}

impl PlantState {
    ghost use Rattle.std.specs.Prelude.{◌≡◌, ◌<◌, ◌≤◌, length, true};
    ghost use Rattle.priority_filter.specs.Active.{may_be_marked};
    ghost use Rattle.priority_filter.specs.Members.{has_bit};
    ghost use Rattle.priority_filter.specs.declared.seen.At.{At};
    ghost use Rattle.priority_filter.specs.declared.seen.TheConstants.{SEEN_ATOMS};
    ghost use Rattle.plant_model.specs.Choice.{is_marked_at};

    /// What is seen of each atom that a row can show: all of it.
    pub fn seen(&self) -> [Seen; SEEN_ATOMS]
        ensures shown { (at : At) → at.atom < SEEN_ATOMS → may_be_marked result at ≡ is_marked_at self.now at }
        ensures all { length self.now ≤ SEEN_ATOMS → (at : At) → may_be_marked result at ≡ is_marked_at self.now at }
    {
        let unmarked = Seen {
            known: true,
            places: 0,
        };
        let mut seen = [unmarked; SEEN_ATOMS];
        for atom in 0..SEEN_ATOMS {
            seen[atom] = self.sight_of(atom as u16);
        }
        seen
    }

    /// Whether the place is marked; none is of an atom that is not there.
    pub fn is_marked(&self, at: At) -> bool
        ensures { result ≡ is_marked_at self.now at }
    {
        self.sight_of(at.atom).may_have(at.place)
    }

    /// What is seen of one atom: its marking, and of one that is not there that no place is marked.
    pub fn sight_of(&self, atom: u16) -> Seen
        ensures known { result.known ≡ true }
        ensures places { (at : At) → at.atom ≡ atom → has_bit result.places at.place ≡ is_marked_at self.now at }
    {
        let places = match self.states.get(usize::from(atom)) {
            Some(state) => state.places(),
            None => 0,
        };
        Seen {
            known: true,
            places,
        }
    }
}
