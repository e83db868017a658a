//! What a marking alone decides: where it lets no transition move whose guard is to be judged, the same are offered whatever the variables
//! hold.
ghost use Rattle.std.specs.Prelude.{◌≡◌, ℕ, pos, Some, length, replicate};
ghost use Rattle.petri_atom.specs.Local.{Local};
ghost use Rattle.petri_atom.specs.Behind.{movable_set};
ghost use Rattle.petri_atom.specs.Definition.{offered_set};
ghost use Rattle.petri_atom.specs.Settled.{offered_from, targets_of};

use crate::atom::Atom;
use crate::groups::movable;
use crate::offered::TransitionSet;
use crate::state::{AtomState, MAX_VARIABLES};

impl Atom {
    ghost use Rattle.petri_atom.specs.Atom.{definition_of};

    /// The transitions that can move, and are offered, wherever exactly these places are marked, if that alone decides it: whatever the
    /// variables hold.
    pub fn settled_at(&self, places: u64) -> Option<TransitionSet>
        ensures movable { (set : ℕ) → result ≡ Some set → (state : Local) → state.marking ≡ places → movable_set (definition_of self.now) state ≡ set }
        ensures offered { (set : ℕ) → result ≡ Some set → (state : Local) → state.marking ≡ places → offered_set (definition_of self.now) state ≡ set }
    {
        let movable = movable(&self.groups, places);
        if movable & !self.unguarded == 0 {
            Some(TransitionSet::of(movable))
        } else {
            None
        }
    }

    /// The places that are marked behind a firing of the transition where its sources alone were. No place of a transition that is not
    /// there.
    pub fn targets_of(&self, transition: u16) -> u64
        ensures { result ≡ targets_of (definition_of self.now) transition }
    {
        match self.arcs.get(usize::from(transition)) {
            Some(arcs) => arcs.targets,
            None => 0,
        }
    }

    /// What is offered where the transition's sources alone are marked and each variable is 0: most often that is what was offered before
    /// it fires. Nothing of a transition that is not there.
    pub fn offered_from(&self, transition: u16) -> TransitionSet
        ensures { result ≡ offered_from (definition_of self.now) transition }
    {
        match self.transitions.get(usize::from(transition)) {
            Some(fired) => self.offered(&self.bare_state(fired.source_word)),
            None => TransitionSet::empty(),
        }
    }

    /// The state with these marked places in which each variable is 0.
    fn bare_state(&self, places: u64) -> AtomState
        ensures marking { result.marking ≡ places }
        ensures values { result.values ≡ replicate (length (definition_of self.now).variables) (pos 0) }
    {
        AtomState::of(places, self.variables().len() as u8, [0; MAX_VARIABLES])
    }
}
