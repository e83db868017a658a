//! What the atoms of a plant offer: which transitions, and how many at each port, judged again for the atoms that changed alone.
ghost use Rattle.std.specs.Prelude.{◌≡◌, ℕ, ◌<◌, ◌≤◌, map, length, slice_index_or, slice_set};
ghost use Rattle.petri_atom.specs.Atom.{definition_of};
ghost use Rattle.petri_atom.specs.Behind.{movable_set};
ghost use Rattle.petri_atom.specs.Definition.{offered_set};
ghost use Rattle.plant_model.specs.declared.limits.TheConstants.{MAX_ATOMS};
ghost use Rattle.step_core.specs.EnabledTransitions.{count_at, AreOffered, AreMovable, AreCounted, IsFired};

use connector_tree::Port;
use petri_atom::{Atom, AtomState, MAX_PORTS, TransitionSet};
use plant_model::{MAX_ATOMS, PlantState, Usual};

/// What the atoms of a plant offer, by their numbers: the set of the offered transitions, and how many of them each port has.
#[derive(Drop)]
pub(crate) struct EnabledTransitions {
    pub(crate) sets: [TransitionSet; MAX_ATOMS],
    /// The transitions that the markings let move.
    pub(crate) movable: [TransitionSet; MAX_ATOMS],
    pub(crate) counts: [[u8; MAX_PORTS]; MAX_ATOMS],
}

impl EnabledTransitions {
    /// What the atoms offer in these states.
    pub(crate) fn of(atoms: &[Atom], states: &PlantState) -> Self
        requires few { length atoms.now ≤ MAX_ATOMS }
        requires as_many { length states.now ≡ length atoms.now }
        ensures offered { AreOffered (map definition_of atoms.now) states.now result.sets }
        ensures movable { AreMovable (map definition_of atoms.now) states.now result.movable }
        ensures counted { AreCounted (map definition_of atoms.now) result.sets result.counts }
    {
        let mut sets = [TransitionSet::empty(); MAX_ATOMS];
        let mut movable = [TransitionSet::empty(); MAX_ATOMS];
        let mut counts = [[0; MAX_PORTS]; MAX_ATOMS];
        for number in 0..atoms.len() {
            let atom = &atoms[number];
            let state = &states.states[number];
            let set = atom.offered(state);
            sets[number] = set;
            movable[number] = atom.movable_in(state);
            counts[number] = atom.counts_among(set);
        }
        EnabledTransitions {
            sets,
            movable,
            counts,
        }
    }

    /// The transitions that the atom with this number offers.
    pub(crate) fn set_of(&self, atom: u16) -> TransitionSet
        ensures { result ≡ slice_index_or self.now.sets atom 0 }
    {
        match self.sets.get(usize::from(atom)) {
            Some(set) => *set,
            None => TransitionSet::empty(),
        }
    }

    /// The same where there is such an atom.
    pub(crate) fn set_at(&self, atom: u16) -> TransitionSet
        requires { atom < length self.now.sets }
        ensures { result ≡ slice_index_or self.now.sets atom 0 }
    {
        self.sets[usize::from(atom)]
    }

    /// How many transitions the atom of the port offers there.
    pub(crate) fn count_at(&self, port: &Port) -> u8
        ensures { result ≡ count_at self.now.counts port.now.atom port.now.port }
    {
        match self.counts.get(usize::from(port.atom)) {
            Some(counts) => match counts.get(usize::from(port.port)) {
                Some(count) => *count,
                None => 0,
            },
            None => 0,
        }
    }

    /// Takes what the atom with this number offers behind a firing.
    pub(crate) fn take(&mut self, usual: &Usual, number: usize)
        requires { number < MAX_ATOMS }
        ensures sets { self.new.sets ≡ slice_set self.old.sets number usual.now.after }
        ensures movable { self.new.movable ≡ slice_set self.old.movable number usual.now.after }
        ensures counts { self.new.counts ≡ slice_set self.old.counts number usual.now.counts }
    {
        self.sets[number] = usual.after;
        self.movable[number] = usual.after;
        self.counts[number] = usual.counts;
    }

    /// Judges anew what the atom with this number offers.
    pub(crate) fn judge_one(&mut self, atom: &Atom, state: &AtomState, number: usize)
        requires { number < MAX_ATOMS }
        ensures sets { self.new.sets ≡ slice_set self.old.sets number (offered_set (definition_of atom.now) state.now) }
        ensures movable { self.new.movable ≡ slice_set self.old.movable number (movable_set (definition_of atom.now) state.now) }
        ensures counts { self.new.counts ≡ self.old.counts }
    {
        self.sets[number] = atom.offered(state);
        self.movable[number] = atom.movable_in(state);
    }

    /// Judges again what the atom with this number offers, which fired the transition; what is kept of it is right for the state before.
    pub(crate) fn judge_fired(
        &mut self,
        atom: &Atom,
        state: &AtomState,
        transition: u16,
        number: usize,
    )
        requires number { number < MAX_ATOMS }
        requires fired { IsFired (definition_of atom.now) transition state.now (slice_index_or self.old.sets number 0) (slice_index_or self.old.movable number 0) }
        ensures sets { self.new.sets ≡ slice_set self.old.sets number (offered_set (definition_of atom.now) state.now) }
        ensures movable { self.new.movable ≡ slice_set self.old.movable number (movable_set (definition_of atom.now) state.now) }
        ensures counts { self.new.counts ≡ self.old.counts }
    {
        let mut set = self.sets[number];
        atom.judge_behind(state, transition, &mut self.movable[number], &mut set);
        self.sets[number] = set;
    }
}
