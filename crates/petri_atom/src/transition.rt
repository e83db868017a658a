//! Transitions of an atom, and the updates that one makes.
ghost use Rattle.std.specs.Prelude.{◌≡◌, ◌&&◌, not, IsTrue, map};
ghost use Rattle.std.specs.List.{list_all};
ghost use Rattle.petri_atom.specs.Definition.{is_small_value, has_known_variables};
ghost use Rattle.petri_atom.specs.Local.{is_in, set_below, are_places, value_in};
ghost use Rattle.petri_atom.specs.Expression.{tree_of, is_true, value_of};
ghost use Rattle.petri_atom.specs.Update.{update_of};
ghost use Rattle.petri_atom.specs.declared.state.TheConstants.{MAX_PLACES};

use crate::expression::{Expression, Valuation};
use crate::marking::word_of;
use crate::parts::{MAX_UPDATES, are_below, numbers_stand_once};
use crate::state::{AtomState, MAX_PLACES};

/// An update: the variable with this number gets the value of the expression.
#[derive(Drop)]
pub struct Update {
    pub variable: u8,
    pub value: Expression<u8>,
}

/// A transition of an atom.
///
/// Beside its lists of places it keeps each as a machine word, so that a test of a marking is two operations.
#[derive(Drop)]
pub struct Transition {
    pub(crate) port: u16,
    pub(crate) sources: Vec<u8>,
    pub(crate) targets: Vec<u8>,
    pub(crate) guard: Expression<u8>,
    pub(crate) updates: Vec<Update>,
    pub(crate) source_word: u64,
    pub(crate) target_word: u64,
    pub(crate) blocking_word: u64,
    ghost sources_are_places: { IsTrue (are_places sources.items) },
    ghost targets_are_places: { IsTrue (are_places targets.items) },
    ghost source_bits: { source_word ≡ set_below MAX_PLACES (is_in sources.items) },
    ghost target_bits: { target_word ≡ set_below MAX_PLACES (is_in targets.items) },
    ghost blocking_bits: { blocking_word ≡ set_below MAX_PLACES (λ p. is_in targets.items p && not (is_in sources.items p)) },
}

impl Transition {
    ghost use Rattle.petri_atom.specs.Transition.{transition_of, transition_by};

    /// A transition of the port, with its places by number.
    pub fn new(
        port: u16,
        sources: Vec<u8>,
        targets: Vec<u8>,
        guard: Expression<u8>,
        updates: Vec<Update>,
    ) -> Self
        requires sources { IsTrue (are_places sources.items) }
        requires targets { IsTrue (are_places targets.items) }
        ensures { transition_of result ≡ transition_by port sources.items targets.items guard updates.items }
    {
        let source_word = word_of(&sources);
        let target_word = word_of(&targets);
        Transition {
            port,
            sources,
            targets,
            guard,
            updates,
            source_word,
            target_word,
            blocking_word: target_word & !source_word,
        }
    }
}

impl Transition {
    ghost use Rattle.petri_atom.specs.Definition.{can_move, offers};
    ghost use Rattle.petri_atom.specs.Transition.{transition_of};

    /// The number of the transition's port.
    pub fn port(&self) -> u16
        ensures { result ≡ (transition_of self.now).port }
    {
        self.port
    }

    /// The numbers of the places that the transition takes its tokens from.
    pub fn sources(&self) -> &[u8]
        ensures { result.now ≡ (transition_of self.now).sources }
    {
        &self.sources
    }

    /// The numbers of the places that the transition puts its tokens to.
    pub fn targets(&self) -> &[u8]
        ensures { result.now ≡ (transition_of self.now).targets }
    {
        &self.targets
    }

    /// The guard: the transition is offered only if its value is not 0.
    pub fn guard(&self) -> &Expression<u8>
        ensures { tree_of result.now ≡ (transition_of self.now).guard }
    {
        &self.guard
    }

    /// The updates, in the order in which they run.
    pub fn updates(&self) -> &[Update]
        ensures { map update_of result.now ≡ (transition_of self.now).updates }
    {
        &self.updates
    }

    /// Whether a marking lets the transition move: all its sources are marked, and no target that is no source.
    pub(crate) fn can_move(&self, marking: u64) -> bool
        ensures { result ≡ can_move marking (transition_of self.now) }
    {
        (marking & self.source_word == self.source_word) & (marking & self.blocking_word == 0)
    }

    /// Whether the guard of the transition is not 0.
    pub(crate) fn guard_holds(&self, state: &AtomState) -> bool
        ensures { result ≡ is_true (value_of (value_in state.now.values) (transition_of self.now).guard) }
    {
        self.guard.value(state) != 0
    }

    /// Whether the state offers the transition.
    pub fn is_offered(&self, state: &AtomState) -> bool
        ensures { result ≡ offers state.now (transition_of self.now) }
    {
        self.can_move(state.places()) && self.guard_holds(state)
    }
}

/// Whether each update's expression is within the limit of words.
fn are_small(updates: &[Update]) -> bool
    ensures { result ≡ list_all (λ u. is_small_value (update_of u)) updates.now }
{
    updates.iter().all(|update| update.value.is_small())
}

/// Whether each update speaks of variables below the bound alone.
fn have_variables_below(bound: usize, updates: &[Update]) -> bool
    ensures { result ≡ list_all (λ u. has_known_variables bound (update_of u)) updates.now }
{
    updates.iter().all(|update| (usize::from(update.variable) < bound)
        & update.value.has_variables_below(bound))
}

impl Transition {
    ghost use Rattle.petri_atom.specs.Transition.{transition_of};
    ghost use Rattle.petri_atom.specs.Definition.{is_small_transition, has_known_numbers_in, has_each_place_once, has_source_and_target};

    /// Whether the transition is within the limits of updates and words.
    pub(crate) fn is_small(&self) -> bool
        ensures { result ≡ is_small_transition (transition_of self.now) }
    {
        (self.updates.len() <= MAX_UPDATES) & self.guard.is_small() & are_small(&self.updates)
    }

    /// Whether no place stands twice among the sources, and none among the targets.
    pub(crate) fn has_each_place_once(&self) -> bool
        ensures { result ≡ has_each_place_once (transition_of self.now) }
    {
        numbers_stand_once(&self.sources) & numbers_stand_once(&self.targets)
    }

    /// Whether the port, the places and the variables that the transition names are there.
    pub(crate) fn has_known_numbers(&self, ports: usize, places: usize, variables: usize) -> bool
        ensures { result ≡ has_known_numbers_in ports places variables (transition_of self.now) }
    {
        (usize::from(self.port) < ports)
            & are_below(places, &self.sources)
            & are_below(places, &self.targets)
            & self.guard.has_variables_below(variables)
            & have_variables_below(variables, &self.updates)
    }

    /// Whether there is a source and a target.
    pub(crate) fn has_source_and_target(&self) -> bool
        ensures { result ≡ has_source_and_target (transition_of self.now) }
    {
        (0 < self.sources.len()) & (0 < self.targets.len())
    }
}
