//! The guard and the updates of a transition as straight code.
ghost use Rattle.std.specs.Prelude.{◌≡◌, ◌+◌, ◌<◌, ◌≤◌, IsTrue, IfOk, ℕ, List, length, map};
ghost use Rattle.std.specs.List.{list_all};
ghost use Rattle.petri_atom.specs.StraightCode.{AreChangesOf, AreCodesOf, IsCodeOf, IsTransitionCode, is_codable_transition, is_codable_update};
ghost use Rattle.petri_atom.specs.Definition.{UpdateDefinition, updated};
ghost use Rattle.petri_atom.specs.Expression.{Tree, is_true, tree_of, value_of};
ghost use Rattle.petri_atom.specs.Groups.{alike_set};
ghost use Rattle.petri_atom.specs.Local.{has, value_in};
ghost use Rattle.petri_atom.specs.Transition.{transition_of};
ghost use Rattle.petri_atom.specs.Update.{update_of};
ghost use Rattle.petri_atom.specs.declared.parts.TheConstants.{MAX_TRANSITIONS};

use crate::code::Code;
use crate::expression::Expression;
use crate::state::AtomState;
use crate::transition::{Transition, Update};
use std::alloc::{AllocError, Global};

/// An update as straight code.
#[derive(Drop)]
pub(crate) struct Change {
    variable: u8,
    value: Code,
}

/// The guard and the updates of a transition as straight code. The guard stands without the `!` before it, beside the set of all transitions
/// whose guard is the same but for these, so that it is judged once for all of them.
#[derive(Drop)]
pub(crate) struct TransitionCode {
    guard: Code,
    alike: u128,
    changes: Vec<Change>,
}

impl TransitionCode {
    /// The code of one of the transitions.
    fn of(
        alloc: Global,
        transition: &Transition,
        transitions: &[Transition],
    ) -> Result<Self, AllocError>
        requires few { length transitions.now ≤ MAX_TRANSITIONS }
        requires codable { IsTrue (is_codable_transition (transition_of transition.now)) }
        ensures { IfOk result (λ code. IsTransitionCode (map transition_of transitions.now) code (transition_of transition.now)) }
    {
        Ok(TransitionCode {
            guard: Code::of(alloc, transition.guard().bare())?,
            alike: alike_among(transitions, transition.guard()),
            changes: changes_of(alloc, transition.updates())?,
        })
    }

    /// Reads a word of what runs the updates ([`Atom::prefetch`](crate::Atom::prefetch)). A firing does not judge its own guard.
    pub(crate) fn prefetch(&self) -> u64 {
        match self.changes.as_slice() {
            [first, ..] => u64::from(first.variable) ^ first.value.prefetch(),
            [] => 0,
        }
    }

    /// Whether the guard is not 0 without the `!` before it.
    pub(crate) fn bare_holds(&self, state: &AtomState) -> bool
        ensures { (guard : Tree ℕ) → IsCodeOf self.now.guard guard → result ≡ is_true (value_of (value_in state.now.values) guard) }
    {
        self.guard.value(state) != 0
    }

    /// Which of the 64 transitions from the number `first` on have the same guard but for the `!` before it.
    pub(crate) fn alike_from(&self, first: usize) -> u64
        requires { first < MAX_TRANSITIONS }
        ensures { (n : ℕ) → n < 64 → has result n ≡ has self.now.alike (first + n) }
    {
        ((self.alike >> first) & u128::from(u64::MAX)) as u64
    }

    /// Runs the updates, in order.
    pub(crate) fn update(&self, state: &mut AtomState)
        ensures marking { state.new.marking ≡ state.old.marking }
        ensures values { (us : List UpdateDefinition) → AreChangesOf self.now.changes.items us → state.new.values ≡ updated us state.old.values }
    {
        for change in &self.changes {
            let value = change.value.value(state);
            state.assign(change.variable, value);
        }
    }
}

/// The set of the transitions whose guard is the same as this one, but for the `!` before both.
fn alike_among(transitions: &[Transition], guard: &Expression<u8>) -> u128
    requires { length transitions.now ≤ MAX_TRANSITIONS }
    ensures { result ≡ alike_set (tree_of guard.now) (map transition_of transitions.now) }
{
    let bare = guard.bare();
    let mut alike = 0;
    for (number, transition) in transitions.iter().enumerate() {
        alike |= u128::from(bare.same(transition.guard().bare())) << number;
    }
    alike
}

/// The code of each update.
fn changes_of(alloc: Global, updates: &[Update]) -> Result<Vec<Change>, AllocError>
    requires { IsTrue (list_all is_codable_update (map update_of updates.now)) }
    ensures { IfOk result (λ changes. AreChangesOf changes.items (map update_of updates.now)) }
{
    let mut changes = Vec::with_capacity(alloc, updates.len())?;
    for update in updates {
        changes.push(Change {
            variable: update.variable,
            value: Code::of(alloc, &update.value)?,
        })?;
    }
    Ok(changes)
}

/// The code of each transition.
pub(crate) fn codes_of(
    alloc: Global,
    transitions: &[Transition],
) -> Result<Vec<TransitionCode>, AllocError>
    requires few { length transitions.now ≤ MAX_TRANSITIONS }
    requires codable { IsTrue (list_all is_codable_transition (map transition_of transitions.now)) }
    ensures { IfOk result (λ codes. AreCodesOf codes.items (map transition_of transitions.now)) }
{
    let mut codes = Vec::with_capacity(alloc, transitions.len())?;
    for transition in transitions {
        codes.push(TransitionCode::of(alloc, transition, transitions)?)?;
    }
    Ok(codes)
}
