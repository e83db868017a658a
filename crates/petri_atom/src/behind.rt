//! What firing each transition changes of what a marking lets move and of what guards say: a table, made once, so that a step judges
//! again only what a firing may have changed.
ghost use Rattle.std.specs.Prelude.{◌≡◌, ℕ, ◌≤◌, ◌<◌, ◌||◌, ◌&&◌, ◌==◌, not, false, IsTrue, IfOk, length, map};
ghost use Rattle.petri_atom.specs.Local.{has, is_in};
ghost use Rattle.petri_atom.specs.Behind.{AreBehind, AreWritten, HasEffect, IsBehind, exports_in, is_effect, may_write};
ghost use Rattle.petri_atom.specs.Parts.{port_of};
ghost use Rattle.petri_atom.specs.Transition.{transition_of};
ghost use Rattle.petri_atom.specs.Update.{update_of};
ghost use Rattle.petri_atom.specs.declared.parts.TheConstants.{MAX_TRANSITIONS};
ghost use Rattle.petri_atom.specs.declared.behind.Effect.TheVariants.{Keeps, Makes, Asks};

use crate::expression::VariableTest;
use crate::parts::Port;
use crate::state::MAX_VARIABLES;
use crate::transition::{Transition, Update};
use std::alloc::{AllocError, Global};

/// What a firing of one transition does to another one.
#[derive(Clone, Copy, PartialEq, Eq, Drop)]
enum Effect {
    /// The other one can move after it exactly if it could before.
    Keeps,
    /// The other one can move after it.
    Makes,
    /// The other one cannot move after it.
    Stops,
    /// Only the marking after it tells.
    Asks,
}

/// What a firing of one transition does to all: each field is a set of transitions. One that is in none of the first three cannot move
/// after it.
#[derive(Clone, Copy, Drop)]
pub(crate) struct Behind {
    /// Those that can move after it exactly if they could before.
    pub(crate) keep: u128,
    /// Those that can move after it, whatever was marked.
    pub(crate) make: u128,
    /// Those of which only the marking after it tells.
    pub(crate) ask: u128,
    /// Those whose guard may read what it writes.
    pub(crate) again: u128,
    /// Whether nothing that is offered changes.
    pub(crate) is_quiet: bool,
}

/// What firing each of the transitions does to all of them.
pub(crate) fn all_behind(
    alloc: Global,
    ports: &[Port],
    transitions: &[Transition],
) -> Result<Vec<Behind>, AllocError>
    requires { length transitions.now ≤ MAX_TRANSITIONS }
    ensures { IfOk result (λ all. AreBehind (map port_of ports.now) (map transition_of transitions.now) all.items) }
{
    let mut all = Vec::with_capacity(alloc, transitions.len())?;
    for fired in transitions {
        all.push(behind_one(ports, transitions, fired))?;
    }
    Ok(all)
}

/// What firing one transition does to all.
fn behind_one(ports: &[Port], transitions: &[Transition], fired: &Transition) -> Behind
    requires { length transitions.now ≤ MAX_TRANSITIONS }
    ensures { IsBehind (map transition_of transitions.now) (length transitions.now) (transition_of fired.now) (exports_in (map port_of ports.now) (transition_of fired.now).port) result }
{
    match ports.get(usize::from(fired.port())) {
        Some(port) => behind_of(transitions, fired, &port.exports),
        None => behind_of(transitions, fired, &[]),
    }
}

/// What firing one transition, whose port exports these variables, does to all.
fn behind_of(transitions: &[Transition], fired: &Transition, exports: &[u8]) -> Behind
    requires { length transitions.now ≤ MAX_TRANSITIONS }
    ensures { IsBehind (map transition_of transitions.now) (length transitions.now) (transition_of fired.now) exports.now result }
{
    let written = Written::by(&fired.updates, exports);
    let mut told = Behind::nothing();
    for (number, other) in transitions.iter().enumerate() {
        let is_unread = other.guard().all_variables(&written);
        told.tell(number, effect_on(fired, other), is_unread);
    }
    told
}

impl Behind {
    /// What nothing was told of yet.
    fn nothing() -> Self
        ensures none { (n : ℕ) → (has result.keep n || has result.make n || has result.ask n || has result.again n) ≡ false }
        ensures quiet { IsTrue result.is_quiet }
    {
        Behind {
            keep: 0,
            make: 0,
            ask: 0,
            again: 0,
            is_quiet: true,
        }
    }

    /// Tells of one more transition what the firing does to it, and whether its guard reads nothing that is written.
    fn tell(&mut self, number: usize, effect: Effect, is_unread: bool)
        requires { number < MAX_TRANSITIONS }
        ensures keep { (n : ℕ) → has self.new.keep n ≡ (has self.old.keep n || n == number && is_effect Keeps effect) }
        ensures make { (n : ℕ) → has self.new.make n ≡ (has self.old.make n || n == number && is_effect Makes effect) }
        ensures ask { (n : ℕ) → has self.new.ask n ≡ (has self.old.ask n || n == number && is_effect Asks effect) }
        ensures again { (n : ℕ) → has self.new.again n ≡ (has self.old.again n || n == number && not is_unread) }
        ensures quiet { self.new.is_quiet ≡ (self.old.is_quiet && is_effect Keeps effect && is_unread) }
    {
        let keeps = effect == Effect::Keeps;
        self.keep |= u128::from(keeps) << number;
        self.make |= u128::from(effect == Effect::Makes) << number;
        self.ask |= u128::from(effect == Effect::Asks) << number;
        self.again |= u128::from(!is_unread) << number;
        self.is_quiet = self.is_quiet & keeps & is_unread;
    }
}

/// What a firing of one transition does to another one.
fn effect_on(fired: &Transition, other: &Transition) -> Effect
    ensures { HasEffect result (transition_of fired.now) (transition_of other.now) }
{
    let gone = fired.source_word & !fired.target_word;
    let places = other.source_word | other.target_word;
    if (other.source_word & gone) | (other.blocking_word & fired.target_word) != 0 {
        Effect::Stops
    } else if places & (gone | fired.blocking_word) == 0 {
        Effect::Keeps
    } else if places & !(fired.source_word | fired.target_word) == 0 {
        Effect::Makes
    } else {
        Effect::Asks
    }
}

/// Variables that a firing writes, as a word: bit k stands for variable k. A number that no atom has room for shares its bit with another,
/// so that at most more is judged again.
#[derive(Drop)]
struct Written {
    word: u16,
}

impl Written {
    /// The variables that the updates write or that a port exports.
    fn by(updates: &[Update], exports: &[u8]) -> Self
        ensures { AreWritten result.word (map update_of updates.now) exports.now }
    {
        let mut written = Written { word: 0 };
        for update in updates {
            written.add(update.variable);
        }
        written.add_all(exports);
        written
    }

    /// Puts the variables into the word.
    fn add_all(&mut self, variables: &[u8])
        ensures kept { (v : ℕ) → may_write self.new.word v ≡ false → may_write self.old.word v ≡ false }
        ensures added { (v : ℕ) → may_write self.new.word v ≡ false → is_in variables.now v ≡ false }
    {
        for variable in variables {
            self.add(*variable);
        }
    }

    /// Puts the variable into the word.
    fn add(&mut self, variable: u8)
        ensures kept { (v : ℕ) → may_write self.new.word v ≡ false → may_write self.old.word v ≡ false }
        ensures added { (v : ℕ) → may_write self.new.word v ≡ false → (variable == v) ≡ false }
    {
        self.word |= 1u16 << (usize::from(variable) % MAX_VARIABLES);
    }
}

impl VariableTest<u8> for Written {
    ghost use Rattle.std.specs.Prelude.{not};
    ghost use Rattle.petri_atom.specs.Behind.{may_write};

    ghost passes = { λ written variable. not (may_write written.word variable) };

    fn passes(&self, variable: &u8) -> bool {
        (self.word >> (usize::from(*variable) % MAX_VARIABLES)) & 1 == 0
    }
}
