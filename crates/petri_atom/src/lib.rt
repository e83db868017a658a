//! Atoms: one-safe Petri nets with variables and ports.
//!
//! An [`Atom`] has places, variables, ports and transitions, each numbered from 0. It keeps each rule of an
//! atom by its type: [`Atom::new`] refuses parts that break one. Its model is what was written
//! (`specs/Definition.antt`), and contracts read it by `definition_of`.
//!
//! An [`AtomState`] is a local state: contracts see it as a set of marked places and a list of values
//! (`specs/Local.antt`). A state offers a transition if its sources are marked, no target that is no
//! source is, and its guard is not 0. Firing one assigns the values that are delivered to its port's
//! exported variables, runs its updates in order, and moves the marking.
//!
//! - `atom`: an atom, made of its parts; its first state, what its ports export, and what firing a transition leaves
//!   ([`Atom::apply`]).
//! - `name`, `parts`, `transition`: what an atom is made of. A transition keeps its places as machine words
//!   too, so that a test of a marking is two operations; that they are those sets is kept by its type.
//! - `expression`: expressions over any kind of variable, and their values.
//! - `code`, `operation`, `coding`: the same as straight code, what its steps do, and how it is made. `transition_code`: that of a transition's guard and updates, and the
//!   transitions whose guard is the same, so that it is judged once for all of them.
//! - `state`: local states, and what is delivered to one.
//! - `offered`: the offered transitions of a state as one set, which is then counted and picked from, by one port or by all
//!   ([`Atom::offered`], [`Atom::first_enabled`]).
//! - `groups`: the transitions that ask the same of a marking, so that it is tested once for all of them.
//! - `behind`: what a firing of each transition changes, so that behind one the sets of a state are brought up to date, and not made
//!   again ([`Atom::judge_behind`], [`Atom::is_quiet`]).
//! - `prefetch`: what a firing needs is read before it is needed ([`Atom::prefetch`]).
//! - `settled`: what is offered where a marking alone decides it ([`Atom::settled_at`]).
//! - `arcs`, `exports`: the places and the port of each transition in a small row, with what the port exports: a step reads no more of it.
//! - `moving`: the transitions of a set that a marking lets move.
//! - `marking`: lists of places as machine words.
//! - `rules`: the rules that the parts keep, as tests. `fault`: which kind of rule is broken.
//! - `same`: whether two parts are the same.
//! - `laws`: what the definitions say of one another.
//!
//! After an atom is made, nothing here takes memory, and nothing can fail.
#![tactic(auto)]

mod arcs;
mod atom;
mod behind;
mod code;
mod coding;
mod exports;
mod expression;
mod fault;
mod groups;
pub mod laws;
mod marking;
mod moving;
mod name;
mod offered;
mod operation;
mod parts;
mod prefetch;
mod rules;
mod same;
mod settled;
mod state;
mod transition;
mod transition_code;

pub use atom::Atom;
pub use code::Code;
pub use expression::{Expression, Operator, Valuation, VariableTest};
pub use fault::AtomFault;
pub use name::{MAX_NAME, Name, is_name, is_reserved};
pub use offered::TransitionSet;
pub use parts::{MAX_PORTS, MAX_TRANSITIONS, MAX_UPDATES, MAX_WORDS, Place, Port, Variable};
pub use state::{AtomState, Delivered, MAX_EXPORTS, MAX_PLACES, MAX_VARIABLES};
pub use transition::{Transition, Update};
