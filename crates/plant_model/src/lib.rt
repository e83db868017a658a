//! What a plant is: its rules, its interactions, its states and its choices; what a choice delivers, and the state that it leaves.
//!
//! A [`System`] is a plant: atoms, wires, which are connectors with their guards and transfers, and priority rules. It keeps each rule of
//! a plant by its type ([`System::new`] answers the first rule that is broken), and has all of its interactions at hand. Contracts read
//! it by `plant_of`, as a `PlantDefinition` (`specs/Plant.antt`).
//!
//! A [`PlantState`] is a local state for each atom; contracts see it as that list. Which choices a state has is defined by
//! `specs/Choice.antt`: the crate above judges it. [`System::transfer`] and [`System::next`] are what a choice delivers and what it
//! leaves (`specs/Step.antt`). They take no memory.
//!
//! What a plant is:
//! - `wire`: connectors with their names, guards and transfers. `limits`: how large a plant may be.
//! - `system`: what a system keeps, how it is made, and what it lends. `rules`, `wire_rules`: the rules of a plant, as tests.
//!   `fault`: which of them is broken.
//! - `interaction`, `interactions`: the interactions of a connector, each with its ports in rising order of their atoms.
//! - `lookup`: connectors and atoms by their names, and the interaction of a connector and some atoms.
//! - `bound_expressions`, `delivery`, `bound_input`: guard clauses and transfers with their variables found. `bound_value`: the shortest way to the value of each:
//!   a copy of a variable (`variable_cell`), one operator (`bound_step`), or straight code (`row_code`) over its variables by their places in
//!   a row (`numbering`). `copy_row`: the transfers of a connector that only copy variables, in rows of those to one atom.
//! - `connector_rows`: the interactions of each connector, as a range of numbers and as sets by leaf and by guard clause.
//!   `connector_judge`: which of them are possible, all of them at once. `reach`: the leaves on each port, by rows, and the
//!   connectors whose guards can read an atom, so that a step judges only what it can change. `usual`: what the most usual firings change
//!   at the leaves of the connectors, so that a step looks it up. `ranks`: what is above the interactions of each connector: all of some
//!   connectors, heads that are above each, and a rest of each.
//!
//! Its states and its choices:
//! - `state`: a local state for each atom, and what is seen of it. `guards`: the values of variables, and whether guard clauses hold.
//! - `choice`: a choice, and the moves that it makes. `fired`: a choice with the values that come in, as it is kept. `transfers`: what a choice delivers. `firing`: the state that it leaves. `prefetch`: what a
//!   step needs is read before it is needed ([`System::prefetch`]).
//!
//! `laws`: what the definitions say of one another: what interactions, choices, steps and runs are.
//!
//! The lemmas (`proofs/*.antt`), each named for what it is about:
//! - Rules: `RuleFaults`, `TreeRules` (which fault is told, and what the early rules say of each wire), `RulesKept` (what a plant that
//!   breaks no rule keeps).
//! - Interactions: `Ports` (the ports of a mask), `OfInteractions` (what each is), `Noting` (sets of them, as they grow).
//! - Connectors: `ByConnector` (the range and the rows of a connector's interactions), `OfConnector` (an interaction is possible
//!   exactly where the rows say so), `JudgedWords` (a set made right word by word), `Reaching` (what stands on a port), `Ranking`,
//!   `RankTables` (how it is found where connectors stand), `Pushed`, `WordSets` (lists that grow, and words as sets), `WithoutLowest`,
//!   `BitsLeft` (a word without its lowest bit).
//! - What is found of names: `FirstFault`, `Found` (the first of a list, as a walk finds it), `Resolving`, `Guarding`, `Delivering` (guards
//!   and transfers with their variables found say what was written), `Copying` (rows of copies say what their transfers say).
//! - Choices: `Judging` (an atom and its state, by number), `Sighted` (what is seen of an atom), `Combinations`, `Membership`, `OfPorts`,
//!   `OfChoices`, `OwnAtoms`, `InOrder` (what each choice is, and how they stand), `NoDeadlock` (priorities lose no choice).
//! - What a choice leaves: `Initial`, `Stepping`, `FiringOfAll`, `ByAtom` (states, atom by atom), `PastExports` (nothing is delivered past
//!   the exports), `OnRuns` (runs).
//! - `Crossing`: what may go to another thread. `Rows`, `StepRows`, `RunRows`, `CountRows`, `ValueRows`: worked examples, computed.
#![tactic(auto)]

mod bound_expressions;
mod bound_input;
mod bound_step;
mod bound_value;
mod choice;
mod connector_judge;
mod connector_rows;
mod copy_row;
mod delivery;
mod fault;
mod fired;
mod firing;
mod guards;
mod inputs;
mod interaction;
mod interactions;
pub mod laws;
mod limits;
mod lookup;
mod numbering;
mod prefetch;
mod ranks;
mod reach;
mod row_code;
mod rules;
mod state;
mod system;
mod transfers;
mod usual;
mod variable_cell;
mod wire;
mod wire_rules;

pub use bound_expressions::BoundExpressions;
pub use choice::{Choice, Move, Moves, atoms_of};
pub use connector_rows::ConnectorRows;
pub use fault::{SystemFault, WireFault};
pub use fired::{Firing, Inputs};
pub use interaction::Interaction;
pub use interactions::connector_interactions;
pub use limits::{
    MAX_ATOMS, MAX_GUARDS, MAX_INPUTS, MAX_INTERACTIONS, MAX_RULES, MAX_TRANSFERS, MAX_WIRES,
    PORTS_IN_A_WORD,
};
pub use ranks::{Part, Rank, Ranks};
pub use reach::{ATOM_ROWS, ConnectorLeaf, PortReach, Reach, port_row};
pub use state::PlantState;
pub use system::{System, names_of};
pub use transfers::{no_deliveries, nothing_delivered};
pub use usual::{Put, Usual};
pub use wire::{Export, Input, Transfer, Wire};
