//! What a run of a plant is watched for.
//!
//! A [`Watch`] holds in a state of a plant or not: an expression over the variables and the places of all atoms, which holds where its value is
//! not 0, or that there is no choice. [`read_watch`] reads one from its words, by the reader of guards with other names. [`Watches`] are several, in
//! their order: a run that they watch ([`run_text::Watching`]) ends in the first state in which one of them holds.
//!
//! - `operand`: what an expression may name ([`Operand`]), and its value in a state. `naming`: the words that name operands.
//! - `joining`: `at ATOM PLACE` as one word. `watch`: one watch, and how it is read. `watches`: several.
//! - `fault`: why words are no watch.
#![tactic(auto)]

mod fault;
mod joining;
mod naming;
mod operand;
mod watch;
mod watches;

pub use fault::WatchFault;
pub use operand::Operand;
pub use watch::{Watch, read_watch};
pub use watches::Watches;
