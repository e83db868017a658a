//! The lines of a durable run.
//!
//! A script is a text with an event on each line: `fire P`, `flush`, `ask NAME`, `put NAME`, `save`, `trim`, `begin P` or `back NAME`, where P picks a
//! choice and NAME is that of an atom; after `fire` a choice may stand as a fired line names it, as `fire send A.t/0 B.u/0`. [`read_script`] turns it into events, [`run_script`] asks them of a [`Plant`](plant_core::Plant), one
//! after another, and prints what happened: a line for each answer, and at the end a line for the state of each atom and one that says how
//! far the plant is. A state that is asked for is kept in the hand of its atom until it is put, and so is a job that is begun until it is back.
//!
//! What a script means for a plant is one definition, `script_meaning` (`specs/Script.antt`), what is printed is `happened_line` and
//! `standing_text` (`specs/Answers.antt`), and what a run is stands in `specs/Runs.antt`. Contracts say that exactly these bytes were
//! appended to a writer, if its type says which bytes it took; they say nothing of when a writer fails, nor of when it is flushed.
//!
//! - `script`: a script, line by line. `line`: what one line says. `mistake`, `mistake_text`: what is wrong with one, and what is said
//!   of it. `explanation`: where it stands. `fault`: why a script is refused. `atoms`: the names of atoms, by their numbers.
//! - `answers`: the lines of answers, refusals and fronts. `standing`: where a plant stands.
//! - `run`: the events of a script, asked and answered. `strict`: the same up to the first refusal.
//!
//! Memory is taken only for the events of a script. A run takes none.
#![tactic(auto)]

mod answers;
mod atoms;
mod explanation;
mod fault;
mod line;
mod mistake;
mod mistake_text;
mod run;
mod script;
mod standing;
mod strict;

pub use answers::{print_front, print_happened, refused_name};
pub use atoms::atom_name;
pub use explanation::{column_of_mistake, line_with, print_placed_mistake};
pub use fault::ScriptFault;
pub use line::{ScriptLine, read_line};
pub use mistake::{Mistake, Wrong};
pub use mistake_text::{print_mistake, print_of_word, word_in};
pub use run::{answer, has_failed, run_script};
pub use script::{line_of_event, read_script};
pub use standing::print_standing;
pub use strict::{Refusal, Stop, run_strictly};
