//! A run in numbers.
//!
//! A [`Summary`] is a [`run_text::Telling`] that prints nothing: it counts. Of all that it was told of, in one run or in several, it has how many
//! interactions were fired, how often each connector was, how often each transition moved, and the least and the greatest value of each
//! variable, of the first one and of those after each move of its atom. `specs/Totals.antt` says what these are, by the history of the runs.
//! [`Summary::print_summary`] prints them, and what never came; `specs/Lines.antt` defines its text.
//!
//! - `summary`: the summary of a plant. `atom_summary`: that of an atom. `moves`: the moves of what is fired.
//! - `counts`: how often numbers came. `bounds`: the least and the greatest of values.
//! - `listing`: the lines of parts that are counted. `connectors`, `transitions`, `variables`: the lines of each.
//!
//! Memory is taken only to make a summary.
#![tactic(auto)]

mod atom_summary;
mod bounds;
mod connectors;
mod counts;
mod listing;
mod moves;
mod summary;
mod transitions;
mod variables;

pub use summary::Summary;
