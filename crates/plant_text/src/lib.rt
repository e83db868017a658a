//! Reading a whole plant text: from its bytes to the [`System`](plant_model::System) that it describes.
//!
//! A plant text is a list of lines, numbered from 1. Its first word says what a line adds to the plant so far:
//!
//! | Line | Adds |
//! |---|---|
//! | `atom NAME` | an atom, the 64th at most |
//! | `place ..`, `var ..`, `port ..`, `trans ..` | a part of the latest atom, as `atom_lines` reads it |
//! | `connector NAME TREE` | a connector, the 64th at most, whose tree `connector_lines` reads over ports of the atoms so far |
//! | `guard ..`, `move ..` | a part of the latest connector, as `connector_lines` reads it |
//! | `prio ..`, `maximal ..` | a priority rule over the connectors and atoms so far, the 1,024th at most, as `connector_lines` reads it |
//!
//! Parts of the latest atom may stand after lines of connectors. Empty lines and comments say nothing, and count as
//! lines. Each byte must be printed ASCII, a space or a tab, also in a comment.
//!
//! What a text means is one definition, `meaning` (`specs/Meaning.antt`): the plant as it was written, or the first line
//! with a fault. It applies a row for each kind of line (`specs/Rows.antt`) to the plant so far, line by line. A connector
//! is written as the tokens of its tree, and `text_of` (`specs/Text.antt`) says how a plant is written. No two plants are
//! written alike, so a text means one plant: [`read_plant`] and [`plant_of_text`] give a system of that plant, with the
//! SHA-256 of the text as its digest.
//!
//! - A fault ([`PlantFault`]) is the one of the text's meaning, or want of memory, or that the reader failed. Within a
//!   line the first word from the left that is at fault is the one found, and a word with an illegal byte is at fault; one atom, connector or
//!   rule too many before all else; a connector with too many interactions after all its words.
//! - That the rules put an interaction below itself is found after all lines, at no line.
//!
//! - `read`: a text, from its lines to its system ([`read_plant`], [`plant_of_text`]).
//! - `draft`: the plant so far, and its lines.
//! - `making`: the system of a draft.
//! - `parts`: an atom, changed by a line.
//! - `listed`: a connector with its interactions.
//! - `names`: the atoms by the names that connectors and conditions use.
//! - `wires`: the connectors by the names that rules use.
//! - `fault`: what is wrong with a text ([`Fault`], [`PlantFault`]).
//! - `marks`: where in its line a fault is ([`Mark`], [`find_mark`]).
//! - [`laws`]: what follows of the meaning.
#![tactic(auto)]

mod draft;
mod fault;
pub mod laws;
mod listed;
mod making;
mod marks;
mod names;
mod parts;
mod read;
mod wires;

pub use fault::{Fault, PlantFault};
pub use marks::{Mark, find_mark};
pub use read::{plant_of_text, read_plant};
