//! The parts of a plant, as its text writes them.
//!
//! What prints or draws a plant writes an expression, a connector's tree or a priority rule in the words of the plant text. This
//! crate prints these words. `specs/` defines them, and each contract says that exactly they were appended to a writer, where its
//! type says which bytes it took; none says when a writer fails.
//!
//! | Part of the plant | Is written as | By |
//! |---|---|---|
//! | an expression | prefix form: `&& <= n -3 ! m` | [`print_expression`] |
//! | a variable of an atom | its name: `n` | [`Variables`] |
//! | a variable that a connector's leaf exports | the names of its atom and its own: `A.n` | [`Exports`] |
//! | a connector's tree | its words, with a space before each: ` A.t' [ B.u C.v ]'` | [`print_words`] |
//! | a port | the names of its atom and its own: `A.t` | [`print_port`] |
//! | a priority rule | `prio LEFT < RIGHT`, or with ` when ATOM at PLACE` after it, or `maximal NAME` | [`print_rule`] |
//! | its two sides | `LEFT < RIGHT`, each `NAME` or `NAME:MASK` | [`print_sides`] |
//! | its condition | ` when ATOM at PLACE` | [`print_condition`] |
//!
//! What is not there (an atom, a leaf, a connector) has no name: nothing is printed in its place.
//!
//! For lines that are broken between two words, [`Names::name_length`] and [`port_length`] say how many bytes a word has before it is
//! printed.
//!
//! - `expression`: the words of expressions over named variables, and whether one is the number 1.
//! - `names`: how the variables of an atom are named, and those that a connector's leaves export.
//! - `leaf`: the leaf of a connector with a number.
//! - `words`: the words of a tree, and a port.
//! - `rule`: a priority rule, its sides and its condition; the name of a place.
//!
//! Nothing here takes memory.
#![tactic(auto)]

mod expression;
mod leaf;
mod names;
mod rule;
mod words;

pub use expression::{is_one, operator_word, print_expression};
pub use leaf::leaf_at;
pub use names::{Exports, Names, Variables};
pub use rule::{place_name, print_condition, print_rule, print_sides};
pub use words::{port_length, print_port, print_words};
