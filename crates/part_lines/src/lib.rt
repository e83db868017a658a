//! On which line of its text a part of a plant stands.
//!
//! In a plant text each part has a line of its own, whose first word is its keyword. So the line of atom k is the k-th line,
//! counted from 0, that begins with `atom`. The parts of an atom stand after its line and before that of the next atom: its
//! place p is on the p-th of these lines that begins with `place`. Guards and transfers stand so after the line of their
//! connector, and the rules, of both kinds, have their order in the whole text. Which word begins which line, and what belongs to
//! what, says [`LineKind`](plant_words::LineKind).
//!
//! A [`PartLines`] is made by one pass over the text. Contracts see it as a list with an entry for each line that adds a part:
//! its kind and the line's number (`specs/Table.antt`). Its calls look the line of a part up in this list (`specs/Lookup.antt`),
//! and answer `None` if the text has no such part. [`rule_lines`] gives the lines of the rules in order.
//!
//! The text need be no plant: only the first words of its lines are looked at, and a line of no kind is passed over.
//!
//! Lines and words are those of `plant_words`. Lines are numbered from 1. Memory is taken for the table alone.
//!
//! - `kind`: which kinds of lines are numbered together.
//! - `table`: the entries ([`PartLine`]) of a text, [`PartLines`], and [`rule_lines`].
//! - `lookup`: the calls of [`PartLines`], which look a part up.
#![tactic(auto)]

mod kind;
mod lookup;
mod table;

pub use table::{PartLine, PartLines, rule_lines};
