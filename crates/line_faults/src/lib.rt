//! The faults of a plant text, that of each line which has one.
//!
//! A plant text means a plant, or it has a fault: the first one, which `plant_text` finds. [`faults_of_text`] finds those after it too:
//! the line with the fault is made blank, and the text is read again. So a line with a fault counts as empty, and the other lines keep
//! their numbers.
//!
//! - Each fault is of a later line than the one before it, so a line has one at most. The last may be of no line.
//! - What a line with a fault would declare is not declared. So a line that names it has a fault too, since the name is not known there.
//!
//! In contracts a text is a list of bytes, and its faults are the list `faults_in` (`specs/Faults.antt`). It is defined by the meaning of
//! texts, `meaning` of `plant_text`, and by the text with a blank line, `without_line` (`specs/Blank.antt`).
//!
//! - `finding`: the faults of a text, one after the other ([`faults_of_text`]).
//! - `blanking`: a line of a text is made blank ([`blank_line`]).
//! - [`laws`]: what follows of the faults.
#![tactic(auto)]

mod blanking;
mod finding;
pub mod laws;

pub use blanking::blank_line;
pub use finding::{MOST_FAULTS, faults_of_text};
