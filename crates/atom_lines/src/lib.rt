//! The lines of a plant text that describe one atom, each applied to the atom so far.
//!
//! An [`AtomDraft`] is an atom with a name, to which lines add parts in written order. A layer above cuts a
//! line into words, reads its first word, knows by it which kind of part the line adds, and hands on the words
//! after it.
//!
//! | Line | Adds | By |
//! |---|---|---|
//! | `place NAME`, `place NAME init` | a place, marked at first with `init` | [`AtomDraft::add_place`] |
//! | `var NAME INT` | a variable with its first value | [`AtomDraft::add_variable`] |
//! | `port NAME VAR..` | a port that exports 0 to 4 different variables | [`AtomDraft::add_port`] |
//! | `trans PORT from PLACE.. to PLACE..` | a transition, with one place at least in each list, and none twice in one | [`AtomDraft::add_transition`] |
//! | .. followed by `when EXPR` | its guard; without it 1 | |
//! | .. followed by `do VAR := EXPR ; VAR := EXPR ..` | its updates, after the guard where both stand | |
//!
//! What a line makes of the atom, or which fault it has, is one definition for each kind (`specs/Rows.antt`,
//! `specs/Transitions.antt`), on the words and the atom that `drafted` shows. A fault ([`plant_words::LineFault`]) is found at the first word from
//! the left that is at fault. Where a part would be one too many for the atom, that is the line's first word; where
//! a port would export one variable too many, it is that variable's word; where a transition would have one update
//! too many, it is the `;` before it. A refused line leaves the draft as it was. Want of memory is answered only of a line
//! without a fault: if a part of it is refused memory, the words after it are read on and the part isn't made.
//!
//! A name is declared where it is new, and has to be a [`petri_atom::Name`]. Where it is used, it is looked up alone: a
//! word that is no name is as unknown as one that no line declared, but the fault of one with an illegal byte is that byte. Places,
//! variables and ports may share names.
//!
//! Each line keeps the rules of an atom, so what was drafted is one at any time, also before any line: then
//! [`AtomDraft::into_atom`] fails only if memory runs out.
//!
//! Parts are found by their names: a place, a variable and a port by its number, and [`AtomDraft::find_export`] finds
//! a variable among those that a port exports.
//!
//! - `draft`: the atom so far, and its lines ([`AtomDraft`]).
//! - `lookup`: what a port exports, by the names of variables.
//! - `reading`: the steps of reading a line that other kinds of lines do not have; [`plant_words::reading`] has the others.
#![tactic(auto)]

mod draft;
mod lookup;
mod reading;

pub use draft::AtomDraft;
