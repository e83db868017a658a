//! Which records of the ring may go: those that no restart needs any more.
//!
//! A record numbers each participant's firing: 5 is the atom's fifth. The newest snapshot of an atom says after how many of its
//! firings it was made. A record is *covered* if the newest snapshot of each participant was made after its firing: then a restart
//! passes the record over. Records go from the front alone, so what may go is the longest front of covered records
//! (`specs/Covered.antt`). A record that one slow atom still needs keeps all that come after it.
//!
//! - `mark`: what the trimmer knows of a record, its number and its participants' firings. `saved`: what it knows of a snapshot.
//! - `covered`: how many records may go, and which atoms keep the others. `laws`: that they are the longest front of covered ones.
//!
//! Nothing takes memory, and nothing can fail.
#![tactic(auto)]

mod covered;
pub mod laws;
mod mark;
mod saved;

pub use covered::{cut, is_covered, is_held_by};
pub use mark::{MOST_PARTICIPANTS, Mark, Participation};
pub use saved::SavedAt;
