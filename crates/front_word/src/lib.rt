//! How far a plant is, in one word that threads read without waiting.
//!
//! A history is a list of entries, each with the front after it. One pass publishes: it adds an entry, and stores the front after it in the
//! word. Other passes watch: a read gives a front that was published, of a history that begins with all that the pass has read or was told.
//!
//! - `passes`: the pass that publishes, and those that watch. `word`: the word and its four kinds of step. `packing`: a front as one number.
//! - `front`: entries, and what the word can hold. `naming`: which word it is. `knowing`: what a pass knows, and the rule that ties it to the word.
#![tactic(auto)]

mod front;
mod knowing;
mod naming;
mod packing;
mod passes;
mod word;

pub use front::{Fronted, MOST_FIRED, RECORD_SPAN, UNACKED_SPAN};
pub use knowing::{Known, Rising};
pub use naming::WordNaming;
pub use passes::{Publisher, Watch};
pub use word::{FrontWord, Unnamed};
