//! The replay of a restart, by several workers at once.
//!
//! [`read_image_by`] says what an image stands for, word for word as `plant_image::read_image` does. The atoms are dealt out to the workers by
//! their numbers. Each worker replays its atoms, each by itself from the list of live records, in a thread of its own if one can be made;
//! if none can, the workers go one after another. What they find is gathered in the order of the atoms, so that no order in which threads
//! run is ever seen.
//!
//! - `turn`: who is told when the replay of an atom begins. `share`: what one worker replays. `gathering`: what comes of all shares.
//!   `workers`: the threads.
#![tactic(auto)]

mod gathering;
mod share;
mod turn;
mod workers;

pub use turn::{Quiet, Turn};
pub use workers::{MOST_WORKERS, read_image_by};
