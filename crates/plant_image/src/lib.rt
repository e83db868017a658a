//! What an image of a device stands for.
//!
//! An *image* is what a stop leaves on a device: its size and its cells. One computed definition says what it stands for
//! (`specs/Standing.antt`): what the cells hold (`specs/Contents.antt`: the base, the newest saved state of each atom, the live
//! records), what may be wrong with them, in the order in which a restart looks for it (`specs/Faults.antt`), and the state that the
//! records lead to when each atom is replayed from its saved state. So an image stands for one state and one number at most.
//!
//! [`read_image`] reads it from the size and the loaded cells, with no device, in two steps: what the cells say ([`Held`]), and what that stands
//! for ([`Standing`]); or the first thing that is wrong ([`ImageFault`]). The laws argue each event of a durable plant once, on plain lists:
//! appending records of a run, saving a state of an atom, letting records go, cleaning; and what each of them leaves in the cells (`laws`).
//!
//! - `image`: the whole reading. `identity`, `bases`, `slots`, `records`: one kind of cell each. `bodies`: the body of one cell.
//!   `replaying`: where the records bring each atom. `counts`: how often each can have taken part. `parts`: which atoms have a part in which records.
//! - `standing`: what the cells say, and what they stand for. `fault`: why they stand for nothing. `laws`: what becomes of what an image stands
//!   for.
#![tactic(auto)]

mod bases;
mod bodies;
mod counts;
mod fault;
mod identity;
mod image;
pub mod laws;
mod parts;
mod records;
mod replaying;
mod slots;
mod standing;

pub use counts::MOST_AHEAD;
pub use fault::ImageFault;
pub use image::{judge_standing, read_cells, read_image};
pub use parts::parts_of;
pub use replaying::{Reached, replay_saved};
pub use standing::{Held, Standing};

// The cells of the device and the bodies that are read from them have one length.
const _: () = prove!(disk_model::BODY == record_codec::BODY);
