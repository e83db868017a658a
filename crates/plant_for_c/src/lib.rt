//! The engine's calls as C gets them: each answers a [`Status`], and names atoms, connectors and choices by numbers that may be wrong.
//!
//! `kilnmace_c` exports them. What each does to the plant is said by the rules of `plant_core` (`specs/Fires.antt`, `specs/Puts.antt`). The device is C's: a plant stands on a
//! `QueuedDisk`, whose steps C performs.
//!
//! - `status`: what a call answers. `refusal`: the statuses of what the engine, the image and the text refuse.
//! - `naming`: parts by their numbers and names. `looking`: what a plant has. `firing`, `putting`: what is asked of it.
//! - `images`: the plant of a text, and its image. `thing`: what C holds.
#![tactic(auto)]

mod firing;
mod images;
mod looking;
mod naming;
mod putting;
mod refusal;
mod status;
mod thing;

pub use firing::{Unfired, fire_by_connector, fire_by_number};
pub use images::{QueuedPlant, image_bytes, new_image, read_system};
pub use looking::{Standing, choice_at, count_choices, standing_of};
pub use naming::{
    atom_at, atom_name, connector_name, place_name, place_named, variable_name, variable_named,
};
pub use putting::put_state;
pub use refusal::{Refusal, of_boot, of_format, of_image, of_plant, of_text};
pub use status::Status;
pub use thing::Thing;
