//! Where a durable plant begins: formatting a device for it, booting it from a device, after any stop, and bringing an image of the first
//! layout over to a new device.
//!
//! [`format`] makes of a device one that stands for the first state of a plant. [`boot`] reads a device, judges what it holds, replays
//! each atom from its newest saved state, empties the record cells that are not live, and gives the plant that the device stands for.
//! [`boot_par`] gives the same plant, with the atoms replayed by several workers at once. [`migrate`] reads a device of the first layout
//! by the same reading, and makes of a new device one that stands for the same. All take memory before they write anything.
//!
//! A boot reads in three steps, and each step has one type. What the cells say is `plant_image::Held`. What they stand for is
//! `plant_image::Standing`: either step may end with what is wrong (`plant_image::ImageFault`). What the plant is made of is `plant_core::Parts`.
//! Before the first step the cells are loaded; after the last one the cells that are not live are emptied. [`migrate`] takes the first two.
//!
//! A plant lives from boot to boot: each begins with what a stop left of the one before. What that comes to, however many stops there are
//! and wherever they fall, is the law `laws::lifetimes`.
//!
//! - `formatting`, `booting`, `migrating`: the calls. `writing`: writing any state of a plant afresh.
//! - `loading`: loading the cells of a device, and judging what they stand for. `reading`: the cells of a device of either layout, read as
//!   today's. `old_image`: judging a device of the first layout.
//! - `fault`: why a device is refused; it is always handed back. `laws`: what the life of a plant comes to.
#![tactic(auto)]

mod booting;
mod fault;
mod formatting;
pub mod laws;
mod loading;
mod migrating;
mod old_image;
mod reading;
mod writing;

pub use booting::{boot, boot_par};
pub use fault::{BootFault, BootRefused, FormatFault, FormatRefused, MigrateFault, MigrateRefused};
pub use formatting::format;
pub use migrating::migrate;
pub use parallel_replay::{MOST_WORKERS, Quiet, Turn};
