//! What can be told of an image by reading alone.
//!
//! [`inspect_image`] reads the cells of a device and prints what they say: for which plant the image was formatted, which records are live,
//! what is saved of each atom and which records that holds, what a boot would answer, and what it would pass over without a word. Of a
//! damaged image it tells all that can be read. It is generic over [`ReadCells`], which has no call that writes or syncs: so nothing can be
//! written, whatever the device.
//!
//! What is printed is one definition, `inspection_text` (`specs/Lines.antt`). It is composed of what the cells hold (`contents_of` of
//! `plant_image`), of which records an atom holds (`specs/Holding.antt`, by `trimmer`), of the full cells past the end (`specs/Open.antt`), and
//! of what a boot would answer (`specs/Verdicts.antt`, by `fault_of` of `plant_image`) and where in the image that is (`specs/Places.antt`).
//! No more cells are read than an image has at most; the fault that is told of a plant is still what a boot of it answers by all cells.
//!
//! Contracts say that exactly this text was appended to a writer, if its type says which bytes it took. They say nothing of when a writer or
//! the memory fails, nor of when a writer is flushed.
//!
//! - `inspecting`: the command. `reading`: cells that can only be read. `shown`: what is asked for. `ending`: why an inspection ends early.
//! - `contents`: what the cells hold, whether or not something is wrong with them. `bodies`: the body of one cell.
//! - `judging`: what a boot would answer. `bare`: what is wrong whatever the plant. `verdict`: what an inspection comes to.
//! - `naming`: by which plant atoms are named. `lines`: the lines of an image. `listing`: the live records and the slots, where these are asked
//!   for. `holding`: which records an atom holds. `open`: full cells past the end. `places`: the line of a refusal.
//!   `reason`: what more is told of one.
//!
//! Memory is taken before anything is printed.
#![tactic(auto)]

mod bare;
mod bodies;
mod contents;
mod ending;
mod holding;
mod inspecting;
mod judging;
mod lines;
mod listing;
mod naming;
mod open;
mod places;
mod reading;
mod reason;
mod shown;
mod verdict;

pub use ending::InspectionEnding;
pub use inspecting::inspect_image;
pub use reading::ReadCells;
pub use reason::print_reason;
pub use shown::Shown;
pub use verdict::Verdict;
