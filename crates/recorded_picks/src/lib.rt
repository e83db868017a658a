//! Picks that are read from a text while a run takes them: one on each line, a number or a fired line without its number.
//!
//! [`RecordedPicks`] is a source of picks over a reader. It holds one line at a time, so that a file of any length takes no more
//! memory than a short one. A number is taken as [`Numbers`](run_text::Numbers) says; a fired line, as `send A.t/0 B.u/0`, takes the choice that it
//! names. What a line means stands in `specs/Lines.antt`, what a file means in `specs/Files.antt` (`picks_in`): the contracts say
//! that exactly these picks come, if the reader's type says which bytes it has left. A line that names no choice of the plant is a
//! pick too, which says which word of it is wrong, or what else, and where it stands.
//!
//! - `picks`: the source. `line`: what a line says. `choice`: the choice that its words name. `names`: connectors, atoms and moves
//!   of a plant by their names, each found by one look-up. `kept_line`: how long a line may be.
//! - `followed`: random picks after those of a source ([`Followed`]).
//! - `laws`: what a trace saves is read as what it fired.
#![tactic(auto)]

mod choice;
mod followed;
mod kept_line;
pub mod laws;
mod line;
mod names;
mod picks;

pub use choice::read_choice;
pub use followed::Followed;
pub use kept_line::MAX_PICK_LINE;
pub use names::PlantNames;
pub use picks::RecordedPicks;
