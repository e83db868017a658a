//! What a power cut at each moment of a run does.
//!
//! [`explore`] formats a device in memory for a plant, boots the plant and makes some events. Then it does so again for each write and each sync
//! of that run, and stops the run there. For each of four ways in which a cut tears what was being written, it boots what such a stop leaves, and
//! judges it. The plant that was booted goes on by one firing and a flush, and what a stop then leaves is judged again. An [`Explorer`] gives one such [`Trial`] after another, for those who want to see each. [`judge`] judges any device.
//!
//! What a stop leaves is right where it stands for the state of the plant after all that was acknowledged and some front of what was fired since
//! (`specs/Judging.antt`). While the device is formatted it may also be one that reads as never formatted.
//!
//! That each stop is right is what the contracts of formatting, booting and running say, of every device that keeps the disk model. This crate
//! shows it by running, for who does not read proofs, on one such device: `disk_model::MemDisk`.
//!
//! - `judging`: when a device is right. `loading`: its cells. `states`: the state after some firings.
//! - `watched`: a device in memory that remembers what of it was stopped. `running`: one run, stopped or not. `booting`: what a device boots to.
//!   `outcome`: what becomes of a device that a stop left, and how the plant goes on.
//! - `halted`: a run that was stopped, and its trials. `explorer`: all trials of a run. `report`: how many of them are not right. `fault`: why there is no answer.
#![tactic(auto)]

mod booting;
mod explorer;
mod fault;
mod halted;
mod judging;
mod loading;
mod outcome;
mod report;
mod running;
mod states;
mod watched;

pub use booting::Found;
pub use explorer::{Explorer, TEARS, Trial};
pub use fault::ExploreFault;
pub use judging::judge;
pub use outcome::Next;
pub use report::{Report, explore};
pub use running::Stage;
pub use watched::Cut;
