//! A device in memory that keeps in a queue what is still to be done to the real one.
//!
//! For a program that calls the engine and drives its device by itself, as one in C does: the library has no file. The program puts the bytes of its device into a
//! [`QueuedDisk`], and the engine drives that. Behind each call it takes the [`Step`]s one by one, and does each to its device. A call of the engine is told as done once
//! all its steps are. If a step fails, the program drops the plant, as if a stop had come: its device has a beginning of the writes and syncs that the engine asked for, in their order.
//!
//! A `QueuedDisk` has the size that it was made with, and counts its failures and syncs exactly. It promises nothing of the disk model, which speaks of what a disk holds
//! after a stop: that is for the real one to keep. It fails only if there is no memory for a step; there is room for those of each event of a plant from the start.
//!
//! - `disk`: [`QueuedDisk`]. `queue`: the steps that are still to be done, and [`Step`].
#![tactic(auto)]

mod disk;
mod queue;

pub use disk::QueuedDisk;
pub use queue::Step;
