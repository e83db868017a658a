//! A device in memory that keeps no record of what was asked of it, for what makes very many calls: tests of threads, and the bench of a
//! durable plant.
//!
//! No call of it fails. `MemDisk` of `disk_model` is the device that is proved to keep the model, and that fails where a test says so: it
//! remembers each write, and a sync there costs the time of the whole device. Here a call costs its own bytes. So contracts know its size
//! and its counts, and of its bytes nothing: what they read for is seen by running.
//!
//! - `disk`: the device, [`BareDisk`].
#![tactic(auto)]

mod disk;

pub use disk::BareDisk;
