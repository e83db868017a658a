//! The bench of a durable plant: how fast it fires by itself and under a host, what it costs that others read how far it is,
//! how fast threads fire it together, how fast a plant fires while atoms are away, how fast one acknowledges on an image in a file, and how long a boot of
//! one takes.
//!
//! It measures the crates of the durable plant and of its host, over a device in memory that keeps no record or over a file, and is no part of what they
//! promise; `bench/README.md` says how to run it.
//!
//! - `command`: the words of the command line.
//! - `firing`: who fires choices: a plant alone, or a seat of a host. `course`: runs of random choices, timed. `reading`: threads that read the
//!   front of a host meanwhile. `working`: threads that fire together. `stepping`: runs without a device, while atoms are away.
//! - `imaged`: a run on an image. `counted_file`: its file, which counts what is asked of it. `booting`: a boot of an image.
//! - `opening`: the plants that are measured, and their hosts. `report`: the numbers that are printed.
//! - `printing`: what is measured and printed for each task. `process`: words, files, the standard output and error.
#![tactic(auto)]

mod booting;
mod command;
mod counted_file;
mod course;
mod firing;
mod imaged;
mod opening;
mod printing;
mod process;
mod reading;
mod report;
mod stepping;
mod working;

use std::process::ExitCode;

fn main(rt: HostRuntime) -> ExitCode {
    ExitCode::from(process::run(&rt))
}
