//! The bench: it fires random choices of a plant and says how fast, or how long reading a plant takes.
//!
//! It measures the crates of the simulator, and is no part of what they promise; `bench/README.md` says how to run it.
//!
//! - `command`: the words of the command line.
//! - `hash`: the hash that names a final state.
//! - `course`: a run of random choices. `report`: the line that is printed.
//! - `process`: words, files, the clock, the standard output and error.
#![tactic(auto)]

mod command;
mod course;
mod hash;
mod process;
mod report;

use std::process::ExitCode;

fn main(rt: HostRuntime) -> ExitCode {
    ExitCode::from(process::run(&rt))
}
