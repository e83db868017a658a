//! A controller of a level crossing: a program of one's own over the engine, to begin one's own from. `docs/EMBEDDING.md` walks through it.
//!
//! The plant is `examples/crossing.plant`. A line of the standard input is what a sensor reports, as `approach_north`; the controller itself lowers
//! and raises the barrier, and lets trains in, whenever the plant allows it. Each move goes the same way: it is fired, then acknowledged, and only then
//! its device is told to move, here by a line of the standard output. So no device moves for a move that a stop could take back.
//!
//! - `process`: the words, the standard input and output, and the exit status. `ending`: why the program ends early, and what it says then.
//! - `opening`: the plant of a text, and its image: made where there is none, and booted.
//! - `control`: what is done with each line. `moves`: one move. `room`: room for the record of the next one.
#![tactic(auto)]

mod control;
mod ending;
mod moves;
mod opening;
mod process;
mod room;

use std::process::ExitCode;

fn main(rt: HostRuntime) -> ExitCode {
    ExitCode::from(process::run(&rt))
}
