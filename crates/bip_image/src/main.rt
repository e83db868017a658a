//! The program for a plant on its image, a file that keeps the plant over any stop: it makes the image, runs the plant from where it
//! stands, prints where that is, copies an image, brings one of the first layout over to a new one, and prints what a stop at
//! each moment of a run leaves.
//!
//! `main` only asks whether a terminal shows the standard error, and hands the rest to `process`. What is printed if a task ends early,
//! and which status the program then ends with are definitions in `specs/`, to which contracts tie the functions that do it:
//!
//! - `process`: the words, the standard output and error. What the words ask for is read by the crate `command_line`, and the plant by the crate
//!   `plant_tasks`. `on_image`: a task of a plant on its image. `alone`: one of an image alone. `looking`: a look into an image. They are done by the crates `image_commands`,
//!   `worker_runs`, `image_backup` and `restated_text`. `files`: the files of images.
//!   `watched_disk`: the device of an image, and why its file failed. `aside`: what is kept for what is told if a task ends early.
//! - `script`: the script of a run. `progress`: how far an exploration is, on a terminal. `workers_line`: how far a run by workers is. `terminal`:
//!   what both lines share.
//! - `ending`: why the program ends early, what it prints then, and its exit status.
//!
//! A task of a plant alone is done by the program `bip_run`; the launcher at the top of the repository runs whichever the words ask for.
#![tactic(auto)]

mod alone;
mod aside;
mod ending;
mod files;
mod looking;
mod on_image;
mod process;
mod progress;
mod script;
mod terminal;
mod watched_disk;
mod workers_line;

use std::io::IsTerminal;
use std::process::ExitCode;

fn main(rt: HostRuntime) -> ExitCode {
    let is_terminal = rt.stderr().is_terminal();
    ExitCode::from(process::run(&rt, is_terminal))
}
