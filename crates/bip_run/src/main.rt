//! The program for a plant alone: it reads a plant text and says what stands in it, draws it, or runs it.
//!
//! `main` only asks which ends of the process are a terminal, and hands the rest to `process`: the words, the files, the standard input,
//! output and error. What the words ask for is read by the crate `command_line`, and what is done with a plant, and what is printed if
//! that ends early, stands in the crate `plant_tasks`. A task on an image is done by the program `bip_image`; the launcher at the top of
//! the repository runs whichever the words ask for.
//!
//! - `asked`: what is asked for of a plant. `process`: the program in its process. `saving`: the files in which is saved what is fired. `paths`: where they are.
//! - `by_hand`: a plant that is run by hand. `seed_line`: how far the runs of seeds have come.
//! - `wrong_words`: words of the command line that name nothing of the plant. `later_faults`: the faults of a plant text behind its first one.
#![tactic(auto)]

mod asked;
mod by_hand;
mod later_faults;
mod paths;
mod process;
mod saving;
mod seed_line;
mod wrong_words;

use process::Terminals;
use std::io::IsTerminal;
use std::process::ExitCode;

fn main(rt: HostRuntime) -> ExitCode {
    let terminals = Terminals {
        input: rt.stdin().is_terminal(),
        output: rt.stdout().is_terminal(),
        told: rt.stderr().is_terminal(),
    };
    ExitCode::from(process::run(&rt, terminals))
}
