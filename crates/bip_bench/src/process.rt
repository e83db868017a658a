//! The program in its process: words, files, the clock, the standard output and error.
use crate::command::{Command, Task, USAGE, read_command};
use crate::course::{fire_steps, hash_of_states};
use crate::report::{Seconds, rate};
use plant_model::System;
use plant_text::read_plant;
use run_text::RandomPicks;
use std::alloc::Global;
use std::io::Read;
use std::rt::{Clock, Env, Files};
use std::time::Instant;
use std::{env, fs, io};
use step_core::Stepper;

/// The path that stands for the standard input.
const STANDARD_INPUT: &str = "-";

/// Why nothing was measured.
#[derive(Clone, Copy, Debug, PartialEq, Eq)]
enum Ending {
    /// The words of the command line ask for nothing that the program does.
    Usage,
    /// The text is no plant, or can't be read.
    Plant,
    /// A file, the memory, the clock or the output failed.
    System,
}

/// Does what the words of the command line ask for, and gives the exit status.
pub(crate) fn run<R: Clock + Env + Files + Input + Print + Eprint + AllocGlobal>(rt: &R) -> u8 {
    match answer(rt) {
        Ok(()) => 0,
        Err(Ending::Plant) => 1,
        Err(Ending::Usage) => {
            let _ = eprint!(rt; "{USAGE}");
            2
        }
        Err(Ending::System) => 3,
    }
}

/// Answers the words of the command line.
fn answer<R: Clock + Env + Files + Input + Print + Eprint + AllocGlobal>(
    rt: &R,
) -> Result<(), Ending> {
    let words = env::args(rt).map_err(|_| Ending::Usage)?;
    let words: Vec<String> = words.collect(rt.alloc()).map_err(|_| Ending::System)?;
    let command = read_command(words.as_slice()).ok_or(Ending::Usage)?;
    if command.plant == STANDARD_INPUT {
        return measure(rt, &command, &mut rt.reader());
    }
    let mut file = fs::open(rt, command.plant).map_err(|_| Ending::System)?;
    measure(rt, &command, &mut file)
}

/// Reads the plant and does the command's task with it.
fn measure<R: Clock + Print + Eprint + AllocGlobal, T: Read>(
    rt: &R,
    command: &Command<'_>,
    text: &mut T,
) -> Result<(), Ending> {
    let start = Instant::now(rt).map_err(|_| Ending::System)?;
    let system = match read_plant(rt.alloc(), text) {
        Ok(system) => system,
        Err(told) => {
            let _ = eprintln!(rt;
                "plant line {}: fault {} {}",
                told.line,
                told.fault.number(),
                told.fault.name()
            );
            return Err(Ending::Plant);
        }
    };
    match command.task {
        Task::Read => print_reading(rt, &system, start),
        Task::Run { steps, seed, timed } => print_run(rt, &system, steps, seed, timed),
    }
}

/// Prints how long reading the plant took.
fn print_reading<R: Clock + Print>(rt: &R, system: &System, start: Instant) -> Result<(), Ending> {
    let time = start.elapsed(rt).map_err(|_| Ending::System)?;
    println!(rt;
        "seconds {} atoms {} interactions {}",
        Seconds(time),
        system.atoms().len(),
        system.interaction_count()
    )
    .map_err(|_| Ending::System)
}

/// Runs the plant from its first state, and prints what came of it.
fn print_run<R: Clock + Print + AllocGlobal>(
    rt: &R,
    system: &System,
    steps: u64,
    seed: u64,
    timed: bool,
) -> Result<(), Ending> {
    let mut run = Stepper::first(rt.alloc(), system).map_err(|_| Ending::System)?;
    let mut picks = RandomPicks::new(seed, steps);
    let start = Instant::now(rt).map_err(|_| Ending::System)?;
    let fired = fire_steps(&mut run, &mut picks, steps);
    let time = start.elapsed(rt).map_err(|_| Ending::System)?;
    let hash = hash_of_states(&run);
    let printed = if timed {
        println!(rt;
            "steps {fired} seconds {} steps_per_s {} hash {hash:016x}",
            Seconds(time),
            rate(fired, time)
        )
    } else {
        println!(rt; "steps {fired} hash {hash:016x}")
    };
    printed.map_err(|_| Ending::System)
}
