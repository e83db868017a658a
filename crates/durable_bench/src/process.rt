//! The program in its process: words, files, the clock, the standard output and error.
use crate::command::{Command, Task, USAGE, read_command};
use crate::printing::{
    print_boot, print_durable, print_firing, print_reading, print_stepping, print_working,
};
use plant_text::read_plant;
use std::fs::File;
use std::io::Read;
use std::rt::{Clock, Env, Files};
use std::sync::Wait;
use std::thread::Threads;
use std::{env, fs};

/// The path that stands for the standard input.
const STANDARD_INPUT: &str = "-";

/// Why nothing was measured.
#[derive(Clone, Copy, Debug, PartialEq, Eq)]
enum Ending {
    /// The words of the command line ask for nothing that the program does.
    Usage,
    /// The text is no plant, or can't be read.
    Plant,
    /// A file, the memory, the clock or the output failed.
    System,
}

/// Does what the words of the command line ask for, and gives the exit status.
pub(crate) fn run<
    R: Clock
        + Env
        + Files<File = File>
        + Input
        + Print
        + Eprint
        + Threads
        + Wait
        + Sync
        + AllocGlobal,
>(rt: &R) -> u8 {
    match answer(rt) {
        Ok(()) => 0,
        Err(Ending::Plant) => 1,
        Err(Ending::Usage) => {
            let _ = eprint!(rt; "{USAGE}");
            2
        }
        Err(Ending::System) => 3,
    }
}

/// Answers the words of the command line.
fn answer<
    R: Clock
        + Env
        + Files<File = File>
        + Input
        + Print
        + Eprint
        + Threads
        + Wait
        + Sync
        + AllocGlobal,
>(rt: &R) -> Result<(), Ending> {
    let words = env::args(rt).map_err(|_| Ending::Usage)?;
    let words: Vec<String> = words.collect(rt.alloc()).map_err(|_| Ending::System)?;
    let command = read_command(words.as_slice()).ok_or(Ending::Usage)?;
    if command.plant == STANDARD_INPUT {
        return measure(rt, &command, &mut rt.reader());
    }
    let mut file = fs::open(rt, command.plant).map_err(|_| Ending::System)?;
    measure(rt, &command, &mut file)
}

/// Reads the plant and does the command's task with it.
fn measure<
    R: Clock + Files<File = File> + Print + Eprint + Threads + Wait + Sync + AllocGlobal,
    T: Read,
>(rt: &R, command: &Command<'_>, text: &mut T) -> Result<(), Ending> {
    let system = match read_plant(rt.alloc(), text) {
        Ok(system) => system,
        Err(told) => {
            let _ = eprintln!(rt;
                "plant line {}: fault {} {}",
                told.line,
                told.fault.number(),
                told.fault.name()
            );
            return Err(Ending::Plant);
        }
    };
    let printed = match command.task {
        Task::Fire(steps) => print_firing(rt, &system, steps),
        Task::Front(steps) => print_reading(rt, &system, steps),
        Task::Work(steps, crew) => print_working(rt, &system, steps, crew),
        Task::Step(steps, presence) => print_stepping(rt, &system, steps, presence),
        Task::Durable(image, plan) => print_durable(rt, &system, image, plan),
        Task::Boot(image, crew) => print_boot(rt, &system, image, crew),
    };
    printed.ok_or(Ending::System)
}
