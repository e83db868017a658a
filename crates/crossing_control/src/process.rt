//! The program in its process: words, files, the standard input and output.
use crate::control::{control, orders_of};
use crate::ending::Ending;
use crate::opening::{booted, plant_at};
use std::fs::File;
use std::io::BufWriter;
use std::rt::{Env, Files};
use std::{env, io};

/// Controls the crossing as the words of the command line say, and gives the exit status. Why it ended early is told on the standard error.
pub(crate) fn run<R: Env + Files<File = File> + Input + Print + Eprint + AllocGlobal>(
    rt: &R,
) -> u8 {
    match run_by_words(rt) {
        Ok(()) => 0,
        Err(ending) => {
            let _ = eprintln!(rt; "{ending}");
            ending.status()
        }
    }
}

/// Controls the crossing whose plant and image the words of the command line name.
fn run_by_words<R: Env + Files<File = File> + Input + Print + AllocGlobal>(
    rt: &R,
) -> Result<(), Ending> {
    let words = env::args(rt).map_err(|_| Ending::Usage)?;
    let words: Vec<String> = words.collect(rt.alloc())?;
    let [_, plant, image] = words.as_slice() else {
        return Err(Ending::Usage);
    };
    let system = plant_at(rt, plant)?;
    let orders = orders_of(&system)?;
    let mut plant = booted(rt, &system, image)?;
    let mut output = BufWriter::new(rt.alloc(), io::writer(rt))?;
    control(&mut plant, &orders, &mut rt.reader(), &mut output)
}
