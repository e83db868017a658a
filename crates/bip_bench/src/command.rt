//! The words of the command line.
use plant_words::read_decimal;

/// What is printed where the words ask for nothing that the program does.
pub(crate) const USAGE: &str =
    "bip_bench PLANT STEPS SEED        fires random choices: steps, seconds, steps each second, hash of the state lines
bip_bench state PLANT STEPS SEED  the same without the time
bip_bench read PLANT              reads and checks the text of a plant: seconds, atoms, interactions
PLANT is a file, or - for the standard input; STEPS and SEED are digits.
";

/// What is measured.
#[derive(Clone, Copy, Debug, PartialEq, Eq)]
pub(crate) enum Task {
    /// Reading and checking the plant.
    Read,
    /// A run of so many steps, by the picks of the seed; the time is printed if `timed`.
    Run { steps: u64, seed: u64, timed: bool },
}

/// A task, and where the text of its plant stands.
#[derive(Clone, Copy, Debug, PartialEq, Eq)]
pub(crate) struct Command<'a> {
    pub(crate) plant: &'a str,
    pub(crate) task: Task,
}

/// What the words ask for, the program's own name first.
pub(crate) fn read_command<'a>(words: &'a [String]) -> Option<Command<'a>> {
    match words {
        [_, first, plant] if first.as_str() == "read" => Some(Command {
            plant: plant.as_str(),
            task: Task::Read,
        }),
        [_, plant, steps, seed] => run_command(plant, steps, seed, true),
        [_, first, plant, steps, seed] if first.as_str() == "state" => {
            run_command(plant, steps, seed, false)
        }
        _ => None,
    }
}

/// A run, where the words write numbers.
fn run_command<'a>(plant: &'a str, steps: &str, seed: &str, timed: bool) -> Option<Command<'a>> {
    Some(Command {
        plant,
        task: Task::Run {
            steps: read_decimal(steps.as_bytes())?,
            seed: read_decimal(seed.as_bytes())?,
            timed,
        },
    })
}
