//! Why a program ends early at a plant's text, the words, the picks, the memory or the output, or with a run that came to what must not hold: what it
//! tells then, and its exit status.
ghost use Rattle.std.specs.Prelude.{◌≡◌};
ghost use Rattle.plant_tasks.specs.Ending.{ended_by};

use crate::paths::TaskPaths;
use command_line::Answered;
use plant_text::{Fault, PlantFault};
use run_text::{Refusal, TraceFault};
use run_watches::WatchFault;
use std::alloc::AllocError;
use std::fmt;
use step_session::StepFault;
use text_io::WriteFault;

/// Why a program ends without having done with a plant what it was asked for.
#[derive(Clone, Copy)]
pub enum PlantEnding {
    /// The words of the command line ask for nothing that the program does.
    Usage,
    /// The text is no plant, or could not be read.
    Plant(PlantFault),
    /// The plant's file could not be opened.
    Unopened,
    /// What is read beside the plant, as the text of the picks, could not be opened or read.
    InputUnread,
    /// The lines of a run by hand could not be read from the standard input.
    LinesUnread,
    /// A pick of the run is refused.
    Refused(Refusal),
    /// The file in which is saved what is fired could not be made or written.
    Unsaved,
    /// Of the names of atoms in the words of the command line, the one with this number, from 0, is of no atom of the plant.
    NoAtom(usize),
    /// Of the weights in the words of the command line, the one with this number, from 0, is of no connector of the plant.
    NoConnector(usize),
    /// Of the words that a run is watched for, those with this number, from 0, can't be read.
    BadWatch {
        /// The number.
        place: usize,
        /// Why they can't be read.
        fault: WatchFault,
    },
    /// A run has come to what must not hold. It was printed and saved up to there, and what was printed says so.
    Held,
    /// Memory ran out.
    Memory,
    /// The standard output could not be written.
    Unwritten,
}

impl PlantEnding {
    ghost use Rattle.std.specs.Prelude.{◌≡◌};
    ghost use Rattle.plant_tasks.specs.Ending.{status_at};

    /// The exit status of a program that ends so: 1 where the plant or a pick is refused and where a run has come to what must not hold, 2 where the
    /// words of the command line were not understood, and 3 where a file, the memory or the output failed.
    pub fn exit_status(&self) -> u8
        ensures { result ≡ status_at self.now }
    {
        match self {
            PlantEnding::Usage => 2,
            PlantEnding::Plant(found) => match found.fault {
                Fault::Memory | Fault::Read => 3,
                _ => 1,
            },
            PlantEnding::Unopened => 3,
            PlantEnding::InputUnread => 3,
            PlantEnding::LinesUnread => 3,
            PlantEnding::Refused(_) => 1,
            PlantEnding::Unsaved => 3,
            PlantEnding::NoAtom(_) => 2,
            PlantEnding::NoConnector(_) => 2,
            PlantEnding::BadWatch { .. } => 2,
            PlantEnding::Held => 1,
            PlantEnding::Memory => 3,
            PlantEnding::Unwritten => 3,
        }
    }
}

/// How a program ends if the words of the command line are no request, and that was printed.
pub fn ended(answered: Answered) -> Result<(), PlantEnding>
    ensures { result ≡ ended_by answered }
{
    match answered {
        Answered::Helped => Ok(()),
        Answered::Usage => Err(PlantEnding::Usage),
        Answered::Memory => Err(PlantEnding::Memory),
        Answered::Unwritten => Err(PlantEnding::Unwritten),
    }
}

/// What is printed of an ending: a line, or nothing if what is wrong with the words was printed already, and if the output failed.
#[derive(Clone, Copy)]
pub struct PlantEndingText<'a> {
    /// Why the program ends early.
    pub ending: PlantEnding,
    /// Where the files are that it may tell of.
    pub paths: TaskPaths<'a>,
}

impl<'a> fmt::Display for PlantEndingText<'a> {
    ghost use Rattle.std.specs.Prelude.{Some};
    ghost use Rattle.plant_tasks.specs.Ending.{told_text};

    ghost output = { λ text. Some (told_text text.paths text.ending) };

    fn fmt<W: fmt::Write>(&self, f: &mut fmt::Formatter<W>) -> fmt::Result {
        match self.ending {
            PlantEnding::Usage => Ok(()),
            PlantEnding::Plant(found) => match (found.fault, found.fault.subject()) {
                (Fault::Read, _) => writeln!(f, "file {}", self.paths.plant),
                (fault, None) => writeln!(
                    f,
                    "plant line {}: fault {} {}",
                    found.line,
                    fault.number(),
                    fault.name()
                ),
                (fault, Some(subject)) => writeln!(
                    f,
                    "plant line {}: fault {} {}({subject})",
                    found.line,
                    fault.number(),
                    fault.name()
                ),
            },
            PlantEnding::Unopened => writeln!(f, "file {}", self.paths.plant),
            PlantEnding::InputUnread => writeln!(f, "file {}", self.paths.input.unwrap_or("")),
            PlantEnding::LinesUnread => writeln!(f, "file -"),
            PlantEnding::Refused(refusal) => {
                let place = PickPlace {
                    path: self.paths.input,
                    number: refusal.place,
                };
                writeln!(f, "error: {place}: {refusal}")
            }
            PlantEnding::Unsaved => writeln!(f, "file {}", self.paths.saved.unwrap_or("")),
            PlantEnding::NoAtom(_) => Ok(()),
            PlantEnding::NoConnector(_) => Ok(()),
            PlantEnding::BadWatch { .. } => Ok(()),
            PlantEnding::Held => Ok(()),
            PlantEnding::Memory => f.write_str("memory\n"),
            PlantEnding::Unwritten => Ok(()),
        }
    }
}

/// Where a pick stands: a line of the text at the path, or a place among the picks of the command line.
#[derive(Clone, Copy)]
struct PickPlace<'a> {
    path: Option<&'a str>,
    number: u64,
}

impl<'a> fmt::Display for PickPlace<'a> {
    ghost use Rattle.std.specs.Prelude.{Some};
    ghost use Rattle.plant_tasks.specs.Ending.{place_text};
    ghost use Rattle.plant_tasks.specs.Paths.{path_of};

    ghost output = { λ place. Some (place_text (path_of place.path) place.number) };

    fn fmt<W: fmt::Write>(&self, f: &mut fmt::Formatter<W>) -> fmt::Result {
        match self.path {
            Some(path) => write!(f, "{path}:{}", self.number),
            None => write!(f, "pick {} of the command line", self.number),
        }
    }
}

impl From<PlantFault> for PlantEnding {
    ghost use Rattle.plant_tasks.specs.declared.ending.PlantEnding.TheVariants.{Plant};

    ghost from_gives = { λ fault ending. ending ≡ Plant fault };

    fn from(fault: PlantFault) -> Self {
        PlantEnding::Plant(fault)
    }
}

impl From<AllocError> for PlantEnding {
    ghost use Rattle.plant_tasks.specs.declared.ending.PlantEnding.TheVariants.{Memory};

    ghost from_gives = { λ _ ending. ending ≡ Memory };

    fn from(_: AllocError) -> Self {
        PlantEnding::Memory
    }
}

impl From<WriteFault> for PlantEnding {
    ghost use Rattle.plant_tasks.specs.declared.ending.PlantEnding.TheVariants.{Unwritten};

    ghost from_gives = { λ _ ending. ending ≡ Unwritten };

    fn from(_: WriteFault) -> Self {
        PlantEnding::Unwritten
    }
}

impl From<StepFault> for PlantEnding {
    ghost use Rattle.plant_tasks.specs.Ending.{of_step};

    ghost from_gives = { λ fault ending. ending ≡ of_step fault };

    fn from(fault: StepFault) -> Self {
        match fault {
            StepFault::Memory => PlantEnding::Memory,
            StepFault::PicksUnread => PlantEnding::InputUnread,
            StepFault::Read => PlantEnding::LinesUnread,
            StepFault::Refused(refusal) => PlantEnding::Refused(refusal),
            StepFault::Write => PlantEnding::Unwritten,
        }
    }
}

impl From<TraceFault> for PlantEnding {
    ghost use Rattle.plant_tasks.specs.Ending.{of_trace};

    ghost from_gives = { λ fault ending. ending ≡ of_trace fault };

    fn from(fault: TraceFault) -> Self {
        match fault {
            TraceFault::Memory => PlantEnding::Memory,
            TraceFault::Write => PlantEnding::Unwritten,
            TraceFault::Read => PlantEnding::InputUnread,
            TraceFault::Refused(refusal) => PlantEnding::Refused(refusal),
        }
    }
}
