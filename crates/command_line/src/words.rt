//! How a request is read from the words of the command line.
ghost use Rattle.std.specs.Prelude.{◌≡◌, IfOk};
ghost use Rattle.command_line.specs.Read.{IsRead};

use crate::answer::{Answered, show};
use crate::apart::ApartFault;
use crate::asked::{AskingFault, request_asked};
use crate::commands::{command_alone, program};
use crate::names::{CommandName, command_named};
use crate::picking::PickingFault;
use crate::request::{MOST_WEIGHT, Request};
use crate::said::said_in;
use crate::seeds::SeedsFault;
use crate::shown::{shown_word, shown_words};
use crate::summary::SummaryFault;
use crate::weights::WeightsFault;
use crate::workers::MOST_WORKERS;
use clap::error::ErrorKind;
use clap::{ArgMatches, Command, Error};
use record_codec::{LEAST_RING, MOST_RING};
use std::alloc::{AllocError, Global};

/// What the words of the command line ask for, the program's own name first. Where they ask for help, or for nothing that the
/// program does, that is printed, and the answer says how the program ends.
pub fn read_request<'a, R: Print + Eprint + AllocGlobal>(
    rt: &R,
    words: &'a [String],
) -> Result<Request<'a>, Answered> {
    request_in(rt.alloc(), words).map_err(|error| show(rt, &error))
}

/// What the words ask for, or what `clap` says in its place.
fn request_in<'a>(alloc: Global, words: &'a [String]) -> Result<Request<'a>, Error> {
    let mut program = program(alloc)?;
    match program.try_get_matches_from_mut(words) {
        Ok(matches) => request_of(alloc, &mut program, &matches),
        Err(error) => Err(refused_as_shown(alloc, words)?.unwrap_or(error)),
    }
}

/// What `clap` says of the words as they are shown. It says the same of them as of the words themselves, since no name or value that it knows has a byte
/// that is shown otherwise.
fn refused_as_shown(alloc: Global, words: &[String]) -> Result<Option<Error>, AllocError> {
    let shown = shown_words(alloc, words)?;
    Ok(program(alloc)?.try_get_matches_from_mut(&shown).err())
}

/// What the words ask for in which `clap` found this.
fn request_of<'a>(
    alloc: Global,
    program: &mut Command<'a>,
    matches: &ArgMatches<'a>,
) -> Result<Request<'a>, Error>
    ensures { IfOk result (λ request. IsRead request matches.now) }
{
    let Some((name, found)) = matches.subcommand() else {
        return Err(no_command(program)?);
    };
    let Some(command) = command_named(name) else {
        return Err(no_command(program)?);
    };
    let said = said_in(command, found);
    match request_asked(alloc, &said) {
        Ok(request) => Ok(request),
        Err(fault) => Err(refused(alloc, command, fault)?),
    }
}

/// The answer where no command is named.
fn no_command(program: &mut Command<'_>) -> Result<Error, AllocError> {
    program.error(ErrorKind::MissingSubcommand, "a command is missing")
}

/// The answer to the words of a command that ask for nothing that it does. It shows how the command is used.
fn refused(alloc: Global, name: CommandName, fault: AskingFault<'_>) -> Result<Error, AllocError> {
    let mut command = command_alone(alloc, name)?;
    refusal(alloc, name, &mut command, fault)
}

/// The answer of a command to words that ask for nothing that it does.
fn refusal(
    alloc: Global,
    name: CommandName,
    command: &mut Command<'_>,
    fault: AskingFault<'_>,
) -> Result<Error, AllocError> {
    match fault {
        AskingFault::NoPath => {
            command.error(ErrorKind::MissingRequiredArgument, "a path is missing")
        }
        AskingFault::Picking(fault) => no_picking(alloc, name, command, fault),
        AskingFault::Summary(fault) => no_summary(alloc, command, fault),
        AskingFault::Seeds(fault) => no_seeds(alloc, command, fault),
        AskingFault::Weights(fault) => no_weights(alloc, command, fault),
        AskingFault::StrictAlone => {
            command.error(ErrorKind::MissingRequiredArgument, no_strict_picks(name))
        }
        AskingFault::OutlineOfState => command.error(
            ErrorKind::ArgumentConflict,
            "an outline shows no state, so '--after' and '--picks' cannot be with '--outline'",
        ),
        AskingFault::OutlineOfMachines => command.error(
            ErrorKind::ArgumentConflict,
            "an outline shows nothing that stands in an atom, so '--machines' cannot be with '--outline'",
        ),
        AskingFault::NoRing(word) => no_ring(alloc, command, word),
        AskingFault::NoWorkers(word) => no_workers(alloc, command, word),
        AskingFault::StrictShared => command.error(
            ErrorKind::ArgumentConflict,
            "workers pass over what is refused, so '--strict' cannot be with '--workers <N>'",
        ),
        AskingFault::Apart(fault) => not_apart(name, command, fault),
        AskingFault::Memory => Ok(Error::from(AllocError)),
    }
}

/// What is said where picks are to be strict, and there are none.
fn no_strict_picks(name: CommandName) -> &'static str {
    match name {
        CommandName::Draw => {
            "'--strict' is for picks, and both '--after <PICK>...' and '--picks <FILE>' are missing"
        }
        _ => "'--strict' is for picks, and '--picks <FILE>' is missing",
    }
}

/// The answer to words that name files which do not stand apart.
fn not_apart(
    name: CommandName,
    command: &mut Command<'_>,
    fault: ApartFault,
) -> Result<Error, AllocError> {
    let message = match (fault, name) {
        (ApartFault::OneInput, CommandName::Run | CommandName::Explore) => {
            "the standard input cannot be both the plant and the script"
        }
        (ApartFault::OneInput, CommandName::Serve) => {
            "the standard input cannot be the plant: the events of the run are read there"
        }
        (ApartFault::OneInput, CommandName::Step) => {
            "the standard input cannot be the plant: the commands of the run are read there"
        }
        (ApartFault::OneInput, _) => "the standard input cannot be both the plant and the picks",
        (ApartFault::PicksTyped, _) => {
            "the standard input cannot be the picks: the commands of the run are read there"
        }
        (ApartFault::SavedOnOutput, _) => {
            "the picks cannot be saved on the standard output, where the run is printed"
        }
        (ApartFault::SavedOverRead, _) => {
            "the picks cannot be saved in the file from which the plant or the picks are read"
        }
        (ApartFault::ImageOverRead, CommandName::Run) => {
            "the image cannot be the file from which the plant or the script is read"
        }
        (ApartFault::ImageOverRead, _) => {
            "the image cannot be the file from which the plant is read"
        }
        (ApartFault::OneImage, CommandName::Migrate) => {
            "the new image cannot be the file of the old one"
        }
        (ApartFault::OneImage, _) => "the copy cannot be the file of the image",
    };
    command.error(ErrorKind::ArgumentConflict, message)
}

/// The answer to words that do not say how choices are picked.
fn no_picking(
    alloc: Global,
    name: CommandName,
    command: &mut Command<'_>,
    fault: PickingFault<'_>,
) -> Result<Error, AllocError> {
    match fault {
        PickingFault::NoPick(word) => {
            no_number(alloc, command, word, picks_argument(name), "a pick")
        }
        PickingFault::NoCount(word) => no_number(alloc, command, word, "--random <N>", "a number"),
        PickingFault::NoSeed(word) => no_number(alloc, command, word, "--seed <S>", "a seed"),
        PickingFault::GivenAndRandom => command.error(
            ErrorKind::ArgumentConflict,
            "the picks are given, so they cannot be random too",
        ),
        PickingFault::GivenAndRecorded => command.error(
            ErrorKind::ArgumentConflict,
            "the picks are given, so they cannot be those of a file too",
        ),
        PickingFault::StrictRandom => command.error(
            ErrorKind::ArgumentConflict,
            "a random pick is taken modulo the number of choices, so '--strict' cannot be with '--random <N>'",
        ),
        PickingFault::SeedAlone => command.error(
            ErrorKind::MissingRequiredArgument,
            "a seed is for random picks, and '--random <N>' is missing",
        ),
        PickingFault::Memory => Ok(Error::from(AllocError)),
    }
}

/// The argument by which picks are given one by one, as the use of the command shows it.
fn picks_argument(name: CommandName) -> &'static str {
    match name {
        CommandName::Draw => "--after <PICK>...",
        _ => "[PICK]...",
    }
}

/// The answer that says this, with words of the command line in it, as it is shown.
fn answer_shown(
    alloc: Global,
    command: &mut Command<'_>,
    kind: ErrorKind,
    message: &str,
) -> Result<Error, AllocError> {
    let shown = shown_word(alloc, message)?;
    command.error(kind, shown.as_str())
}

/// The answer to a word that must be a number of 64 bits and is none.
fn no_number(
    alloc: Global,
    command: &mut Command<'_>,
    word: &str,
    argument: &str,
    what: &str,
) -> Result<Error, AllocError> {
    let message = format!(in alloc;
        "invalid value '{word}' for '{argument}': {what} is digits alone, at most 18446744073709551615"
    )?;
    answer_shown(alloc, command, ErrorKind::ValueValidation, &message)
}

/// The answer to words by which a run that is counted is to be printed, too.
fn no_summary(
    alloc: Global,
    command: &mut Command<'_>,
    fault: SummaryFault<'_>,
) -> Result<Error, AllocError> {
    match fault {
        SummaryFault::WithStates => command.error(
            ErrorKind::ArgumentConflict,
            "'--summary' counts a run and prints none of it, so '--states' cannot be with it",
        ),
        SummaryFault::WithFormat(word) => {
            let message = format!(in alloc;
                "'--summary' counts a run and prints none of it, so '--format {word}' cannot be with it"
            )?;
            answer_shown(alloc, command, ErrorKind::ArgumentConflict, &message)
        }
    }
}

/// The answer to words that do not name the seeds of several runs.
fn no_seeds(
    alloc: Global,
    command: &mut Command<'_>,
    fault: SeedsFault<'_>,
) -> Result<Error, AllocError> {
    let (kind, message) = match fault {
        SeedsFault::Uncounted(word) => (
            ErrorKind::MissingRequiredArgument,
            format!(in alloc;
                "'--seeds {word}' is for runs that are counted, and '--summary' is missing"
            )?,
        ),
        SeedsFault::NotRandom(word) => (
            ErrorKind::MissingRequiredArgument,
            format!(in alloc;
                "'--seeds {word}' is for random picks, and '--random <N>' is missing"
            )?,
        ),
        SeedsFault::WithGiven(pick) => (
            ErrorKind::ArgumentConflict,
            format!(in alloc;
                "each run has random picks alone, so the pick '{pick}' cannot be with '--seeds <A..B>'"
            )?,
        ),
        SeedsFault::WithRecorded(path) => (
            ErrorKind::ArgumentConflict,
            format!(in alloc;
                "each run has random picks alone, so '--picks {path}' cannot be with '--seeds <A..B>'"
            )?,
        ),
        SeedsFault::WithSeed(seed) => (
            ErrorKind::ArgumentConflict,
            format!(in alloc;
                "each run has a seed of its own, so '--seed {seed}' cannot be with '--seeds <A..B>'"
            )?,
        ),
        SeedsFault::WithSaved(path) => (
            ErrorKind::ArgumentConflict,
            format!(in alloc;
                "a file of picks is of one run, so '--save-picks {path}' cannot be with '--seeds <A..B>'"
            )?,
        ),
        SeedsFault::NoSeeds(word) => (
            ErrorKind::ValueValidation,
            format!(in alloc;
                "invalid value '{word}' for '--seeds <A..B>': A and B are digits alone, at most 18446744073709551615, and A is at most B"
            )?,
        ),
    };
    answer_shown(alloc, command, kind, &message)
}

/// The answer to words that give no weights.
fn no_weights(
    alloc: Global,
    command: &mut Command<'_>,
    fault: WeightsFault<'_>,
) -> Result<Error, AllocError> {
    match fault {
        WeightsFault::NotRandom(word) => {
            let message = format!(in alloc;
                "'--weight {word}' is for random picks, and '--random <N>' is missing"
            )?;
            answer_shown(alloc, command, ErrorKind::MissingRequiredArgument, &message)
        }
        WeightsFault::NoWeight(word) => {
            let message = format!(in alloc;
                "invalid value '{word}' for '--weight <NAME=W>': it is the name of a connector, '=' and digits alone, from 0 to {MOST_WEIGHT}"
            )?;
            answer_shown(alloc, command, ErrorKind::ValueValidation, &message)
        }
        WeightsFault::Memory => Ok(Error::from(AllocError)),
    }
}

/// The answer to a word that stands for the length of a ring and is none.
fn no_ring(alloc: Global, command: &mut Command<'_>, word: &str) -> Result<Error, AllocError> {
    let message = format!(in alloc;
        "invalid value '{word}' for '--ring <N>': a ring is digits alone, from {LEAST_RING} to {MOST_RING}"
    )?;
    answer_shown(alloc, command, ErrorKind::ValueValidation, &message)
}

/// The answer to a word that stands for a number of workers and is none.
fn no_workers(alloc: Global, command: &mut Command<'_>, word: &str) -> Result<Error, AllocError> {
    let message = format!(in alloc;
        "invalid value '{word}' for '--workers <N>': a number of workers is digits alone, from 0 to {MOST_WORKERS}"
    )?;
    answer_shown(alloc, command, ErrorKind::ValueValidation, &message)
}
