//! The arguments and the options of the commands.
use crate::names::{
    AFTER, ALL, CAREFUL, COPY, EXPLAIN, FORMATS, IMAGE, LINES, LIST, MACHINES, NEVER, NEW, OLD,
    ONLY, ONLY_NEW, OUTLINE, PICK, PICKS, PLANT, RANDOM, RECORDS, RING, RUN_FORMAT, SAVE_PICKS,
    SCRIPT, SEED, SEEDS, STATES, STRICT, SUMMARY, UNTIL, USUAL_RING, USUAL_WORKERS, WARN, WEIGHT,
    WORKERS,
};
use clap::builder::ValueParser;
use clap::{Arg, ArgAction};
use std::alloc::Global;

/// An argument or an option of a command.
#[derive(Clone, Copy, Debug, PartialEq, Eq)]
pub(crate) enum Argument {
    /// Where the plant text stands.
    Plant,
    /// The same where commands are read from the standard input.
    PlantFile,
    /// The same where an image is looked into, and may be without it.
    PlantOfImage,
    /// The image.
    Image,
    /// The image of the first layout.
    Old,
    /// The image that is made of it.
    New,
    /// The copy of the image.
    Copy,
    /// Where the script stands.
    Script,
    /// For how many records there is room.
    Ring,
    /// A file that is there is not formatted.
    OnlyNew,
    /// How many workers share the events of a run.
    Workers,
    /// An event that is refused ends the run.
    StrictRun,
    /// An image about which there is a doubt is refused.
    Careful,
    /// The records of an image are printed.
    Records,
    /// The states that an image holds are printed.
    ImageStates,
    /// Each trial of a run is listed.
    List,
    /// More is said of a fault.
    Explain,
    /// The first fault of each line is told.
    All,
    /// In which format a run is printed.
    RunFormat,
    /// Picks are random.
    Random,
    /// Which random picks they are.
    Seed,
    /// The seeds of several runs.
    Seeds,
    /// How often connectors are picked at random.
    Weight,
    /// The picks.
    Pick,
    /// The text with the picks.
    Picks,
    /// The same where commands are read from the standard input.
    PicksFile,
    /// A pick is refused whose number is past the list of choices.
    Strict,
    /// The file in which is saved what is fired.
    SavePicks,
    /// The states of a run are printed.
    States,
    /// A run is counted in place of being printed.
    Summary,
    /// What must not hold in a state of a run.
    Never,
    /// What ends a run where it holds.
    Until,
    /// Likely mistakes are printed.
    Warn,
    /// The atoms alone are drawn, as state machines.
    Machines,
    /// An outline is drawn.
    Outline,
    /// The atoms that are drawn.
    Only,
    /// The state after some picks is drawn.
    After,
}

/// The argument, as `clap` takes it.
pub(crate) fn described<'a>(alloc: Global, argument: Argument) -> Arg<'a> {
    match argument {
        Argument::Plant => {
            let help = "The file with the text of the plant, or - for the standard input";
            file(alloc, PLANT, help)
        }
        Argument::PlantFile => file(alloc, PLANT, "The file with the text of the plant"),
        Argument::PlantOfImage => {
            let help =
                "The file with the text of the plant, or - for the standard input: its names are printed then";
            Arg::new(alloc, PLANT).help(help)
        }
        Argument::Image => file(alloc, IMAGE, "The file in which the plant is kept"),
        Argument::Old => {
            let help = "The image of an earlier version, which stays as it is";
            file(alloc, OLD, help)
        }
        Argument::New => {
            let help = "The file in which the plant is kept from then on";
            file(alloc, NEW, help)
        }
        Argument::Copy => file(alloc, COPY, "The file that is made, where nothing is yet"),
        Argument::Script => {
            let help =
                "The file with the events, or - for the standard input, where that is not the plant";
            file(alloc, SCRIPT, help)
        }
        Argument::Ring => {
            let help = "For how many records the image has room";
            option(alloc, RING, "N", help).default_value(USUAL_RING)
        }
        Argument::OnlyNew => {
            let help = "Refuses an IMAGE that is there, whatever it holds";
            flag(alloc, ONLY_NEW, help)
        }
        Argument::Workers => {
            let help = "How many threads share the events; with any no answers are printed";
            option(alloc, WORKERS, "N", help).default_value(USUAL_WORKERS)
        }
        Argument::StrictRun => {
            let help = "Ends the run at the first event that the plant refuses";
            flag(alloc, STRICT, help)
        }
        Argument::Careful => {
            let help = "Refuses an image that 'inspect' doubts, before anything in it is changed";
            flag(alloc, CAREFUL, help)
        }
        Argument::Records => flag(alloc, RECORDS, "Prints each record that a start reads, too"),
        Argument::ImageStates => flag(alloc, STATES, "Prints the stored states of each atom, too"),
        Argument::List => flag(alloc, LIST, "Prints a line for each trial, too"),
        Argument::Explain => {
            let help = "Tells more of a fault below its line, as it is done on a terminal";
            flag(alloc, EXPLAIN, help)
        }
        Argument::All => {
            let help = "Tells the first fault of each line, but of no more than 20 lines";
            flag(alloc, ALL, help)
        }
        Argument::RunFormat => option(alloc, RUN_FORMAT, "FORMAT", "How the run is printed")
            .value_parser(ValueParser::Names(FORMATS))
            .default_value(LINES),
        Argument::Random => option(alloc, RANDOM, "N", "Picks at random, N times"),
        Argument::Seed => {
            let help =
                "Which random picks: the same seed gives the same ones; without it the seed is 1";
            option(alloc, SEED, "S", help)
        }
        Argument::Seeds => {
            let help =
                "With '--summary': a run for each seed from A to B, both included, N picks each";
            option(alloc, SEEDS, "A..B", help)
        }
        Argument::Weight => {
            let help =
                "Picks at random by weights: the connector NAME has W, and each other one 100";
            option(alloc, WEIGHT, "NAME=W", help).action(ArgAction::Append)
        }
        Argument::Pick => Arg::new(alloc, PICK)
            .action(ArgAction::Append)
            .num_args(0..)
            .allow_negative_numbers(true)
            .help("Which of the state's choices is fired, from 0"),
        Argument::Picks => {
            let help =
                "Takes the picks from a file, one on a line, or from the standard input, where FILE is -";
            option(alloc, PICKS, "FILE", help)
        }
        Argument::PicksFile => {
            let help = "Fires the picks of a file, one on a line, before the first command is read";
            option(alloc, PICKS, "FILE", help)
        }
        Argument::Strict => {
            let help = "Refuses a pick whose number is past the list of choices";
            flag(alloc, STRICT, help)
        }
        Argument::SavePicks => {
            let help = "Saves what is fired in a file that '--picks' can read";
            option(alloc, SAVE_PICKS, "FILE", help)
        }
        Argument::States => {
            let help = "Prints the state at the start and after each firing, too";
            flag(alloc, STATES, help)
        }
        Argument::Summary => {
            let help = "Counts what comes in the run, and what never comes, and prints none of it";
            flag(alloc, SUMMARY, help)
        }
        Argument::Never => {
            let help =
                "Ends the run where EXPR holds, or nothing is possible for 'stuck', with status 1";
            option(alloc, NEVER, "EXPR", help).action(ArgAction::Append)
        }
        Argument::Until => {
            let help = "Ends the run where EXPR holds, or nothing is possible for 'stuck'";
            option(alloc, UNTIL, "EXPR", help).action(ArgAction::Append)
        }
        Argument::Warn => flag(alloc, WARN, "Tells what is probably a mistake, too"),
        Argument::Machines => {
            let help = "Draws the atoms alone, each as a state machine";
            flag(alloc, MACHINES, help)
        }
        Argument::Outline => {
            let help = "Draws a node for each atom and each connector alone";
            flag(alloc, OUTLINE, help)
        }
        Argument::Only => {
            let help = "Draws these atoms alone, and the connectors that join them";
            option(alloc, ONLY, "ATOM,..", help)
                .action(ArgAction::Append)
                .value_delimiter(',')
        }
        Argument::After => {
            let help = "Draws the state after these picks, and in colour what can be fired then";
            option(alloc, AFTER, "PICK", help).num_args(1..)
        }
    }
}

/// An argument that names a file and must be there.
fn file<'a>(alloc: Global, name: &'a str, help: &'a str) -> Arg<'a> {
    Arg::new(alloc, name).required(true).help(help)
}

/// An option that is there or not.
fn flag<'a>(alloc: Global, name: &'a str, help: &'a str) -> Arg<'a> {
    Arg::new(alloc, name)
        .long(name)
        .action(ArgAction::SetTrue)
        .help(help)
}

/// An option with a value, which its help calls so.
fn option<'a>(alloc: Global, name: &'a str, value: &'a str, help: &'a str) -> Arg<'a> {
    Arg::new(alloc, name)
        .long(name)
        .value_name(value)
        .help(help)
}
