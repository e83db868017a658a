//! What the words of a command say, part by part.
ghost use Rattle.std.specs.Prelude.{◌≡◌};
ghost use Rattle.clap.specs.Matches.{found_of};
ghost use Rattle.command_line.specs.Read.{AreFound};
ghost use Rattle.command_line.specs.Said.{named_value, word_of};

use crate::names::{
    AFTER, ALL, CAREFUL, COPY, CommandName, EXPLAIN, IMAGE, LIST, MACHINES, NEVER, NEW, OLD, ONLY,
    ONLY_NEW, OUTLINE, PICK, PICKS, PLANT, RANDOM, RECORDS, RING, RUN_FORMAT, SAVE_PICKS, SCRIPT,
    SEED, SEEDS, STATES, STRICT, SUMMARY, UNTIL, WARN, WEIGHT, WORKERS,
};
use clap::ArgMatches;
use clap::parser::ValueSource;

/// What the words of a command say: each argument and each option as it is written, if it is there.
#[derive(Clone, Copy)]
pub(crate) struct Said<'m, 'a> {
    /// Which command it is.
    pub(crate) command: CommandName,
    /// Where the plant text is.
    pub(crate) plant: Option<&'a str>,
    /// Where the image is.
    pub(crate) image: Option<&'a str>,
    /// Where the image of the first layout is that is brought over.
    pub(crate) old_image: Option<&'a str>,
    /// Where the image is made of it.
    pub(crate) new_image: Option<&'a str>,
    /// Where the copy of an image is made.
    pub(crate) copy: Option<&'a str>,
    /// Where the script is.
    pub(crate) script: Option<&'a str>,
    /// The picks of a run.
    pub(crate) picks: Option<&'m [&'a str]>,
    /// Where the picks are that a file has.
    pub(crate) recorded: Option<&'a str>,
    /// Where the picks of a run are saved.
    pub(crate) saved: Option<&'a str>,
    /// How many random picks there are.
    pub(crate) random: Option<&'a str>,
    /// The seed of random picks.
    pub(crate) seed: Option<&'a str>,
    /// The seeds of several runs of random picks.
    pub(crate) seeds: Option<&'a str>,
    /// The weights of connectors for random picks.
    pub(crate) weights: Option<&'m [&'a str]>,
    /// The format of a run.
    pub(crate) format: Option<&'a str>,
    /// The same, where a word names it, and it is not the usual one for want of a word.
    pub(crate) named_format: Option<&'a str>,
    /// The length of a ring.
    pub(crate) ring: Option<&'a str>,
    /// How many workers share the events of a run.
    pub(crate) workers: Option<&'a str>,
    /// The picks after which a plant is drawn.
    pub(crate) after: Option<&'m [&'a str]>,
    /// The atoms that are drawn.
    pub(crate) only: Option<&'m [&'a str]>,
    /// What must not hold in a state of a run.
    pub(crate) never: Option<&'m [&'a str]>,
    /// Where among the words each of these stands.
    pub(crate) never_at: Option<&'m [usize]>,
    /// What ends a run where it holds.
    pub(crate) until: Option<&'m [&'a str]>,
    /// Where among the words each of these stands.
    pub(crate) until_at: Option<&'m [usize]>,
    /// Whether a pick is refused whose number is past the list of choices, or an event that is refused ends a run.
    pub(crate) strict: bool,
    /// Whether a drawing is of the atoms alone, as state machines.
    pub(crate) machines: bool,
    /// Whether a drawing is an outline.
    pub(crate) outline: bool,
    /// Whether the states of a run are printed, or those that an image holds.
    pub(crate) states: bool,
    /// Whether a run is counted in place of being printed.
    pub(crate) summary: bool,
    /// Whether what is probably a mistake is printed.
    pub(crate) warn: bool,
    /// Whether the records that an image holds are printed.
    pub(crate) records: bool,
    /// Whether each trial of a run is printed.
    pub(crate) list: bool,
    /// Whether a file that is there is not formatted.
    pub(crate) only_new: bool,
    /// Whether a start from an image about which there is a doubt is refused.
    pub(crate) careful: bool,
    /// Whether more is printed of a fault.
    pub(crate) explain: bool,
    /// Whether the first fault of each line is told.
    pub(crate) all: bool,
}

/// What was found after the word of a command.
pub(crate) fn said_in<'m, 'a>(command: CommandName, found: &'m ArgMatches<'a>) -> Said<'m, 'a>
    ensures command { result.command ≡ command }
    ensures found { AreFound result (found_of found.now) }
{
    Said {
        command,
        plant: found.get_str(PLANT),
        image: found.get_str(IMAGE),
        old_image: found.get_str(OLD),
        new_image: found.get_str(NEW),
        copy: found.get_str(COPY),
        script: found.get_str(SCRIPT),
        picks: found.get_strs(PICK),
        recorded: found.get_str(PICKS),
        saved: found.get_str(SAVE_PICKS),
        random: found.get_str(RANDOM),
        seed: found.get_str(SEED),
        seeds: found.get_str(SEEDS),
        weights: found.get_strs(WEIGHT),
        format: found.get_str(RUN_FORMAT),
        named_format: named_in(found, RUN_FORMAT),
        ring: found.get_str(RING),
        workers: found.get_str(WORKERS),
        after: found.get_strs(AFTER),
        only: found.get_strs(ONLY),
        never: found.get_strs(NEVER),
        never_at: found.indices_of(NEVER),
        until: found.get_strs(UNTIL),
        until_at: found.indices_of(UNTIL),
        strict: found.get_flag(STRICT),
        machines: found.get_flag(MACHINES),
        outline: found.get_flag(OUTLINE),
        states: found.get_flag(STATES),
        summary: found.get_flag(SUMMARY),
        warn: found.get_flag(WARN),
        records: found.get_flag(RECORDS),
        list: found.get_flag(LIST),
        only_new: found.get_flag(ONLY_NEW),
        careful: found.get_flag(CAREFUL),
        explain: found.get_flag(EXPLAIN),
        all: found.get_flag(ALL),
    }
}

/// The first value of an option, where words name it.
fn named_in<'a>(found: &ArgMatches<'a>, name: &str) -> Option<&'a str>
    ensures { word_of result ≡ named_value (found_of found.now) name.now }
{
    match found.value_source(name) {
        Some(ValueSource::CommandLine) => found.get_str(name),
        Some(ValueSource::DefaultValue) | None => None,
    }
}
