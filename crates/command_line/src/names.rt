//! The words that name the commands, their arguments and their options.
ghost use Rattle.std.specs.Prelude.{◌≡◌};
ghost use Rattle.command_line.specs.Names.{command_in, word_for};

const CHECK: &str = "check";

const CHOICES: &str = "choices";

const WHY: &str = "why";

const TRACE: &str = "trace";

const STEP: &str = "step";

const DRAW: &str = "draw";

const FORMAT: &str = "format";

const RUN: &str = "run";

const RECOVER: &str = "recover";

const MIGRATE: &str = "migrate";

const EXPLORE: &str = "explore";

const SERVE: &str = "serve";

const INSPECT: &str = "inspect";

const BACKUP: &str = "backup";

const RESTATE: &str = "restate";

pub(crate) const PLANT: &str = "PLANT";

pub(crate) const PICK: &str = "PICK";

pub(crate) const IMAGE: &str = "IMAGE";

pub(crate) const OLD: &str = "OLD";

pub(crate) const NEW: &str = "NEW";

pub(crate) const COPY: &str = "FILE";

pub(crate) const SCRIPT: &str = "SCRIPT";

pub(crate) const EXPLAIN: &str = "explain";

pub(crate) const ALL: &str = "all";

pub(crate) const WARN: &str = "warn";

pub(crate) const RUN_FORMAT: &str = "format";

pub(crate) const STATES: &str = "states";

pub(crate) const RANDOM: &str = "random";

pub(crate) const SEED: &str = "seed";

pub(crate) const SUMMARY: &str = "summary";

pub(crate) const SEEDS: &str = "seeds";

pub(crate) const WEIGHT: &str = "weight";

pub(crate) const PICKS: &str = "picks";

pub(crate) const STRICT: &str = "strict";

pub(crate) const SAVE_PICKS: &str = "save-picks";

pub(crate) const NEVER: &str = "never";

pub(crate) const UNTIL: &str = "until";

pub(crate) const MACHINES: &str = "machines";

pub(crate) const OUTLINE: &str = "outline";

pub(crate) const ONLY: &str = "only";

pub(crate) const AFTER: &str = "after";

pub(crate) const RING: &str = "ring";

pub(crate) const LIST: &str = "list";

pub(crate) const RECORDS: &str = "records";

pub(crate) const ONLY_NEW: &str = "new";

pub(crate) const WORKERS: &str = "workers";

pub(crate) const CAREFUL: &str = "careful";

/// The format in which a run is printed if none is named.
pub(crate) const LINES: &str = "lines";

/// The formats of a run, as `run_task` knows them.
pub(crate) const FORMATS: &[&str] = &[LINES, "csv", "jsonl", "vcd"];

/// The length of a ring if none is named.
pub(crate) const USUAL_RING: &str = "64";

/// How many workers a run has if none are named: its events are asked one after another, and answered.
pub(crate) const USUAL_WORKERS: &str = "0";

/// The commands.
#[derive(Clone, Copy, Debug, PartialEq, Eq)]
pub(crate) enum CommandName {
    /// Counts the parts of a plant.
    Check,
    /// Lists what can be fired next.
    Choices,
    /// Tells why a connector can't be fired next.
    Why,
    /// Runs a plant from its first state.
    Trace,
    /// Runs a plant by hand.
    Step,
    /// Draws a plant.
    Draw,
    /// Makes an image.
    Format,
    /// Runs a plant on its image.
    Run,
    /// Runs a plant on its image by events that are typed or sent.
    Serve,
    /// Tells where a plant stands by its image.
    Recover,
    /// Tells what an image holds.
    Inspect,
    /// Copies an image.
    Backup,
    /// Writes the text of a plant that begins where the image stands.
    Restate,
    /// Brings an image of the first layout over to a new one.
    Migrate,
    /// Tells what a power cut at each moment of a run leaves.
    Explore,
}

/// All commands, in the order of the help.
pub(crate) const COMMANDS: [CommandName; 15] = [
    CommandName::Check,
    CommandName::Choices,
    CommandName::Why,
    CommandName::Trace,
    CommandName::Step,
    CommandName::Draw,
    CommandName::Format,
    CommandName::Run,
    CommandName::Serve,
    CommandName::Recover,
    CommandName::Inspect,
    CommandName::Backup,
    CommandName::Restate,
    CommandName::Migrate,
    CommandName::Explore,
];

/// The word that names the command.
pub(crate) fn word_of(name: CommandName) -> &'static str
    ensures { result.now ≡ word_for name }
{
    match name {
        CommandName::Check => CHECK,
        CommandName::Choices => CHOICES,
        CommandName::Why => WHY,
        CommandName::Trace => TRACE,
        CommandName::Step => STEP,
        CommandName::Draw => DRAW,
        CommandName::Format => FORMAT,
        CommandName::Run => RUN,
        CommandName::Serve => SERVE,
        CommandName::Recover => RECOVER,
        CommandName::Inspect => INSPECT,
        CommandName::Backup => BACKUP,
        CommandName::Restate => RESTATE,
        CommandName::Migrate => MIGRATE,
        CommandName::Explore => EXPLORE,
    }
}

/// The command that the word names.
pub(crate) fn command_named(word: &str) -> Option<CommandName>
    ensures { result ≡ command_in word.now }
{
    COMMANDS
        .iter()
        .copied()
        .find(|name| word.as_bytes() == word_of(*name).as_bytes())
}
