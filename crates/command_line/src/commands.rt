//! The commands of the program, with their arguments and options.
use crate::arguments::{Argument, described};
use crate::help::{
    ABOUT, AFTER, BACKUP_ABOUT, BACKUP_AFTER, BACKUP_BRIEF, BRIEF, CHECK_ABOUT, CHECK_AFTER,
    CHECK_BRIEF, CHOICES_ABOUT, CHOICES_AFTER, CHOICES_BRIEF, DRAW_ABOUT, DRAW_AFTER, DRAW_BRIEF,
    DRAW_USAGE, EXPLORE_ABOUT, EXPLORE_AFTER, EXPLORE_BRIEF, FORMAT_ABOUT, FORMAT_AFTER,
    FORMAT_BRIEF, INSPECT_ABOUT, INSPECT_AFTER, INSPECT_BRIEF, MIGRATE_ABOUT, MIGRATE_AFTER,
    MIGRATE_BRIEF, RECOVER_ABOUT, RECOVER_AFTER, RECOVER_BRIEF, RESTATE_ABOUT, RESTATE_AFTER,
    RESTATE_BRIEF, RUN_ABOUT, RUN_AFTER, RUN_BRIEF, SERVE_ABOUT, SERVE_AFTER, SERVE_BRIEF,
    STEP_ABOUT, STEP_AFTER, STEP_BRIEF, TRACE_ABOUT, TRACE_AFTER, TRACE_BRIEF, VERSION, WHY_ABOUT,
    WHY_AFTER, WHY_BRIEF,
};
use crate::names::{COMMANDS, CommandName, word_of};
use clap::Command;
use std::alloc::{AllocError, Global};

/// The program with its commands.
pub(crate) fn program<'a>(alloc: Global) -> Result<Command<'a>, AllocError> {
    let mut program = Command::new(alloc, "bip_run")
        .version(VERSION)
        .about(BRIEF)
        .long_about(ABOUT)
        .after_long_help(AFTER)
        .subcommand_required(true)
        .arg_required_else_help(true);
    for name in COMMANDS {
        program = program.subcommand(command_called(alloc, name)?)?;
    }
    Ok(program)
}

/// The command with this name alone, as a part of the program: what it answers shows how it is used.
pub(crate) fn command_alone<'a>(
    alloc: Global,
    name: CommandName,
) -> Result<Command<'a>, AllocError> {
    command_called(alloc, name)?.bin_name(words_of(name))
}

/// The words that call for the command.
fn words_of(name: CommandName) -> &'static str {
    match name {
        CommandName::Check => "bip_run check",
        CommandName::Choices => "bip_run choices",
        CommandName::Why => "bip_run why",
        CommandName::Trace => "bip_run trace",
        CommandName::Step => "bip_run step",
        CommandName::Draw => "bip_run draw",
        CommandName::Format => "bip_run format",
        CommandName::Run => "bip_run run",
        CommandName::Serve => "bip_run serve",
        CommandName::Recover => "bip_run recover",
        CommandName::Inspect => "bip_run inspect",
        CommandName::Backup => "bip_run backup",
        CommandName::Restate => "bip_run restate",
        CommandName::Migrate => "bip_run migrate",
        CommandName::Explore => "bip_run explore",
    }
}

/// The word that names a command, and what its help says: in the list of commands, above its arguments, and below them.
#[derive(Clone, Copy)]
struct Help<'a> {
    word: &'a str,
    brief: &'a str,
    about: &'a str,
    after: &'a str,
}

/// The help of the command.
fn help_of<'a>(name: CommandName) -> Help<'a> {
    let (brief, about, after) = match name {
        CommandName::Check => (CHECK_BRIEF, CHECK_ABOUT, CHECK_AFTER),
        CommandName::Choices => (CHOICES_BRIEF, CHOICES_ABOUT, CHOICES_AFTER),
        CommandName::Why => (WHY_BRIEF, WHY_ABOUT, WHY_AFTER),
        CommandName::Trace => (TRACE_BRIEF, TRACE_ABOUT, TRACE_AFTER),
        CommandName::Step => (STEP_BRIEF, STEP_ABOUT, STEP_AFTER),
        CommandName::Draw => (DRAW_BRIEF, DRAW_ABOUT, DRAW_AFTER),
        CommandName::Format => (FORMAT_BRIEF, FORMAT_ABOUT, FORMAT_AFTER),
        CommandName::Run => (RUN_BRIEF, RUN_ABOUT, RUN_AFTER),
        CommandName::Serve => (SERVE_BRIEF, SERVE_ABOUT, SERVE_AFTER),
        CommandName::Recover => (RECOVER_BRIEF, RECOVER_ABOUT, RECOVER_AFTER),
        CommandName::Inspect => (INSPECT_BRIEF, INSPECT_ABOUT, INSPECT_AFTER),
        CommandName::Backup => (BACKUP_BRIEF, BACKUP_ABOUT, BACKUP_AFTER),
        CommandName::Restate => (RESTATE_BRIEF, RESTATE_ABOUT, RESTATE_AFTER),
        CommandName::Migrate => (MIGRATE_BRIEF, MIGRATE_ABOUT, MIGRATE_AFTER),
        CommandName::Explore => (EXPLORE_BRIEF, EXPLORE_ABOUT, EXPLORE_AFTER),
    };
    Help {
        word: word_of(name),
        brief,
        about,
        after,
    }
}

/// The arguments of a command that runs a plant by picks and prints what it comes to.
const BY_PICKS: &[Argument] = &[
    Argument::Picks,
    Argument::Strict,
    Argument::Random,
    Argument::Seed,
    Argument::Explain,
    Argument::Plant,
    Argument::Pick,
];

/// The arguments and options of the command, in the order of its help.
fn arguments_of(name: CommandName) -> &'static [Argument] {
    match name {
        CommandName::Check => &[
            Argument::Warn,
            Argument::All,
            Argument::Explain,
            Argument::Plant,
        ],
        CommandName::Choices | CommandName::Why => BY_PICKS,
        CommandName::Trace => &[
            Argument::RunFormat,
            Argument::States,
            Argument::Summary,
            Argument::Picks,
            Argument::Strict,
            Argument::SavePicks,
            Argument::Never,
            Argument::Until,
            Argument::Random,
            Argument::Seed,
            Argument::Seeds,
            Argument::Weight,
            Argument::Explain,
            Argument::Plant,
            Argument::Pick,
        ],
        CommandName::Step => &[
            Argument::PicksFile,
            Argument::Strict,
            Argument::Explain,
            Argument::PlantFile,
        ],
        CommandName::Draw => &[
            Argument::Machines,
            Argument::Outline,
            Argument::Only,
            Argument::After,
            Argument::Picks,
            Argument::Strict,
            Argument::Explain,
            Argument::Plant,
        ],
        CommandName::Format => &[
            Argument::OnlyNew,
            Argument::Ring,
            Argument::Explain,
            Argument::Plant,
            Argument::Image,
        ],
        CommandName::Run => &[
            Argument::Workers,
            Argument::StrictRun,
            Argument::Careful,
            Argument::Explain,
            Argument::Plant,
            Argument::Image,
            Argument::Script,
        ],
        CommandName::Serve => &[
            Argument::Careful,
            Argument::Explain,
            Argument::PlantFile,
            Argument::Image,
        ],
        CommandName::Recover => &[
            Argument::Careful,
            Argument::Explain,
            Argument::Plant,
            Argument::Image,
        ],
        CommandName::Restate => &[Argument::Explain, Argument::Plant, Argument::Image],
        CommandName::Inspect => &[
            Argument::Records,
            Argument::ImageStates,
            Argument::Explain,
            Argument::Image,
            Argument::PlantOfImage,
        ],
        CommandName::Backup => &[Argument::Explain, Argument::Image, Argument::Copy],
        CommandName::Migrate => &[
            Argument::Ring,
            Argument::Explain,
            Argument::Plant,
            Argument::Old,
            Argument::New,
        ],
        CommandName::Explore => &[
            Argument::Ring,
            Argument::List,
            Argument::Explain,
            Argument::Plant,
            Argument::Script,
        ],
    }
}

/// A command with its help, and no argument yet.
fn with_help<'a>(alloc: Global, help: Help<'a>) -> Command<'a> {
    Command::new(alloc, help.word)
        .about(help.brief)
        .long_about(help.about)
        .after_long_help(help.after)
}

/// The command with this name.
fn command_called<'a>(alloc: Global, name: CommandName) -> Result<Command<'a>, AllocError> {
    let mut command = with_help(alloc, help_of(name));
    if name == CommandName::Draw {
        // What 'clap' would show puts PLANT after the picks, which would take it for one of them.
        command = command.override_usage(DRAW_USAGE);
    }
    for argument in arguments_of(name) {
        command = command.arg(described(alloc, *argument))?;
    }
    Ok(command)
}
