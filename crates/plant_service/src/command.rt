//! What a line asks for.
ghost use Rattle.std.specs.Prelude.{◌≡◌};
ghost use Rattle.plant_model.specs.System.{plant_of};
ghost use Rattle.plant_service.specs.Command.{alone, command_after, command_in, of_script, why_in};

use crate::line_length::MAX_LINE;
use plant_core::Event;
use plant_model::System;
use plant_words::{Words, is_legal};
use script_lines::{Mistake, ScriptLine, Wrong, read_line};

/// What a line asks for.
#[derive(Drop)]
pub(crate) enum Command {
    /// Nothing: it has no words.
    Nothing,
    /// This event.
    Asks(Event),
    /// Which choices the plant has.
    Choices,
    /// Where the plant stands.
    State,
    /// Why each connector can't be fired.
    Why,
    /// Why the connector with this number can't be fired.
    WhyOf(u16),
    /// How far the plant is.
    Front,
    /// How much room there is for records, and which atoms take it.
    Room,
    /// To store each state that is behind the acknowledged one, and to drop the records that no restart needs.
    Save,
    /// To end.
    Quit,
    /// Nothing: this is wrong with it.
    Mistaken(Mistake),
    /// Nothing: it has more than `MAX_LINE` bytes.
    TooLong,
}

impl Command {
    ghost use Rattle.plant_service.specs.Command.{ends};

    /// Whether the session ends.
    pub(crate) fn ends(&self) -> bool
        ensures { result ≡ ends self.now }
    {
        matches!(self, Command::Quit)
    }
}

/// What the line asks for, of a plant of the system.
pub(crate) fn read_command(system: &System, line: &[u8]) -> Command
    ensures { result ≡ command_in (plant_of system.now) line.now }
{
    if line.len() > MAX_LINE {
        return Command::TooLong;
    }
    if !is_legal(line) {
        return Command::Mistaken(Mistake {
            word: 0,
            wrong: Wrong::Byte,
        });
    }
    let mut words = Words::new(line);
    match words.next_word() {
        Some(first) => command_after(system, line, first, &mut words),
        None => Command::Nothing,
    }
}

/// What a line asks for that has this first word and these after it.
fn command_after(system: &System, line: &[u8], first: &[u8], words: &mut Words<'_>) -> Command
    ensures { result ≡ command_after (plant_of system.now) line.now first.now words.old }
{
    if first == b"choices".as_slice() {
        alone(Command::Choices, words)
    } else if first == b"state".as_slice() {
        alone(Command::State, words)
    } else if first == b"why".as_slice() {
        why_in(system, words)
    } else if first == b"front".as_slice() {
        alone(Command::Front, words)
    } else if first == b"room".as_slice() {
        alone(Command::Room, words)
    } else if first == b"save".as_slice() {
        alone(Command::Save, words)
    } else if first == b"quit".as_slice() {
        alone(Command::Quit, words)
    } else {
        of_script(read_line(system, line))
    }
}

/// The command, if no word stands after its first.
fn alone(command: Command, words: &mut Words<'_>) -> Command
    ensures { result ≡ alone command words.old }
{
    match words.next_word() {
        Some(_) => Command::Mistaken(Mistake {
            word: 1,
            wrong: Wrong::LeftOver,
        }),
        None => command,
    }
}

/// What the words after `why` ask for: no word, or the name of a connector.
fn why_in(system: &System, words: &mut Words<'_>) -> Command
    ensures { result ≡ why_in (plant_of system.now) words.old }
{
    let Some(name) = words.next_word() else {
        return Command::Why;
    };
    let Some(connector) = system.connector_named(name) else {
        return Command::Mistaken(Mistake {
            word: 1,
            wrong: Wrong::UnknownConnector,
        });
    };
    match words.next_word() {
        Some(_) => Command::Mistaken(Mistake {
            word: 2,
            wrong: Wrong::LeftOver,
        }),
        None => Command::WhyOf(connector),
    }
}

/// What a line asks for as a line of a script.
fn of_script(line: ScriptLine) -> Command
    ensures { result ≡ of_script line }
{
    match line {
        ScriptLine::Nothing => Command::Nothing,
        ScriptLine::Asks(event) => Command::Asks(event),
        ScriptLine::Mistaken(mistake) => Command::Mistaken(mistake),
    }
}
