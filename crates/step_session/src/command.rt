//! What a line asks for.
ghost use Rattle.std.specs.Prelude.{◌≡◌};
ghost use Rattle.step_session.specs.Command.{alone, command_after, command_in, count_in, ends, fire_in, most_in, most_number, number_in, random_in, save_in, until_in, why_in};
ghost use Rattle.step_session.specs.CommandOf.{command_of};

use crate::lines::MAX_LINE;
use plant_words::{Words, is_numeric, read_decimal};

/// How many random choices `until` fires at most, if no number says it.
const MOST_UNTIL: u64 = 1_000_000;

/// What a line asks for.
#[derive(Clone, Copy)]
pub(crate) enum Command<'a> {
    /// Where the plant stands, and what can be fired.
    Show,
    /// To fire the choice with this number.
    Fire(u64),
    /// To fire the one choice of the connector with this name.
    FireNamed(&'a [u8]),
    /// To take the last firing back.
    Back,
    /// To fire so many random choices.
    Random(u64),
    /// To fire random choices until the connector with this name can be fired, but so many at most.
    Until(&'a [u8], u64),
    /// Why each connector can't be fired.
    Why,
    /// Why the connector with this name can't be fired.
    WhyOf(&'a [u8]),
    /// To save what was fired at this path.
    Save(&'a [u8]),
    /// What can be asked for.
    Help,
    /// To end.
    Quit,
    /// Nothing: the line is mistaken.
    Mistaken(Mistake<'a>),
}

/// Why a line asks for nothing.
#[derive(Clone, Copy)]
pub(crate) enum Mistake<'a> {
    /// It has more than `MAX_LINE` bytes.
    TooLong,
    /// Its first word is neither a number nor a command.
    NoCommand(&'a [u8]),
    /// A word stands after the last one that belongs to the command.
    LeftOver(&'a [u8]),
    /// A word has to be a number within 64 bits, and is none.
    NoNumber(&'a [u8]),
    /// How many random choices are to be fired is missing.
    NoCount,
    /// The file in which to save is missing.
    NoFile,
    /// The connector that is to be fired is missing.
    NoFired,
    /// The connector that is waited for is missing.
    NoAwaited,
}

impl<'a> Command<'a> {
    /// Whether the session ends.
    pub(crate) fn ends(&self) -> bool
        ensures { result ≡ ends (command_of self.now) }
    {
        matches!(self, Command::Quit)
    }
}

/// What the line asks for.
pub(crate) fn read_command(line: &[u8]) -> Command<'_>
    ensures { command_of result ≡ command_in line.now }
{
    if line.len() > MAX_LINE {
        return Command::Mistaken(Mistake::TooLong);
    }
    let mut words = Words::new(line);
    match words.next_word() {
        Some(first) => command_after(first, &mut words),
        None => Command::Show,
    }
}

/// What a first word and the words after it ask for.
fn command_after<'a>(first: &'a [u8], words: &mut Words<'a>) -> Command<'a>
    ensures { command_of result ≡ command_after first.now words.old }
{
    if is_numeric(first) {
        alone(number_in(first), words)
    } else if first == b"fire".as_slice() {
        fire_in(words)
    } else if first == b"back".as_slice() {
        alone(Command::Back, words)
    } else if first == b"random".as_slice() {
        random_in(words)
    } else if first == b"until".as_slice() {
        until_in(words)
    } else if first == b"why".as_slice() {
        why_in(words)
    } else if first == b"state".as_slice() {
        alone(Command::Show, words)
    } else if first == b"save".as_slice() {
        save_in(words)
    } else if first == b"help".as_slice() {
        alone(Command::Help, words)
    } else if first == b"quit".as_slice() {
        alone(Command::Quit, words)
    } else {
        Command::Mistaken(Mistake::NoCommand(first))
    }
}

/// The command, if no word stands after it.
fn alone<'a>(command: Command<'a>, words: &mut Words<'a>) -> Command<'a>
    ensures { command_of result ≡ alone (command_of command.entry) words.old }
{
    match words.next_word() {
        Some(word) => Command::Mistaken(Mistake::LeftOver(word)),
        None => command,
    }
}

/// To fire the choice with the number that the word writes.
fn number_in(word: &[u8]) -> Command<'_>
    ensures { command_of result ≡ number_in word.now }
{
    match read_decimal(word) {
        Some(number) => Command::Fire(number),
        None => Command::Mistaken(Mistake::NoNumber(word)),
    }
}

/// What the words after `random` ask for.
fn random_in<'a>(words: &mut Words<'a>) -> Command<'a>
    ensures { command_of result ≡ random_in words.old }
{
    match words.next_word() {
        Some(word) => alone(count_in(word), words),
        None => Command::Mistaken(Mistake::NoCount),
    }
}

/// To fire as many random choices as the word writes.
fn count_in(word: &[u8]) -> Command<'_>
    ensures { command_of result ≡ count_in word.now }
{
    match read_decimal(word) {
        Some(count) => Command::Random(count),
        None => Command::Mistaken(Mistake::NoNumber(word)),
    }
}

/// What the words after `fire` ask for.
fn fire_in<'a>(words: &mut Words<'a>) -> Command<'a>
    ensures { command_of result ≡ fire_in words.old }
{
    match words.next_word() {
        Some(name) => alone(Command::FireNamed(name), words),
        None => Command::Mistaken(Mistake::NoFired),
    }
}

/// What the words after `until` ask for.
fn until_in<'a>(words: &mut Words<'a>) -> Command<'a>
    ensures { command_of result ≡ until_in words.old }
{
    match words.next_word() {
        Some(name) => most_in(name, words),
        None => Command::Mistaken(Mistake::NoAwaited),
    }
}

/// What the words after the name of a connector that is waited for ask for.
fn most_in<'a>(name: &'a [u8], words: &mut Words<'a>) -> Command<'a>
    ensures { command_of result ≡ most_in name.now words.old }
{
    match words.next_word() {
        Some(word) => alone(most_number(name, word), words),
        None => Command::Until(name, MOST_UNTIL),
    }
}

/// To fire as many random choices as the word writes at most, until the connector with the name can be fired.
fn most_number<'a>(name: &'a [u8], word: &'a [u8]) -> Command<'a>
    ensures { command_of result ≡ most_number name.now word.now }
{
    match read_decimal(word) {
        Some(most) => Command::Until(name, most),
        None => Command::Mistaken(Mistake::NoNumber(word)),
    }
}

/// What the words after `why` ask for.
fn why_in<'a>(words: &mut Words<'a>) -> Command<'a>
    ensures { command_of result ≡ why_in words.old }
{
    match words.next_word() {
        Some(name) => alone(Command::WhyOf(name), words),
        None => Command::Why,
    }
}

/// What the words after `save` ask for.
fn save_in<'a>(words: &mut Words<'a>) -> Command<'a>
    ensures { command_of result ≡ save_in words.old }
{
    match words.next_word() {
        Some(path) => alone(Command::Save(path), words),
        None => Command::Mistaken(Mistake::NoFile),
    }
}
