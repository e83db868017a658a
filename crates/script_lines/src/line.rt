//! What one line of a script says.
ghost use Rattle.std.specs.Prelude.{◌≡◌};
ghost use Rattle.plant_model.specs.System.{plant_of};
ghost use Rattle.script_lines.specs.Script.{alone, asked_for, event_in, fire_in, line_in, misread_at, only_atom, only_pick, pick_in_line};

use crate::mistake::{Mistake, Wrong};
use plant_core::Event;
use plant_model::{Inputs, System};
use plant_words::{Words, is_legal, is_numeric, read_decimal};
use recorded_picks::{PlantNames, read_choice};
use run_text::Misread;

/// What a line of a script says.
#[derive(Drop)]
pub enum ScriptLine {
    /// It has no words.
    Nothing,
    /// It asks for this event.
    Asks(Event),
    /// It asks for none: this is wrong with it.
    Mistaken(Mistake),
}

/// What the line says, in a script for a plant of the system.
pub fn read_line(system: &System, line: &[u8]) -> ScriptLine
    ensures { result ≡ line_in (plant_of system.now) line.now }
{
    if !is_legal(line) {
        return ScriptLine::Mistaken(Mistake::at(0, Wrong::Byte));
    }
    let mut words = Words::new(line);
    match words.next_word() {
        Some(first) => asked_for(event_in(system, first, &mut words)),
        None => ScriptLine::Nothing,
    }
}

/// A line whose words ask for this event, or have this mistake.
fn asked_for(event: Result<Event, Mistake>) -> ScriptLine
    ensures { result ≡ asked_for event }
{
    match event {
        Ok(event) => ScriptLine::Asks(event),
        Err(mistake) => ScriptLine::Mistaken(mistake),
    }
}

/// The event that a first word and the words after it ask for.
fn event_in(system: &System, first: &[u8], words: &mut Words<'_>) -> Result<Event, Mistake>
    ensures { result ≡ event_in (plant_of system.now) first.now words.old }
{
    if first == b"fire".as_slice() {
        fire_in(system, words)
    } else if first == b"flush".as_slice() {
        alone(1, Event::Flush, words)
    } else if first == b"ask".as_slice() {
        Ok(Event::Ask(only_atom(system, words)?))
    } else if first == b"put".as_slice() {
        Ok(Event::Put(only_atom(system, words)?))
    } else if first == b"save".as_slice() {
        alone(1, Event::Save, words)
    } else if first == b"trim".as_slice() {
        alone(1, Event::Trim, words)
    } else if first == b"begin".as_slice() {
        Ok(Event::Begin(u128::from(only_pick(words)?), Inputs::none()))
    } else if first == b"back".as_slice() {
        Ok(Event::Back(only_atom(system, words)?))
    } else if first.first() == Some(&b'#') {
        Err(Mistake::at(0, Wrong::Comment))
    } else {
        Err(Mistake::at(0, Wrong::NoEvent))
    }
}

/// The event, which so many words asked for, if none stands after them.
fn alone(count: usize, event: Event, words: &mut Words<'_>) -> Result<Event, Mistake>
    ensures { result ≡ alone count event words.old }
{
    match words.next_word() {
        Some(_) => Err(Mistake::at(count, Wrong::LeftOver)),
        None => Ok(event),
    }
}

/// The event that the words after `fire` ask for: a pick alone, or a choice as a fired line names it.
fn fire_in(system: &System, words: &mut Words<'_>) -> Result<Event, Mistake>
    ensures { result ≡ fire_in (plant_of system.now) words.old }
{
    let Some(first) = words.next_word() else {
        return Err(Mistake::at(1, Wrong::NoChoice));
    };
    if is_numeric(first) {
        let pick = u128::from(pick_in_line(first, words)?);
        return Ok(Event::Fire(pick, Inputs::none()));
    }
    match read_choice(&PlantNames::plain(system), first, words) {
        Ok(choice) => Ok(Event::FireChoice(choice, Inputs::none())),
        Err(misread) => Err(misread_at(misread)),
    }
}

/// What is wrong where words name no choice.
fn misread_at(misread: Misread) -> Mistake
    ensures { result ≡ misread_at misread }
{
    match misread {
        Misread::UnknownConnector(_) => Mistake::at(1, Wrong::UnknownConnector),
        Misread::UnknownMove(_) => Mistake::at(2, Wrong::UnknownMove),
        Misread::NoInteraction | Misread::TooLong => Mistake::at(1, Wrong::NoInteraction),
    }
}

/// The pick that is the only one of the words.
fn only_pick(words: &mut Words<'_>) -> Result<u64, Mistake>
    ensures { result ≡ only_pick words.old }
{
    match words.next_word() {
        Some(word) => pick_in_line(word, words),
        None => Err(Mistake::at(1, Wrong::NoNumber)),
    }
}

/// The pick that the second word of a line is, if no word stands after it.
fn pick_in_line(word: &[u8], words: &mut Words<'_>) -> Result<u64, Mistake>
    ensures { result ≡ pick_in_line word.now words.old }
{
    let Some(pick) = read_decimal(word) else {
        return Err(Mistake::at(1, Wrong::BadNumber));
    };
    match words.next_word() {
        Some(_) => Err(Mistake::at(2, Wrong::LeftOver)),
        None => Ok(pick),
    }
}

/// The number of the atom whose name is the only one of the words.
fn only_atom(system: &System, words: &mut Words<'_>) -> Result<u16, Mistake>
    ensures { result ≡ only_atom (plant_of system.now) words.old }
{
    let Some(name) = words.next_word() else {
        return Err(Mistake::at(1, Wrong::NoName));
    };
    let Some(atom) = system.atom_named(name) else {
        return Err(Mistake::at(1, Wrong::UnknownAtom));
    };
    match words.next_word() {
        Some(_) => Err(Mistake::at(2, Wrong::LeftOver)),
        None => Ok(atom),
    }
}
