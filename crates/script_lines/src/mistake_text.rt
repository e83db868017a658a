//! What is said of a line that asks for no event.
ghost use Rattle.std.specs.Prelude.{◌≡◌, ℕ, List, map, OnOk};
ghost use Rattle.std.specs.Io.KnownBytes.{Appends};
ghost use Rattle.std.specs.List.{list_any};
ghost use Rattle.petri_atom.specs.Name.{is_same_text};
ghost use Rattle.plant_model.specs.System.{plant_of};
ghost use Rattle.script_lines.specs.Mistakes.{fitting, listed_names, is_event, is_parted, mistake_text, more_names, place_at_fault, quoted, said_of, said_text, told_text, unknown_text, word_in, wrong_move_in, wrong_text};

use crate::mistake::{Mistake, Wrong};
use petri_atom::Atom;
use plant_model::{System, Wire};
use plant_words::{Words, is_numeric};
use recorded_picks::PlantNames;
use std::io::Write;
use text_io::{WriteFault, print_text};

/// How many bytes of a word are shown.
const MAX_WORD_SHOWN: usize = 40;

/// How many names are listed.
const MAX_LISTED: usize = 8;

/// Prints what is wrong with a line of a script for a plant of the system, and what could stand there. The line is not ended.
pub fn print_mistake<W: Write>(
    system: &System,
    line: &[u8],
    mistake: Mistake,
    output: &mut W,
) -> Result<(), WriteFault>
    ensures { OnOk result (Appends (W.contents output.old) (W.contents output.new) (mistake_text (plant_of system.now) line.now mistake)) }
{
    let word = word_in(line, place_at_fault(system, line, mistake));
    print_told(system, word, mistake.wrong, output)
}

/// Prints what is wrong with a word: what can be said of the word alone, or else what could stand there.
fn print_told<W: Write>(
    system: &System,
    word: &[u8],
    wrong: Wrong,
    output: &mut W,
) -> Result<(), WriteFault>
    ensures { OnOk result (Appends (W.contents output.old) (W.contents output.new) (told_text (plant_of system.now) word.now wrong)) }
{
    print_said(system, word, wrong, said_of(word, wrong).as_bytes(), output)
}

/// Prints this of a word, if it is something, or else what is wrong with it.
fn print_said<W: Write>(
    system: &System,
    word: &[u8],
    wrong: Wrong,
    said: &[u8],
    output: &mut W,
) -> Result<(), WriteFault>
    ensures { OnOk result (Appends (W.contents output.old) (W.contents output.new) (said_text (plant_of system.now) word.now wrong said.now)) }
{
    if said.is_empty() {
        print_wrong(system, word, wrong, output)
    } else {
        print_of_word(word, said, output)
    }
}

/// What is said of a word where this is wrong with it, whatever the plant has; empty if that is nothing.
fn said_of(word: &[u8], wrong: Wrong) -> &'static str
    ensures { result.now ≡ said_of word.now wrong }
{
    match wrong {
        Wrong::NoEvent
        | Wrong::BadNumber
        | Wrong::UnknownConnector
        | Wrong::UnknownMove
        | Wrong::UnknownAtom
        | Wrong::LeftOver
            if is_parted(word) => {
            " has a ';' or a ',': each event stands on a line of its own, and spaces alone stand between words"
        }
        Wrong::NoEvent if is_numeric(word) => {
            " is no event: write 'fire' before the number of a choice"
        }
        Wrong::LeftOver if word.first() == Some(&b'#') => {
            " is left over: a script has no comments"
        }
        Wrong::LeftOver if is_event(word) => {
            " is left over: each event stands on a line of its own"
        }
        _ => "",
    }
}

/// Whether the word has a sign that parts events, or words, in other languages.
fn is_parted(word: &[u8]) -> bool
    ensures { result ≡ is_parted word.now }
{
    word.iter().any(|byte| *byte == b';' || *byte == b',')
}

/// The first words of events.
pub(crate) const EVENTS: [&[u8]; 8] = [
    b"fire", b"flush", b"ask", b"put", b"save", b"trim", b"begin", b"back",
];

/// Whether an event begins with the word.
fn is_event(word: &[u8]) -> bool
    ensures { result ≡ is_event word.now }
{
    is_among(&EVENTS, word)
}

/// Whether the word is one of these.
fn is_among(words: &[&[u8]], word: &[u8]) -> bool
    ensures { result ≡ list_any (λ one. is_same_text one.now word.now) words.now }
{
    words.iter().any(|one| *one == word)
}

/// Prints what is wrong with a word, and what could stand there.
fn print_wrong<W: Write>(
    system: &System,
    word: &[u8],
    wrong: Wrong,
    output: &mut W,
) -> Result<(), WriteFault>
    ensures { OnOk result (Appends (W.contents output.old) (W.contents output.new) (wrong_text (plant_of system.now) word.now wrong)) }
{
    match wrong {
        Wrong::Byte => print_text(
            output,
            b"the line has a byte that is neither printed ASCII nor a tab",
        ),
        Wrong::Comment => print_text(output, b"a script has no comments"),
        Wrong::NoEvent => print_of_word(
            word,
            b" is no event: fire, flush, ask, put, save, trim, begin or back",
            output,
        ),
        Wrong::NoChoice => print_text(
            output,
            b"the number of a choice is missing, or a choice as a fired line names it: CONNECTOR ATOM.PORT/TRANSITION ..",
        ),
        Wrong::NoNumber => print_text(output, b"the number of a choice is missing"),
        Wrong::BadNumber => print_of_word(
            word,
            b" is no number from 0 to 18446744073709551615",
            output,
        ),
        Wrong::UnknownConnector => {
            print_unknown(b"the plant has no connector ", word, system.wires(), output)
        }
        Wrong::UnknownMove => print_of_word(
            word,
            b" is no ATOM.PORT/TRANSITION of the plant",
            output,
        ),
        Wrong::NoInteraction => print_of_word(word, b" has no interaction of these moves", output),
        Wrong::NoName => {
            print_text(output, b"the name of an atom is missing; the plant has: ")?;
            print_names(system.atoms(), output)
        }
        Wrong::UnknownAtom => {
            print_unknown(b"the plant has no atom ", word, system.atoms(), output)
        }
        Wrong::LeftOver => print_of_word(word, b" is left over", output),
    }
}

/// The place of the word at fault: of a word that is no move the first of these.
pub(crate) fn place_at_fault(system: &System, line: &[u8], mistake: Mistake) -> usize
    ensures { result ≡ place_at_fault (plant_of system.now) line.now mistake }
{
    match mistake.wrong {
        Wrong::UnknownMove => wrong_move_in(system, line),
        _ => mistake.word,
    }
}

/// The place of the first word behind a connector's name that is no move of the plant.
fn wrong_move_in(system: &System, line: &[u8]) -> usize
    ensures { result ≡ wrong_move_in (plant_of system.now) line.now }
{
    let names = PlantNames::plain(system);
    let mut words = Words::new(line);
    let _ = words.next_word();
    let _ = words.next_word();
    let mut place = 2;
    while let Some(word) = words.next_word() {
        if names.find_move(word).is_none() {
            return place;
        }
        place += 1;
    }
    place
}

/// The word of the line with this place, from 0; empty if it has none.
pub fn word_in(line: &[u8], place: usize) -> &[u8]
    ensures { result.now ≡ word_in line.now place }
{
    let mut words = Words::new(line);
    let mut left = place;
    while let Some(word) = words.next_word() {
        if left == 0 {
            return word;
        }
        left -= 1;
    }
    &[]
}

/// Prints a word in quotes, of a long one the first bytes, and what is said of it.
pub fn print_of_word<W: Write>(word: &[u8], said: &[u8], output: &mut W) -> Result<(), WriteFault>
    ensures { OnOk result (Appends (W.contents output.old) (W.contents output.new) (quoted word.now said.now)) }
{
    print_text(output, b"'")?;
    print_fitting(word, output)?;
    print_text(output, b"'")?;
    print_text(output, said)
}

/// Prints a word, or the first bytes of a long one.
fn print_fitting<W: Write>(word: &[u8], output: &mut W) -> Result<(), WriteFault>
    ensures { OnOk result (Appends (W.contents output.old) (W.contents output.new) (fitting word.now)) }
{
    if word.len() <= MAX_WORD_SHOWN {
        return print_text(output, word);
    }
    let (front, _) = word.split_at(MAX_WORD_SHOWN - 3);
    print_text(output, front)?;
    print_text(output, b"...")
}

/// A part of a plant that has a name.
trait Named {
    ghost name_of: { Self → List ℕ };

    /// Its name.
    fn name_bytes(&self) -> &[u8]
        ensures { result.now ≡ name_of self.now };
}

impl Named for Atom {
    ghost use Rattle.petri_atom.specs.Atom.{definition_of};

    ghost name_of = { λ atom. (definition_of atom).name };

    fn name_bytes(&self) -> &[u8] {
        self.name().as_bytes()
    }
}

impl Named for Wire {
    ghost use Rattle.plant_model.specs.Wire.{wire_of};

    ghost name_of = { λ wire. (wire_of wire).name };

    fn name_bytes(&self) -> &[u8] {
        self.name.as_bytes()
    }
}

/// Prints that none of these parts has the word as its name, and which names they have.
fn print_unknown<T: Named, W: Write>(
    none: &[u8],
    word: &[u8],
    parts: &[T],
    output: &mut W,
) -> Result<(), WriteFault>
    ensures { OnOk result (Appends (W.contents output.old) (W.contents output.new) (unknown_text none.now word.now (map T.name_of parts.now))) }
{
    print_text(output, none)?;
    print_of_word(word, b"; it has: ", output)?;
    print_names(parts, output)
}

/// Prints the names of parts, the first ones if there are many.
fn print_names<T: Named, W: Write>(parts: &[T], output: &mut W) -> Result<(), WriteFault>
    ensures { OnOk result (Appends (W.contents output.old) (W.contents output.new) (listed_names (map T.name_of parts.now))) }
{
    match parts {
        [] => print_text(output, b"none"),
        [first, others @ ..] => {
            print_text(output, first.name_bytes())?;
            print_more_names(MAX_LISTED - 1, others, output)
        }
    }
}

/// Prints so many names after others, and then that there are more.
fn print_more_names<T: Named, W: Write>(
    room: usize,
    parts: &[T],
    output: &mut W,
) -> Result<(), WriteFault>
    ensures { OnOk result (Appends (W.contents output.old) (W.contents output.new) (more_names room (map T.name_of parts.now))) }
{
    match parts {
        [] => print_text(output, b""),
        [first, others @ ..] => {
            if room == 0 {
                return print_text(output, b", ..");
            }
            print_text(output, b", ")?;
            print_text(output, first.name_bytes())?;
            print_more_names(room - 1, others, output)
        }
    }
}
