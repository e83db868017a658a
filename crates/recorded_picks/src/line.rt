//! What a line of a file of picks says.
ghost use Rattle.std.specs.Prelude.{◌≡◌, option_map};
ghost use Rattle.run_text.specs.Seen.{plant_of};
ghost use Rattle.run_text.specs.Picks.{take_of};
ghost use Rattle.recorded_picks.specs.Lines.{is_remark, lone_number, said_in, take_by};

use crate::choice::read_choice;
use crate::kept_line::MAX_PICK_LINE;
use crate::names::PlantNames;
use plant_words::{Words, read_decimal};
use run_text::{Misread, Numbers, Take};

/// What a line takes; nothing if it is passed over.
pub(crate) fn take_of_line(names: &PlantNames<'_>, numbers: Numbers, line: &[u8]) -> Option<Take>
    ensures { option_map take_of result ≡ said_in numbers (plant_of names.now.system.now) line.now }
{
    let mut words = Words::new(&line[..MAX_PICK_LINE.min(line.len())]);
    if is_remark(&mut words) {
        return None;
    }
    if line.len() > MAX_PICK_LINE {
        return Some(Take::Misread(Misread::TooLong));
    }
    let first = words.next_word()?;
    Some(take_of_words(names, numbers, first, &mut words))
}

/// Whether the first word, if there is one, begins with `#`.
fn is_remark(words: &mut Words<'_>) -> bool
    ensures remark { result ≡ is_remark words.old }
    ensures kept { words.new ≡ words.old }
{
    match words.peek() {
        Some(word) => word.first() == Some(&b'#'),
        None => false,
    }
}

/// What a first word and those after it take.
fn take_of_words(
    names: &PlantNames<'_>,
    numbers: Numbers,
    first: &[u8],
    words: &mut Words<'_>,
) -> Take
    ensures { take_of result ≡ take_by numbers (plant_of names.now.system.now) first.now words.old }
{
    if let Some(number) = lone_number(first, words) {
        return numbers.take(number);
    }
    match read_choice(names, first, words) {
        Ok(choice) => Take::Named(choice),
        Err(misread) => Take::Misread(misread),
    }
}

/// The number that the first word is, if no other follows.
fn lone_number(first: &[u8], words: &mut Words<'_>) -> Option<u64>
    ensures number { result ≡ lone_number first.now words.old }
    ensures kept { words.new ≡ words.old }
{
    match words.peek() {
        Some(_) => None,
        None => read_decimal(first),
    }
}
