//! The line of a place or of a variable, with another first state.
ghost use Rattle.std.specs.Prelude.{◌≡◌, ◌++◌, OnOk};
ghost use Rattle.std.specs.Fmt.{signed_decimal};
ghost use Rattle.restated_text.specs.Lines.{place_line, says_marked, says_value, variable_line};

use crate::cuts::{behind_name, behind_word, blanks_before, from_word, up_to_name, word_at};
use itoa::Buffer;
use plant_words::read_int;
use std::alloc::AllocError;

/// Adds the line of a place that is marked, or is not.
pub(crate) fn add_place_line(
    text: &mut Vec<u8>,
    line: &[u8],
    marked: bool,
) -> Result<(), AllocError>
    ensures { OnOk result (text.new.items ≡ text.old.items ++ place_line marked line.now) }
{
    if says_marked(line) == marked {
        return text.extend_from_slice(line);
    }
    text.extend_from_slice(up_to_name(line))?;
    if marked {
        text.extend_from_slice(b" init")?;
        text.extend_from_slice(behind_name(line))
    } else {
        text.extend_from_slice(behind_word(behind_name(line)))
    }
}

/// Adds the line of a variable that has the value.
pub(crate) fn add_variable_line(
    text: &mut Vec<u8>,
    line: &[u8],
    value: i64,
) -> Result<(), AllocError>
    ensures { OnOk result (text.new.items ≡ text.old.items ++ variable_line value line.now) }
{
    let behind = behind_name(line);
    if says_value(word_at(behind), value) {
        return text.extend_from_slice(line);
    }
    text.extend_from_slice(up_to_name(line))?;
    text.extend_from_slice(blanks_before(behind))?;
    add_number(text, value)?;
    text.extend_from_slice(behind_word(behind))
}

/// Adds a number in decimal, with a minus in front where it is below 0.
fn add_number(text: &mut Vec<u8>, value: i64) -> Result<(), AllocError>
    ensures { OnOk result (text.new.items ≡ text.old.items ++ signed_decimal value) }
{
    text.extend_from_slice(Buffer::new().format(value).as_bytes())
}

/// Whether the line of a place says that it is marked.
fn says_marked(line: &[u8]) -> bool
    ensures { result ≡ says_marked line.now }
{
    !from_word(behind_name(line)).is_empty()
}

/// Whether the word says the value.
fn says_value(word: &[u8], value: i64) -> bool
    ensures { result ≡ says_value value word.now }
{
    match read_int(word) {
        Some(number) => number == value,
        None => false,
    }
}
