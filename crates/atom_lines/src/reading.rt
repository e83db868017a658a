//! Steps of reading the line of an atom, beside those that lines of every kind share: each takes words, or answers the fault of one.
ghost use Rattle.std.specs.Prelude.{◌≡◌, drop, false, MatchOption, true, ◌∷◌};
ghost use Rattle.atom_lines.specs.Reading.{first_number, goes_on, mark_in, value_in};
ghost use Rattle.atom_lines.specs.Transitions.{ends_places};

use plant_words::reading::{end, next_keyword, next_word};
use plant_words::{LineFault, Words, read_int};

/// The next word as a number.
fn next_number(words: &mut Words) -> Result<i64, LineFault>
    ensures number { result ≡ first_number words.old }
    ensures taken { words.new ≡ drop 1 words.old }
{
    let word = next_word(words)?;
    read_int(word).ok_or(LineFault::BadNumber)
}

/// Whether the words that are left mark a place at first.
pub(crate) fn read_mark(words: &mut Words) -> Result<bool, LineFault>
    ensures { result ≡ mark_in words.old }
{
    let marked = goes_on(words, b"init")?;
    end(words)?;
    Ok(marked)
}

/// The number that the words that are left say, which is one word.
pub(crate) fn read_value(words: &mut Words) -> Result<i64, LineFault>
    ensures { result ≡ value_in words.old }
{
    let value = next_number(words)?;
    end(words)?;
    Ok(value)
}

/// Takes the next word of a list of places, or none where the list ends.
pub(crate) fn next_in_places<'a>(words: &mut Words<'a>) -> Option<&'a [u8]>
    ensures word { MatchOption result (words.new ≡ words.old) (λ word. words.old ≡ word.now ∷ words.new) }
    ensures end { MatchOption result (ends_places words.old ≡ true) (λ _. ends_places words.old ≡ false) }
{
    let word = words.peek()?;
    if word == b"to".as_slice() || word == b"when".as_slice() || word == b"do".as_slice() {
        return None;
    }
    words.next_word()
}

/// Takes the next word, which must be this one, and says whether there was one.
pub(crate) fn goes_on(words: &mut Words, keyword: &[u8]) -> Result<bool, LineFault>
    ensures goes_on { result ≡ goes_on keyword.now words.old }
    ensures taken { words.new ≡ drop 1 words.old }
{
    if words.peek().is_none() {
        return Ok(false);
    }
    next_keyword(words, keyword)?;
    Ok(true)
}
