//! Steps of reading a line, whatever kind of line it is: each takes words, or answers the fault of one.
ghost use Rattle.std.specs.Prelude.{◌≡◌, drop, if◌then◌else◌, IfOk, IfErr, Ok, Err};
ghost use Rattle.plant_words.specs.Reading.{check, first_word, first_name, first_keyword, at_end, leads};

use crate::line_fault::LineFault;
use crate::lines::is_legal;
use crate::names::read_name;
use crate::words::Words;
use petri_atom::Name;

/// The fault, unless the test passes.
pub fn check<F: Drop>(passes: bool, fault: F) -> Result<(), F>
    ensures { result ≡ check passes fault }
{
    if passes { Ok(()) } else { Err(fault) }
}

/// The next word, which must be there, and of legal bytes.
pub fn next_word<'a>(words: &mut Words<'a>) -> Result<&'a [u8], LineFault>
    ensures word { IfOk result (λ word. first_word words.old ≡ Ok word.now) }
    ensures fault { IfErr result (λ fault. first_word words.old ≡ Err fault) }
    ensures taken { words.new ≡ drop 1 words.old }
{
    match words.next_word() {
        Some(word) if is_legal(word) => Ok(word),
        Some(_) => Err(LineFault::NotAscii),
        None => Err(LineFault::Shape),
    }
}

/// The next word as a name.
pub fn next_name(words: &mut Words) -> Result<Name, LineFault>
    ensures name { result ≡ first_name words.old }
    ensures taken { words.new ≡ drop 1 words.old }
{
    let word = next_word(words)?;
    read_name(word).ok_or(LineFault::BadName)
}

/// The next word, which must be this one.
pub fn next_keyword(words: &mut Words, keyword: &[u8]) -> Result<(), LineFault>
    ensures keyword { result ≡ first_keyword keyword.now words.old }
    ensures taken { words.new ≡ drop 1 words.old }
{
    let word = next_word(words)?;
    check(word == keyword, LineFault::Shape)
}

/// Takes the next word, and says whether there was one and it is this.
pub fn take_word(words: &mut Words, keyword: &[u8]) -> bool
    ensures leads { result ≡ leads keyword.now words.old }
    ensures taken { words.new ≡ drop 1 words.old }
{
    let Some(word) = words.next_word() else {
        return false;
    };
    word == keyword
}

/// Takes the next word where it is this one, and says whether it was.
pub fn skip_word(words: &mut Words, keyword: &[u8]) -> bool
    ensures leads { result ≡ leads keyword.now words.old }
    ensures taken { words.new ≡ (if result then drop 1 words.old else words.old) }
{
    let leads = match words.peek() {
        Some(word) => word == keyword,
        None => false,
    };
    if leads {
        words.next_word();
    }
    leads
}

/// No word is left. Of one that is left over, an illegal byte is found first.
pub fn end(words: &mut Words) -> Result<(), LineFault>
    ensures { result ≡ at_end words.old }
{
    match words.next_word() {
        Some(word) if is_legal(word) => Err(LineFault::Shape),
        Some(_) => Err(LineFault::NotAscii),
        None => Ok(()),
    }
}
