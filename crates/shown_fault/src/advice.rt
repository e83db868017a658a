//! What can be done about a fault.
ghost use Rattle.std.specs.Prelude.{◌≡◌, IfOk};
ghost use Rattle.plant_words.specs.Words.{words_of};
ghost use Rattle.shown_fault.specs.Lent.{lists_of};
ghost use Rattle.shown_fault.specs.Advice.{name_advice, number_advice, standing_line, twice_advice, byte_advice, with_here, advice};

use crate::front::word_at;
use crate::here::here_advice;
use crate::kinds::{kind_advice, misplaced_advice};
use crate::limits::limit_advice;
use crate::misplaced_word::shape_advice;
use crate::names::last_line;
use crate::operands::expression_advice;
use crate::shown::{advice_line, filled_line, joined, quoted};
use crate::spelling::{name_text, value_text};
use crate::unknown::{bad_mask_advice, unknown_advice};
use crate::wanted::{Wanted, wanted_after};
use plant_text::Fault;
use std::alloc::{AllocError, Global};

/// What can be done about the fault of a line: after these lines and these words of it stands the word at fault, which is empty if
/// one is missing. `below` are the lines after it.
pub(crate) fn advice(
    alloc: Global,
    fault: &Fault,
    lines: &[&[u8]],
    below: &[&[u8]],
    line: &[u8],
    front: &[u8],
    word: &[u8],
) -> Result<Vec<u8>, AllocError>
    ensures { IfOk result (λ text. text.items ≡ advice fault.now (lists_of lines.now) (lists_of below.now) line.now (words_of front.now) word.now) }
{
    match fault {
        Fault::UnknownWord => kind_advice(alloc, word),
        Fault::Misplaced => misplaced_advice(alloc, word),
        Fault::BadName => name_advice(alloc, word),
        Fault::Twice => twice_advice(alloc, lines, front, word),
        Fault::UnknownName => unknown_advice(alloc, lines, below, line, front, word),
        Fault::BadExpression => {
            let text = expression_advice(alloc, front, word)?;
            with_here(alloc, text, line, front, word)
        }
        Fault::BadNumber => number_advice(alloc, lines, front, word),
        Fault::Shape => {
            let text = shape_advice(alloc, line, front, word)?;
            with_here(alloc, text, line, front, word)
        }
        Fault::NotAscii => byte_advice(alloc, line),
        Fault::Limit => limit_advice(alloc, front, word),
        _ => Ok(Vec::new(alloc)),
    }
}

/// What is wrong with a word that is no name.
fn name_advice(alloc: Global, word: &[u8]) -> Result<Vec<u8>, AllocError>
    ensures { IfOk result (λ text. text.items ≡ name_advice word.now) }
{
    advice_line(alloc, &[name_text(word).as_bytes()])
}

/// What is said, and what would be right in the place of the part at fault of the line.
fn with_here(
    alloc: Global,
    text: Vec<u8>,
    line: &[u8],
    front: &[u8],
    word: &[u8],
) -> Result<Vec<u8>, AllocError>
    ensures { IfOk result (λ whole. whole.items ≡ with_here text.items (words_of line.now) (words_of front.now) word.now) }
{
    let here = here_advice(alloc, line, front, word)?;
    joined(alloc, &[&text, &here])
}

/// Why a comment has no other bytes; nothing of another line.
fn byte_advice(alloc: Global, line: &[u8]) -> Result<Vec<u8>, AllocError>
    ensures { IfOk result (λ text. text.items ≡ byte_advice line.now) }
{
    match word_at(line, 0) {
        Some([b'#', ..]) => advice_line(
            alloc,
            &[b"a comment is plain ASCII too: the digest of a plant is of all its bytes"],
        ),
        _ => Ok(Vec::new(alloc)),
    }
}

/// What is wrong with a word that is no number, beside what the message says; of a side of a rule the masks of its connector.
fn number_advice(
    alloc: Global,
    lines: &[&[u8]],
    front: &[u8],
    word: &[u8],
) -> Result<Vec<u8>, AllocError>
    ensures { IfOk result (λ text. text.items ≡ number_advice (lists_of lines.now) (words_of front.now) word.now) }
{
    match wanted_after(front) {
        Wanted::Side => bad_mask_advice(alloc, lines, word),
        _ => filled_line(alloc, value_text(word)),
    }
}

/// Where a name stands already: the line that declares it, or the same line.
fn twice_advice(
    alloc: Global,
    lines: &[&[u8]],
    front: &[u8],
    word: &[u8],
) -> Result<Vec<u8>, AllocError>
    ensures { IfOk result (λ text. text.items ≡ twice_advice (lists_of lines.now) (words_of front.now) word.now) }
{
    let shown = quoted(alloc, word)?;
    match standing_line(lines, front, word) {
        Some(number) => {
            let number = number.to_string(alloc)?;
            advice_line(
                alloc,
                &[&shown, b" stands on line ", number.as_bytes(), b" already"],
            )
        }
        None => advice_line(alloc, &[&shown, b" stands in this list already"]),
    }
}

/// The number of the line that declares the name already, or sets the variable already. `None` if the word stands in a list.
fn standing_line(lines: &[&[u8]], front: &[u8], word: &[u8]) -> Option<usize>
    ensures { result ≡ standing_line (lists_of lines.now) (words_of front.now) word.now }
{
    match wanted_after(front) {
        Wanted::NewName | Wanted::Transfer => last_line(lines, word_at(front, 0)?, word),
        _ => None,
    }
}
