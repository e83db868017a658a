//! The words that would be right in the place of an expression, or of updates, of a line.
ghost use Rattle.std.specs.Prelude.{◌≡◌, IfOk, option_map};
ghost use Rattle.plant_words.specs.Words.{words_of};
ghost use Rattle.shown_fault.specs.Lent.{lists_of};
ghost use Rattle.shown_fault.specs.RuleSign.{spaced};
ghost use Rattle.shown_fault.specs.Here.{is_opener, opening, end_of, until_end, expression_words, in_form, righted, write_line, expression_line, parted_text, place_of, updates_line, here_advice};

use crate::lists::{text_in, texts_after, texts_before};
use crate::names::is_among;
use crate::operands::ends_expression;
use crate::order::has_comma;
use crate::prefix::in_prefix;
use crate::shown::{advice_line, cut_to, joined, shown_name};
use crate::tokens::{widened, words_in};
use crate::wanted::wanted_after;
use crate::window::MAX_SHOWN;
use petri_atom::MAX_WORDS;
use std::alloc::{AllocError, Global};

/// The words after which an expression begins.
pub(crate) const OPENERS: [&[u8]; 3] = [b"guard", b"when", b":="];

/// Whether an expression begins after the word.
fn is_opener(word: &[u8]) -> bool
    ensures { result ≡ is_opener word.now }
{
    is_among(&OPENERS, word)
}

/// The place of the last of the words after which an expression begins.
fn opening(words: &[&[u8]]) -> usize
    ensures { result ≡ opening 0 0 (lists_of words.now) }
{
    let mut last = 0;
    for (index, word) in words.iter().enumerate() {
        if is_opener(word) {
            last = index;
        }
    }
    last
}

/// The words up to the first one that stands after an expression.
fn until_end<'w, 't>(words: &'w [&'t [u8]]) -> &'w [&'t [u8]]
    ensures { lists_of result.now ≡ until_end (lists_of words.now) }
{
    texts_before(words, end_of(words))
}

/// The place of the first of the words that stands after an expression, or how many words there are.
fn end_of(words: &[&[u8]]) -> usize
    ensures { result ≡ end_of 0 (lists_of words.now) }
{
    for (index, word) in words.iter().enumerate() {
        if ends_expression(word) {
            return index;
        }
    }
    words.len()
}

/// The words of the expression in which these words of a line end.
fn expression_words<'w, 't>(line: &'w [&'t [u8]], front: &[&[u8]]) -> &'w [&'t [u8]]
    ensures { lists_of result.now ≡ expression_words (lists_of line.now) (lists_of front.now) }
{
    until_end(texts_after(texts_after(line, opening(front)), 1))
}

/// The words, each after a space.
pub(crate) fn spaced_words(alloc: Global, words: &[&[u8]]) -> Result<Vec<u8>, AllocError>
    ensures { IfOk result (λ text. text.items ≡ spaced (lists_of words.now)) }
{
    let mut text = Vec::new(alloc);
    for word in words {
        text.extend_from_slice(b" ")?;
        text.extend_from_slice(word)?;
    }
    Ok(text)
}

/// The words of an expression in the form of plant texts, each after a space; nothing if they have it already, or are no expression in any form.
#[tactic(auto, unfolding(crate::specs::Here::righted))]
pub(crate) fn righted(alloc: Global, words: &[&[u8]]) -> Result<Option<Vec<u8>>, AllocError>
    ensures { IfOk result (λ made. option_map (λ text. text.items) made ≡ righted (lists_of words.now)) }
{
    let written = spaced_words(alloc, words)?;
    let wide = widened(alloc, &written)?;
    let tokens = words_in(alloc, &wide)?;
    match in_form(alloc, &tokens)? {
        Some(text) if text.as_slice() != written.as_slice() => Ok(Some(text)),
        _ => Ok(None),
    }
}

/// The expression that the words are, in the form of plant texts; nothing if they are none.
#[tactic(auto, unfolding(crate::specs::Here::in_form))]
fn in_form(alloc: Global, tokens: &[&[u8]]) -> Result<Option<Vec<u8>>, AllocError>
    ensures { IfOk result (λ made. option_map (λ text. text.items) made ≡ in_form (lists_of tokens.now)) }
{
    in_prefix(alloc, MAX_WORDS, 0, tokens)
}

/// What to write in the place of words.
pub(crate) fn write_line(alloc: Global, text: &[u8]) -> Result<Vec<u8>, AllocError>
    ensures { IfOk result (λ line. line.items ≡ write_line text.now) }
{
    let shown = cut_to(MAX_SHOWN, &shown_name(alloc, text)?, alloc)?;
    advice_line(alloc, &[b"here write '", &shown, b"'"])
}

/// What to write in the place of the expression in which the first of these words of a line end; nothing if that is not known.
#[tactic(auto, unfolding(crate::specs::Here::expression_line))]
fn expression_line(alloc: Global, line: &[&[u8]], front: &[&[u8]]) -> Result<Vec<u8>, AllocError>
    ensures { IfOk result (λ text. text.items ≡ expression_line (lists_of line.now) (lists_of front.now)) }
{
    let words = expression_words(line, front);
    if is_among(words, b"at") {
        return Ok(Vec::new(alloc));
    }
    match righted(alloc, words)? {
        Some(text) => {
            let text = joined(alloc, &[text_in(front, opening(front)), &text])?;
            write_line(alloc, &text)
        }
        None => Ok(Vec::new(alloc)),
    }
}

/// The text with `;` as a word in the place of each comma.
fn parted(alloc: Global, text: &[u8]) -> Result<Vec<u8>, AllocError>
    ensures { IfOk result (λ parted. parted.items ≡ parted_text text.now) }
{
    let mut parted = Vec::new(alloc);
    for byte in text {
        if *byte == b',' {
            parted.extend_from_slice(b" ; ")?;
        } else {
            parted.push(*byte)?;
        }
    }
    Ok(parted)
}

/// The updates of a line from its `do` on, with `;` in the place of each comma; nothing if the word has no comma.
#[tactic(auto, unfolding(crate::specs::Here::updates_line))]
fn updates_line(alloc: Global, line: &[&[u8]], word: &[u8]) -> Result<Vec<u8>, AllocError>
    ensures { IfOk result (λ text. text.items ≡ updates_line (lists_of line.now) word.now) }
{
    if !has_comma(word) || !is_among(line, b"do") {
        return Ok(Vec::new(alloc));
    }
    let updates = spaced_words(alloc, texts_after(line, place_of(line, b"do")))?;
    let parted = parted(alloc, &updates)?;
    let words = words_in(alloc, &parted)?;
    let text = spaced_words(alloc, texts_after(&words, 1))?;
    write_line(alloc, &joined(alloc, &[b"do", &text])?)
}

/// The place of the first of the words that is this one, or how many words there are.
fn place_of(words: &[&[u8]], word: &[u8]) -> usize
    ensures { result ≡ place_of 0 word.now (lists_of words.now) }
{
    for (index, found) in words.iter().enumerate() {
        if *found == word {
            return index;
        }
    }
    words.len()
}

/// What to write in the place of a part of the line, whose word at fault stands after these in an expression.
pub(crate) fn here_advice(
    alloc: Global,
    line: &[u8],
    front: &[u8],
    word: &[u8],
) -> Result<Vec<u8>, AllocError>
    ensures { IfOk result (λ text. text.items ≡ here_advice (words_of line.now) (words_of front.now) word.now) }
{
    if !wanted_after(front).is_of_expression() {
        return Ok(Vec::new(alloc));
    }
    let line = words_in(alloc, line)?;
    let front = words_in(alloc, front)?;
    let updates = updates_line(alloc, &line, word)?;
    let expression = expression_line(alloc, &line, &front)?;
    joined(alloc, &[&updates, &expression])
}
