//! A word that stands where another must, is missing, or is left over.
ghost use Rattle.std.specs.Prelude.{◌≡◌, IfOk};
ghost use Rattle.plant_words.specs.Words.{words_of};
ghost use Rattle.shown_fault.specs.MisplacedWord.{is_close, bracket_text, end_text, text_at, misplaced_text, instead_advice, expected_advice, operator_advice, more_advice, other_advice, order_advice, shape_advice};

use crate::condition::at_advice;
use crate::operands::{expression_text, operands_of};
use crate::order::order_text;
use crate::quotes::quote_advice;
use crate::rule_sign::sign_advice;
use crate::shown::{advice_line, joined, quoted};
use crate::spelling::{either_text, tree_text, word_text};
use crate::wanted::{Wanted, wanted_after};
use std::alloc::{AllocError, Global};

/// What is wrong with a word of the line that stands after these: it is left over, it is no sign by itself, or another must stand there.
pub(crate) fn shape_advice(
    alloc: Global,
    line: &[u8],
    front: &[u8],
    word: &[u8],
) -> Result<Vec<u8>, AllocError>
    ensures { IfOk result (λ text. text.items ≡ shape_advice (words_of line.now) (words_of front.now) word.now) }
{
    let wanted = wanted_after(front);
    let text = misplaced_text(front, wanted, word);
    if text.is_empty() {
        order_advice(alloc, line, front, wanted, word)
    } else {
        advice_line(alloc, &[text.as_bytes()])
    }
}

/// That an operator has to stand before its operands, where a quote stands, or which word has to stand there.
fn order_advice(
    alloc: Global,
    line: &[u8],
    front: &[u8],
    wanted: Wanted,
    word: &[u8],
) -> Result<Vec<u8>, AllocError>
    ensures { IfOk result (λ text. text.items ≡ order_advice (words_of line.now) (words_of front.now) wanted word.now) }
{
    if wanted.is_of_expression() && operands_of(word) > 0 {
        operator_advice(alloc, word)
    } else if wanted.is_of_tree() && word.first() == Some(&b'\'') {
        quote_advice(alloc, front, word)
    } else {
        other_advice(alloc, line, wanted, word)
    }
}

/// Which word has to stand there, or that none may, and what more can be done.
fn other_advice(
    alloc: Global,
    line: &[u8],
    wanted: Wanted,
    word: &[u8],
) -> Result<Vec<u8>, AllocError>
    ensures { IfOk result (λ text. text.items ≡ other_advice (words_of line.now) wanted word.now) }
{
    let expected = expected_advice(alloc, wanted, word)?;
    let more = more_advice(alloc, wanted, line, word)?;
    joined(alloc, &[&expected, &more])
}

/// What more can be done about a word of the line that stands where this has to.
fn more_advice(
    alloc: Global,
    wanted: Wanted,
    line: &[u8],
    word: &[u8],
) -> Result<Vec<u8>, AllocError>
    ensures { IfOk result (λ text. text.items ≡ more_advice wanted (words_of line.now) word.now) }
{
    match wanted {
        Wanted::Below => sign_advice(alloc, line, word),
        Wanted::ConditionAt => at_advice(alloc, line, word),
        _ => Ok(Vec::new(alloc)),
    }
}

/// What is wrong with a word that stands after these, where this has to stand; empty if that is not known.
#[tactic(auto, unfolding(crate::specs::MisplacedWord::misplaced_text))]
fn misplaced_text(front: &[u8], wanted: Wanted, word: &[u8]) -> &'static str
    ensures { result.now ≡ misplaced_text (words_of front.now) wanted word.now }
{
    let by_itself = either_text(text_at(wanted, word), end_text(wanted, word));
    either_text(order_text(front, word), by_itself)
}

/// What is wrong with the form of a word where this has to stand; empty if that is not known.
#[tactic(auto, unfolding(crate::specs::MisplacedWord::text_at))]
pub(crate) fn text_at(wanted: Wanted, word: &[u8]) -> &'static str
    ensures { result.now ≡ text_at wanted word.now }
{
    match wanted {
        Wanted::Guard | Wanted::Value | Wanted::Clause => expression_text(word),
        Wanted::Tree | Wanted::Leaf => tree_text(word),
        _ => word_text(word),
    }
}

/// What is wrong with a bracket where this has to stand; empty if the word is something else.
fn end_text(wanted: Wanted, word: &[u8]) -> &'static str
    ensures { result.now ≡ end_text wanted word.now }
{
    match wanted {
        Wanted::Leaf => bracket_text(word),
        _ => "",
    }
}

/// What is wrong with a bracket of a tree, or with the end of its line; empty if the word is something else.
fn bracket_text(word: &[u8]) -> &'static str
    ensures { result.now ≡ bracket_text word.now }
{
    if is_close(word) {
        "no '[' is open before this ']'"
    } else if word.is_empty() {
        "expected ']', and the line ends"
    } else {
        ""
    }
}

/// Whether the word ends a bracket.
#[tactic(auto, unfolding(crate::specs::MisplacedWord::is_close))]
fn is_close(word: &[u8]) -> bool
    ensures { result ≡ is_close word.now }
{
    match word {
        b"]" | b"]'" => true,
        _ => false,
    }
}

/// Which word has to stand there, or that none may.
fn expected_advice(alloc: Global, wanted: Wanted, word: &[u8]) -> Result<Vec<u8>, AllocError>
    ensures { IfOk result (λ text. text.items ≡ expected_advice wanted word.now) }
{
    let expected = wanted.expected_text();
    if expected.is_empty() {
        advice_line(alloc, &[b"nothing more may follow"])
    } else {
        instead_advice(alloc, expected.as_bytes(), word)
    }
}

/// What is expected in the place of the word, or of the end of the line.
fn instead_advice(alloc: Global, expected: &[u8], word: &[u8]) -> Result<Vec<u8>, AllocError>
    ensures { IfOk result (λ text. text.items ≡ instead_advice expected.now word.now) }
{
    if word.is_empty() {
        return advice_line(alloc, &[b"expected ", expected, b", and the line ends"]);
    }
    let word = quoted(alloc, word)?;
    advice_line(alloc, &[b"expected ", expected, b", found ", &word])
}

/// That an operator which is left over has to stand before its operands.
fn operator_advice(alloc: Global, word: &[u8]) -> Result<Vec<u8>, AllocError>
    ensures { IfOk result (λ text. text.items ≡ operator_advice word.now) }
{
    let lead = b"an operator stands before its operands: write '";
    if operands_of(word) == 1 {
        advice_line(alloc, &[lead, word, b" a'"])
    } else {
        advice_line(alloc, &[lead, word, b" a b'"])
    }
}
