//! An expression that is no expression: which operator lacks an operand, and what to write in the place of a word.
ghost use Rattle.std.specs.Prelude.{◌≡◌, ◌<◌, IfOk, drop, option_map};
ghost use Rattle.plant_words.specs.Words.{words_of};
ghost use Rattle.shown_fault.specs.Operands.{operands_of, lacks, lacking_in, ends_expression, expression_text, operand_text, operand_advice, malformed_advice, expression_advice};

use crate::front::skip_words;
use crate::names::is_among;
use crate::order::order_text;
use crate::shown::{advice_line, quoted};
use crate::spelling::{either_text, form_text, slip_text};
use plant_words::{Words, operator};
use std::alloc::{AllocError, Global};

/// How many operands the word takes, if it is an operator; and else none.
#[tactic(auto, unfolding(crate::specs::Operands::operands_of))]
pub(crate) fn operands_of(word: &[u8]) -> usize
    ensures value { result ≡ operands_of word.now }
    ensures within { result < 3 }
{
    if operator(word).is_some() {
        2
    } else if word == b"!".as_slice() {
        1
    } else {
        0
    }
}

/// Whether the words from this number on are too few for so many operands.
fn lacks_after(front: &[u8], number: usize, operands: usize) -> bool
    requires { operands < 3 }
    ensures { result ≡ lacks operands (drop number (words_of front.now)) }
{
    let mut words = Words::new(front);
    skip_words(&mut words, number);
    let mut wanted = operands;
    while wanted > 0 {
        let Some(word) = words.next_word() else {
            return true;
        };
        wanted = wanted - 1 + operands_of(word);
    }
    false
}

/// The last of the words that is an operator after which an operand is missing.
pub(crate) fn lacking(front: &[u8]) -> Option<&[u8]>
    ensures { option_map (λ word. word.now) result ≡ lacking_in (words_of front.now) }
{
    let mut words = Words::new(front);
    let mut found = None;
    let mut number = 0;
    while let Some(word) = words.next_word() {
        number += 1;
        if lacks_after(front, number, operands_of(word)) {
            found = Some(word);
        }
    }
    found
}

/// The words that no expression goes on with: none, and those that stand after one.
pub(crate) const ENDS: [&[u8]; 6] = [b"", b";", b"do", b"when", b"to", b"from"];

/// Whether no expression goes on with the word: it is missing, or stands after an expression.
pub(crate) fn ends_expression(word: &[u8]) -> bool
    ensures { result ≡ ends_expression word.now }
{
    is_among(&ENDS, word)
}

/// Where a line has no expression, after these words of it: what is wrong with the word, or which operator lacks an operand.
pub(crate) fn expression_advice(
    alloc: Global,
    front: &[u8],
    word: &[u8],
) -> Result<Vec<u8>, AllocError>
    ensures { IfOk result (λ text. text.items ≡ expression_advice (words_of front.now) word.now) }
{
    let text = operand_text(front, word);
    if text.is_empty() {
        malformed_advice(alloc, front, word)
    } else {
        advice_line(alloc, &[text.as_bytes()])
    }
}

/// What is wrong with a word of an expression that stands after these; empty if that is not known.
#[tactic(auto, unfolding(crate::specs::Operands::operand_text))]
fn operand_text(front: &[u8], word: &[u8]) -> &'static str
    ensures { result.now ≡ operand_text (words_of front.now) word.now }
{
    either_text(order_text(front, word), expression_text(word))
}

/// Which operator lacks an operand, or that the word is no part of an expression.
fn malformed_advice(alloc: Global, front: &[u8], word: &[u8]) -> Result<Vec<u8>, AllocError>
    ensures { IfOk result (λ text. text.items ≡ malformed_advice (words_of front.now) word.now) }
{
    if ends_expression(word) {
        operand_advice(alloc, lacking(front))
    } else {
        let word = quoted(alloc, word)?;
        advice_line(alloc, &[&word, b" is no number, no operator and no name"])
    }
}

/// What to write in the place of a word of an expression; empty if that is not known.
pub(crate) fn expression_text(word: &[u8]) -> &'static str
    ensures { result.now ≡ expression_text word.now }
{
    either_text(slip_text(word), form_text(word))
}

/// Which operator lacks an operand; or that there is no expression.
pub(crate) fn operand_advice(alloc: Global, operator: Option<&[u8]>) -> Result<Vec<u8>, AllocError>
    ensures { IfOk result (λ text. text.items ≡ operand_advice (option_map (λ word. word.now) operator.entry)) }
{
    match operator {
        None => advice_line(alloc, &[b"expected an expression"]),
        Some(word) if operands_of(word) == 1 => {
            advice_line(
                alloc,
                &[b"'", word, b"' takes one operand, which follows it"],
            )
        }
        Some(word) => advice_line(
            alloc,
            &[b"'", word, b"' takes two operands, which follow it"],
        ),
    }
}
