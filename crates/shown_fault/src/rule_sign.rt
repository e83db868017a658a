//! A rule with another word in the place of its sign.
ghost use Rattle.std.specs.Prelude.{◌≡◌, IfOk};
ghost use Rattle.plant_words.specs.Words.{words_of};
ghost use Rattle.shown_fault.specs.RuleSign.{spaced, has_condition, condition_text, turned_line, turned_advice, sign_advice};

use crate::front::{has_word, is_word_at, skip_words, word_at};
use crate::shown::{advice_line, cut_to, joined, shown_name};
use crate::window::MAX_SHOWN;
use plant_words::Words;
use std::alloc::{AllocError, Global};

/// The number, from 0, of the left side among the words of a rule.
pub(crate) const LEFT_SIDE: usize = 1;

/// The number of the right side.
pub(crate) const RIGHT_SIDE: usize = 3;

/// The number of the `when` of a condition.
pub(crate) const CONDITION: usize = 4;

/// What can be done about a word in the place of the sign of a rule.
pub(crate) fn sign_advice(alloc: Global, line: &[u8], word: &[u8]) -> Result<Vec<u8>, AllocError>
    ensures { IfOk result (λ text. text.items ≡ sign_advice (words_of line.now) word.now) }
{
    match word {
        b">" => turned_advice(alloc, line),
        _ if has_word(line, b"<") => advice_line(
            alloc,
            &[b"a side of a rule is one connector: write one rule a line"],
        ),
        _ => Ok(Vec::new(alloc)),
    }
}

/// What to write in the place of a rule whose sides have to change places, if it has a right one.
#[tactic(auto, unfolding(crate::specs::RuleSign::turned_advice))]
fn turned_advice(alloc: Global, line: &[u8]) -> Result<Vec<u8>, AllocError>
    ensures { IfOk result (λ text. text.items ≡ turned_advice (words_of line.now)) }
{
    let left: &[u8] = word_at(line, LEFT_SIDE).unwrap_or(b"");
    match word_at(line, RIGHT_SIDE) {
        Some(right) => turned_line(alloc, line, left, right),
        None => Ok(Vec::new(alloc)),
    }
}

/// What to write, if the sides of the rule have to change places.
#[tactic(auto, unfolding(crate::specs::RuleSign::turned_line))]
fn turned_line(alloc: Global, line: &[u8], left: &[u8], right: &[u8]) -> Result<Vec<u8>, AllocError>
    ensures { IfOk result (λ text. text.items ≡ turned_line (words_of line.now) left.now right.now) }
{
    let condition = condition_text(alloc, line)?;
    let rule = joined(alloc, &[b"prio ", right, b" < ", left, &condition])?;
    let rule = cut_to(MAX_SHOWN, &shown_name(alloc, &rule)?, alloc)?;
    advice_line(alloc, &[b"write '", &rule, b"'"])
}

/// The condition of a rule and what follows it, after a space; empty if there is none.
fn condition_text(alloc: Global, line: &[u8]) -> Result<Vec<u8>, AllocError>
    ensures { IfOk result (λ text. text.items ≡ condition_text (words_of line.now)) }
{
    if !has_condition(line) {
        return Ok(Vec::new(alloc));
    }
    let mut words = Words::new(line);
    skip_words(&mut words, CONDITION);
    spaced(alloc, &mut words)
}

/// Whether the rule has a condition.
pub(crate) fn has_condition(line: &[u8]) -> bool
    ensures { result ≡ has_condition (words_of line.now) }
{
    is_word_at(line, CONDITION, b"when")
}

/// The words that are left, each after a space.
pub(crate) fn spaced(alloc: Global, words: &mut Words<'_>) -> Result<Vec<u8>, AllocError>
    ensures { IfOk result (λ text. text.items ≡ spaced words.old) }
{
    let mut text = Vec::new(alloc);
    while let Some(word) = words.next_word() {
        text.extend_from_slice(b" ")?;
        text.extend_from_slice(word)?;
    }
    Ok(text)
}
