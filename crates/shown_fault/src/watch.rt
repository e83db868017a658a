//! Words that a run can't be watched for.
ghost use Rattle.std.specs.Prelude.{◌≡◌, [], IfOk};
ghost use Rattle.plant_words.specs.Lines.{lines_of};
ghost use Rattle.plant_words.specs.Words.{words_of};
ghost use Rattle.shown_fault.specs.Lent.{lists_of};
ghost use Rattle.shown_fault.specs.Watch.{asked_place_advice, dotted_name_advice, plain_name_advice, name_advice, operand_advice, word_advice, owned_after, names_advice, lacking_advice, written_line, written_advice, other_advice, watch_advice};

use crate::condition::atom_name_advice;
use crate::here::righted;
use crate::lists::text_in;
use crate::operands::{expression_text, lacking, operand_advice as lacking_line, operands_of};
use crate::parts::{atom_advice, part_advice};
use crate::places::has_part_named;
use crate::shown::{advice_line, cut_to, quoted, shown_name};
use crate::tokens::words_in;
use crate::whole::all_lines;
use crate::window::MAX_SHOWN;
use petri_atom::is_name;
use plant_words::{is_numeric, split_export};
use std::alloc::{AllocError, Global};

/// The places of the atom, where this is none of them.
#[tactic(auto, unfolding(crate::specs::Watch::asked_place_advice))]
fn asked_place_advice(
    alloc: Global,
    lines: &[&[u8]],
    atom: &[u8],
    place: &[u8],
) -> Result<Vec<u8>, AllocError>
    ensures { IfOk result (λ text. text.items ≡ asked_place_advice (lists_of lines.now) atom.now place.now) }
{
    if has_part_named(alloc, lines, atom, b"place", place)? {
        Ok(Vec::new(alloc))
    } else {
        part_advice(alloc, lines, atom, b"place", b"place", place)
    }
}

/// The variables of the atom, where this is none of them, or how its place is asked for; nothing if it is one.
#[tactic(auto, unfolding(crate::specs::Watch::dotted_name_advice))]
fn dotted_name_advice(
    alloc: Global,
    lines: &[&[u8]],
    atom: &[u8],
    name: &[u8],
) -> Result<Vec<u8>, AllocError>
    ensures { IfOk result (λ text. text.items ≡ dotted_name_advice (lists_of lines.now) atom.now name.now) }
{
    if let Some(text) = atom_advice(alloc, lines, atom)? {
        Ok(text)
    } else if has_part_named(alloc, lines, atom, b"var", name)? {
        Ok(Vec::new(alloc))
    } else if has_part_named(alloc, lines, atom, b"place", name)? {
        advice_line(
            alloc,
            &[
                b"a place is asked for by 'at': write 'at ",
                atom,
                b" ",
                name,
                b"'",
            ],
        )
    } else {
        part_advice(alloc, lines, atom, b"var", b"variable", name)
    }
}

/// How a variable is written, or that the word is no part of an expression.
fn plain_name_advice(alloc: Global, word: &[u8]) -> Result<Vec<u8>, AllocError>
    ensures { IfOk result (λ text. text.items ≡ plain_name_advice word.now) }
{
    if is_name(word) {
        return advice_line(
            alloc,
            &[b"a variable is written as ATOM.VAR here, and a place as at ATOM PLACE"],
        );
    }
    let word = quoted(alloc, word)?;
    advice_line(alloc, &[&word, b" is no number, no operator and no name"])
}

/// What is wrong with a word that has to be a variable; nothing if it is one.
#[tactic(auto, unfolding(crate::specs::Watch::name_advice))]
fn name_advice(alloc: Global, lines: &[&[u8]], word: &[u8]) -> Result<Vec<u8>, AllocError>
    ensures { IfOk result (λ text. text.items ≡ name_advice (lists_of lines.now) word.now) }
{
    let text = expression_text(word);
    if !text.is_empty() {
        return advice_line(alloc, &[text.as_bytes()]);
    }
    match split_export(word) {
        Some((atom, name)) => dotted_name_advice(alloc, lines, atom, name),
        None => plain_name_advice(alloc, word),
    }
}

/// What is wrong with a word of an expression; nothing if it is an operator, a number or a variable.
fn operand_advice(alloc: Global, lines: &[&[u8]], word: &[u8]) -> Result<Vec<u8>, AllocError>
    ensures { IfOk result (λ text. text.items ≡ operand_advice (lists_of lines.now) word.now) }
{
    if operands_of(word) > 0 || is_numeric(word) {
        Ok(Vec::new(alloc))
    } else {
        name_advice(alloc, lines, word)
    }
}

/// What is wrong with a word, if so many words belong to an `at` before it, and this word stands before it; nothing if it may stand there.
fn word_advice(
    alloc: Global,
    lines: &[&[u8]],
    owned: usize,
    before: &[u8],
    word: &[u8],
) -> Result<Vec<u8>, AllocError>
    ensures { IfOk result (λ text. text.items ≡ word_advice (lists_of lines.now) owned before.now word.now) }
{
    match owned {
        0 if word == b"at".as_slice() => Ok(Vec::new(alloc)),
        0 => operand_advice(alloc, lines, word),
        1 => asked_place_advice(alloc, lines, before, word),
        _ => atom_name_advice(alloc, lines, word),
    }
}

/// How many words after this one belong to an `at`, if so many did before it.
fn owned_after(owned: usize, word: &[u8]) -> usize
    ensures { result ≡ owned_after owned word.now }
{
    match owned {
        0 if word == b"at".as_slice() => 2,
        _ => owned.saturating_sub(1),
    }
}

/// What is wrong with the first of the words that is no operator, number, variable or place; nothing if each is one.
fn names_advice(alloc: Global, lines: &[&[u8]], words: &[&[u8]]) -> Result<Vec<u8>, AllocError>
    ensures { IfOk result (λ text. text.items ≡ names_advice (lists_of lines.now) 0 [] (lists_of words.now)) }
{
    let mut before: &[u8] = b"";
    let mut owned = 0;
    for word in words {
        let text = word_advice(alloc, lines, owned, before, word)?;
        if !text.is_empty() {
            return Ok(text);
        }
        owned = owned_after(owned, word);
        before = word;
    }
    if owned == 0 {
        Ok(Vec::new(alloc))
    } else {
        advice_line(alloc, &[b"'at' takes an atom and a place: at ATOM PLACE"])
    }
}

/// Which operator lacks an operand, or that there is no word; nothing if neither is so.
fn lacking_advice(alloc: Global, words: &[u8], count: usize) -> Result<Vec<u8>, AllocError>
    ensures { IfOk result (λ text. text.items ≡ lacking_advice (words_of words.now) count) }
{
    match lacking(words) {
        None if count > 0 => Ok(Vec::new(alloc)),
        found => lacking_line(alloc, found),
    }
}

/// What is wrong with the words that were put into the form of plant texts, or how they are written.
fn written_advice(alloc: Global, lines: &[&[u8]], text: &[u8]) -> Result<Vec<u8>, AllocError>
    ensures { IfOk result (λ advice. advice.items ≡ written_advice (lists_of lines.now) text.now) }
{
    let words = words_in(alloc, text)?;
    let names = names_advice(alloc, lines, &words)?;
    if !names.is_empty() {
        return Ok(names);
    }
    written_line(alloc, text)
}

/// How the words are written that were put into the form of plant texts.
#[tactic(auto, unfolding(crate::specs::Watch::written_line))]
fn written_line(alloc: Global, text: &[u8]) -> Result<Vec<u8>, AllocError>
    ensures { IfOk result (λ advice. advice.items ≡ written_line text.now) }
{
    let (_, words) = text.split_at(text.len().min(1));
    let shown = cut_to(MAX_SHOWN, &shown_name(alloc, words)?, alloc)?;
    advice_line(
        alloc,
        &[
            b"an operator stands before its operands, with no brackets: write '",
            &shown,
            b"'",
        ],
    )
}

/// What is wrong with words that have the form of plant texts, or no form that is known.
fn other_advice(
    alloc: Global,
    lines: &[&[u8]],
    text: &[u8],
    words: &[&[u8]],
) -> Result<Vec<u8>, AllocError>
    ensures { IfOk result (λ advice. advice.items ≡ other_advice (lists_of lines.now) (words_of text.now) (lists_of words.now)) }
{
    let names = names_advice(alloc, lines, words)?;
    if names.is_empty() {
        lacking_advice(alloc, text, words.len())
    } else {
        Ok(names)
    }
}

/// What can be done about the words of a watch that can't be read, of a plant of this text: each piece is a line after two spaces. There may be none.
#[tactic(auto, unfolding(crate::specs::Watch::watch_advice))]
pub fn watch_advice(alloc: Global, text: &[u8], watch: &[u8]) -> Result<Vec<u8>, AllocError>
    ensures { IfOk result (λ advice. advice.items ≡ watch_advice (lines_of text.now) (words_of watch.now)) }
{
    let lines = all_lines(alloc, text)?;
    let words = words_in(alloc, watch)?;
    if text_in(&words, 0) == b"stuck".as_slice() {
        return advice_line(alloc, &[b"'stuck' stands alone"]);
    }
    match righted(alloc, &words)? {
        Some(text) => written_advice(alloc, &lines, &text),
        None => other_advice(alloc, &lines, watch, &words),
    }
}
