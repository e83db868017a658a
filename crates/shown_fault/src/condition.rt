//! The condition of a rule.
ghost use Rattle.std.specs.Prelude.{◌≡◌, IfOk};
ghost use Rattle.plant_words.specs.Words.{words_of};
ghost use Rattle.shown_fault.specs.Lent.{lists_of};
ghost use Rattle.shown_fault.specs.Condition.{condition_line, asked_line, asked_advice, condition_form, atom_name_advice, condition_atom_advice, condition_place_advice, at_advice};

use crate::front::word_at;
use crate::parts::{atom_advice, part_advice};
use crate::places::has_part_named;
use crate::shown::{advice_line, joined};
use petri_atom::is_name;
use plant_words::split_export;
use std::alloc::{AllocError, Global};

/// The number, from 0, of the atom among the words of a rule with a condition.
pub(crate) const ATOM_OF_CONDITION: usize = 5;

/// The condition that this place of the atom is marked.
fn asked_line(alloc: Global, atom: &[u8], place: &[u8]) -> Result<Vec<u8>, AllocError>
    ensures { IfOk result (λ text. text.items ≡ asked_line atom.now place.now) }
{
    advice_line(
        alloc,
        &[
            b"a condition is written as ATOM at PLACE: write 'when ",
            atom,
            b" at ",
            place,
            b"'",
        ],
    )
}

/// How a condition is written.
fn condition_line(alloc: Global) -> Result<Vec<u8>, AllocError>
    ensures { IfOk result (λ text. text.items ≡ condition_line) }
{
    advice_line(
        alloc,
        &[b"a condition is written as ATOM at PLACE, and compares nothing"],
    )
}

/// How a condition is written that names a place, or another part, of an atom by one word.
#[tactic(auto, unfolding(crate::specs::Condition::asked_advice))]
fn asked_advice(
    alloc: Global,
    lines: &[&[u8]],
    atom: &[u8],
    name: &[u8],
) -> Result<Vec<u8>, AllocError>
    ensures { IfOk result (λ text. text.items ≡ asked_advice (lists_of lines.now) atom.now name.now) }
{
    if has_part_named(alloc, lines, atom, b"place", name)? {
        return asked_line(alloc, atom, name);
    }
    let form = condition_line(alloc)?;
    let places = part_advice(alloc, lines, atom, b"place", b"place", name)?;
    joined(alloc, &[&form, &places])
}

/// How the condition of a line is written whose first word is no name.
#[tactic(auto, unfolding(crate::specs::Condition::condition_form))]
fn condition_form(alloc: Global, line: &[u8], word: &[u8]) -> Result<Vec<u8>, AllocError>
    ensures { IfOk result (λ text. text.items ≡ condition_form (words_of line.now) word.now) }
{
    let atom = word_at(line, ATOM_OF_CONDITION + 1);
    let place = word_at(line, ATOM_OF_CONDITION + 2);
    match (atom, place) {
        (Some(atom), Some(place)) if word == b"at".as_slice() => asked_line(alloc, atom, place),
        _ => condition_line(alloc),
    }
}

/// The atoms, where the name is none of them.
#[tactic(auto, unfolding(crate::specs::Condition::atom_name_advice))]
pub(crate) fn atom_name_advice(
    alloc: Global,
    lines: &[&[u8]],
    word: &[u8],
) -> Result<Vec<u8>, AllocError>
    ensures { IfOk result (λ text. text.items ≡ atom_name_advice (lists_of lines.now) word.now) }
{
    match atom_advice(alloc, lines, word)? {
        Some(text) => Ok(text),
        None => Ok(Vec::new(alloc)),
    }
}

/// The atoms, where the word of a condition of the line is none of them; or how a condition is written.
#[tactic(auto, unfolding(crate::specs::Condition::condition_atom_advice))]
pub(crate) fn condition_atom_advice(
    alloc: Global,
    lines: &[&[u8]],
    line: &[u8],
    word: &[u8],
) -> Result<Vec<u8>, AllocError>
    ensures { IfOk result (λ text. text.items ≡ condition_atom_advice (lists_of lines.now) (words_of line.now) word.now) }
{
    match split_export(word) {
        Some((atom, name)) => match atom_advice(alloc, lines, atom)? {
            Some(text) => Ok(text),
            None => asked_advice(alloc, lines, atom, name),
        },
        None if is_name(word) => atom_name_advice(alloc, lines, word),
        None => condition_form(alloc, line, word),
    }
}

/// The places of the atom that the words of a rule name after `when`.
#[tactic(auto, unfolding(crate::specs::Condition::condition_place_advice))]
pub(crate) fn condition_place_advice(
    alloc: Global,
    lines: &[&[u8]],
    front: &[u8],
    word: &[u8],
) -> Result<Vec<u8>, AllocError>
    ensures { IfOk result (λ text. text.items ≡ condition_place_advice (lists_of lines.now) (words_of front.now) word.now) }
{
    let atom: &[u8] = word_at(front, ATOM_OF_CONDITION).unwrap_or(b"");
    part_advice(alloc, lines, atom, b"place", b"place", word)
}

/// How the condition of a line is written, where a name stands in the place of its `at`.
#[tactic(auto, unfolding(crate::specs::Condition::at_advice))]
pub(crate) fn at_advice(alloc: Global, line: &[u8], word: &[u8]) -> Result<Vec<u8>, AllocError>
    ensures { IfOk result (λ text. text.items ≡ at_advice (words_of line.now) word.now) }
{
    match word_at(line, ATOM_OF_CONDITION) {
        Some(atom) if is_name(word) => asked_line(alloc, atom, word),
        _ => condition_line(alloc),
    }
}
