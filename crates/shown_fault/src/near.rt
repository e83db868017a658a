//! A name that a word was perhaps meant to be.
ghost use Rattle.std.specs.Prelude.{◌≡◌, IfOk, option_map};
ghost use Rattle.shown_fault.specs.Lent.{lists_of};
ghost use Rattle.shown_fault.specs.Near.{is_near, first_near, near_name, near_line};

use crate::shown::advice_line;
use std::alloc::{AllocError, Global};
use strsim::generic_levenshtein;

/// The most bytes of a word that is compared with names: one with more is near to no name.
pub(crate) const MAX_COMPARED: usize = 34;

/// Whether the word becomes the name by so many edits, and by no more than half of its bytes: an edit puts in, takes out or changes
/// a byte.
fn is_near(alloc: Global, edits: usize, word: &[u8], name: &[u8]) -> Result<bool, AllocError>
    ensures { IfOk result (λ near. near ≡ is_near edits word.now name.now) }
{
    if word.len() > MAX_COMPARED {
        return Ok(false);
    }
    let needed = generic_levenshtein(alloc, word, name)?;
    Ok(needed <= edits && needed <= word.len() / 2)
}

/// The first of the names that the word becomes by so many edits.
fn first_near<'t>(
    alloc: Global,
    edits: usize,
    word: &[u8],
    names: &[&'t [u8]],
) -> Result<Option<&'t [u8]>, AllocError>
    ensures { IfOk result (λ found. option_map (λ name. name.now) found ≡ first_near edits word.now (lists_of names.now)) }
{
    for name in names {
        if is_near(alloc, edits, word, name)? {
            return Ok(Some(*name));
        }
    }
    Ok(None)
}

/// A name that the word becomes by one edit, or else by two: the first one.
fn near_name<'t>(
    alloc: Global,
    word: &[u8],
    names: &[&'t [u8]],
) -> Result<Option<&'t [u8]>, AllocError>
    ensures { IfOk result (λ found. option_map (λ name. name.now) found ≡ near_name word.now (lists_of names.now)) }
{
    match first_near(alloc, 1, word, names)? {
        Some(name) => Ok(Some(name)),
        None => first_near(alloc, 2, word, names),
    }
}

/// A line with the name that the word was perhaps meant to be; nothing if no name is near.
#[tactic(auto, unfolding(crate::specs::Near::near_line))]
pub fn near_line(alloc: Global, word: &[u8], names: &[&[u8]]) -> Result<Vec<u8>, AllocError>
    ensures { IfOk result (λ text. text.items ≡ near_line word.now (lists_of names.now)) }
{
    match near_name(alloc, word, names)? {
        Some(name) => advice_line(alloc, &[b"did you mean '", name, b"'?"]),
        None => Ok(Vec::new(alloc)),
    }
}
