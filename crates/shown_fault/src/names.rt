//! The names that lines declare, and the lines that do.
ghost use Rattle.std.specs.Prelude.{◌≡◌, IfOk, length, option_map};
ghost use Rattle.shown_fault.specs.Lent.{lists_of};
ghost use Rattle.shown_fault.specs.Names.{second_word, says, names_in, latest_in, part_names_in, last_line, is_among};

use plant_words::Words;
use plant_words::reading::take_word;
use std::alloc::{AllocError, Global};

/// The second word of a line that begins with this first one.
pub(crate) fn second_word<'t>(line: &'t [u8], first: &[u8]) -> Option<&'t [u8]>
    ensures { option_map (λ word. word.now) result ≡ second_word first.now line.now }
{
    let mut words = Words::new(line);
    if !take_word(&mut words, first) {
        return None;
    }
    words.next_word()
}

/// The second words of the lines that begin with this first one.
pub(crate) fn names_in<'t>(
    alloc: Global,
    lines: &[&'t [u8]],
    first: &[u8],
) -> Result<Vec<&'t [u8]>, AllocError>
    ensures { IfOk result (λ names. lists_of names.items ≡ names_in first.now (lists_of lines.now)) }
{
    let mut names = Vec::new(alloc);
    for line in lines {
        if let Some(name) = second_word(line, first) {
            names.push(name)?;
        }
    }
    Ok(names)
}

/// How many lines begin with this first word and have a second one.
pub(crate) fn count_names(lines: &[&[u8]], first: &[u8]) -> usize
    ensures { result ≡ length (names_in first.now (lists_of lines.now)) }
{
    let mut count = 0;
    for line in lines {
        if second_word(line, first).is_some() {
            count += 1;
        }
    }
    count
}

/// The second word of the last line that begins with this first one; empty if there is none.
pub(crate) fn latest_in<'t>(lines: &[&'t [u8]], first: &[u8]) -> &'t [u8]
    ensures { result.now ≡ latest_in first.now (lists_of lines.now) }
{
    let mut latest: &[u8] = b"";
    for line in lines {
        latest = second_word(line, first).unwrap_or(latest);
    }
    latest
}

/// The names of the parts of an atom, by the first word of their lines: those after the line of the atom and before that of another.
pub(crate) fn part_names_in<'t>(
    alloc: Global,
    lines: &[&'t [u8]],
    atom: &[u8],
    first: &[u8],
) -> Result<Vec<&'t [u8]>, AllocError>
    ensures { IfOk result (λ names. lists_of names.items ≡ part_names_in atom.now first.now (lists_of lines.now)) }
{
    let mut names = Vec::new(alloc);
    let mut is_inside = false;
    for line in lines {
        if let Some(name) = second_word(line, b"atom") {
            is_inside = name == atom;
        } else if is_inside && let Some(name) = second_word(line, first) {
            names.push(name)?;
        }
    }
    Ok(names)
}

/// The number, from 1, of the last line that begins with these two words.
pub(crate) fn last_line(lines: &[&[u8]], first: &[u8], second: &[u8]) -> Option<usize>
    ensures { result ≡ last_line first.now second.now (lists_of lines.now) }
{
    let mut last = None;
    for (index, line) in lines.iter().enumerate() {
        if says(line, first, second) {
            last = Some(index + 1);
        }
    }
    last
}

/// Whether the line begins with these two words.
pub(crate) fn says(line: &[u8], first: &[u8], second: &[u8]) -> bool
    ensures { result ≡ says first.now second.now line.now }
{
    match second_word(line, first) {
        Some(word) => word == second,
        None => false,
    }
}

/// Whether the word is one of the names.
pub(crate) fn is_among(names: &[&[u8]], word: &[u8]) -> bool
    ensures { result ≡ is_among (lists_of names.now) word.now }
{
    for name in names {
        if *name == word {
            return true;
        }
    }
    false
}
