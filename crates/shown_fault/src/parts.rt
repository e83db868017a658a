//! A name of no part of an atom, or of no atom, and the names that there are.
ghost use Rattle.std.specs.Prelude.{◌≡◌, IfOk, option_map};
ghost use Rattle.shown_fault.specs.Lent.{lists_of};
ghost use Rattle.shown_fault.specs.Parts.{part_advice, latest_part_advice, atom_advice};

use crate::missing::missing;
use crate::names::{is_among, latest_in, names_in, part_names_in};
use crate::shown::joined;
use std::alloc::{AllocError, Global};

/// The parts of the latest atom whose lines begin with this word.
#[tactic(auto, unfolding(crate::specs::Parts::latest_part_advice))]
pub(crate) fn latest_part_advice(
    alloc: Global,
    lines: &[&[u8]],
    first: &[u8],
    kind: &[u8],
    word: &[u8],
) -> Result<Vec<u8>, AllocError>
    ensures { IfOk result (λ text. text.items ≡ latest_part_advice (lists_of lines.now) first.now kind.now word.now) }
{
    part_advice(alloc, lines, latest_in(lines, b"atom"), first, kind, word)
}

/// The parts of an atom whose lines begin with this word.
#[tactic(auto, unfolding(crate::specs::Parts::part_advice))]
pub(crate) fn part_advice(
    alloc: Global,
    lines: &[&[u8]],
    atom: &[u8],
    first: &[u8],
    kind: &[u8],
    word: &[u8],
) -> Result<Vec<u8>, AllocError>
    ensures { IfOk result (λ text. text.items ≡ part_advice (lists_of lines.now) atom.now first.now kind.now word.now) }
{
    let names = part_names_in(alloc, lines, atom, first)?;
    let what = joined(alloc, &[b"atom ", atom, b" has no ", kind])?;
    missing(alloc, &what, b"it has", word, &names)
}

/// The atoms, if the word is none of them; and else nothing.
#[tactic(auto, unfolding(crate::specs::Parts::atom_advice))]
pub(crate) fn atom_advice(
    alloc: Global,
    lines: &[&[u8]],
    word: &[u8],
) -> Result<Option<Vec<u8>>, AllocError>
    ensures { IfOk result (λ advice. option_map (λ text. text.items) advice ≡ atom_advice (lists_of lines.now) word.now) }
{
    let names = names_in(alloc, lines, b"atom")?;
    if is_among(&names, word) {
        return Ok(None);
    }
    Ok(Some(missing(alloc, b"there is no atom", b"there are", word, &names)?))
}
