//! Places, and variables of other atoms, where a variable has to stand.
ghost use Rattle.std.specs.Prelude.{◌≡◌, IfOk};
ghost use Rattle.shown_fault.specs.Lent.{lists_of};
ghost use Rattle.shown_fault.specs.Places.{has_part_named, place_lines, own_advice, plain_advice, other_atom_line, reading_advice, atom_reading_advice};

use crate::missing::names_listed;
use crate::names::{is_among, latest_in, part_names_in};
use crate::parts::{latest_part_advice, part_advice};
use crate::shown::{advice_line, joined, quoted};
use plant_words::split_export;
use std::alloc::{AllocError, Global};

/// Whether the atom has a part with the name, by the first word of the lines of such parts.
pub(crate) fn has_part_named(
    alloc: Global,
    lines: &[&[u8]],
    atom: &[u8],
    first: &[u8],
    name: &[u8],
) -> Result<bool, AllocError>
    ensures { IfOk result (λ has. has ≡ has_part_named (lists_of lines.now) atom.now first.now name.now) }
{
    let names = part_names_in(alloc, lines, atom, first)?;
    Ok(is_among(&names, name))
}

/// That a place of the atom stands where a variable has to, and where places are asked for.
#[tactic(auto, unfolding(crate::specs::Places::place_lines))]
fn place_lines(alloc: Global, atom: &[u8], place: &[u8]) -> Result<Vec<u8>, AllocError>
    ensures { IfOk result (λ text. text.items ≡ place_lines atom.now place.now) }
{
    let shown = quoted(alloc, place)?;
    let what = advice_line(
        alloc,
        &[
            &shown,
            b" is a place of atom ",
            atom,
            b", and an expression of a plant has variables alone",
        ],
    )?;
    let how = advice_line(
        alloc,
        &[
            b"'from ",
            place,
            b"' asks for a place in a transition, 'when ",
            atom,
            b" at ",
            place,
            b"' in a rule",
        ],
    )?;
    joined(alloc, &[&what, &how])
}

/// The variables of the latest atom, or where its places are asked for if the word is one.
#[tactic(auto, unfolding(crate::specs::Places::plain_advice))]
fn plain_advice(alloc: Global, lines: &[&[u8]], word: &[u8]) -> Result<Vec<u8>, AllocError>
    ensures { IfOk result (λ text. text.items ≡ plain_advice (lists_of lines.now) word.now) }
{
    let atom = latest_in(lines, b"atom");
    if has_part_named(alloc, lines, atom, b"place", word)? {
        place_lines(alloc, atom, word)
    } else {
        latest_part_advice(alloc, lines, b"var", b"variable", word)
    }
}

/// That a transition reads no variable of another atom.
fn other_atom_line(alloc: Global, lines: &[&[u8]]) -> Result<Vec<u8>, AllocError>
    ensures { IfOk result (λ text. text.items ≡ other_atom_line (lists_of lines.now)) }
{
    let atom = latest_in(lines, b"atom");
    let names = part_names_in(alloc, lines, atom, b"var")?;
    let listed = names_listed(alloc, &names)?;
    advice_line(
        alloc,
        &[
            b"a transition reads the variables of its own atom alone, by their names; ",
            atom,
            b" has",
            &listed,
        ],
    )
}

/// The same of a name with its atom before it, where the atom is the latest.
fn own_advice(alloc: Global, lines: &[&[u8]], name: &[u8]) -> Result<Vec<u8>, AllocError>
    ensures { IfOk result (λ text. text.items ≡ own_advice (lists_of lines.now) name.now) }
{
    let atom = latest_in(lines, b"atom");
    if has_part_named(alloc, lines, atom, b"var", name)? {
        advice_line(
            alloc,
            &[
                b"a variable of the same atom is written without it: write '",
                name,
                b"'",
            ],
        )
    } else {
        plain_advice(alloc, lines, name)
    }
}

/// Where a transition names what is no variable of its atom: the variables, or where places are asked for.
#[tactic(auto, unfolding(crate::specs::Places::reading_advice))]
pub(crate) fn reading_advice(
    alloc: Global,
    lines: &[&[u8]],
    word: &[u8],
) -> Result<Vec<u8>, AllocError>
    ensures { IfOk result (λ text. text.items ≡ reading_advice (lists_of lines.now) word.now) }
{
    match split_export(word) {
        None => plain_advice(alloc, lines, word),
        Some((atom, name)) if atom == latest_in(lines, b"atom") => own_advice(alloc, lines, name),
        Some((atom, name)) => {
            if has_part_named(alloc, lines, atom, b"place", name)? {
                place_lines(alloc, atom, name)
            } else {
                other_atom_line(alloc, lines)
            }
        }
    }
}

/// Where the atom of a connector has no variable with the name: its variables, or where its places are asked for.
#[tactic(auto, unfolding(crate::specs::Places::atom_reading_advice))]
pub(crate) fn atom_reading_advice(
    alloc: Global,
    lines: &[&[u8]],
    atom: &[u8],
    name: &[u8],
) -> Result<Vec<u8>, AllocError>
    ensures { IfOk result (λ text. text.items ≡ atom_reading_advice (lists_of lines.now) atom.now name.now) }
{
    if has_part_named(alloc, lines, atom, b"place", name)? {
        place_lines(alloc, atom, name)
    } else {
        part_advice(alloc, lines, atom, b"var", b"variable", name)
    }
}
