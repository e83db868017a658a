//! A name that is not there, and those that are.
ghost use Rattle.std.specs.Prelude.{◌≡◌, ◌-◌, IfOk};
ghost use Rattle.shown_fault.specs.Lent.{lists_of};
ghost use Rattle.shown_fault.specs.Missing.{more_names, names_listed, missing};

use crate::near::near_line;
use crate::shown::{advice_line, joined, quoted, shown_name};
use std::alloc::{AllocError, Global};

/// The most names that are listed.
pub(crate) const MAX_LISTED: usize = 8;

/// The names in a row, the first ones if there are many.
pub(crate) fn names_listed(alloc: Global, names: &[&[u8]]) -> Result<Vec<u8>, AllocError>
    ensures { IfOk result (λ text. text.items ≡ names_listed (lists_of names.now)) }
{
    match names {
        [] => joined(alloc, &[b" none"]),
        [first, others @ ..] => {
            let first = shown_name(alloc, first)?;
            let others = more_names(alloc, others)?;
            joined(alloc, &[b": ", &first, &others])
        }
    }
}

/// The names after the first one.
fn more_names(alloc: Global, names: &[&[u8]]) -> Result<Vec<u8>, AllocError>
    ensures { IfOk result (λ text. text.items ≡ more_names (MAX_LISTED - 1) (lists_of names.now)) }
{
    let mut text = Vec::new(alloc);
    let mut left = MAX_LISTED - 1;
    for name in names {
        if left == 0 {
            text.extend_from_slice(b", ..")?;
            return Ok(text);
        }
        text.extend_from_slice(b", ")?;
        text.extend_from_slice(&shown_name(alloc, name)?)?;
        left -= 1;
    }
    Ok(text)
}

/// Where a name is not there, the names that are, and one that was perhaps meant.
#[tactic(auto, unfolding(crate::specs::Missing::missing))]
pub(crate) fn missing(
    alloc: Global,
    what: &[u8],
    others: &[u8],
    word: &[u8],
    names: &[&[u8]],
) -> Result<Vec<u8>, AllocError>
    ensures { IfOk result (λ text. text.items ≡ missing what.now others.now word.now (lists_of names.now)) }
{
    let listed = names_listed(alloc, names)?;
    let shown = quoted(alloc, word)?;
    let line = advice_line(alloc, &[what, b" ", &shown, b"; ", others, &listed])?;
    let near = near_line(alloc, word, names)?;
    joined(alloc, &[&line, &near])
}
