//! The masks of a connector.
ghost use Rattle.std.specs.Prelude.{◌≡◌, ◌-◌, [], IfOk};
ghost use Rattle.shown_fault.specs.Lent.{lists_of};
ghost use Rattle.shown_fault.specs.Masks.{said_line, more_masks, masks_listed, total_text, masks_lines, masks_advice};

use crate::interaction::{AtomNames, masks_in};
use crate::names::{names_in, says};
use crate::shown::{advice_line, joined};
use connector_tree::Mask;
use std::alloc::{AllocError, Global};

/// The most masks that are listed.
pub(crate) const MAX_MASKS: usize = 16;

/// The last of the lines that begins with these two words; empty if there is none.
fn said_line<'t>(lines: &[&'t [u8]], first: &[u8], second: &[u8]) -> &'t [u8]
    ensures { result.now ≡ said_line [] first.now second.now (lists_of lines.now) }
{
    let mut latest: &[u8] = b"";
    for line in lines {
        if says(line, first, second) {
            latest = line;
        }
    }
    latest
}

/// The masks in a row, the first ones if there are many.
fn masks_listed(alloc: Global, masks: &[Mask]) -> Result<Vec<u8>, AllocError>
    ensures { IfOk result (λ text. text.items ≡ masks_listed masks.now) }
{
    match masks {
        [] => joined(alloc, &[b" none"]),
        [first, others @ ..] => {
            let first = first.to_string(alloc)?;
            let others = more_masks(alloc, others)?;
            joined(alloc, &[b" ", first.as_bytes(), &others])
        }
    }
}

/// The masks after the first one.
fn more_masks(alloc: Global, masks: &[Mask]) -> Result<Vec<u8>, AllocError>
    ensures { IfOk result (λ text. text.items ≡ more_masks (MAX_MASKS - 1) masks.now) }
{
    let mut text = Vec::new(alloc);
    let mut left = MAX_MASKS - 1;
    for mask in masks {
        if left == 0 {
            text.extend_from_slice(b", ..")?;
            return Ok(text);
        }
        text.extend_from_slice(b", ")?;
        text.extend_from_slice(mask.to_string(alloc)?.as_bytes())?;
        left -= 1;
    }
    Ok(text)
}

/// How many masks there are, if not all are listed.
fn total_text(alloc: Global, masks: &[Mask]) -> Result<Vec<u8>, AllocError>
    ensures { IfOk result (λ text. text.items ≡ total_text masks.now) }
{
    if masks.len() <= MAX_MASKS {
        return Ok(Vec::new(alloc));
    }
    let total = masks.len().to_string(alloc)?;
    joined(alloc, &[b" (", total.as_bytes(), b" in all)"])
}

/// The masks of the connector with the name, and what they are.
#[tactic(auto, unfolding(crate::specs::Masks::masks_lines))]
fn masks_lines(alloc: Global, name: &[u8], masks: &[Mask]) -> Result<Vec<u8>, AllocError>
    ensures { IfOk result (λ text. text.items ≡ masks_lines name.now masks.now) }
{
    let listed = masks_listed(alloc, masks)?;
    let total = total_text(alloc, masks)?;
    let which = advice_line(
        alloc,
        &[b"the masks of connector ", name, b":", &listed, &total],
    )?;
    let what = advice_line(
        alloc,
        &[
            b"a mask is the sum of the ports that take part: 1 for the first of the connector, 2 for the second, 4 for the third, ..",
        ],
    )?;
    joined(alloc, &[&which, &what])
}

/// The masks of the connector with the name.
#[tactic(auto, unfolding(crate::specs::Masks::masks_advice))]
pub(crate) fn masks_advice(
    alloc: Global,
    lines: &[&[u8]],
    name: &[u8],
) -> Result<Vec<u8>, AllocError>
    ensures { IfOk result (λ text. text.items ≡ masks_advice (lists_of lines.now) name.now) }
{
    let names = names_in(alloc, lines, b"atom")?;
    let line = said_line(lines, b"connector", name);
    let masks = masks_in(alloc, line, &AtomNames { names: &names })?;
    masks_lines(alloc, name, &masks)
}
