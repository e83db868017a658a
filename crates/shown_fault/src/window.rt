//! Where a fault stands: the line for an editor, and the part of the text's line round it, with a mark under it.
ghost use Rattle.std.specs.Prelude.{◌≡◌, IfOk, take, drop};
ghost use Rattle.shown_fault.specs.Window.{location_line, cut_before, dots, window, mark_in, marked, window_lines};

use crate::shown::{cut_to, joined, repeated, shown_name};
use std::alloc::{AllocError, Global};

/// The most characters of a line that are shown.
pub(crate) const MAX_SHOWN: usize = 100;

/// How many characters are shown before the part at fault, if the line is cut.
pub(crate) const LEAD: usize = 20;

/// How many characters `...` has.
pub(crate) const DOTS: usize = 3;

/// Where to jump: the path, the line's number and the column.
pub(crate) fn location_line(
    alloc: Global,
    path: &[u8],
    line: u32,
    column: usize,
) -> Result<Vec<u8>, AllocError>
    ensures { IfOk result (λ text. text.items ≡ location_line path.now line column) }
{
    let path = shown_name(alloc, path)?;
    let line = line.to_string(alloc)?;
    let column = column.to_string(alloc)?;
    joined(
        alloc,
        &[
            b"  ",
            &path,
            b":",
            line.as_bytes(),
            b":",
            column.as_bytes(),
            b"\n",
        ],
    )
}

/// The line as it is shown round the part that begins after `start` bytes and has `len`, and under it the mark.
pub(crate) fn window_lines(
    alloc: Global,
    line: &[u8],
    start: usize,
    len: usize,
) -> Result<Vec<u8>, AllocError>
    ensures { IfOk result (λ text. text.items ≡ window_lines line.now start len) }
{
    let (before, part) = part_of(line, start, len);
    let chars = shown_name(alloc, line)?;
    let before = shown_name(alloc, before)?.len();
    let width = shown_name(alloc, part)?.len();
    marked(alloc, &chars, before, width)
}

/// What stands before the part of a line that begins after `start` bytes and has `len`, and the part.
pub(crate) fn part_of(line: &[u8], start: usize, len: usize) -> (&[u8], &[u8])
    ensures before { result.0.now ≡ take start line.now }
    ensures part { result.1.now ≡ take len (drop start line.now) }
{
    let (before, from) = line.split_at(start.min(line.len()));
    let (part, _) = from.split_at(len.min(from.len()));
    (before, part)
}

/// The window of these characters, with the mark under the part that stands after so many and is so wide.
fn marked(alloc: Global, chars: &[u8], before: usize, width: usize) -> Result<Vec<u8>, AllocError>
    ensures { IfOk result (λ text. text.items ≡ marked chars.now before width) }
{
    let cut = cut_before(chars.len(), before);
    let window = window(alloc, chars, cut)?;
    let lead = dots(cut).len();
    let mark = mark_in(alloc, window.len(), lead, before.saturating_sub(cut), width)?;
    joined(alloc, &[b"  ", &window, b"\n", &mark])
}

/// How many characters are cut off before the window, of so many, where the part stands after so many of them.
fn cut_before(total: usize, before: usize) -> usize
    ensures { result ≡ cut_before total before }
{
    if total <= MAX_SHOWN {
        return 0;
    }
    let cut = before.saturating_sub(LEAD).min(total - (MAX_SHOWN - DOTS));
    if cut <= DOTS { 0 } else { cut }
}

/// What stands in the place of the characters that are cut off before the window.
fn dots(cut: usize) -> &'static [u8]
    ensures { result.now ≡ dots cut }
{
    if cut == 0 { b"" } else { b"..." }
}

/// The characters after those that are cut off, as many as are shown.
fn window(alloc: Global, chars: &[u8], cut: usize) -> Result<Vec<u8>, AllocError>
    ensures { IfOk result (λ text. text.items ≡ window chars.now cut) }
{
    let (_, after) = chars.split_at(cut.min(chars.len()));
    let dots = dots(cut);
    let fitting = cut_to(MAX_SHOWN - dots.len(), after, alloc)?;
    joined(alloc, &[dots, &fitting])
}

/// The mark under a part that stands after `lead` and then `before` characters in a window, and is so wide; no wider than the window.
fn mark_in(
    alloc: Global,
    window: usize,
    lead: usize,
    before: usize,
    width: usize,
) -> Result<Vec<u8>, AllocError>
    ensures { IfOk result (λ text. text.items ≡ mark_in window lead before width) }
{
    let room = window.saturating_sub(lead).saturating_sub(before);
    let lead = repeated(alloc, b' ', lead)?;
    let before = repeated(alloc, b' ', before)?;
    let mark = repeated(alloc, b'^', width.min(room).max(1))?;
    joined(alloc, &[b"  ", &lead, &before, &mark, b" "])
}
