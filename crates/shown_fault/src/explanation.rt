//! A fault as it is shown: where it is, what is wrong there, and what can be done.
ghost use Rattle.std.specs.Prelude.{◌≡◌, ◌<◌, ◌-◌, IfOk, Err, slice_get};
ghost use Rattle.plant_words.specs.Lines.{lines_of};
ghost use Rattle.plant_text.specs.Meaning.{meaning};
ghost use Rattle.shown_fault.specs.Explanation.{explanation_of, Explains};
ghost use Rattle.shown_fault.specs.Whole.{whole_advice};

use crate::advice::advice;
use crate::lists::{texts_after, texts_before};
use crate::message::message;
use crate::shown::joined;
use crate::whole::{all_lines, whole_advice};
use crate::window::{location_line, part_of, window_lines};
use plant_text::{Mark, PlantFault, find_mark};
use std::alloc::{AllocError, Global};

/// What is shown of the fault of a text, after the line that a program prints of it. Of a fault of a line: where to jump, the line with
/// a mark under the part at fault, what is wrong there, and what can be done. Of a fault of no line: what can be done. `path` is the
/// text's name.
#[tactic(auto, using(crate::proofs::Explaining::line_explained, crate::proofs::Explaining::no_line_explained))]
pub fn explain(
    alloc: Global,
    path: &[u8],
    text: &[u8],
    found: &PlantFault,
) -> Result<Vec<u8>, AllocError>
    ensures shown { IfOk result (λ shown. meaning text.now ≡ Err found.now → 0 < found.now.line →
        Explains path.now (lines_of text.now) found.now (slice_get (lines_of text.now) (found.now.line - 1)) shown.items) }
    ensures whole { IfOk result (λ shown. found.now.line ≡ 0 → shown.items ≡ whole_advice (lines_of text.now) found.now.fault) }
{
    if found.line == 0 {
        return whole_advice(alloc, text, &found.fault);
    }
    match find_mark(alloc, text)? {
        Some(mark) => Ok(explanation(alloc, path, text, found, &mark)?),
        None => Ok(Vec::new(alloc)),
    }
}

/// What is shown of a fault of a line, with a mark at this part of it.
fn explanation(
    alloc: Global,
    path: &[u8],
    text: &[u8],
    found: &PlantFault,
    mark: &Mark<'_>,
) -> Result<Vec<u8>, AllocError>
    ensures { IfOk result (λ shown. shown.items ≡ explanation_of path.now (lines_of text.now) found.now mark.now.line.now mark.now.start mark.now.len) }
{
    let line = mark.line;
    let (front, word) = part_of(line, mark.start, mark.len);
    let lines = all_lines(alloc, text)?;
    let number = found.line as usize;
    let before = texts_before(&lines, number.saturating_sub(1));
    let below = texts_after(&lines, number);
    let location = location_line(alloc, path, found.line, front.len() + 1)?;
    let window = window_lines(alloc, line, mark.start, mark.len)?;
    let message = message(alloc, &found.fault, found.line, line, front, word)?;
    let advice = advice(alloc, &found.fault, before, below, line, front, word)?;
    joined(alloc, &[&location, &window, &message, b"\n", &advice])
}
