//! Where the mistake of a script stands, and what is said of it.
ghost use Rattle.std.specs.Prelude.{◌≡◌, ◌+◌, ◌-◌, ◌≤◌, length, option_map, slice_get, OnOk};
ghost use Rattle.std.specs.Io.KnownBytes.{Appends};
ghost use Rattle.plant_words.specs.Lines.{lines_of};
ghost use Rattle.plant_model.specs.System.{plant_of};
ghost use Rattle.script_lines.specs.Mistakes.{colon_text, place_text, placed_mistake};

use crate::mistake::Mistake;
use crate::mistake_text::{place_at_fault, print_mistake};
use plant_model::System;
use plant_words::{Lines, Words};
use std::io::Write;
use text_io::{WriteFault, end_line, print_number, print_text};

/// The line of the text with the number, counted from 1.
pub fn line_with(text: &[u8], number: u32) -> Option<&[u8]>
    ensures { option_map (λ line. line.now) result ≡ slice_get (lines_of text.now) (number - 1) }
{
    let mut lines = Lines::new(text);
    let mut left = number.saturating_sub(1);
    while let Some(line) = lines.next_line() {
        if left == 0 {
            return Some(line);
        }
        left -= 1;
    }
    None
}

/// Prints a line: where a mistake stands, as an editor jumps there, and what is wrong. The path is printed as it is.
pub fn print_placed_mistake<W: Write>(
    system: &System,
    path: &[u8],
    number: u32,
    column: usize,
    line: &[u8],
    mistake: Mistake,
    output: &mut W,
) -> Result<(), WriteFault>
    ensures { OnOk result (Appends (W.contents output.old) (W.contents output.new) (placed_mistake (plant_of system.now) path.now number column line.now mistake)) }
{
    print_place(path, number, column, output)?;
    print_mistake(system, line, mistake, output)?;
    end_line(output)
}

/// Prints a place in a text.
fn print_place<W: Write>(
    path: &[u8],
    number: u32,
    column: usize,
    output: &mut W,
) -> Result<(), WriteFault>
    ensures { OnOk result (Appends (W.contents output.old) (W.contents output.new) (place_text path.now number column)) }
{
    print_text(output, b"  ")?;
    print_text(output, path)?;
    print_colon(u64::from(number), output)?;
    print_colon(column as u64, output)?;
    print_text(output, b": ")
}

/// Prints a number behind a colon.
fn print_colon<W: Write>(number: u64, output: &mut W) -> Result<(), WriteFault>
    ensures { OnOk result (Appends (W.contents output.old) (W.contents output.new) (colon_text number)) }
{
    print_text(output, b":")?;
    print_number(output, number)
}

/// The column of the mistake of a line: of the byte at which the word at fault begins, counted from 1, or the one behind the line where a word is
/// missing.
pub fn column_of_mistake(system: &System, line: &[u8], mistake: Mistake) -> usize
    ensures from { 1 ≤ result }
    ensures to { result ≤ length line.now + 1 }
{
    column_of(line, place_at_fault(system, line, mistake))
}

/// The column at which the word of the line with this place begins, counted from 1; or the one behind the line, if it has no such word.
fn column_of(line: &[u8], place: usize) -> usize
    ensures from { 1 ≤ result }
    ensures to { result ≤ length line.now + 1 }
{
    let mut words = Words::new(line);
    let mut left = place;
    while words.next_word().is_some() && left > 0 {
        left -= 1;
    }
    line.len().saturating_sub(words.seen().len()) + 1
}
