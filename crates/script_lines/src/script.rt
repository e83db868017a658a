//! A script, line by line.
ghost use Rattle.std.specs.Prelude.{◌≡◌, ◌≤◌, [], ◌∷◌, ◌++◌, length, slice_get, Ok, IfErr, IfOk, IsOkAnd};
ghost use Rattle.plant_model.specs.System.{plant_of};
ghost use Rattle.text_io.specs.declared.reading.TheConstants.{MAX_TEXT};
ghost use Rattle.script_lines.specs.Script.{IsFaultOf, event_lines, has_words, script_meaning};

use crate::fault::ScriptFault;
use crate::line::{ScriptLine, read_line};
use plant_core::Event;
use plant_model::System;
use plant_words::{Lines, Words};
use std::alloc::{AllocError, Global};
use text_io::MAX_TEXT;

/// The events that a script asks of a plant of the system, or the first line that it is refused for: its number from 1, and 0 if the
/// script has more than 1,048,576 bytes.
///
/// Each line has no words or asks for one event: `fire P`, `fire` with a choice as a fired line names it, `flush`, `ask NAME`, `put NAME`, `save`, `trim`,
/// `begin P` or `back NAME`, where NAME is that of an atom. Lines are read on if memory is wanting, so that it hides no line that is refused.
pub fn read_script(alloc: Global, system: &System, text: &[u8]) -> Result<Vec<Event>, ScriptFault>
    ensures events { IfOk result (λ events. script_meaning (plant_of system.now) text.now ≡ Ok events.items) }
    ensures fault { IfErr result (IsFaultOf (plant_of system.now) text.now) }
{
    if text.len() > MAX_TEXT {
        return Err(ScriptFault::Line(0));
    }
    read_lines(alloc, system, text)
}

/// The events that the lines of a script ask for.
fn read_lines(alloc: Global, system: &System, text: &[u8]) -> Result<Vec<Event>, ScriptFault>
    requires { length text.now ≤ MAX_TEXT }
    ensures events { IfOk result (λ events. script_meaning (plant_of system.now) text.now ≡ Ok events.items) }
    ensures fault { IfErr result (IsFaultOf (plant_of system.now) text.now) }
{
    let mut events = Ok(Vec::new(alloc));
    let mut lines = Lines::new(text);
    let mut number = 1;
    while let Some(line) = lines.next_line() {
        match read_line(system, line) {
            ScriptLine::Nothing => {}
            ScriptLine::Asks(event) => events = with_event(events, event),
            ScriptLine::Mistaken(_) => return Err(ScriptFault::Line(number)),
        }
        number += 1;
    }
    Ok(events?)
}

/// The events with one more after them, if there was memory for them.
fn with_event(
    events: Result<Vec<Event>, AllocError>,
    event: Event,
) -> Result<Vec<Event>, AllocError>
    ensures { IfOk result (λ more. IsOkAnd events (λ before. more.items ≡ before.items ++ event ∷ [])) }
{
    let mut events = events?;
    events.push(event)?;
    Ok(events)
}

/// The number of the line of a script, counted from 1, that asks for the event with this place among all, counted from 0.
pub fn line_of_event(text: &[u8], place: usize) -> Option<u32>
    requires { length text.now ≤ MAX_TEXT }
    ensures { result ≡ slice_get (event_lines text.now) place }
{
    let mut lines = Lines::new(text);
    let mut number = 1;
    let mut left = place;
    while let Some(line) = lines.next_line() {
        if has_words(line) {
            if left == 0 {
                return Some(number);
            }
            left -= 1;
        }
        number += 1;
    }
    None
}

/// Whether the line has words.
fn has_words(line: &[u8]) -> bool
    ensures { result ≡ has_words line.now }
{
    Words::new(line).next_word().is_some()
}
