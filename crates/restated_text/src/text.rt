//! A whole text with another first state.
ghost use Rattle.std.specs.Prelude.{◌≡◌, ◌≤◌, ◌<◌, ◌++◌, ◌∷◌, [], IfOk, IfSome, MatchOption, OnOk, length, option_map, slice_get};
ghost use Rattle.std.specs.List.{position_or_len, slice_split};
ghost use Rattle.std.specs.Option.{option_map_or};
ghost use Rattle.std.specs.Str.Lines.{strip_carriage_return};
ghost use Rattle.plant_model.specs.declared.limits.TheConstants.{MAX_ATOMS};
ghost use Rattle.petri_atom.specs.Local.{has};
ghost use Rattle.restated_text.specs.Counts.{HaveRoom, kind_of};
ghost use Rattle.restated_text.specs.Text.{after_part_of_text, is_line_feed, latest_state, line_in_state, restated_line, restated_part, restated_text};
ghost use Rattle.restated_text.specs.Lines.{variable_line};

use crate::counts::{Counts, kind_of};
use crate::line::{add_place_line, add_variable_line};
use petri_atom::{AtomState, MAX_PLACES};
use plant_model::PlantState;
use plant_words::{AtomPart, LineKind};
use std::alloc::{AllocError, Global};

const LINE_FEED: u8 = b'\n';

/// The text with the states as its atoms' first ones.
pub(crate) fn restate(
    alloc: Global,
    text: &[u8],
    states: &PlantState,
) -> Result<Vec<u8>, AllocError>
    requires { length states.now ≤ MAX_ATOMS }
    ensures { IfOk result (λ restated. restated.items ≡ restated_text states.now text.now) }
{
    let mut restated = Vec::new(alloc);
    let mut counts = Counts::none();
    let mut rest = text;
    while let Some((part, behind)) = around_line_feed(rest) {
        add_part(&mut restated, part, states, counts)?;
        restated.push(b'\n')?;
        counts = counts_after(counts, part);
        rest = behind;
    }
    add_part(&mut restated, rest, states, counts)?;
    Ok(restated)
}

/// What stands before the first line feed, and what stands behind it; `None` if there is none.
fn around_line_feed(text: &[u8]) -> Option<(&[u8], &[u8])>
    ensures parts { MatchOption result (slice_split is_line_feed text.now ≡ text.now ∷ [])
        (λ sides. slice_split is_line_feed text.now ≡ sides.0.now ∷ slice_split is_line_feed sides.1.now) }
    ensures shorter { IfSome result (λ sides. length sides.1.now < length text.now) }
{
    let (part, behind) = text.split_at(line_len(text));
    match behind {
        [_, rest @ ..] => Some((part, rest)),
        [] => None,
    }
}

/// How many bytes stand before the first line feed.
fn line_len(text: &[u8]) -> usize
    ensures value { result ≡ position_or_len is_line_feed text.now }
    ensures within { result ≤ length text.now }
{
    text.iter().take_while(|byte| **byte != LINE_FEED).count()
}

/// The counts after what stands before a line feed.
fn counts_after(counts: Counts, part: &[u8]) -> Counts
    requires { HaveRoom counts }
    ensures { result ≡ after_part_of_text counts part.now }
{
    match kind_of(without_return(part)) {
        Some(kind) => counts.after(kind),
        None => counts,
    }
}

/// Adds what stands before a line feed, or after the last one: a line, restated, and the carriage return at its end.
fn add_part(
    restated: &mut Vec<u8>,
    part: &[u8],
    states: &PlantState,
    counts: Counts,
) -> Result<(), AllocError>
    requires { length states.now ≤ MAX_ATOMS }
    ensures { OnOk result (restated.new.items ≡ restated.old.items ++ restated_part states.now counts part.now) }
{
    let line = without_return(part);
    add_line(restated, line, states, counts)?;
    restated.extend_from_slice(part.split_at(line.len()).1)
}

/// The line without the carriage return at its end, if it has one.
fn without_return(part: &[u8]) -> &[u8]
    ensures line { result.now ≡ strip_carriage_return part.now }
    ensures within { length result.now ≤ length part.now }
{
    match part {
        [front @ .., b'\r'] => front,
        _ => part,
    }
}

/// Adds a line, restated.
fn add_line(
    restated: &mut Vec<u8>,
    line: &[u8],
    states: &PlantState,
    counts: Counts,
) -> Result<(), AllocError>
    requires { length states.now ≤ MAX_ATOMS }
    ensures { OnOk result (restated.new.items ≡ restated.old.items ++ restated_line states.now counts line.now) }
{
    match latest_state(states, counts) {
        Some(state) => add_line_in_state(restated, line, state, counts),
        None => restated.extend_from_slice(line),
    }
}

/// The state of the latest atom, if it is there.
fn latest_state<'s>(states: &'s PlantState, counts: Counts) -> Option<&'s AtomState>
    requires { length states.now ≤ MAX_ATOMS }
    ensures { option_map (λ state. state.now) result ≡ latest_state states.now counts }
{
    let atom = counts.atoms.saturating_sub(1);
    if atom < states.len() {
        Some(states.state(atom as u16))
    } else {
        None
    }
}

/// Adds a line, where the latest atom is in the state.
fn add_line_in_state(
    restated: &mut Vec<u8>,
    line: &[u8],
    state: &AtomState,
    counts: Counts,
) -> Result<(), AllocError>
    ensures { OnOk result (restated.new.items ≡ restated.old.items ++ line_in_state (kind_of line.now) state.now counts line.now) }
{
    match kind_of(line) {
        Some(LineKind::OfAtom(AtomPart::Place)) => {
            add_place_line(restated, line, is_marked(state.places(), counts.places))
        }
        Some(LineKind::OfAtom(AtomPart::Variable)) => {
            add_line_of_variable(restated, line, state, counts.variables)
        }
        _ => restated.extend_from_slice(line),
    }
}

/// Adds the line of the variable with the number; as it is where the state has no value for it.
fn add_line_of_variable(
    restated: &mut Vec<u8>,
    line: &[u8],
    state: &AtomState,
    number: usize,
) -> Result<(), AllocError>
    ensures { OnOk result (restated.new.items ≡ restated.old.items ++ option_map_or (λ value. variable_line value line.now) (slice_get state.now.values number) line.now) }
{
    match state.values().get(number) {
        Some(value) => add_variable_line(restated, line, *value),
        None => restated.extend_from_slice(line),
    }
}

/// Whether the place with this number is marked.
fn is_marked(marking: u64, place: usize) -> bool
    ensures { result ≡ has marking place }
{
    place < MAX_PLACES && (marking >> place) & 1 == 1
}
