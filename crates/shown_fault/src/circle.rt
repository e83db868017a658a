//! The rules that lead round: those of the connectors that are below and above a connector.
ghost use Rattle.std.specs.Prelude.{◌≡◌, ◌∷◌, [], IfOk, OnOk, option_map};
ghost use Rattle.shown_fault.specs.Lent.{lists_of};
ghost use Rattle.shown_fault.specs.Circle.{names_shown, sides_in, facing, spread, reached, takes_part, rule_line, rule_lines, connector_of, has_conditions, condition_line, circle_lines};

use crate::front::word_at;
use crate::names::{is_among, second_word};
use crate::rule_sign::{RIGHT_SIDE, has_condition};
use crate::shown::{advice_line, cut_to, joined, shown_name};
use crate::window::MAX_SHOWN;
use plant_words::split_mask;
use std::alloc::{AllocError, Global};

/// The most rules that are shown.
pub(crate) const MAX_SHOWN_RULES: usize = 16;

/// The connectors of both sides of a line `prio`.
fn sides_in<'t>(line: &'t [u8]) -> Option<(&'t [u8], &'t [u8])>
    ensures { option_map names_shown result ≡ sides_in line.now }
{
    let left = second_word(line, b"prio")?;
    let right = word_at(line, RIGHT_SIDE)?;
    Some((connector_of(left), connector_of(right)))
}

/// The connector of a side.
pub(crate) fn connector_of(side: &[u8]) -> &[u8]
    ensures { result.now ≡ connector_of side.now }
{
    match split_mask(side) {
        Some((name, _)) => name,
        None => side,
    }
}

/// The sides, the lower one first if the way goes up.
fn facing<'t>(is_up: bool, sides: (&'t [u8], &'t [u8])) -> (&'t [u8], &'t [u8])
    ensures { names_shown result ≡ facing is_up (names_shown sides.entry) }
{
    if is_up { sides } else { (sides.1, sides.0) }
}

/// Puts to the connectors each one that a rule sets directly above one of them, or below, rule by rule.
fn spread<'t>(is_up: bool, lines: &[&'t [u8]], names: &mut Vec<&'t [u8]>) -> Result<(), AllocError>
    ensures { OnOk result (lists_of names.new.items ≡ spread is_up (lists_of names.old.items) (lists_of lines.now)) }
{
    for line in lines {
        if let Some(sides) = sides_in(line) {
            let (from, to) = facing(is_up, sides);
            if is_among(names, from) && !is_among(names, to) {
                names.push(to)?;
            }
        }
    }
    Ok(())
}

/// The connectors to which a way of rules leads up from this one, or down, by so many rounds over the rules.
pub(crate) fn reached<'t>(
    alloc: Global,
    is_up: bool,
    lines: &[&'t [u8]],
    connector: &'t [u8],
    rounds: usize,
) -> Result<Vec<&'t [u8]>, AllocError>
    ensures { IfOk result (λ names. lists_of names.items ≡ reached rounds is_up (connector.now ∷ []) (lists_of lines.now)) }
{
    let mut names = Vec::new(alloc);
    names.push(connector)?;
    for _round in 0..rounds {
        spread(is_up, lines, &mut names)?;
    }
    Ok(names)
}

/// Whether the line is a rule that leads from a connector above to one below.
fn takes_part(line: &[u8], above: &[&[u8]], below: &[&[u8]]) -> bool
    ensures { result ≡ takes_part (lists_of above.now) (lists_of below.now) line.now }
{
    match sides_in(line) {
        Some((left, right)) => is_among(above, left) && is_among(below, right),
        None => match second_word(line, b"maximal") {
            Some(name) => is_among(above, name) && is_among(below, name),
            None => false,
        },
    }
}

/// The rules that lead round, and that conditions do not matter if one of these has one.
#[tactic(auto, unfolding(crate::specs::Circle::circle_lines))]
pub(crate) fn circle_lines(
    alloc: Global,
    lines: &[&[u8]],
    above: &[&[u8]],
    below: &[&[u8]],
) -> Result<Vec<u8>, AllocError>
    ensures { IfOk result (λ text. text.items ≡ circle_lines (lists_of above.now) (lists_of below.now) (lists_of lines.now)) }
{
    let rules = rule_lines(alloc, lines, above, below)?;
    let conditions = condition_line(alloc, lines, above, below)?;
    joined(alloc, &[&rules, &conditions])
}

/// A line for each rule that leads round, the first ones if there are many.
fn rule_lines(
    alloc: Global,
    lines: &[&[u8]],
    above: &[&[u8]],
    below: &[&[u8]],
) -> Result<Vec<u8>, AllocError>
    ensures { IfOk result (λ text. text.items ≡ rule_lines MAX_SHOWN_RULES 1 (lists_of above.now) (lists_of below.now) (lists_of lines.now)) }
{
    let mut text = Vec::new(alloc);
    let mut left = MAX_SHOWN_RULES;
    for (index, line) in lines.iter().enumerate() {
        if takes_part(line, above, below) {
            if left == 0 {
                text.extend_from_slice(b"  ..\n")?;
                return Ok(text);
            }
            text.extend_from_slice(&rule_line(alloc, index + 1, line)?)?;
            left -= 1;
        }
    }
    Ok(text)
}

/// A rule with the number of its line.
fn rule_line(alloc: Global, number: usize, line: &[u8]) -> Result<Vec<u8>, AllocError>
    ensures { IfOk result (λ text. text.items ≡ rule_line number line.now) }
{
    let number = number.to_string(alloc)?;
    let line = cut_to(MAX_SHOWN, &shown_name(alloc, line)?, alloc)?;
    advice_line(alloc, &[b"line ", number.as_bytes(), b": ", &line])
}

/// That conditions do not matter, if a rule that leads round has one.
fn condition_line(
    alloc: Global,
    lines: &[&[u8]],
    above: &[&[u8]],
    below: &[&[u8]],
) -> Result<Vec<u8>, AllocError>
    ensures { IfOk result (λ text. text.items ≡ condition_line (lists_of above.now) (lists_of below.now) (lists_of lines.now)) }
{
    if has_conditions(lines, above, below) {
        advice_line(
            alloc,
            &[
                b"conditions do not matter here: rules that lead round are refused even if they never count together",
            ],
        )
    } else {
        Ok(Vec::new(alloc))
    }
}

/// Whether a rule that leads round has a condition.
fn has_conditions(lines: &[&[u8]], above: &[&[u8]], below: &[&[u8]]) -> bool
    ensures { result ≡ has_conditions (lists_of above.now) (lists_of below.now) (lists_of lines.now) }
{
    for line in lines {
        if has_condition(line) && takes_part(line, above, below) {
            return true;
        }
    }
    false
}
