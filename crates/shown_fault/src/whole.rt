//! A fault of no line.
ghost use Rattle.std.specs.Prelude.{◌≡◌, IfOk};
ghost use Rattle.plant_words.specs.Lines.{lines_of};
ghost use Rattle.shown_fault.specs.Lent.{lists_of};
ghost use Rattle.shown_fault.specs.Whole.{whole_advice, cycle_advice, round_advice, interaction_line, reached_from};
ghost use Rattle.shown_fault.specs.Interaction.{interaction_shown};

use crate::circle::{circle_lines, reached};
use crate::interaction::{AtomNames, Interaction, interaction_in};
use crate::names::{count_names, names_in};
use crate::shown::{advice_line, joined};
use plant_text::Fault;
use plant_words::Lines;
use priority_filter::OrderFault;
use std::alloc::{AllocError, Global};

/// What can be done about a fault of no line; nothing if memory ran out, or the text could not be read.
pub(crate) fn whole_advice(alloc: Global, text: &[u8], fault: &Fault) -> Result<Vec<u8>, AllocError>
    ensures { IfOk result (λ advice. advice.items ≡ whole_advice (lines_of text.now) fault.now) }
{
    match fault {
        Fault::TooLong => advice_line(alloc, &[fault.to_string(alloc)?.as_bytes()]),
        Fault::NoAtom => advice_line(alloc, &[b"write at least one line 'atom NAME'"]),
        Fault::Order(OrderFault::Cycle(number)) => {
            let lines = all_lines(alloc, text)?;
            cycle_advice(alloc, &lines, usize::from(*number))
        }
        _ => Ok(Vec::new(alloc)),
    }
}

/// The lines of a text.
pub(crate) fn all_lines<'t>(alloc: Global, text: &'t [u8]) -> Result<Vec<&'t [u8]>, AllocError>
    ensures { IfOk result (λ lines. lists_of lines.items ≡ lines_of text.now) }
{
    let mut all = Vec::new(alloc);
    let mut lines = Lines::new(text);
    while let Some(line) = lines.next_line() {
        all.push(line)?;
    }
    Ok(all)
}

/// The interaction with this number, which the rules of the lines put below itself, and the rules that lead round.
#[tactic(auto, unfolding(crate::specs::Whole::cycle_advice))]
fn cycle_advice(alloc: Global, lines: &[&[u8]], number: usize) -> Result<Vec<u8>, AllocError>
    ensures { IfOk result (λ text. text.items ≡ cycle_advice (lists_of lines.now) number) }
{
    let names = names_in(alloc, lines, b"atom")?;
    let atoms = AtomNames { names: &names };
    match interaction_in(alloc, lines, &atoms, number)? {
        Some(interaction) => round_advice(alloc, lines, &interaction),
        None => Ok(Vec::new(alloc)),
    }
}

/// The interaction, and the rules that lead round from its connector.
#[tactic(auto, unfolding(crate::specs::Whole::round_advice))]
fn round_advice<'t>(
    alloc: Global,
    lines: &[&'t [u8]],
    interaction: &Interaction<'t>,
) -> Result<Vec<u8>, AllocError>
    ensures { IfOk result (λ text. text.items ≡ round_advice (lists_of lines.now) (interaction_shown interaction.now)) }
{
    let head = interaction_line(alloc, interaction)?;
    let above = reached_from(alloc, lines, true, interaction.connector)?;
    let below = reached_from(alloc, lines, false, interaction.connector)?;
    let rules = circle_lines(alloc, lines, &above, &below)?;
    joined(alloc, &[&head, &rules])
}

/// The interaction, by its connector and its mask.
#[tactic(auto, unfolding(crate::specs::Whole::interaction_line))]
fn interaction_line(alloc: Global, interaction: &Interaction<'_>) -> Result<Vec<u8>, AllocError>
    ensures { IfOk result (λ text. text.items ≡ interaction_line (interaction_shown interaction.now)) }
{
    let mask = interaction.mask.to_string(alloc)?;
    advice_line(
        alloc,
        &[
            b"the rules put connector ",
            interaction.connector,
            b", mask ",
            mask.as_bytes(),
            b" below itself",
        ],
    )
}

/// The connectors that are reached from this one by rules, up or down: as many rounds over the rules as there are connectors reach all.
#[tactic(auto, unfolding(crate::specs::Whole::reached_from))]
fn reached_from<'t>(
    alloc: Global,
    lines: &[&'t [u8]],
    is_up: bool,
    connector: &'t [u8],
) -> Result<Vec<&'t [u8]>, AllocError>
    ensures { IfOk result (λ names. lists_of names.items ≡ reached_from (lists_of lines.now) is_up connector.now) }
{
    let rounds = count_names(lines, b"connector");
    reached(alloc, is_up, lines, connector, rounds)
}
