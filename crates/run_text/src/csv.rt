//! The rows of a run, of five columns each.
ghost use Rattle.std.specs.Prelude.{◌≡◌, ◌≤◌, length, IfOk};
ghost use Rattle.run_text.specs.Seen.{Prints, choice_of, definition_of, plant_of};
ghost use Rattle.text_io.specs.declared.format.Format.TheVariants.{Csv};
ghost use Rattle.run_text.specs.Csv.{fired_row, participant_words, state_row};
ghost use Rattle.run_text.specs.ByRows.{words_by_rows};
ghost use Rattle.run_text.specs.Word.{after_words, between_text, separated_after, separated_by};

use crate::delivered::print_delivered;
use crate::fired::{Firing, print_moves};
use crate::states::{print_places, print_values};
use petri_atom::{Atom, AtomState, Delivered};
use plant_model::{Move, System};
use std::io::Write;
use text_io::{Format, WriteFault, print_number, print_text};

/// Prints the row of a fired interaction, without its end.
pub(crate) fn print_step_row<W: Write>(
    system: &System,
    firing: &Firing<'_>,
    output: &mut W,
) -> Result<(), WriteFault>
    ensures { Prints result (W.contents output.old) (W.contents output.new)
        (fired_row (plant_of system.now) firing.now.number (choice_of firing.now.choice.now) (words_by_rows (plant_of system.now) firing.now.delivered.now firing.now.choice.now.moves)) }
{
    let moves = firing.choice.moves.as_slice();
    let delivered = firing.delivered;
    print_text(output, b"step,")?;
    print_number(output, firing.number)?;
    print_text(output, b",")?;
    print_text(output, system.wire_name(firing.choice.connector))?;
    print_text(output, b",")?;
    print_moves(system.atoms(), moves, b"", output)?;
    print_text(output, b",")?;
    print_deliveries(system, moves, delivered, output)
}

/// Prints what all participants got, in their order.
fn print_deliveries<W: Write>(
    system: &System,
    moves: &[Move],
    delivered: &[Delivered],
    output: &mut W,
) -> Result<(), WriteFault>
    requires { length moves.now ≤ length delivered.now }
    ensures { Prints result (W.contents output.old) (W.contents output.new) (separated_by (between_text Csv) (words_by_rows (plant_of system.now) delivered.now moves.now)) }
{
    let mut before: &'static [u8] = b"";
    for (place, step) in moves.iter().enumerate() {
        before = print_delivery(system, *step, &delivered[place], before, output)?;
    }
    Ok(())
}

/// Prints what a participant got, with `before` before the first value; returns what is to stand before the value that is
/// printed next.
fn print_delivery<W: Write>(
    system: &System,
    step: Move,
    delivered: &Delivered,
    before: &'static [u8],
    output: &mut W,
) -> Result<&'static [u8], WriteFault>
    ensures printed { Prints result (W.contents output.old) (W.contents output.new)
        (separated_after before.now (between_text Csv) (participant_words (plant_of system.now) step delivered.now)) }
    ensures next { IfOk result (λ next. next.now ≡ after_words before.now (between_text Csv) (participant_words (plant_of system.now) step delivered.now)) }
{
    match system.atoms().get(usize::from(step.atom)) {
        Some(atom) => print_delivered(
            Format::Csv,
            atom,
            step.transition,
            delivered,
            before,
            output,
        ),
        None => Ok(before),
    }
}

/// Prints the row of an atom in a state, without its end.
pub(crate) fn print_state_row<W: Write>(
    atom: &Atom,
    state: &AtomState,
    output: &mut W,
) -> Result<(), WriteFault>
    ensures { Prints result (W.contents output.old) (W.contents output.new) (state_row (definition_of atom.now) state.now) }
{
    print_text(output, b"state,,")?;
    print_text(output, atom.name().as_bytes())?;
    print_text(output, b",")?;
    print_places(Format::Csv, atom.places(), state.places(), output)?;
    print_text(output, b",")?;
    print_values(Format::Csv, atom.variables(), state.values(), b"", output)
}
