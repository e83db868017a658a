//! The line of a fired interaction.
ghost use Rattle.std.specs.Prelude.{◌≡◌, codes, map};
ghost use Rattle.run_text.specs.Seen.{Prints, choice_of, definition_of, plant_of};
ghost use Rattle.run_text.specs.Line.{fired_line, fired_port_name, interaction_line, participant, transition_name};
ghost use Rattle.run_text.specs.Steps.{saved_line};
ghost use Rattle.run_text.specs.Word.{separated_after};

use connector_tree::MAX_LEAVES;
use petri_atom::{Atom, Delivered};
use plant_model::{Choice, Move, System};
use std::io::Write;
use text_io::{WriteFault, end_line, print_number, print_text};

/// A choice that was fired.
#[derive(Clone, Copy)]
pub struct Firing<'a> {
    /// Its number: the first that is fired in a run has 1.
    pub number: u64,
    /// The choice.
    pub choice: &'a Choice,
    /// What it delivered: at the place of each move what its atom got.
    pub delivered: &'a [Delivered; MAX_LEAVES],
}

/// Prints a fired interaction: its number, the name of its connector, and its participants in rising order of their
/// atoms, each as `ATOM.PORT/TRANSITION`. The line is not ended.
pub fn print_choice<W: Write>(
    number: u64,
    system: &System,
    choice: &Choice,
    output: &mut W,
) -> Result<(), WriteFault>
    ensures { Prints result (W.contents output.old) (W.contents output.new) (fired_line (plant_of system.now) number (choice_of choice.now)) }
{
    print_number(output, number)?;
    print_text(output, b" ")?;
    print_interaction(system, choice, output)
}

/// Prints a fired interaction without its number: the name of its connector, and its participants in rising order of their atoms,
/// each as `ATOM.PORT/TRANSITION`. The line is not ended.
pub fn print_interaction<W: Write>(
    system: &System,
    choice: &Choice,
    output: &mut W,
) -> Result<(), WriteFault>
    ensures { Prints result (W.contents output.old) (W.contents output.new) (interaction_line (plant_of system.now) (choice_of choice.now)) }
{
    print_text(output, system.wire_name(choice.connector))?;
    print_moves(system.atoms(), choice.moves.as_slice(), b" ", output)
}

/// Prints the line by which a fired choice is saved, with its end: it can be read as a pick.
pub fn print_saved_line<W: Write>(
    system: &System,
    choice: &Choice,
    output: &mut W,
) -> Result<(), WriteFault>
    ensures { Prints result (W.contents output.old) (W.contents output.new) (saved_line (plant_of system.now) (choice_of choice.now)) }
{
    print_interaction(system, choice, output)?;
    end_line(output)
}

/// Prints the participants of a choice, with a space between two, and `before` before the first.
pub(crate) fn print_moves<W: Write>(
    atoms: &[Atom],
    moves: &[Move],
    before: &[u8],
    output: &mut W,
) -> Result<(), WriteFault>
    ensures { Prints result (W.contents output.old) (W.contents output.new) (separated_after before.now (codes " ") (map (participant (map definition_of atoms.now)) moves.now)) }
{
    let mut between = before;
    for step in moves {
        print_text(output, between)?;
        print_move(atoms, *step, output)?;
        between = b" ";
    }
    Ok(())
}

/// Prints a participant; nothing if the atom is not there.
fn print_move<W: Write>(atoms: &[Atom], step: Move, output: &mut W) -> Result<(), WriteFault>
    ensures { Prints result (W.contents output.old) (W.contents output.new) (participant (map definition_of atoms.now) step) }
{
    match atoms.get(usize::from(step.atom)) {
        Some(atom) => print_transition_name(atom, step.transition, output),
        None => Ok(()),
    }
}

/// Prints a transition of an atom, as the line of a fired interaction names it: `ATOM.PORT/TRANSITION`.
pub fn print_transition_name<W: Write>(
    atom: &Atom,
    transition: u16,
    output: &mut W,
) -> Result<(), WriteFault>
    ensures { Prints result (W.contents output.old) (W.contents output.new) (transition_name (definition_of atom.now) transition) }
{
    print_text(output, atom.name().as_bytes())?;
    print_text(output, b".")?;
    print_text(output, fired_port_name(atom, transition))?;
    print_text(output, b"/")?;
    print_number(output, u64::from(transition))
}

/// The name of the port that the transition fires; empty if the transition is not there.
pub(crate) fn fired_port_name(atom: &Atom, transition: u16) -> &[u8]
    ensures { result.now ≡ fired_port_name (definition_of atom.now) transition }
{
    match atom.transitions().get(usize::from(transition)) {
        Some(transition) => atom.port_name(transition.port()),
        None => &[],
    }
}
