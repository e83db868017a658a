//! The objects of a run, one on each line.
ghost use Rattle.std.specs.Prelude.{◌++◌, ◌≤◌, codes, decimal, length};
ghost use Rattle.run_text.specs.Seen.{Prints, choice_of, definition_of, plant_of};
ghost use Rattle.run_text.specs.Jsonl.{atom_object, fired_members, fired_object, move_object, state_members, state_object};
ghost use Rattle.run_text.specs.Line.{fired_port_name};
ghost use Rattle.run_text.specs.ByRows.{objects_by_rows};
ghost use Rattle.run_text.specs.Word.{quoted, separated_by};

use crate::delivered::print_delivered;
use crate::fired::{Firing, fired_port_name};
use crate::states::{print_places, print_values};
use crate::word::print_quoted;
use petri_atom::{Atom, AtomState, Delivered};
use plant_model::{Move, System};
use std::io::Write;
use text_io::{Format, WriteFault, print_number, print_text};

/// Prints the object of a fired interaction, without the end of its line.
pub(crate) fn print_step_object<W: Write>(
    system: &System,
    firing: &Firing<'_>,
    output: &mut W,
) -> Result<(), WriteFault>
    ensures { Prints result (W.contents output.old) (W.contents output.new)
        (fired_object (plant_of system.now) firing.now.number (choice_of firing.now.choice.now) (objects_by_rows (plant_of system.now) firing.now.delivered.now firing.now.choice.now.moves)) }
{
    print_step_members(system, firing, output)?;
    print_text(output, b"}")
}

/// Prints the same object up to its closing brace, so that more members can follow.
pub fn print_step_members<W: Write>(
    system: &System,
    firing: &Firing<'_>,
    output: &mut W,
) -> Result<(), WriteFault>
    ensures { Prints result (W.contents output.old) (W.contents output.new)
        (fired_members (plant_of system.now) firing.now.number (choice_of firing.now.choice.now) (objects_by_rows (plant_of system.now) firing.now.delivered.now firing.now.choice.now.moves)) }
{
    let delivered = firing.delivered;
    print_text(output, b"{\"kind\":\"step\",\"number\":")?;
    print_number(output, firing.number)?;
    print_text(output, b",\"connector\":")?;
    print_quoted(system.wire_name(firing.choice.connector), output)?;
    print_text(output, b",\"participants\":[")?;
    print_participants(system, firing.choice.moves.as_slice(), delivered, output)?;
    print_text(output, b"]")
}

/// Prints the objects of the participants.
fn print_participants<W: Write>(
    system: &System,
    moves: &[Move],
    delivered: &[Delivered],
    output: &mut W,
) -> Result<(), WriteFault>
    requires { length moves.now ≤ length delivered.now }
    ensures { Prints result (W.contents output.old) (W.contents output.new) (separated_by (codes ",") (objects_by_rows (plant_of system.now) delivered.now moves.now)) }
{
    let mut between: &[u8] = b"";
    for (place, step) in moves.iter().enumerate() {
        print_text(output, between)?;
        print_participant(system, *step, &delivered[place], output)?;
        between = b",";
    }
    Ok(())
}

/// Prints the object of a participant that got this; nothing if the atom is not there.
fn print_participant<W: Write>(
    system: &System,
    step: Move,
    delivered: &Delivered,
    output: &mut W,
) -> Result<(), WriteFault>
    ensures { Prints result (W.contents output.old) (W.contents output.new) (move_object (plant_of system.now) step delivered.now) }
{
    match system.atoms().get(usize::from(step.atom)) {
        Some(atom) => print_atom_object(atom, step.transition, delivered, output),
        None => Ok(()),
    }
}

/// Prints the object of an atom that fires the transition and is delivered this.
fn print_atom_object<W: Write>(
    atom: &Atom,
    transition: u16,
    delivered: &Delivered,
    output: &mut W,
) -> Result<(), WriteFault>
    ensures { Prints result (W.contents output.old) (W.contents output.new) (atom_object (definition_of atom.now) transition delivered.now) }
{
    print_fired(atom, transition, output)?;
    print_text(output, b",\"delivered\":{")?;
    print_delivered(Format::Jsonl, atom, transition, delivered, b"", output)?;
    print_text(output, b"}}")
}

/// Prints the members of a participant's object that say what it fires.
fn print_fired<W: Write>(atom: &Atom, transition: u16, output: &mut W) -> Result<(), WriteFault>
    ensures { Prints result (W.contents output.old) (W.contents output.new)
        (codes "{\"atom\":" ++ quoted (definition_of atom.now).name ++ codes ",\"port\":" ++ quoted (fired_port_name (definition_of atom.now) transition) ++ codes ",\"transition\":" ++ decimal transition) }
{
    print_text(output, b"{\"atom\":")?;
    print_quoted(atom.name().as_bytes(), output)?;
    print_text(output, b",\"port\":")?;
    print_quoted(fired_port_name(atom, transition), output)?;
    print_text(output, b",\"transition\":")?;
    print_number(output, u64::from(transition))
}

/// Prints the object of an atom in a state, without the end of its line.
pub(crate) fn print_state_object<W: Write>(
    atom: &Atom,
    state: &AtomState,
    output: &mut W,
) -> Result<(), WriteFault>
    ensures { Prints result (W.contents output.old) (W.contents output.new) (state_object (definition_of atom.now) state.now) }
{
    print_text(output, b"{\"kind\":\"state\",")?;
    print_state_members(atom, state, output)?;
    print_text(output, b"}")
}

/// Prints the members of an object that say which atom is in which state: its name, the names of its marked places, and its
/// variables with their values.
pub fn print_state_members<W: Write>(
    atom: &Atom,
    state: &AtomState,
    output: &mut W,
) -> Result<(), WriteFault>
    ensures { Prints result (W.contents output.old) (W.contents output.new) (state_members (definition_of atom.now) state.now) }
{
    print_text(output, b"\"atom\":")?;
    print_quoted(atom.name().as_bytes(), output)?;
    print_text(output, b",\"places\":[")?;
    print_places(Format::Jsonl, atom.places(), state.places(), output)?;
    print_text(output, b"],\"variables\":{")?;
    print_values(Format::Jsonl, atom.variables(), state.values(), b"", output)?;
    print_text(output, b"}")
}
