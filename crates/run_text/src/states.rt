//! The lines of the states of a plant's atoms.
ghost use Rattle.std.specs.Prelude.{◌≡◌};
ghost use Rattle.run_text.specs.Seen.{IsOf, Prints, definition_of, plant_of};
ghost use Rattle.petri_atom.specs.Local.{has, value_in};
ghost use Rattle.run_text.specs.Format.{atom_text, end_text};
ghost use Rattle.run_text.specs.Line.{places_text, state_line, states_text, value_words};
ghost use Rattle.run_text.specs.Word.{between_text, separated_after};

use crate::csv::print_state_row;
use crate::format::between_text;
use crate::jsonl::print_state_object;
use crate::plant_at::PlantAt;
use crate::word::{print_assigned, print_name};
use petri_atom::{Atom, AtomState, MAX_PLACES, Place, Variable};
use plant_model::{PlantState, System};
use std::io::Write;
use text_io::{Format, WriteFault, end_line, print_text};

/// Prints a line for the state of each atom, in the order of the atoms: `state`, the atom's name, its marked places in
/// brackets, and its variables, each as `NAME=VALUE`.
pub fn print_states<W: Write>(
    system: &System,
    states: &PlantState,
    output: &mut W,
) -> Result<(), WriteFault>
    requires { IsOf (plant_of system.now) states.now }
    ensures { Prints result (W.contents output.old) (W.contents output.new) (states_text (plant_of system.now) states.now) }
{
    print_end(Format::Lines, &PlantAt { system, states }, output)
}

/// Prints a line for the state of each atom, in the order of the atoms.
pub(crate) fn print_end<W: Write>(
    format: Format,
    plant: &PlantAt<'_, '_>,
    output: &mut W,
) -> Result<(), WriteFault>
    ensures { Prints result (W.contents output.old) (W.contents output.new) (end_text format (plant_of plant.now.system.now) plant.now.states.now) }
{
    let system = plant.system;
    let states = plant.states;
    for (number, atom) in system.atoms().iter().enumerate() {
        print_atom(format, atom, states.state(number as u16), output)?;
        end_line(output)?;
    }
    Ok(())
}

/// Prints the line of an atom in a state, without its end.
fn print_atom<W: Write>(
    format: Format,
    atom: &Atom,
    state: &AtomState,
    output: &mut W,
) -> Result<(), WriteFault>
    ensures { Prints result (W.contents output.old) (W.contents output.new) (atom_text format (definition_of atom.now) state.now) }
{
    match format {
        Format::Lines => print_state(atom, state, output),
        Format::Csv => print_state_row(atom, state, output),
        Format::Jsonl => print_state_object(atom, state, output),
    }
}

/// Prints the fixed line of an atom in a state: `state`, the atom's name, its marked places in brackets, and its variables, each as
/// `NAME=VALUE`. The line is not ended.
pub fn print_state<W: Write>(
    atom: &Atom,
    state: &AtomState,
    output: &mut W,
) -> Result<(), WriteFault>
    ensures { Prints result (W.contents output.old) (W.contents output.new) (state_line (definition_of atom.now) state.now) }
{
    print_text(output, b"state ")?;
    print_text(output, atom.name().as_bytes())?;
    print_text(output, b" [")?;
    print_places(Format::Lines, atom.places(), state.places(), output)?;
    print_text(output, b"]")?;
    print_values(
        Format::Lines,
        atom.variables(),
        state.values(),
        b" ",
        output,
    )
}

/// Prints the names of the marked places.
pub fn print_places<W: Write>(
    format: Format,
    places: &[Place],
    marking: u64,
    output: &mut W,
) -> Result<(), WriteFault>
    ensures { Prints result (W.contents output.old) (W.contents output.new) (places_text format marking places.now) }
{
    let mut between: &[u8] = b"";
    for (number, place) in places.iter().enumerate() {
        if is_marked(marking, number) {
            print_text(output, between)?;
            print_name(format, place.name.as_bytes(), output)?;
            between = between_text(format);
        }
    }
    Ok(())
}

/// Whether the place with this number is marked.
pub fn is_marked(marking: u64, place: usize) -> bool
    ensures { result ≡ has marking place }
{
    place < MAX_PLACES && (marking >> place) & 1 == 1
}

/// Prints the variables with their values, with `before` before the first.
pub(crate) fn print_values<W: Write>(
    format: Format,
    variables: &[Variable],
    values: &[i64],
    before: &[u8],
    output: &mut W,
) -> Result<(), WriteFault>
    ensures { Prints result (W.contents output.old) (W.contents output.new) (separated_after before.now (between_text format) (value_words format values.now variables.now)) }
{
    let mut between = before;
    for (number, variable) in variables.iter().enumerate() {
        print_text(output, between)?;
        print_assigned(
            format,
            variable.name.as_bytes(),
            value_at(values, number),
            output,
        )?;
        between = between_text(format);
    }
    Ok(())
}

/// The value of the variable with this number; 0 if there is none.
pub fn value_at(values: &[i64], variable: usize) -> i64
    ensures { result ≡ value_in values.now variable }
{
    values.get(variable).copied().unwrap_or(0)
}
