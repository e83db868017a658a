//! The values of all signals.
ghost use Rattle.run_text.specs.Seen.{Prints, definition_of, plant_of};
ghost use Rattle.text_io.specs.Numbered.{numbered};
ghost use Rattle.run_states.specs.Values.{atom_values, place_value_of, values_of, variable_value_of};

use crate::signals::{print_place, print_variable};
use petri_atom::{Atom, AtomState, Place, Variable};
use run_text::{PlantAt, is_marked, value_at};
use std::io::Write;
use text_io::WriteFault;

/// Prints the values of the signals of all atoms.
pub(crate) fn print_values<W: Write>(
    plant: &PlantAt<'_, '_>,
    output: &mut W,
) -> Result<(), WriteFault>
    ensures { Prints result (W.contents output.old) (W.contents output.new) (values_of (plant_of plant.now.system.now) plant.now.states.now) }
{
    let system = plant.system;
    let states = plant.states;
    for (number, atom) in system.atoms().iter().enumerate() {
        print_atom(number as u64, atom, states.state(number as u16), output)?;
    }
    Ok(())
}

/// Prints the values of the signals of an atom: its places, and then its variables.
fn print_atom<W: Write>(
    number: u64,
    atom: &Atom,
    state: &AtomState,
    output: &mut W,
) -> Result<(), WriteFault>
    ensures { Prints result (W.contents output.old) (W.contents output.new) (atom_values number (definition_of atom.now) state.now) }
{
    print_places(number, atom.places(), state.places(), output)?;
    print_variables(number, atom.variables(), state.values(), output)
}

/// Prints the values of the places of an atom.
fn print_places<W: Write>(
    atom: u64,
    places: &[Place],
    marking: u64,
    output: &mut W,
) -> Result<(), WriteFault>
    ensures { Prints result (W.contents output.old) (W.contents output.new) (numbered (place_value_of atom marking) 0 places.now) }
{
    for number in 0..places.len() {
        print_place(atom, number as u64, is_marked(marking, number), output)?;
    }
    Ok(())
}

/// Prints the values of the variables of an atom.
fn print_variables<W: Write>(
    atom: u64,
    variables: &[Variable],
    values: &[i64],
    output: &mut W,
) -> Result<(), WriteFault>
    ensures { Prints result (W.contents output.old) (W.contents output.new) (numbered (variable_value_of atom values.now) 0 variables.now) }
{
    for number in 0..variables.len() {
        print_variable(atom, number as u64, value_at(values, number), output)?;
    }
    Ok(())
}
