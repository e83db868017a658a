//! A state as JSON objects, one for each atom.
ghost use Rattle.std.specs.Prelude.{codes};
ghost use Rattle.run_text.specs.Seen.{Prints, definition_of, plant_of};
ghost use Rattle.run_text.specs.Word.{separated_by};
ghost use Rattle.run_states.specs.Objects.{atom_object, objects_of, states_end};

use petri_atom::{Atom, AtomState};
use run_text::{PlantAt, print_state_members};
use std::io::Write;
use text_io::{WriteFault, print_text};

/// Prints the end of an object whose last member says a state.
pub(crate) fn print_states_end<W: Write>(
    plant: &PlantAt<'_, '_>,
    output: &mut W,
) -> Result<(), WriteFault>
    ensures { Prints result (W.contents output.old) (W.contents output.new) (states_end (plant_of plant.now.system.now) plant.now.states.now) }
{
    print_text(output, b",\"states\":[")?;
    print_objects(plant, output)?;
    print_text(output, b"]}\n")
}

/// Prints the objects of the atoms.
fn print_objects<W: Write>(plant: &PlantAt<'_, '_>, output: &mut W) -> Result<(), WriteFault>
    ensures { Prints result (W.contents output.old) (W.contents output.new) (separated_by (codes ",") (objects_of (plant_of plant.now.system.now) plant.now.states.now)) }
{
    let system = plant.system;
    let states = plant.states;
    let mut between: &[u8] = b"";
    for (number, atom) in system.atoms().iter().enumerate() {
        print_text(output, between)?;
        print_object(atom, states.state(number as u16), output)?;
        between = b",";
    }
    Ok(())
}

/// Prints the object of an atom in a state.
fn print_object<W: Write>(atom: &Atom, state: &AtomState, output: &mut W) -> Result<(), WriteFault>
    ensures { Prints result (W.contents output.old) (W.contents output.new) (atom_object (definition_of atom.now) state.now) }
{
    print_text(output, b"{")?;
    print_state_members(atom, state, output)?;
    print_text(output, b"}")
}
