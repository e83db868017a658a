//! A state as columns of a row: for each atom its marked places, and then each of its variables.
ghost use Rattle.std.specs.Prelude.{◌++◌, codes, flat_map, map};
ghost use Rattle.run_text.specs.Seen.{Prints, definition_of, plant_of};
ghost use Rattle.text_io.specs.Numbered.{numbered};
ghost use Rattle.run_states.specs.Columns.{atom_columns, atom_names, columns_of, names_of, value_column, value_text, variable_name};

use petri_atom::{Atom, AtomState, Name, Variable};
use plant_model::System;
use run_text::{PlantAt, print_places, value_at};
use std::io::Write;
use text_io::{Format, WriteFault, end_line, print_signed, print_text};

/// Prints the row that names the columns: those of a step, and then those of a state.
pub(crate) fn print_names<W: Write>(system: &System, output: &mut W) -> Result<(), WriteFault>
    ensures { Prints result (W.contents output.old) (W.contents output.new) (names_of (plant_of system.now) ++ codes "\n") }
{
    print_text(output, b"kind,number,name,parts,values")?;
    print_names_of_atoms(system.atoms(), output)?;
    end_line(output)
}

/// Prints the names of the columns of atoms.
fn print_names_of_atoms<W: Write>(atoms: &[Atom], output: &mut W) -> Result<(), WriteFault>
    ensures { Prints result (W.contents output.old) (W.contents output.new) (flat_map atom_names (map definition_of atoms.now)) }
{
    for atom in atoms {
        print_atom_names(atom, output)?;
    }
    Ok(())
}

/// Prints the names of the columns of an atom.
fn print_atom_names<W: Write>(atom: &Atom, output: &mut W) -> Result<(), WriteFault>
    ensures { Prints result (W.contents output.old) (W.contents output.new) (atom_names (definition_of atom.now)) }
{
    print_text(output, b",")?;
    print_text(output, atom.name().as_bytes())?;
    print_variable_names(atom.name(), atom.variables(), output)
}

/// Prints the names of the columns of the variables of an atom with this name.
fn print_variable_names<W: Write>(
    atom: &Name,
    variables: &[Variable],
    output: &mut W,
) -> Result<(), WriteFault>
    ensures { Prints result (W.contents output.old) (W.contents output.new) (flat_map (variable_name atom.now) variables.now) }
{
    for variable in variables {
        print_variable_name(atom, variable, output)?;
    }
    Ok(())
}

/// Prints the name of the column of a variable.
fn print_variable_name<W: Write>(
    atom: &Name,
    variable: &Variable,
    output: &mut W,
) -> Result<(), WriteFault>
    ensures { Prints result (W.contents output.old) (W.contents output.new) (variable_name atom.now variable.now) }
{
    print_text(output, b",")?;
    print_text(output, atom.as_bytes())?;
    print_text(output, b".")?;
    print_text(output, variable.name.as_bytes())
}

/// Prints the columns of a state.
pub(crate) fn print_columns<W: Write>(
    plant: &PlantAt<'_, '_>,
    output: &mut W,
) -> Result<(), WriteFault>
    ensures { Prints result (W.contents output.old) (W.contents output.new) (columns_of (plant_of plant.now.system.now) plant.now.states.now) }
{
    let system = plant.system;
    let states = plant.states;
    for (number, atom) in system.atoms().iter().enumerate() {
        print_atom_columns(atom, states.state(number as u16), output)?;
    }
    Ok(())
}

/// Prints the columns of an atom in a state.
fn print_atom_columns<W: Write>(
    atom: &Atom,
    state: &AtomState,
    output: &mut W,
) -> Result<(), WriteFault>
    ensures { Prints result (W.contents output.old) (W.contents output.new) (atom_columns (definition_of atom.now) state.now) }
{
    print_text(output, b",")?;
    print_places(Format::Csv, atom.places(), state.places(), output)?;
    print_values(atom.variables(), state.values(), output)
}

/// Prints the columns of variables.
fn print_values<W: Write>(
    variables: &[Variable],
    values: &[i64],
    output: &mut W,
) -> Result<(), WriteFault>
    ensures { Prints result (W.contents output.old) (W.contents output.new) (numbered (value_column values.now) 0 variables.now) }
{
    for number in 0..variables.len() {
        print_value(value_at(values, number), output)?;
    }
    Ok(())
}

/// Prints the column of a variable with this value.
fn print_value<W: Write>(value: i64, output: &mut W) -> Result<(), WriteFault>
    ensures { Prints result (W.contents output.old) (W.contents output.new) (value_text value) }
{
    print_text(output, b",")?;
    print_signed(output, value)
}
