//! The head of a value change dump: which signals there are.
ghost use Rattle.std.specs.Prelude.{map};
ghost use Rattle.run_text.specs.Seen.{Prints, definition_of, plant_of};
ghost use Rattle.text_io.specs.Numbered.{numbered};
ghost use Rattle.run_states.specs.Declarations.{declarations_of, module_lines, place_declaration, signal_declaration, variable_declaration};

use crate::signals::print_code;
use petri_atom::{Atom, Place, Variable};
use plant_model::System;
use std::io::Write;
use text_io::{WriteFault, print_text};

/// Prints the head: a module for each atom, with a signal for each of its places and variables.
pub(crate) fn print_declarations<W: Write>(
    system: &System,
    output: &mut W,
) -> Result<(), WriteFault>
    ensures { Prints result (W.contents output.old) (W.contents output.new) (declarations_of (plant_of system.now)) }
{
    print_text(output, b"$version Kilnmace $end\n$timescale 1 ns $end\n")?;
    print_modules(system.atoms(), output)?;
    print_text(output, b"$enddefinitions $end\n")
}

/// Prints the modules of atoms.
fn print_modules<W: Write>(atoms: &[Atom], output: &mut W) -> Result<(), WriteFault>
    ensures { Prints result (W.contents output.old) (W.contents output.new) (numbered module_lines 0 (map definition_of atoms.now)) }
{
    for (number, atom) in atoms.iter().enumerate() {
        print_module(number as u64, atom, output)?;
    }
    Ok(())
}

/// Prints the module of an atom.
fn print_module<W: Write>(number: u64, atom: &Atom, output: &mut W) -> Result<(), WriteFault>
    ensures { Prints result (W.contents output.old) (W.contents output.new) (module_lines number (definition_of atom.now)) }
{
    print_text(output, b"$scope module ")?;
    print_text(output, atom.name().as_bytes())?;
    print_text(output, b" $end\n")?;
    print_places(number, atom.places(), output)?;
    print_variables(number, atom.variables(), output)?;
    print_text(output, b"$upscope $end\n")
}

/// Prints the signals of the places of an atom.
fn print_places<W: Write>(atom: u64, places: &[Place], output: &mut W) -> Result<(), WriteFault>
    ensures { Prints result (W.contents output.old) (W.contents output.new) (numbered (place_declaration atom) 0 places.now) }
{
    for (number, place) in places.iter().enumerate() {
        print_signal(
            b"wire 1",
            b"p",
            atom,
            number as u64,
            place.name.as_bytes(),
            output,
        )?;
    }
    Ok(())
}

/// Prints the signals of the variables of an atom.
fn print_variables<W: Write>(
    atom: u64,
    variables: &[Variable],
    output: &mut W,
) -> Result<(), WriteFault>
    ensures { Prints result (W.contents output.old) (W.contents output.new) (numbered (variable_declaration atom) 0 variables.now) }
{
    for (number, variable) in variables.iter().enumerate() {
        print_signal(
            b"integer 64",
            b"v",
            atom,
            number as u64,
            variable.name.as_bytes(),
            output,
        )?;
    }
    Ok(())
}

/// Prints a signal: its shape, which is a type and how many bits there are, its code, and its name.
fn print_signal<W: Write>(
    shape: &[u8],
    kind: &[u8],
    atom: u64,
    number: u64,
    name: &[u8],
    output: &mut W,
) -> Result<(), WriteFault>
    ensures { Prints result (W.contents output.old) (W.contents output.new) (signal_declaration shape.now kind.now atom number name.now) }
{
    print_text(output, b"$var ")?;
    print_text(output, shape)?;
    print_text(output, b" ")?;
    print_code(kind, atom, number, output)?;
    print_text(output, b" ")?;
    print_text(output, name)?;
    print_text(output, b" $end\n")
}
