//! The lines of variables.
ghost use Rattle.std.specs.Prelude.{◌++◌, codes, map};
ghost use Rattle.petri_atom.specs.Atom.{definition_of};
ghost use Rattle.run_text.specs.Seen.{Prints};
ghost use Rattle.text_io.specs.Numbered.{numbered};
ghost use Rattle.run_summary.specs.Lines.{bounds_text, variable_line, variable_lines, variable_words};

use crate::atom_summary::AtomSummary;
use crate::bounds::Bounds;
use petri_atom::{Atom, Variable};
use std::io::Write;
use text_io::{WriteFault, end_line, print_signed, print_text};

/// Prints the variables of atoms, each with its bounds.
pub(crate) fn print_variables<W: Write>(
    atoms: &[Atom],
    summaries: &[AtomSummary],
    output: &mut W,
) -> Result<(), WriteFault>
    ensures { Prints result (W.contents output.old) (W.contents output.new) (numbered (variable_lines summaries.now) 0 (map definition_of atoms.now)) }
{
    for (number, atom) in atoms.iter().enumerate() {
        print_of_atom(number, atom, summaries, output)?;
    }
    Ok(())
}

/// Prints the variables of the atom with this number; nothing if there is no summary of it.
fn print_of_atom<W: Write>(
    number: usize,
    atom: &Atom,
    summaries: &[AtomSummary],
    output: &mut W,
) -> Result<(), WriteFault>
    ensures { Prints result (W.contents output.old) (W.contents output.new) (variable_lines summaries.now number (definition_of atom.now)) }
{
    match summaries.get(number) {
        Some(summary) => print_bounded(atom, summary.bounds(), output),
        None => Ok(()),
    }
}

/// Prints the variables of an atom, each with its bounds.
fn print_bounded<W: Write>(atom: &Atom, bounds: &[Bounds], output: &mut W) -> Result<(), WriteFault>
    ensures { Prints result (W.contents output.old) (W.contents output.new)
        (numbered (variable_line (definition_of atom.now) bounds.now) 0 (definition_of atom.now).variables) }
{
    for (number, variable) in atom.variables().iter().enumerate() {
        print_numbered(number, atom, variable, bounds, output)?;
    }
    Ok(())
}

/// Prints the variable with this number; nothing if it has no bounds.
fn print_numbered<W: Write>(
    number: usize,
    atom: &Atom,
    variable: &Variable,
    bounds: &[Bounds],
    output: &mut W,
) -> Result<(), WriteFault>
    ensures { Prints result (W.contents output.old) (W.contents output.new) (variable_line (definition_of atom.now) bounds.now number variable.now) }
{
    match bounds.get(number) {
        Some(bounds) => print_variable(atom, variable, *bounds, output),
        None => Ok(()),
    }
}

/// Prints a variable of an atom with its bounds.
fn print_variable<W: Write>(
    atom: &Atom,
    variable: &Variable,
    bounds: Bounds,
    output: &mut W,
) -> Result<(), WriteFault>
    ensures { Prints result (W.contents output.old) (W.contents output.new) (variable_words (definition_of atom.now) variable.now ++ bounds_text bounds) }
{
    print_words(atom.name().as_bytes(), variable, output)?;
    print_bounds(bounds, output)
}

/// Prints which variable it is, of the atom of this name.
fn print_words<W: Write>(atom: &[u8], variable: &Variable, output: &mut W) -> Result<(), WriteFault>
    ensures { Prints result (W.contents output.old) (W.contents output.new) (codes "variable " ++ atom.now ++ codes "." ++ variable.now.name) }
{
    print_text(output, b"variable ")?;
    print_text(output, atom)?;
    print_text(output, b".")?;
    print_text(output, variable.name.as_bytes())
}

/// Prints the least and the greatest value, and ends the line.
fn print_bounds<W: Write>(bounds: Bounds, output: &mut W) -> Result<(), WriteFault>
    ensures { Prints result (W.contents output.old) (W.contents output.new) (bounds_text bounds) }
{
    print_text(output, b" ")?;
    print_signed(output, bounds.least)?;
    print_text(output, b"..")?;
    print_signed(output, bounds.greatest)?;
    end_line(output)
}
