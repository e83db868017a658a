//! The warnings of atoms, and of their parts.
ghost use Rattle.std.specs.Prelude.{◌≡◌, map};
ghost use Rattle.std.specs.List.{list_any};
ghost use Rattle.petri_atom.specs.Atom.{definition_of};
ghost use Rattle.plant_model.specs.System.{plant_of};
ghost use Rattle.text_io.specs.Numbered.{numbered};
ghost use Rattle.text_io.specs.Printing.{Prints};
ghost use Rattle.plant_warnings.specs.Atoms.{atom_warnings, has_no_marked_place, place_warnings, port_warnings, variable_warnings, warnings_of_port, warnings_of_variable};
ghost use Rattle.plant_warnings.specs.Report.{Warns};

use crate::places::is_never_marked;
use crate::ports::{has_no_transition, is_in_no_connector};
use crate::reads::is_never_read;
use crate::report::{Report, print_if};
use crate::warning::Warning;
use petri_atom::{Atom, Place};
use std::io::Write;
use text_io::WriteFault;

/// Prints the warnings of atoms and of their parts, in the order of their numbers.
pub(crate) fn print_of_atoms<W: Write>(
    report: &Report<'_>,
    atoms: &[Atom],
    output: &mut W,
) -> Result<(), WriteFault>
    ensures { Warns result (W.contents output.old) (W.contents output.new) report.now (numbered (atom_warnings (plant_of report.now.system.now)) 0 (map definition_of atoms.now)) }
{
    for (number, atom) in atoms.iter().enumerate() {
        print_of_atom(report, number, atom, output)?;
    }
    Ok(())
}

/// Prints the warnings of an atom, its ports, its places and its variables.
fn print_of_atom<W: Write>(
    report: &Report<'_>,
    number: usize,
    atom: &Atom,
    output: &mut W,
) -> Result<(), WriteFault>
    ensures { Warns result (W.contents output.old) (W.contents output.new) report.now (atom_warnings (plant_of report.now.system.now) number (definition_of atom.now)) }
{
    print_if(
        report,
        has_no_marked_place(atom),
        Warning::NoMarkedPlace { atom: number },
        output,
    )?;
    print_of_ports(report, number, atom, output)?;
    print_of_places(report, number, atom, output)?;
    print_of_variables(report, number, atom, output)
}

/// Whether no place of the atom is marked at first.
fn has_no_marked_place(atom: &Atom) -> bool
    ensures { result ≡ has_no_marked_place (definition_of atom.now) }
{
    !is_one_marked(atom.places())
}

/// Whether one of the places is marked at first.
fn is_one_marked(places: &[Place]) -> bool
    ensures { result ≡ list_any (λ place. place.marked) places.now }
{
    places.iter().any(|place| place.marked)
}

/// Prints the warnings of the ports of an atom.
fn print_of_ports<W: Write>(
    report: &Report<'_>,
    number: usize,
    atom: &Atom,
    output: &mut W,
) -> Result<(), WriteFault>
    ensures { Warns result (W.contents output.old) (W.contents output.new) report.now (numbered (port_warnings (plant_of report.now.system.now) number (definition_of atom.now)) 0 (definition_of atom.now).ports) }
{
    for (port, _) in atom.ports().iter().enumerate() {
        print_of_port(report, number, atom, port, output)?;
    }
    Ok(())
}

/// Prints the warnings of a port of an atom.
fn print_of_port<W: Write>(
    report: &Report<'_>,
    number: usize,
    atom: &Atom,
    port: usize,
    output: &mut W,
) -> Result<(), WriteFault>
    ensures { Warns result (W.contents output.old) (W.contents output.new) report.now (warnings_of_port (plant_of report.now.system.now) number (definition_of atom.now) port) }
{
    print_if(
        report,
        is_in_no_connector(report.system, number, port),
        Warning::PortInNoConnector { atom: number, port },
        output,
    )?;
    print_if(
        report,
        has_no_transition(atom, port),
        Warning::PortWithoutTransition { atom: number, port },
        output,
    )
}

/// Prints the warnings of the places of an atom.
fn print_of_places<W: Write>(
    report: &Report<'_>,
    number: usize,
    atom: &Atom,
    output: &mut W,
) -> Result<(), WriteFault>
    ensures { Warns result (W.contents output.old) (W.contents output.new) report.now (numbered (place_warnings number (definition_of atom.now)) 0 (definition_of atom.now).places) }
{
    for (place, made) in atom.places().iter().enumerate() {
        print_of_place(report, number, atom, place, made, output)?;
    }
    Ok(())
}

/// Prints the warning of a place of an atom, if there is one.
fn print_of_place<W: Write>(
    report: &Report<'_>,
    number: usize,
    atom: &Atom,
    place: usize,
    made: &Place,
    output: &mut W,
) -> Result<(), WriteFault>
    ensures { Warns result (W.contents output.old) (W.contents output.new) report.now (place_warnings number (definition_of atom.now) place made.now) }
{
    print_if(
        report,
        is_never_marked(atom, place, made),
        Warning::PlaceNeverMarked {
            atom: number,
            place,
        },
        output,
    )
}

/// Prints the warnings of the variables of an atom.
fn print_of_variables<W: Write>(
    report: &Report<'_>,
    number: usize,
    atom: &Atom,
    output: &mut W,
) -> Result<(), WriteFault>
    ensures { Warns result (W.contents output.old) (W.contents output.new) report.now (numbered (variable_warnings (plant_of report.now.system.now) number (definition_of atom.now)) 0 (definition_of atom.now).variables) }
{
    for (variable, _) in atom.variables().iter().enumerate() {
        print_of_variable(report, number, atom, variable, output)?;
    }
    Ok(())
}

/// Prints the warning of a variable of an atom, if there is one.
fn print_of_variable<W: Write>(
    report: &Report<'_>,
    number: usize,
    atom: &Atom,
    variable: usize,
    output: &mut W,
) -> Result<(), WriteFault>
    ensures { Warns result (W.contents output.old) (W.contents output.new) report.now (warnings_of_variable (plant_of report.now.system.now) number (definition_of atom.now) variable) }
{
    print_if(
        report,
        is_never_read(report.system, number, atom, variable),
        Warning::VariableNeverRead {
            atom: number,
            variable,
        },
        output,
    )
}
