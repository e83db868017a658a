//! What the warnings say.
ghost use Rattle.plant_model.specs.System.{plant_of};
ghost use Rattle.text_io.specs.Printing.{Prints};
ghost use Rattle.plant_warnings.specs.Messages.{message_of, about, about_part};

use crate::names::{atom_name, connector_name, name_of_place, name_of_port, name_of_variable};
use crate::warning::Warning;
use plant_model::System;
use std::io::Write;
use text_io::{WriteFault, print_text};

/// Prints what the warning says.
pub(crate) fn print_message<W: Write>(
    system: &System,
    warning: Warning,
    output: &mut W,
) -> Result<(), WriteFault>
    ensures { Prints result (W.contents output.old) (W.contents output.new) (message_of (plant_of system.now) warning) }
{
    match warning {
        Warning::NoMarkedPlace { atom } => print_about(
            b"atom ",
            atom_name(system, atom),
            b" has no place that is marked at first, so it never moves",
            output,
        ),
        Warning::PortInNoConnector { atom, port } => print_about_part(
            b"port ",
            atom_name(system, atom),
            name_of_port(system, atom, port),
            b" is in no connector",
            output,
        ),
        Warning::PortWithoutTransition { atom, port } => print_about_part(
            b"port ",
            atom_name(system, atom),
            name_of_port(system, atom, port),
            b" has no transition",
            output,
        ),
        Warning::PlaceNeverMarked { atom, place } => print_about_part(
            b"place ",
            atom_name(system, atom),
            name_of_place(system, atom, place),
            b" is never marked",
            output,
        ),
        Warning::VariableNeverRead { atom, variable } => print_about_part(
            b"variable ",
            atom_name(system, atom),
            name_of_variable(system, atom, variable),
            b" is never read",
            output,
        ),
        Warning::ZeroGuard { connector, .. } => print_about(
            b"connector ",
            connector_name(system, connector),
            b" can't be fired: a guard is 0",
            output,
        ),
        Warning::NothingWithin { connector, .. } => print_about(
            b"rule orders nothing: connector ",
            connector_name(system, connector),
            b" has no interaction within another",
            output,
        ),
        Warning::DeadSide { connector, .. } => print_about(
            b"rule orders nothing: connector ",
            connector_name(system, connector),
            b" can't be fired",
            output,
        ),
    }
}

/// Prints what is said about something with a name.
fn print_about<W: Write>(
    before: &[u8],
    name: &[u8],
    after: &[u8],
    output: &mut W,
) -> Result<(), WriteFault>
    ensures { Prints result (W.contents output.old) (W.contents output.new) (about before.now name.now after.now) }
{
    print_text(output, before)?;
    print_text(output, name)?;
    print_text(output, after)
}

/// Prints what is said about a part of an atom.
fn print_about_part<W: Write>(
    before: &[u8],
    atom: &[u8],
    part: &[u8],
    after: &[u8],
    output: &mut W,
) -> Result<(), WriteFault>
    ensures { Prints result (W.contents output.old) (W.contents output.new) (about_part before.now atom.now part.now after.now) }
{
    print_text(output, before)?;
    print_text(output, atom)?;
    print_text(output, b".")?;
    print_text(output, part)?;
    print_text(output, after)
}
