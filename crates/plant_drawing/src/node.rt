//! The names of the drawing's nodes.
ghost use Rattle.text_io.specs.Printing.{Prints};
ghost use Rattle.plant_drawing.specs.Node.{atom_node, connector_node, part_node};

use std::io::Write;
use text_io::{WriteFault, print_number, print_text};

/// Prints the name of a part of an atom: what it is, the atom's number, and its own.
pub(crate) fn print_part<W: Write>(
    kind: &[u8],
    atom: u64,
    number: u64,
    output: &mut W,
) -> Result<(), WriteFault>
    ensures { Prints result (W.contents output.old) (W.contents output.new) (part_node kind.now atom number) }
{
    print_text(output, kind)?;
    print_text(output, b"_")?;
    print_number(output, atom)?;
    print_text(output, b"_")?;
    print_number(output, number)
}

/// Prints the name of the connector with this number.
pub(crate) fn print_connector<W: Write>(number: u64, output: &mut W) -> Result<(), WriteFault>
    ensures { Prints result (W.contents output.old) (W.contents output.new) (connector_node number) }
{
    print_text(output, b"connector_")?;
    print_number(output, number)
}

/// Prints the name of the atom with this number, if it is one node.
pub(crate) fn print_atom_node<W: Write>(number: u64, output: &mut W) -> Result<(), WriteFault>
    ensures { Prints result (W.contents output.old) (W.contents output.new) (atom_node number) }
{
    print_text(output, b"atom_")?;
    print_number(output, number)
}
