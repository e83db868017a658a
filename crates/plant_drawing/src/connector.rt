//! The node of a connector, and its edges.
ghost use Rattle.std.specs.Prelude.{◌++◌, flat_map, map};
ghost use Rattle.connector_tree.specs.Tree.{leaves};
ghost use Rattle.text_io.specs.Printing.{Prints};
ghost use Rattle.step_core.specs.Running.{plant_in, states_in};
ghost use Rattle.part_text.specs.Seen.{definition_of, wire_of};
ghost use Rattle.plant_drawing.specs.Drawn.{is_coloured};
ghost use Rattle.plant_drawing.specs.Connector.{arrow_to, colour_of, connector_label, connector_line, connector_lines, connector_shape, drawn_connector, guard_line, transfer_line, tree_text};

use crate::choice::is_coloured;
use crate::clauses::{print_guards, print_transfers};
use crate::drawn::is_drawn;
use crate::edges::{LeafEdges, print_edges, print_end, print_from};
use crate::filling::Filling;
use crate::node::{print_connector, print_part};
use crate::tree::print_words;
use crate::wrapping::COLUMNS;
use connector_tree::Port;
use part_text::Exports;
use petri_atom::Atom;
use plant_model::Wire;
use std::io::Write;
use step_core::Stepper;
use text_io::{WriteFault, print_text};

/// Prints a connector if it is drawn; nothing of another.
pub(crate) fn print_drawn_wire<W: Write>(
    run: &Stepper<'_>,
    drawn: u64,
    filling: Filling,
    number: usize,
    wire: &Wire,
    output: &mut W,
) -> Result<(), WriteFault>
    ensures { Prints result (W.contents output.old) (W.contents output.new)
        (drawn_connector (plant_in run.now).atoms drawn (is_coloured filling (plant_in run.now) (states_in run.now)) number (wire_of wire.now)) }
{
    if !is_drawn(drawn, wire) {
        return Ok(());
    }
    let coloured = is_coloured(filling, run, number);
    let atoms = run.system().atoms();
    print_wire(atoms, drawn, coloured, number as u64, wire, output)
}

/// Prints a connector as a node with its name and its tree, and an edge to each of its ports whose atom is drawn.
fn print_wire<W: Write>(
    atoms: &[Atom],
    drawn: u64,
    coloured: bool,
    number: u64,
    wire: &Wire,
    output: &mut W,
) -> Result<(), WriteFault>
    ensures { Prints result (W.contents output.old) (W.contents output.new) (connector_lines (map definition_of atoms.now) drawn coloured number (wire_of wire.now)) }
{
    print_connector_line(atoms, coloured, number, wire, output)?;
    let edges = PortEdges { connector: number };
    print_edges(&edges, drawn, &wire.connector.root, output)
}

/// Prints the node of a connector.
fn print_connector_line<W: Write>(
    atoms: &[Atom],
    coloured: bool,
    number: u64,
    wire: &Wire,
    output: &mut W,
) -> Result<(), WriteFault>
    ensures { Prints result (W.contents output.old) (W.contents output.new) (connector_line (map definition_of atoms.now) coloured number (wire_of wire.now)) }
{
    print_text(output, b"  ")?;
    print_connector(number, output)?;
    print_shape(coloured, output)?;
    print_label(atoms, wire, output)?;
    print_text(output, b"\"];\n")
}

/// Prints the shape of a connector's node and its colour, and the begin of its label.
fn print_shape<W: Write>(coloured: bool, output: &mut W) -> Result<(), WriteFault>
    ensures { Prints result (W.contents output.old) (W.contents output.new) (connector_shape coloured) }
{
    print_text(output, b" [shape=box, style=\"rounded,filled\", fillcolor=")?;
    print_colour(coloured, output)?;
    print_text(output, b", label=\"")
}

/// Prints the colour of a connector that is filled as one that has a choice, or of another.
fn print_colour<W: Write>(coloured: bool, output: &mut W) -> Result<(), WriteFault>
    ensures { Prints result (W.contents output.old) (W.contents output.new) (colour_of coloured) }
{
    if coloured {
        print_text(output, b"palegreen")
    } else {
        print_text(output, b"lightyellow")
    }
}

/// Prints the name of a connector, and on lines of their own its tree, its guard clauses and its transfers.
fn print_label<W: Write>(atoms: &[Atom], wire: &Wire, output: &mut W) -> Result<(), WriteFault>
    ensures { Prints result (W.contents output.old) (W.contents output.new) (connector_label (map definition_of atoms.now) (wire_of wire.now)) }
{
    print_text(output, wire.name.as_bytes())?;
    print_text(output, b"\\n")?;
    print_tree(atoms, wire, output)?;
    print_clauses(atoms, wire, output)
}

/// Prints the tree of a connector: its words, with a space before each, and one after the last.
fn print_tree<W: Write>(atoms: &[Atom], wire: &Wire, output: &mut W) -> Result<(), WriteFault>
    ensures { Prints result (W.contents output.old) (W.contents output.new) (tree_text (map definition_of atoms.now) (wire_of wire.now)) }
{
    print_words(COLUMNS, atoms, &wire.connector.root, output)?;
    print_text(output, b" ")
}

/// Prints the guard clauses of a connector, and then its transfers.
fn print_clauses<W: Write>(atoms: &[Atom], wire: &Wire, output: &mut W) -> Result<(), WriteFault>
    ensures { Prints result (W.contents output.old) (W.contents output.new)
        (flat_map (guard_line (map definition_of atoms.now) (leaves (wire_of wire.now).connector)) (wire_of wire.now).guards ++ flat_map (transfer_line (map definition_of atoms.now) (leaves (wire_of wire.now).connector)) (wire_of wire.now).transfers) }
{
    let exports = Exports {
        atoms,
        connector: &wire.connector,
    };
    print_guards(&exports, &wire.guards, output)?;
    print_transfers(&exports, &wire.transfers, output)
}

/// The edges of a connector to the ports of its leaves, which end in a triangle at a trigger, and in a dot at a synchron.
#[derive(Clone, Copy)]
struct PortEdges {
    connector: u64,
}

impl LeafEdges for PortEdges {
    ghost use Rattle.plant_drawing.specs.Connector.{port_edge};

    ghost edge_to = { λ edges port trigger. port_edge edges.connector port trigger };

    fn print_edge<W: Write>(
        &self,
        port: Port,
        trigger: bool,
        output: &mut W,
    ) -> Result<(), WriteFault> {
        print_arrow_to(self.connector, port, output)?;
        print_end(trigger, output)
    }
}

/// Prints the begin of the edge of a connector to a port.
fn print_arrow_to<W: Write>(number: u64, port: Port, output: &mut W) -> Result<(), WriteFault>
    ensures { Prints result (W.contents output.old) (W.contents output.new) (arrow_to number port.atom port.port) }
{
    print_arrow(number, u64::from(port.atom), u64::from(port.port), output)
}

/// Prints the begin of the edge of a connector to the port of an atom, by their numbers.
fn print_arrow<W: Write>(
    number: u64,
    atom: u64,
    port: u64,
    output: &mut W,
) -> Result<(), WriteFault>
    ensures { Prints result (W.contents output.old) (W.contents output.new) (arrow_to number atom port) }
{
    print_from(number, output)?;
    print_part(b"port", atom, port, output)
}
