//! The outline of a plant: its atoms and its connectors that are drawn, each as one node.
ghost use Rattle.std.specs.Prelude.{map};
ghost use Rattle.text_io.specs.Numbered.{numbered};
ghost use Rattle.text_io.specs.Printing.{Prints};
ghost use Rattle.part_text.specs.Seen.{definition_of, plant_of, wire_of};
ghost use Rattle.plant_drawing.specs.Outline.{arrow_to_atom, atom_box, connector_outline, connector_oval, drawn_box, drawn_outline, outline_of, outline_parts, outline_style};

use crate::atom::print_named;
use crate::drawn::{has_number, is_drawn};
use crate::edges::{LeafEdges, print_edges, print_end, print_from};
use crate::node::{print_atom_node, print_connector};
use crate::plant::print_style;
use crate::rule::{RuleLabel, print_rules};
use connector_tree::Port;
use petri_atom::Atom;
use plant_model::{System, Wire};
use std::io::Write;
use text_io::{WriteFault, print_text};

/// Writes the outline of the atoms of the set `drawn`, bit k for atom k, and of what stands on them: a node for each atom, then one for each
/// connector with a leaf of one of these and an edge to the atom of each such leaf, and then an edge for each priority rule between such
/// connectors.
pub fn outline_to<W: Write>(system: &System, drawn: u64, output: &mut W) -> Result<(), WriteFault>
    ensures { Prints result (W.contents output.old) (W.contents output.new) (outline_of (plant_of system.now) drawn) }
{
    print_text(output, b"digraph plant {\n")?;
    print_outline_style(output)?;
    print_parts(system, drawn, output)?;
    print_text(output, b"}\n")
}

/// Prints how the graph is laid out: as a drawing is, and so that `dot` takes seconds over hundreds of edges.
fn print_outline_style<W: Write>(output: &mut W) -> Result<(), WriteFault>
    ensures { Prints result (W.contents output.old) (W.contents output.new) outline_style }
{
    print_style(output)?;
    print_text(
        output,
        b"  splines=line;
  mclimit=0.1;
  nslimit=1;
  nslimit1=1;
",
    )
}

/// Prints the atoms, the connectors and the priority rules that are drawn.
fn print_parts<W: Write>(system: &System, drawn: u64, output: &mut W) -> Result<(), WriteFault>
    ensures { Prints result (W.contents output.old) (W.contents output.new) (outline_parts (plant_of system.now) drawn) }
{
    print_atoms(drawn, system.atoms(), output)?;
    print_wires(drawn, system.wires(), output)?;
    print_rules(RuleLabel::Absent, system, system.rules(), drawn, output)
}

/// Prints the atoms that are drawn as boxes, in the order of their numbers.
fn print_atoms<W: Write>(drawn: u64, atoms: &[Atom], output: &mut W) -> Result<(), WriteFault>
    ensures { Prints result (W.contents output.old) (W.contents output.new) (numbered (drawn_box drawn) 0 (map definition_of atoms.now)) }
{
    for (number, atom) in atoms.iter().enumerate() {
        print_drawn_box(drawn, number, atom, output)?;
    }
    Ok(())
}

/// Prints an atom as a box if it is drawn; nothing of another.
fn print_drawn_box<W: Write>(
    drawn: u64,
    number: usize,
    atom: &Atom,
    output: &mut W,
) -> Result<(), WriteFault>
    ensures { Prints result (W.contents output.old) (W.contents output.new) (drawn_box drawn number (definition_of atom.now)) }
{
    if has_number(drawn, number) {
        print_box(number as u64, atom, output)
    } else {
        Ok(())
    }
}

/// Prints an atom as a box with its name.
fn print_box<W: Write>(number: u64, atom: &Atom, output: &mut W) -> Result<(), WriteFault>
    ensures { Prints result (W.contents output.old) (W.contents output.new) (atom_box number (definition_of atom.now)) }
{
    print_text(output, b"  ")?;
    print_atom_node(number, output)?;
    print_text(output, b" [shape=box, ")?;
    print_named(atom.name(), output)
}

/// Prints the connectors that are drawn, with their edges, in the order of their numbers.
fn print_wires<W: Write>(drawn: u64, wires: &[Wire], output: &mut W) -> Result<(), WriteFault>
    ensures { Prints result (W.contents output.old) (W.contents output.new) (numbered (drawn_outline drawn) 0 (map wire_of wires.now)) }
{
    for (number, wire) in wires.iter().enumerate() {
        print_drawn_wire(drawn, number as u64, wire, output)?;
    }
    Ok(())
}

/// Prints a connector if it is drawn; nothing of another.
fn print_drawn_wire<W: Write>(
    drawn: u64,
    number: u64,
    wire: &Wire,
    output: &mut W,
) -> Result<(), WriteFault>
    ensures { Prints result (W.contents output.old) (W.contents output.new) (drawn_outline drawn number (wire_of wire.now)) }
{
    if is_drawn(drawn, wire) {
        print_wire(drawn, number, wire, output)
    } else {
        Ok(())
    }
}

/// Prints a connector as a small node, and an edge to the atom of each of its leaves if that is drawn.
fn print_wire<W: Write>(
    drawn: u64,
    number: u64,
    wire: &Wire,
    output: &mut W,
) -> Result<(), WriteFault>
    ensures { Prints result (W.contents output.old) (W.contents output.new) (connector_outline drawn number (wire_of wire.now)) }
{
    print_oval(number, wire, output)?;
    let edges = AtomEdges { connector: number };
    print_edges(&edges, drawn, &wire.connector.root, output)
}

/// Prints a connector as a small node with its name.
fn print_oval<W: Write>(number: u64, wire: &Wire, output: &mut W) -> Result<(), WriteFault>
    ensures { Prints result (W.contents output.old) (W.contents output.new) (connector_oval number (wire_of wire.now)) }
{
    print_text(output, b"  ")?;
    print_connector(number, output)?;
    print_text(
        output,
        b" [shape=ellipse, style=filled, fillcolor=lightyellow, fontsize=10, margin=0.02, height=0.25, ",
    )?;
    print_named(&wire.name, output)
}

/// The edges of a connector to the atoms of its leaves, which end in a triangle at a trigger, and in a dot at a synchron.
#[derive(Clone, Copy)]
struct AtomEdges {
    connector: u64,
}

impl LeafEdges for AtomEdges {
    ghost use Rattle.plant_drawing.specs.Outline.{atom_edge};

    ghost edge_to = { λ edges port trigger. atom_edge edges.connector port trigger };

    fn print_edge<W: Write>(
        &self,
        port: Port,
        trigger: bool,
        output: &mut W,
    ) -> Result<(), WriteFault> {
        print_arrow_to(self.connector, port, output)?;
        print_end(trigger, output)
    }
}

/// Prints the begin of the edge of a connector to the atom of a port.
fn print_arrow_to<W: Write>(number: u64, port: Port, output: &mut W) -> Result<(), WriteFault>
    ensures { Prints result (W.contents output.old) (W.contents output.new) (arrow_to_atom number port.atom) }
{
    print_arrow(number, u64::from(port.atom), output)
}

/// Prints the begin of the edge of a connector to the atom with this number.
fn print_arrow<W: Write>(number: u64, atom: u64, output: &mut W) -> Result<(), WriteFault>
    ensures { Prints result (W.contents output.old) (W.contents output.new) (arrow_to_atom number atom) }
{
    print_from(number, output)?;
    print_atom_node(atom, output)
}
