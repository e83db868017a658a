//! The drawing of a plant in a state.
ghost use Rattle.std.specs.Prelude.{◌≡◌, slice_get, Some};
ghost use Rattle.text_io.specs.Numbered.{numbered};
ghost use Rattle.text_io.specs.Printing.{Prints};
ghost use Rattle.step_core.specs.Running.{plant_in, states_in};
ghost use Rattle.part_text.specs.Seen.{definition_of};
ghost use Rattle.plant_drawing.specs.Connector.{drawn_connector};
ghost use Rattle.plant_drawing.specs.Drawn.{is_coloured};
ghost use Rattle.plant_drawing.specs.Drawing.{drawing_of, drawn_atom, drawn_atoms, machines_of, parts_of, style};

use crate::atom::print_atom;
use crate::connector::print_drawn_wire;
use crate::drawn::has_number;
use crate::filling::Filling;
use crate::interior::Interior;
use crate::rule::{RuleLabel, print_rules};
use petri_atom::Atom;
use std::io::Write;
use step_core::Stepper;
use text_io::{WriteFault, print_text};

/// Writes the drawing of a plant in its present state: the atoms of the set `drawn`, bit k for atom k, then the connectors with a leaf
/// of one of these, and then the priority rules between such connectors.
pub fn draw_to<W: Write>(
    run: &Stepper<'_>,
    drawn: u64,
    filling: Filling,
    output: &mut W,
) -> Result<(), WriteFault>
    ensures { Prints result (W.contents output.old) (W.contents output.new) (drawing_of (plant_in run.now) (states_in run.now) drawn filling) }
{
    print_text(output, b"digraph plant {\n")?;
    print_style(output)?;
    print_parts(run, drawn, filling, output)?;
    print_text(output, b"}\n")
}

/// Writes the atoms of the set `drawn`, bit k for atom k, as state machines in the present state of a plant: without ports, connectors and rules.
pub fn machines_to<W: Write>(
    run: &Stepper<'_>,
    drawn: u64,
    output: &mut W,
) -> Result<(), WriteFault>
    ensures { Prints result (W.contents output.old) (W.contents output.new) (machines_of (plant_in run.now) (states_in run.now) drawn) }
{
    print_text(output, b"digraph plant {\n")?;
    print_style(output)?;
    print_atoms(Interior::Machine, run, drawn, output)?;
    print_text(output, b"}\n")
}

/// Prints how the graph is laid out: in one font, with some room between the nodes, and the label of an atom below its parts.
pub(crate) fn print_style<W: Write>(output: &mut W) -> Result<(), WriteFault>
    ensures { Prints result (W.contents output.old) (W.contents output.new) style }
{
    print_text(
        output,
        b"  fontname=\"Helvetica\";
  labelloc=b;
  nodesep=0.4;
  ranksep=0.6;
  node [fontname=\"Helvetica\"];
  edge [fontname=\"Helvetica\", fontsize=11];
",
    )
}

/// Prints the atoms, the connectors and the priority rules that are drawn.
fn print_parts<W: Write>(
    run: &Stepper<'_>,
    drawn: u64,
    filling: Filling,
    output: &mut W,
) -> Result<(), WriteFault>
    ensures { Prints result (W.contents output.old) (W.contents output.new) (parts_of (plant_in run.now) (states_in run.now) drawn filling) }
{
    print_atoms(Interior::Parts, run, drawn, output)?;
    print_wires(run, drawn, filling, output)?;
    let system = run.system();
    print_rules(RuleLabel::Written, system, system.rules(), drawn, output)
}

/// Prints the atoms that are drawn, in the order of their numbers.
fn print_atoms<W: Write>(
    interior: Interior,
    run: &Stepper<'_>,
    drawn: u64,
    output: &mut W,
) -> Result<(), WriteFault>
    ensures { Prints result (W.contents output.old) (W.contents output.new) (drawn_atoms interior (plant_in run.now) (states_in run.now) drawn) }
{
    let system = run.system();
    for (number, atom) in system.atoms().iter().enumerate() {
        print_drawn_atom(interior, run, drawn, number, atom, output)?;
    }
    Ok(())
}

/// Prints the atom in its present state if it is drawn; nothing of another.
fn print_drawn_atom<W: Write>(
    interior: Interior,
    run: &Stepper<'_>,
    drawn: u64,
    number: usize,
    atom: &Atom,
    output: &mut W,
) -> Result<(), WriteFault>
    requires { slice_get (plant_in run.now).atoms number ≡ Some (definition_of atom.now) }
    ensures { Prints result (W.contents output.old) (W.contents output.new) (drawn_atom interior drawn (states_in run.now) number (definition_of atom.now)) }
{
    if !has_number(drawn, number) {
        return Ok(());
    }
    run.system().keeps_its_rules();
    let state = run.states().state(number as u16);
    print_atom(interior, number as u64, atom, state, output)
}

/// Prints the connectors that are drawn, in the order of their numbers.
fn print_wires<W: Write>(
    run: &Stepper<'_>,
    drawn: u64,
    filling: Filling,
    output: &mut W,
) -> Result<(), WriteFault>
    ensures { Prints result (W.contents output.old) (W.contents output.new)
        (numbered (drawn_connector (plant_in run.now).atoms drawn (is_coloured filling (plant_in run.now) (states_in run.now))) 0 (plant_in run.now).wires) }
{
    let system = run.system();
    for (number, wire) in system.wires().iter().enumerate() {
        print_drawn_wire(run, drawn, filling, number, wire, output)?;
    }
    Ok(())
}
