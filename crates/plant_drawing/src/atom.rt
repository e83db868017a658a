//! The cluster of an atom in a state, with all its parts or as a machine.
ghost use Rattle.std.specs.Prelude.{◌≡◌, ◌++◌, codes, flat_map};
ghost use Rattle.petri_atom.specs.Definition.{variable_name};
ghost use Rattle.petri_atom.specs.Local.{value_in};
ghost use Rattle.text_io.specs.Numbered.{numbered};
ghost use Rattle.text_io.specs.Printing.{Prints};
ghost use Rattle.part_text.specs.Seen.{definition_of, port_of, transition_of};
ghost use Rattle.plant_drawing.specs.Atom.{atom_label, atom_lines, cluster_head, cluster_parts, fill_of, moving_lines, named, place_line, port_line, port_lines, variable_text};

use crate::drawn::has_number;
use crate::interior::Interior;
use crate::machine::print_machine_transition;
use crate::node::print_part;
use crate::transition::print_transition;
use petri_atom::{Atom, AtomState, Name, Place, Port, Transition, Variable};
use std::io::Write;
use text_io::{WriteFault, print_number, print_signed, print_text};

/// Prints an atom in a state as a cluster with its places, its ports and its transitions.
pub(crate) fn print_atom<W: Write>(
    interior: Interior,
    number: u64,
    atom: &Atom,
    state: &AtomState,
    output: &mut W,
) -> Result<(), WriteFault>
    ensures { Prints result (W.contents output.old) (W.contents output.new) (atom_lines interior number (definition_of atom.now) state.now) }
{
    print_head(number, atom, state, output)?;
    print_parts(interior, number, atom, state, output)?;
    print_text(output, b"  }\n")
}

/// Prints the begin of the cluster of an atom, with its label.
fn print_head<W: Write>(
    number: u64,
    atom: &Atom,
    state: &AtomState,
    output: &mut W,
) -> Result<(), WriteFault>
    ensures { Prints result (W.contents output.old) (W.contents output.new) (cluster_head number (definition_of atom.now) state.now) }
{
    print_text(output, b"  subgraph cluster_")?;
    print_number(output, number)?;
    print_text(output, b" {\n    label=\"")?;
    print_label(atom, state, output)?;
    print_text(output, b"\";\n")
}

/// Prints the name of an atom, and its variables with their values.
fn print_label<W: Write>(atom: &Atom, state: &AtomState, output: &mut W) -> Result<(), WriteFault>
    ensures { Prints result (W.contents output.old) (W.contents output.new) (atom_label (definition_of atom.now) state.now) }
{
    print_text(output, atom.name().as_bytes())?;
    print_variables(state.values(), atom.variables(), output)
}

/// Prints the places, the ports and the transitions of an atom.
fn print_parts<W: Write>(
    interior: Interior,
    number: u64,
    atom: &Atom,
    state: &AtomState,
    output: &mut W,
) -> Result<(), WriteFault>
    ensures { Prints result (W.contents output.old) (W.contents output.new) (cluster_parts interior number (definition_of atom.now) state.now) }
{
    print_places(state.places(), number, atom.places(), output)?;
    print_ports_in(interior, number, atom, output)?;
    print_transitions(interior, number, atom, output)
}

/// Prints variables with their values, each on a line of its own.
fn print_variables<W: Write>(
    values: &[i64],
    variables: &[Variable],
    output: &mut W,
) -> Result<(), WriteFault>
    ensures { Prints result (W.contents output.old) (W.contents output.new) (numbered (variable_text values.now) 0 variables.now) }
{
    for (number, variable) in variables.iter().enumerate() {
        print_variable(values, number, variable, output)?;
    }
    Ok(())
}

/// Prints the variable with this number and its value on a line of its own.
fn print_variable<W: Write>(
    values: &[i64],
    number: usize,
    variable: &Variable,
    output: &mut W,
) -> Result<(), WriteFault>
    ensures { Prints result (W.contents output.old) (W.contents output.new) (variable_text values.now number variable.now) }
{
    print_text(output, b"\\n")?;
    print_text(output, variable.name.as_bytes())?;
    print_text(output, b" = ")?;
    print_signed(output, value_at(values, number))
}

/// The value of the variable with this number; 0 if there is none.
fn value_at(values: &[i64], variable: usize) -> i64
    ensures { result ≡ value_in values.now variable }
{
    values.get(variable).copied().unwrap_or(0)
}

/// Prints the places of an atom.
fn print_places<W: Write>(
    marking: u64,
    atom: u64,
    places: &[Place],
    output: &mut W,
) -> Result<(), WriteFault>
    ensures { Prints result (W.contents output.old) (W.contents output.new) (numbered (place_line marking atom) 0 places.now) }
{
    for (number, place) in places.iter().enumerate() {
        print_place(marking, atom, number, place, output)?;
    }
    Ok(())
}

/// Prints a place as a circle, filled if it is marked.
fn print_place<W: Write>(
    marking: u64,
    atom: u64,
    number: usize,
    place: &Place,
    output: &mut W,
) -> Result<(), WriteFault>
    ensures { Prints result (W.contents output.old) (W.contents output.new) (place_line marking atom number place.now) }
{
    print_text(output, b"    ")?;
    print_part(b"place", atom, number as u64, output)?;
    print_text(output, b" [shape=circle, margin=0.03, ")?;
    print_fill(has_number(marking, number), output)?;
    print_named(&place.name, output)
}

/// Prints the end of a node whose label is a name.
pub(crate) fn print_named<W: Write>(name: &Name, output: &mut W) -> Result<(), WriteFault>
    ensures { Prints result (W.contents output.old) (W.contents output.new) (named name.now) }
{
    print_text(output, b"label=\"")?;
    print_text(output, name.as_bytes())?;
    print_text(output, b"\"];\n")
}

/// Prints how a place is filled that is marked; nothing for one that is not.
fn print_fill<W: Write>(marked: bool, output: &mut W) -> Result<(), WriteFault>
    ensures { Prints result (W.contents output.old) (W.contents output.new) (fill_of marked) }
{
    if marked {
        print_text(output, b"style=filled, ")
    } else {
        Ok(())
    }
}

/// Prints the ports of an atom; none of a machine.
fn print_ports_in<W: Write>(
    interior: Interior,
    number: u64,
    atom: &Atom,
    output: &mut W,
) -> Result<(), WriteFault>
    ensures { Prints result (W.contents output.old) (W.contents output.new) (port_lines interior number (definition_of atom.now)) }
{
    match interior {
        Interior::Parts => print_ports(number, atom, output),
        Interior::Machine => Ok(()),
    }
}

/// Prints the ports of an atom, each with the variables that it exports.
fn print_ports<W: Write>(number: u64, atom: &Atom, output: &mut W) -> Result<(), WriteFault>
    ensures { Prints result (W.contents output.old) (W.contents output.new) (numbered (port_line number (definition_of atom.now)) 0 (definition_of atom.now).ports) }
{
    for (port, made) in atom.ports().iter().enumerate() {
        print_port(number, atom, port as u64, made, output)?;
    }
    Ok(())
}

/// Prints a port with the variables that it exports.
fn print_port<W: Write>(
    number: u64,
    atom: &Atom,
    port: u64,
    made: &Port,
    output: &mut W,
) -> Result<(), WriteFault>
    ensures { Prints result (W.contents output.old) (W.contents output.new) (port_line number (definition_of atom.now) port (port_of made.now)) }
{
    print_text(output, b"    ")?;
    print_part(b"port", number, port, output)?;
    print_text(output, b" [shape=ellipse, label=\"")?;
    print_text(output, made.name.as_bytes())?;
    print_exports(atom, &made.exports, output)?;
    print_text(output, b"\"];\n")
}

/// Prints the names of the variables with these numbers, each with a space before it.
fn print_exports<W: Write>(atom: &Atom, exports: &[u8], output: &mut W) -> Result<(), WriteFault>
    ensures { Prints result (W.contents output.old) (W.contents output.new) (flat_map (λ v. codes " " ++ variable_name (definition_of atom.now) v) exports.now) }
{
    for variable in exports {
        print_text(output, b" ")?;
        print_text(output, atom.variable_name(*variable))?;
    }
    Ok(())
}

/// Prints the transitions of an atom.
fn print_transitions<W: Write>(
    interior: Interior,
    number: u64,
    atom: &Atom,
    output: &mut W,
) -> Result<(), WriteFault>
    ensures { Prints result (W.contents output.old) (W.contents output.new) (numbered (moving_lines interior number (definition_of atom.now)) 0 (definition_of atom.now).transitions) }
{
    for (transition, made) in atom.transitions().iter().enumerate() {
        print_moving(interior, number, atom, transition as u64, made, output)?;
    }
    Ok(())
}

/// Prints a transition as a node, or as that of a machine.
fn print_moving<W: Write>(
    interior: Interior,
    number: u64,
    atom: &Atom,
    transition: u64,
    made: &Transition,
    output: &mut W,
) -> Result<(), WriteFault>
    ensures { Prints result (W.contents output.old) (W.contents output.new) (moving_lines interior number (definition_of atom.now) transition (transition_of made.now)) }
{
    match interior {
        Interior::Parts => print_transition(number, atom, transition, made, output),
        Interior::Machine => print_machine_transition(number, atom, transition, made, output),
    }
}
