//! The transitions of an atom, with their edges.
ghost use Rattle.std.specs.Prelude.{◌≡◌, flat_map, map};
ghost use Rattle.text_io.specs.Printing.{Prints};
ghost use Rattle.part_text.specs.Seen.{definition_of, transition_of, tree_of, update_of};
ghost use Rattle.plant_drawing.specs.Atom.{edge, firing_edge, guard_text, place_edge, place_edges, transition_edges, transition_label, transition_line, transition_lines, update_text};

use crate::node::print_part;
use crate::wrapping::{columns_past, print_assigned, print_expression_words};
use part_text::{Variables, is_one};
use petri_atom::{Atom, Expression, Transition, Update};
use std::io::Write;
use text_io::{WriteFault, print_number, print_text};

/// Prints a transition as a box, the dotted line from its port, and the arrows from its sources and to its targets.
pub(crate) fn print_transition<W: Write>(
    number: u64,
    atom: &Atom,
    transition: u64,
    made: &Transition,
    output: &mut W,
) -> Result<(), WriteFault>
    ensures { Prints result (W.contents output.old) (W.contents output.new) (transition_lines number (definition_of atom.now) transition (transition_of made.now)) }
{
    print_box(number, atom, transition, made, output)?;
    print_edges(number, transition, made, output)
}

/// Prints the dotted line from the port of a transition, and the arrows from its sources and to its targets.
fn print_edges<W: Write>(
    atom: u64,
    transition: u64,
    made: &Transition,
    output: &mut W,
) -> Result<(), WriteFault>
    ensures { Prints result (W.contents output.old) (W.contents output.new) (transition_edges atom transition (transition_of made.now)) }
{
    print_firing(atom, u64::from(made.port()), transition, output)?;
    print_arrows(atom, transition, made, output)
}

/// Prints the arrows from the sources of a transition and to its targets.
pub(crate) fn print_arrows<W: Write>(
    atom: u64,
    transition: u64,
    made: &Transition,
    output: &mut W,
) -> Result<(), WriteFault>
    ensures { Prints result (W.contents output.old) (W.contents output.new) (place_edges atom transition (transition_of made.now)) }
{
    print_place_edges(true, atom, transition, made.sources(), output)?;
    print_place_edges(false, atom, transition, made.targets(), output)
}

/// Prints the box of a transition.
pub(crate) fn print_box<W: Write>(
    number: u64,
    atom: &Atom,
    transition: u64,
    made: &Transition,
    output: &mut W,
) -> Result<(), WriteFault>
    ensures { Prints result (W.contents output.old) (W.contents output.new) (transition_line number (definition_of atom.now) transition (transition_of made.now)) }
{
    print_text(output, b"    ")?;
    print_part(b"transition", number, transition, output)?;
    print_text(output, b" [shape=box, label=\"")?;
    print_label(atom, transition, made, output)?;
    print_text(output, b"\"];\n")
}

/// Prints the name of a transition's port and its own number, its guard and its updates.
pub(crate) fn print_label<W: Write>(
    atom: &Atom,
    transition: u64,
    made: &Transition,
    output: &mut W,
) -> Result<(), WriteFault>
    ensures { Prints result (W.contents output.old) (W.contents output.new) (transition_label (definition_of atom.now) transition (transition_of made.now)) }
{
    print_text(output, atom.port_name(made.port()))?;
    print_text(output, b"/")?;
    print_number(output, transition)?;
    print_guard(atom, made.guard(), output)?;
    print_updates(atom, made.updates(), output)
}

/// Prints a guard on a line of its own; nothing of one that is 1.
fn print_guard<W: Write>(
    atom: &Atom,
    guard: &Expression<u8>,
    output: &mut W,
) -> Result<(), WriteFault>
    ensures { Prints result (W.contents output.old) (W.contents output.new) (guard_text (definition_of atom.now) (tree_of guard.now)) }
{
    if is_one(guard) {
        return Ok(());
    }
    print_text(output, b"\\nwhen")?;
    print_expression_words(columns_past(4), guard, &Variables { atom }, output)?;
    Ok(())
}

/// Prints updates, each on a line of its own.
fn print_updates<W: Write>(
    atom: &Atom,
    updates: &[Update],
    output: &mut W,
) -> Result<(), WriteFault>
    ensures { Prints result (W.contents output.old) (W.contents output.new) (flat_map (update_text (definition_of atom.now)) (map update_of updates.now)) }
{
    for update in updates {
        print_update(atom, update, output)?;
    }
    Ok(())
}

/// Prints an update on a line of its own.
fn print_update<W: Write>(atom: &Atom, update: &Update, output: &mut W) -> Result<(), WriteFault>
    ensures { Prints result (W.contents output.old) (W.contents output.new) (update_text (definition_of atom.now) (update_of update.now)) }
{
    print_text(output, b"\\n")?;
    let name = atom.variable_name(update.variable);
    print_text(output, name)?;
    let left = columns_past(name.len());
    print_assigned(left, &update.value, &Variables { atom }, output)?;
    Ok(())
}

/// Prints the dotted line from a port to one of its transitions.
fn print_firing<W: Write>(
    atom: u64,
    port: u64,
    transition: u64,
    output: &mut W,
) -> Result<(), WriteFault>
    ensures { Prints result (W.contents output.old) (W.contents output.new) (firing_edge atom port transition) }
{
    let end = b" [style=dotted, arrowhead=none];\n";
    print_edge(
        atom,
        (b"port", port),
        (b"transition", transition),
        end,
        output,
    )
}

/// Prints the arrows between a transition and its sources, or its targets.
fn print_place_edges<W: Write>(
    is_source: bool,
    atom: u64,
    transition: u64,
    places: &[u8],
    output: &mut W,
) -> Result<(), WriteFault>
    ensures { Prints result (W.contents output.old) (W.contents output.new) (flat_map (place_edge is_source atom transition) places.now) }
{
    for place in places {
        print_place_edge(is_source, atom, transition, *place, output)?;
    }
    Ok(())
}

/// Prints the arrow from a source to its transition, or from a transition to its target.
fn print_place_edge<W: Write>(
    is_source: bool,
    atom: u64,
    transition: u64,
    place: u8,
    output: &mut W,
) -> Result<(), WriteFault>
    ensures { Prints result (W.contents output.old) (W.contents output.new) (place_edge is_source atom transition place) }
{
    let place = u64::from(place);
    if is_source {
        print_edge(
            atom,
            (b"place", place),
            (b"transition", transition),
            b";\n",
            output,
        )
    } else {
        print_edge(
            atom,
            (b"transition", transition),
            (b"place", place),
            b";\n",
            output,
        )
    }
}

/// Prints an edge between two parts of an atom, each by what it is and its number, and how the edge ends.
pub(crate) fn print_edge<W: Write>(
    atom: u64,
    from: (&[u8], u64),
    to: (&[u8], u64),
    end: &[u8],
    output: &mut W,
) -> Result<(), WriteFault>
    ensures { Prints result (W.contents output.old) (W.contents output.new) (edge atom from.entry.0.now from.entry.1 to.entry.0.now to.entry.1 end.now) }
{
    print_text(output, b"    ")?;
    print_part(from.0, atom, from.1, output)?;
    print_text(output, b" -> ")?;
    print_part(to.0, atom, to.1, output)?;
    print_text(output, end)
}
