//! The transitions of an atom that is drawn as a machine.
ghost use Rattle.std.specs.Prelude.{◌≡◌};
ghost use Rattle.std.specs.List.{position};
ghost use Rattle.text_io.specs.Numbered.{numbered};
ghost use Rattle.text_io.specs.Printing.{Prints};
ghost use Rattle.part_text.specs.Seen.{definition_of, transition_of};
ghost use Rattle.plant_drawing.specs.Atom.{arrow_head, arrow_lines, first_loop, further_label, is_first_loop, is_loop, is_place_alone, lines_between, loop_arrow, loop_lines, machine_arrow, machine_lines, machine_node, one_place};

use crate::transition::{print_arrows, print_box, print_edge, print_label};
use petri_atom::{Atom, Transition};
use std::io::Write;
use text_io::{WriteFault, print_text};

/// Prints a transition of a machine: an arrow from its one source to its one target, and a box with its arrows where it has several of either.
pub(crate) fn print_machine_transition<W: Write>(
    number: u64,
    atom: &Atom,
    transition: u64,
    made: &Transition,
    output: &mut W,
) -> Result<(), WriteFault>
    ensures { Prints result (W.contents output.old) (W.contents output.new) (machine_lines number (definition_of atom.now) transition (transition_of made.now)) }
{
    let source = one_place(made.sources());
    let target = one_place(made.targets());
    print_between(number, atom, transition, made, source, target, output)
}

/// The place of a list that has no other.
fn one_place(places: &[u8]) -> Option<u8>
    ensures { result ≡ one_place places.now }
{
    if places.len() == 1 {
        places.first().copied()
    } else {
        None
    }
}

/// Prints a transition of a machine by its one source and its one target.
fn print_between<W: Write>(
    number: u64,
    atom: &Atom,
    transition: u64,
    made: &Transition,
    source: Option<u8>,
    target: Option<u8>,
    output: &mut W,
) -> Result<(), WriteFault>
    ensures { Prints result (W.contents output.old) (W.contents output.new) (lines_between number (definition_of atom.now) transition (transition_of made.now) source target) }
{
    match (source, target) {
        (Some(source), Some(target)) => {
            print_arrow(number, atom, transition, made, source, target, output)
        }
        (None, _) | (Some(_), None) => print_node(number, atom, transition, made, output),
    }
}

/// Prints a transition of a machine as a box, and the arrows from its sources and to its targets.
fn print_node<W: Write>(
    number: u64,
    atom: &Atom,
    transition: u64,
    made: &Transition,
    output: &mut W,
) -> Result<(), WriteFault>
    ensures { Prints result (W.contents output.old) (W.contents output.new) (machine_node number (definition_of atom.now) transition (transition_of made.now)) }
{
    print_box(number, atom, transition, made, output)?;
    print_arrows(number, transition, made, output)
}

/// Prints a transition of a machine from one place to one place.
fn print_arrow<W: Write>(
    number: u64,
    atom: &Atom,
    transition: u64,
    made: &Transition,
    source: u8,
    target: u8,
    output: &mut W,
) -> Result<(), WriteFault>
    ensures { Prints result (W.contents output.old) (W.contents output.new) (arrow_lines number (definition_of atom.now) transition (transition_of made.now) source target) }
{
    if source == target {
        print_loop(number, atom, transition, made, source, output)
    } else {
        print_single(number, atom, transition, made, source, target, output)
    }
}

/// Prints a transition as an arrow between two places, with its label.
fn print_single<W: Write>(
    number: u64,
    atom: &Atom,
    transition: u64,
    made: &Transition,
    source: u8,
    target: u8,
    output: &mut W,
) -> Result<(), WriteFault>
    ensures { Prints result (W.contents output.old) (W.contents output.new) (machine_arrow number (definition_of atom.now) transition (transition_of made.now) source target) }
{
    print_arrow_head(number, source, target, output)?;
    print_label(atom, transition, made, output)?;
    print_text(output, b"\"];\n")
}

/// Prints the loop of a place, where this transition is the first that is one. The others have no arrow of their own: `dot` would put their labels over one
/// another.
fn print_loop<W: Write>(
    number: u64,
    atom: &Atom,
    transition: u64,
    made: &Transition,
    place: u8,
    output: &mut W,
) -> Result<(), WriteFault>
    ensures { Prints result (W.contents output.old) (W.contents output.new) (loop_lines number (definition_of atom.now) transition (transition_of made.now) place) }
{
    if is_first_loop(atom, place, transition) {
        print_loop_arrow(number, atom, transition, made, place, output)
    } else {
        Ok(())
    }
}

/// Prints an arrow from a place to itself with the labels of all its loops, of which this transition is the first.
fn print_loop_arrow<W: Write>(
    number: u64,
    atom: &Atom,
    transition: u64,
    made: &Transition,
    place: u8,
    output: &mut W,
) -> Result<(), WriteFault>
    ensures { Prints result (W.contents output.old) (W.contents output.new) (loop_arrow number (definition_of atom.now) transition (transition_of made.now) place) }
{
    print_arrow_head(number, place, place, output)?;
    print_label(atom, transition, made, output)?;
    print_further_labels(atom, place, transition, output)?;
    print_text(output, b"\"];\n")
}

/// Prints the begin of an arrow between two places, up to its label.
fn print_arrow_head<W: Write>(
    number: u64,
    source: u8,
    target: u8,
    output: &mut W,
) -> Result<(), WriteFault>
    ensures { Prints result (W.contents output.old) (W.contents output.new) (arrow_head number source target) }
{
    print_edge(
        number,
        (b"place", u64::from(source)),
        (b"place", u64::from(target)),
        b" [label=\"",
        output,
    )
}

/// Prints the labels of the loops of a place after the first one.
fn print_further_labels<W: Write>(
    atom: &Atom,
    place: u8,
    first: u64,
    output: &mut W,
) -> Result<(), WriteFault>
    ensures { Prints result (W.contents output.old) (W.contents output.new) (numbered (further_label (definition_of atom.now) place first) 0 (definition_of atom.now).transitions) }
{
    for (transition, made) in atom.transitions().iter().enumerate() {
        print_further_label(atom, place, first, transition as u64, made, output)?;
    }
    Ok(())
}

/// Prints the label of a transition on further lines, if it is a loop of the place after the first one.
fn print_further_label<W: Write>(
    atom: &Atom,
    place: u8,
    first: u64,
    transition: u64,
    made: &Transition,
    output: &mut W,
) -> Result<(), WriteFault>
    ensures { Prints result (W.contents output.old) (W.contents output.new) (further_label (definition_of atom.now) place first transition (transition_of made.now)) }
{
    if first < transition && is_loop(place, made) {
        print_text(output, b"\\n")?;
        print_label(atom, transition, made, output)
    } else {
        Ok(())
    }
}

/// Whether the transition with this number is the first of the atom that is a loop of the place.
fn is_first_loop(atom: &Atom, place: u8, transition: u64) -> bool
    ensures { result ≡ is_first_loop (definition_of atom.now) place transition }
{
    match first_loop(atom, place) {
        Some(first) => first as u64 == transition,
        None => false,
    }
}

/// The number of the first transition of the atom that is a loop of the place.
fn first_loop(atom: &Atom, place: u8) -> Option<usize>
    ensures { result ≡ first_loop (definition_of atom.now) place }
{
    loop_among(atom.transitions(), place)
}

/// The number of the first of these transitions that is a loop of the place.
fn loop_among(transitions: &[Transition], place: u8) -> Option<usize>
    ensures { result ≡ position (λ made. is_loop place (transition_of made)) transitions.now }
{
    transitions.iter().position(|made| is_loop(place, made))
}

/// Whether a transition leads from a place to it alone, and from no other.
fn is_loop(place: u8, made: &Transition) -> bool
    ensures { result ≡ is_loop place (transition_of made.now) }
{
    is_place_alone(place, made.sources()) && is_place_alone(place, made.targets())
}

/// Whether a list has the place, and no other.
fn is_place_alone(place: u8, places: &[u8]) -> bool
    ensures { result ≡ is_place_alone place places.now }
{
    match one_place(places) {
        Some(one) => one == place,
        None => false,
    }
}
