//! What is said of a port that offers nothing.
ghost use Rattle.std.specs.Prelude.{◌≡◌, ◌++◌, [], true, codes, map, slice_get, IfOk};
ghost use Rattle.std.specs.List.{list_all};
ghost use Rattle.std.specs.Option.{option_map_or};
ghost use Rattle.petri_atom.specs.Definition.{is_small_transition};
ghost use Rattle.plant_model.specs.Plant.{of_atom};
ghost use Rattle.text_io.specs.Printing.{Prints};
ghost use Rattle.part_text.specs.Seen.{definition_of, plant_of, transition_of};
ghost use Rattle.blocked_text.specs.Idle.{hindered_text, hindered_word, hindered_words, hindrance_text, idle_by, idle_text, number_text, port_text, transition_count};
ghost use Rattle.part_text.specs.Rule.{place_name};
ghost use Rattle.blocked_text.specs.Separated.{after_words, separated_after};

use crate::hindrance::{Hindrance, hindrance_of};
use crate::zero::print_zero;
use connector_tree::Port;
use part_text::{Variables, place_name, print_port};
use petri_atom::{Atom, AtomState, Transition};
use plant_model::{PlantState, System};
use std::io::Write;
use text_io::{WriteFault, print_number, print_text};

/// Prints a port by its name, and why it offers nothing.
pub(crate) fn print_idle_port<W: Write>(
    system: &System,
    states: &PlantState,
    port: Port,
    output: &mut W,
) -> Result<(), WriteFault>
    ensures { Prints result (W.contents output.old) (W.contents output.new) (port_text (plant_of system.now).atoms states.now port) }
{
    print_port(system.atoms(), port, output)?;
    print_idle_at(system, states, port, output)
}

/// Prints why a port offers nothing; nothing if its atom is not there.
fn print_idle_at<W: Write>(
    system: &System,
    states: &PlantState,
    port: Port,
    output: &mut W,
) -> Result<(), WriteFault>
    ensures { Prints result (W.contents output.old) (W.contents output.new) (of_atom (plant_of system.now).atoms states.now port.atom (λ a state. idle_text a state port.port) []) }
{
    system.keeps_its_rules();
    match system.atoms().get(usize::from(port.atom)) {
        Some(atom) => print_idle_of(atom, states, port, output),
        None => Ok(()),
    }
}

/// Prints why a port of this atom offers nothing; nothing if the atom has no state.
fn print_idle_of<W: Write>(
    atom: &Atom,
    states: &PlantState,
    port: Port,
    output: &mut W,
) -> Result<(), WriteFault>
    requires { list_all is_small_transition (definition_of atom.now).transitions ≡ true }
    ensures { Prints result (W.contents output.old) (W.contents output.new)
        (option_map_or (λ state. idle_text (definition_of atom.now) state port.port) (slice_get states.now port.atom) []) }
{
    if usize::from(port.atom) < states.len() {
        print_idle(atom, states.state(port.atom), port.port, output)
    } else {
        Ok(())
    }
}

/// Prints why a port of the atom offers nothing in the state: why each of its transitions is not offered, if it has any.
fn print_idle<W: Write>(
    atom: &Atom,
    state: &AtomState,
    port: u16,
    output: &mut W,
) -> Result<(), WriteFault>
    requires { list_all is_small_transition (definition_of atom.now).transitions ≡ true }
    ensures { Prints result (W.contents output.old) (W.contents output.new) (idle_text (definition_of atom.now) state.now port) }
{
    let count = transition_count(atom.transitions(), port);
    print_idle_by(atom, state, port, count, output)
}

/// The same, of a port that has so many transitions.
fn print_idle_by<W: Write>(
    atom: &Atom,
    state: &AtomState,
    port: u16,
    count: usize,
    output: &mut W,
) -> Result<(), WriteFault>
    requires { list_all is_small_transition (definition_of atom.now).transitions ≡ true }
    ensures { Prints result (W.contents output.old) (W.contents output.new) (idle_by (definition_of atom.now) state.now port count) }
{
    if count == 0 {
        return print_text(output, b" has no transition");
    }
    print_text(output, b" offers nothing: ")?;
    print_hindered(atom, state, port, count, output)
}

/// How many of the transitions are of the port.
fn transition_count(transitions: &[Transition], port: u16) -> usize
    ensures { result ≡ transition_count port (map transition_of transitions.now) }
{
    transitions
        .iter()
        .filter(|transition| transition.port() == port)
        .count()
}

/// Prints why each transition of the port is not offered; the port has so many.
fn print_hindered<W: Write>(
    atom: &Atom,
    state: &AtomState,
    port: u16,
    count: usize,
    output: &mut W,
) -> Result<(), WriteFault>
    requires { list_all is_small_transition (definition_of atom.now).transitions ≡ true }
    ensures { Prints result (W.contents output.old) (W.contents output.new) (separated_after [] (codes "; ") (hindered_words (definition_of atom.now) state.now port count)) }
{
    let mut before: &'static [u8] = b"";
    for (number, transition) in atom.transitions().iter().enumerate() {
        before = print_one(
            atom,
            state,
            port,
            count,
            number as u64,
            transition,
            before,
            output,
        )?;
    }
    Ok(())
}

/// Prints why a transition is not offered, if it is one of the port, with `before` before it; returns what is to stand before
/// the next one.
fn print_one<W: Write>(
    atom: &Atom,
    state: &AtomState,
    port: u16,
    count: usize,
    number: u64,
    transition: &Transition,
    before: &'static [u8],
    output: &mut W,
) -> Result<&'static [u8], WriteFault>
    requires { is_small_transition (transition_of transition.now) ≡ true }
    ensures printed { Prints result (W.contents output.old) (W.contents output.new)
        (separated_after before.now (codes "; ") (hindered_word (definition_of atom.now) state.now port count number (transition_of transition.now))) }
    ensures next { IfOk result (λ next. next.now ≡ after_words before.now (codes "; ") (hindered_word (definition_of atom.now) state.now port count number (transition_of transition.now))) }
{
    if transition.port() != port {
        return Ok(before);
    }
    print_text(output, before)?;
    print_transition(atom, state, count, number, transition, output)?;
    Ok(b"; ")
}

/// Prints why a transition is not offered, after its number if its port has more than one.
fn print_transition<W: Write>(
    atom: &Atom,
    state: &AtomState,
    count: usize,
    number: u64,
    transition: &Transition,
    output: &mut W,
) -> Result<(), WriteFault>
    requires { is_small_transition (transition_of transition.now) ≡ true }
    ensures { Prints result (W.contents output.old) (W.contents output.new)
        (number_text count number ++ hindered_text (definition_of atom.now) state.now (transition_of transition.now)) }
{
    print_transition_number(count, number, output)?;
    match hindrance_of(transition, state) {
        Some(hindrance) => print_hindrance(atom, state, transition, hindrance, output),
        None => Ok(()),
    }
}

/// Prints the number of a transition, if its port has more than one.
fn print_transition_number<W: Write>(
    count: usize,
    number: u64,
    output: &mut W,
) -> Result<(), WriteFault>
    ensures { Prints result (W.contents output.old) (W.contents output.new) (number_text count number) }
{
    if count <= 1 {
        return Ok(());
    }
    print_text(output, b"/")?;
    print_number(output, number)?;
    print_text(output, b" ")
}

/// Prints why a transition is not offered.
fn print_hindrance<W: Write>(
    atom: &Atom,
    state: &AtomState,
    transition: &Transition,
    hindrance: Hindrance,
    output: &mut W,
) -> Result<(), WriteFault>
    requires { is_small_transition (transition_of transition.now) ≡ true }
    ensures { Prints result (W.contents output.old) (W.contents output.new) (hindrance_text (definition_of atom.now) state.now (transition_of transition.now) hindrance) }
{
    match hindrance {
        Hindrance::Unmarked(place) => print_place(atom, place, b" is not marked", output),
        Hindrance::Marked(place) => print_place(atom, place, b" is marked already", output),
        Hindrance::ZeroGuard => print_zero(transition.guard(), &Variables { atom }, state, output),
    }
}

/// Prints a place by its name, and what is said of it.
fn print_place<W: Write>(
    atom: &Atom,
    place: u8,
    said: &[u8],
    output: &mut W,
) -> Result<(), WriteFault>
    ensures { Prints result (W.contents output.old) (W.contents output.new) (codes "place " ++ place_name (definition_of atom.now) place ++ said.now) }
{
    print_text(output, b"place ")?;
    print_text(output, place_name(atom, u16::from(place)))?;
    print_text(output, said)
}
