//! The values of the signals that a step changes.
ghost use Rattle.std.specs.Prelude.{◌≡◌};
ghost use Rattle.run_text.specs.Seen.{IsOf, Prints, definition_of, plant_of};
ghost use Rattle.text_io.specs.Numbered.{numbered};
ghost use Rattle.run_states.specs.Changes.{atom_changes, changes_of, place_change, place_change_of, variable_change, variable_change_of};

use crate::signals::{print_place, print_variable};
use petri_atom::{Atom, AtomState, Place, Variable};
use plant_model::{PlantState, System};
use run_text::{is_marked, value_at};
use std::io::Write;
use text_io::WriteFault;

/// Prints the values of the signals that differ from the state before.
pub(crate) fn print_changes<W: Write>(
    system: &System,
    before: &PlantState,
    states: &PlantState,
    output: &mut W,
) -> Result<(), WriteFault>
    requires before { IsOf (plant_of system.now) before.now }
    requires after { IsOf (plant_of system.now) states.now }
    ensures { Prints result (W.contents output.old) (W.contents output.new) (changes_of (plant_of system.now) before.now states.now) }
{
    for (number, atom) in system.atoms().iter().enumerate() {
        let old = before.state(number as u16);
        let new = states.state(number as u16);
        print_atom(number as u64, atom, old, new, output)?;
    }
    Ok(())
}

/// Prints the values of the signals of an atom that differ: its places, and then its variables.
fn print_atom<W: Write>(
    number: u64,
    atom: &Atom,
    old: &AtomState,
    new: &AtomState,
    output: &mut W,
) -> Result<(), WriteFault>
    ensures { Prints result (W.contents output.old) (W.contents output.new) (atom_changes number (definition_of atom.now) old.now new.now) }
{
    print_places(number, atom.places(), old.places(), new.places(), output)?;
    print_variables(number, atom.variables(), old.values(), new.values(), output)
}

/// Prints whether the places of an atom are marked, of those that were not so before.
fn print_places<W: Write>(
    atom: u64,
    places: &[Place],
    old: u64,
    new: u64,
    output: &mut W,
) -> Result<(), WriteFault>
    ensures { Prints result (W.contents output.old) (W.contents output.new) (numbered (place_change_of atom old new) 0 places.now) }
{
    for number in 0..places.len() {
        let was = is_marked(old, number);
        print_place_change(atom, number as u64, was, is_marked(new, number), output)?;
    }
    Ok(())
}

/// Prints whether a place is marked, if it was not so before.
fn print_place_change<W: Write>(
    atom: u64,
    number: u64,
    was: bool,
    is: bool,
    output: &mut W,
) -> Result<(), WriteFault>
    ensures { Prints result (W.contents output.old) (W.contents output.new) (place_change atom number was is) }
{
    if was == is {
        Ok(())
    } else {
        print_place(atom, number, is, output)
    }
}

/// Prints the values of the variables of an atom, of those that had another one before.
fn print_variables<W: Write>(
    atom: u64,
    variables: &[Variable],
    old: &[i64],
    new: &[i64],
    output: &mut W,
) -> Result<(), WriteFault>
    ensures { Prints result (W.contents output.old) (W.contents output.new) (numbered (variable_change_of atom old.now new.now) 0 variables.now) }
{
    for number in 0..variables.len() {
        let had = value_at(old, number);
        print_variable_change(atom, number as u64, had, value_at(new, number), output)?;
    }
    Ok(())
}

/// Prints the value of a variable, if it had another one before.
fn print_variable_change<W: Write>(
    atom: u64,
    number: u64,
    old: i64,
    new: i64,
    output: &mut W,
) -> Result<(), WriteFault>
    ensures { Prints result (W.contents output.old) (W.contents output.new) (variable_change atom number old new) }
{
    if old == new {
        Ok(())
    } else {
        print_variable(atom, number, new, output)
    }
}

/// Puts the states of a plant's atoms into the place of those that are kept.
pub(crate) fn copy_states(system: &System, states: &PlantState, kept: &mut PlantState)
    requires states { IsOf (plant_of system.now) states.now }
    requires kept { IsOf (plant_of system.now) kept.old }
    ensures { kept.new ≡ states.now }
{
    for number in 0..system.atoms().len() {
        kept.set(number as u16, states.state(number as u16).copy());
    }
}
