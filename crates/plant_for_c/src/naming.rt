//! The parts of a plant by their numbers and by their names.
ghost use Rattle.std.specs.Prelude.{◌≡◌, position, slice_get};
ghost use Rattle.std.specs.Option.{option_map};
ghost use Rattle.petri_atom.specs.Atom.{definition_of};
ghost use Rattle.petri_atom.specs.Name.{is_same_text};
ghost use Rattle.plant_model.specs.System.{plant_of};
ghost use Rattle.plant_for_c.specs.Names.{atom_name, connector_name, place_name, place_named, variable_name, variable_named};

use petri_atom::{Atom, Place, Variable};
use plant_model::System;

/// The atom with the number.
pub fn atom_at(system: &System, atom: u16) -> Option<&Atom>
    ensures { option_map (λ a. definition_of a.now) result ≡ slice_get (plant_of system.now).atoms atom }
{
    system.atoms().get(usize::from(atom))
}

/// The name of the atom with the number.
pub fn atom_name(system: &System, atom: u16) -> Option<&[u8]>
    ensures { option_map (λ name. name.now) result ≡ atom_name (plant_of system.now) atom }
{
    match atom_at(system, atom) {
        Some(found) => Some(found.name().as_bytes()),
        None => None,
    }
}

/// The name of the connector with the number.
pub fn connector_name(system: &System, connector: u16) -> Option<&[u8]>
    ensures { option_map (λ name. name.now) result ≡ connector_name (plant_of system.now) connector }
{
    match system.wires().get(usize::from(connector)) {
        Some(found) => Some(found.name.as_bytes()),
        None => None,
    }
}

/// The name of the place of the atom, both by their numbers.
pub fn place_name(system: &System, atom: u16, place: u16) -> Option<&[u8]>
    ensures { option_map (λ name. name.now) result ≡ place_name (plant_of system.now) atom place }
{
    match atom_at(system, atom) {
        Some(found) => name_of_place(found.places(), place),
        None => None,
    }
}

/// The name of the place with the number.
fn name_of_place(places: &[Place], place: u16) -> Option<&[u8]>
    ensures { option_map (λ name. name.now) result ≡ option_map (λ p. p.name) (slice_get places.now place) }
{
    match places.get(usize::from(place)) {
        Some(found) => Some(found.name.as_bytes()),
        None => None,
    }
}

/// The name of the variable of the atom, both by their numbers.
pub fn variable_name(system: &System, atom: u16, variable: u16) -> Option<&[u8]>
    ensures { option_map (λ name. name.now) result ≡ variable_name (plant_of system.now) atom variable }
{
    match atom_at(system, atom) {
        Some(found) => name_of_variable(found.variables(), variable),
        None => None,
    }
}

/// The name of the variable with the number.
fn name_of_variable(variables: &[Variable], variable: u16) -> Option<&[u8]>
    ensures { option_map (λ name. name.now) result ≡ option_map (λ v. v.name) (slice_get variables.now variable) }
{
    match variables.get(usize::from(variable)) {
        Some(found) => Some(found.name.as_bytes()),
        None => None,
    }
}

/// The number of the first place of the atom with the name.
pub fn place_named(system: &System, atom: u16, name: &[u8]) -> Option<usize>
    ensures { result ≡ place_named (plant_of system.now) atom name.now }
{
    match atom_at(system, atom) {
        Some(found) => find_place(found.places(), name),
        None => None,
    }
}

/// The place of the first of these places with the name.
fn find_place(places: &[Place], name: &[u8]) -> Option<usize>
    ensures { result ≡ position (λ p. is_same_text p.name name.now) places.now }
{
    places
        .iter()
        .position(|place| place.name.as_bytes() == name)
}

/// The number of the first variable of the atom with the name.
pub fn variable_named(system: &System, atom: u16, name: &[u8]) -> Option<usize>
    ensures { result ≡ variable_named (plant_of system.now) atom name.now }
{
    match atom_at(system, atom) {
        Some(found) => find_variable(found.variables(), name),
        None => None,
    }
}

/// The place of the first of these variables with the name.
fn find_variable(variables: &[Variable], name: &[u8]) -> Option<usize>
    ensures { result ≡ position (λ v. is_same_text v.name name.now) variables.now }
{
    variables
        .iter()
        .position(|variable| variable.name.as_bytes() == name)
}
