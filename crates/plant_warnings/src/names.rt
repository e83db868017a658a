//! The names of the parts with these numbers; empty if a part is not there.
ghost use Rattle.std.specs.Prelude.{◌≡◌};
ghost use Rattle.petri_atom.specs.Atom.{definition_of};
ghost use Rattle.petri_atom.specs.Definition.{port_name, variable_name};
ghost use Rattle.plant_model.specs.Plant.{wire_name};
ghost use Rattle.plant_model.specs.System.{plant_of};
ghost use Rattle.plant_warnings.specs.Names.{atom_name, name_of_place, name_of_port, name_of_variable, place_name};

use petri_atom::Atom;
use plant_model::System;

/// The name of an atom.
pub(crate) fn atom_name(system: &System, atom: usize) -> &[u8]
    ensures { result.now ≡ atom_name (plant_of system.now) atom }
{
    match system.atoms().get(atom) {
        Some(made) => made.name().as_bytes(),
        None => &[],
    }
}

/// The name of a port of an atom.
pub(crate) fn name_of_port(system: &System, atom: usize, port: usize) -> &[u8]
    ensures { result.now ≡ name_of_port (plant_of system.now) atom port }
{
    match system.atoms().get(atom) {
        Some(made) => port_name(made, port),
        None => &[],
    }
}

/// The name of a place of an atom.
pub(crate) fn name_of_place(system: &System, atom: usize, place: usize) -> &[u8]
    ensures { result.now ≡ name_of_place (plant_of system.now) atom place }
{
    match system.atoms().get(atom) {
        Some(made) => place_name(made, place),
        None => &[],
    }
}

/// The name of a variable of an atom.
pub(crate) fn name_of_variable(system: &System, atom: usize, variable: usize) -> &[u8]
    ensures { result.now ≡ name_of_variable (plant_of system.now) atom variable }
{
    match system.atoms().get(atom) {
        Some(made) => variable_name(made, variable),
        None => &[],
    }
}

/// The name of a connector.
pub(crate) fn connector_name(system: &System, connector: usize) -> &[u8]
    ensures { result.now ≡ wire_name (plant_of system.now) connector }
{
    match system.wires().get(connector) {
        Some(wire) => wire.name.as_bytes(),
        None => &[],
    }
}

/// The name of a port of the atom.
fn port_name(atom: &Atom, port: usize) -> &[u8]
    ensures { result.now ≡ port_name (definition_of atom.now) port }
{
    match atom.ports().get(port) {
        Some(made) => made.name.as_bytes(),
        None => &[],
    }
}

/// The name of a place of the atom.
fn place_name(atom: &Atom, place: usize) -> &[u8]
    ensures { result.now ≡ place_name (definition_of atom.now) place }
{
    match atom.places().get(place) {
        Some(made) => made.name.as_bytes(),
        None => &[],
    }
}

/// The name of a variable of the atom.
fn variable_name(atom: &Atom, variable: usize) -> &[u8]
    ensures { result.now ≡ variable_name (definition_of atom.now) variable }
{
    match atom.variables().get(variable) {
        Some(made) => made.name.as_bytes(),
        None => &[],
    }
}
