//! Which word of an expression names which part of a plant.
ghost use Rattle.std.specs.Prelude.{◌≡◌, map, position};
ghost use Rattle.petri_atom.specs.Atom.{definition_of};
ghost use Rattle.petri_atom.specs.Name.{is_same_text};
ghost use Rattle.plant_model.specs.System.{plant_of};
ghost use Rattle.run_watches.specs.Operands.{place_at, place_in, place_named, variable_at, variable_in, variable_named};

use crate::operand::Operand;
use petri_atom::{Atom, Place, Variable};
use plant_model::System;
use plant_words::{Variables, split_export};

/// What stands before the atom and the place in the word of a place.
pub(crate) const AT: &[u8] = b"at.";

/// The parts of a plant that an expression may name: `ATOM.VAR` is a variable, and `at.ATOM.PLACE` whether a place is marked.
#[derive(Clone, Copy)]
pub(crate) struct PlantOperands<'a> {
    pub(crate) system: &'a System,
}

impl Variables<Operand> for PlantOperands<'_> {
    ghost use Rattle.run_watches.specs.Operands.{operand_named};

    ghost variable_named = { λ operands word. operand_named (plant_of operands.system.now) word };

    fn find(&self, word: &[u8]) -> Option<Operand> {
        match word {
            [b'a', b't', b'.', place @ ..] => find_place(self.system, place),
            _ => find_variable(self.system, word),
        }
    }
}

/// The variable that the word `ATOM.VAR` names.
fn find_variable(system: &System, word: &[u8]) -> Option<Operand>
    ensures { result ≡ variable_named (plant_of system.now) word.now }
{
    let (atom, variable) = split_export(word)?;
    variable_at(system.atoms(), system.atom_named(atom)?, variable)
}

/// The place that the word `ATOM.PLACE` names.
fn find_place(system: &System, word: &[u8]) -> Option<Operand>
    ensures { result ≡ place_named (plant_of system.now) word.now }
{
    let (atom, place) = split_export(word)?;
    place_at(system.atoms(), system.atom_named(atom)?, place)
}

/// The variable with the name of the atom with the number.
fn variable_at(atoms: &[Atom], atom: u16, name: &[u8]) -> Option<Operand>
    ensures { result ≡ variable_at (map definition_of atoms.now) name.now atom }
{
    match atoms.get(usize::from(atom)) {
        Some(owner) => variable_in(atom, owner, name),
        None => None,
    }
}

/// The place with the name of the atom with the number.
fn place_at(atoms: &[Atom], atom: u16, name: &[u8]) -> Option<Operand>
    ensures { result ≡ place_at (map definition_of atoms.now) name.now atom }
{
    match atoms.get(usize::from(atom)) {
        Some(owner) => place_in(atom, owner, name),
        None => None,
    }
}

/// The variable with the name of an atom, which has this number.
fn variable_in(atom: u16, owner: &Atom, name: &[u8]) -> Option<Operand>
    ensures { result ≡ variable_in atom name.now (definition_of owner.now) }
{
    let variable = variable_of(owner.variables(), name)?;
    Some(Operand::Variable { atom, variable })
}

/// The place with the name of an atom, which has this number.
fn place_in(atom: u16, owner: &Atom, name: &[u8]) -> Option<Operand>
    ensures { result ≡ place_in atom name.now (definition_of owner.now) }
{
    let place = place_of(owner.places(), name)?;
    Some(Operand::Place { atom, place })
}

/// The number of the first of the variables with the name.
fn variable_of(variables: &[Variable], name: &[u8]) -> Option<usize>
    ensures { result ≡ position (λ v. is_same_text v.name name.now) variables.now }
{
    variables
        .iter()
        .position(|variable| variable.name.as_bytes() == name)
}

/// The number of the first of the places with the name.
fn place_of(places: &[Place], name: &[u8]) -> Option<usize>
    ensures { result ≡ position (λ p. is_same_text p.name name.now) places.now }
{
    places
        .iter()
        .position(|place| place.name.as_bytes() == name)
}
