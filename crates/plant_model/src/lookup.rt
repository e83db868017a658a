//! Connectors and atoms by their names, and the interaction of a connector and some atoms.
ghost use Rattle.std.specs.Prelude.{◌≡◌, ◌<◌, map, nat_eq, length, position, IfSome};
ghost use Rattle.std.specs.Cmp.Lexicographic.{pointwise};
ghost use Rattle.petri_atom.specs.Atom.{definition_of};
ghost use Rattle.petri_atom.specs.Name.{is_same_text};
ghost use Rattle.plant_model.specs.Choice.{plant_interactions};
ghost use Rattle.plant_model.specs.Interaction.{interaction_of};
ghost use Rattle.plant_model.specs.Lookup.{atom_named, connector_named, is_of_atoms, mask_of};
ghost use Rattle.plant_model.specs.Wire.{wire_of};

use crate::interaction::Interaction;
use crate::system::System;
use crate::wire::Wire;
use connector_tree::{Mask, Port};
use petri_atom::Atom;

impl System {
    ghost use Rattle.plant_model.specs.System.{plant_of};

    /// The number of the first connector with the name.
    pub fn connector_named(&self, name: &[u8]) -> Option<u16>
        ensures { result ≡ connector_named (plant_of self.now) name.now }
    {
        self.keeps_its_rules();
        match find_wire(self.wires(), name) {
            Some(place) => Some(place as u16),
            None => None,
        }
    }

    /// The number of the first atom with the name.
    pub fn atom_named(&self, name: &[u8]) -> Option<u16>
        ensures { result ≡ atom_named (plant_of self.now) name.now }
    {
        self.keeps_its_rules();
        match find_atom(self.atoms(), name) {
            Some(place) => Some(place as u16),
            None => None,
        }
    }

    /// The mask of the interaction of the connector and of exactly these atoms, which are given in rising order, if there is one.
    /// It takes no memory.
    pub fn mask_of(&self, connector: u16, atoms: &[u16]) -> Option<Mask>
        ensures { result ≡ mask_of (plant_interactions (plant_of self.now)) connector atoms.now }
    {
        mask_among(&self.interactions, connector, atoms)
    }
}

/// The place of the first of the wires with the name.
fn find_wire(wires: &[Wire], name: &[u8]) -> Option<usize>
    ensures first { result ≡ position (λ w. is_same_text (wire_of w).name name.now) wires.now }
    ensures within { IfSome result (λ place. place < length wires.now) }
{
    wires.iter().position(|wire| wire.name.as_bytes() == name)
}

/// The place of the first of the atoms with the name.
fn find_atom(atoms: &[Atom], name: &[u8]) -> Option<usize>
    ensures first { result ≡ position (λ a. is_same_text (definition_of a).name name.now) atoms.now }
    ensures within { IfSome result (λ place. place < length atoms.now) }
{
    atoms.iter().position(|atom| atom.name().as_bytes() == name)
}

/// The mask of the first of the interactions that is one of the connector and of these atoms.
fn mask_among(interactions: &[Interaction], connector: u16, atoms: &[u16]) -> Option<Mask>
    ensures { result ≡ mask_of (map interaction_of interactions.now) connector atoms.now }
{
    for interaction in interactions {
        if is_of_atoms(interaction, connector, atoms) {
            return Some(interaction.mask);
        }
    }
    None
}

/// Whether the interaction is one of the connector, and its ports are of these atoms, in this order.
fn is_of_atoms(interaction: &Interaction, connector: u16, atoms: &[u16]) -> bool
    ensures { result ≡ is_of_atoms connector atoms.now (interaction_of interaction.now) }
{
    interaction.connector == connector && are_of_atoms(&interaction.ports, atoms)
}

/// Whether the ports are of these atoms, in this order.
fn are_of_atoms(ports: &[Port], atoms: &[u16]) -> bool
    ensures { result ≡ pointwise nat_eq (map (λ p. p.atom) ports.now) atoms.now }
{
    match ports {
        [] => atoms.is_empty(),
        [port, later @ ..] => match atoms {
            [] => false,
            [atom, rest @ ..] => port.atom == *atom && are_of_atoms(later, rest),
        },
    }
}
