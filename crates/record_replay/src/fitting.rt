//! Whether a record can be of a plant.
ghost use Rattle.std.specs.Prelude.{◌≡◌, map};
ghost use Rattle.petri_atom.specs.Atom.{definition_of};
ghost use Rattle.plant_model.specs.Interaction.{interaction_of};
ghost use Rattle.plant_model.specs.Laws.{is_of_port};
ghost use Rattle.plant_model.specs.System.{plant_of};
ghost use Rattle.record_replay.specs.OfPlant.{has_none_past, is_part_at, are_parts_at, is_of_interaction, is_record_of};

use crate::finding::{find_interaction, leaves_of};
use crate::parts::atoms_in;
use connector_tree::Port;
use petri_atom::Atom;
use plant_model::{Interaction, System};
use record_codec::{Entry, Fired, MOST_EXPORTED};

/// Whether the record is one of an interaction of the plant: its connector and its atoms are that one's, each transition is there
/// and of the port, and nothing is delivered past what the port exports.
pub fn is_record_of(system: &System, fired: &Fired) -> bool
    ensures { result ≡ is_record_of (plant_of system.now) fired.now }
{
    let Some(leaves) = system.ports.get(usize::from(fired.connector())) else {
        return false;
    };
    // An atom stands once in a connector, so an interaction with these atoms has this mask.
    let mask = leaves_of(leaves, atoms_in(fired));
    match find_interaction(system, fired.connector(), mask) {
        Some(interaction) => is_of_interaction(system.atoms(), fired, interaction),
        None => false,
    }
}

/// Whether the record is one of the interaction.
fn is_of_interaction(atoms: &[Atom], fired: &Fired, interaction: &Interaction) -> bool
    ensures { result ≡ is_of_interaction (map definition_of atoms.now) fired.now (interaction_of interaction.now) }
{
    fired.connector() == interaction.connector
        && are_parts_at(atoms, &interaction.ports, fired.entries())
}

/// Whether there are as many entries as ports, and each is of the port at its place.
fn are_parts_at(atoms: &[Atom], ports: &[Port], entries: &[Entry]) -> bool
    ensures { result ≡ are_parts_at (map definition_of atoms.now) ports.now entries.now }
{
    match ports {
        [] => entries.is_empty(),
        [port, later @ ..] => match entries {
            [] => false,
            [entry, rest @ ..] => is_part_at(atoms, port, entry)
                && are_parts_at(atoms, later, rest),
        },
    }
}

/// Whether the entry is of the port.
fn is_part_at(atoms: &[Atom], port: &Port, entry: &Entry) -> bool
    ensures { result ≡ is_part_at (map definition_of atoms.now) port.now entry.now }
{
    entry.atom == port.atom
        && match atoms.get(usize::from(port.atom)) {
            Some(atom) => is_of_port(atom, port.port, entry.transition)
                && has_none_past(atom.exports(port.port).len(), &entry.delivered),
            None => false,
        }
}

/// Whether the atom has the transition, and it is one of the port.
fn is_of_port(atom: &Atom, port: u16, transition: u16) -> bool
    ensures { result ≡ is_of_port (definition_of atom.now) port transition }
{
    match atom.transitions().get(usize::from(transition)) {
        Some(transition) => transition.port() == port,
        None => false,
    }
}

/// Whether nothing is delivered past so many exported variables.
fn has_none_past(exports: usize, row: &[Option<i64>; MOST_EXPORTED]) -> bool
    ensures { result ≡ has_none_past exports row.now }
{
    row.iter().skip(exports).all(|value| value.is_none())
}
