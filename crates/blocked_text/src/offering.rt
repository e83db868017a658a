//! Which ports a state offers.
ghost use Rattle.std.specs.Prelude.{◌≡◌, map, false, slice_get};
ghost use Rattle.std.specs.Option.{option_map_or};
ghost use Rattle.petri_atom.specs.Definition.{offers_port};
ghost use Rattle.plant_model.specs.Choice.{is_offered_port};
ghost use Rattle.part_text.specs.Seen.{definition_of};
ghost use Rattle.blocked_text.specs.Reason.{first_idle};

use connector_tree::Port;
use petri_atom::Atom;
use plant_model::PlantState;

/// The first of the ports that is not offered.
pub(crate) fn first_idle(atoms: &[Atom], states: &PlantState, ports: &[Port]) -> Option<Port>
    ensures { result ≡ first_idle (map definition_of atoms.now) states.now ports.now }
{
    ports
        .iter()
        .copied()
        .find(|port| !is_offered(atoms, states, *port))
}

/// Whether the port is offered.
fn is_offered(atoms: &[Atom], states: &PlantState, port: Port) -> bool
    ensures { result ≡ is_offered_port (map definition_of atoms.now) states.now port }
{
    match atoms.get(usize::from(port.atom)) {
        Some(atom) => is_offered_by(atom, states, port),
        None => false,
    }
}

/// Whether the port is offered, which is one of this atom.
fn is_offered_by(atom: &Atom, states: &PlantState, port: Port) -> bool
    ensures { result ≡ option_map_or (λ s. offers_port (definition_of atom.now) s port.port) (slice_get states.now port.atom) false }
{
    usize::from(port.atom) < states.len() && atom.offers(states.state(port.atom), port.port)
}
