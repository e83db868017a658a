//! The tests of the ports of an atom.
ghost use Rattle.std.specs.Prelude.{◌≡◌, ◌≤◌, ◌==◌, length, map, None};
ghost use Rattle.std.specs.List.{list_any};
ghost use Rattle.petri_atom.specs.Atom.{definition_of};
ghost use Rattle.petri_atom.specs.Transition.{transition_of};
ghost use Rattle.connector_tree.specs.Tree.{leaves};
ghost use Rattle.connector_tree.specs.declared.tree.TheConstants.{MAX_LEAVES};
ghost use Rattle.plant_model.specs.Rules.{first_fault_in, tree_fault};
ghost use Rattle.plant_model.specs.System.{plant_of};
ghost use Rattle.plant_model.specs.Wire.{wire_of};
ghost use Rattle.plant_warnings.specs.Ports.{has_leaf, has_no_transition, is_in_no_connector};

use connector_tree::LeafRow;
use petri_atom::{Atom, Transition};
use plant_model::{System, Wire};

/// Whether no transition of the atom has the port with this number.
pub(crate) fn has_no_transition(atom: &Atom, port: usize) -> bool
    ensures { result ≡ has_no_transition (definition_of atom.now) port }
{
    !is_of_one(atom.transitions(), port)
}

/// Whether one of the transitions has the port with this number.
fn is_of_one(transitions: &[Transition], port: usize) -> bool
    ensures { result ≡ list_any (λ t. (transition_of t).port == port) transitions.now }
{
    transitions
        .iter()
        .any(|transition| usize::from(transition.port()) == port)
}

/// Whether the port with this number of the atom with this number stands in no connector.
pub(crate) fn is_in_no_connector(system: &System, atom: usize, port: usize) -> bool
    ensures { result ≡ is_in_no_connector (plant_of system.now) atom port }
{
    system.keeps_its_rules();
    !is_in_some(system.wires(), atom, port)
}

/// Whether the port stands in one of the connectors.
fn is_in_some(wires: &[Wire], atom: usize, port: usize) -> bool
    requires { first_fault_in tree_fault 0 (map wire_of wires.now) ≡ None }
    ensures { result ≡ list_any (has_leaf atom port) (map wire_of wires.now) }
{
    for wire in wires {
        if has_leaf(wire, atom, port) {
            return true;
        }
    }
    false
}

/// Whether the port stands in the connector.
fn has_leaf(wire: &Wire, atom: usize, port: usize) -> bool
    requires { length (leaves (wire_of wire.now).connector) ≤ MAX_LEAVES }
    ensures { result ≡ has_leaf atom port (wire_of wire.now) }
{
    LeafRow::of(&wire.connector).as_slice().iter().any(|leaf| usize::from(leaf.atom) == atom
        && usize::from(leaf.port) == port)
}
