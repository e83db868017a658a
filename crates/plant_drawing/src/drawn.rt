//! What is drawn of a plant: the atoms of a set, and what stands on these.
ghost use Rattle.std.specs.Prelude.{◌≡◌};
ghost use Rattle.std.specs.List.{list_any};
ghost use Rattle.petri_atom.specs.Local.{has};
ghost use Rattle.connector_tree.specs.Tree.{tree_in, branch_of, leaves, branch_leaves};
ghost use Rattle.part_text.specs.Seen.{plant_of, wire_of};
ghost use Rattle.plant_drawing.specs.Drawn.{is_drawn, is_drawn_at, is_drawn_rule, is_of_drawn, side_connector};

use connector_tree::{Child, Node};
use plant_model::{MAX_ATOMS, System, Wire};
use priority_filter::{Rule, Side};

/// The set of all atoms that a plant may have: bit k for the atom with number k.
pub const ALL_ATOMS: u64 = u64::MAX;

/// Whether the set has the number.
pub(crate) fn has_number(set: u64, number: usize) -> bool
    ensures { result ≡ has set number }
{
    number < MAX_ATOMS && (set >> number) & 1 == 1
}

/// Whether the connector has a leaf of an atom of the set.
pub(crate) fn is_drawn(drawn: u64, wire: &Wire) -> bool
    ensures { result ≡ is_drawn drawn (wire_of wire.now) }
{
    has_drawn(drawn, &wire.connector.root)
}

/// Whether several children of a tree have a leaf of an atom of the set.
#[cycle(drawn)]
fn has_drawn(drawn: u64, children: &[Child]) -> bool
    ensures { result ≡ list_any (is_of_drawn drawn) (leaves (tree_in children.now)) }
{
    for child in children {
        if has_drawn_in(drawn, &child.node) {
            return true;
        }
    }
    false
}

/// Whether a node of a tree has a leaf of an atom of the set.
#[cycle(drawn)]
fn has_drawn_in(drawn: u64, node: &Node) -> bool
    ensures { result ≡ list_any (is_of_drawn drawn) (branch_leaves (branch_of node.now)) }
{
    match node {
        Node::Leaf { atom, .. } => has_number(drawn, usize::from(*atom)),
        Node::Fusion(children) => has_drawn(drawn, children),
    }
}

/// Whether the connector with this number is drawn; one that is not there is not.
fn is_drawn_at(drawn: u64, system: &System, connector: u16) -> bool
    ensures { result ≡ is_drawn_at drawn (plant_of system.now) connector }
{
    match system.wires().get(usize::from(connector)) {
        Some(wire) => is_drawn(drawn, wire),
        None => false,
    }
}

/// Whether the connectors that a priority rule names are drawn.
pub(crate) fn is_drawn_rule(drawn: u64, system: &System, rule: Rule) -> bool
    ensures { result ≡ is_drawn_rule drawn (plant_of system.now) rule }
{
    match rule {
        Rule::Under(left, right) | Rule::UnderAt(left, right, _) => {
            is_drawn_at(drawn, system, side_connector(left))
                && is_drawn_at(drawn, system, side_connector(right))
        }
        Rule::Maximal(connector) => is_drawn_at(drawn, system, connector),
    }
}

/// The number of the connector of a side.
pub(crate) fn side_connector(side: Side) -> u16
    ensures { result ≡ side_connector side }
{
    match side {
        Side::Whole(connector) => connector,
        Side::One(connector, _) => connector,
    }
}
