//! The first fault of a tree: too many leaves or levels, an atom that stands twice, or a bracket with no children.
ghost use Rattle.std.specs.Prelude.{◌≡◌, ◌+◌, ◌≤◌, ◌==◌, min, nat_lt, IfNone, length};
ghost use Rattle.std.specs.List.{list_any};
ghost use Rattle.connector_tree.specs.Tree.{tree_of, tree_in, branch_of, leaves, branch_leaves, depth, branch_depth, has_empty, is_empty_inside};
ghost use Rattle.connector_tree.specs.Faults.{fault_of, has_repeat, atoms, IsSound};
ghost use Rattle.connector_tree.specs.declared.tree.TheConstants.{MAX_LEAVES};

use crate::faults::TreeFault;
use crate::row::LeafRow;
use crate::tree::{Child, Connector, MAX_DEPTH, MAX_LEAVES, Node, Port};

/// The first fault of a tree, in the order of their numbers; never `Memory`.
#[tactic(auto, using(crate::proofs::Sound::sound))]
pub fn first_fault(connector: &Connector) -> Option<TreeFault>
    ensures fault { result ≡ fault_of (tree_of connector.now) }
    ensures sound { IfNone result (IsSound (tree_of connector.now)) }
{
    if count_leaves(&connector.root) > MAX_LEAVES {
        return Some(TreeFault::TooManyLeaves);
    }
    if is_deeper(&connector.root, MAX_DEPTH) {
        return Some(TreeFault::TooDeep);
    }
    if has_same_atom(connector) {
        return Some(TreeFault::SameAtom);
    }
    if has_empty(&connector.root) {
        return Some(TreeFault::Empty);
    }
    None
}

/// The number of leaves, or the first number that is too many.
#[cycle(count)]
fn count_leaves(children: &[Child]) -> usize
    ensures { result ≡ min (length (leaves (tree_in children.now))) (MAX_LEAVES + 1) }
{
    let mut count = 0;
    for child in children {
        count = (count + count_node(&child.node)).min(MAX_LEAVES + 1);
    }
    count
}

#[cycle(count)]
pub(crate) fn count_node(node: &Node) -> usize
    ensures { result ≡ min (length (branch_leaves (branch_of node.now))) (MAX_LEAVES + 1) }
{
    match node {
        Node::Leaf { .. } => 1,
        Node::Fusion(children) => count_leaves(children),
    }
}

/// Whether a bracket with these children has more levels than these, its own the first.
#[cycle(deeper)]
fn is_deeper(children: &[Child], levels: usize) -> bool
    ensures { result ≡ nat_lt levels (depth (tree_in children.now)) }
{
    if levels == 0 {
        return true;
    }
    for child in children {
        if is_node_deeper(&child.node, levels - 1) {
            return true;
        }
    }
    false
}

#[cycle(deeper)]
fn is_node_deeper(node: &Node, levels: usize) -> bool
    ensures { result ≡ nat_lt levels (branch_depth (branch_of node.now)) }
{
    match node {
        Node::Leaf { .. } => false,
        Node::Fusion(children) => is_deeper(children, levels),
    }
}

/// Whether a bracket with these children, or one inside it, has no children.
#[cycle(empty)]
fn has_empty(children: &[Child]) -> bool
    ensures { result ≡ has_empty (tree_in children.now) }
{
    if children.is_empty() {
        return true;
    }
    for child in children {
        if is_node_empty(&child.node) {
            return true;
        }
    }
    false
}

#[cycle(empty)]
fn is_node_empty(node: &Node) -> bool
    ensures { result ≡ is_empty_inside (branch_of node.now) }
{
    match node {
        Node::Leaf { .. } => false,
        Node::Fusion(children) => has_empty(children),
    }
}

/// Whether two of the leaves are of one atom.
fn has_same_atom(connector: &Connector) -> bool
    requires { length (leaves (tree_of connector.now)) ≤ MAX_LEAVES }
    ensures { result ≡ has_repeat (atoms (leaves (tree_of connector.now))) }
{
    has_repeat(LeafRow::of(connector).as_slice())
}

/// Whether two of the ports are of one atom.
fn has_repeat(ports: &[Port]) -> bool
    ensures { result ≡ has_repeat (atoms ports.now) }
{
    for (number, port) in ports.iter().enumerate() {
        if has_atom(&ports[number + 1..], port.atom) {
            return true;
        }
    }
    false
}

/// Whether one of the ports is of the atom.
fn has_atom(ports: &[Port], atom: u16) -> bool
    ensures { result ≡ list_any (λ other. atom == other) (atoms ports.now) }
{
    for port in ports {
        if atom == port.atom {
            return true;
        }
    }
    false
}
