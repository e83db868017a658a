//! The leaves of a connector in a row of fixed size.
ghost use Rattle.std.specs.Prelude.{◌≡◌, ◌+◌, ◌≤◌, ◌++◌, [], ◌∷◌, length};
ghost use Rattle.connector_tree.specs.Tree.{tree_of, tree_in, branch_of, leaves, branch_leaves};
ghost use Rattle.connector_tree.specs.declared.tree.TheConstants.{MAX_LEAVES};

use crate::tree::{Child, Connector, MAX_LEAVES, Node, Port};
use std::marker::Model;

/// The leaves of a connector that has no more than `MAX_LEAVES`, from left to right. It takes no memory.
#[derive(Drop)]
pub struct LeafRow {
    row: [Port; MAX_LEAVES],
    len: usize,
}

impl Model for LeafRow {
    ghost use Rattle.std.specs.Prelude.{◌≤◌, List, take};
    ghost use Rattle.connector_tree.specs.declared.tree.Port.{Port};
    ghost use Rattle.connector_tree.specs.declared.tree.TheConstants.{MAX_LEAVES};

    ghost Value = { List Port };

    ghost view = { λ a. take a.len a.row };

    ghost invariant = { λ a. a.len ≤ MAX_LEAVES };
}

impl LeafRow {
    /// The leaves of the connector.
    pub fn of(connector: &Connector) -> LeafRow
        requires { length (leaves (tree_of connector.now)) ≤ MAX_LEAVES }
        ensures { result ≡ leaves (tree_of connector.now) }
    {
        let mut found = LeafRow::new();
        gather(&connector.root, &mut found);
        found
    }

    /// The leaves: leaf j is the entry at j.
    pub fn as_slice(&self) -> &[Port]
        ensures { result.now ≡ self.now }
    {
        &self.row[..self.len]
    }

    fn new() -> LeafRow
        ensures { result ≡ [] }
    {
        LeafRow {
            row: [Port { atom: 0, port: 0 }; MAX_LEAVES],
            len: 0,
        }
    }

    fn push(&mut self, port: Port)
        requires { length self.old + 1 ≤ MAX_LEAVES }
        ensures { self.new ≡ self.old ++ port ∷ [] }
    {
        self.row[self.len] = port;
        self.len += 1;
    }
}

#[cycle(gather)]
fn gather(children: &[Child], found: &mut LeafRow)
    requires { length found.old + length (leaves (tree_in children.now)) ≤ MAX_LEAVES }
    ensures { found.new ≡ found.old ++ leaves (tree_in children.now) }
{
    for child in children {
        gather_node(&child.node, found);
    }
}

#[cycle(gather)]
fn gather_node(node: &Node, found: &mut LeafRow)
    requires { length found.old + length (branch_leaves (branch_of node.now)) ≤ MAX_LEAVES }
    ensures { found.new ≡ found.old ++ branch_leaves (branch_of node.now) }
{
    match node {
        Node::Leaf { atom, port } => found.push(Port {
            atom: *atom,
            port: *port,
        }),
        Node::Fusion(children) => gather(children, found),
    }
}
