//! The leaf of a connector with a number.
ghost use Rattle.std.specs.Prelude.{◌≡◌, slice_get};
ghost use Rattle.connector_tree.specs.Tree.{tree_of, tree_in, branch_of, leaves, branch_leaves};
ghost use Rattle.part_text.specs.Sought.{sought};

use connector_tree::{Child, Connector, Node, Port};

/// A leaf that is sought by its number.
#[derive(Clone, Copy)]
pub(crate) enum Sought {
    /// It is found.
    Found(Port),
    /// It stands further on, and has this number there.
    After(usize),
}

/// The leaf of the connector with this number; `None` if it is not there.
pub fn leaf_at(connector: &Connector, number: usize) -> Option<Port>
    ensures { result ≡ slice_get (leaves (tree_of connector.now)) number }
{
    match seek(&connector.root, number) {
        Sought::Found(port) => Some(port),
        Sought::After(_) => None,
    }
}

/// Seeks a leaf among those of several children of a tree.
#[cycle(seek)]
fn seek(children: &[Child], number: usize) -> Sought
    ensures { result ≡ sought number (leaves (tree_in children.now)) }
{
    let mut left = number;
    for child in children {
        match seek_in(&child.node, left) {
            Sought::Found(port) => return Sought::Found(port),
            Sought::After(later) => left = later,
        }
    }
    Sought::After(left)
}

/// Seeks a leaf among those of a node of a tree.
#[cycle(seek)]
fn seek_in(node: &Node, number: usize) -> Sought
    ensures { result ≡ sought number (branch_leaves (branch_of node.now)) }
{
    match node {
        Node::Leaf { atom, port } => {
            let port = Port {
                atom: *atom,
                port: *port,
            };
            match number.checked_sub(1) {
                Some(later) => Sought::After(later),
                None => Sought::Found(port),
            }
        }
        Node::Fusion(children) => seek(children, number),
    }
}
