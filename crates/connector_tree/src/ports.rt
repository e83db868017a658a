//! The leaves of a connector, as a list.
ghost use Rattle.std.specs.Prelude.{◌≡◌, ◌++◌, IfOk, OnOk};
ghost use Rattle.connector_tree.specs.Tree.{tree_of, tree_in, branch_of, leaves, branch_leaves};

use crate::tree::{Child, Connector, Node, Port};
use std::alloc::{AllocError, Global};

/// The leaves of a connector, from left to right: leaf j is the entry at j.
pub fn leaves(alloc: Global, connector: &Connector) -> Result<Vec<Port>, AllocError>
    ensures { IfOk result (λ ports. ports.items ≡ leaves (tree_of connector.now)) }
{
    let mut ports = Vec::new(alloc);
    push_leaves(&connector.root, &mut ports)?;
    Ok(ports)
}

#[cycle(push_leaves)]
fn push_leaves(children: &[Child], ports: &mut Vec<Port>) -> Result<(), AllocError>
    ensures { OnOk result (ports.new.items ≡ ports.old.items ++ leaves (tree_in children.now)) }
{
    for child in children {
        push_node(&child.node, ports)?;
    }
    Ok(())
}

#[cycle(push_leaves)]
fn push_node(node: &Node, ports: &mut Vec<Port>) -> Result<(), AllocError>
    ensures { OnOk result (ports.new.items ≡ ports.old.items ++ branch_leaves (branch_of node.now)) }
{
    match node {
        Node::Leaf { atom, port } => ports.push(Port {
            atom: *atom,
            port: *port,
        })?,
        Node::Fusion(children) => push_leaves(children, ports)?,
    }
    Ok(())
}
