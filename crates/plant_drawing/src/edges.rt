//! The edges of a connector: by the leaves of its tree, and how they begin and end.
ghost use Rattle.std.specs.Prelude.{Bool, List, ℕ, flat_map};
ghost use Rattle.connector_tree.specs.declared.tree.Port as tree;
ghost use Rattle.connector_tree.specs.Tokens.{children_tokens, node_tokens};
ghost use Rattle.text_io.specs.Printing.{Prints};
ghost use Rattle.plant_drawing.specs.Edges.{end_of_edge, from_connector, leaf_edge, token_edge};

use crate::drawn::has_number;
use crate::node::print_connector;
use connector_tree::{Child, Node, Port};
use std::io::Write;
use text_io::{WriteFault, print_text};

/// What is drawn for a leaf of a connector.
pub(crate) trait LeafEdges {
    ghost edge_to: { Self → tree.Port → Bool → List ℕ };

    /// Prints what is drawn for one leaf, which is a trigger or is none.
    fn print_edge<W: Write>(
        &self,
        port: Port,
        trigger: bool,
        output: &mut W,
    ) -> Result<(), WriteFault>
        ensures { Prints result (W.contents output.old) (W.contents output.new) (edge_to self.now port trigger) };
}

/// Prints what is drawn for the leaves of several children of a tree whose atoms are drawn.
#[cycle(edges)]
pub(crate) fn print_edges<E: LeafEdges, W: Write>(
    edges: &E,
    drawn: u64,
    children: &[Child],
    output: &mut W,
) -> Result<(), WriteFault>
    ensures { Prints result (W.contents output.old) (W.contents output.new) (flat_map (token_edge drawn (E.edge_to edges.now)) (children_tokens children.now)) }
{
    for child in children {
        print_node_edges(edges, drawn, &child.node, child.trigger, output)?;
    }
    Ok(())
}

/// Prints what is drawn for the leaves of a node of a tree whose atoms are drawn.
#[cycle(edges)]
fn print_node_edges<E: LeafEdges, W: Write>(
    edges: &E,
    drawn: u64,
    node: &Node,
    trigger: bool,
    output: &mut W,
) -> Result<(), WriteFault>
    ensures { Prints result (W.contents output.old) (W.contents output.new) (flat_map (token_edge drawn (E.edge_to edges.now)) (node_tokens node.now trigger)) }
{
    match node {
        Node::Leaf { atom, port } => {
            let port = Port {
                atom: *atom,
                port: *port,
            };
            print_leaf_edge(edges, drawn, port, trigger, output)
        }
        Node::Fusion(children) => print_edges(edges, drawn, children, output),
    }
}

/// Prints what is drawn for a leaf if its atom is drawn; nothing of another.
fn print_leaf_edge<E: LeafEdges, W: Write>(
    edges: &E,
    drawn: u64,
    port: Port,
    trigger: bool,
    output: &mut W,
) -> Result<(), WriteFault>
    ensures { Prints result (W.contents output.old) (W.contents output.new) (leaf_edge drawn (E.edge_to edges.now) port trigger) }
{
    if has_number(drawn, usize::from(port.atom)) {
        edges.print_edge(port, trigger, output)
    } else {
        Ok(())
    }
}

/// Prints the end of an edge: a triangle at a trigger, and a dot at a synchron.
pub(crate) fn print_end<W: Write>(trigger: bool, output: &mut W) -> Result<(), WriteFault>
    ensures { Prints result (W.contents output.old) (W.contents output.new) (end_of_edge trigger) }
{
    if trigger {
        print_text(output, b" [arrowhead=normal];\n")
    } else {
        print_text(output, b" [arrowhead=dot];\n")
    }
}

/// Prints the begin of an edge from the connector with this number.
pub(crate) fn print_from<W: Write>(connector: u64, output: &mut W) -> Result<(), WriteFault>
    ensures { Prints result (W.contents output.old) (W.contents output.new) (from_connector connector) }
{
    print_text(output, b"  ")?;
    print_connector(connector, output)?;
    print_text(output, b" -> ")
}
