//! The words of a connector's tree, broken into lines.
ghost use Rattle.std.specs.Prelude.{◌≡◌, ◌++◌, ◌∷◌, [], codes, IfOk, map};
ghost use Rattle.connector_tree.specs.Tokens.{children_tokens, node_tokens};
ghost use Rattle.connector_tree.specs.declared.token.Token.TheVariants.{Leaf};
ghost use Rattle.part_text.specs.Seen.{definition_of};
ghost use Rattle.part_text.specs.Words.{token_word, trigger_mark};
ghost use Rattle.plant_drawing.specs.Wrapped.{Wraps};

use crate::wrapping::{print_gap, print_word};
use connector_tree::{Child, Node, Port};
use part_text::{port_length, print_port};
use petri_atom::Atom;
use std::io::Write;
use text_io::{WriteFault, print_text};

/// Prints the words of several children of a tree after others.
#[cycle(words)]
pub(crate) fn print_words<W: Write>(
    left: usize,
    atoms: &[Atom],
    children: &[Child],
    output: &mut W,
) -> Result<usize, WriteFault>
    ensures { IfOk result (Wraps left (map (token_word (map definition_of atoms.now)) (children_tokens children.now)) (W.contents output.old) (W.contents output.new)) }
{
    let mut now = left;
    for child in children {
        now = print_node_words(now, atoms, &child.node, child.trigger, output)?;
    }
    Ok(now)
}

/// Prints the words of a node of a tree after others.
#[cycle(words)]
fn print_node_words<W: Write>(
    left: usize,
    atoms: &[Atom],
    node: &Node,
    trigger: bool,
    output: &mut W,
) -> Result<usize, WriteFault>
    ensures { IfOk result (Wraps left (map (token_word (map definition_of atoms.now)) (node_tokens node.now trigger)) (W.contents output.old) (W.contents output.new)) }
{
    match node {
        Node::Leaf { atom, port } => {
            let port = Port {
                atom: *atom,
                port: *port,
            };
            print_leaf(left, atoms, port, trigger, output)
        }
        Node::Fusion(children) => {
            let now = print_word(left, b"[", output)?;
            let inside = print_words(now, atoms, children, output)?;
            print_close(inside, trigger, output)
        }
    }
}

/// Prints a port of a tree after other words.
fn print_leaf<W: Write>(
    left: usize,
    atoms: &[Atom],
    port: Port,
    trigger: bool,
    output: &mut W,
) -> Result<usize, WriteFault>
    ensures { IfOk result (Wraps left (token_word (map definition_of atoms.now) (Leaf port trigger) ∷ []) (W.contents output.old) (W.contents output.new)) }
{
    let mark = mark_of(trigger);
    let now = print_gap(left, port_length(atoms, port), mark.len(), output)?;
    print_port(atoms, port, output)?;
    print_text(output, mark)?;
    Ok(now)
}

/// Prints the end of a bracket after other words.
fn print_close<W: Write>(left: usize, trigger: bool, output: &mut W) -> Result<usize, WriteFault>
    ensures { IfOk result (Wraps left ((codes "]" ++ trigger_mark trigger) ∷ []) (W.contents output.old) (W.contents output.new)) }
{
    if trigger {
        print_word(left, b"]'", output)
    } else {
        print_word(left, b"]", output)
    }
}

/// The mark of a trigger; nothing for a synchron.
fn mark_of(trigger: bool) -> &'static [u8]
    ensures { result.now ≡ trigger_mark trigger }
{
    if trigger { b"'" } else { b"" }
}
