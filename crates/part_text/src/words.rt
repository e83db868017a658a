//! The words of a connector's tree, as the plant text writes them.
ghost use Rattle.std.specs.Prelude.{◌≡◌, ◌++◌, codes, length, flat_map, map};
ghost use Rattle.petri_atom.specs.Definition.{port_name};
ghost use Rattle.connector_tree.specs.Tokens.{children_tokens, node_tokens};
ghost use Rattle.text_io.specs.Printing.{Prints};
ghost use Rattle.part_text.specs.Seen.{definition_of};
ghost use Rattle.part_text.specs.Words.{leaf_word, spaced_word, trigger_mark};

use crate::names::length_of_both;
use connector_tree::{Child, Node, Port};
use petri_atom::Atom;
use std::io::Write;
use text_io::{WriteFault, print_text};

/// Prints the words of several children of a tree, each with a space before it.
#[cycle(words)]
pub fn print_words<W: Write>(
    atoms: &[Atom],
    children: &[Child],
    output: &mut W,
) -> Result<(), WriteFault>
    ensures { Prints result (W.contents output.old) (W.contents output.new) (flat_map (spaced_word (map definition_of atoms.now)) (children_tokens children.now)) }
{
    for child in children {
        print_node_words(atoms, &child.node, child.trigger, output)?;
    }
    Ok(())
}

/// Prints the words of a node of a tree, each with a space before it.
#[cycle(words)]
fn print_node_words<W: Write>(
    atoms: &[Atom],
    node: &Node,
    trigger: bool,
    output: &mut W,
) -> Result<(), WriteFault>
    ensures { Prints result (W.contents output.old) (W.contents output.new) (flat_map (spaced_word (map definition_of atoms.now)) (node_tokens node.now trigger)) }
{
    match node {
        Node::Leaf { atom, port } => {
            let port = Port {
                atom: *atom,
                port: *port,
            };
            print_leaf(atoms, port, trigger, output)
        }
        Node::Fusion(children) => {
            print_text(output, b" [")?;
            print_words(atoms, children, output)?;
            print_close(trigger, output)
        }
    }
}

/// Prints the end of a bracket, with a space before it.
fn print_close<W: Write>(trigger: bool, output: &mut W) -> Result<(), WriteFault>
    ensures { Prints result (W.contents output.old) (W.contents output.new) (codes " ]" ++ trigger_mark trigger) }
{
    print_text(output, b" ]")?;
    print_mark(trigger, output)
}

/// Prints a port of a tree, with a space before it.
fn print_leaf<W: Write>(
    atoms: &[Atom],
    port: Port,
    trigger: bool,
    output: &mut W,
) -> Result<(), WriteFault>
    ensures { Prints result (W.contents output.old) (W.contents output.new) (codes " " ++ leaf_word (map definition_of atoms.now) port ++ trigger_mark trigger) }
{
    print_text(output, b" ")?;
    print_port(atoms, port, output)?;
    print_mark(trigger, output)
}

/// Prints a port by the names of its atom and its own; nothing if the atom is not there.
pub fn print_port<W: Write>(atoms: &[Atom], port: Port, output: &mut W) -> Result<(), WriteFault>
    ensures { Prints result (W.contents output.old) (W.contents output.new) (leaf_word (map definition_of atoms.now) port) }
{
    match atoms.get(usize::from(port.atom)) {
        Some(atom) => print_port_of(atom, port.port, output),
        None => Ok(()),
    }
}

/// How many bytes a port has by the names of its atom and its own; 0 if the atom is not there.
pub fn port_length(atoms: &[Atom], port: Port) -> usize
    ensures { result ≡ length (leaf_word (map definition_of atoms.now) port) }
{
    match atoms.get(usize::from(port.atom)) {
        Some(atom) => length_of_both(atom.name().as_bytes(), atom.port_name(port.port)),
        None => 0,
    }
}

/// Prints the name of an atom and that of its port.
fn print_port_of<W: Write>(atom: &Atom, port: u16, output: &mut W) -> Result<(), WriteFault>
    ensures { Prints result (W.contents output.old) (W.contents output.new) ((definition_of atom.now).name ++ codes "." ++ port_name (definition_of atom.now) port) }
{
    print_text(output, atom.name().as_bytes())?;
    print_text(output, b".")?;
    print_text(output, atom.port_name(port))
}

/// Prints the mark of a trigger; nothing for a synchron.
fn print_mark<W: Write>(trigger: bool, output: &mut W) -> Result<(), WriteFault>
    ensures { Prints result (W.contents output.old) (W.contents output.new) (trigger_mark trigger) }
{
    if trigger {
        print_text(output, b"'")
    } else {
        Ok(())
    }
}
