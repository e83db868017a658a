//! How the variables of expressions are named.
ghost use Rattle.std.specs.Prelude.{◌≡◌, ◌++◌, List, ℕ, codes, length, map};
ghost use Rattle.text_io.specs.Printing.{Prints};
ghost use Rattle.part_text.specs.Seen.{definition_of};
ghost use Rattle.part_text.specs.Export.{exported_name, variable_of_port};

use crate::leaf::leaf_at;
use connector_tree::{Connector, Port};
use petri_atom::Atom;
use plant_model::Export;
use std::io::Write;
use text_io::{WriteFault, print_text};

/// How the variables of an expression are named.
pub trait Names<V> {
    ghost name_of: { Self → V → List ℕ };

    /// Prints the name of one variable.
    fn print_name<W: Write>(&self, variable: &V, output: &mut W) -> Result<(), WriteFault>
        ensures { Prints result (W.contents output.old) (W.contents output.new) (name_of self.now variable.now) };

    /// How many bytes the name of one variable has.
    fn name_length(&self, variable: &V) -> usize
        ensures { result ≡ length (name_of self.now variable.now) };
}

/// The variables of an atom, by their numbers.
#[derive(Clone, Copy)]
pub struct Variables<'a> {
    /// The atom.
    pub atom: &'a Atom,
}

impl Names<u8> for Variables<'_> {
    ghost use Rattle.petri_atom.specs.Atom.{definition_of};
    ghost use Rattle.petri_atom.specs.Definition.{variable_name};

    ghost name_of = { λ names variable. variable_name (definition_of names.atom.now) variable };

    fn print_name<W: Write>(&self, variable: &u8, output: &mut W) -> Result<(), WriteFault> {
        print_text(output, self.atom.variable_name(*variable))
    }

    fn name_length(&self, variable: &u8) -> usize {
        self.atom.variable_name(*variable).len()
    }
}

/// The variables that the ports of a connector's leaves export.
#[derive(Clone, Copy)]
pub struct Exports<'a> {
    /// The atoms of the plant.
    pub atoms: &'a [Atom],
    /// The connector whose leaves export.
    pub connector: &'a Connector,
}

impl Names<Export> for Exports<'_> {
    ghost use Rattle.std.specs.Prelude.{map};
    ghost use Rattle.petri_atom.specs.Atom.{definition_of};
    ghost use Rattle.connector_tree.specs.Tree.{tree_of, leaves};
    ghost use Rattle.part_text.specs.Export.{export_name};

    ghost name_of = { λ names export. export_name (map definition_of names.atoms.now) (leaves (tree_of names.connector.now)) export };

    fn print_name<W: Write>(&self, variable: &Export, output: &mut W) -> Result<(), WriteFault> {
        match leaf_at(self.connector, usize::from(variable.leaf)) {
            Some(port) => print_variable_of_port(self.atoms, port, variable.export, output),
            None => Ok(()),
        }
    }

    fn name_length(&self, variable: &Export) -> usize {
        match leaf_at(self.connector, usize::from(variable.leaf)) {
            Some(port) => length_of_port(self.atoms, port, variable.export),
            None => 0,
        }
    }
}

/// Prints a variable that a port exports after the name of its atom; nothing if the atom is not there.
fn print_variable_of_port<W: Write>(
    atoms: &[Atom],
    port: Port,
    export: u8,
    output: &mut W,
) -> Result<(), WriteFault>
    ensures { Prints result (W.contents output.old) (W.contents output.new) (variable_of_port (map definition_of atoms.now) port export) }
{
    match atoms.get(usize::from(port.atom)) {
        Some(atom) => print_variable_of_atom(atom, port.port, export, output),
        None => Ok(()),
    }
}

/// Prints a variable that a port of the atom exports after the name of the atom.
fn print_variable_of_atom<W: Write>(
    atom: &Atom,
    port: u16,
    export: u8,
    output: &mut W,
) -> Result<(), WriteFault>
    ensures { Prints result (W.contents output.old) (W.contents output.new) ((definition_of atom.now).name ++ codes "." ++ exported_name (definition_of atom.now) port export) }
{
    print_text(output, atom.name().as_bytes())?;
    print_text(output, b".")?;
    print_text(output, exported_name(atom, port, export))
}

/// How many bytes the name of a variable that a port exports has, after that of its atom; 0 if the atom is not there.
fn length_of_port(atoms: &[Atom], port: Port, export: u8) -> usize
    ensures { result ≡ length (variable_of_port (map definition_of atoms.now) port export) }
{
    match atoms.get(usize::from(port.atom)) {
        Some(atom) => length_of_both(
            atom.name().as_bytes(),
            exported_name(atom, port.port, export),
        ),
        None => 0,
    }
}

/// How many bytes two names with a dot between them have.
pub(crate) fn length_of_both(first: &[u8], second: &[u8]) -> usize
    ensures { result ≡ length (first.now ++ codes "." ++ second.now) }
{
    first.len() + 1 + second.len()
}

/// The name of a variable that a port exports, by its place among those; empty if it exports no such one.
fn exported_name(atom: &Atom, port: u16, export: u8) -> &[u8]
    ensures { result.now ≡ exported_name (definition_of atom.now) port export }
{
    match atom.exports(port).get(usize::from(export)) {
        Some(variable) => atom.variable_name(*variable),
        None => &[],
    }
}
