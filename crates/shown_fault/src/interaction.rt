//! The interaction of a text with a number.
ghost use Rattle.std.specs.Prelude.{◌≡◌, IfOk, slice_get, option_map};
ghost use Rattle.connector_tree.specs.Tree.{tree_of};
ghost use Rattle.connector_tree.specs.Tokens.{tokens_of};
ghost use Rattle.connector_tree.specs.TokenMeaning.{interactions_in};
ghost use Rattle.shown_fault.specs.Lent.{lists_of};
ghost use Rattle.shown_fault.specs.Interaction.{number_of, port_of, masks_in, interaction_shown, interaction_in};

use crate::front::skip_words;
use crate::names::second_word;
use connector_lines::{Ports, TreeWordsFault, read_tree};
use connector_tree::{Connector, Mask, Port, interactions};
use plant_words::Words;
use std::alloc::{AllocError, Global};

/// How many atoms the number of a port's atom tells apart.
pub(crate) const ATOM_NUMBERS: usize = 65_536;

/// The atoms of a text by their names. Each has a port with any name: which interactions a tree has is not a matter of its ports.
#[derive(Drop)]
pub(crate) struct AtomNames<'a> {
    pub(crate) names: &'a [&'a [u8]],
}

impl Ports for AtomNames<'_> {
    ghost use Rattle.shown_fault.specs.Lent.{lists_of};
    ghost use Rattle.shown_fault.specs.Interaction.{atom_port};

    ghost port_named = { λ atoms atom _. atom_port (lists_of atoms.names.now) atom };

    fn find_port(&self, atom: &[u8], _port: &[u8]) -> Option<Port> {
        port_of(number_of(self.names, atom)?)
    }
}

/// The number of the first of the names that is this one.
fn number_of(names: &[&[u8]], atom: &[u8]) -> Option<usize>
    ensures { result ≡ number_of (lists_of names.now) atom.now }
{
    for (index, name) in names.iter().enumerate() {
        if *name == atom {
            return Some(index);
        }
    }
    None
}

/// A port of the atom with this number.
fn port_of(number: usize) -> Option<Port>
    ensures { result ≡ port_of number }
{
    if number < ATOM_NUMBERS {
        Some(Port {
            atom: number as u16,
            port: 0,
        })
    } else {
        None
    }
}

/// An interaction of a text: the name of its connector, and its mask.
#[derive(Clone, Copy, Drop)]
pub(crate) struct Interaction<'t> {
    pub(crate) connector: &'t [u8],
    pub(crate) mask: Mask,
}

/// The interaction with this number: they are numbered from 0, by connector and then by mask.
pub(crate) fn interaction_in<'t>(
    alloc: Global,
    lines: &[&'t [u8]],
    atoms: &AtomNames<'_>,
    number: usize,
) -> Result<Option<Interaction<'t>>, AllocError>
    ensures { IfOk result (λ found. option_map interaction_shown found ≡ interaction_in (lists_of atoms.now.names.now) number (lists_of lines.now)) }
{
    let mut left = number;
    for line in lines {
        if let Some(connector) = second_word(line, b"connector") {
            let masks = masks_in(alloc, line, atoms)?;
            if let Some(mask) = mask_at(&masks, left) {
                return Ok(Some(Interaction { connector, mask }));
            }
            left = left.saturating_sub(masks.len());
        }
    }
    Ok(None)
}

/// The mask with this number.
fn mask_at(masks: &[Mask], number: usize) -> Option<Mask>
    ensures { result ≡ slice_get masks.now number }
{
    masks.get(number).copied()
}

/// The interactions of the connector of a line; none if its tree is no tree.
pub(crate) fn masks_in(
    alloc: Global,
    line: &[u8],
    atoms: &AtomNames<'_>,
) -> Result<Vec<Mask>, AllocError>
    ensures { IfOk result (λ masks. masks.items ≡ masks_in (lists_of atoms.now.names.now) line.now) }
{
    let mut words = Words::new(line);
    skip_words(&mut words, 2);
    match read_tree(alloc, &mut words, atoms) {
        Ok(connector) => masks_of(alloc, &connector),
        Err(TreeWordsFault::Memory) => Err(AllocError),
        Err(_) => Ok(Vec::new(alloc)),
    }
}

/// The interactions of a connector.
fn masks_of(alloc: Global, connector: &Connector) -> Result<Vec<Mask>, AllocError>
    ensures { IfOk result (λ masks. masks.items ≡ interactions_in (tokens_of (tree_of connector.now))) }
{
    match interactions(alloc, connector) {
        Ok(masks) => Ok(masks),
        Err(_) => Err(AllocError),
    }
}
