//! A connector so far, with its interactions.
ghost use Rattle.std.specs.Prelude.{◌≡◌, map, IfOk, IfErr, OnOk, Ok, None, []};
ghost use Rattle.connector_tree.specs.Tree.{tree_of};
ghost use Rattle.connector_tree.specs.Faults.{fault_of};
ghost use Rattle.atom_lines.specs.Draft.{drafted};
ghost use Rattle.plant_words.specs.LineFaults.{IsFaultOf};
ghost use Rattle.connector_tree.specs.Tokens.{tokens_of};
ghost use Rattle.connector_tree.specs.TokenMeaning.{interactions_in};
ghost use Rattle.plant_text.specs.Wires.{wire_drafted};
ghost use Rattle.plant_text.specs.Rows.{wire_part_row};
ghost use Rattle.plant_text.specs.declared.fault.Fault.TheVariants as fault;

use crate::fault::Fault;
use crate::names::AtomTable;
use connector_lines::WireDraft;
use connector_tree::{Connector, Mask, interactions};
use petri_atom::Name;
use plant_words::{LineFault, WirePart, Words};
use std::alloc::Global;

/// A connector so far, with its interactions. The `ghost` line is for contracts alone: the masks are the interactions of the connector's tree.
#[derive(Drop)]
pub(crate) struct ListedWire {
    pub(crate) draft: WireDraft,
    pub(crate) masks: Vec<Mask>,
    ghost all: { masks.items ≡ interactions_in (wire_drafted draft).tree },
}

impl ListedWire {
    ghost use Rattle.plant_text.specs.Parts.{wire_listed};

    /// The connector with the name, and neither guard clauses nor transfers.
    pub(crate) fn new(alloc: Global, name: Name, connector: Connector) -> Result<Self, Fault>
        requires { fault_of (tree_of connector) ≡ None }
        ensures wire { IfOk result (λ wire. wire_listed wire ≡ record { name = name; tree = tokens_of (tree_of connector); guards = []; transfers = []; inputs = [] }) }
        ensures fault { IfErr result (λ told. told ≡ fault.Memory) }
    {
        let masks = masks_of(alloc, &connector)?;
        let draft = WireDraft::new(alloc, name, connector)?;
        Ok(ListedWire { draft, masks })
    }

    /// Adds a part to the connector, by the words after the line's first.
    pub(crate) fn add_part(
        &mut self,
        part: WirePart,
        words: &mut Words,
        table: &AtomTable,
    ) -> Result<(), LineFault>
        ensures added { OnOk result (wire_part_row part (map drafted table.now.drafts.now) words.old (wire_listed self.old) ≡ Ok (wire_listed self.new)) }
        ensures fault { IfErr result (IsFaultOf (wire_part_row part (map drafted table.now.drafts.now) words.old (wire_listed self.old))) }
        ensures same_name { (wire_listed self.new).name ≡ (wire_listed self.old).name }
    {
        change_wire(&mut self.draft, part, words, table)
    }
}

/// The interactions of a connector.
fn masks_of(alloc: Global, connector: &Connector) -> Result<Vec<Mask>, Fault>
    requires { fault_of (tree_of connector.now) ≡ None }
    ensures masks { IfOk result (λ masks. masks.items ≡ interactions_in (tokens_of (tree_of connector.now))) }
    ensures fault { IfErr result (λ told. told ≡ fault.Memory) }
{
    match interactions(alloc, connector) {
        Ok(masks) => Ok(masks),
        Err(_) => Err(Fault::Memory),
    }
}

/// Adds a part to the connector, by the words after the line's first.
fn change_wire(
    wire: &mut WireDraft,
    part: WirePart,
    words: &mut Words,
    table: &AtomTable,
) -> Result<(), LineFault>
    ensures added { OnOk result (wire_part_row part (map drafted table.now.drafts.now) words.old (wire_drafted wire.old) ≡ Ok (wire_drafted wire.new)) }
    ensures fault { IfErr result (IsFaultOf (wire_part_row part (map drafted table.now.drafts.now) words.old (wire_drafted wire.old))) }
    ensures same_tree { (wire_drafted wire.new).tree ≡ (wire_drafted wire.old).tree }
    ensures same_name { (wire_drafted wire.new).name ≡ (wire_drafted wire.old).name }
{
    match part {
        WirePart::Guard => wire.add_guard(words, table),
        WirePart::Transfer => wire.add_transfer(words, table),
    }
}
