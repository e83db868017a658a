//! The connector as its lines have written it so far.
ghost use Rattle.std.specs.Prelude.{◌≡◌, ◌≤◌, length, vec_len, map, Bool, true, false, IfOk, IfErr, OnOk, OnErr, Ok, []};
ghost use Rattle.petri_atom.specs.Expression.{tree_of};
ghost use Rattle.connector_tree.specs.Tree as connectors;
ghost use Rattle.connector_tree.specs.declared.tree.TheConstants.{MAX_LEAVES};
ghost use Rattle.plant_model.specs.Rules.{are_small_guards, are_small_transfers, is_small_wire};
ghost use Rattle.plant_model.specs.Wire.{wire_of, transfer_of};
ghost use Rattle.plant_model.specs.declared.wire.Export.{Export};
ghost use Rattle.plant_words.specs.LineFaults.{IsFaultOf, IsLast};
ghost use Rattle.connector_lines.specs.Rows.{has_target, has_targets_once, named_on, whole_expression, transfer_in, guard_row, transfer_row};
ghost use Rattle.connector_lines.specs.Exports.{variable_in};
ghost use Rattle.connector_lines.specs.Parts.{Passes, all_pass};

use crate::exports::{Exports, LeafVariables};
use crate::parts::{read_transfer, read_whole};
use connector_tree::{Connector, MAX_LEAVES, Port, leaves};
use petri_atom::{Expression, Name};
use plant_model::{Export, MAX_GUARDS, MAX_TRANSFERS, Transfer, Wire};
use plant_words::reading::check;
use plant_words::{LineFault, Words};
use std::alloc::{AllocError, Global};

/// A connector to which lines add guard clauses and transfers.
///
/// The `ghost` lines are for contracts alone: `ports` are those of the connector's leaves, and the lists keep the rules of a connector.
#[derive(Drop)]
pub struct WireDraft {
    alloc: Global,
    name: Name,
    connector: Connector,
    ports: Vec<Port>,
    guards: Vec<Expression<Export>>,
    transfers: Vec<Transfer>,
    ghost are_leaves: { ports.items ≡ connectors.leaves (connectors.tree_of connector) },
    ghost few_leaves: { vec_len ports ≤ MAX_LEAVES },
    ghost small_guards: { are_small_guards (map tree_of guards.items) ≡ true },
    ghost small_transfers: { are_small_transfers (map transfer_of transfers.items) ≡ true },
    ghost targets_once: { has_targets_once (map transfer_of transfers.items) ≡ true },
}

impl WireDraft {
    ghost use Rattle.connector_lines.specs.Draft.{drafted};

    /// The connector with the name, and neither guard clauses nor transfers.
    pub fn new(alloc: Global, name: Name, connector: Connector) -> Result<Self, AllocError>
        requires { length (connectors.leaves (connectors.tree_of connector)) ≤ MAX_LEAVES }
        ensures { IfOk result (λ draft. drafted draft ≡ record { name = name; connector = connectors.tree_of connector; guards = []; transfers = []; inputs = [] }) }
    {
        let ports = leaves(alloc, &connector)?;
        Ok(WireDraft {
            alloc,
            name,
            connector,
            ports,
            guards: Vec::new(alloc),
            transfers: Vec::new(alloc),
        })
    }

    /// The name of the connector.
    pub fn name(&self) -> &Name
        ensures { result.now ≡ (drafted self.now).name }
    {
        &self.name
    }

    /// The connector's tree.
    pub fn connector(&self) -> &Connector
        ensures { connectors.tree_of result.now ≡ (drafted self.now).connector }
    {
        &self.connector
    }

    /// The variables that the connector's leaves export.
    fn variables<'a, N: Exports>(&'a self, names: &'a N) -> LeafVariables<'a, N>
        ensures { variable_in (N.atom_named result.names.now) (N.export_named result.names.now) result.ports.now
            ≡ named_on (N.atom_named names.now) (N.export_named names.now) (drafted self.now) }
    {
        LeafVariables {
            ports: &self.ports,
            names,
        }
    }

    /// The guard clause that the words are.
    fn read_guard<N: Exports>(
        &self,
        words: &mut Words,
        names: &N,
    ) -> Result<Expression<Export>, LineFault>
        ensures guard { IfOk result (λ guard. whole_expression (named_on (N.atom_named names.now) (N.export_named names.now) (drafted self.now)) words.old ≡ Ok (tree_of guard)) }
        ensures fault { IfErr result (IsFaultOf (whole_expression (named_on (N.atom_named names.now) (N.export_named names.now) (drafted self.now)) words.old)) }
        ensures memory { IfErr result (IsLast (whole_expression (named_on (N.atom_named names.now) (N.export_named names.now) (drafted self.now)) words.old)) }
    {
        read_whole(self.alloc, words, &self.variables(names))
    }

    /// The transfer that the words describe.
    fn read_transfer<N: Exports>(&self, words: &mut Words, names: &N) -> Result<Transfer, LineFault>
        ensures transfer { IfOk result (λ transfer. transfer_in (named_on (N.atom_named names.now) (N.export_named names.now) (drafted self.now)) (drafted self.now).transfers words.old ≡ Ok (transfer_of transfer)) }
        ensures fault { IfErr result (IsFaultOf (transfer_in (named_on (N.atom_named names.now) (N.export_named names.now) (drafted self.now)) (drafted self.now).transfers words.old)) }
        ensures memory { IfErr result (IsLast (transfer_in (named_on (N.atom_named names.now) (N.export_named names.now) (drafted self.now)) (drafted self.now).transfers words.old)) }
        ensures new_target { IfOk result (λ transfer. has_target (drafted self.now).transfers transfer.target ≡ false) }
    {
        read_transfer(self.alloc, &self.transfers, words, &self.variables(names))
    }

    /// Adds the guard clause of a line `guard EXPR`, by the words after its first.
    pub fn add_guard<N: Exports>(&mut self, words: &mut Words, names: &N) -> Result<(), LineFault>
        ensures added { OnOk result (guard_row (N.atom_named names.now) (N.export_named names.now) words.old (drafted self.old) ≡ Ok (drafted self.new)) }
        ensures fault { IfErr result (IsFaultOf (guard_row (N.atom_named names.now) (N.export_named names.now) words.old (drafted self.old))) }
        ensures memory { IfErr result (IsLast (guard_row (N.atom_named names.now) (N.export_named names.now) words.old (drafted self.old))) }
        ensures unchanged { OnErr result (drafted self.new ≡ drafted self.old) }
        ensures known { OnOk result ((test : Export → Bool) → Passes test (named_on (N.atom_named names.now) (N.export_named names.now) (drafted self.old)) → all_pass test (drafted self.old) ≡ true → all_pass test (drafted self.new) ≡ true) }
    {
        check(self.guards.len() < MAX_GUARDS, LineFault::Limit)?;
        let guard = self.read_guard(words, names)?;
        self.guards.push(guard)?;
        Ok(())
    }

    /// Adds the transfer of a line `move ATOM.VAR := EXPR`, by the words after its first.
    pub fn add_transfer<N: Exports>(
        &mut self,
        words: &mut Words,
        names: &N,
    ) -> Result<(), LineFault>
        ensures added { OnOk result (transfer_row (N.atom_named names.now) (N.export_named names.now) words.old (drafted self.old) ≡ Ok (drafted self.new)) }
        ensures fault { IfErr result (IsFaultOf (transfer_row (N.atom_named names.now) (N.export_named names.now) words.old (drafted self.old))) }
        ensures memory { IfErr result (IsLast (transfer_row (N.atom_named names.now) (N.export_named names.now) words.old (drafted self.old))) }
        ensures unchanged { OnErr result (drafted self.new ≡ drafted self.old) }
        ensures known { OnOk result ((test : Export → Bool) → Passes test (named_on (N.atom_named names.now) (N.export_named names.now) (drafted self.old)) → all_pass test (drafted self.old) ≡ true → all_pass test (drafted self.new) ≡ true) }
    {
        check(self.transfers.len() < MAX_TRANSFERS, LineFault::Limit)?;
        let transfer = self.read_transfer(words, names)?;
        self.transfers.push(transfer)?;
        Ok(())
    }

    /// The connector with the parts that were added. No line adds an input.
    pub fn into_wire(self) -> Wire
        ensures wire { wire_of result ≡ drafted self }
        ensures small { is_small_wire (drafted self) ≡ true }
        ensures targets_once { has_targets_once (drafted self).transfers ≡ true }
    {
        Wire {
            name: self.name,
            connector: self.connector,
            guards: self.guards,
            transfers: self.transfers,
            inputs: Vec::new(self.alloc),
        }
    }
}
