//! Systems: the atoms, wires and priority rules of a plant, which keep each rule of one, and what is prepared for its steps.
ghost use Rattle.std.specs.Prelude.{◌≡◌, ◌≤◌, None, map, length, ◌≢◌, true, IfOk, IfErr, OnOk, Some, []};
ghost use Rattle.petri_atom.specs.Atom.{definition_of};
ghost use Rattle.connector_tree.specs.Tree.{leaves};
ghost use Rattle.plant_model.specs.Choice.{named, plant_interactions, interactions_from, interactions_of_connector};
ghost use Rattle.plant_model.specs.Interaction.{interaction_of};
ghost use Rattle.plant_model.specs.Made.{plant_by};
ghost use Rattle.plant_model.specs.BoundExpressions.{AreGuarding, AreDelivering};
ghost use Rattle.plant_model.specs.Rules.{fault_of, first_fault, fault_of_count, IsFaultOf};
ghost use Rattle.plant_model.specs.ConnectorRows.{AreConnectorRows};
ghost use Rattle.plant_model.specs.Ranks.{AreRanks};
ghost use Rattle.plant_model.specs.Reach.{IsReach};
ghost use Rattle.plant_model.specs.Usual.{AreUsual, leaves_of};
ghost use Rattle.plant_model.specs.Wire.{wire_of};
ghost use Rattle.std.specs.List.{list_all};
ghost use Rattle.petri_atom.specs.Definition.{is_well_formed};
ghost use Rattle.priority_filter.specs.Decided.{order_fault};
ghost use Rattle.plant_model.specs.declared.limits.TheConstants.{MAX_ATOMS, MAX_INTERACTIONS, MAX_WIRES};

use crate::bound_expressions::{BoundExpressions, bound_wires};
use crate::connector_rows::{ConnectorRows, connector_rows};
use crate::fault::SystemFault;
use crate::interaction::Interaction;
use crate::interactions::connector_interactions;
use crate::limits::MAX_INTERACTIONS;
use crate::ranks::{Ranks, ranks_of};
use crate::reach::{Reach, reach_of};
use crate::usual::{Usual, usual_of};
use crate::wire::Wire;
use crate::{rules, wire_rules};
use connector_tree::Port;
use petri_atom::Atom;
use priority_filter::{Order, OrderFault, Rule};
use std::alloc::{AllocError, Global};

/// A plant: its atoms and its wires, each numbered from 0 in the order of their lists, its priority rules, and the digest of
/// the text that it was read from.
///
/// It keeps each rule of a plant, so that what can be asked of it cannot fail. It has all interactions at hand, the leaves of each
/// connector, its guard clauses and transfers with their variables found, and the order of the priority rules, so that no step takes
/// memory. It has the interactions of each connector as sets, what a change at an atom reaches, what the most usual firings change, and
/// where each connector stands by the rules.
#[derive(Drop)]
pub struct System {
    /// The atoms, in the order of their numbers.
    pub atoms: Vec<Atom>,
    /// The wires, in the order of their numbers.
    pub wires: Vec<Wire>,
    pub(crate) digest: [u8; 32],
    /// The ports of the leaves of each wire.
    pub ports: Vec<Vec<Port>>,
    /// The guard clauses and the transfers of each wire, with their variables found.
    pub bound: Vec<BoundExpressions>,
    /// The interactions, in the order of their numbers.
    pub interactions: Vec<Interaction>,
    /// The order that the priority rules put on the interactions.
    pub order: Order,
    /// The interactions of each connector, as a range of numbers and as sets of those that a leaf or a guard clause can rule out.
    pub connector_rows: Vec<ConnectorRows>,
    /// The leaves and the connectors that a change at an atom reaches.
    pub reach: Reach,
    /// What the most usual firings change at the leaves of the connectors, by atom and transition; nothing of the other transitions.
    pub usual: Vec<Vec<Option<Usual>>>,
    /// Where each connector stands among the others by the priority rules without a condition.
    pub ranks: Ranks,
    ghost valid: { fault_of (plant_by atoms.items wires.items order.rules) ≡ None },
    ghost leaves: { map (λ list. list.items) ports.items ≡ map (λ w. leaves (wire_of w).connector) wires.items },
    ghost guarding: { AreGuarding (map definition_of atoms.items) (map wire_of wires.items) bound.items },
    ghost delivering: { AreDelivering (map definition_of atoms.items) (map wire_of wires.items) bound.items },
    ghost listed: { map interaction_of interactions.items ≡ plant_interactions (plant_by atoms.items wires.items order.rules) },
    ghost ordered: { order.interactions ≡ map named (map interaction_of interactions.items) },
    ghost all_bound: { length bound.items ≡ length wires.items },
    ghost in_rows: { AreConnectorRows (map wire_of wires.items) bound.items (map interaction_of interactions.items) connector_rows.items },
    ghost reached: { IsReach (length atoms.items) (map wire_of wires.items) reach },
    ghost foretold: { AreUsual (map definition_of atoms.items) (leaves_of (map wire_of wires.items)) (map (λ row. row.items) usual.items) },
    ghost ranked: { AreRanks (length wires.items) order.rules (map interaction_of interactions.items) ranks },
}

impl System {
    ghost use Rattle.plant_model.specs.System.{plant_of, digest_of};

    /// The plant of these atoms, wires and priority rules, or the first rule of plants that they break; `digest` is that of the
    /// text that they were read from.
    pub fn new(
        alloc: Global,
        atoms: Vec<Atom>,
        wires: Vec<Wire>,
        rules: &[Rule],
        digest: [u8; 32],
    ) -> Result<Self, SystemFault>
        ensures made { IfOk result (λ system. plant_of system ≡ plant_by atoms.items wires.items rules.now) }
        ensures digest { IfOk result (λ system. digest_of system ≡ digest) }
        ensures sound { IfOk result (λ _. fault_of (plant_by atoms.items wires.items rules.now) ≡ None) }
        ensures fault { IfErr result (λ fault. IsFaultOf fault (plant_by atoms.items wires.items rules.now)) }
    {
        if let Some(fault) = first_fault(&atoms, &wires, rules) {
            return Err(fault);
        }
        let ports = leaves_of_wires(alloc, &wires)?;
        let bound = bound_wires(alloc, &atoms, &wires)?;
        let interactions = interactions_of_wires(alloc, atoms.len() as u16, &wires)?;
        if let Some(fault) = fault_of_count(interactions.len()) {
            return Err(fault);
        }
        let order = order_of(alloc, rules, &interactions)?;
        let connector_rows = connector_rows(alloc, &wires, &ports, &bound, &interactions)?;
        let reach = reach_of(alloc, atoms.len(), &wires, &ports)?;
        let usual = usual_of(alloc, &atoms, &ports)?;
        let ranks = ranks_of(alloc, &order, &connector_rows, &interactions)?;
        Ok(System {
            atoms,
            wires,
            digest,
            ports,
            bound,
            interactions,
            order,
            connector_rows,
            reach,
            usual,
            ranks,
        })
    }
}

impl System {
    ghost use Rattle.plant_model.specs.Plant.{wire_name};
    ghost use Rattle.plant_model.specs.System.{plant_of, digest_of};

    /// The atoms, in the order of their numbers.
    pub fn atoms(&self) -> &[Atom]
        ensures { map definition_of result.now ≡ (plant_of self.now).atoms }
    {
        &self.atoms
    }

    /// The wires, in the order of their numbers.
    pub fn wires(&self) -> &[Wire]
        ensures { map wire_of result.now ≡ (plant_of self.now).wires }
    {
        &self.wires
    }

    /// The name of the connector with this number; empty if it is not there.
    pub fn wire_name(&self, connector: u16) -> &[u8]
        ensures { result.now ≡ wire_name (plant_of self.now) connector }
    {
        match self.wires().get(usize::from(connector)) {
            Some(wire) => wire.name.as_bytes(),
            None => &[],
        }
    }

    /// The digest of the text that the plant was read from.
    pub fn digest(&self) -> &[u8; 32]
        ensures { result.now ≡ digest_of self.now }
    {
        &self.digest
    }

    /// Does nothing. Its clauses are what each system keeps by its type: it breaks no rule of a plant, each of its atoms breaks
    /// none of an atom, and there are few of them.
    pub fn keeps_its_rules(&self)
        ensures plant { fault_of (plant_of self.now) ≡ None }
        ensures atoms { list_all is_well_formed (plant_of self.now).atoms ≡ true }
        ensures few { length (plant_of self.now).atoms ≤ MAX_ATOMS }
    {}

    /// The interactions, in the order of their numbers: by their connectors, and then by their masks.
    pub fn interactions(&self) -> &[Interaction]
        ensures { map interaction_of result.now ≡ plant_interactions (plant_of self.now) }
    {
        &self.interactions
    }

    /// How many interactions the plant has.
    pub fn interaction_count(&self) -> usize
        ensures { result ≡ length (plant_interactions (plant_of self.now)) }
    {
        self.interactions.len()
    }

    /// The priority rules, as they were written.
    pub fn rules(&self) -> &[Rule]
        ensures { result.now ≡ (plant_of self.now).rules }
    {
        self.order.rules()
    }
}

/// The order that the rules put on the interactions.
fn order_of(
    alloc: Global,
    rules: &[Rule],
    interactions: &[Interaction],
) -> Result<Order, OrderFault>
    requires { length interactions.now ≤ MAX_INTERACTIONS }
    ensures rules { IfOk result (λ order. order.rules ≡ rules.now) }
    ensures interactions { IfOk result (λ order. order.interactions ≡ map named (map interaction_of interactions.now)) }
    ensures sound { OnOk result (order_fault rules.now (map named (map interaction_of interactions.now)) ≡ None) }
    ensures fault { IfErr result (λ fault. fault ≢ OrderFault.Memory → order_fault rules.now (map named (map interaction_of interactions.now)) ≡ Some fault) }
{
    Order::new(alloc, rules, &names_of(alloc, interactions)?)
}

/// The interactions as priority rules name them: each by its connector and its mask.
pub fn names_of(alloc: Global, interactions: &[Interaction]) -> Result<Vec<(u16, u16)>, AllocError>
    ensures { IfOk result (λ names. names.items ≡ map named (map interaction_of interactions.now)) }
{
    let mut names = Vec::with_capacity(alloc, interactions.len())?;
    for interaction in interactions {
        names.push((interaction.connector, interaction.mask))?;
    }
    Ok(names)
}

/// The first rule that is broken of those that are judged without memory.
fn first_fault(atoms: &[Atom], wires: &[Wire], rules: &[Rule]) -> Option<SystemFault>
    ensures { result ≡ first_fault (plant_by atoms.now wires.now rules.now) }
{
    match rules::early_fault(atoms, wires, rules) {
        Some(fault) => Some(fault),
        None => wire_rules::fault_of_wires(atoms, wires),
    }
}

/// The fault of a number of interactions.
fn fault_of_count(interactions: usize) -> Option<SystemFault>
    ensures { result ≡ fault_of_count interactions }
{
    if interactions > MAX_INTERACTIONS {
        Some(SystemFault::Limit)
    } else {
        None
    }
}

/// The leaves of each wire.
fn leaves_of_wires(alloc: Global, wires: &[Wire]) -> Result<Vec<Vec<Port>>, AllocError>
    ensures { IfOk result (λ lists. map (λ list. list.items) lists.items ≡ map (λ w. leaves (wire_of w).connector) wires.now) }
{
    let mut lists = Vec::with_capacity(alloc, wires.len())?;
    for wire in wires {
        lists.push(connector_tree::leaves(alloc, &wire.connector)?)?;
    }
    Ok(lists)
}

/// The interactions of the wires, numbered from 0, in a plant of so many atoms. The trees of the wires break no rule.
fn interactions_of_wires(
    alloc: Global,
    atoms: u16,
    wires: &[Wire],
) -> Result<Vec<Interaction>, AllocError>
    requires { length wires.now ≤ MAX_WIRES }
    ensures { IfOk result (λ all. map interaction_of all.items ≡ interactions_from atoms 0 (map wire_of wires.now)) }
{
    let mut all = Vec::new(alloc);
    for (number, wire) in wires.iter().enumerate() {
        match connector_interactions(alloc, atoms, number as u16, &wire.connector) {
            Ok(mut added) => all.append(&mut added)?,
            Err(_) => return Err(AllocError),
        }
    }
    Ok(all)
}
