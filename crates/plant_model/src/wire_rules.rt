//! The rules that a wire has to keep beside those of its tree, as tests.
ghost use Rattle.std.specs.Prelude.{◌≡◌, ◌<◌, ◌≤◌, ◌++◌, map, length, None, slice_get};
ghost use Rattle.std.specs.List.{list_all, list_any};
ghost use Rattle.petri_atom.specs.Atom.{definition_of};
ghost use Rattle.petri_atom.specs.Definition.{is_each_once};
ghost use Rattle.petri_atom.specs.Expression.{tree_of, all_variables};
ghost use Rattle.petri_atom.specs.Name.{is_same_text};
ghost use Rattle.connector_tree.specs.Tree.{leaves};
ghost use Rattle.plant_model.specs.Rules.{first_fault_in, tree_fault, is_known_port, is_known_export, is_known_input, is_exported, has_value, names_known, is_same_export, first_broken, fault_of_wire, wire_fault};
ghost use Rattle.plant_model.specs.Wire.{wire_of, transfer_of};
ghost use Rattle.plant_model.specs.declared.limits.TheConstants.{MAX_WIRES};

use crate::fault::{SystemFault, WireFault};
use crate::wire::{Export, Input, Transfer, Wire};
use connector_tree::{LeafRow, Port};
use petri_atom::{Atom, Expression, Name, VariableTest};

/// The first wire that breaks a rule of those that are not about its tree alone. It takes no memory.
pub(crate) fn fault_of_wires(atoms: &[Atom], wires: &[Wire]) -> Option<SystemFault>
    requires few { length wires.now ≤ MAX_WIRES }
    requires trees { first_fault_in tree_fault 0 (map wire_of wires.now) ≡ None }
    ensures { result ≡ first_fault_in (wire_fault (map definition_of atoms.now) (map wire_of wires.now)) 0 (map wire_of wires.now) }
{
    for (number, wire) in wires.iter().enumerate() {
        let row = LeafRow::of(&wire.connector);
        if let Some(fault) = wire_fault(atoms, wires, number, wire, row.as_slice()) {
            return Some(fault);
        }
    }
    None
}

/// The fault of the wire with the number, whose leaves are `ports`.
fn wire_fault(
    atoms: &[Atom],
    wires: &[Wire],
    number: usize,
    wire: &Wire,
    ports: &[Port],
) -> Option<SystemFault>
    requires few { length wires.now ≤ MAX_WIRES }
    requires there { number < length wires.now }
    requires ports { ports.now ≡ leaves (wire_of wire.now).connector }
    ensures { result ≡ wire_fault (map definition_of atoms.now) (map wire_of wires.now) number (wire_of wire.now) }
{
    match fault_of_wire(atoms, &wires[..number], wire, ports) {
        Some(fault) => Some(SystemFault::BadWire(number as u16, fault)),
        None => None,
    }
}

/// The first rule that the wire breaks; `earlier` are the wires before it.
fn fault_of_wire(atoms: &[Atom], earlier: &[Wire], wire: &Wire, ports: &[Port]) -> Option<WireFault>
    requires { ports.now ≡ leaves (wire_of wire.now).connector }
    ensures { result ≡ fault_of_wire (map definition_of atoms.now) (map wire_of earlier.now) (wire_of wire.now) }
{
    let known = Exported { atoms, ports };
    first_broken(
        has_name(earlier, &wire.name),
        are_known_ports(atoms, ports),
        are_known_clauses(&known, &wire.guards)
            & name_known_variables(&known, &wire.transfers)
            & are_known_inputs(&known, &wire.inputs),
        are_each_once(&wire.transfers, &wire.inputs),
        have_values(&wire.inputs),
    )
}

/// The first rule that is broken: a name of its own, ports that are there, variables that are there, each target once, a value for each input.
fn first_broken(
    has_name: bool,
    has_ports: bool,
    has_variables: bool,
    has_targets_once: bool,
    has_values: bool,
) -> Option<WireFault>
    ensures { result ≡ first_broken has_name has_ports has_variables has_targets_once has_values }
{
    if has_name {
        Some(WireFault::NameTwice)
    } else if !has_ports {
        Some(WireFault::UnknownPort)
    } else if !has_variables {
        Some(WireFault::UnknownVariable)
    } else if !has_targets_once {
        Some(WireFault::TargetTwice)
    } else if !has_values {
        Some(WireFault::EmptyRange)
    } else {
        None
    }
}

/// Whether one of the wires has the name.
fn has_name(wires: &[Wire], name: &Name) -> bool
    ensures { result ≡ list_any (λ w. is_same_text w.name name.now) wires.now }
{
    wires.iter().any(|wire| wire.name.same(name))
}

/// Whether the atom and the port of each leaf are there.
fn are_known_ports(atoms: &[Atom], leaves: &[Port]) -> bool
    ensures { result ≡ list_all (is_known_port (map definition_of atoms.now)) leaves.now }
{
    leaves.iter().all(|leaf| is_known_port(atoms, leaf))
}

/// Whether the atom and the port of a leaf are there.
fn is_known_port(atoms: &[Atom], leaf: &Port) -> bool
    ensures { result ≡ is_known_port (map definition_of atoms.now) leaf.now }
{
    match atoms.get(usize::from(leaf.atom)) {
        Some(atom) => usize::from(leaf.port) < atom.ports().len(),
        None => false,
    }
}

/// The variables that the ports of some leaves export.
#[derive(Drop)]
struct Exported<'a> {
    atoms: &'a [Atom],
    ports: &'a [Port],
}

impl VariableTest<Export> for Exported<'_> {
    ghost use Rattle.std.specs.Prelude.{map};
    ghost use Rattle.petri_atom.specs.Atom.{definition_of};
    ghost use Rattle.plant_model.specs.Rules.{is_known_export};

    ghost passes = { λ known e. is_known_export (map definition_of known.atoms.now) known.ports.now e };

    /// Whether the leaf is there, and its port exports such a variable.
    fn passes(&self, variable: &Export) -> bool {
        match self.ports.get(usize::from(variable.leaf)) {
            Some(leaf) => exports(self.atoms, leaf, variable.export),
            None => false,
        }
    }
}

/// Whether the port of the leaf exports a variable with the number.
fn exports(atoms: &[Atom], leaf: &Port, export: u8) -> bool
    ensures { result ≡ is_exported (map definition_of atoms.now) leaf.now export }
{
    match atoms.get(usize::from(leaf.atom)) {
        Some(atom) => usize::from(export) < atom.exports(leaf.port).len(),
        None => false,
    }
}

/// Whether each exported variable that the guard clauses name is there.
fn are_known_clauses(known: &Exported, clauses: &[Expression<Export>]) -> bool
    ensures { result ≡ list_all (λ clause. all_variables (is_known_export (map definition_of known.now.atoms.now) known.now.ports.now) (tree_of clause)) clauses.now }
{
    clauses.iter().all(|clause| clause.all_variables(known))
}

/// Whether each exported variable that the transfers name is there.
fn name_known_variables(known: &Exported, transfers: &[Transfer]) -> bool
    ensures { result ≡ list_all (λ t. names_known (map definition_of known.now.atoms.now) known.now.ports.now (transfer_of t)) transfers.now }
{
    transfers
        .iter()
        .all(|transfer| names_known(known, transfer))
}

/// Whether each exported variable that the transfer names is there.
fn names_known(known: &Exported, transfer: &Transfer) -> bool
    ensures { result ≡ names_known (map definition_of known.now.atoms.now) known.now.ports.now (transfer_of transfer.now) }
{
    known.passes(&transfer.target) & transfer.value.all_variables(known)
}

/// Whether the exported variable of each input is there.
fn are_known_inputs(known: &Exported, inputs: &[Input]) -> bool
    ensures { result ≡ list_all (is_known_input (map definition_of known.now.atoms.now) known.now.ports.now) inputs.now }
{
    inputs.iter().all(|input| known.passes(&input.target))
}

/// Whether some value lies in the range of each input.
fn have_values(inputs: &[Input]) -> bool
    ensures { result ≡ list_all has_value inputs.now }
{
    inputs.iter().all(|input| input.low <= input.high)
}

/// Whether no two transfers or inputs have the same target.
fn are_each_once(transfers: &[Transfer], inputs: &[Input]) -> bool
    ensures { result ≡ is_each_once is_same_export (map (λ t. t.target) transfers.now ++ map (λ i. i.target) inputs.now) }
{
    match transfers {
        [] => are_inputs_once(inputs),
        [first, later @ ..] => {
            !(has_target(later, first.target) | is_input(inputs, first.target))
                & are_each_once(later, inputs)
        }
    }
}

/// Whether no two inputs have the same target.
fn are_inputs_once(inputs: &[Input]) -> bool
    ensures { result ≡ is_each_once is_same_export (map (λ i. i.target) inputs.now) }
{
    match inputs {
        [] => true,
        [first, later @ ..] => !is_input(later, first.target) & are_inputs_once(later),
    }
}

/// Whether one of the inputs has the target.
fn is_input(inputs: &[Input], target: Export) -> bool
    ensures { result ≡ list_any (λ e. is_same_export e target) (map (λ i. i.target) inputs.now) }
{
    match inputs {
        [] => false,
        [first, later @ ..] => is_same(first.target, target) | is_input(later, target),
    }
}

/// Whether one of the transfers has the target.
fn has_target(transfers: &[Transfer], target: Export) -> bool
    ensures { result ≡ list_any (λ e. is_same_export e target) (map (λ t. t.target) transfers.now) }
{
    match transfers {
        [] => false,
        [first, later @ ..] => is_same(first.target, target) | has_target(later, target),
    }
}

/// Whether the two are the same variable of the same leaf.
fn is_same(one: Export, other: Export) -> bool
    ensures { result ≡ is_same_export one other }
{
    (one.leaf == other.leaf) & (one.export == other.export)
}
