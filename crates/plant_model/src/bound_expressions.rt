//! Guard clauses and transfers with their variables found, once when a plant is made: each by its atom and its number there, so
//! that no step looks for it by leaf, port and place among what the port exports.
ghost use Rattle.std.specs.Prelude.{◌≡◌, ◌<◌, ℕ, IfOk, None, Some, filter, if◌then◌else◌, length, map, nat_lt, option_map, slice_get};
ghost use Rattle.petri_atom.specs.Atom.{definition_of};
ghost use Rattle.petri_atom.specs.Expression.{tree_of, variable};
ghost use Rattle.petri_atom.specs.declared.state.TheConstants.{MAX_EXPORTS};
ghost use Rattle.priority_filter.specs.Members.{has_bit};
ghost use Rattle.plant_model.specs.BoundExpressions.{leaf_bit, leaves_in, has_all, found, variable_of, variable_of_port, clause_of, clause_by, delivery_of, delivery_by, has_target, input_by, input_of, inputs_of, is_lower, bound_of, bound_by, AreGuarding, AreDelivering};
ghost use Rattle.plant_model.specs.Wire.{transfer_of, wire_of};

use crate::bound_input::BoundInput;
use crate::bound_value::BoundValue;
use crate::delivery::{Deliveries, Delivery};
use crate::wire::{Export, Input, Transfer, Wire};
use connector_tree::{Mask, Port};
use petri_atom::{Atom, Expression, MAX_EXPORTS};
use std::alloc::{AllocError, Global};

/// A variable of an atom, by the numbers of both.
#[derive(Clone, Copy)]
pub(crate) struct AtomVariable {
    pub(crate) atom: u16,
    pub(crate) variable: u8,
}

/// A guard clause, with the leaves that it names: bit j for leaf j, and bit 16 for any that no mask has room for.
#[derive(Drop)]
pub(crate) struct Clause {
    pub(crate) leaves: u32,
    pub(crate) value: BoundValue,
}

/// The guard clauses, the transfers and the inputs of a wire, in written order, with their variables found; of an input without a
/// target nothing.
#[derive(Drop)]
pub struct BoundExpressions {
    pub(crate) clauses: Vec<Clause>,
    pub(crate) deliveries: Deliveries,
    pub(crate) inputs: Vec<Option<BoundInput>>,
}

impl BoundExpressions {
    /// What is found of the wire among these atoms.
    fn of(alloc: Global, atoms: &[Atom], wire: &Wire) -> Result<Self, AllocError>
        ensures { IfOk result (λ bound. bound_of bound ≡ bound_by (map definition_of atoms.now) (wire_of wire.now)) }
    {
        let ports = connector_tree::leaves(alloc, &wire.connector)?;
        let clauses = clauses_of(alloc, atoms, &ports, &wire.guards)?;
        let found = deliveries_of(alloc, atoms, &ports, &wire.transfers)?;
        let deliveries = Deliveries::of(alloc, found)?;
        let inputs = inputs_of(alloc, &ports, &wire.inputs)?;
        Ok(BoundExpressions {
            clauses,
            deliveries,
            inputs,
        })
    }
}

/// What is found of each wire.
pub(crate) fn bound_wires(
    alloc: Global,
    atoms: &[Atom],
    wires: &[Wire],
) -> Result<Vec<BoundExpressions>, AllocError>
    ensures guarding { IfOk result (λ all. AreGuarding (map definition_of atoms.now) (map wire_of wires.now) all.items) }
    ensures delivering { IfOk result (λ all. AreDelivering (map definition_of atoms.now) (map wire_of wires.now) all.items) }
    ensures as_many { IfOk result (λ all. length all.items ≡ length wires.now) }
{
    let mut all = Vec::with_capacity(alloc, wires.len())?;
    for wire in wires {
        all.push(BoundExpressions::of(alloc, atoms, wire)?)?;
    }
    Ok(all)
}

/// What is found of the guard clauses, where the leaves have these ports.
fn clauses_of(
    alloc: Global,
    atoms: &[Atom],
    ports: &[Port],
    written: &[Expression<Export>],
) -> Result<Vec<Clause>, AllocError>
    ensures { IfOk result (λ all. map clause_of all.items ≡ map (clause_by (map definition_of atoms.now) ports.now) (map tree_of written.now)) }
{
    let mut all = Vec::with_capacity(alloc, written.len())?;
    for clause in written {
        let value = BoundValue::of(alloc, found(alloc, atoms, ports, clause)?)?;
        all.push(Clause {
            leaves: leaves_in(clause),
            value,
        })?;
    }
    Ok(all)
}

/// What is found of the transfers that have a target, where the leaves have these ports.
fn deliveries_of(
    alloc: Global,
    atoms: &[Atom],
    ports: &[Port],
    written: &[Transfer],
) -> Result<Vec<Delivery>, AllocError>
    ensures { IfOk result (λ all. map delivery_of all.items ≡ filter has_target (map (delivery_by (map definition_of atoms.now) ports.now) (map transfer_of written.now))) }
{
    let mut all = Vec::with_capacity(alloc, written.len())?;
    for transfer in written {
        if let Some(atom) = target_of(ports, transfer) {
            all.push(delivery_to(alloc, atoms, ports, transfer, atom)?)?;
        }
    }
    Ok(all)
}

/// The atom of the transfer's target, if that is a variable that a port of it can export.
fn target_of(ports: &[Port], transfer: &Transfer) -> Option<u16>
    ensures { result ≡ (if nat_lt transfer.now.target.export MAX_EXPORTS then option_map (λ p. p.atom) (slice_get ports.now transfer.now.target.leaf) else None) }
{
    if usize::from(transfer.target.export) < MAX_EXPORTS {
        atom_of(ports, transfer.target.leaf)
    } else {
        None
    }
}

/// What is found of a transfer to a variable of the atom.
fn delivery_to(
    alloc: Global,
    atoms: &[Atom],
    ports: &[Port],
    transfer: &Transfer,
    atom: u16,
) -> Result<Delivery, AllocError>
    requires exported { transfer.now.target.export < MAX_EXPORTS }
    requires atom { option_map (λ p. p.atom) (slice_get ports.now transfer.now.target.leaf) ≡ Some atom }
    ensures { IfOk result (λ delivery. delivery_of delivery ≡ delivery_by (map definition_of atoms.now) ports.now (transfer_of transfer.now)) }
{
    let target = transfer.target;
    let value = BoundValue::of(alloc, found(alloc, atoms, ports, &transfer.value)?)?;
    Ok(Delivery {
        leaves: leaf_bit(target.leaf) | leaves_in(&transfer.value),
        lower: lower_leaves(ports, atom),
        atom,
        export: target.export,
        bit: 1 << target.export,
        value,
    })
}

/// The leaves of atoms that stand before the atom: bit j for leaf j, of those that a mask has room for.
fn lower_leaves(ports: &[Port], atom: u16) -> u64
    ensures { (j : ℕ) → has_bit result j ≡ is_lower ports.now atom j }
{
    let mut lower = 0;
    for leaf in 0..ports.len() {
        if leaf < 16 && ports[leaf].atom < atom {
            lower |= 1 << leaf;
        }
    }
    lower
}

/// What is found of the inputs, where the leaves have these ports.
fn inputs_of(
    alloc: Global,
    ports: &[Port],
    written: &[Input],
) -> Result<Vec<Option<BoundInput>>, AllocError>
    ensures { IfOk result (λ all. inputs_of all.items ≡ map (input_by ports.now) written.now) }
{
    let mut all = Vec::with_capacity(alloc, written.len())?;
    for input in written {
        all.push(input_at(ports, input))?;
    }
    Ok(all)
}

/// What is found of the input, if it has a target.
fn input_at(ports: &[Port], input: &Input) -> Option<BoundInput>
    ensures { option_map input_of result ≡ input_by ports.now input.now }
{
    let target = input.target;
    if usize::from(target.export) >= MAX_EXPORTS {
        return None;
    }
    match ports.get(usize::from(target.leaf)) {
        Some(port) => Some(BoundInput {
            leaves: leaf_bit(target.leaf),
            lower: lower_leaves(ports, port.atom),
            atom: port.atom,
            export: target.export,
            bit: 1 << target.export,
        }),
        None => None,
    }
}

/// The expression with each exported variable found; one that is not there is 0.
fn found(
    alloc: Global,
    atoms: &[Atom],
    ports: &[Port],
    written: &Expression<Export>,
) -> Result<Expression<AtomVariable>, AllocError>
    ensures { IfOk result (λ expression. tree_of expression ≡ found (map definition_of atoms.now) ports.now (tree_of written.now)) }
{
    match written {
        Expression::Number(number) => Ok(Expression::Number(*number)),
        Expression::Variable(export) => Ok(one_found(atoms, ports, *export)),
        Expression::Not(operand) => {
            let operand = found(alloc, atoms, ports, operand)?;
            Ok(Expression::Not(Box::new(alloc, operand)?))
        }
        Expression::Apply(operator, left, right) => {
            let left = found(alloc, atoms, ports, left)?;
            let right = found(alloc, atoms, ports, right)?;
            Ok(Expression::Apply(*operator, Box::new(alloc, left)?, Box::new(alloc, right)?))
        }
    }
}

/// The exported variable as an expression; 0 if it is not there.
fn one_found(atoms: &[Atom], ports: &[Port], export: Export) -> Expression<AtomVariable>
    ensures { tree_of result ≡ found (map definition_of atoms.now) ports.now (variable export) }
{
    match variable_of(atoms, ports, export) {
        Some(variable) => Expression::Variable(variable),
        None => Expression::Number(0),
    }
}

/// The variable that the leaf exports, if there is one.
fn variable_of(atoms: &[Atom], ports: &[Port], export: Export) -> Option<AtomVariable>
    ensures { result ≡ variable_of (map definition_of atoms.now) ports.now export }
{
    match ports.get(usize::from(export.leaf)) {
        Some(port) => variable_of_port(atoms, port, export.export),
        None => None,
    }
}

/// The variable that the port exports, if there is one.
fn variable_of_port(atoms: &[Atom], port: &Port, export: u8) -> Option<AtomVariable>
    ensures { result ≡ variable_of_port (map definition_of atoms.now) port.now export }
{
    match atoms.get(usize::from(port.atom)) {
        Some(atom) => match atom.exports(port.port).get(usize::from(export)) {
            Some(variable) => Some(AtomVariable {
                atom: port.atom,
                variable: *variable,
            }),
            None => None,
        },
        None => None,
    }
}

/// The atom of the leaf, if there is such a leaf.
fn atom_of(ports: &[Port], leaf: u8) -> Option<u16>
    ensures { result ≡ option_map (λ p. p.atom) (slice_get ports.now leaf) }
{
    match ports.get(usize::from(leaf)) {
        Some(port) => Some(port.atom),
        None => None,
    }
}

/// The leaves that the expression names.
fn leaves_in(written: &Expression<Export>) -> u32
    ensures { result ≡ leaves_in (tree_of written.now) }
{
    match written {
        Expression::Number(_) => 0,
        Expression::Variable(export) => leaf_bit(export.leaf),
        Expression::Not(operand) => leaves_in(operand),
        Expression::Apply(_, left, right) => leaves_in(left) | leaves_in(right),
    }
}

/// The leaf as a set; one that no mask has room for as bit 16.
fn leaf_bit(leaf: u8) -> u32
    ensures { result ≡ leaf_bit leaf }
{
    if leaf < 16 { 1 << leaf } else { 1 << 16 }
}

/// Whether each of the leaves takes part.
pub(crate) fn has_all(mask: Mask, leaves: u32) -> bool
    ensures { result ≡ has_all mask leaves }
{
    u32::from(mask) & leaves == leaves
}
