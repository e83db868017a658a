//! What a change at an atom reaches: of each of its ports the leaves that stand on it and their connectors, and the connectors whose
//! guards can read the atom.
ghost use Rattle.std.specs.Prelude.{◌≡◌, ◌≤◌, ◌<◌, ◌++◌, ◌&&◌, ℕ, nat_lt, IfOk, OnOk, Some, map, length, slice_get};
ghost use Rattle.connector_tree.specs.Tree.{leaves};
ghost use Rattle.connector_tree.specs.declared.tree.TheConstants.{MAX_LEAVES};
ghost use Rattle.priority_filter.specs.Members.{has_bit};
ghost use Rattle.plant_model.specs.Reach.{IsPortReach, IsReach, can_read, has_atom, has_row, leaves_from, row_of_port};
ghost use Rattle.plant_model.specs.Plant.{WireDefinition};
ghost use Rattle.plant_model.specs.Wire.{wire_of};
ghost use Rattle.plant_model.specs.declared.limits.TheConstants.{MAX_ATOMS, MAX_WIRES};

use crate::wire::Wire;
use connector_tree::Port;
use petri_atom::MAX_PORTS;
use std::alloc::{AllocError, Global};

/// How many rows an atom has: one for each port that an atom may have, and one for all numbers past those.
pub const ATOM_ROWS: usize = MAX_PORTS + 1;

/// The place of the row of a port of the atom. All ports past those that an atom may have, at which nothing is ever offered, have one
/// row together.
pub fn port_row(atom: u16, port: u16) -> usize
    ensures { result ≡ row_of_port atom port }
{
    usize::from(atom) * ATOM_ROWS + usize::from(port).min(MAX_PORTS)
}

/// A leaf of a connector, by the numbers of both.
#[derive(Clone, Copy, PartialEq, Eq)]
pub struct ConnectorLeaf {
    pub connector: u16,
    pub leaf: u8,
}

/// What stands on a port.
#[derive(Drop)]
pub struct PortReach {
    /// The leaves, by connector and then by leaf.
    pub leaves: Vec<ConnectorLeaf>,
    /// Their connectors: bit k for connector k.
    pub connectors: u64,
}

/// What a change at an atom reaches.
#[derive(Drop)]
pub struct Reach {
    /// What stands on each port, at the place of the port's row.
    pub ports: Vec<PortReach>,
    /// Of each atom the connectors whose guards can read it, bit k for connector k.
    pub readers: Vec<u64>,
}

/// Adds those of a connector's leaves whose port has its row at the place, and says whether there is one.
fn push_leaves(
    leaves: &[Port],
    connector: u16,
    place: usize,
    into: &mut Vec<ConnectorLeaf>,
) -> Result<bool, AllocError>
    requires { length leaves.now ≤ MAX_LEAVES }
    ensures added { OnOk result (into.new.items ≡ into.old.items ++ leaves_from place connector 0 leaves.now) }
    ensures some { IfOk result (λ some. some ≡ has_row leaves.now place) }
{
    let mut some = false;
    for (leaf, port) in leaves.iter().enumerate() {
        if port_row(port.atom, port.port) == place {
            into.push(ConnectorLeaf {
                connector,
                leaf: leaf as u8,
            })?;
            some = true;
        }
    }
    Ok(some)
}

/// What stands on the port whose row is at the place.
fn reach_at(
    alloc: Global,
    wires: &[Wire],
    ports: &[Vec<Port>],
    place: usize,
) -> Result<PortReach, AllocError>
    requires few_wires { length wires.now ≤ MAX_WIRES }
    requires leaves { map (λ list. list.items) ports.now ≡ map (λ w. leaves (wire_of w).connector) wires.now }
    requires few_leaves { (n : ℕ) (w : WireDefinition) → slice_get (map wire_of wires.now) n ≡ Some w → length (leaves w.connector) ≤ MAX_LEAVES }
    ensures { IfOk result (λ reach. IsPortReach (map wire_of wires.now) place reach) }
{
    let mut leaves = Vec::new(alloc);
    let mut connectors = 0;
    for number in 0..wires.len() {
        let some = push_leaves(&ports[number], number as u16, place, &mut leaves)?;
        if some {
            connectors |= 1 << number;
        }
    }
    Ok(PortReach { leaves, connectors })
}

/// Whether one of the ports is of the atom.
fn has_atom(ports: &[Port], atom: usize) -> bool
    ensures { result ≡ has_atom ports.now atom }
{
    ports.iter().any(|port| usize::from(port.atom) == atom)
}

/// Whether the wire has guards, and one of its leaves, which have these ports, is of the atom.
fn is_reader(wire: &Wire, ports: &[Port], atom: usize) -> bool
    ensures { result ≡ (nat_lt 0 (length (wire_of wire.now).guards) && has_atom ports.now atom) }
{
    !wire.guards.is_empty() && has_atom(ports, atom)
}

/// The connectors whose guards can read the atom, bit k for connector k.
fn readers_of(wires: &[Wire], ports: &[Vec<Port>], atom: usize) -> u64
    requires few_wires { length wires.now ≤ MAX_WIRES }
    requires leaves { map (λ list. list.items) ports.now ≡ map (λ w. leaves (wire_of w).connector) wires.now }
    ensures { (k : ℕ) → has_bit result k ≡ can_read (map wire_of wires.now) atom k }
{
    let mut connectors = 0;
    for number in 0..wires.len() {
        if is_reader(&wires[number], &ports[number], atom) {
            connectors |= 1 << number;
        }
    }
    connectors
}

/// What a change at each of so many atoms reaches; `ports` are the leaves of the wires.
pub(crate) fn reach_of(
    alloc: Global,
    atoms: usize,
    wires: &[Wire],
    ports: &[Vec<Port>],
) -> Result<Reach, AllocError>
    requires atoms { atoms ≤ MAX_ATOMS }
    requires few_wires { length wires.now ≤ MAX_WIRES }
    requires leaves { map (λ list. list.items) ports.now ≡ map (λ w. leaves (wire_of w).connector) wires.now }
    requires few_leaves { (n : ℕ) (w : WireDefinition) → slice_get (map wire_of wires.now) n ≡ Some w → length (leaves w.connector) ≤ MAX_LEAVES }
    ensures { IfOk result (λ reach. IsReach atoms (map wire_of wires.now) reach) }
{
    let count = atoms * ATOM_ROWS;
    let mut at_ports = Vec::with_capacity(alloc, count)?;
    for place in 0..count {
        at_ports.push(reach_at(alloc, wires, ports, place)?)?;
    }
    let mut readers = Vec::with_capacity(alloc, atoms)?;
    for atom in 0..atoms {
        readers.push(readers_of(wires, ports, atom))?;
    }
    Ok(Reach {
        ports: at_ports,
        readers,
    })
}
