//! The interactions of a connector in a plant.
ghost use Rattle.std.specs.Prelude.{◌≡◌, ◌++◌, ◌==◌, ◌≤◌, map, filter, length, IfOk, OnOk};
ghost use Rattle.connector_tree.specs.Tree.{tree_of};
ghost use Rattle.connector_tree.specs.Masks.{chosen, is_set};
ghost use Rattle.connector_tree.specs.Faults.{fault_of, fault_of_result};
ghost use Rattle.plant_model.specs.Choice.{by_atom, interactions_of_connector};
ghost use Rattle.plant_model.specs.Interaction.{interaction_of};

use crate::interaction::Interaction;
use connector_tree::{Connector, Mask, Port, TreeFault};
use std::alloc::{AllocError, Global};

/// The interactions of the connector with this number, in a plant of so many atoms. A port of an atom that is not one of
/// them is left out.
pub fn connector_interactions(
    alloc: Global,
    atoms: u16,
    number: u16,
    connector: &Connector,
) -> Result<Vec<Interaction>, TreeFault>
    ensures list { IfOk result (λ all. map interaction_of all.items ≡ interactions_of_connector atoms number (tree_of connector.now)) }
    ensures fault { fault_of_result result ≡ fault_of (tree_of connector.now) }
{
    let masks = connector_tree::interactions(alloc, connector)?;
    let leaves = connector_tree::leaves(alloc, connector)?;
    let mut all = Vec::with_capacity(alloc, masks.len())?;
    for mask in &masks {
        let ports = ports_by_atom(alloc, &leaves, *mask, atoms)?;
        let interaction = Interaction {
            connector: number,
            mask: *mask,
            ports,
        };
        all.push(interaction).map_err(AllocError::from)?;
    }
    Ok(all)
}

/// The ports of the mask's leaves, in rising order of their atoms.
fn ports_by_atom(
    alloc: Global,
    leaves: &[Port],
    mask: Mask,
    atoms: u16,
) -> Result<Vec<Port>, AllocError>
    ensures { IfOk result (λ ports. ports.items ≡ by_atom atoms (chosen mask 0 leaves.now)) }
{
    let taking_part = ports_of_mask(alloc, leaves, mask)?;
    let mut ports = Vec::new(alloc);
    for atom in 0..atoms {
        push_of_atom(&taking_part, atom, &mut ports)?;
    }
    Ok(ports)
}

/// The ports of the mask's leaves, from left to right.
fn ports_of_mask(alloc: Global, leaves: &[Port], mask: Mask) -> Result<Vec<Port>, AllocError>
    ensures { IfOk result (λ ports. ports.items ≡ chosen mask 0 leaves.now) }
{
    let mut ports = Vec::new(alloc);
    for (leaf, port) in leaves.iter().enumerate() {
        if has_leaf(mask, leaf) {
            ports.push(*port)?;
        }
    }
    Ok(ports)
}

/// Whether the mask has the leaf.
pub(crate) fn has_leaf(mask: Mask, leaf: usize) -> bool
    ensures { result ≡ is_set mask leaf }
{
    leaf < 16 && (mask >> leaf) & 1 == 1
}

/// Adds the ports of the atom.
fn push_of_atom(ports: &[Port], atom: u16, into: &mut Vec<Port>) -> Result<(), AllocError>
    ensures { OnOk result (into.new.items ≡ into.old.items ++ filter (λ p. p.atom == atom) ports.now) }
{
    for port in ports {
        if port.atom == atom {
            into.push(*port)?;
        }
    }
    Ok(())
}
