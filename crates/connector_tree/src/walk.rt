//! The interactions of a connector: the masks of its leaves that are port sets.
ghost use Rattle.std.specs.Prelude.{◌≡◌, ◌↔◌, ℕ, ◌+◌, ◌-◌, ◌<◌, ◌≤◌, ◌^◌, ◌++◌, map, IfOk, OnOk, All, Contains};
ghost use Rattle.std.specs.List.Sorted.{IsStrictlyIncreasing};
ghost use Rattle.std.specs.List.{list_any};
ghost use Rattle.connector_tree.specs.Tree.{tree_of, tree_in, branch_of};
ghost use Rattle.connector_tree.specs.Masks.{interactions_of, IsInteraction};
ghost use Rattle.connector_tree.specs.Faults.{fault_of, fault_of_result, IsSound};
ghost use Rattle.connector_tree.specs.Walk.{seen, seen_children, seen_all, count_all};
ghost use Rattle.connector_tree.specs.MaskLists.{masks_seen, choices, with_later, joined, masks_taken};
ghost use Rattle.connector_tree.specs.declared.tree.TheConstants.{MAX_LEAVES};

use crate::faults::TreeFault;
use crate::shape::{count_node, first_fault};
use crate::tree::{Child, Connector, Mask, Node};
use std::alloc::{AllocError, Global};

/// The interactions of a connector, as masks of its leaves.
pub fn interactions(alloc: Global, connector: &Connector) -> Result<Vec<Mask>, TreeFault>
    ensures fault { fault_of_result result ≡ fault_of (tree_of connector.now) }
    ensures sound { OnOk result (IsSound (tree_of connector.now)) }
    ensures list { IfOk result (λ masks. masks.items ≡ interactions_of (tree_of connector.now)) }

    // What the list is, mask by mask.
    ensures exact { IfOk result
        (λ masks. (mask : ℕ) → Contains masks.items mask ↔ IsInteraction (tree_of connector.now) mask) }
    ensures rising { IfOk result (λ masks. IsStrictlyIncreasing masks.items) }
{
    match first_fault(connector) {
        Some(fault) => Err(fault),
        None => {
            let masks = children_masks(alloc, &connector.root)?;
            Ok(masks)
        }
    }
}

/// The masks over the leaves of these children that are one of their bracket's port sets, rising.
#[cycle(masks)]
fn children_masks(alloc: Global, children: &[Child]) -> Result<Vec<Mask>, AllocError>
    requires { count_all (seen_children (tree_in children.now)) ≤ MAX_LEAVES }
    ensures { IfOk result (λ masks. masks.items ≡ masks_seen (seen_all (seen_children (tree_in children.now)))) }
{
    if let [only] = children {
        return node_masks(alloc, &only.node);
    }
    let triggers = has_trigger(children);
    let nobody = Candidate {
        mask: 0,
        leads: false,
    };
    let mut candidates = vec![in alloc; nobody]?;
    let mut at = 0;
    for child in children {
        let own = node_masks(alloc, &child.node)?;
        let part = choices(alloc, &own, child.trigger, triggers)?;
        candidates = joined(alloc, &candidates, at, &part)?;
        at += count_node(&child.node);
    }
    masks_taken(alloc, &candidates, triggers)
}

#[cycle(masks)]
fn node_masks(alloc: Global, node: &Node) -> Result<Vec<Mask>, AllocError>
    requires { (seen (branch_of node.now)).count ≤ MAX_LEAVES }
    ensures { IfOk result (λ masks. masks.items ≡ masks_seen (seen (branch_of node.now))) }
{
    match node {
        Node::Leaf { .. } => Ok(vec![in alloc; 1]?),
        Node::Fusion(children) => children_masks(alloc, children),
    }
}

/// Whether one of the children is a trigger.
fn has_trigger(children: &[Child]) -> bool
    ensures { result ≡ list_any (λ child. child.trigger) children.now }
{
    children.iter().any(|child| child.trigger)
}

/// A mask that may be an interaction: each child has one of its masks, or stays away if it may.
#[derive(Clone, Copy)]
struct Candidate {
    mask: Mask,
    /// Some trigger has one of its masks.
    leads: bool,
}

/// The candidates of a child that has these masks. If it may stay away, one of them has none of its leaves.
fn choices(
    alloc: Global,
    own: &[Mask],
    trigger: bool,
    may_stay_away: bool,
) -> Result<Vec<Candidate>, AllocError>
    ensures { IfOk result (λ all. all.items ≡ choices own.now trigger may_stay_away) }
{
    let mut all = Vec::new(alloc);
    if may_stay_away && own.first() != Some(&0) {
        all.push(Candidate {
            mask: 0,
            leads: false,
        })?;
    }
    for mask in own {
        all.push(Candidate {
            mask: *mask,
            leads: trigger,
        })?;
    }
    Ok(all)
}

/// Each candidate of a child that has `at` leaves before it, with each candidate of the children before it.
fn joined(
    alloc: Global,
    low: &[Candidate],
    at: usize,
    high: &[Candidate],
) -> Result<Vec<Candidate>, AllocError>
    requires at { at ≤ MAX_LEAVES }
    requires low { All (λ candidate. candidate.mask < 2 ^ at) low.now }
    requires high { All (λ candidate. candidate.mask < 2 ^ (MAX_LEAVES - at)) high.now }
    ensures { IfOk result (λ all. all.items ≡ joined low.now at high.now) }
{
    let mut all = Vec::new(alloc);
    for later in high {
        push_each(&mut all, low, u32::from(later.mask) << at, later.leads)?;
    }
    Ok(all)
}

/// Adds each candidate of `low`, with these leaves of a later child, which leads or not.
fn push_each(
    all: &mut Vec<Candidate>,
    low: &[Candidate],
    moved: u32,
    leads: bool,
) -> Result<(), AllocError>
    requires { All (λ candidate. moved + candidate.mask < 2 ^ MAX_LEAVES) low.now }
    ensures { OnOk result (all.new.items ≡ all.old.items ++ map (with_later moved leads) low.now) }
{
    for candidate in low {
        all.push(Candidate {
            mask: (moved + u32::from(candidate.mask)) as Mask,
            leads: candidate.leads | leads,
        })?;
    }
    Ok(())
}

/// The masks of the candidates; with triggers, of those that lead.
fn masks_taken(
    alloc: Global,
    candidates: &[Candidate],
    triggers: bool,
) -> Result<Vec<Mask>, AllocError>
    ensures { IfOk result (λ masks. masks.items ≡ masks_taken triggers candidates.now) }
{
    let mut masks = Vec::new(alloc);
    for candidate in candidates {
        if candidate.leads | !triggers {
            masks.push(candidate.mask)?;
        }
    }
    Ok(masks)
}
