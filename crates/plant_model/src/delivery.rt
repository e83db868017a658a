//! Transfers with their variables found.
ghost use Rattle.std.specs.Prelude.{◌≡◌, ◌<◌, ◌^◌, map};
ghost use Rattle.petri_atom.specs.declared.state.TheConstants.{MAX_EXPORTS};

use crate::bound_expressions::has_all;
use crate::bound_value::BoundValue;
use crate::copy_row::{CopyRow, copy_rows};
use connector_tree::Mask;
use std::alloc::{AllocError, Global};

/// A transfer to an exported variable of an atom, with the leaves that it names, as in a clause; its target's is one of them.
///
/// `lower` are the leaves of atoms that stand before the target's, so that they tell the place of its move among those of a choice.
/// The bit is that of the exported variable in a mask.
#[derive(Drop)]
pub(crate) struct Delivery {
    pub(crate) leaves: u32,
    pub(crate) lower: u64,
    pub(crate) atom: u16,
    pub(crate) export: u8,
    pub(crate) bit: u8,
    pub(crate) value: BoundValue,
    ghost exported: { export < MAX_EXPORTS },
    ghost its_bit: { bit ≡ 2 ^ export },
}

impl Delivery {
    ghost use Rattle.std.specs.Prelude.{◌&&◌};
    ghost use Rattle.plant_model.specs.BoundExpressions.{delivery_of, has_all, is_for};

    /// Whether the delivery applies, and is to the exported variable of the atom.
    pub(crate) fn applies_to(&self, mask: Mask, atom: u16, export: u8) -> bool
        ensures { result ≡ (has_all mask self.now.leaves && is_for atom export (delivery_of self.now)) }
    {
        has_all(mask, self.leaves) && self.export == export && self.atom == atom
    }
}

/// Transfers of which some make a value, and the leaves that each of them names in a list of their own: a firing asks these of all, and
/// few transfers apply.
#[derive(Drop)]
pub(crate) struct MadeValues {
    pub(crate) leaves: Vec<u32>,
    pub(crate) all: Vec<Delivery>,
    ghost same_leaves: { leaves.items ≡ map (λ d. d.leaves) all.items },
}

impl MadeValues {
    ghost use Rattle.std.specs.Prelude.{IfOk};

    /// These transfers.
    fn of(alloc: Global, all: Vec<Delivery>) -> Result<Self, AllocError>
        ensures { IfOk result (λ values. values.all.items ≡ all.items) }
    {
        let mut leaves = Vec::with_capacity(alloc, all.len())?;
        for delivery in &all {
            leaves.push(delivery.leaves)?;
        }
        Ok(MadeValues { leaves, all })
    }
}

/// The transfers of a wire that have a target, in written order.
#[derive(Drop)]
pub(crate) enum Deliveries {
    /// Each of them copies a variable.
    Copies(Vec<CopyRow>),
    /// Some of them make a value.
    Values(MadeValues),
}

impl Deliveries {
    ghost use Rattle.std.specs.Prelude.{IfOk};
    ghost use Rattle.plant_model.specs.BoundExpressions.{deliveries_in, delivery_of};

    /// These transfers, in rows if each of them copies a variable.
    pub(crate) fn of(alloc: Global, all: Vec<Delivery>) -> Result<Self, AllocError>
        ensures { IfOk result (λ deliveries. deliveries_in deliveries ≡ map delivery_of all.items) }
    {
        match copy_rows(alloc, &all)? {
            Some(rows) => Ok(Deliveries::Copies(rows)),
            None => Ok(Deliveries::Values(MadeValues::of(alloc, all)?)),
        }
    }
}
