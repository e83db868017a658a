//! Transfers that copy variables, in rows of those to one atom: most transfers copy a variable.
ghost use Rattle.std.specs.Prelude.{◌≡◌, ◌≤◌, ◌<◌, ◌++◌, ℕ, [], ◌∷◌, IsTrue, None, IfOk, IfSome, OnOk, length, map, slice_index_or};
ghost use Rattle.petri_atom.specs.Expression.{tree_of, variable};
ghost use Rattle.petri_atom.specs.declared.state.TheConstants.{MAX_EXPORTS};
ghost use Rattle.plant_model.specs.BoundExpressions.{copied_by, copies_in, copy_by, delivery_of, given_copies};

use crate::delivery::Delivery;
use crate::state::PlantState;
use crate::variable_cell::VariableCell;
use petri_atom::{Delivered, MAX_EXPORTS};
use std::alloc::{AllocError, Global};

/// Transfers to exported variables of one atom that name the same leaves and each copy a variable: by the number of an exported
/// variable the cell that is copied to it.
///
/// `lower` are the leaves of atoms that stand before the atom, as in a `Delivery`.
#[derive(Clone, Copy)]
pub(crate) struct CopyRow {
    pub(crate) leaves: u32,
    pub(crate) lower: u64,
    pub(crate) atom: u16,
    cells: [Option<VariableCell>; MAX_EXPORTS],
}

impl CopyRow {
    /// The row of one transfer, which copies the cell.
    fn of(delivery: &Delivery, cell: VariableCell) -> Self
        requires { tree_of delivery.now.value.tree ≡ variable cell.variable }
        ensures { copies_in result ≡ delivery_of delivery.now ∷ [] }
    {
        let row = CopyRow {
            leaves: delivery.leaves,
            lower: delivery.lower,
            atom: delivery.atom,
            cells: [None; MAX_EXPORTS],
        };
        row.with(delivery.export, cell)
    }

    /// Whether the transfer is to the same atom and names the same leaves, and the row has no exported variable from its own on.
    fn takes(&self, delivery: &Delivery) -> bool
        ensures leaves { IsTrue result → self.now.leaves ≡ delivery.now.leaves }
        ensures atom { IsTrue result → self.now.atom ≡ delivery.now.atom }
        ensures free { IsTrue result → (k : ℕ) → delivery.now.export ≤ k → slice_index_or self.now.cells k None ≡ None }
    {
        self.leaves == delivery.leaves
            && self.atom == delivery.atom
            && is_free_from(&self.cells, delivery.export)
    }

    /// The row with a copy to one more exported variable, behind those that it has.
    fn with(&self, export: u8, cell: VariableCell) -> Self
        requires exported { export < MAX_EXPORTS }
        requires free { (k : ℕ) → export ≤ k → slice_index_or self.now.cells k None ≡ None }
        ensures { copies_in result ≡ copies_in self.now ++ copy_by self.now.leaves self.now.atom export cell ∷ [] }
    {
        let mut row = *self;
        row.cells[usize::from(export)] = Some(cell);
        row
    }

    /// Gives the exported variables their values, where they have none.
    pub(crate) fn give(&self, states: &PlantState, row: &mut Delivered)
        ensures { row.new ≡ given_copies states.now 0 self.now.cells row.old }
    {
        for (export, cell) in self.cells.iter().enumerate() {
            if let Some(cell) = cell {
                row.give(export as u8, cell.value(states));
            }
        }
    }
}

/// Whether none of the cells from the number on is there.
fn is_free_from(cells: &[Option<VariableCell>; MAX_EXPORTS], first: u8) -> bool
    ensures { IsTrue result → (k : ℕ) → first ≤ k → slice_index_or cells.now k None ≡ None }
{
    for export in usize::from(first)..MAX_EXPORTS {
        if cells[export].is_some() {
            return false;
        }
    }
    true
}

/// The transfers in rows, if each of them copies a variable.
pub(crate) fn copy_rows(
    alloc: Global,
    deliveries: &[Delivery],
) -> Result<Option<Vec<CopyRow>>, AllocError>
    ensures { IfOk result (λ rows. IfSome rows (λ rows. copied_by rows.items ≡ map delivery_of deliveries.now)) }
{
    let mut rows = Vec::new(alloc);
    for delivery in deliveries {
        match delivery.value.cell() {
            Some(cell) => add(&mut rows, delivery, cell)?,
            None => return Ok(None),
        }
    }
    Ok(Some(rows))
}

/// Adds the transfer, which copies the cell, to the last row, or behind it if that does not take it.
fn add(rows: &mut Vec<CopyRow>, delivery: &Delivery, cell: VariableCell) -> Result<(), AllocError>
    requires { tree_of delivery.now.value.tree ≡ variable cell.variable }
    ensures { OnOk result (copied_by rows.new.items ≡ copied_by rows.old.items ++ delivery_of delivery.now ∷ []) }
{
    let Some(last) = rows.pop() else {
        rows.push(CopyRow::of(delivery, cell))?;
        return Ok(());
    };
    if last.takes(delivery) {
        rows.push(last.with(delivery.export, cell))?;
    } else {
        rows.push(last)?;
        rows.push(CopyRow::of(delivery, cell))?;
    }
    Ok(())
}
