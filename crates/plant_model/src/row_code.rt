//! Straight code over a row of values of atoms' variables.
ghost use Rattle.std.specs.Prelude.{◌≡◌, ◌≤◌, ◌&&◌, nat_le, ℕ, Some, length, slice_get};
ghost use Rattle.petri_atom.specs.Expression.{tree_of, word_count};
ghost use Rattle.petri_atom.specs.Local.{value_in};
ghost use Rattle.petri_atom.specs.declared.parts.TheConstants.{MAX_WORDS};
ghost use Rattle.petri_atom.specs.declared.state.TheConstants.{MAX_VARIABLES};
ghost use Rattle.plant_model.specs.Values.{value_there};
ghost use Rattle.plant_model.specs.declared.bound_expressions.AtomVariable.{AtomVariable};

use crate::bound_expressions::AtomVariable;
use crate::numbering::{list_variables, numbered};
use crate::state::PlantState;
use petri_atom::{Code, Expression, MAX_VARIABLES, Valuation};
use std::alloc::{AllocError, Global};

/// An expression over variables of atoms as straight code. The code's variable k is the k-th of those that the expression names.
#[derive(Drop)]
pub(crate) struct RowCode {
    variables: Vec<AtomVariable>,
    code: Code,
    ghost few: { length variables.items ≤ MAX_VARIABLES },
}

impl RowCode {
    ghost use Rattle.std.specs.Prelude.{IfOk, IfSome, is_some};
    ghost use Rattle.petri_atom.specs.Expression.{Tree, tree_of, value_of};
    ghost use Rattle.plant_model.specs.BoundValue.{IsRowCodeOf};
    ghost use Rattle.plant_model.specs.Numbering.{fits_code};

    /// The code of the expression, if that is within the limit of words and names no more variables than code has.
    pub(crate) fn of(
        alloc: Global,
        tree: &Expression<AtomVariable>,
    ) -> Result<Option<Self>, AllocError>
        ensures code { IfOk result (λ code. IfSome code (λ code. IsRowCodeOf code (tree_of tree.now))) }
        ensures fits { IfOk result (λ code. is_some code ≡ fits_code (tree_of tree.now)) }
    {
        let mut variables = Vec::new(alloc);
        list_variables(tree, &mut variables)?;
        if !fits_code(&variables, tree) {
            return Ok(None);
        }
        let numbered = numbered(alloc, tree, &variables)?;
        let code = Code::of(alloc, &numbered)?;
        Ok(Some(RowCode { variables, code }))
    }

    /// The value in a state of the expression that this is the code of.
    pub(crate) fn value(&self, states: &PlantState) -> i64
        ensures { (tree : Tree AtomVariable) → IsRowCodeOf self.now tree → result ≡ value_of (value_there states.now) tree }
    {
        let mut row = [0; MAX_VARIABLES];
        load(&self.variables, states, &mut row);
        self.code.value_in_row(&row)
    }
}

/// Whether code can be made of the expression, which names these variables.
fn fits_code(variables: &[AtomVariable], tree: &Expression<AtomVariable>) -> bool
    ensures { result ≡ (nat_le (length variables.now) MAX_VARIABLES && nat_le (word_count (tree_of tree.now)) MAX_WORDS) }
{
    variables.len() <= MAX_VARIABLES && tree.is_small()
}

/// Puts the values of the variables, in their order, at the beginning of the row.
fn load(variables: &[AtomVariable], states: &PlantState, row: &mut [i64; MAX_VARIABLES])
    requires { length variables.now ≤ MAX_VARIABLES }
    ensures { (k : ℕ) (v : AtomVariable) → slice_get variables.now k ≡ Some v → value_in row.new k ≡ value_there states.now v }
{
    for (number, variable) in variables.iter().enumerate() {
        row[number] = states.value_at(variable);
    }
}
