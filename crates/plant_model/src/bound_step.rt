//! One operator over variables of atoms and numbers: most guards are one, and many transfers.
ghost use Rattle.std.specs.Prelude.{◌≡◌, ◌&&◌, IfSome, is_some};
ghost use Rattle.petri_atom.specs.Expression.{operation, tree_of, value_of};
ghost use Rattle.plant_model.specs.BoundStep.{is_operand, is_step, operand_tree, step_tree};
ghost use Rattle.plant_model.specs.Values.{value_there};

use crate::bound_expressions::AtomVariable;
use crate::state::PlantState;
use crate::variable_cell::VariableCell;
use petri_atom::{Expression, Operator};

/// What an operator is applied to.
#[derive(Clone, Copy)]
pub(crate) enum BoundOperand {
    /// The value of a variable.
    Cell(VariableCell),
    /// A number.
    Number(i64),
}

/// An operator with its two operands.
#[derive(Clone, Copy)]
pub(crate) struct BoundStep {
    operator: Operator,
    left: BoundOperand,
    right: BoundOperand,
}

impl BoundOperand {
    /// The operand that the expression is, if it is one.
    fn of(tree: &Expression<AtomVariable>) -> Option<Self>
        ensures same { IfSome result (λ operand. operand_tree operand ≡ tree_of tree.now) }
        ensures known { is_some result ≡ is_operand (tree_of tree.now) }
    {
        match tree {
            Expression::Number(number) => Some(BoundOperand::Number(*number)),
            Expression::Variable(variable) => match VariableCell::of(*variable) {
                Some(cell) => Some(BoundOperand::Cell(cell)),
                None => None,
            },
            _ => None,
        }
    }

    /// The operand's value in a state.
    #[inline(always)]
    fn value(&self, states: &PlantState) -> i64
        ensures { result ≡ value_of (value_there states.now) (operand_tree self.now) }
    {
        match self {
            BoundOperand::Cell(cell) => cell.value(states),
            BoundOperand::Number(number) => *number,
        }
    }
}

impl BoundStep {
    /// The operator with its operands that the expression is, if it is one.
    pub(crate) fn of(tree: &Expression<AtomVariable>) -> Option<Self>
        ensures same { IfSome result (λ step. step_tree step ≡ tree_of tree.now) }
        ensures known { is_some result ≡ is_step (tree_of tree.now) }
    {
        match tree {
            Expression::Apply(operator, left, right) => BoundStep::with(*operator, left, right),
            _ => None,
        }
    }

    /// The operator with the operands that the expressions are, if they are ones.
    fn with(
        operator: Operator,
        left: &Expression<AtomVariable>,
        right: &Expression<AtomVariable>,
    ) -> Option<Self>
        ensures same { IfSome result (λ step. step_tree step ≡ operation operator (tree_of left.now) (tree_of right.now)) }
        ensures known { is_some result ≡ (is_operand (tree_of left.now) && is_operand (tree_of right.now)) }
    {
        match (BoundOperand::of(left), BoundOperand::of(right)) {
            (Some(left), Some(right)) => Some(BoundStep {
                operator,
                left,
                right,
            }),
            _ => None,
        }
    }

    /// What the operator makes of its operands in a state.
    pub(crate) fn value(&self, states: &PlantState) -> i64
        ensures { result ≡ value_of (value_there states.now) (step_tree self.now) }
    {
        self.operator
            .apply(self.left.value(states), self.right.value(states))
    }
}
