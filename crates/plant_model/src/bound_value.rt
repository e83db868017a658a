//! Expressions over variables of atoms, each with a short way to its value: most transfers copy a variable, and most guards are one
//! operator.
ghost use Rattle.std.specs.Prelude.{◌≡◌, IfOk, IfSome};
ghost use Rattle.petri_atom.specs.Expression.{tree_of, variable};
ghost use Rattle.plant_model.specs.BoundValue.{IsWayTo};
ghost use Rattle.plant_model.specs.Values.{value_there};

use crate::bound_expressions::AtomVariable;
use crate::bound_step::BoundStep;
use crate::row_code::RowCode;
use crate::state::PlantState;
use crate::variable_cell::VariableCell;
use petri_atom::Expression;
use std::alloc::{AllocError, Global};

/// How an expression's value is had.
#[derive(Drop)]
pub(crate) enum ValueWay {
    /// It is that of a variable.
    Copied(VariableCell),
    /// One operator makes it.
    Stepped(BoundStep),
    /// Straight code makes it.
    Coded(RowCode),
    /// A walk over the expression gives it: this is a number, or too long for code.
    Walked,
}

/// An expression with the way to its value.
#[derive(Drop)]
pub(crate) struct BoundValue {
    way: ValueWay,
    pub(crate) tree: Expression<AtomVariable>,
    ghost gives: { IsWayTo way (tree_of tree) },
}

impl BoundValue {
    ghost use Rattle.petri_atom.specs.Expression.{value_of};

    /// The expression with a way to its value.
    pub(crate) fn of(alloc: Global, tree: Expression<AtomVariable>) -> Result<Self, AllocError>
        ensures { IfOk result (λ value. value.tree ≡ tree) }
    {
        let way = way_to(alloc, &tree)?;
        Ok(BoundValue { way, tree })
    }

    /// The cell whose value the expression has, if it is a variable that has one.
    pub(crate) fn cell(&self) -> Option<VariableCell>
        ensures { IfSome result (λ cell. tree_of self.now.tree ≡ variable cell.variable) }
    {
        match &self.tree {
            Expression::Variable(variable) => VariableCell::of(*variable),
            _ => None,
        }
    }

    /// The expression's value in a state.
    #[inline(always)]
    pub(crate) fn value(&self, states: &PlantState) -> i64
        ensures { result ≡ value_of (value_there states.now) (tree_of self.now.tree) }
    {
        // Most transfers copy a variable: these take no call.
        match &self.way {
            ValueWay::Copied(cell) => cell.value(states),
            _ => self.made(states),
        }
    }

    /// The same, in any way.
    #[inline(never)]
    fn made(&self, states: &PlantState) -> i64
        ensures { result ≡ value_of (value_there states.now) (tree_of self.now.tree) }
    {
        match &self.way {
            ValueWay::Copied(cell) => cell.value(states),
            ValueWay::Stepped(step) => step.value(states),
            ValueWay::Coded(code) => code.value(states),
            ValueWay::Walked => self.tree.value(states),
        }
    }
}

/// A way to the value of the expression.
fn way_to(alloc: Global, tree: &Expression<AtomVariable>) -> Result<ValueWay, AllocError>
    ensures { IfOk result (λ way. IsWayTo way (tree_of tree.now)) }
{
    match tree {
        Expression::Number(_) => Ok(ValueWay::Walked),
        Expression::Variable(variable) => Ok(way_to_variable(*variable)),
        _ => match BoundStep::of(tree) {
            Some(step) => Ok(ValueWay::Stepped(step)),
            None => way_by_code(alloc, tree),
        },
    }
}

/// A way to the value of the variable.
fn way_to_variable(named: AtomVariable) -> ValueWay
    ensures { IsWayTo result (variable named) }
{
    match VariableCell::of(named) {
        Some(cell) => ValueWay::Copied(cell),
        None => ValueWay::Walked,
    }
}

/// A way to the value of the expression: by straight code, if there is code of it.
fn way_by_code(alloc: Global, tree: &Expression<AtomVariable>) -> Result<ValueWay, AllocError>
    ensures { IfOk result (λ way. IsWayTo way (tree_of tree.now)) }
{
    match RowCode::of(alloc, tree)? {
        Some(code) => Ok(ValueWay::Coded(code)),
        None => Ok(ValueWay::Walked),
    }
}
