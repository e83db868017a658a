//! Expressions over variables of atoms as expressions over numbers: each variable as its place among those that the expression names.
ghost use Rattle.std.specs.Prelude.{◌≡◌, ◌≤◌, IfOk, length};
ghost use Rattle.petri_atom.specs.Expression.{tree_of, variable};
ghost use Rattle.petri_atom.specs.declared.state.TheConstants.{MAX_VARIABLES};
ghost use Rattle.plant_model.specs.Numbering.{are_same, listed, listed_variable, numbered, place_in};

use crate::bound_expressions::AtomVariable;
use petri_atom::Expression;
use std::alloc::{AllocError, Global};

/// Adds the variables of the expression that are not in the list, each once, in the order in which they are named.
pub(crate) fn list_variables(
    tree: &Expression<AtomVariable>,
    list: &mut Vec<AtomVariable>,
) -> Result<(), AllocError>
    ensures { IfOk result (λ _. list.new.items ≡ listed list.old.items (tree_of tree.now)) }
{
    match tree {
        Expression::Number(_) => Ok(()),
        Expression::Variable(variable) => list_variable(*variable, list),
        Expression::Not(operand) => list_variables(operand, list),
        Expression::Apply(_, left, right) => {
            list_variables(left, list)?;
            list_variables(right, list)
        }
    }
}

/// Adds the variable if it is not in the list.
fn list_variable(variable: AtomVariable, list: &mut Vec<AtomVariable>) -> Result<(), AllocError>
    ensures { IfOk result (λ _. list.new.items ≡ listed_variable list.old.items variable) }
{
    if place_in(list, variable).is_none() {
        list.push(variable)?;
    }
    Ok(())
}

/// The expression with each variable as its place in the list; one that is not in it is 0.
pub(crate) fn numbered(
    alloc: Global,
    tree: &Expression<AtomVariable>,
    list: &[AtomVariable],
) -> Result<Expression<u8>, AllocError>
    requires { length list.now ≤ MAX_VARIABLES }
    ensures { IfOk result (λ expression. tree_of expression ≡ numbered list.now (tree_of tree.now)) }
{
    match tree {
        Expression::Number(number) => Ok(Expression::Number(*number)),
        Expression::Variable(variable) => Ok(one_numbered(*variable, list)),
        Expression::Not(operand) => {
            let operand = numbered(alloc, operand, list)?;
            Ok(Expression::Not(Box::new(alloc, operand)?))
        }
        Expression::Apply(operator, left, right) => {
            let left = numbered(alloc, left, list)?;
            let right = numbered(alloc, right, list)?;
            Ok(Expression::Apply(*operator, Box::new(alloc, left)?, Box::new(alloc, right)?))
        }
    }
}

/// The variable as its place in the list; 0 if it is not in it.
fn one_numbered(named: AtomVariable, list: &[AtomVariable]) -> Expression<u8>
    requires { length list.now ≤ MAX_VARIABLES }
    ensures { tree_of result ≡ numbered list.now (variable named) }
{
    match place_in(list, named) {
        Some(place) => Expression::Variable(place as u8),
        None => Expression::Number(0),
    }
}

/// The place of the variable in the list, if it is in it.
fn place_in(list: &[AtomVariable], variable: AtomVariable) -> Option<usize>
    ensures { result ≡ place_in list.now variable }
{
    list.iter().position(|other| are_same(variable, *other))
}

/// Whether the two are the same variable.
fn are_same(left: AtomVariable, right: AtomVariable) -> bool
    ensures { result ≡ are_same left right }
{
    left.atom == right.atom && left.variable == right.variable
}
