//! How the straight code of an expression is made.
ghost use Rattle.std.specs.Prelude.{◌≡◌, ◌≤◌, ◌<◌, ◌+◌, IsTrue, IfOk, ℕ, length};
ghost use Rattle.petri_atom.specs.StraightCode.{AreOperandsAfter, IsBelow, IsMadeAfter, IsOperandAfter, first_temporary, is_small, temporaries, temporaries_of_two};
ghost use Rattle.petri_atom.specs.Expression.{has_variables_below, tree_of, word_count};
ghost use Rattle.petri_atom.specs.declared.parts.TheConstants.{MAX_WORDS};
ghost use Rattle.petri_atom.specs.declared.code.TheConstants.{ROW};

use crate::code::{Operand, SMALL_ROW, SMALL_TEMPORARY, Step, TEMPORARY};
use crate::expression::{Expression, Operator};
use std::alloc::AllocError;

/// How many temporary cells the value of an expression takes, its own with them.
fn temporaries(expression: &Expression<u8>) -> u8
    requires { word_count (tree_of expression.now) ≤ MAX_WORDS }
    ensures { result ≡ temporaries (tree_of expression.now) }
{
    match expression {
        Expression::Number(_) => 0,
        Expression::Variable(_) => 0,
        Expression::Not(operand) => temporaries(operand).max(1),
        Expression::Apply(_, left, right) => {
            let left = temporaries(left);
            let right = temporaries(right);
            if left == right {
                left + 1
            } else {
                left.max(right)
            }
        }
    }
}

/// Whether the code of an expression fits a small row: its variables stand before the first temporary cell, and there is room for the
/// temporary cells that its value takes.
pub(crate) fn fits_small_row(expression: &Expression<u8>) -> bool
    requires { word_count (tree_of expression.now) ≤ MAX_WORDS }
    ensures { result ≡ is_small (tree_of expression.now) }
{
    expression.has_variables_below(usize::from(SMALL_TEMPORARY))
        && usize::from(SMALL_TEMPORARY) + usize::from(temporaries(expression)) < SMALL_ROW
}

/// The first temporary cell of a small row, or of a whole one.
pub(crate) fn first_temporary(is_small: bool) -> u8
    ensures { result ≡ first_temporary is_small }
{
    if is_small { SMALL_TEMPORARY } else { TEMPORARY }
}

/// Adds the steps for all of an expression but its value, and gives the one that makes the value, for the cell `to`. They change no cell
/// before the temporary cell `free`; the variables' cells stand before it.
#[cycle(push)]
pub(crate) fn last_step(
    steps: &mut Vec<Step>,
    expression: &Expression<u8>,
    to: u8,
    free: u8,
) -> Result<Step, AllocError>
    requires small { word_count (tree_of expression.now) ≤ MAX_WORDS }
    requires known { IsTrue (has_variables_below free (tree_of expression.now)) }
    requires some { 0 < free }
    requires room { free + temporaries (tree_of expression.now) < ROW }
    requires to { to < ROW }
    ensures made { IfOk result (λ step. IsMadeAfter steps.old.items steps.new.items step (tree_of expression.now) free) }
    ensures to { IfOk result (λ step. step.to ≡ to) }
    ensures more { IfOk result (λ _. length steps.old.items ≤ length steps.new.items) }
    ensures left { IfOk result (λ step. length steps.new.items ≡ 0 → step.left < free) }
    ensures right { IfOk result (λ step. length steps.new.items ≡ 0 → step.right < free) }
{
    match expression {
        Expression::Number(number) => {
            let number = Operand::Number(*number);
            Ok(Step::of(Operator::Max, number, number, to))
        }
        Expression::Variable(variable) => {
            let variable = Operand::Cell(*variable);
            Ok(Step::of(Operator::Max, variable, variable, to))
        }
        Expression::Not(operand) => {
            let operand = push_operand(steps, operand, free)?;
            Ok(Step::of(Operator::Equal, operand, Operand::Number(0), to))
        }
        Expression::Apply(operator, left, right) => {
            let (left, right) = push_operands(steps, left, right, free)?;
            Ok(Step::of(*operator, left, right, to))
        }
    }
}

/// The two operands of an operator. The one that takes more temporary cells is judged first, since one cell is taken beside the other.
#[cycle(push)]
fn push_operands(
    steps: &mut Vec<Step>,
    left: &Expression<u8>,
    right: &Expression<u8>,
    free: u8,
) -> Result<(Operand, Operand), AllocError>
    requires small { 1 + word_count (tree_of left.now) + word_count (tree_of right.now) ≤ MAX_WORDS }
    requires known_left { IsTrue (has_variables_below free (tree_of left.now)) }
    requires known_right { IsTrue (has_variables_below free (tree_of right.now)) }
    requires some { 0 < free }
    requires room { free + temporaries_of_two (temporaries (tree_of left.now)) (temporaries (tree_of right.now)) < ROW }
    ensures more { IfOk result (λ _. length steps.old.items ≤ length steps.new.items) }
    ensures operands { IfOk result (λ both. AreOperandsAfter steps.old.items steps.new.items both.0 both.1 (tree_of left.now) (tree_of right.now) free) }
    ensures left_here { IfOk result (λ both. IsBelow ROW both.0) }
    ensures right_here { IfOk result (λ both. IsBelow ROW both.1) }
    ensures left { IfOk result (λ both. length steps.new.items ≡ 0 → IsBelow free both.0) }
    ensures right { IfOk result (λ both. length steps.new.items ≡ 0 → IsBelow free both.1) }
{
    if temporaries(left) < temporaries(right) {
        let second = push_operand(steps, right, free)?;
        let first = push_operand(steps, left, free + 1)?;
        Ok((first, second))
    } else {
        let first = push_operand(steps, left, free)?;
        let second = push_operand(steps, right, free + 1)?;
        Ok((first, second))
    }
}

/// The operand that an expression is: a number, a variable's cell, or the temporary cell `free`, into which the added steps put its
/// value.
#[cycle(push)]
fn push_operand(
    steps: &mut Vec<Step>,
    expression: &Expression<u8>,
    free: u8,
) -> Result<Operand, AllocError>
    requires small { word_count (tree_of expression.now) ≤ MAX_WORDS }
    requires known { IsTrue (has_variables_below free (tree_of expression.now)) }
    requires some { 0 < free }
    requires room { free + temporaries (tree_of expression.now) < ROW }
    ensures more { IfOk result (λ _. length steps.old.items ≤ length steps.new.items) }
    ensures operand { IfOk result (λ operand. IsOperandAfter steps.old.items steps.new.items operand (tree_of expression.now) free) }
    ensures plain { IfOk result (λ operand. length steps.new.items ≡ 0 → (bound : ℕ) → IsTrue (has_variables_below bound (tree_of expression.now)) → IsBelow bound operand) }
{
    match expression {
        Expression::Number(number) => Ok(Operand::Number(*number)),
        Expression::Variable(variable) => Ok(Operand::Cell(*variable)),
        _ => {
            let step = last_step(steps, expression, free, free)?;
            steps.push(step)?;
            Ok(Operand::Cell(free))
        }
    }
}
