//! Operations of straight code: an operator with what it is applied to. Each operator has one for two cells, and one for a cell and a number, so
//! that a step reads no more than it needs and asks nothing.
ghost use Rattle.std.specs.Prelude.{◌≡◌, ℤ};
ghost use Rattle.petri_atom.specs.Expression.{operated};
ghost use Rattle.petri_atom.specs.StraightCode.{made};

use crate::expression::Operator;

/// What a step makes: `Constant` is its number; `..Cells` applies an operator to its two cells, `..Number` to its first cell and its number, and
/// `Number..` to its number and its first cell, where the order of the two counts.
#[derive(Clone, Copy, Drop)]
pub(crate) enum Operation {
    Constant,
    AddCells,
    SubtractCells,
    MultiplyCells,
    MinCells,
    MaxCells,
    LessCells,
    LessOrEqualCells,
    EqualCells,
    NotEqualCells,
    AndCells,
    OrCells,
    AddNumber,
    SubtractNumber,
    MultiplyNumber,
    MinNumber,
    MaxNumber,
    LessNumber,
    LessOrEqualNumber,
    EqualNumber,
    NotEqualNumber,
    AndNumber,
    OrNumber,
    NumberMinus,
    NumberLess,
    NumberLessOrEqual,
}

impl Operation {
    /// The operation that applies the operator to two cells.
    pub(crate) fn of_cells(operator: Operator) -> Self
        ensures { (left right number : ℤ) → made result left right number ≡ operated operator left right }
    {
        match operator {
            Operator::Add => Operation::AddCells,
            Operator::Subtract => Operation::SubtractCells,
            Operator::Multiply => Operation::MultiplyCells,
            Operator::Min => Operation::MinCells,
            Operator::Max => Operation::MaxCells,
            Operator::Less => Operation::LessCells,
            Operator::LessOrEqual => Operation::LessOrEqualCells,
            Operator::Equal => Operation::EqualCells,
            Operator::NotEqual => Operation::NotEqualCells,
            Operator::And => Operation::AndCells,
            Operator::Or => Operation::OrCells,
        }
    }

    /// The operation that applies it to a cell and a number.
    pub(crate) fn before_number(operator: Operator) -> Self
        ensures { (left right number : ℤ) → made result left right number ≡ operated operator left number }
    {
        match operator {
            Operator::Add => Operation::AddNumber,
            Operator::Subtract => Operation::SubtractNumber,
            Operator::Multiply => Operation::MultiplyNumber,
            Operator::Min => Operation::MinNumber,
            Operator::Max => Operation::MaxNumber,
            Operator::Less => Operation::LessNumber,
            Operator::LessOrEqual => Operation::LessOrEqualNumber,
            Operator::Equal => Operation::EqualNumber,
            Operator::NotEqual => Operation::NotEqualNumber,
            Operator::And => Operation::AndNumber,
            Operator::Or => Operation::OrNumber,
        }
    }

    /// The operation that applies it to a number and a cell.
    pub(crate) fn after_number(operator: Operator) -> Self
        ensures { (left right number : ℤ) → made result left right number ≡ operated operator number left }
    {
        match operator {
            Operator::Add => Operation::AddNumber,
            Operator::Subtract => Operation::NumberMinus,
            Operator::Multiply => Operation::MultiplyNumber,
            Operator::Min => Operation::MinNumber,
            Operator::Max => Operation::MaxNumber,
            Operator::Less => Operation::NumberLess,
            Operator::LessOrEqual => Operation::NumberLessOrEqual,
            Operator::Equal => Operation::EqualNumber,
            Operator::NotEqual => Operation::NotEqualNumber,
            Operator::And => Operation::AndNumber,
            Operator::Or => Operation::OrNumber,
        }
    }
}
