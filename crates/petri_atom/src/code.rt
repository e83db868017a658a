//! Expressions as straight code: steps over a row of cells, each of which applies one operator.
ghost use Rattle.std.specs.Prelude.{◌≡◌, ◌<◌, ◌++◌, ◌&&◌, IsTrue, ℕ, ℤ, List, drop, length, nat_lt};
ghost use Rattle.std.specs.List.{list_all};
ghost use Rattle.petri_atom.specs.declared.state.TheConstants.{MAX_VARIABLES};
ghost use Rattle.petri_atom.specs.declared.code.TheConstants.{ROW, SMALL_ROW};

use crate::coding::{first_temporary, fits_small_row, last_step};
use crate::expression::{Expression, Operator};
use crate::operation::Operation;
use crate::state::{AtomState, MAX_VARIABLES};
use std::alloc::{AllocError, Global};

/// How many cells a whole row has: one for each variable that an atom may have, and temporary ones.
pub(crate) const ROW: usize = 24;
/// The first temporary cell of a whole row; the variables' cells stand before it.
pub(crate) const TEMPORARY: u8 = 16;
/// How many cells a small row has, which most expressions fit: one for each of the first variables, and temporary ones.
pub(crate) const SMALL_ROW: usize = 8;
/// The first temporary cell of a small row.
pub(crate) const SMALL_TEMPORARY: u8 = 4;

/// What an operator is applied to: what a cell holds, or a number.
#[derive(Clone, Copy, Drop)]
pub(crate) enum Operand {
    Cell(u8),
    Number(i64),
}

/// A step: the cell `to` gets what the operation makes of the cells `left` and `right` and the number.
#[derive(Clone, Copy, Drop)]
pub(crate) struct Step {
    operation: Operation,
    left: u8,
    right: u8,
    to: u8,
    number: i64,
    ghost left_here: { left < ROW },
    ghost right_here: { right < ROW },
    ghost here: { to < ROW },
}

impl Step {
    ghost use Rattle.petri_atom.specs.Expression.{operated};
    ghost use Rattle.petri_atom.specs.Local.{value_in};
    ghost use Rattle.petri_atom.specs.StraightCode.{IsBelow, are_within, made_in, operand_in, run_in};

    /// The step that puts into a cell what an operator makes of two operands.
    pub(crate) fn of(operator: Operator, left: Operand, right: Operand, to: u8) -> Self
        requires left { IsBelow ROW left }
        requires right { IsBelow ROW right }
        requires here { to < ROW }
        ensures made { (row : List ℤ) → made_in row result ≡ operated operator (operand_in row left) (operand_in row right) }
        ensures cells { (bound : ℕ) → 0 < bound → IsBelow bound left → IsBelow bound right → (result.left < bound) × (result.right < bound) }
        ensures to { result.to ≡ to }
    {
        match left {
            Operand::Cell(left) => match right {
                Operand::Cell(right) => Step {
                    operation: Operation::of_cells(operator),
                    left,
                    right,
                    to,
                    number: 0,
                },
                Operand::Number(number) => Step {
                    operation: Operation::before_number(operator),
                    left,
                    right: 0,
                    to,
                    number,
                },
            },
            Operand::Number(number) => match right {
                Operand::Cell(right) => Step {
                    operation: Operation::after_number(operator),
                    left: right,
                    right: 0,
                    to,
                    number,
                },
                Operand::Number(other) => Step {
                    operation: Operation::Constant,
                    left: 0,
                    right: 0,
                    to,
                    number: operator.apply(number, other),
                },
            },
        }
    }

    /// What the step makes of a row.
    #[inline(always)]
    fn value<const N: usize>(&self, row: &[i64; N]) -> i64
        requires left { self.now.left < N }
        requires right { self.now.right < N }
        ensures { result ≡ made_in row.now self.now }
    {
        let left = row[usize::from(self.left)];
        match self.operation {
            Operation::Constant => self.number,
            Operation::AddCells => Operator::Add.apply(left, self.right_value(row)),
            Operation::SubtractCells => Operator::Subtract.apply(left, self.right_value(row)),
            Operation::MultiplyCells => Operator::Multiply.apply(left, self.right_value(row)),
            Operation::MinCells => Operator::Min.apply(left, self.right_value(row)),
            Operation::MaxCells => Operator::Max.apply(left, self.right_value(row)),
            Operation::LessCells => Operator::Less.apply(left, self.right_value(row)),
            Operation::LessOrEqualCells => Operator::LessOrEqual.apply(left, self.right_value(row)),
            Operation::EqualCells => Operator::Equal.apply(left, self.right_value(row)),
            Operation::NotEqualCells => Operator::NotEqual.apply(left, self.right_value(row)),
            Operation::AndCells => Operator::And.apply(left, self.right_value(row)),
            Operation::OrCells => Operator::Or.apply(left, self.right_value(row)),
            Operation::AddNumber => Operator::Add.apply(left, self.number),
            Operation::SubtractNumber => Operator::Subtract.apply(left, self.number),
            Operation::MultiplyNumber => Operator::Multiply.apply(left, self.number),
            Operation::MinNumber => Operator::Min.apply(left, self.number),
            Operation::MaxNumber => Operator::Max.apply(left, self.number),
            Operation::LessNumber => Operator::Less.apply(left, self.number),
            Operation::LessOrEqualNumber => Operator::LessOrEqual.apply(left, self.number),
            Operation::EqualNumber => Operator::Equal.apply(left, self.number),
            Operation::NotEqualNumber => Operator::NotEqual.apply(left, self.number),
            Operation::AndNumber => Operator::And.apply(left, self.number),
            Operation::OrNumber => Operator::Or.apply(left, self.number),
            Operation::NumberMinus => Operator::Subtract.apply(self.number, left),
            Operation::NumberLess => Operator::Less.apply(self.number, left),
            Operation::NumberLessOrEqual => Operator::LessOrEqual.apply(self.number, left),
        }
    }

    /// What the second cell holds in a row.
    #[inline(always)]
    fn right_value<const N: usize>(&self, row: &[i64; N]) -> i64
        requires { self.now.right < N }
        ensures { result ≡ value_in row.now self.now.right }
    {
        row[usize::from(self.right)]
    }

    /// Runs the steps in a row that has their cells.
    fn run<const N: usize>(steps: &[Step], row: &mut [i64; N])
        requires { IsTrue (are_within N steps.now) }
        ensures { row.new ≡ run_in steps.now row.old }
    {
        for step in steps {
            row[usize::from(step.to)] = step.value(row);
        }
    }
}

/// An expression over the variables of an atom as straight code: if it is one step, that step, and else all steps, which leave the value in the
/// first temporary cell. Most expressions are one step, and are judged without a row. Most others are judged in a small row, which takes fewer
/// instructions to fill than a whole one.
#[derive(Drop)]
pub struct Code {
    steps: Vec<Step>,
    last: Step,
    is_small: bool,
    ghost left: { length steps.items ≡ 0 → last.left < MAX_VARIABLES },
    ghost right: { length steps.items ≡ 0 → last.right < MAX_VARIABLES },
    ghost within: { IsTrue is_small → IsTrue (list_all (λ s. nat_lt s.left SMALL_ROW && nat_lt s.right SMALL_ROW && nat_lt s.to SMALL_ROW) steps.items) },
}

impl Code {
    ghost use Rattle.std.specs.Prelude.{IfOk};
    ghost use Rattle.petri_atom.specs.Expression.{Tree, tree_of, value_of};
    ghost use Rattle.petri_atom.specs.Local.{value_in};
    ghost use Rattle.petri_atom.specs.StraightCode.{are_within, is_codable, run_in, IsCodeOf};

    /// The code of an expression.
    pub fn of(alloc: Global, expression: &Expression<u8>) -> Result<Self, AllocError>
        requires { IsTrue (is_codable (tree_of expression.now)) }
        ensures { IfOk result (λ code. IsCodeOf code (tree_of expression.now)) }
    {
        let is_small = fits_small_row(expression);
        let temporary = first_temporary(is_small);
        let mut steps = Vec::new(alloc);
        let last = last_step(&mut steps, expression, temporary, temporary)?;
        if !steps.is_empty() {
            steps.push(last)?;
        }
        Ok(Code {
            steps,
            last,
            is_small,
        })
    }

    /// Reads a word of it ([`Atom::prefetch`](crate::Atom::prefetch)).
    pub(crate) fn prefetch(&self) -> u64 {
        u64::from(self.is_small) ^ self.steps.len() as u64
    }

    /// The value in a state of the expression that this is the code of.
    #[inline(always)]
    pub(crate) fn value(&self, state: &AtomState) -> i64
        ensures { (tree : Tree ℕ) → IsCodeOf self.now tree → result ≡ value_of (value_in state.now.values) tree }
    {
        self.value_in_row(state.variables())
    }

    /// The same where the variables have these values. Most expressions take no row: a call and a row for the others alone.
    #[inline(always)]
    pub fn value_in_row(&self, variables: &[i64; MAX_VARIABLES]) -> i64
        ensures { (tree : Tree ℕ) → IsCodeOf self.now tree → result ≡ value_of (value_in variables.now) tree }
    {
        if self.steps.is_empty() {
            self.last.value(variables)
        } else {
            self.value_by_steps(variables)
        }
    }

    /// The same by several steps, in a row of the code's kind.
    #[inline(never)]
    fn value_by_steps(&self, variables: &[i64; MAX_VARIABLES]) -> i64
        requires { 0 < length self.now.steps.items }
        ensures { (tree : Tree ℕ) → IsCodeOf self.now tree → result ≡ value_of (value_in variables.now) tree }
    {
        if self.is_small {
            let first = &variables[..usize::from(SMALL_TEMPORARY)];
            self.value_in_cells(first, &mut [0; SMALL_ROW])
        } else {
            self.value_in_cells(variables, &mut [0; ROW])
        }
    }

    /// What the steps leave in the cell behind those of the variables, in a row that has these values in the variables' cells.
    #[inline(always)]
    fn value_in_cells<const N: usize>(&self, variables: &[i64], row: &mut [i64; N]) -> i64
        requires room { length variables.now < N }
        requires within { IsTrue (are_within N self.now.steps.items) }
        ensures { result ≡ value_in (run_in self.now.steps.items (variables.now ++ drop (length variables.now) row.old)) (length variables.now) }
    {
        row[..variables.len()].copy_from_slice(variables);
        Step::run(&self.steps, row);
        row[variables.len()]
    }
}
