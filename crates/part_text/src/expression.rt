//! Expressions as the plant text writes them.
ghost use Rattle.std.specs.Prelude.{◌≡◌};
ghost use Rattle.text_io.specs.Printing.{Prints};
ghost use Rattle.part_text.specs.Seen.{tree_of};
ghost use Rattle.part_text.specs.Expression.{expression_text, is_one, operator_word};

use crate::names::Names;
use petri_atom::{Expression, Operator};
use std::io::Write;
use text_io::{WriteFault, print_signed, print_text};

/// Prints an expression in prefix form, with one space between two words.
pub fn print_expression<V, N: Names<V>, W: Write>(
    expression: &Expression<V>,
    names: &N,
    output: &mut W,
) -> Result<(), WriteFault>
    ensures { Prints result (W.contents output.old) (W.contents output.new) (expression_text (N.name_of names.now) (tree_of expression.now)) }
{
    match expression {
        Expression::Number(number) => print_signed(output, *number),
        Expression::Variable(variable) => names.print_name(variable, output),
        Expression::Not(operand) => {
            print_text(output, b"! ")?;
            print_expression(operand, names, output)
        }
        Expression::Apply(operator, left, right) => {
            print_text(output, operator_word(*operator))?;
            print_text(output, b" ")?;
            print_expression(left, names, output)?;
            print_text(output, b" ")?;
            print_expression(right, names, output)
        }
    }
}

/// The word of an operator.
pub fn operator_word(operator: Operator) -> &'static [u8]
    ensures { result.now ≡ operator_word operator }
{
    match operator {
        Operator::Add => b"+",
        Operator::Subtract => b"-",
        Operator::Multiply => b"*",
        Operator::Min => b"min",
        Operator::Max => b"max",
        Operator::Less => b"<",
        Operator::LessOrEqual => b"<=",
        Operator::Equal => b"==",
        Operator::NotEqual => b"!=",
        Operator::And => b"&&",
        Operator::Or => b"||",
    }
}

/// Whether the expression is the number 1.
pub fn is_one(expression: &Expression<u8>) -> bool
    ensures { result ≡ is_one (tree_of expression.now) }
{
    matches!(expression, Expression::Number(1))
}
