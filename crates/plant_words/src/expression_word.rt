//! What one word of an expression says.
ghost use Rattle.std.specs.Prelude.{◌≡◌, ℕ, List, Option};
ghost use Rattle.plant_words.specs.ExpressionWords.{operator_in, could_be_variable, word_in};

use crate::expression_fault::ExpressionFault;
use crate::lines::is_legal;
use crate::numbers::{is_numeric, read_int};
use crate::splits::split_export;
use petri_atom::{Operator, is_name};

/// Which variables an expression may name.
pub trait Variables<V> {
    ghost variable_named: { Self → List ℕ → Option V };

    /// The variable that the word names, or `None` where it names none that may stand in the expression.
    fn find(&self, word: &[u8]) -> Option<V>
        ensures { result ≡ variable_named self.now word.now };
}

/// What one word of an expression says.
#[derive(Drop)]
pub(crate) enum Word<V> {
    Number(i64),
    Variable(V),
    /// The operator `!`, with one operand.
    Negation,
    /// An operator with two operands.
    Operation(Operator),
}

/// What the word says, where an expression may stand.
pub(crate) fn read_word<V, N: Variables<V>>(
    word: &[u8],
    names: &N,
) -> Result<Word<V>, ExpressionFault>
    ensures { result ≡ word_in (N.variable_named names.now) word.now }
{
    if !is_legal(word) {
        return Err(ExpressionFault::NotAscii);
    }
    if word == b"!".as_slice() {
        return Ok(Word::Negation);
    }
    if let Some(operator) = operator(word) {
        return Ok(Word::Operation(operator));
    }
    if is_numeric(word) {
        return match read_int(word) {
            Some(number) => Ok(Word::Number(number)),
            None => Err(ExpressionFault::BadNumber),
        };
    }
    match names.find(word) {
        Some(variable) => Ok(Word::Variable(variable)),
        None if could_be_variable(word) => Err(ExpressionFault::UnknownName),
        None => Err(ExpressionFault::BadExpression),
    }
}

/// The operator with two operands that the word is.
pub fn operator(word: &[u8]) -> Option<Operator>
    ensures { result ≡ operator_in word.now }
{
    match word {
        b"+" => Some(Operator::Add),
        b"-" => Some(Operator::Subtract),
        b"*" => Some(Operator::Multiply),
        b"min" => Some(Operator::Min),
        b"max" => Some(Operator::Max),
        b"<" => Some(Operator::Less),
        b"<=" => Some(Operator::LessOrEqual),
        b"==" => Some(Operator::Equal),
        b"!=" => Some(Operator::NotEqual),
        b"&&" => Some(Operator::And),
        b"||" => Some(Operator::Or),
        _ => None,
    }
}

/// Whether the word is written as a variable's name is: `NAME`, or `NAME.NAME`.
fn could_be_variable(word: &[u8]) -> bool
    ensures { result ≡ could_be_variable word.now }
{
    match split_export(word) {
        Some((atom, variable)) => is_name(atom) & is_name(variable),
        None => is_name(word),
    }
}
