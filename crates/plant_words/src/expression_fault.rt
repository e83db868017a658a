//! Why words are no expression.
use crate::line_fault::LineFault;
use std::fmt;
use thiserror::Error;

/// Why words are no expression.
#[derive(Clone, Copy, Debug, PartialEq, Eq, Error)]
pub enum ExpressionFault {
    /// A byte of a word is no printed ASCII character, space or tab.
    NotAscii,
    /// A word that could be a variable's name names none that may stand here.
    UnknownName,
    /// An operand is missing, or a word is no number, no operator and no name.
    BadExpression,
    /// A word of an optional `-` and digits has more than 19 of them, or writes a number outside of an `i64`.
    BadNumber,
    /// The expression has more words than [`MAX_WORDS`](petri_atom::MAX_WORDS).
    Limit,
}

impl fmt::Display for ExpressionFault {
    ghost use Rattle.std.specs.Prelude.{Some};
    ghost use Rattle.plant_words.specs.LineFaults.{line_fault, message_of};

    ghost output = { λ fault. Some (message_of (line_fault fault)) };

    // It says what the fault of its line says.
    fn fmt<W: fmt::Write>(&self, f: &mut fmt::Formatter<W>) -> fmt::Result {
        write!(f, "{}", LineFault::from(*self))
    }
}
