//! Why a line of a plant text says nothing that its atom or connector could take, or no rule.
ghost use Rattle.std.specs.Prelude.{◌≡◌};
ghost use Rattle.plant_words.specs.LineFaults.{line_fault};
ghost use Rattle.plant_words.specs.declared.line_fault.LineFault.TheVariants as fault;

use crate::expression_fault::ExpressionFault;
use std::alloc::{AllocError, AllocFailed};
use std::fmt;
use thiserror::Error;

/// The fault of a line of an atom, of a connector or of a rule: that of its first word from the left that is at fault, or that memory ran
/// out.
#[derive(Clone, Copy, Debug, PartialEq, Eq, Error)]
pub enum LineFault {
    /// A byte of the word is no printed ASCII character, space or tab.
    NotAscii,
    /// A word that must be a name is none, or is reserved.
    BadName,
    /// The name is declared already, or stands twice where each may stand once.
    Twice,
    /// No earlier line declares the name, or what has it may not stand here: a place, variable or port of the atom, an atom or export
    /// of the connector, a connector or one of its interactions.
    UnknownName,
    /// A word is no part of an expression, or an operand is missing.
    BadExpression,
    /// A word that must be a number is none, or is outside of an `i64`; of a mask, outside of a `u64`.
    BadNumber,
    /// A word is missing, stands where another must, or is left over.
    Shape,
    /// The atom, a port, a transition or the connector would have more parts than it may, or an expression more than 64 words.
    Limit,
    /// Memory ran out.
    Memory,
}

impl fmt::Display for LineFault {
    ghost use Rattle.std.specs.Prelude.{Some};
    ghost use Rattle.plant_words.specs.LineFaults.{message_of};

    ghost output = { λ told. Some (message_of told) };

    fn fmt<W: fmt::Write>(&self, f: &mut fmt::Formatter<W>) -> fmt::Result {
        match self {
            LineFault::NotAscii => {
                f.write_str("a byte is no printed ASCII character, space or tab")
            }
            LineFault::BadName => f.write_str("a name is malformed or reserved"),
            LineFault::Twice => f.write_str(
                "a name is declared already, or stands twice where it may stand once",
            ),
            LineFault::UnknownName => f.write_str("a name is not known here"),
            LineFault::BadExpression => f.write_str("an expression is malformed"),
            LineFault::BadNumber => f.write_str("a number is malformed, or has more than 64 bits"),
            LineFault::Shape => f.write_str("a word is missing, misplaced or left over"),
            LineFault::Limit => f.write_str("a limit of plants is passed"),
            LineFault::Memory => f.write_str("not enough memory for the plant"),
        }
    }
}

impl<T: Drop> From<AllocFailed<T>> for LineFault {
    ghost from_gives = { λ _ told. told ≡ fault.Memory };

    fn from(_: AllocFailed<T>) -> Self {
        LineFault::Memory
    }
}

impl From<AllocError> for LineFault {
    ghost from_gives = { λ _ told. told ≡ fault.Memory };

    fn from(_: AllocError) -> Self {
        LineFault::Memory
    }
}

impl From<ExpressionFault> for LineFault {
    ghost from_gives = { λ fault told. told ≡ line_fault fault };

    fn from(fault: ExpressionFault) -> Self {
        match fault {
            ExpressionFault::NotAscii => LineFault::NotAscii,
            ExpressionFault::UnknownName => LineFault::UnknownName,
            ExpressionFault::BadExpression => LineFault::BadExpression,
            ExpressionFault::BadNumber => LineFault::BadNumber,
            ExpressionFault::Limit => LineFault::Limit,
        }
    }
}
