//! Why words are nothing that a run can be watched for.
use plant_words::ExpressionFault;
use std::alloc::AllocError;
use std::fmt;
use thiserror::Error;

/// Why words are nothing that a run can be watched for.
#[derive(Clone, Copy, Debug, PartialEq, Eq, Error)]
pub enum WatchFault {
    /// They are no expression.
    Expression(ExpressionFault),
    /// A word stands behind the expression, or behind `stuck`.
    MoreWords,
    /// Memory ran out.
    Memory,
}

impl fmt::Display for WatchFault {
    ghost use Rattle.std.specs.Prelude.{Some};
    ghost use Rattle.run_watches.specs.Message.{fault_message};

    ghost output = { λ fault. Some (fault_message fault) };

    fn fmt<W: fmt::Write>(&self, f: &mut fmt::Formatter<W>) -> fmt::Result {
        match self {
            WatchFault::Expression(fault) => match fault {
                ExpressionFault::NotAscii => f.write_str("a byte is no printed ASCII character"),
                ExpressionFault::UnknownName => f.write_str(
                    "a name is of no variable, which is written ATOM.VAR, and a place is written at ATOM PLACE",
                ),
                ExpressionFault::BadExpression => {
                    f.write_str(
                        "an operand is missing, a place is unknown, or a word is no operator, number or name",
                    )
                }
                ExpressionFault::BadNumber => f.write_str("a number is not within 64 bits"),
                ExpressionFault::Limit => f.write_str("it has more than 64 words"),
            },
            WatchFault::MoreWords => f.write_str("a word stands behind its end"),
            WatchFault::Memory => f.write_str("there was no memory"),
        }
    }
}

impl From<AllocError> for WatchFault {
    ghost use Rattle.std.specs.Prelude.{◌≡◌};
    ghost use Rattle.run_watches.specs.declared.fault.WatchFault.TheVariants.{Memory};

    ghost from_gives = { λ _ fault. fault ≡ Memory };

    fn from(_: AllocError) -> Self {
        WatchFault::Memory
    }
}

impl From<ExpressionFault> for WatchFault {
    ghost use Rattle.std.specs.Prelude.{◌≡◌};
    ghost use Rattle.run_watches.specs.declared.fault.WatchFault.TheVariants.{Expression};

    ghost from_gives = { λ found fault. fault ≡ Expression found };

    fn from(found: ExpressionFault) -> Self {
        WatchFault::Expression(found)
    }
}
