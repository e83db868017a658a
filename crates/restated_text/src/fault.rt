//! Why a restated text was not printed.
ghost use Rattle.std.specs.Prelude.{◌≡◌};

use std::alloc::AllocError;
use std::fmt;
use text_io::{MAX_TEXT, WriteFault};
use thiserror::Error;

/// Why a restated text was not printed.
#[derive(Clone, Copy, Debug, PartialEq, Eq, Error)]
pub enum RestateFault {
    /// The restated text has more bytes than a text may have. Nothing was written.
    TooLong,
    /// There was no memory for the text. Nothing was written.
    Memory,
    /// The writer answered an error. It may have taken a part of the text.
    Write,
}

impl fmt::Display for RestateFault {
    ghost use Rattle.std.specs.Prelude.{Some};
    ghost use Rattle.restated_text.specs.Printing.{message_of};

    ghost output = { λ fault. Some (message_of fault) };

    fn fmt<W: fmt::Write>(&self, f: &mut fmt::Formatter<W>) -> fmt::Result {
        match self {
            RestateFault::TooLong => write!(f, "the restated text has more than {MAX_TEXT} bytes"),
            RestateFault::Memory => f.write_str("not enough memory for the text"),
            RestateFault::Write => f.write_str("the text could not be written"),
        }
    }
}

impl From<AllocError> for RestateFault {
    ghost use Rattle.restated_text.specs.declared.fault.RestateFault.TheVariants.{Memory};

    ghost from_gives = { λ _ fault. fault ≡ Memory };

    fn from(_: AllocError) -> Self {
        Self::Memory
    }
}

impl From<WriteFault> for RestateFault {
    ghost use Rattle.restated_text.specs.declared.fault.RestateFault.TheVariants.{Write};

    ghost from_gives = { λ _ fault. fault ≡ Write };

    fn from(_: WriteFault) -> Self {
        Self::Write
    }
}
