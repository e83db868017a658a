//! Why serving ended early.
ghost use Rattle.std.specs.Prelude.{◌≡◌};

use std::alloc::AllocError;
use std::{fmt, io};
use text_io::WriteFault;
use thiserror::Error;

/// Why serving ended before the last line was answered.
#[derive(Clone, Copy, Debug, PartialEq, Eq, Error)]
pub enum ServeFault {
    /// There was no memory. Nothing was printed, and no line was read.
    Memory,
    /// The reader answered an error, or gave 2^64 - 1 lines without an end.
    Read,
    /// The writer answered an error. It may have taken a part of an answer.
    Write,
}

impl fmt::Display for ServeFault {
    ghost use Rattle.std.specs.Prelude.{Some};
    ghost use Rattle.plant_service.specs.Message.{message_of};

    ghost output = { λ fault. Some (message_of fault) };

    fn fmt<W: fmt::Write>(&self, f: &mut fmt::Formatter<W>) -> fmt::Result {
        match self {
            ServeFault::Memory => f.write_str("not enough memory to serve the plant"),
            ServeFault::Read => f.write_str("the lines could not be read"),
            ServeFault::Write => f.write_str("the answers could not be written"),
        }
    }
}

impl From<AllocError> for ServeFault {
    ghost use Rattle.plant_service.specs.declared.fault.ServeFault.TheVariants.{Memory};

    ghost from_gives = { λ _ fault. fault ≡ Memory };

    fn from(_: AllocError) -> Self {
        Self::Memory
    }
}

impl From<io::Error> for ServeFault {
    ghost use Rattle.plant_service.specs.declared.fault.ServeFault.TheVariants.{Read};

    ghost from_gives = { λ _ fault. fault ≡ Read };

    fn from(_: io::Error) -> Self {
        Self::Read
    }
}

impl From<WriteFault> for ServeFault {
    ghost use Rattle.plant_service.specs.declared.fault.ServeFault.TheVariants.{Write};

    ghost from_gives = { λ _ fault. fault ≡ Write };

    fn from(_: WriteFault) -> Self {
        Self::Write
    }
}
