//! Why a session was not held to its end.
ghost use Rattle.std.specs.Prelude.{◌≡◌};

use run_text::{ReadFault, Refusal};
use std::alloc::{AllocError, AllocFailed};
use std::{fmt, io};
use text_io::WriteFault;
use thiserror::Error;

/// Why a session was not held to its end. What was answered before may be written.
#[derive(Clone, Copy, Debug, PartialEq, Eq, Error)]
pub enum StepFault {
    /// There was no memory: for the plant, for a line, for what was fired, or for a word that is shown.
    Memory,
    /// The picks could not be read to their end. The session did not begin, and nothing was printed.
    PicksUnread,
    /// A pick is refused. The session did not begin, and nothing was printed.
    Refused(Refusal),
    /// The reader of the lines answered an error, or gave 2^64 - 1 lines without an end.
    Read,
    /// The writer answered an error. It may have taken a part of an answer.
    Write,
}

/// Why a session that has begun was not held to its end.
#[derive(Clone, Copy, Debug, PartialEq, Eq)]
pub enum AnswerFault {
    /// There was no memory: for a line, for what was fired, or for a word that is shown.
    Memory,
    /// The reader of the lines answered an error, or gave 2^64 - 1 lines without an end.
    Read,
    /// The writer answered an error. It may have taken a part of an answer.
    Write,
}

impl fmt::Display for StepFault {
    ghost use Rattle.std.specs.Prelude.{Some};
    ghost use Rattle.step_session.specs.Message.{message_of};

    ghost output = { λ fault. Some (message_of fault) };

    fn fmt<W: fmt::Write>(&self, f: &mut fmt::Formatter<W>) -> fmt::Result {
        match self {
            StepFault::Memory => f.write_str("not enough memory for the session"),
            StepFault::PicksUnread => write!(f, "{ReadFault}"),
            StepFault::Refused(refusal) => write!(f, "{}: {refusal}", refusal.place),
            StepFault::Read => f.write_str("the lines could not be read"),
            StepFault::Write => f.write_str("the answers could not be written"),
        }
    }
}

impl From<AllocError> for StepFault {
    ghost use Rattle.step_session.specs.declared.fault.StepFault.TheVariants.{Memory};

    ghost from_gives = { λ _ fault. fault ≡ Memory };

    fn from(_: AllocError) -> Self {
        Self::Memory
    }
}

impl<T: Drop> From<AllocFailed<T>> for StepFault {
    ghost use Rattle.step_session.specs.declared.fault.StepFault.TheVariants.{Memory};

    ghost from_gives = { λ _ fault. fault ≡ Memory };

    fn from(_: AllocFailed<T>) -> Self {
        Self::Memory
    }
}

impl From<ReadFault> for StepFault {
    ghost use Rattle.step_session.specs.declared.fault.StepFault.TheVariants.{PicksUnread};

    ghost from_gives = { λ _ fault. fault ≡ PicksUnread };

    fn from(_: ReadFault) -> Self {
        Self::PicksUnread
    }
}

impl From<AnswerFault> for StepFault {
    ghost use Rattle.step_session.specs.Began.{of_answer};

    ghost from_gives = { λ answer fault. fault ≡ of_answer answer };

    fn from(fault: AnswerFault) -> Self {
        match fault {
            AnswerFault::Memory => Self::Memory,
            AnswerFault::Read => Self::Read,
            AnswerFault::Write => Self::Write,
        }
    }
}

impl From<AllocError> for AnswerFault {
    ghost use Rattle.step_session.specs.declared.fault.AnswerFault.TheVariants.{Memory};

    ghost from_gives = { λ _ fault. fault ≡ Memory };

    fn from(_: AllocError) -> Self {
        Self::Memory
    }
}

impl<T: Drop> From<AllocFailed<T>> for AnswerFault {
    ghost use Rattle.step_session.specs.declared.fault.AnswerFault.TheVariants.{Memory};

    ghost from_gives = { λ _ fault. fault ≡ Memory };

    fn from(_: AllocFailed<T>) -> Self {
        Self::Memory
    }
}

impl From<io::Error> for AnswerFault {
    ghost use Rattle.step_session.specs.declared.fault.AnswerFault.TheVariants.{Read};

    ghost from_gives = { λ _ fault. fault ≡ Read };

    fn from(_: io::Error) -> Self {
        Self::Read
    }
}

impl From<WriteFault> for AnswerFault {
    ghost use Rattle.step_session.specs.declared.fault.AnswerFault.TheVariants.{Write};

    ghost from_gives = { λ _ fault. fault ≡ Write };

    fn from(_: WriteFault) -> Self {
        Self::Write
    }
}
