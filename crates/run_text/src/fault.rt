//! Why a pick is refused, and why a run was not printed to its end.
ghost use Rattle.std.specs.Prelude.{◌≡◌};

use crate::pick::Misread;
use std::alloc::AllocError;
use std::{fmt, io};
use text_io::WriteFault;
use thiserror::Error;

/// The source of the picks could not be read.
#[derive(Clone, Copy, Debug, PartialEq, Eq, Error)]
pub struct ReadFault;

/// Why a pick is refused.
#[derive(Clone, Copy, Debug, PartialEq, Eq)]
pub enum RefusedPick {
    /// It is a number past the list of choices.
    PastList {
        /// The number.
        pick: u64,
        /// How many choices there are.
        count: u128,
    },
    /// It names a choice that the state does not have.
    NotPossible,
    /// What stands at its place names no choice of the plant.
    Misread(Misread),
    /// It comes after 2^64 - 1 fired interactions, and no other has a number.
    TooMany,
}

/// A pick that is refused.
#[derive(Clone, Copy, Debug, PartialEq, Eq)]
pub struct Refusal {
    /// The place of the pick.
    pub place: u64,
    /// Why it is refused.
    pub why: RefusedPick,
}

/// Why a run was not printed to its end.
#[derive(Clone, Copy, Debug, PartialEq, Eq, Error)]
pub enum TraceFault {
    /// There was no memory for the plant that runs: its states, and what a step keeps. Nothing was written.
    Memory,
    /// The writer answered an error. It may have taken a part of the text.
    Write,
    /// The picks could not be read to their end.
    Read,
    /// A pick is refused. The run was printed up to it.
    Refused(Refusal),
}

impl From<io::Error> for ReadFault {
    fn from(_: io::Error) -> Self {
        ReadFault
    }
}

/// How many choices there are, as a message says it.
#[derive(Clone, Copy)]
struct ChoiceCount(u128);

impl fmt::Display for ReadFault {
    ghost use Rattle.std.specs.Prelude.{Some};
    ghost use Rattle.run_text.specs.Message.{read_message};

    ghost output = { λ _. Some read_message };

    fn fmt<W: fmt::Write>(&self, f: &mut fmt::Formatter<W>) -> fmt::Result {
        f.write_str("the picks could not be read")
    }
}

impl fmt::Display for ChoiceCount {
    ghost use Rattle.std.specs.Prelude.{Some};
    ghost use Rattle.run_text.specs.Message.{count_message};

    ghost output = { λ count. Some (count_message count.0) };

    fn fmt<W: fmt::Write>(&self, f: &mut fmt::Formatter<W>) -> fmt::Result {
        match self.0 {
            0 => f.write_str("there is no choice"),
            1 => f.write_str("there is 1 choice (0)"),
            count => write!(f, "there are {count} choices (0 to {})", count - 1),
        }
    }
}

impl fmt::Display for RefusedPick {
    ghost use Rattle.std.specs.Prelude.{Some};
    ghost use Rattle.run_text.specs.Message.{refused_message};

    ghost output = { λ why. Some (refused_message why) };

    fn fmt<W: fmt::Write>(&self, f: &mut fmt::Formatter<W>) -> fmt::Result {
        match self {
            RefusedPick::PastList { pick, count } => {
                write!(f, "pick {pick}, but {}", ChoiceCount(*count))
            }
            RefusedPick::NotPossible => f.write_str("this can't be fired now"),
            RefusedPick::Misread(misread) => write!(f, "{misread}"),
            RefusedPick::TooMany => f.write_str("more than 18446744073709551615 interactions"),
        }
    }
}

/// What stands after the place of the pick.
impl fmt::Display for Refusal {
    ghost use Rattle.std.specs.Prelude.{Some};
    ghost use Rattle.run_text.specs.Message.{refused_message};

    ghost output = { λ refusal. Some (refused_message refusal.why) };

    fn fmt<W: fmt::Write>(&self, f: &mut fmt::Formatter<W>) -> fmt::Result {
        write!(f, "{}", self.why)
    }
}

impl fmt::Display for TraceFault {
    ghost use Rattle.std.specs.Prelude.{Some};
    ghost use Rattle.run_text.specs.Message.{message_of};

    ghost output = { λ fault. Some (message_of fault) };

    fn fmt<W: fmt::Write>(&self, f: &mut fmt::Formatter<W>) -> fmt::Result {
        match self {
            TraceFault::Memory => f.write_str("not enough memory for the states of the plant"),
            TraceFault::Write => f.write_str("the trace could not be written"),
            TraceFault::Read => write!(f, "{ReadFault}"),
            TraceFault::Refused(refusal) => write!(f, "{}: {refusal}", refusal.place),
        }
    }
}

impl From<AllocError> for TraceFault {
    ghost use Rattle.run_text.specs.declared.fault.TraceFault.TheVariants.{Memory};

    ghost from_gives = { λ _ fault. fault ≡ Memory };

    fn from(_: AllocError) -> Self {
        Self::Memory
    }
}

impl From<WriteFault> for TraceFault {
    ghost use Rattle.run_text.specs.declared.fault.TraceFault.TheVariants.{Write};

    ghost from_gives = { λ _ fault. fault ≡ Write };

    fn from(_: WriteFault) -> Self {
        Self::Write
    }
}

impl From<ReadFault> for TraceFault {
    ghost use Rattle.run_text.specs.declared.fault.TraceFault.TheVariants.{Read};

    ghost from_gives = { λ _ fault. fault ≡ Read };

    fn from(_: ReadFault) -> Self {
        Self::Read
    }
}
