//! Why a call of a durable plant is refused.
ghost use Rattle.std.specs.Prelude.{◌≡◌};
ghost use Rattle.plant_core.specs.Refusals.{number_of};

use snapshot_writer::Encoded;
use std::fmt;
use step_core::Done;
use thiserror::Error;

/// Why a call of a durable plant is refused. Nothing changes then, but that a plant whose device failed is broken.
#[derive(Clone, Copy, Debug, PartialEq, Eq, Error)]
pub enum Refused {
    /// No interaction is possible.
    Stuck,
    /// Some atom is away, and no choice is sure to be allowed.
    Busy,
    /// As many choices as a plant may have unacknowledged are fired since the last flush.
    TailFull,
    /// The ring has no room for another record: states have to be saved, and records have to go.
    RingFull,
    /// The record with the greatest number is fired.
    Spent,
    /// The atom with this number is away.
    Away(u16),
    /// The state of the atom with this number includes firings that are not acknowledged.
    Ahead(u16),
    /// What was handed in is not what the plant has kept of it, or there is no such atom.
    Stranger,
    /// There is nothing new to save, or nothing that may go.
    NothingNew,
    /// The device failed in this call. The plant has to be booted again.
    Disk,
    /// The device failed in an earlier call.
    Broken,
    /// The values are not what the inputs of the connector take.
    Values,
}

impl Refused {
    /// The number by which the refusal is printed, from 1 on. 12 is none of them: it is printed for a choice that the plant does not have.
    pub fn number(&self) -> u8
        ensures { result ≡ number_of self.now }
    {
        match self {
            Refused::Stuck => 1,
            Refused::Busy => 2,
            Refused::TailFull => 3,
            Refused::RingFull => 4,
            Refused::Spent => 5,
            Refused::Away(_) => 6,
            Refused::Ahead(_) => 7,
            Refused::Stranger => 8,
            Refused::NothingNew => 9,
            Refused::Disk => 10,
            Refused::Broken => 11,
            Refused::Values => 13,
        }
    }
}

impl fmt::Display for Refused {
    ghost use Rattle.std.specs.Prelude.{Some};
    ghost use Rattle.plant_core.specs.Refusals.{message_of};

    ghost output = { λ refused. Some (message_of refused) };

    fn fmt<W: fmt::Write>(&self, f: &mut fmt::Formatter<W>) -> fmt::Result {
        match self {
            Refused::Stuck => f.write_str("no interaction is possible"),
            Refused::Busy => f.write_str("an atom is away, and no choice is sure to be allowed"),
            Refused::TailFull => f.write_str("a flush has to come before another firing"),
            Refused::RingFull => f.write_str("the ring has no room for another record"),
            Refused::Spent => f.write_str("the record with the greatest number is fired"),
            Refused::Away(atom) => write!(f, "atom {atom} is away"),
            Refused::Ahead(atom) => write!(f, "firings of atom {atom} are not acknowledged"),
            Refused::Stranger => f.write_str("what was handed in is not what was kept of it"),
            Refused::NothingNew => f.write_str("there is nothing to save, or nothing that may go"),
            Refused::Disk => f.write_str("the device failed"),
            Refused::Broken => f.write_str("the device failed in an earlier call"),
            Refused::Values => {
                f.write_str("the values are not what the inputs of the connector take")
            }
        }
    }
}

/// A state that was not stored, and why not.
#[derive(Drop)]
pub struct PutRefused {
    /// The state, as it was handed in.
    pub encoded: Encoded,
    /// Why it was not stored.
    pub refused: Refused,
}

/// A job that was not taken back, and why not.
#[derive(Drop)]
pub struct BackRefused<'s> {
    /// The job, as it was handed in.
    pub done: Done<'s>,
    /// Why it was not taken back.
    pub refused: Refused,
}
