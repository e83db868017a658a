//! Why a replay ends.
use std::fmt;
use thiserror::Error;

/// Why the records are no continuation of an atom's saved state.
#[derive(Clone, Copy, Debug, PartialEq, Eq, Error)]
pub enum ReplayFault {
    /// A firing of the atom is missing: the next one that stands in the records is not the one after the last.
    Gap,
    /// The record with this number fires a transition that the atom's state does not offer.
    NotEnabled(u64),
}

impl fmt::Display for ReplayFault {
    ghost use Rattle.std.specs.Prelude.{Some};
    ghost use Rattle.record_replay.specs.Fault.{message_of};

    ghost output = { λ fault. Some (message_of fault) };

    fn fmt<W: fmt::Write>(&self, f: &mut fmt::Formatter<W>) -> fmt::Result {
        match self {
            ReplayFault::Gap => f.write_str("firings of the atom are missing"),
            ReplayFault::NotEnabled(number) => {
                write!(f, "record {number} fires what the atom could not do")
            }
        }
    }
}
