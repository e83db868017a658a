//! Why a tree is no connector.
ghost use Rattle.std.specs.Prelude.{◌≡◌};

use crate::tree::{MAX_DEPTH, MAX_LEAVES};
use std::alloc::AllocError;
use std::fmt;
use thiserror::Error;

/// Why a tree is no connector, or its interactions could not be listed.
#[derive(Clone, Copy, Debug, PartialEq, Eq, Error)]
pub enum TreeFault {
    /// It has more leaves than `MAX_LEAVES`.
    TooManyLeaves,
    /// Its brackets nest deeper than `MAX_DEPTH`, the root being the first level.
    TooDeep,
    /// Two of its leaves are of one atom.
    SameAtom,
    /// The root or a bracket has no children.
    Empty,
    /// There was no memory for the interactions.
    Memory,
}

impl fmt::Display for TreeFault {
    ghost use Rattle.std.specs.Prelude.{Some};
    ghost use Rattle.connector_tree.specs.Faults.{message_of};

    ghost output = { λ fault. Some (message_of fault) };

    fn fmt<W: fmt::Write>(&self, f: &mut fmt::Formatter<W>) -> fmt::Result {
        match self {
            TreeFault::TooManyLeaves => {
                write!(f, "a connector may have at most {MAX_LEAVES} ports")
            }
            TreeFault::TooDeep => {
                write!(
                    f,
                    "a connector may nest at most {MAX_DEPTH} levels, the root included"
                )
            }
            TreeFault::SameAtom => f.write_str("an atom may stand only once in a connector"),
            TreeFault::Empty => f.write_str("a connector and its brackets may not be empty"),
            TreeFault::Memory => f.write_str(
                "not enough memory to list a connector's interactions",
            ),
        }
    }
}

impl From<AllocError> for TreeFault {
    ghost use Rattle.connector_tree.specs.declared.faults.TreeFault.TheVariants.{Memory};

    ghost from_gives = { λ _ fault. fault ≡ Memory };

    fn from(_error: AllocError) -> Self {
        Self::Memory
    }
}
