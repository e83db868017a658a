//! Why a definition is no atom.
ghost use Rattle.std.specs.Prelude.{◌≡◌};

use std::alloc::AllocError;
use std::fmt;
use thiserror::Error;

/// Why parts make no atom, or that memory ran out.
#[derive(Clone, Copy, Debug, PartialEq, Eq, Error)]
pub enum AtomFault {
    /// A limit is passed: places, variables, ports, transitions, exported variables, updates or words of an expression.
    Limit,
    /// A name, an exported variable or a place of one list stands twice.
    Twice,
    /// A number names no port, place or variable of the atom.
    Unknown,
    /// A transition has no source or no target.
    NoPlace,
    /// Memory ran out.
    Memory,
}

impl fmt::Display for AtomFault {
    ghost use Rattle.std.specs.Prelude.{Some};
    ghost use Rattle.petri_atom.specs.Fault.{message_of};

    ghost output = { λ fault. Some (message_of fault) };

    fn fmt<W: fmt::Write>(&self, f: &mut fmt::Formatter<W>) -> fmt::Result {
        match self {
            AtomFault::Limit => f.write_str("the atom passes a limit"),
            AtomFault::Twice => {
                f.write_str("a name, an exported variable or a place stands twice")
            }
            AtomFault::Unknown => f.write_str("a port, place or variable is not there"),
            AtomFault::NoPlace => f.write_str("a transition has no source or no target"),
            AtomFault::Memory => f.write_str("memory ran out"),
        }
    }
}

impl From<AllocError> for AtomFault {
    ghost use Rattle.petri_atom.specs.declared.fault.AtomFault.TheVariants as fault;

    ghost from_gives = { λ _ made. made ≡ fault.Memory };

    fn from(_: AllocError) -> Self {
        AtomFault::Memory
    }
}
