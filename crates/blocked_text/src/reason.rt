//! A reason why an interaction is not allowed.
ghost use Rattle.std.specs.Prelude.{◌≡◌};
ghost use Rattle.blocked_text.specs.SameReason.{is_same_port, is_same_reason};

use connector_tree::Port;

/// Why a state does not allow an interaction: the first of these that holds.
#[derive(Clone, Copy, Debug, PartialEq, Eq)]
pub enum Reason {
    /// This port of it is not offered, and no port of it before is.
    NotOffered(Port),
    /// The guard clause of its connector with this number applies and is 0, and no clause before does and is.
    GuardIsZero(usize),
    /// It is possible, but the possible interaction with this number is above it, and no possible one before is.
    GivesWay(u16),
}

impl Reason {
    /// Whether the two reasons are of the same kind, and of the same port, clause or interaction.
    pub(crate) fn is_same(self, other: Reason) -> bool
        ensures { result ≡ is_same_reason self other }
    {
        match (self, other) {
            (Reason::NotOffered(mine), Reason::NotOffered(theirs)) => is_same_port(mine, theirs),
            (Reason::GuardIsZero(mine), Reason::GuardIsZero(theirs)) => mine == theirs,
            (Reason::GivesWay(mine), Reason::GivesWay(theirs)) => mine == theirs,
            _ => false,
        }
    }
}

/// Whether the two ports are the same.
fn is_same_port(mine: Port, theirs: Port) -> bool
    ensures { result ≡ is_same_port mine theirs }
{
    mine.atom == theirs.atom && mine.port == theirs.port
}
