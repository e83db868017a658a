//! How the connectors of a drawing are filled.

/// How the connectors of a drawing are filled.
#[derive(Clone, Copy, Debug, PartialEq, Eq)]
pub enum Filling {
    /// All alike.
    Alike,
    /// Each that has a choice in the state that is drawn in another colour than the others.
    ByChoice,
}
