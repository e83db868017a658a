//! What an inspection lists beside what it always tells.

/// What an inspection lists beside what it always tells.
#[derive(Clone, Copy, Debug, PartialEq, Eq)]
pub struct Shown {
    /// The live records.
    pub records: bool,
    /// The states in the slots.
    pub states: bool,
}
