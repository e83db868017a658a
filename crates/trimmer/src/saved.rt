//! What the trimmer knows of a snapshot.

/// The newest snapshot of an atom.
#[derive(Clone, Copy, Debug, PartialEq, Eq)]
pub struct SavedAt {
    /// After how many firings of the atom the state was saved.
    pub count: u64,
    /// The number of the record that was fired last when the state was copied. It decides nothing here.
    pub at: u64,
}
