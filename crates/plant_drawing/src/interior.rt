//! What is drawn of an atom within its cluster.

/// What is drawn of an atom within its cluster.
#[derive(Clone, Copy, Debug, PartialEq, Eq)]
pub(crate) enum Interior {
    /// Its places, its ports and its transitions, each as a node.
    Parts,
    /// Its places, and its transitions as arrows between them.
    Machine,
}
