//! Where a host works outside its lock.

/// Told before each work outside the lock. Whoever lets a host wait there sees that others go on meanwhile.
pub trait Gate: Sync {
    /// The state of this atom is about to be encoded, or its update to be run. The caller of the host does not hold the lock.
    fn outside(&self, atom: u16);
}
