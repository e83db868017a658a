//! Who learns how far a run is.
use plant_core::Front;

/// Told how far a run by workers is, by each worker and without the lock of the host.
pub trait RunProgress: Sync {
    /// A worker has gone past one more of its events, and the plant is at least this far.
    fn passed(&self, front: Front);

    /// All workers are done, and lines are printed next: nothing is to be shown then.
    fn hide(&self);
}
