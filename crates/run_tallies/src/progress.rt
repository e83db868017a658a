//! Who is told how far the runs of seeds are.

/// It is told how far the runs of seeds are, as a line on a terminal that shows it.
pub trait Progress {
    /// The run of this seed has ended; the last run is that of the seed `last`.
    fn seed_done(&mut self, seed: u64, last: u64);
}

/// Nobody is told.
#[derive(Clone, Copy, Debug)]
pub struct NoProgress;

impl Progress for NoProgress {
    fn seed_done(&mut self, _seed: u64, _last: u64) {}
}
