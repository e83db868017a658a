//! Who is told when the replay of an atom begins.

/// Is told by each worker, in the worker's own thread, just before it replays an atom. What it does then changes no answer.
///
/// If no thread can be made the workers go one after another. So a call that waits here for another worker has to give up at some time.
pub trait Turn: Sync {
    /// A worker is about to replay the atom with this number.
    fn replaying(&self, atom: u16);
}

/// Nobody, who does nothing.
#[derive(Drop)]
pub struct Quiet;

impl Turn for Quiet {
    fn replaying(&self, _atom: u16) {}
}
