//! One change of a device in memory, and what a stop makes of the pending bytes.
/// The most bytes that one write to a `MemDisk` may have.
pub const LONGEST: usize = 1024;

/// A write: `count` bytes from number `at` on are pending, and the first `put` of them were written.
#[derive(Clone, Copy)]
pub(crate) struct Piece {
    pub(crate) at: usize,
    pub(crate) count: usize,
    pub(crate) put: usize,
    pub(crate) bytes: [u8; LONGEST],
}

/// What one call changed: a write, whole or cut short by a fuse, or a sync.
#[derive(Clone, Copy)]
pub(crate) enum Change {
    Write(Piece),
    Sync,
}

/// What a stop makes of the pending bytes of a `MemDisk`. All others stay.
#[derive(Clone, Copy, Debug, PartialEq, Eq)]
pub enum Tear {
    /// As at the last successful sync.
    Old,
    /// As a read gives them.
    New,
    /// Each is 0xA5, the byte of an open gate.
    Gates,
    /// As a read gives them in cells of odd number, as at the last successful sync in those of even number.
    Mixed,
}
