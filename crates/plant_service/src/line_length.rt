//! How long a line may be.

/// The most bytes that a line may have, without its end.
pub const MAX_LINE: usize = 65_536;

/// How many bytes of a line are kept. A line end has two bytes at most: if no more are kept, the line is known to be too long.
pub(crate) const KEPT: usize = MAX_LINE + 2;
