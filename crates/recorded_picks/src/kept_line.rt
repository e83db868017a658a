//! How long a line of a file of picks may be.

/// How many bytes a line may have, without its line end: more than the longest fired line has, which is a name and 16 participants of
/// two names and a number of three digits. A comment may be longer.
pub const MAX_PICK_LINE: usize = 2_048;

/// How many bytes of a line are kept: the longest that a pick can have, and its line end, which has two at most. So a line that is too
/// long is still seen to be too long.
pub(crate) const KEPT: usize = MAX_PICK_LINE + 2;
