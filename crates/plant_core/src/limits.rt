//! How much a durable plant holds in memory.
use plant_image::MOST_AHEAD;

/// How many fired choices may be unacknowledged.
pub const MOST_TAIL: usize = MOST_AHEAD as usize;
