//! The layout of a cell's body: its sizes, limits and fixed words, each in this one place.

/// How many bytes a body has.
pub const BODY: usize = 1023;

/// The bytes that an identity begins with.
pub const MAGIC: [u8; 4] = *b"BIPF";

/// The version of this layout.
pub const VERSION: u16 = 2;

/// How many atoms a plant has at most. An atom's number is below it.
pub const MOST_ATOMS: u16 = 64;

/// How many records a ring holds at least.
pub const LEAST_RING: u32 = 8;

/// How many records a ring holds at most.
pub const MOST_RING: u32 = 4096;

/// How many bytes a digest has.
pub const DIGEST: usize = 32;

/// The largest number of a record, and of a count.
pub const LAST_NUMBER: u64 = (1 << 63) - 1;

/// How many variables an atom has at most.
pub const MOST_VARIABLES: usize = 16;

/// How many connectors a plant has at most. A connector's number is below it.
pub const MOST_CONNECTORS: u16 = 64;

/// How many transitions an atom has at most. A transition's number is below it.
pub const MOST_TRANSITIONS: u16 = 128;

/// How many variables a port exports at most.
pub const MOST_EXPORTED: usize = 4;

/// How many bytes an entry of a record has at most.
pub const LONGEST_ENTRY: usize = 14 + 8 * MOST_EXPORTED;

/// How many entries a record has at most.
pub const MOST_ENTRIES: usize = 16;

/// Which byte of a record's body says how many entries it has.
pub const ENTRY_COUNT_AT: usize = 10;
