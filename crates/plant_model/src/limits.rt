//! How large a plant may be.

/// How many atoms a plant may have; it has one at least.
pub const MAX_ATOMS: usize = 64;
/// How many connectors a plant may have.
pub const MAX_WIRES: usize = 64;
/// How many priority rules a plant may have.
pub const MAX_RULES: usize = 1024;
/// How many guard clauses a connector may have.
pub const MAX_GUARDS: usize = 8;
/// How many transfers a connector may make.
pub const MAX_TRANSFERS: usize = 32;
/// How many inputs a connector may have.
pub const MAX_INPUTS: usize = 8;
/// How many interactions a plant may have.
pub const MAX_INTERACTIONS: usize = 1024;
/// The most ports of an interaction whose number of choices is kept in a word: 128 moves at each of them make 2^63.
pub const PORTS_IN_A_WORD: usize = 9;
