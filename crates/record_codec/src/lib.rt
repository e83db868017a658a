//! The bodies of cells, byte for byte.
//!
//! A cell's body is the spelling of one value, and zeros up to the body's length. There are four kinds:
//!
//! | Value | What it says | Fields in their order, with the bytes that each takes |
//! |---|---|---|
//! | [`Identity`] | what the device was formatted for | magic 4, version 2, atoms 2, ring 4, digest 32 |
//! | [`Base`] | the first record that is kept | number 8 |
//! | [`Saved`] | the state of one atom | atom 2, count 8, at 8, marking 8, variables 1, a value 8 for each |
//! | [`Fired`] | one fired interaction | number 8, connector 2, entries 1, and the entries |
//! | [`Entry`] | what one participant did in it | atom 2, transition 2, participation 8, delivered 1, mask 1, a value 8 for each that was delivered |
//!
//! Numbers are big-endian, and values in two's complement. The types keep the ranges of the format, so a
//! value always has a body: `to_body` writes it, and `from_body` answers it again. `from_body` answers
//! `None` for every other body, one with a byte after the last field among them.
//!
//! Contracts see a `Base` as its number, and each other value as a record of its fields. For each kind
//! `specs/` has the ranges (`IsFired`), the spelling (`fired_bytes`), the format as a fact of a body and a
//! value (`IsFiredBody`), and the value that a body holds as a function (`fired_in`); `laws` ties the last
//! two together. No call takes memory.
//!
//! - `layout`: sizes and limits, each in one place.
//! - `ring`: which cell of a device holds which value.
//! - `reader`, `writer`: one field at a time, over bodies of any length.
//! - `identity`, `base`, `saved`, `entry`, `fired`: the values, in bodies of any length that has room for them. `entry_source`: what has the entries of a
//!   record.
//! - `v1`: the bodies of the first layout, and today's bodies of them.
#![tactic(auto)]

mod base;
mod entry;
mod entry_source;
mod fired;
mod identity;
pub mod laws;
mod layout;
mod reader;
pub mod ring;
mod saved;
pub mod v1;
mod writer;

pub use base::Base;
pub use entry::Entry;
pub use entry_source::EntrySource;
pub use fired::{Fired, spell_over};
pub use identity::Identity;
pub use layout::{
    BODY, DIGEST, LAST_NUMBER, LEAST_RING, LONGEST_ENTRY, MAGIC, MOST_ATOMS, MOST_CONNECTORS,
    MOST_ENTRIES, MOST_EXPORTED, MOST_RING, MOST_TRANSITIONS, MOST_VARIABLES, VERSION,
};
pub use saved::Saved;
