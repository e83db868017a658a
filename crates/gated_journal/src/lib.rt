//! The ring of records: which records are live, and what a stop inside each call leaves of them.
//!
//! A record of number n has one cell of the ring, and n mod the ring's length says which. The *live* records are base, base + 1,
//! and so on up to the first cell that is empty or holds another number (`specs/Live.antt`); the base is the greater of the full
//! base cells (`specs/Bases.antt`). A [`Journal`] knows where they stand; contracts see it as a [`Ring`], the numbers alone, and
//! say by cells and records what a call leaves and what a stop inside of it leaves (`specs/Stops.antt`).
//!
//! - Appending writes all bodies behind closed gates, syncs, opens all gates, and syncs. A stop leaves the old list followed by a
//!   front of the new records. Open cells may stand after such a front.
//! - Cleaning empties each record cell that is not live, so that no such cell is ever read as a later record's.
//! - Moving the base fills the other base cell, and then empties the cells of the records that are dropped.
//!
//! After a failure of the device the journal is made again, from what the cells read for. Only `Journal::of` takes memory.
//!
//! - `ring`: a [`Ring`], and the cell of each record. `journal`: the [`Journal`] and its calls.
//! - `appending`, `cleaning`, `moving`: what each of these calls does to the cells, and why a stop inside of it is harmless.
//! - `laws`: what the definitions say of one another.
#![tactic(auto)]

mod appending;
mod cleaning;
mod journal;
pub mod laws;
mod moving;
mod ring;

pub use journal::Journal;
pub use ring::Ring;

// The cells of the device and the bodies that are written into them have one length.
const _: () = prove!(disk_model::BODY == record_codec::BODY);
