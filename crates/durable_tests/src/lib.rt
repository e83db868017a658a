//! Tests of the crates from journals to boots, in a crate of their own: a crate that holds tests is proved once more with them.
//!
//! They show what no clause says: that calls succeed where there is memory and the device does not fail, and that the clauses
//! mean what they should, on devices and bodies worked out by hand.
//!
//! - `common`: a plant and a device that the tests share. `runs`: runs of durable plants, stopped and booted again.
//! - `journal`: what a stop leaves of a journal, call by call. `explorer`: runs that are stopped at each write and sync. `again`, `migrating`: stops
//!   while a device is formatted again, booted, or an image is brought over. `failures`: devices of which one call fails. `memory`: each growth of
//!   memory refused in turn.
//! - `saves`: states that are asked for and put. `away`: an atom that is away when the power is cut. `threads`: two threads and one plant. `workers`:
//!   restarts by several workers.
#![tactic(auto)]

// What the trimmer knows of a record has room for each participant that a record may have.
const _: () = prove!(trimmer::MOST_PARTICIPANTS == record_codec::MOST_ENTRIES);

#[cfg(test)]
mod tests;
