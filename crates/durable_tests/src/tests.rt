//! What no clause says: that the clauses mean what they should, on devices and bodies worked out by hand.
mod again;
mod away;
mod common;
mod explorer;
mod failures;
mod journal;
mod memory;
mod migrating;
mod runs;
mod saves;
mod threads;
mod workers;
