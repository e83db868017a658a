//! What no clause says: that the clauses mean what they should, on devices and bodies worked out by hand.
mod bodies;
mod callers;
mod cells;
mod common;
mod devices;
mod files;
mod first_layout;
mod gathering;
mod slots;
