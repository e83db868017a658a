//! Tests of devices, their cells and bodies, of the device over a file and of the slots of saved states, in a crate of their own: a crate that
//! holds tests is proved once more with them, and these need none of the crates of plants and their images.
//!
//! They show what no clause says: that calls succeed where there is memory and the device does not fail, and that the clauses
//! mean what they should, on devices and bodies worked out by hand.
#![tactic(auto)]

#[cfg(test)]
mod tests;
