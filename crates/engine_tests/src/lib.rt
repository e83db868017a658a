//! Tests of the crates from atoms to runs, in a crate of their own: a crate that holds tests is proved once more with them.
//!
//! They show what no clause says and no run of the program either: that what only other programs ask is answered, what happens
//! where a reader or a writer fails at any byte, that few bytes at a time are as good as many, that a line may be as long as a
//! text, and that faults are printed in their words.
//!
//! - `atoms`, `trees`, `orders`, `steps`: what the program never asks of an atom, a tree, an order, or a plant and its states. `sure_choices`: what
//!   is sure while atoms are away.
//! - `reading`, `writing`: readers and writers that fail, or give few bytes at a time. `faults`: the words of each fault.
#![tactic(auto)]

#[cfg(test)]
mod tests;
