//! Tests of the host, in a crate of their own.
//!
//! - `common`: plants and devices that the tests share. `rows`: what a host answers, worked out by hand.
//! - `host`: one thread works outside the lock while another is answered. `many`: threads that make many events. `told`: what one thread asks, and what
//!   it is answered. `replay`: the answers of all threads, replayed as one run.
//! - `broken`: a device that fails. `memory`: a growth of memory that is refused.
#![tactic(auto)]

#[cfg(test)]
mod tests;
