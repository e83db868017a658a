//! A plant that runs while atoms are away, and keeps what each of them was given to do.
//!
//! An [`Executor`] is in a whole state: an atom that is away counts as being where its job will leave it. Contracts see this state
//! (`states_in`), and of each atom the job that it has, if it is away (`jobs_in`). So a firing is the model's step whether atoms are away
//! or not; what is known of the present atoms alone decides which choices are sure. A job that comes back done changes nothing of the
//! state: its atom is present again.
//!
//! - `executor`: the plant that runs, and its committed state. `keeping`: how the jobs of a choice are kept. `committing`: which atoms have
//!   moved since the last commit, how their states are copied into the committed one, and what comes back into it.
#![tactic(auto)]

mod committing;
mod executor;
mod keeping;

pub use executor::Executor;
