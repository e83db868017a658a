//! Why a connector can't be fired.
//!
//! A state allows an interaction if each of its ports is offered, each guard clause that applies is not 0, and no possible
//! interaction is above it. [`Reasons::reason_of`] answers the first of these that fails, as a [`Reason`] (`specs/Reason.antt`);
//! `laws` says that a reason is one, and that an interaction has none exactly if it is allowed.
//!
//! [`Reasons::print_blocked`] prints a line for each different reason of each connector that a state has no choice of:
//!
//! ```text
//! lower: Gate.lower offers nothing: place open is not marked
//! enter: guard '< Counter.pushes 3' is 0 (Counter.pushes=3)
//! leave: possible, gives way to lower (line 41: prio leave < lower)
//! ```
//!
//! [`Reasons::print_blocked_of`] prints the same of one connector. `specs/Blocked.antt` defines the text. Contracts say that exactly
//! it was appended to a writer, where its type says which bytes it took; they say nothing of when a writer fails.
//!
//! What is possible in a state, and what is above what, is found once for all interactions. That takes memory for a table. Where there is
//! none the answer is the same, but the order is asked for each pair, which takes much longer under many rules with a condition.
//!
//! - `reasons`: the plant that is asked, and the reasons of a state. `reason`: a reason, as data.
//! - `offering`, `clauses`, `overruling`: the three kinds of reason, found. `hindrance`: why a transition is not offered.
//! - `blocked`: the lines of a state, and of a connector. `report`: what reasons are printed of.
//! - `reason_text`: what is printed of a reason; `idle` of a port that offers nothing, `zero` of a guard that is 0 with its values, `way` of an
//!   interaction that gives way.
//! - `variables`: the variables of an expression in their order. `rules`: what one rule puts below what.
//! - `laws`: what a reason says.
#![tactic(auto)]

mod blocked;
mod clauses;
mod hindrance;
mod idle;
pub mod laws;
mod offering;
mod overruling;
mod reason;
mod reason_text;
mod reasons;
mod report;
mod rules;
mod variables;
mod way;
mod zero;

pub use hindrance::{Hindrance, hindrance_of};
pub use reason::Reason;
pub use reasons::Reasons;
