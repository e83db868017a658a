//! The order that priority rules put on the interactions of a plant.
//!
//! A rule puts each interaction of its left side below each of its right side; a side is a whole
//! connector or one interaction. A maximal connector puts each of its interactions below those that
//! have all its leaves and more. An interaction is *below* another if a chain of such steps, one
//! at least, leads from it up to the other. A chain may lead through interactions that are not
//! possible just now.
//!
//! Contracts see an [`Order`] as the rules and the interactions that it was made from, and an
//! [`InteractionSet`] as a finite set of interaction numbers.
//!
//! - [`Order::new`] refuses the first rule that names something unknown, and then the first
//!   interaction that is below itself. So an order that was made is strict.
//! - A rule may have a condition: a place of an atom. It counts while the place is marked, and if nothing is known of the atom it
//!   may. The order of a state is the one that the rules that count put; a row of [`Seen`] tells which they are.
//! - [`Order::below_at`] is exactly that order, and [`Order::table_at`] has it for all pairs at once. [`Order::filter`] leaves those
//!   of some candidates that have no rival above them, 64 at a time. [`Order::above_word`] and [`Order::below_word`] tell for one
//!   interaction what is above it and what is below it by the rules without a condition, 64 at a time too.
//! - [`laws`] has what follows from the definitions: below is transitive, an order that was made is strict whichever conditions
//!   hold, and if something is possible, some possible interaction has no possible one above it.
//!
//! The definitions: `specs/Rule.antt` says what one rule puts below what, `specs/Order.antt` what
//! a chain is, and `specs/Active.antt` which rules count. `specs/Decided.antt` says the same as tests and searches that compute, for definitions
//! that count or list; laws tie each to its relation, and the contracts cite both.
//!
//! - `rule`: a rule and its sides. `mask`: whether a leaf mask has all leaves of another, and more.
//! - `seen`: the condition of a rule, and what is seen of the atoms. `watched`: the places that the conditions ask for.
//! - `order`: the order; how it is made, and what is below what. `fault`: why there is none.
//! - `table`: the order of the rules without a condition, as one row of bits for each interaction, and the same the other way round.
//! - `condition`: the rules with a condition, as two sets each, and what they add.
//! - `filter`: those of some candidates that no rival is above.
//! - `interaction_set`: a set of interaction numbers, as a row of bits.
//! - `laws`: what follows from the definitions.
#![tactic(auto)]

mod condition;
pub mod fault;
mod filter;
pub mod interaction_set;
pub mod laws;
mod mask;
pub mod order;
pub mod rule;
pub mod seen;
mod table;
mod watched;

pub use fault::OrderFault;
pub use interaction_set::{INTERACTION_LIMIT, InteractionSet, ROW_WORDS};
pub use order::Order;
pub use rule::{Rule, Side};
pub use seen::{At, SEEN_ATOMS, SEEN_PLACES, Seen};
