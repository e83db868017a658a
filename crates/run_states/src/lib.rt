//! The states of a run, step by step.
//!
//! Two ways to print a run with all that it goes through: two [`run_text::Telling`]s, for [`run_text::tell_run`]. `specs/States.antt`
//! and `specs/Waves.antt` define their texts, each by the parts of a run. Contracts say that exactly this text was appended to a writer,
//! if its type says which bytes it took; they say nothing of when a writer fails.
//!
//! - `states`: the state at the start, and then for each pick the interaction that it fires and the state after it, in a
//!   [`text_io::Format`] ([`States`]). `start`: what stands before the first step. `steps`: the steps. `present`: a state in each format.
//!   `columns`: a state as columns of a row. `objects`: a state as JSON objects.
//! - `waves`: a value change dump (VCD, IEEE 1364), which a wave viewer such as GTKWave shows ([`Waves`]). A place is a wire of one bit,
//!   a variable a signal of 64 bits, and time counts fired interactions. `declarations`: the signals that there are. `signals`: a
//!   signal's code and its values. `values`: the values of all signals. `changes`: those that differ from the state before.
//!
//! Memory is taken only for waves, to make them: a second state of the plant that runs.
#![tactic(auto)]

mod changes;
mod columns;
mod declarations;
mod objects;
mod present;
mod signals;
mod start;
mod states;
mod steps;
mod values;
mod waves;

pub use present::print_present;
pub use states::States;
pub use waves::Waves;
