//! The run of a plant by picks, printed.
//!
//! A run is printed line by line: a line for each interaction that is fired, and at the end a line for the state of each
//! atom. The lines are the fixed ones (`specs/Line.antt`), rows of five columns (`specs/Csv.antt`) or JSON objects
//! (`specs/Jsonl.antt`); `specs/Trace.antt` defines the text of a run in each [`text_io::Format`]. Contracts say that exactly this text
//! was appended to a writer, if its type says which bytes it took; they say nothing of when a writer fails.
//!
//! **Picks.** A [`Pick`] takes the next choice: by a number, by a number and the weights of connectors ([`Weights`]), or by a choice that it names ([`Take`]).
//! `specs/Taken.antt` says what each takes in a state, and `specs/Weights.antt` what one by weights does. A number past the list, a choice that the state does not have, and what can't be read are refused: the run ends
//! there, nothing more is printed, and the answer says which pick it was and why ([`Refusal`]). A source of picks ([`Picks`]) may also fail
//! ([`ReadFault`]). Where its type says which picks it gives, contracts say what exactly comes of them.
//!
//! **One run for all.** [`tell_run`] runs a plant from its first states on, and [`run_picks`] one that runs: they fire what picks take.
//! How it is printed is a [`Telling`], whose texts have four parts: the start, each fired interaction, a state from which nothing is fired
//! any more, and the end (`specs/Steps.antt`). Such a state has no choice; or it has some, and the weights of a random pick leave none of
//! them (`specs/Stuck.antt`). A telling can keep what it needs of all that was fired (`specs/History.antt`). Each fired interaction can
//! also be saved, as a line such as `send A.t/0 B.u/0`, which can be read as a pick.
//!
//! - `pick`: what a pick says. `picks`: where picks come from: a list, random ones by a seed, or another source. `taking`: what a pick
//!   takes in a state: [`taken_after`] answers which choice is fired, that none is, or why the pick is refused ([`Taking`]).
//! - `weights`: the weights of connectors. `weighted`: what a number takes by them, [`by_weight`]. `own_numbers`: the numbers of a connector's choices,
//!   [`numbers_of`].
//! - `telling`: how a run is printed. `watching`: what a run is watched for ([`Watching`]), by which it ends (`specs/Watched.antt`). `running`: the run.
//! - `trace`: a run in a format ([`Trace`]). [`trace_as`] prints that of a list of numbers, [`trace_to`] in the fixed lines.
//! - `fired`: a choice that was fired ([`Firing`]). [`print_choice`] prints a fired interaction, as `2 send A.t/0 B.u/0`, [`print_interaction`] the same without its number, and
//!   [`print_saved_line`] that as a line which can be read as a pick.
//! - `plant_at`: a plant in a state. `states`: [`print_states`] prints the states, as `state A [s] n=4`, [`print_state`] that of one atom; and the lines of the states in
//!   each format.
//! - `choices`: [`print_choices`] lists what can be fired next, as `0 tick A.t/0`; [`print_choices_after`] the same after some picks, and
//!   [`run_after`] is the plant then.
//! - `csv` and `jsonl`: the rows, and the objects.
//! - `delivered`: the values that a firing delivers, as words.
//! - `format` and `word`: what in a run, and in a line, differs by the format alone.
//! - `fault`: why a pick is refused, and why a run was not printed to its end. `shown_word`: a word of a line as a message shows it ([`Word`]).
//! - `laws`: what picks take, and what is printed of the run that they choose.
//!
//! A crate that prints a run in another way makes a [`Telling`] of the parts from here: [`print_fired_step`] and [`print_step_members`]
//! print an interaction that was fired, [`print_transition_name`] names a transition, [`stuck_text`] says that nothing is fired any more;
//! [`print_places`], [`is_marked`], [`value_at`] and [`print_state_members`] read and print a state. [`picked`] is the choice that a number
//! takes.
//!
//! Memory is taken only to make the plant that runs (its states, and what a step keeps), before anything is printed.
#![tactic(auto)]

mod choices;
mod csv;
mod delivered;
mod fault;
mod fired;
mod format;
mod jsonl;
pub mod laws;
mod own_numbers;
mod pick;
mod picks;
mod plant_at;
mod running;
mod shown_word;
mod states;
mod taking;
mod telling;
mod trace;
mod watching;
mod weighted;
mod weights;
mod word;

pub use choices::{MOST_LISTED, print_choices, print_choices_after, run_after};
pub use fault::{ReadFault, Refusal, RefusedPick, TraceFault};
pub use fired::{Firing, print_choice, print_interaction, print_saved_line, print_transition_name};
pub use format::stuck_text;
pub use jsonl::{print_state_members, print_step_members};
pub use own_numbers::{OwnNumbers, numbers_of};
pub use pick::{Misread, Numbers, Pick, Take};
pub use picks::{GivenPicks, Picks, RandomPicks, RunPicks};
pub use plant_at::PlantAt;
pub use running::{run_picks, tell_run};
pub use shown_word::{MOST_SHOWN, Word};
pub use states::{is_marked, print_places, print_state, print_states, value_at};
pub use taking::{Taking, picked, taken_after};
pub use telling::Telling;
pub use trace::{Trace, print_fired_step, trace_as, trace_to};
pub use watching::{Reached, Unwatched, Watching};
pub use weighted::by_weight;
pub use weights::{MOST_WEIGHT, USUAL_WEIGHT, Weights};
