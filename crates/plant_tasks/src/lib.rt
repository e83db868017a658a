//! What is done with a plant's text, for both programs: it is read, and what it means is counted, run or drawn.
//!
//! [`read_plant`] gives the plant of a text, [`judge_words`] reads what a task watches a run of it for and how it weights connectors,
//! [`perform`] does the task, from a reader of picks to two writers, and [`step`] lets the plant be run by hand. Where that ends early, a [`PlantEnding`] says why, [`PlantEndingText`] is its
//! line, and it knows the exit status of a program that ends so. What is printed and what is saved are definitions of `specs/`, to which contracts
//! tie the functions that do it. Files are opened by `source` alone.
//!
//! - `task`: a plant is read, and a task is done with it. `doing`: what each task prints. `picks`: the picks of a run. `counts`: how many
//!   parts a plant has. `drawing`: what is drawn of it. `by_hand`: a run by hand.
//! - `traces`: a run that is printed. `tallies`: runs that are counted. `words`: what the words of the command line say of them; `watches`: what they are
//!   watched for, `weights`: how connectors are weighted. `reaching`: what is printed behind a run where something came that it is watched for.
//! - `ending`: why a program ends early at the words, the plant's text, the picks, the memory or the output.
//! - `process`: the words of the command line, and what more is printed of an ending on the standard error; `near`: a connector that was
//!   perhaps meant. `watched`: readers and writers that
//!   remember why they failed. `source`: the texts that a program reads, each the standard input or a file. `paths`: paths as they are shown.
#![tactic(auto)]

mod by_hand;
mod counts;
mod doing;
mod drawing;
mod ending;
mod near;
mod paths;
mod picks;
mod process;
mod reaching;
mod source;
mod tallies;
mod task;
mod traces;
mod watched;
mod watches;
mod weights;
mod words;

pub use by_hand::{RecordedText, step};
pub use ending::{PlantEnding, PlantEndingText, ended};
pub use near::tell_near_connector;
pub use paths::{TaskPaths, shown_path};
pub use process::{tell_file_failure, tell_more, tell_output_failure, words_of_process};
pub use source::{Source, open_text, plant_at};
pub use task::{ReadPlant, perform, read_plant};
pub use watched::Watched;
pub use words::judge_words;
