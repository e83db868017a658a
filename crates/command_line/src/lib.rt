//! The command line of the program: its words, judged by `clap`, and its help.
//!
//! `read_request` gives what the words ask for. Where `clap` has something to say in its place, it is printed here, so that no
//! crate above needs to know of `clap`:
//!
//! - `words`: how a request is read from the words. `names`: the words that name commands and options. `commands`, `arguments`: the
//!   commands, as `clap` takes them. `help`: what its help says of them.
//! - `said`: what `clap` found of a command, part by part. `asked`: what that asks for.
//! - `picking`: how the choices of a run are picked. `picks`: the words of a run's picks. `runs`: the words for how a run is printed. `summary`:
//!   what the words of a run that is counted may not ask for. `seeds`: the word for the seeds of several runs. `weights`: the words for the weights of
//!   connectors. `watching`: the words for what a run is watched for. `ring`: the word for an image's room. `workers`: the word for how many share the
//!   events of a run. `input`: the word for the standard input. `apart`: which files may not be one another.
//! - `answer`: what `clap` says in place of a request, and how the program then ends. `shown`: words as they are shown. `request`: what is asked for.
//!
//! `request_of` has the contract that its request is what the words of the command ask for that `clap` found; which words these are is
//! `clap`'s to say, and tests show it.
#![tactic(auto)]

mod answer;
mod apart;
mod arguments;
mod asked;
mod commands;
mod help;
mod input;
mod names;
mod picking;
mod picks;
mod request;
mod ring;
mod runs;
mod said;
mod seeds;
mod shown;
mod summary;
mod watching;
mod weights;
mod words;
mod workers;

pub use answer::Answered;
pub use input::is_standard_input;
pub use request::{
    Asking, Care, Drawing, Exploration, IfThere, ImageTask, Inspection, LoneTask, MOST_WEIGHT,
    Numbers, Picking, Recording, Request, Runs, Seeds, Shape, Subject, Tally, Task, Trace, View,
    WatchKind, WatchWords, WeightWords, Work,
};
pub use ring::RingLength;
pub use shown::shown_word;
pub use words::read_request;
pub use workers::{MOST_WORKERS, WorkerCount};
