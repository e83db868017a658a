//! Runs that are counted.
//!
//! A run that is counted is not printed step by step: of what was fired it is printed how often each thing came
//! ([`run_summary::Summary`]). Only how the run ended has a line: that it got stuck, and where something came that it was watched for.
//!
//! [`tally_run`] counts one run. [`tally_seeds`] counts a run by random picks for each of some [`Seeds`], one after another, all into one summary; each line then
//! names its seed. `specs/Lines.antt` defines the lines of a run, `specs/Tally.antt` what is printed of one run, and
//! `specs/SeedRuns.antt` what is printed of several.
//!
//! - `counting`: a run that is told to a summary. `ends`: the lines that tell how it ended.
//! - `tally`: one run. `seeds`: the seeds, and how many picks they ask for. `restart`: the plant in its first state once more.
//! - `seed_runs`: a run for each seed. `progress`: who is told how far they are. `outcome`: how runs end.
//!
//! Memory is taken before anything is printed, and none after it.
#![tactic(auto)]

mod counting;
mod ends;
mod outcome;
mod progress;
mod restart;
mod seed_runs;
mod seeds;
mod tally;

pub use progress::{NoProgress, Progress};
pub use seed_runs::tally_seeds;
pub use seeds::Seeds;
pub use tally::tally_run;
