//! One run that is counted.
ghost use Rattle.std.specs.Prelude.{◌≡◌, IfOk, IfSome};
ghost use Rattle.run_text.specs.Seen.{initial_states, plant_of};
ghost use Rattle.run_text.specs.Told.{IsTold};
ghost use Rattle.run_text.specs.Watched.{reached_by};
ghost use Rattle.run_tallies.specs.Tally.{tally_text};

use crate::counting::Counting;
use crate::outcome::with_summary;
use plant_model::System;
use run_summary::Summary;
use run_text::{Picks, Reached, TraceFault, Watching, tell_run};
use std::alloc::Global;
use std::io::Write;

/// Counts the run of a plant from its first states on by picks, of which so many were asked for where that is known, and saves what it fires. How
/// the run ended is printed, and then its summary: also where a pick is refused, of the run up to there. The answer says where the run ended by
/// what it is watched for; if these are several things, as `several` says, the line of its end names the one that holds. Memory is taken before
/// anything is printed, and none after it.
pub fn tally_run<P: Picks, V: Watching, W: Write, S: Write>(
    alloc: Global,
    system: &System,
    picks: &mut P,
    asked: Option<u64>,
    watching: &V,
    several: bool,
    output: &mut W,
    saved: &mut S,
) -> Result<Option<Reached>, TraceFault>
    ensures told { IsTold W.contents S.contents (tally_text asked several (V.held watching.now)) (plant_of system.now)
        (V.taken watching.now (plant_of system.now) (initial_states (plant_of system.now)) (P.left picks.old)) result output.old output.new saved.old saved.new }
    ensures reached { IfOk result (λ reached. IfSome (V.taken watching.now (plant_of system.now) (initial_states (plant_of system.now)) (P.left picks.old))
        (λ left. reached ≡ reached_by (V.held watching.now) (plant_of system.now) (initial_states (plant_of system.now)) left)) }
{
    let mut counting = Counting {
        seed: None,
        watching,
        several,
        summary: Summary::of(alloc, system)?,
    };
    let ran = tell_run(alloc, system, picks, watching, &mut counting, output, saved);
    with_summary(ran, &counting.summary, system, asked, output)
}
