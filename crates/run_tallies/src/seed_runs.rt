//! A run for each seed, all counted into one summary.
ghost use Rattle.std.specs.Prelude.{◌≡◌, if◌then◌else◌, [], None, Some, Err, IfOk};
ghost use Rattle.std.specs.Io.KnownBytes.{Appends};
ghost use Rattle.std.specs.Option.{option_or};
ghost use Rattle.run_text.specs.Seen.{plant_in, plant_of};
ghost use Rattle.run_text.specs.History.{History};
ghost use Rattle.run_text.specs.Ran.{IfRan, OnRan};
ghost use Rattle.run_text.specs.declared.fault.TraceFault.TheVariants.{Memory};
ghost use Rattle.run_summary.specs.Totals.{totals_of};
ghost use Rattle.run_tallies.specs.Made.{AreMade, IsMade};
ghost use Rattle.run_tallies.specs.Seeds.{seeds_in};
ghost use Rattle.run_tallies.specs.SeedRuns.{first_bad, is_bad_end, refusal_among, seed_picks, seeds_text};

use crate::counting::Counting;
use crate::outcome::with_summary;
use crate::progress::Progress;
use crate::restart::restart;
use crate::seeds::{Seeds, random_run};
use plant_model::System;
use run_summary::Summary;
use run_text::{Reached, TraceFault, Watching, Weights, run_picks};
use std::alloc::Global;
use std::io;
use std::io::Write;
use step_core::Stepper;

/// Counts a run of a plant for each seed, from the plant's first states on, by random picks, which weights may rule. It prints the lines that tell
/// how each run ended, and then the summary of all. The answer is the first seed whose run ended by what is watched at a place that `is_bad`
/// marks. Where a pick is refused, the runs end there, and the summary is that of all up to it; a random pick is refused only if 2^64 - 1
/// interactions were fired before it in its run. If several things are watched, as `several` says, the line of an end names the one that holds.
///
/// `progress` is told of each run that came to its end. Memory is taken before anything is printed, and none after it.
pub fn tally_seeds<V: Watching, G: Progress, W: Write>(
    alloc: Global,
    system: &System,
    seeds: Seeds,
    weights: Option<Weights>,
    watching: &V,
    several: bool,
    is_bad: &[bool],
    progress: &mut G,
    output: &mut W,
) -> Result<Option<u64>, TraceFault>
    ensures printed { OnRan result (Appends (W.contents output.old) (W.contents output.new) (seeds_text seeds weights several (V.held watching.now) (plant_of system.now))) }
    ensures refusal { IfRan result (λ refusal. refusal ≡ refusal_among (plant_of system.now) (seed_picks weights (V.held watching.now) (plant_of system.now) seeds.count) (seeds_in seeds)) }
    ensures bad { IfOk result (λ seed. seed ≡ first_bad is_bad.now (V.held watching.now) (plant_of system.now) (seed_picks weights (V.held watching.now) (plant_of system.now) seeds.count) (seeds_in seeds)) }
    ensures nothing_printed { result ≡ Err Memory → output.new ≡ output.old }
{
    let summary = Summary::of(alloc, system)?;
    let mut run = Stepper::first(alloc, system)?;
    let runs = SeedRuns {
        count: seeds.count,
        weights,
        watching,
        several,
    };
    let (summary, ran) = run_seeds(&mut run, &runs, seeds, is_bad, summary, progress, output);
    with_summary(ran, &summary, system, Some(seeds.asked()), output)
}

/// How the run of a seed is made: by so many random picks, which weights may rule, and watched for this, which are several things or not.
#[derive(Drop)]
pub(crate) struct SeedRuns<'a, V> {
    count: u64,
    weights: Option<Weights>,
    watching: &'a V,
    several: bool,
}

/// Makes the runs, whatever the present state of the plant is, and prints their lines. The summary, to which they add, is handed back.
fn run_seeds<V: Watching, G: Progress, W: Write>(
    run: &mut Stepper<'_>,
    runs: &SeedRuns<'_, V>,
    seeds: Seeds,
    is_bad: &[bool],
    summary: Summary,
    progress: &mut G,
    output: &mut W,
) -> (Summary, Result<Option<u64>, TraceFault>)
    requires { summary ≡ totals_of (plant_in run.old) [] }
    ensures { AreMade runs.now.several is_bad.now (V.held runs.now.watching.now) (plant_in run.old) (seed_picks runs.now.weights (V.held runs.now.watching.now) (plant_in run.old) runs.now.count)
        (seeds_in seeds) result.0 result.1 (W.contents output.old) (W.contents output.new) }
{
    let mut summary = summary;
    let mut found = None;
    for place in 0..seeds.number() {
        let seed = seeds.first + place as u64;
        let (more, ended) = run_seed(run, runs, seed, summary, output);
        summary = more;
        match ended {
            Ok(reached) => found = found_after(found, is_bad_end(is_bad, reached), seed),
            Err(fault) => return (summary, Err(fault)),
        }
        progress.seed_done(seed, seeds.last);
    }
    (summary, Ok(found))
}

/// Makes the run of a seed, and prints its lines.
fn run_seed<V: Watching, W: Write>(
    run: &mut Stepper<'_>,
    runs: &SeedRuns<'_, V>,
    seed: u64,
    summary: Summary,
    output: &mut W,
) -> (Summary, Result<Option<Reached>, TraceFault>)
    requires { (told : History) × summary ≡ totals_of (plant_in run.old) told }
    ensures plant { plant_in run.new ≡ plant_in run.old }
    ensures made { IsMade runs.now.several (V.held runs.now.watching.now) (plant_in run.old) (seed_picks runs.now.weights (V.held runs.now.watching.now) (plant_in run.old) runs.now.count seed)
        seed summary result.0 result.1 (W.contents output.old) (W.contents output.new) }
{
    restart(run);
    let mut picks = random_run(runs.weights, seed, runs.count);
    let mut counting = Counting {
        seed: Some(seed),
        watching: runs.watching,
        several: runs.several,
        summary,
    };
    let ended = run_picks(
        run,
        &mut picks,
        runs.watching,
        &mut counting,
        output,
        &mut io::sink(),
    );
    (counting.summary, ended)
}

/// The first seed whose run ended badly, with that of one more seed.
fn found_after(found: Option<u64>, bad: bool, seed: u64) -> Option<u64>
    ensures { result ≡ option_or found (if bad then Some seed else None) }
{
    match found {
        Some(_) => found,
        None if bad => Some(seed),
        None => None,
    }
}

/// Whether a run ended by what is watched at a place that is marked.
fn is_bad_end(is_bad: &[bool], reached: Option<Reached>) -> bool
    ensures { result ≡ is_bad_end is_bad.now reached }
{
    match reached {
        Some(reached) => is_bad.get(reached.watch).copied().unwrap_or(false),
        None => false,
    }
}
