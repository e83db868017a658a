//! Runs of a plant that are counted, as the words of the command line ask for it.
ghost use Rattle.std.specs.Prelude.{◌≡◌, IfOk};
ghost use Rattle.run_text.specs.Seen.{plant_of};
ghost use Rattle.plant_tasks.specs.Done.{IsDone};
ghost use Rattle.plant_tasks.specs.Ending.{seeds_ending};
ghost use Rattle.plant_tasks.specs.Printed.{plant_read};
ghost use Rattle.plant_tasks.specs.Tallied.{AreCounted, count_asked, nevers_in, seeds_of};
ghost use Rattle.plant_tasks.specs.Words.{AreRead};
ghost use Rattle.command_line.specs.declared.request.Runs.TheVariants.{One};
ghost use Rattle.command_line.specs.declared.request.Task.TheVariants.{Summary};

use crate::ending::PlantEnding;
use crate::picks::picks_of;
use crate::reaching::are_several;
use crate::task::ReadPlant;
use crate::traces::trace_ended;
use crate::words::{RunWords, read_words};
use command_line::{Picking, Runs, Tally, WatchKind, WatchWords};
use plant_model::System;
use run_tallies::{Progress, Seeds, tally_run, tally_seeds};
use run_text::TraceFault;
use run_watches::Watches;
use std::alloc::{AllocError, Global};
use std::io::{BufRead, Write};

/// Prints the runs that the words ask for, counted, and saves what is fired where it is one run. Before any pick, what they are watched for is read, and how
/// connectors are weighted. How far the runs of seeds have come is told to `progress`.
pub(crate) fn print_tally<F: BufRead + Drop, W: Write, S: Write, G: Progress>(
    alloc: Global,
    tally: &Tally<'_>,
    plant: &ReadPlant<'_>,
    input: F,
    output: &mut W,
    saved: &mut S,
    progress: &mut G,
) -> Result<(), PlantEnding>
    ensures { IsDone W.contents S.contents (Summary tally.now) plant.now (F.remaining input) result output.old output.new saved.old saved.new }
{
    let words = read_words(alloc, plant.system, &tally.watches, &tally.weights)?;
    match &tally.runs {
        Runs::One(picking) => {
            print_run(alloc, tally, picking, &words, plant, input, output, saved)
        }
        Runs::Seeds(seeds) => {
            let ran = print_seeds(alloc, tally, *seeds, &words, plant.system, output, progress);
            seeds_ended(ran)
        }
    }
}

/// Prints one run by these picks.
fn print_run<F: BufRead + Drop, W: Write, S: Write>(
    alloc: Global,
    tally: &Tally<'_>,
    picking: &Picking<'_>,
    words: &RunWords,
    plant: &ReadPlant<'_>,
    input: F,
    output: &mut W,
    saved: &mut S,
) -> Result<(), PlantEnding>
    requires { AreRead (plant_read plant.now) tally.now.watches.items tally.now.weights.items words.now }
    ensures { IsDone W.contents S.contents (Summary (record tally.now { runs = One picking.now })) plant.now (F.remaining input) result output.old output.new saved.old saved.new }
{
    let system = plant.system;
    let watching = Watches {
        watches: &words.watches,
    };
    let mut picks = picks_of(alloc, picking, words.weights, system, input)?;
    let ran = tally_run(
        alloc,
        system,
        &mut picks,
        count_asked(picking),
        &watching,
        are_several(watching),
        output,
        saved,
    );
    trace_ended(&tally.watches, ran)
}

/// Prints the runs of the seeds. The answer is the first seed whose run came to what must not hold.
fn print_seeds<W: Write, G: Progress>(
    alloc: Global,
    tally: &Tally<'_>,
    seeds: command_line::Seeds,
    words: &RunWords,
    system: &System,
    output: &mut W,
    progress: &mut G,
) -> Result<Option<u64>, TraceFault>
    requires { AreRead (plant_of system.now) tally.now.watches.items tally.now.weights.items words.now }
    ensures { AreCounted W.contents tally.now (seeds_of seeds) (plant_of system.now) result output.old output.new }
{
    let nevers = nevers_in(alloc, &tally.watches)?;
    let watching = Watches {
        watches: &words.watches,
    };
    tally_seeds(
        alloc,
        system,
        seeds_of(seeds),
        words.weights,
        &watching,
        are_several(watching),
        &nevers,
        progress,
        output,
    )
}

/// How many picks a run is asked for, where that is known.
fn count_asked(picking: &Picking<'_>) -> Option<u64>
    ensures { result ≡ count_asked picking.now }
{
    match picking {
        Picking::Given(picks, _) => Some(picks.len() as u64),
        Picking::Recorded(_, _, _, _) => None,
        Picking::Random(count, _) => Some(*count),
    }
}

/// The seeds for which runs are asked.
fn seeds_of(seeds: command_line::Seeds) -> Seeds
    ensures { result ≡ seeds_of seeds }
{
    Seeds {
        count: seeds.count,
        first: seeds.first,
        last: seeds.last,
    }
}

/// Of each of the words, whether it must not hold.
fn nevers_in(alloc: Global, words: &[WatchWords<'_>]) -> Result<Vec<bool>, AllocError>
    ensures { IfOk result (λ nevers. nevers.items ≡ nevers_in words.now) }
{
    let mut nevers = Vec::new(alloc);
    for one in words {
        nevers
            .push(matches!(one.kind, WatchKind::Never))
            .map_err(AllocError::from)?;
    }
    Ok(nevers)
}

/// How a task ends whose runs of seeds ended so.
fn seeds_ended(ran: Result<Option<u64>, TraceFault>) -> Result<(), PlantEnding>
    ensures { result ≡ seeds_ending ran }
{
    match ran {
        Ok(Some(_)) => Err(PlantEnding::Held),
        Ok(None) => Ok(()),
        Err(fault) => Err(PlantEnding::from(fault)),
    }
}
