//! What the words of the command line say of a run of a plant: what it is watched for, and how connectors are weighted.
ghost use Rattle.std.specs.Prelude.{◌≡◌, IfErr, IfOk};
ghost use Rattle.run_text.specs.Seen.{plant_of};
ghost use Rattle.plant_tasks.specs.Ending.{IfRead, IsSilent};
ghost use Rattle.plant_tasks.specs.Printed.{bad_by};
ghost use Rattle.plant_tasks.specs.Words.{AreRead, first_misread};

use crate::ending::PlantEnding;
use crate::task::ReadPlant;
use crate::watches::watches_of;
use crate::weights::weights_of;
use command_line::{Task, WatchWords, WeightWords};
use plant_model::System;
use run_text::Weights;
use run_watches::Watch;
use std::alloc::Global;

/// What the words of the command line say of a run of a plant.
#[derive(Drop)]
pub(crate) struct RunWords {
    /// What it is watched for, in the order of the words.
    pub(crate) watches: Vec<Watch>,
    /// The weights of connectors, if the words give some.
    pub(crate) weights: Option<Weights>,
}

/// What these words say of a run of the plant. Or the first watch that can't be read, and why not, or else the first weight that names no connector.
pub(crate) fn read_words(
    alloc: Global,
    system: &System,
    watches: &[WatchWords<'_>],
    weights: &[WeightWords<'_>],
) -> Result<RunWords, PlantEnding>
    ensures words { IfOk result (AreRead (plant_of system.now) watches.now weights.now) }
    ensures read { IfRead result (λ bad. bad ≡ first_misread (plant_of system.now) watches.now weights.now) }
    ensures silent { IfErr result IsSilent }
{
    let read = watches_of(alloc, system, watches)?;
    let given = weights_of(system, weights)?;
    Ok(RunWords {
        watches: read,
        weights: given,
    })
}

/// Reads what the task watches a run for, and how it weights connectors, if it does. A program asks for it before it makes a file in which is saved what
/// is fired, so that a mistake in the words leaves what was saved before as it is.
pub fn judge_words(alloc: Global, task: &Task<'_>, plant: &ReadPlant<'_>) -> Result<(), PlantEnding>
    ensures read { IfRead result (λ bad. bad ≡ bad_by task.now plant.now) }
    ensures silent { IfErr result IsSilent }
{
    match task {
        Task::Trace(trace) => judge(alloc, plant.system, &trace.watches, &trace.weights),
        Task::Summary(tally) => judge(alloc, plant.system, &tally.watches, &tally.weights),
        Task::Check | Task::Warn | Task::Choices(_) | Task::Why(_) | Task::Draw(_) => Ok(()),
    }
}

/// Reads these words of a run of the plant.
fn judge(
    alloc: Global,
    system: &System,
    watches: &[WatchWords<'_>],
    weights: &[WeightWords<'_>],
) -> Result<(), PlantEnding>
    ensures read { IfRead result (λ bad. bad ≡ first_misread (plant_of system.now) watches.now weights.now) }
    ensures silent { IfErr result IsSilent }
{
    read_words(alloc, system, watches, weights)?;
    Ok(())
}
