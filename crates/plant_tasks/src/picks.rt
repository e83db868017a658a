//! The picks by which a plant is run.
ghost use Rattle.std.specs.Prelude.{◌≡◌, IfOk};
ghost use Rattle.run_text.specs.Seen.{plant_of};
ghost use Rattle.recorded_picks.specs.Followed.{left_in};
ghost use Rattle.run_text.specs.RunPicks.{picks_left};
ghost use Rattle.run_text.specs.Picks.{random_picks};
ghost use Rattle.plant_tasks.specs.Picked.{numbers_of, picks_weighted, random_said};

use command_line::{Numbers, Picking};
use plant_model::System;
use recorded_picks::{Followed, RecordedPicks};
use run_text::{GivenPicks, RandomPicks, RunPicks, Weights};
use std::alloc::{AllocError, Global};
use std::io::BufRead;

/// The picks of a run, whatever gives them; `F` reads the text of those that a text has.
pub(crate) type TaskPicks<'a, F> = RunPicks<'a, Followed<RecordedPicks<'a, F>>>;

/// The picks that the words of the command line ask for, the random ones by the weights of connectors if there are some. Those of a text are read
/// from `input`.
pub(crate) fn picks_of<'a, F: BufRead + Drop>(
    alloc: Global,
    picking: &'a Picking<'_>,
    weights: Option<Weights>,
    system: &'a System,
    input: F,
) -> Result<TaskPicks<'a, F>, AllocError>
    ensures { IfOk result (λ picks. picks_left (left_in (λ left. left)) picks ≡ picks_weighted weights picking.now (plant_of system.now) (F.remaining input)) }
{
    match picking {
        Picking::Given(picks, numbers) => {
            let given = GivenPicks::of(picks, numbers_of(*numbers));
            Ok(RunPicks::Given(given))
        }
        Picking::Recorded(_, numbers, count, seed) => {
            let recorded = RecordedPicks::new(alloc, system, input, numbers_of(*numbers))?;
            let random = random_said(*seed, *count, weights);
            Ok(RunPicks::From(Followed::new(recorded, random)))
        }
        Picking::Random(count, seed) => {
            let random = random_said(*seed, *count, weights);
            Ok(RunPicks::Random(random))
        }
    }
}

/// So many random picks, by a seed, and by the weights of connectors if there are some.
fn random_said(seed: u64, count: u64, weights: Option<Weights>) -> RandomPicks
    ensures { result ≡ random_said weights (random_picks seed count) }
{
    match weights {
        None => RandomPicks::new(seed, count),
        Some(weights) => RandomPicks::weighted(seed, count, weights),
    }
}

/// How numbers are taken, as the words of the command line say.
pub(crate) fn numbers_of(numbers: Numbers) -> run_text::Numbers
    ensures { result ≡ numbers_of numbers }
{
    match numbers {
        Numbers::Modulo => run_text::Numbers::Modulo,
        Numbers::Strict => run_text::Numbers::Strict,
    }
}
