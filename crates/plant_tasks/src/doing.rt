//! What each task prints of a plant that was read.
ghost use Rattle.std.specs.Prelude.{◌≡◌, ◌≢◌, IfErr, IfSome, OnOk, Err, None};
ghost use Rattle.std.specs.Io.KnownBytes.{Appends};
ghost use Rattle.run_text.specs.Ran.{IfRan};
ghost use Rattle.run_text.specs.Runs.{refusal_of};
ghost use Rattle.run_text.specs.declared.fault.TraceFault.{TraceFault};
ghost use Rattle.run_text.specs.declared.fault.TraceFault.TheVariants.{Write as WriteFailed};
ghost use Rattle.plant_tasks.specs.Done.{IsDone};
ghost use Rattle.plant_tasks.specs.Printed.{plant_read, warned_text, why_text};
ghost use Rattle.plant_tasks.specs.Ending.{IfDone, IsOfTask, IsSilent, OnDone, task_ending};

use crate::counts::print_counts;
use crate::drawing::print_drawing;
use crate::ending::PlantEnding;
use crate::picks::picks_of;
use crate::tallies::print_tally;
use crate::task::ReadPlant;
use crate::traces::print_trace;
use blocked_text::Reasons;
use command_line::Task;
use part_lines::{PartLines, rule_lines};
use plant_warnings::print_warnings;
use run_tallies::Progress;
use run_text::{Picks, TraceFault, print_choices_after, run_after};
use std::alloc::Global;
use std::io::{BufRead, Write};

/// Prints what the task says of the plant, and saves what it fires if it is to. How far many runs have come is told to `progress`.
pub(crate) fn print_task<F: BufRead + Drop, W: Write, S: Write, G: Progress>(
    alloc: Global,
    task: &Task<'_>,
    plant: &ReadPlant<'_>,
    input: F,
    output: &mut W,
    saved: &mut S,
    progress: &mut G,
) -> Result<(), PlantEnding>
    ensures { IsDone W.contents S.contents task.now plant.now (F.remaining input) result output.old output.new saved.old saved.new }
{
    let system = plant.system;
    match task {
        Task::Check => Ok(print_counts(system, output)?),
        Task::Warn => print_warned(alloc, plant, output),
        Task::Trace(trace) => print_trace(alloc, trace, plant, input, output, saved),
        Task::Summary(tally) => print_tally(alloc, tally, plant, input, output, saved, progress),
        Task::Choices(picking) => {
            let mut picks = picks_of(alloc, picking, None, system, input)?;
            task_ended(print_choices_after(alloc, system, &mut picks, output))
        }
        Task::Why(picking) => {
            let mut picks = picks_of(alloc, picking, None, system, input)?;
            task_ended(print_why(alloc, plant, &mut picks, output))
        }
        Task::Draw(drawing) => print_drawing(alloc, drawing, system, input, output),
    }
}

/// How a task ends whose run ended so.
pub(crate) fn task_ended(ran: Result<(), TraceFault>) -> Result<(), PlantEnding>
    ensures { result ≡ task_ending ran }
{
    match ran {
        Ok(()) => Ok(()),
        Err(fault) => Err(PlantEnding::from(fault)),
    }
}

/// Prints why connectors can't be fired after the picks. Where one of them is refused nothing is printed.
fn print_why<P: Picks, W: Write>(
    alloc: Global,
    plant: &ReadPlant<'_>,
    picks: &mut P,
    output: &mut W,
) -> Result<(), TraceFault>
    ensures refusal { IfRan result (λ refusal. IfSome (P.left picks.old) (λ left. refusal ≡ refusal_of (plant_read plant.now) left)) }
    ensures printed { OnOk result (IfSome (P.left picks.old) (λ left. Appends (W.contents output.old) (W.contents output.new)
        (why_text plant.now left))) }
    ensures nothing_printed { (fault : TraceFault) → result ≡ Err fault → fault ≢ WriteFailed → output.new ≡ output.old }
{
    let lines = rule_lines(alloc, plant.text)?;
    let reasons = Reasons::new(alloc, plant.system);
    let run = run_after(alloc, plant.system, picks)?;
    reasons.print_blocked(run.states(), &lines, output)?;
    Ok(())
}

/// Prints how many parts the plant has, and what is probably a mistake in it.
fn print_warned<W: Write>(
    alloc: Global,
    plant: &ReadPlant<'_>,
    output: &mut W,
) -> Result<(), PlantEnding>
    ensures printed { OnDone result (Appends (W.contents output.old) (W.contents output.new)
        (warned_text plant.now)) }
    ensures refusal { IfDone result (λ refusal. refusal ≡ None) }
    ensures of_task { IfErr result IsOfTask }
    ensures nothing_printed { IfErr result (λ ending. IsSilent ending → output.new ≡ output.old) }
{
    let lines = PartLines::of_text(alloc, plant.text)?;
    print_counts(plant.system, output)?;
    print_warnings(plant.system, &lines, plant.path.as_bytes(), output)?;
    Ok(())
}
