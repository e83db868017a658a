//! The run of a plant that is printed and saved, as the words of the command line ask for it.
ghost use Rattle.std.specs.Prelude.{◌≡◌, IfOk, IfSome};
ghost use Rattle.run_text.specs.Seen.{initial_states, plant_of};
ghost use Rattle.run_text.specs.Told.{IsTold};
ghost use Rattle.run_text.specs.Watched.{reached_by, watched};
ghost use Rattle.run_watches.specs.Watches.{first_of};
ghost use Rattle.plant_tasks.specs.Done.{IsDone};
ghost use Rattle.plant_tasks.specs.Ending.{trace_ending};
ghost use Rattle.plant_tasks.specs.Reached.{are_several};
ghost use Rattle.plant_tasks.specs.Traced.{run_shaped};
ghost use Rattle.command_line.specs.declared.request.Task.TheVariants.{Trace as TraceTask};

use crate::ending::PlantEnding;
use crate::picks::picks_of;
use crate::reaching::Reaching;
use crate::task::ReadPlant;
use crate::watches::is_held;
use crate::words::read_words;
use command_line::{Shape, Trace, WatchWords};
use plant_model::System;
use run_states::{States, Waves};
use run_text::{Picks, Reached, TraceFault, tell_run};
use run_watches::Watches;
use std::alloc::Global;
use std::io::{BufRead, Write};

/// Prints the run that the words ask for, and saves what it fires. Before any pick, what it is watched for is read, and how connectors are weighted.
pub(crate) fn print_trace<F: BufRead + Drop, W: Write, S: Write>(
    alloc: Global,
    trace: &Trace<'_>,
    plant: &ReadPlant<'_>,
    input: F,
    output: &mut W,
    saved: &mut S,
) -> Result<(), PlantEnding>
    ensures { IsDone W.contents S.contents (TraceTask trace.now) plant.now (F.remaining input) result output.old output.new saved.old saved.new }
{
    let system = plant.system;
    let words = read_words(alloc, system, &trace.watches, &trace.weights)?;
    let watching = Watches {
        watches: &words.watches,
    };
    let mut picks = picks_of(alloc, &trace.picking, words.weights, system, input)?;
    let ran = print_run(
        alloc,
        trace.shape,
        system,
        &mut picks,
        watching,
        output,
        saved,
    );
    trace_ended(&trace.watches, ran)
}

/// Prints a run by the picks in a shape, up to where something comes that it is watched for, and saves what it fires.
fn print_run<P: Picks, W: Write, S: Write>(
    alloc: Global,
    shape: Shape,
    system: &System,
    picks: &mut P,
    watching: Watches<'_>,
    output: &mut W,
    saved: &mut S,
) -> Result<Option<Reached>, TraceFault>
    ensures told { IsTold W.contents S.contents (run_shaped shape (are_several watching.entry.watches.now) (first_of watching.entry.watches.now)) (plant_of system.now)
        (watched (first_of watching.entry.watches.now) (plant_of system.now) (initial_states (plant_of system.now)) 1 (P.left picks.old)) result output.old output.new saved.old saved.new }
    ensures reached { IfOk result (λ reached. IfSome (watched (first_of watching.entry.watches.now) (plant_of system.now) (initial_states (plant_of system.now)) 1 (P.left picks.old))
        (λ left. reached ≡ reached_by (first_of watching.entry.watches.now) (plant_of system.now) (initial_states (plant_of system.now)) left)) }
{
    match shape {
        Shape::Steps(format) => {
            let telling = run_text::Trace { format };
            let mut reaching = Reaching {
                telling,
                shape,
                watches: watching,
            };
            tell_run(
                alloc,
                system,
                picks,
                &watching,
                &mut reaching,
                output,
                saved,
            )
        }
        Shape::States(format) => {
            let telling = States { format };
            let mut reaching = Reaching {
                telling,
                shape,
                watches: watching,
            };
            tell_run(
                alloc,
                system,
                picks,
                &watching,
                &mut reaching,
                output,
                saved,
            )
        }
        Shape::Waves => {
            let telling = Waves::of(alloc, system)?;
            let mut reaching = Reaching {
                telling,
                shape,
                watches: watching,
            };
            tell_run(
                alloc,
                system,
                picks,
                &watching,
                &mut reaching,
                output,
                saved,
            )
        }
    }
}

/// How a task ends whose run ended so, which these words watch.
pub(crate) fn trace_ended(
    words: &[WatchWords<'_>],
    ran: Result<Option<Reached>, TraceFault>,
) -> Result<(), PlantEnding>
    ensures { result ≡ trace_ending words.now ran }
{
    match ran {
        Ok(reached) => {
            if is_held(words, reached) {
                Err(PlantEnding::Held)
            } else {
                Ok(())
            }
        }
        Err(fault) => Err(PlantEnding::from(fault)),
    }
}
