//! The run that picks choose, printed in a format.
ghost use Rattle.std.specs.Prelude.{◌≡◌, ◌≢◌, Err};
ghost use Rattle.run_text.specs.Seen.{Prints, plant_of};
ghost use Rattle.run_text.specs.Picks.{counted_picks};
ghost use Rattle.run_text.specs.ByRows.{step_by_rows};
ghost use Rattle.run_text.specs.Trace.{trace_in, trace_text};
ghost use Rattle.run_text.specs.declared.fault.Refusal.{Refusal};
ghost use Rattle.run_text.specs.declared.fault.TraceFault.TheVariants.{Memory, Refused};

use crate::csv::print_step_row;
use crate::fault::TraceFault;
use crate::fired::{Firing, print_choice};
use crate::format::{head_text, stuck_text};
use crate::jsonl::print_step_object;
use crate::pick::Numbers;
use crate::picks::GivenPicks;
use crate::plant_at::PlantAt;
use crate::running::tell_run;
use crate::states::print_end;
use crate::telling::Telling;
use crate::watching::Unwatched;
use plant_model::System;
use std::alloc::Global;
use std::io;
use std::io::Write;
use step_core::Stepper;
use text_io::{Format, WriteFault, end_line, print_text};

/// Prints the run of a plant from its first states on in the fixed lines, as [`trace_as`] does with [`Format::Lines`]: for each
/// pick the line of the interaction that it fires, and then the line of each atom's state.
///
/// A pick takes the entry of the state's choices at the pick modulo their number. Where there is no choice the line
/// `stuck` is printed, and the picks that follow are passed over.
pub fn trace_to<W: Write>(
    alloc: Global,
    system: &System,
    picks: &[u64],
    output: &mut W,
) -> Result<(), TraceFault>
    ensures trace { Prints result (W.contents output.old) (W.contents output.new) (trace_text (plant_of system.now) picks.now) }
    ensures not_refused { (refusal : Refusal) → result ≢ Err (Refused refusal) }
    ensures nothing_written { result ≡ Err Memory → output.new ≡ output.old }
{
    trace_as(alloc, system, picks, Format::Lines, output)
}

/// Prints the run of a plant from its first states on in a format, by picks that are given one by one.
///
/// A pick is taken as [`trace_to`] takes it, and the run is printed as a [`Trace`].
pub fn trace_as<W: Write>(
    alloc: Global,
    system: &System,
    picks: &[u64],
    format: Format,
    output: &mut W,
) -> Result<(), TraceFault>
    ensures trace { Prints result (W.contents output.old) (W.contents output.new) (trace_in format (plant_of system.now) (counted_picks picks.now)) }
    ensures not_refused { (refusal : Refusal) → result ≢ Err (Refused refusal) }
    ensures nothing_written { result ≡ Err Memory → output.new ≡ output.old }
{
    let mut given = GivenPicks::of(picks, Numbers::Modulo);
    let mut trace = Trace { format };
    tell_run(
        alloc,
        system,
        &mut given,
        &Unwatched,
        &mut trace,
        output,
        &mut io::sink(),
    )?;
    Ok(())
}

/// A run that is printed in a format: what comes before the run, for each pick the line of the interaction that it fires, and at its
/// end a line for the state of each atom.
#[derive(Clone, Copy)]
pub struct Trace {
    /// The format.
    pub format: Format,
}

impl Telling for Trace {
    ghost use Rattle.run_text.specs.Trace.{trace_parts};

    ghost parts = { λ trace. trace_parts trace.format };

    fn tell_start<W: Write>(&self, _run: &Stepper<'_>, output: &mut W) -> Result<(), WriteFault> {
        print_text(output, head_text(self.format))
    }

    fn tell_fired<W: Write>(
        &mut self,
        firing: &Firing<'_>,
        run: &Stepper<'_>,
        output: &mut W,
    ) -> Result<(), WriteFault> {
        print_fired_step(self.format, run.system(), firing, output)?;
        end_line(output)
    }

    fn tell_stuck<W: Write>(&self, run: &Stepper<'_>, output: &mut W) -> Result<(), WriteFault> {
        print_text(output, stuck_text(self.format, run.count() > 0))
    }

    fn tell_end<W: Write>(
        &self,
        _fired: u64,
        run: &Stepper<'_>,
        output: &mut W,
    ) -> Result<(), WriteFault> {
        print_end(self.format, &PlantAt::of(run), output)
    }
}

/// Prints the line of a choice that was fired, without its end.
pub fn print_fired_step<W: Write>(
    format: Format,
    system: &System,
    firing: &Firing<'_>,
    output: &mut W,
) -> Result<(), WriteFault>
    ensures { Prints result (W.contents output.old) (W.contents output.new) (step_by_rows format (plant_of system.now) firing.now) }
{
    match format {
        Format::Lines => print_choice(firing.number, system, firing.choice, output),
        Format::Csv => print_step_row(system, firing, output),
        Format::Jsonl => print_step_object(system, firing, output),
    }
}
