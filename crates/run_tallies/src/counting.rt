//! A run that is told to a summary.

use crate::ends::{print_reached, print_seed};
use run_summary::Summary;
use run_text::{Firing, Telling, Watching, stuck_text};
use std::io::Write;
use step_core::Stepper;
use text_io::{Format, WriteFault, print_text};

/// A run that is counted: its summary is told of each interaction that is fired, and only how the run ended is printed.
#[derive(Drop)]
pub(crate) struct Counting<'a, V> {
    /// The seed of the run, which stands before its lines.
    pub(crate) seed: Option<u64>,
    /// What the run is watched for.
    pub(crate) watching: &'a V,
    /// These are several things: where one comes, it is named.
    pub(crate) several: bool,
    /// All that was fired, in numbers.
    pub(crate) summary: Summary,
}

impl<V: Watching> Telling for Counting<'_, V> {
    ghost use Rattle.std.specs.Prelude.{◌≡◌};
    ghost use Rattle.run_summary.specs.Totals.{totals_of};
    ghost use Rattle.run_tallies.specs.Lines.{tally_parts};

    ghost parts = { λ counting. tally_parts counting.seed counting.several (V.held counting.watching.now) };

    ghost IsReady = { λ counting plant told states. counting.summary ≡ totals_of plant told };

    fn tell_start<W: Write>(&self, _run: &Stepper<'_>, _output: &mut W) -> Result<(), WriteFault> {
        Ok(())
    }

    fn tell_fired<W: Write>(
        &mut self,
        firing: &Firing<'_>,
        run: &Stepper<'_>,
        output: &mut W,
    ) -> Result<(), WriteFault> {
        self.summary.tell_fired(firing, run, output)
    }

    fn tell_stuck<W: Write>(&self, run: &Stepper<'_>, output: &mut W) -> Result<(), WriteFault> {
        print_seed(self.seed, output)?;
        print_text(output, stuck_text(Format::Lines, run.count() > 0))
    }

    fn tell_end<W: Write>(
        &self,
        fired: u64,
        run: &Stepper<'_>,
        output: &mut W,
    ) -> Result<(), WriteFault> {
        match self.watching.first_held(run) {
            Some(watch) => print_reached(self.seed, self.several, fired, watch, output),
            None => Ok(()),
        }
    }
}
