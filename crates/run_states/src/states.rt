//! The run that picks choose, with its states.

use crate::present::print_present;
use crate::start::{print_head, print_start};
use crate::steps::{print_begin, print_stuck};
use run_text::{Firing, PlantAt, Telling};
use std::io::Write;
use step_core::Stepper;
use text_io::{Format, WriteFault};

/// A run that is printed in a format: what comes before the run, the state at its start, and for each pick the interaction that it
/// fires and the state after it.
#[derive(Clone, Copy)]
pub struct States {
    /// The format.
    pub format: Format,
}

impl Telling for States {
    ghost use Rattle.run_states.specs.States.{state_parts};

    ghost parts = { λ states. state_parts states.format };

    fn tell_start<W: Write>(&self, run: &Stepper<'_>, output: &mut W) -> Result<(), WriteFault> {
        print_head(self.format, run.system(), output)?;
        print_start(self.format, &PlantAt::of(run), output)
    }

    fn tell_fired<W: Write>(
        &mut self,
        firing: &Firing<'_>,
        run: &Stepper<'_>,
        output: &mut W,
    ) -> Result<(), WriteFault> {
        let plant = PlantAt::of(run);
        print_begin(self.format, plant.system, firing, output)?;
        print_present(self.format, &plant, output)
    }

    fn tell_stuck<W: Write>(&self, run: &Stepper<'_>, output: &mut W) -> Result<(), WriteFault> {
        print_stuck(self.format, run.count() > 0, &PlantAt::of(run), output)
    }

    fn tell_end<W: Write>(
        &self,
        _fired: u64,
        _run: &Stepper<'_>,
        _output: &mut W,
    ) -> Result<(), WriteFault> {
        Ok(())
    }
}
