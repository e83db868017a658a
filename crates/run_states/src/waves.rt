//! The run that picks choose, as a value change dump.
ghost use Rattle.std.specs.Prelude.{◌≡◌, IfOk};
ghost use Rattle.run_text.specs.History.{History};
ghost use Rattle.run_text.specs.Seen.{Prints, initial_states, plant_of};
ghost use Rattle.run_states.specs.Waves.{start_values, stuck_line, time_line};

use crate::changes::{copy_states, print_changes};
use crate::declarations::print_declarations;
use crate::values::print_values;
use plant_model::{PlantState, System};
use run_text::{Firing, PlantAt, Telling};
use std::alloc::{AllocError, Global};
use std::io::Write;
use step_core::Stepper;
use text_io::{WriteFault, print_text};

/// A run that is printed as a value change dump: the signals that there are, their values at the start, and for each pick the time,
/// which is the number of the interaction that it fires, and the signals that this changes. Where nothing is fired any more a comment says
/// so, and whether it is by the weights of a random pick. At the end stands one more time, so that the last state has a width.
#[derive(Drop)]
pub struct Waves {
    /// The state before the next interaction.
    before: PlantState,
}

impl Waves {
    /// The run of a plant from its first states on. It takes memory for one state.
    pub fn of(alloc: Global, system: &System) -> Result<Self, AllocError>
        ensures { IfOk result (λ waves. (told : History) → ⟦<Waves as Telling>⟧.IsReady waves (plant_of system.now) told (initial_states (plant_of system.now))) }
    {
        let before = PlantState::init(alloc, system)?;
        Ok(Waves { before })
    }
}

impl Telling for Waves {
    ghost use Rattle.std.specs.Prelude.{◌≡◌};
    ghost use Rattle.run_states.specs.Waves.{wave_parts};

    ghost parts = { λ _. wave_parts };

    ghost IsReady = { λ waves plant told states. waves.before ≡ states };

    fn tell_start<W: Write>(&self, run: &Stepper<'_>, output: &mut W) -> Result<(), WriteFault> {
        print_declarations(run.system(), output)?;
        print_start(&PlantAt::of(run), output)
    }

    fn tell_fired<W: Write>(
        &mut self,
        firing: &Firing<'_>,
        run: &Stepper<'_>,
        output: &mut W,
    ) -> Result<(), WriteFault> {
        print_time(u128::from(firing.number), output)?;
        print_changes(run.system(), &self.before, run.states(), output)?;
        copy_states(run.system(), run.states(), &mut self.before);
        Ok(())
    }

    fn tell_stuck<W: Write>(&self, run: &Stepper<'_>, output: &mut W) -> Result<(), WriteFault> {
        print_text(output, stuck_line(run.count() > 0))
    }

    fn tell_end<W: Write>(
        &self,
        fired: u64,
        _run: &Stepper<'_>,
        output: &mut W,
    ) -> Result<(), WriteFault> {
        print_time(u128::from(fired) + 1, output)
    }
}

/// Prints the values of all signals at the start.
fn print_start<W: Write>(plant: &PlantAt<'_, '_>, output: &mut W) -> Result<(), WriteFault>
    ensures { Prints result (W.contents output.old) (W.contents output.new) (start_values (plant_of plant.now.system.now) plant.now.states.now) }
{
    print_text(output, b"#0\n$dumpvars\n")?;
    print_values(plant, output)?;
    print_text(output, b"$end\n")
}

/// Prints a time.
fn print_time<W: Write>(time: u128, output: &mut W) -> Result<(), WriteFault>
    ensures { Prints result (W.contents output.old) (W.contents output.new) (time_line time) }
{
    writeln!(output, "#{time}")?;
    Ok(())
}

/// The comment that says that nothing is fired any more, and whether it is by the weights of a random pick.
fn stuck_line(by_weights: bool) -> &'static [u8]
    ensures { result.now ≡ stuck_line by_weights }
{
    if by_weights {
        b"$comment stuck by weights $end\n"
    } else {
        b"$comment stuck $end\n"
    }
}
