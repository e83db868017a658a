//! How a run is printed.
use crate::fired::Firing;
use std::io::Write;
use step_core::Stepper;
use text_io::WriteFault;

/// How a run is printed.
pub trait Telling {
    ghost use Rattle.std.specs.Prelude.{◌≡◌, ◌+◌, ◌∷◌, List, OnOk};
    ghost use Rattle.run_text.specs.Seen.{Local, PlantDefinition, Prints, choice_of, plant_in, states_in};
    ghost use Rattle.run_text.specs.Fired.{HasFired};
    ghost use Rattle.run_text.specs.History.{History};
    ghost use Rattle.run_text.specs.Steps.{Parts};

    /// The texts of the parts of a run.
    ghost parts: { Self → Parts };

    /// It was told of what was fired so far in a plant, and can print what is fired from this state.
    ghost IsReady: { Self → PlantDefinition → History → List Local → Type 0 } = { λ _ _ _ _. Unit {0} };

    /// Prints what stands before the first choice, in the first state.
    fn tell_start<W: Write>(&self, run: &Stepper<'_>, output: &mut W) -> Result<(), WriteFault>
        ensures { Prints result (W.contents output.old) (W.contents output.new) ((parts self.now).start (plant_in run.now) (states_in run.now)) };

    /// Prints a choice that was fired; the plant is in the state after it.
    fn tell_fired<W: Write>(
        &mut self,
        firing: &Firing<'_>,
        run: &Stepper<'_>,
        output: &mut W,
    ) -> Result<(), WriteFault>
        requires { (told : History) × (before : List Local) × IsReady self.old (plant_in run.now) told before × HasFired (plant_in run.now) before firing.now (states_in run.now) }
        ensures same { parts self.new ≡ parts self.old }
        ensures ready { (told : History) (before : List Local) → IsReady self.old (plant_in run.now) told before → HasFired (plant_in run.now) before firing.now (states_in run.now) →
            OnOk result (IsReady self.new (plant_in run.now) (record { before = before; choice = choice_of firing.now.choice.now } ∷ told) (states_in run.now)) }
        ensures printed { (told : History) (before : List Local) → IsReady self.old (plant_in run.now) told before → HasFired (plant_in run.now) before firing.now (states_in run.now) →
            Prints result (W.contents output.old) (W.contents output.new) ((parts self.old).fired (plant_in run.now) before firing.now.number (choice_of firing.now.choice.now)) };

    /// Prints that nothing is fired any more: the present state has no choice, or the weights of a random pick leave none.
    fn tell_stuck<W: Write>(&self, run: &Stepper<'_>, output: &mut W) -> Result<(), WriteFault>
        ensures { Prints result (W.contents output.old) (W.contents output.new) ((parts self.now).stuck (plant_in run.now) (states_in run.now)) };

    /// Prints the end, in the present state and after so many fired interactions.
    fn tell_end<W: Write>(
        &self,
        fired: u64,
        run: &Stepper<'_>,
        output: &mut W,
    ) -> Result<(), WriteFault>
        ensures { Prints result (W.contents output.old) (W.contents output.new) ((parts self.now).end (plant_in run.now) (states_in run.now) (fired + 1)) };
}

/// Nothing is printed: the run is only made.
#[derive(Clone, Copy)]
pub(crate) struct Silence;

impl Telling for Silence {
    ghost use Rattle.run_text.specs.Steps.{no_parts};

    ghost parts = { λ _. no_parts };

    fn tell_start<W: Write>(&self, _run: &Stepper<'_>, _output: &mut W) -> Result<(), WriteFault> {
        Ok(())
    }

    fn tell_fired<W: Write>(
        &mut self,
        _firing: &Firing<'_>,
        _run: &Stepper<'_>,
        _output: &mut W,
    ) -> Result<(), WriteFault> {
        Ok(())
    }

    fn tell_stuck<W: Write>(&self, _run: &Stepper<'_>, _output: &mut W) -> Result<(), WriteFault> {
        Ok(())
    }

    fn tell_end<W: Write>(
        &self,
        _fired: u64,
        _run: &Stepper<'_>,
        _output: &mut W,
    ) -> Result<(), WriteFault> {
        Ok(())
    }
}
