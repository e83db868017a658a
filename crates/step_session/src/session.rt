//! A plant that is stepped by hand: where it stands, and what was fired.
ghost use Rattle.std.specs.Prelude.{◌≡◌, length, IfOk};
ghost use Rattle.run_text.specs.Seen.{plant_in, plant_of, states_in};
ghost use Rattle.step_session.specs.Fired.{IsThere, states_after};

use crate::fault::AnswerFault;
use crate::random::{next_state, pick_of};
use plant_model::{Choice, System};
use run_text::{print_choice, print_choices, print_saved_line, print_states};
use std::alloc::{AllocError, AllocFailed, Global};
use std::io::Write;
use std::mem;
use step_core::Stepper;
use text_io::end_line;

/// The seed of the generator of random picks.
const SEED: u64 = 1;

/// A plant that is stepped by hand. It keeps the place of each choice that was fired from the first state on, so that the last firing can be
/// taken back, and all can be saved.
#[derive(Drop)]
pub struct Session<'s> {
    pub(crate) alloc: Global,
    pub(crate) run: Stepper<'s>,
    pub(crate) fired: Vec<u128>,
    pub(crate) random: u64,
    ghost there: { IsThere (plant_in run) fired.items },
    ghost stands: { states_in run ≡ states_after (plant_in run) fired.items },
}

impl<'s> Session<'s> {
    ghost use Rattle.std.specs.Prelude.{◌≢◌, ◌+◌, ◌<◌, ◌∷◌, [], Err, OnOk, Some, slice_get};
    ghost use Rattle.run_text.specs.Seen.{Prints, choice_of, choices};
    ghost use Rattle.step_session.specs.Answers.{fired_more, firing_lines, standing_text, without_last};
    ghost use Rattle.step_session.specs.AtRandom.{FiresAtRandom, IsFiredAtRandom};
    ghost use Rattle.step_session.specs.SessionOf.{plant_stepped, session_of};
    ghost use Rattle.step_session.specs.Saved.{saved_text};
    ghost use Rattle.step_session.specs.Session.{first_session, states_at};
    ghost use Rattle.step_session.specs.declared.fault.AnswerFault.TheVariants.{Memory};

    /// The plant of the system in its first state, with nothing fired.
    pub(crate) fn new(alloc: Global, system: &'s System) -> Result<Self, AllocError>
        ensures plant { IfOk result (λ session. plant_stepped session ≡ plant_of system.now) }
        ensures first { IfOk result (λ session. session_of session ≡ first_session) }
    {
        let run = Stepper::first(alloc, system)?;
        Ok(Session {
            alloc,
            run,
            fired: Vec::new(alloc),
            random: SEED,
        })
    }

    /// Prints where the plant stands: the line of each atom's state, and the choices by their numbers.
    pub(crate) fn print_standing<W: Write>(&self, output: &mut W) -> Result<(), AnswerFault>
        ensures { Prints result (W.contents output.old) (W.contents output.new) (standing_text (plant_stepped self.now) (session_of self.now)) }
    {
        print_states(self.run.system(), self.run.states(), output)?;
        print_choices(self.run.system(), &self.run, output)?;
        Ok(())
    }

    /// Fires the choice, which has this place among the present ones, and keeps the place.
    pub(crate) fn fire_kept(
        &mut self,
        place: u128,
        choice: &Choice,
    ) -> Result<(), AllocFailed<u128>>
        requires { slice_get (choices (plant_stepped self.old) (states_at (plant_stepped self.old) (session_of self.old))) place ≡ Some (choice_of choice.now) }
        ensures session { OnOk result (session_of self.new ≡ fired_more (session_of self.old) (place ∷ []) (session_of self.old).random) }
        ensures plant { plant_stepped self.new ≡ plant_stepped self.old }
    {
        self.fired.push(place)?;
        self.run.fire(choice, &[]);
        Ok(())
    }

    /// Fires the choice with this place, and prints its line.
    pub(crate) fn fire_at<W: Write>(
        &mut self,
        place: u128,
        output: &mut W,
    ) -> Result<(), AnswerFault>
        requires { place < length (choices (plant_stepped self.old) (states_at (plant_stepped self.old) (session_of self.old))) }
        ensures session { OnOk result (session_of self.new ≡ fired_more (session_of self.old) (place ∷ []) (session_of self.old).random) }
        ensures printed { Prints result (W.contents output.old) (W.contents output.new) (firing_lines (plant_stepped self.old) (session_of self.old) (place ∷ [])) }
        ensures plant { plant_stepped self.new ≡ plant_stepped self.old }
    {
        let choice = self.run.nth(place);
        self.fire_kept(place, &choice)?;
        let number = self.fired.len() as u64;
        print_choice(number, self.run.system(), &choice, output)?;
        end_line(output)?;
        Ok(())
    }

    /// Fires a random choice, and prints its line. Says whether there was a choice.
    pub(crate) fn fire_any<W: Write>(&mut self, output: &mut W) -> Result<bool, AnswerFault>
        ensures fired { IfOk result (λ there. IsFiredAtRandom there (plant_stepped self.old) (session_of self.old) (session_of self.new) (W.contents output.old) (W.contents output.new)) }
        ensures plant { plant_stepped self.new ≡ plant_stepped self.old }
    {
        let count = self.run.count();
        if count == 0 {
            return Ok(false);
        }
        self.random = next_state(self.random);
        self.fire_at(u128::from(pick_of(self.random)) % count, output)?;
        Ok(true)
    }

    /// Fires so many random choices, until nothing is possible, and prints their lines.
    pub(crate) fn fire_at_random<W: Write>(
        &mut self,
        count: u64,
        output: &mut W,
    ) -> Result<(), AnswerFault>
        ensures fired { OnOk result (FiresAtRandom count (plant_stepped self.old) (session_of self.old) (session_of self.new) (W.contents output.old) (W.contents output.new)) }
        ensures plant { plant_stepped self.new ≡ plant_stepped self.old }
    {
        for _ in 0..count {
            if !self.fire_any(output)? {
                return Ok(());
            }
        }
        Ok(())
    }

    /// Takes the last firing back: the plant runs again from its first state, without it.
    pub(crate) fn take_back(&mut self) -> Result<(), AllocError>
        requires { (session_of self.old).fired ≢ [] }
        ensures session { OnOk result (session_of self.new ≡ without_last (session_of self.old)) }
        ensures plant { plant_stepped self.new ≡ plant_stepped self.old }
    {
        let left = self.fired.len() - 1;
        let run = run_again(self.alloc, self.run.system(), &self.fired[..left])?;
        let _ = mem::replace(&mut self.run, run);
        self.fired.truncate(left);
        Ok(())
    }

    /// Prints what was fired, each choice as a line that `trace` takes as a pick: its connector, and its participants. The plant runs again from
    /// its first state for that; the memory is taken before anything is printed.
    pub fn print_fired<W: Write>(&self, output: &mut W) -> Result<(), AnswerFault>
        ensures printed { Prints result (W.contents output.old) (W.contents output.new) (saved_text (plant_stepped self.now) (session_of self.now)) }
        ensures nothing_written { result ≡ Err Memory → output.new ≡ output.old }
    {
        let mut run = Stepper::first(self.alloc, self.run.system())?;
        for place in &self.fired {
            let choice = run.nth(*place);
            print_saved_line(run.system(), &choice, output)?;
            run.fire(&choice, &[]);
        }
        Ok(())
    }
}

/// The plant after the choices with these places, fired one after another from its first state on.
fn run_again<'s>(
    alloc: Global,
    system: &'s System,
    places: &[u128],
) -> Result<Stepper<'s>, AllocError>
    requires { IsThere (plant_of system.now) places.now }
    ensures plant { IfOk result (λ run. plant_in run ≡ plant_of system.now) }
    ensures states { IfOk result (λ run. states_in run ≡ states_after (plant_of system.now) places.now) }
{
    let mut run = Stepper::first(alloc, system)?;
    for place in places {
        let choice = run.nth(*place);
        run.fire(&choice, &[]);
    }
    Ok(run)
}
