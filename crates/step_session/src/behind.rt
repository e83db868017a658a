//! A session that begins behind picks.
ghost use Rattle.std.specs.Prelude.{◌≡◌};

use crate::fault::StepFault;
use crate::session::Session;
use plant_model::{Choice, System};
use run_text::{Pick, Picks, Refusal, Taking, taken_after};
use std::alloc::{AllocFailed, Global};

impl<'s> Session<'s> {
    ghost use Rattle.std.specs.Prelude.{◌+◌, ◌∷◌, [], IfErr, IfOk, IfSome, OnOk, length, option_map};
    ghost use Rattle.run_text.specs.Runs.{refusal_of};
    ghost use Rattle.run_text.specs.Seen.{IsAllowed, choice_of, choices, plant_of};
    ghost use Rattle.step_session.specs.Answers.{fired_more};
    ghost use Rattle.step_session.specs.Began.{IfBegan, IsOfPick};
    ghost use Rattle.step_session.specs.Behind.{TakesNext, place_among, session_behind};
    ghost use Rattle.step_session.specs.Session.{states_at};
    ghost use Rattle.step_session.specs.SessionOf.{plant_stepped, session_of};

    /// The plant of the system behind the picks: what each takes is fired, up to the last of them or to one that takes nothing.
    pub(crate) fn behind<P: Picks>(
        alloc: Global,
        system: &'s System,
        picks: &mut P,
    ) -> Result<Self, StepFault>
        ensures plant { IfOk result (λ session. plant_stepped session ≡ plant_of system.now) }
        ensures behind { IfOk result (λ session. IfSome (P.left picks.old) (λ left. session_of session ≡ session_behind (plant_of system.now) left)) }
        ensures refusal { IfBegan result (λ refusal. IfSome (P.left picks.old) (λ left. refusal ≡ refusal_of (plant_of system.now) left)) }
    {
        let mut session = Session::new(alloc, system)?;
        while let Some(choice) = session.next_taken(picks)? {
            session.fire_taken(&choice)?;
        }
        Ok(session)
    }

    /// The choice that the next pick takes; `None` if no pick is left, or if it takes nothing.
    fn next_taken<P: Picks>(&self, picks: &mut P) -> Result<Option<Choice>, StepFault>
        ensures takes { IfOk result (λ next. TakesNext (plant_stepped self.now) (states_at (plant_stepped self.now) (session_of self.now)) (length (session_of self.now).fired + 1)
            (P.left picks.old) (option_map choice_of next) (P.left picks.new)) }
        ensures allowed { IfOk result (λ next. IfSome next (λ choice. IsAllowed (plant_stepped self.now) (states_at (plant_stepped self.now) (session_of self.now)) (choice_of choice))) }
        ensures refused { IfErr result (IsOfPick (plant_stepped self.now) (states_at (plant_stepped self.now) (session_of self.now)) (length (session_of self.now).fired + 1) (P.left picks.old)) }
    {
        let Some(Pick { place, take }) = picks.next_pick()? else {
            return Ok(None);
        };
        match taken_after(&self.run, self.fired.len() as u64, take) {
            Taking::Fires(choice) => Ok(Some(choice)),
            Taking::Stuck => Ok(None),
            Taking::Refused(why) => Err(StepFault::Refused(Refusal { place, why })),
        }
    }

    /// Fires a choice of the present state, and keeps its place.
    fn fire_taken(&mut self, choice: &Choice) -> Result<(), AllocFailed<u128>>
        requires { IsAllowed (plant_stepped self.old) (states_at (plant_stepped self.old) (session_of self.old)) (choice_of choice.now) }
        ensures session { OnOk result (session_of self.new ≡ fired_more (session_of self.old)
            (place_among (choices (plant_stepped self.old) (states_at (plant_stepped self.old) (session_of self.old))) (choice_of choice.now) ∷ []) (session_of self.old).random) }
        ensures plant { plant_stepped self.new ≡ plant_stepped self.old }
    {
        match self.run.find(choice) {
            Some(place) => self.fire_kept(place, choice),
            None => unreachable!(),
        }
    }
}
