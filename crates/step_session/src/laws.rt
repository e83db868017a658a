//! What a session says of the plant. The functions do nothing: their clauses are the laws.
ghost use Rattle.std.specs.Prelude.{◌≡◌, ◌<◌, ◌^◌, ℕ, List, [], length, map};
ghost use Rattle.run_text.specs.Seen.{HasNoInputs, IsRun, PlantDefinition, alone, choices, initial_states};
ghost use Rattle.run_text.specs.Picks.{PickDefinition};
ghost use Rattle.run_text.specs.Runs.{chosen, state_after};
ghost use Rattle.run_text.specs.declared.pick.Numbers.{Numbers};
ghost use Rattle.recorded_picks.specs.Files.{picks_in};
ghost use Rattle.recorded_picks.specs.Laws.{IsWellNamed, named_picks};
ghost use Rattle.step_session.specs.Answers.{session_after, session_by_lines};
ghost use Rattle.step_session.specs.Behind.{session_behind};
ghost use Rattle.step_session.specs.Command.{fires, takes_back};
ghost use Rattle.step_session.specs.Saved.{saved_text};
ghost use Rattle.step_session.specs.Session.{SessionDefinition, fired_in, first_session, states_at};

use recorded_picks::laws::any_saved_run_is_read_back;
use run_text::laws::a_run_is_printed_by_its_choices_and_its_end;

/// A session behind picks has fired exactly the choices that they take, one after another, and the plant stands where these lead. Behind no picks
/// nothing is fired.
pub fn a_session_begins_behind_its_picks()
    ensures fired { (plant : PlantDefinition) (picks : List PickDefinition)
        → fired_in plant (session_behind plant picks) ≡ chosen plant (initial_states plant) 1 picks }
    ensures stands { (plant : PlantDefinition) (picks : List PickDefinition)
        → states_at plant (session_behind plant picks) ≡ state_after plant (initial_states plant) picks }
    ensures none { (plant : PlantDefinition) → session_behind plant [] ≡ first_session }
{
    a_run_is_printed_by_its_choices_and_its_end();
}

/// After any picks and lines a plant whose connectors have no inputs stands at the end of a run from its first states: the choices at the places
/// that are kept. Of any plant, each of them was there where it was fired.
pub fn a_session_stands_at_the_end_of_a_run()
    ensures run { (plant : PlantDefinition) (picks : List PickDefinition) (lines : List (List ℕ)) → HasNoInputs plant
        → IsRun plant (initial_states plant) (map alone (fired_in plant (session_by_lines plant picks lines))) (states_at plant (session_by_lines plant picks lines)) }
    ensures each { (plant : PlantDefinition) (picks : List PickDefinition) (lines : List (List ℕ))
        → length (fired_in plant (session_by_lines plant picks lines)) ≡ length (session_by_lines plant picks lines).fired }
{
    a_run_is_printed_by_its_choices_and_its_end();
}

/// `back` after a number that fires a choice gives the session before the number.
pub fn back_takes_a_firing_back()
    ensures { (plant : PlantDefinition) (session : SessionDefinition) (number : ℕ) → number < length (choices plant (states_at plant session))
        → session_after plant (session_after plant session (fires number)) takes_back ≡ session }
{}

/// Of a plant that breaks no rule, whose atoms break none and whose names are names: what is saved after any picks and lines is read as the choices
/// that were fired, one after another. A run by these picks fires the same choices, if they are fewer than 2^64, and a session behind them has fired
/// the same, and may take them back.
pub fn a_saved_session_is_read_back()
    ensures file { (numbers : Numbers) (plant : PlantDefinition) (picks : List PickDefinition) (lines : List (List ℕ))
        → IsWellNamed plant → picks_in numbers plant (saved_text plant (session_by_lines plant picks lines)) ≡ named_picks 1 (fired_in plant (session_by_lines plant picks lines)) }
    ensures again { (plant : PlantDefinition) (picks : List PickDefinition) (lines : List (List ℕ)) → length (fired_in plant (session_by_lines plant picks lines)) < 2 ^ 64
        → chosen plant (initial_states plant) 1 (named_picks 1 (fired_in plant (session_by_lines plant picks lines))) ≡ fired_in plant (session_by_lines plant picks lines) }
    ensures goes_on { (plant : PlantDefinition) (picks : List PickDefinition) (lines : List (List ℕ)) → length (fired_in plant (session_by_lines plant picks lines)) < 2 ^ 64
        → (session_behind plant (named_picks 1 (fired_in plant (session_by_lines plant picks lines)))).fired ≡ (session_by_lines plant picks lines).fired }
{
    any_saved_run_is_read_back();
    a_run_is_printed_by_its_choices_and_its_end();
}
