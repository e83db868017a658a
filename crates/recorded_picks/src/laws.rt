//! What is saved of a run is read as what it fired. The functions make no call: their clauses are the laws.
ghost use Rattle.std.specs.Prelude.{◌≡◌, ◌<◌, ◌^◌, None, List, Some, flat_map, length};
ghost use Rattle.run_text.specs.Seen.{AreAllowedInTurn, ChoiceDefinition, IsAllowed, Local, PlantDefinition, initial_states};
ghost use Rattle.run_text.specs.Line.{interaction_line};
ghost use Rattle.run_text.specs.Picks.{PickDefinition, named};
ghost use Rattle.run_text.specs.Runs.{chosen, refusal_of};
ghost use Rattle.run_text.specs.Steps.{saved_in, saved_line};
ghost use Rattle.run_text.specs.declared.pick.Numbers.{Numbers};
ghost use Rattle.recorded_picks.specs.Files.{picks_in};
ghost use Rattle.recorded_picks.specs.Laws.{IsWellNamed, named_picks};
ghost use Rattle.recorded_picks.specs.Lines.{said_in};

/// Of a plant that breaks no rule, whose atoms break none and whose names are names: the line of a choice that a state allows names
/// that choice, and what a trace saves is read as the choices that it fired, one after another. A run by these picks fires the same
/// choices, and refuses none.
pub fn a_saved_run_is_read_back()
    ensures line { (numbers : Numbers) (plant : PlantDefinition) (states : List Local) (c : ChoiceDefinition)
        → IsWellNamed plant → IsAllowed plant states c → said_in numbers plant (interaction_line plant c) ≡ Some (named c) }
    ensures file { (numbers : Numbers) (plant : PlantDefinition) (picks : List PickDefinition)
        → IsWellNamed plant → picks_in numbers plant (saved_in plant picks) ≡ named_picks 1 (chosen plant (initial_states plant) 1 picks) }
    ensures again { (plant : PlantDefinition) (picks : List PickDefinition)
        → chosen plant (initial_states plant) 1 (named_picks 1 (chosen plant (initial_states plant) 1 picks)) ≡ chosen plant (initial_states plant) 1 picks }
    ensures none_refused { (plant : PlantDefinition) (picks : List PickDefinition)
        → refusal_of plant (named_picks 1 (chosen plant (initial_states plant) 1 picks)) ≡ None }
{}

/// The same of any choices of such a plant that are allowed in turn from its first states, if no value comes in, whoever fired them: their saved
/// lines are read as these choices, and a run by these picks fires the same choices, if they are fewer than 2^64.
pub fn any_saved_run_is_read_back()
    ensures file { (numbers : Numbers) (plant : PlantDefinition) (cs : List ChoiceDefinition)
        → IsWellNamed plant → AreAllowedInTurn plant (initial_states plant) cs → picks_in numbers plant (flat_map (saved_line plant) cs) ≡ named_picks 1 cs }
    ensures again { (plant : PlantDefinition) (cs : List ChoiceDefinition)
        → AreAllowedInTurn plant (initial_states plant) cs → length cs < 2 ^ 64 → chosen plant (initial_states plant) 1 (named_picks 1 cs) ≡ cs }
{}
