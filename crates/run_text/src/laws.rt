//! What picks take, and what is printed of the run that they choose. The functions make no call: their clauses are the laws.
ghost use Rattle.std.specs.Prelude.{◌≡◌, ◌⊎◌, ◌+◌, ◌^◌, ◌<◌, ◌≤◌, ◌++◌, ℕ, List, [], None, Some, length, slice_get, slice_index, take, map};
ghost use Rattle.std.specs.List.{sum};
ghost use Rattle.run_text.specs.Seen.{AreAllowedInTurn, ChoiceDefinition, HasNoInputs, IsAllowed, IsRun, Local, PlantDefinition, alone, choices, initial_states};
ghost use Rattle.run_text.specs.Picks.{PickDefinition, TakeDefinition, counted_picks, named, weighted, weighted_picks};
ghost use Rattle.run_text.specs.Runs.{chosen, refusal_of, state_after};
ghost use Rattle.run_text.specs.Steps.{Parts, steps_printed, printed_from};
ghost use Rattle.run_text.specs.Taken.{fires, stuck, taken};
ghost use Rattle.run_text.specs.Weightless.{IsWeightless};
ghost use Rattle.run_text.specs.Weights.{falls_to, weights_in};
ghost use Rattle.run_text.specs.declared.fault.Refusal.{Refusal};

/// What a pick fires is a choice of the state; and a choice of the state is fired if a pick names it. What a pick fires by weights is of a connector
/// whose weight is not 0.
pub fn a_pick_fires_a_choice_of_the_state()
    ensures allowed { (plant : PlantDefinition) (states : List Local) (take : TakeDefinition) (c : ChoiceDefinition)
        → taken plant states take ≡ fires c → IsAllowed plant states c }
    ensures by_name { (plant : PlantDefinition) (states : List Local) (c : ChoiceDefinition)
        → IsAllowed plant states c → taken plant states (named c) ≡ fires c }
    ensures by_weight { (plant : PlantDefinition) (states : List Local) (number : ℕ) (weights : List ℕ) (c : ChoiceDefinition)
        → taken plant states (weighted number weights) ≡ fires c → 0 < slice_index weights c.connector }
{}

/// A pick that takes nothing is in a state with no choice, or it is by weights and these add up to 0 in the state.
pub fn where_a_pick_takes_nothing()
    ensures { (plant : PlantDefinition) (states : List Local) (take : TakeDefinition)
        → taken plant states take ≡ stuck → (choices plant states ≡ []) ⊎ IsWeightless plant states take }
{}

/// By running sums a number below the sum of weights falls to one of them: those before it make no more than the number, and with this one they do.
pub fn a_number_falls_by_running_sums()
    ensures { (number : ℕ) (weights : List ℕ) → number < sum weights
        → (falls_to number weights < length weights) × (sum (take (falls_to number weights) weights) ≤ number) × (number < sum (take (falls_to number weights + 1) weights)) }
{}

/// Fewer than 2^64 numbers that are taken modulo how many choices there are: none is refused.
pub fn counted_picks_are_not_refused()
    ensures { (plant : PlantDefinition) (numbers : List ℕ) → length numbers < 2 ^ 64 → refusal_of plant (counted_picks numbers) ≡ None }
{}

/// Nor are fewer than 2^64 numbers that are taken by weights.
pub fn weighted_picks_are_not_refused()
    ensures { (plant : PlantDefinition) (weights numbers : List ℕ) → length numbers < 2 ^ 64 → refusal_of plant (weighted_picks weights numbers) ≡ None }
{}

/// The choices that picks take are a run, from its first states, of a plant whose connectors have no inputs. Of any plant, each of them is allowed
/// in the state to which those before it lead, if no value comes in, and each is printed by its part. After them comes the end if each pick took
/// one, nothing if a pick is refused, and else that the run is stuck, and the end: then the pick that comes next takes nothing.
pub fn a_run_is_printed_by_its_choices_and_its_end()
    ensures run { (plant : PlantDefinition) (picks : List PickDefinition) → HasNoInputs plant
        → IsRun plant (initial_states plant) (map alone (chosen plant (initial_states plant) 1 picks)) (state_after plant (initial_states plant) picks) }
    ensures allowed { (plant : PlantDefinition) (picks : List PickDefinition)
        → AreAllowedInTurn plant (initial_states plant) (chosen plant (initial_states plant) 1 picks) }
    ensures ended { (parts : Parts) (plant : PlantDefinition) (picks : List PickDefinition)
        → length (chosen plant (initial_states plant) 1 picks) ≡ length picks
        → printed_from parts plant (initial_states plant) 1 picks
        ≡ steps_printed parts plant (initial_states plant) 1 (chosen plant (initial_states plant) 1 picks)
        ++ parts.end plant (state_after plant (initial_states plant) picks) (1 + length picks) }
    ensures refused { (parts : Parts) (plant : PlantDefinition) (picks : List PickDefinition) (refusal : Refusal)
        → refusal_of plant picks ≡ Some refusal
        → printed_from parts plant (initial_states plant) 1 picks
        ≡ steps_printed parts plant (initial_states plant) 1 (chosen plant (initial_states plant) 1 picks) }
    ensures stuck { (plant : PlantDefinition) (picks : List PickDefinition) (following : PickDefinition)
        → slice_get picks (length (chosen plant (initial_states plant) 1 picks)) ≡ Some following → refusal_of plant picks ≡ None
        → taken plant (state_after plant (initial_states plant) picks) following.take ≡ stuck }
    ensures takes_nothing { (plant : PlantDefinition) (picks : List PickDefinition) (following : PickDefinition)
        → slice_get picks (length (chosen plant (initial_states plant) 1 picks)) ≡ Some following → refusal_of plant picks ≡ None
        → (choices plant (state_after plant (initial_states plant) picks) ≡ []) ⊎ IsWeightless plant (state_after plant (initial_states plant) picks) following.take }
    ensures stuck_printed { (parts : Parts) (plant : PlantDefinition) (picks : List PickDefinition)
        → length (chosen plant (initial_states plant) 1 picks) < length picks → refusal_of plant picks ≡ None
        → printed_from parts plant (initial_states plant) 1 picks
        ≡ steps_printed parts plant (initial_states plant) 1 (chosen plant (initial_states plant) 1 picks)
        ++ (parts.stuck plant (state_after plant (initial_states plant) picks)
        ++ parts.end plant (state_after plant (initial_states plant) picks) (1 + length (chosen plant (initial_states plant) 1 picks))) }
{}
