//! What the definitions of what is sure say of it, and of what is allowed. These functions make no call: their clauses are the laws.
ghost use Rattle.std.specs.Prelude.{◌≡◌, ◌↔◌, ◌||◌, ℕ, Bool, List, Option, Some, map, AllPairs};
ghost use Rattle.petri_atom.specs.Local.{Local};
ghost use Rattle.plant_model.specs.Choice.{ChoiceDefinition, IsAllowed, choices};
ghost use Rattle.plant_model.specs.Firing.{FiringDefinition, choice_in};
ghost use Rattle.plant_model.specs.Laws.{IsBefore};
ghost use Rattle.plant_model.specs.Plant.{PlantDefinition};
ghost use Rattle.plant_model.specs.Step.{next, transfer};
ghost use Rattle.step_core.specs.Laws.{IsSureChoiceOf};
ghost use Rattle.step_core.specs.Parts.{parts_of, shown_in};
ghost use Rattle.step_core.specs.Sure.{IsSure, has_move, left_by, sure_choices, went_on};

/// The sure choices while atoms are away stand in the order of the choices of a state.
pub fn sure_choices_stand_in_order()
    ensures { (plant : PlantDefinition) (parts : List (Option Local)) → AllPairs IsBefore (sure_choices plant parts) }
{}

/// While atoms are away, what is sure is allowed in the whole state, whatever the states of those atoms are.
pub fn sure_is_allowed()
    ensures { (plant : PlantDefinition) (states : List Local) (away : ℕ → Bool) (c : ChoiceDefinition)
        → IsSure plant (parts_of away states) c → IsAllowed plant states c }
{}

/// Where no atom is away, the sure choices are the choices of the state, in the same order.
pub fn with_none_away_sure_is_allowed()
    ensures { (plant : PlantDefinition) (states : List Local) → sure_choices plant (map Some states) ≡ choices plant states }
{}

/// A choice is sure exactly if it takes up an interaction whose participants are all present and that is possible, with an offered
/// transition of each of that one's ports in rising order of their atoms, and each interaction above it, by the rules that count or
/// may, is ruled out.
pub fn what_a_sure_choice_is()
    ensures { (plant : PlantDefinition) (parts : List (Option Local)) (c : ChoiceDefinition) → IsSure plant parts c ↔ IsSureChoiceOf plant parts c }
{}

/// A sure choice leads from the parts of a state to the parts of the next state: with the same atoms away where its participants
/// fire, and with what the whole state delivers. Where the participants of a choice leave, what is left are the parts of the next
/// state with these away too.
pub fn a_sure_choice_goes_on()
    ensures stays { (plant : PlantDefinition) (states : List Local) (away : ℕ → Bool) (f : FiringDefinition)
        → IsSure plant (parts_of away states) (choice_in f) → went_on plant (parts_of away states) f ≡ parts_of away (next plant states f) }
    ensures delivers { (plant : PlantDefinition) (states : List Local) (away : ℕ → Bool) (f : FiringDefinition) (atom : ℕ)
        → IsSure plant (parts_of away states) (choice_in f)
        → transfer plant (shown_in (parts_of away states)) f atom ≡ transfer plant states f atom }
    ensures leaves { (plant : PlantDefinition) (states : List Local) (away : ℕ → Bool) (f : FiringDefinition)
        → left_by (parts_of away states) f.moves ≡ parts_of (λ n. away n || has_move f.moves n) (next plant states f) }
{}
