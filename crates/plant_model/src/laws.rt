//! What the definitions of a plant say of one another. These functions make no call: their clauses are the laws.
ghost use Rattle.std.specs.Prelude.{◌≡◌, ◌≢◌, ◌↔◌, ◌≤◌, ◌++◌, ℕ, List, Some, None, AllPairs, Contains, true, length, slice_get, option_map};
ghost use Rattle.std.specs.List.{list_all};
ghost use Rattle.petri_atom.specs.Definition.{AtomDefinition, TransitionDefinition, exports_of, fired, is_well_formed};
ghost use Rattle.petri_atom.specs.Local.{Local, delivered_value};
ghost use Rattle.petri_atom.specs.declared.state.TheConstants.{MAX_EXPORTS};
ghost use Rattle.plant_model.specs.Choice.{ChoiceDefinition, Interaction, IsAllowed, IsStuck, choices, plant_interactions};
ghost use Rattle.plant_model.specs.Firing.{FiringDefinition, choice_in};
ghost use Rattle.plant_model.specs.Fitting.{IsOf, AllFit};
ghost use Rattle.plant_model.specs.Laws.{IsBefore, IsChoiceOf, IsInRange, IsInteractionOf, IsTaking, IsWithinLimits};
ghost use Rattle.plant_model.specs.Plant.{PlantDefinition};
ghost use Rattle.plant_model.specs.Rules.{fault_of};
ghost use Rattle.plant_model.specs.Runs.{IsRun, fold};
ghost use Rattle.plant_model.specs.Step.{next, stepped, transfer};
ghost use Rattle.plant_model.specs.declared.choice.Move.{Move};

/// A plant that breaks no rule has an atom, and at most as many atoms, connectors and interactions as one may have.
pub fn a_plant_is_within_limits()
    ensures { (plant : PlantDefinition) → fault_of plant ≡ None → IsWithinLimits plant }
{}

/// Each interaction of a plant is one of a connector of the plant, with 1 to 16 of its ports, in rising order of their atoms,
/// which are the plant's.
pub fn an_interaction_is_of_its_plant()
    ensures { (plant : PlantDefinition) (i : Interaction) → fault_of plant ≡ None
        → Contains (plant_interactions plant) i → IsInteractionOf plant i }
{}

/// An allowed choice takes up an interaction of the plant: it has its connector and its mask, and by place an offered
/// transition of each of its ports.
pub fn an_allowed_choice_takes_up_an_interaction()
    ensures { (plant : PlantDefinition) (states : List Local) (c : ChoiceDefinition) → IsAllowed plant states c
        → (number : ℕ) × IsTaking plant states number c }
{}

/// So it names a connector of the plant, and has 1 to 16 moves, of atoms of the plant in rising order, each by a transition that its
/// atom has.
pub fn an_allowed_choice_is_in_range()
    ensures { (plant : PlantDefinition) (states : List Local) (c : ChoiceDefinition) → fault_of plant ≡ None
        → IsAllowed plant states c → IsInRange plant c }
{}

/// A choice is allowed exactly if it takes up an interaction of the plant that is possible, with an offered transition of each of
/// that one's ports in rising order of their atoms, and no possible interaction is above it.
pub fn what_an_allowed_choice_is()
    ensures { (plant : PlantDefinition) (states : List Local) (c : ChoiceDefinition) → IsAllowed plant states c ↔ IsChoiceOf plant states c }
{}

/// Priorities lose no choice: a state has none exactly if no interaction is possible, whichever rules count in it.
pub fn priorities_lose_no_choice()
    ensures { (plant : PlantDefinition) (states : List Local) → fault_of plant ≡ None
        → (length (choices plant states) ≡ 0) ↔ IsStuck plant states }
{}

/// The choices of a state stand in their order: by connector, then by mask, then by the transitions in rising order of their atoms,
/// the last atom's varying fastest. So each stands there once.
pub fn choices_stand_in_order()
    ensures order { (plant : PlantDefinition) (states : List Local) → AllPairs IsBefore (choices plant states) }
    ensures once { (plant : PlantDefinition) (states : List Local) (i j : ℕ) (c : ChoiceDefinition)
        → slice_get (choices plant states) i ≡ Some c → slice_get (choices plant states) j ≡ Some c → i ≡ j }
{}

/// The state after a firing, atom by atom: a participant has fired its transition, with what the firing delivers to it, and every
/// other atom's state is the old one.
pub fn the_next_state_is_by_atom()
    ensures by_atom { (plant : PlantDefinition) (states : List Local) (f : FiringDefinition) (i : ℕ)
        → slice_get (next plant states f) i ≡ option_map (stepped plant.atoms f.moves (transfer plant states f) i) (slice_get states i) }
    ensures moves { (plant : PlantDefinition) (states : List Local) (f : FiringDefinition) (m : Move) (a : AtomDefinition) (s : Local)
        → fault_of plant ≡ None → IsAllowed plant states (choice_in f) → Contains f.moves m
        → slice_get plant.atoms m.atom ≡ Some a → slice_get states m.atom ≡ Some s
        → slice_get (next plant states f) m.atom ≡ Some (fired a m.transition (transfer plant states f m.atom) s) }
    ensures stays { (plant : PlantDefinition) (states : List Local) (f : FiringDefinition) (i : ℕ)
        → ((m : Move) → Contains f.moves m → m.atom ≢ i) → slice_get (next plant states f) i ≡ slice_get states i }
{}

/// What a firing delivers to an atom has a place for each variable that a port may export; one of an allowed choice delivers nothing past the
/// variables that the port of a participant's transition exports.
pub fn nothing_is_delivered_past_the_exports()
    ensures places { (plant : PlantDefinition) (states : List Local) (f : FiringDefinition) (atom : ℕ)
        → length (transfer plant states f atom) ≡ MAX_EXPORTS }
    ensures none_past { (plant : PlantDefinition) (states : List Local) (f : FiringDefinition) (m : Move) (a : AtomDefinition) (t : TransitionDefinition)
        → fault_of plant ≡ None → IsAllowed plant states (choice_in f) → Contains f.moves m
        → slice_get plant.atoms m.atom ≡ Some a → slice_get a.transitions m.transition ≡ Some t
        → (j : ℕ) → length (exports_of a t.port) ≤ j → delivered_value (transfer plant states f m.atom) j ≡ None }
{}

/// A run leads to the state that its firings lead to.
pub fn a_run_leads_to_its_fold()
    ensures { (plant : PlantDefinition) (start end : List Local) (cs : List FiringDefinition) → IsRun plant start cs end
        → fold plant start cs ≡ end }
{}

/// Two runs, one from where the other ends, are one run; and a run is cut at any place into two.
pub fn runs_append()
    ensures joined { (plant : PlantDefinition) (start between end : List Local) (xs ys : List FiringDefinition)
        → IsRun plant start xs between → IsRun plant between ys end → IsRun plant start (xs ++ ys) end }
    ensures cut { (plant : PlantDefinition) (start end : List Local) (xs ys : List FiringDefinition) → IsRun plant start (xs ++ ys) end
        → IsRun plant start xs (fold plant start xs) × IsRun plant (fold plant start xs) ys end }
{}

/// Each state on a run of a plant of well-formed atoms is one of the plant and fits it, if the first one is and does: the last one,
/// and the one after each front of the firings.
pub fn each_state_on_a_run_fits()
    ensures end { (plant : PlantDefinition) (start end : List Local) (cs : List FiringDefinition)
        → list_all is_well_formed plant.atoms ≡ true → IsOf plant start → AllFit plant start
        → IsRun plant start cs end → IsOf plant end × AllFit plant end }
    ensures between { (plant : PlantDefinition) (start : List Local) (cs : List FiringDefinition)
        → list_all is_well_formed plant.atoms ≡ true → IsOf plant start → AllFit plant start
        → IsOf plant (fold plant start cs) × AllFit plant (fold plant start cs) }
{}
