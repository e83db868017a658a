//! What a reason says of an interaction, and a hindrance of a transition. These functions make no call: their clauses are the laws.
ghost use Rattle.std.specs.Prelude.{◌≡◌, ◌≢◌, ◌↔◌, ℕ, List, None, Some, false, true, slice_get};
ghost use Rattle.petri_atom.specs.Definition.{AtomDefinition, TransitionDefinition, offers, offers_port};
ghost use Rattle.petri_atom.specs.Local.{Local};
ghost use Rattle.plant_model.specs.Choice.{Interaction, is_allowed_at, plant_interactions};
ghost use Rattle.plant_model.specs.Plant.{PlantDefinition};
ghost use Rattle.blocked_text.specs.Hindrance.{hindrance_of};
ghost use Rattle.blocked_text.specs.Laws.{IsHindering, IsRight};
ghost use Rattle.blocked_text.specs.Reason.{reason_of};
ghost use Rattle.blocked_text.specs.declared.hindrance.Hindrance.{Hindrance};
ghost use Rattle.blocked_text.specs.declared.reason.Reason.{Reason};

/// The reason of an interaction is one: the port that it names is one of the interaction's and is not offered, the clause that it
/// names applies and is 0, or the interaction that it names is possible and above. An interaction has no reason exactly if it is
/// allowed.
pub fn a_reason_is_right()
    ensures right { (plant : PlantDefinition) (states : List Local) (n : ℕ) (i : Interaction) (r : Reason)
        → slice_get (plant_interactions plant) n ≡ Some i → reason_of plant states n ≡ Some r → IsRight plant states n i r }
    ensures none { (plant : PlantDefinition) (states : List Local) (n : ℕ) (i : Interaction)
        → slice_get (plant_interactions plant) n ≡ Some i
        → (reason_of plant states n ≡ None) ↔ (is_allowed_at plant states (plant_interactions plant) n ≡ true) }
{}

/// The hindrance of a transition is one: the source that it names is not marked, the target that it names is marked and is no source,
/// or the guard is 0. A transition has none exactly where the state offers it. So each transition of a port that offers nothing has
/// one.
pub fn a_hindrance_is_right()
    ensures right { (state : Local) (t : TransitionDefinition) (h : Hindrance) → hindrance_of state t ≡ Some h → IsHindering state t h }
    ensures none { (state : Local) (t : TransitionDefinition) → (hindrance_of state t ≡ None) ↔ (offers state t ≡ true) }
    ensures idle { (a : AtomDefinition) (state : Local) (n : ℕ) (t : TransitionDefinition) → slice_get a.transitions n ≡ Some t
        → offers_port a state t.port ≡ false → hindrance_of state t ≢ None }
{}
