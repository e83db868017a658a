//! What a run of events does. These functions make no call: their clauses are the laws.
ghost use Rattle.std.specs.Prelude.{◌≡◌, ◌++◌, List};
ghost use Rattle.plant_model.specs.Plant.{PlantDefinition};
ghost use Rattle.plant_model.specs.Runs.{IsRun, fold};
ghost use Rattle.plant_core.specs.Events.{IsAckedOf, IsEventRun, all_fired};
ghost use Rattle.plant_core.specs.View.{View};
ghost use Rattle.plant_core.specs.declared.events.Happened.{Happened};

/// What a run of events fired, each choice with the values that were handed in, is a run of the plant from its present state to the one after them.
pub fn what_events_fire_is_a_run()
    ensures { (plant : PlantDefinition) (v w : View) (hs : List Happened)
        → IsEventRun plant v hs w → IsRun plant v.present (all_fired hs) w.present }
{}

/// Where the tail leads to the present state, what a run of events acknowledges is a front of the tail and of what they fired, and the rest
/// of these is the tail after them, which leads to the present state then.
pub fn what_events_acknowledge_is_a_front()
    ensures acked { (plant : PlantDefinition) (v w : View) (hs : List Happened)
        → v.present ≡ fold plant v.acked v.tail → IsEventRun plant v hs w → IsAckedOf plant v (all_fired hs) w }
    ensures leads { (plant : PlantDefinition) (v w : View) (hs : List Happened)
        → v.present ≡ fold plant v.acked v.tail → IsEventRun plant v hs w → w.present ≡ fold plant w.acked w.tail }
{}

/// Two runs of events one after the other are a run of events.
pub fn runs_of_events_join()
    ensures { (plant : PlantDefinition) (v u w : View) (before behind : List Happened)
        → IsEventRun plant v before u → IsEventRun plant u behind w → IsEventRun plant v (before ++ behind) w }
{}
