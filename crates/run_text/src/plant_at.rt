//! A plant in a state.
ghost use Rattle.std.specs.Prelude.{◌≡◌};
ghost use Rattle.run_text.specs.Seen.{IsOf, plant_in, plant_of, states_in};

use plant_model::{PlantState, System};
use step_core::Stepper;

/// A plant in a state of it.
#[derive(Clone, Copy)]
pub struct PlantAt<'s, 'a> {
    /// The system of the plant.
    pub system: &'s System,
    /// The state.
    pub states: &'a PlantState,
    ghost of_plant: { IsOf (plant_of system.now) states.now },
}

impl<'s, 'a> PlantAt<'s, 'a> {
    /// The plant that runs, in its present state.
    pub fn of(run: &'a Stepper<'s>) -> Self
        ensures plant { plant_of result.system.now ≡ plant_in run.now }
        ensures states { result.states.now ≡ states_in run.now }
    {
        PlantAt {
            system: run.system(),
            states: run.states(),
        }
    }
}
