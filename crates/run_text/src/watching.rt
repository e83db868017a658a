//! What a run is watched for.

use step_core::Stepper;

/// What a run is watched for: one thing or several, each at a place. The run ends in the first state in which one of them holds.
pub trait Watching {
    ghost use Rattle.std.specs.Prelude.{◌≡◌, List, Option};
    ghost use Rattle.run_text.specs.Picks.{PickDefinition};
    ghost use Rattle.run_text.specs.Seen.{Local, PlantDefinition, plant_in, states_in};
    ghost use Rattle.run_text.specs.Watched.{Held, watched};

    /// The place, from 0, of the first that holds in a state of a plant.
    ghost held: { Self → Held };

    /// The picks that a run takes from a state on, of those that are there.
    ghost taken: { Self → PlantDefinition → List Local → Option (List PickDefinition) → Option (List PickDefinition) };

    /// The place of the first that holds in the present state.
    fn first_held(&self, run: &Stepper<'_>) -> Option<usize>
        ensures { result ≡ held self.now (plant_in run.now) (states_in run.now) };

    /// These are the ones before the first state in which something holds.
    ghost taken_is: { (watching : Self) (plant : PlantDefinition) (states : List Local) (left : Option (List PickDefinition))
        → watched (held watching) plant states 1 left ≡ taken watching plant states left };
}

/// A run that is watched for nothing.
#[derive(Clone, Copy)]
pub struct Unwatched;

impl Watching for Unwatched {
    ghost use Rattle.run_text.specs.Watched.{never, watched_never};

    ghost held = { λ _. never };

    ghost taken = { λ _ _ _ left. left };

    fn first_held(&self, _run: &Stepper<'_>) -> Option<usize> {
        None
    }

    ghost taken_is = { λ _ plant states left. watched_never plant states 1 left };
}

/// Where a run ended by what it was watched for.
#[derive(Clone, Copy, Debug, PartialEq, Eq)]
pub struct Reached {
    /// How many interactions were fired up to this state.
    pub number: u64,
    /// The place, from 0, of the first thing that holds in it.
    pub watch: usize,
}
