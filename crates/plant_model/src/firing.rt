//! Firing a choice: the transition of each move, with what is delivered to its atom from the values before the firing.
ghost use Rattle.std.specs.Prelude.{◌≡◌};
ghost use Rattle.plant_model.specs.Choice.{IsAllowed};
ghost use Rattle.plant_model.specs.Chosen.{choice_of, firing_of};
ghost use Rattle.plant_model.specs.Delivery.{IsDelivered};
ghost use Rattle.plant_model.specs.Fitting.{IsOf, AllFit};
ghost use Rattle.plant_model.specs.Step.{next, transfer};

use crate::choice::Choice;
use crate::state::PlantState;
use crate::system::System;
use crate::transfers::no_deliveries;
use connector_tree::MAX_LEAVES;
use petri_atom::Delivered;

impl System {
    ghost use Rattle.plant_model.specs.System.{plant_of};

    /// Fires the choice: computes what it delivers on the values from before, and then fires each participant's transition
    /// with that. All other atoms stay, and are not looked at: no two moves of a choice are of one atom.
    pub fn next(&self, states: &mut PlantState, choice: &Choice, inputs: &[i64])
        requires of_plant { IsOf (plant_of self.now) states.old }
        requires allowed { IsAllowed (plant_of self.now) states.old (choice_of choice.now) }
        ensures of_plant { IsOf (plant_of self.now) states.new }
        ensures next { states.new ≡ next (plant_of self.now) states.old (firing_of choice.now inputs.now) }
        ensures fits { AllFit (plant_of self.now) states.old → AllFit (plant_of self.now) states.new }
    {
        let mut delivered = no_deliveries();
        self.fire(states, choice, inputs, &mut delivered);
    }

    /// Fires the choice as [`System::next`] does, and writes what it delivered: at the place of each move, what its atom got.
    pub fn fire(
        &self,
        states: &mut PlantState,
        choice: &Choice,
        inputs: &[i64],
        delivered: &mut [Delivered; MAX_LEAVES],
    )
        requires of_plant { IsOf (plant_of self.now) states.old }
        requires allowed { IsAllowed (plant_of self.now) states.old (choice_of choice.now) }
        ensures of_plant { IsOf (plant_of self.now) states.new }
        ensures next { states.new ≡ next (plant_of self.now) states.old (firing_of choice.now inputs.now) }
        ensures fits { AllFit (plant_of self.now) states.old → AllFit (plant_of self.now) states.new }
        ensures delivered { IsDelivered choice.now.moves (transfer (plant_of self.now) states.old (firing_of choice.now inputs.now)) delivered.new }
    {
        self.deliver(states, choice, inputs, delivered);
        let moves = choice.moves.as_slice();
        for place in 0..moves.len() {
            let step = moves[place];
            let number = usize::from(step.atom);
            self.atoms[number].apply(
                &mut states.states[number],
                step.transition,
                &delivered[place],
            );
        }
    }
}
