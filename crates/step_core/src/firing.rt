//! A step: a choice is fired, and what that can change is judged again.
ghost use Rattle.std.specs.Prelude.{◌≡◌};
ghost use Rattle.plant_model.specs.Choice.{IsAllowed};
ghost use Rattle.plant_model.specs.Chosen.{choice_of, firing_of};
ghost use Rattle.plant_model.specs.Delivery.{IsDelivered};
ghost use Rattle.plant_model.specs.Fitting.{IsOf, AllFit};
ghost use Rattle.plant_model.specs.Step.{next, transfer};
ghost use Rattle.plant_model.specs.System.{interactions_in, plant_of};
ghost use Rattle.step_core.specs.Judgement.{IsJudgement};

use crate::choices::judge_again;
use crate::judgement::Judgement;
use connector_tree::MAX_LEAVES;
use petri_atom::Delivered;
use plant_model::{Choice, PlantState, System};

/// Fires the choice as [`System::fire`](plant_model::System::fire) does, and judges again what that can change.
#[inline(always)]
pub(crate) fn step(
    system: &System,
    states: &mut PlantState,
    judgement: &mut Judgement,
    choice: &Choice,
    inputs: &[i64],
    delivered: &mut [Delivered; MAX_LEAVES],
)
    requires of_plant { IsOf (plant_of system.now) states.old }
    requires judged { IsJudgement (plant_of system.now) (interactions_in system.now) system.now.ranks states.old judgement.old }
    requires allowed { IsAllowed (plant_of system.now) states.old (choice_of choice.now) }
    ensures of_plant { IsOf (plant_of system.now) states.new }
    ensures judged { IsJudgement (plant_of system.now) (interactions_in system.now) system.now.ranks states.new judgement.new }
    ensures next { states.new ≡ next (plant_of system.now) states.old (firing_of choice.now inputs.now) }
    ensures fits { AllFit (plant_of system.now) states.old → AllFit (plant_of system.now) states.new }
    ensures delivered { IsDelivered choice.now.moves (transfer (plant_of system.now) states.old (firing_of choice.now inputs.now)) delivered.new }
{
    system.fire(states, choice, inputs, delivered);
    judge_again(system, states, choice.moves.as_slice(), judgement);
}
