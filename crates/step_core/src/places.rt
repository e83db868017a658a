//! The place of a choice among choices that stand in their order.
ghost use Rattle.std.specs.Prelude.{◌≡◌, ◌<◌, ◌≤◌, ℕ, AllPairs, Contains, List, None, Some, IfSome, length, map, slice_get};
ghost use Rattle.plant_model.specs.Choice.{ChoiceDefinition};
ghost use Rattle.plant_model.specs.Chosen.{choice_of};
ghost use Rattle.plant_model.specs.Laws.{IsBefore, comes_before, order_key};

use crate::dispatcher::Dispatcher;
use crate::stepper::Stepper;
use plant_model::{Choice, Move};

/// Choices that are counted, and found by their places: those of a plant that runs, as it stands.
pub trait Listed {
    /// The choices, in their order.
    ghost listed: { Self → List ChoiceDefinition };

    /// How many choices there are.
    fn how_many(&self) -> u128
        ensures { result ≡ length (listed self.now) };

    /// The choice at the place, from 0.
    fn entry(&self, place: u128) -> Choice
        requires { place < length (listed self.now) }
        ensures { slice_get (listed self.now) place ≡ Some (choice_of result) };
}

impl<'s> Listed for Stepper<'s> {
    ghost use Rattle.plant_model.specs.Choice.{choices};
    ghost use Rattle.step_core.specs.Running.{plant_in, states_in};

    ghost listed = { λ run. choices (plant_in run) (states_in run) };

    fn how_many(&self) -> u128 {
        self.count()
    }

    fn entry(&self, place: u128) -> Choice {
        self.nth(place)
    }
}

impl<'s> Listed for Dispatcher<'s> {
    ghost use Rattle.plant_model.specs.System.{plant_of};
    ghost use Rattle.step_core.specs.Dispatcher.{parts_in, system_of};
    ghost use Rattle.step_core.specs.Sure.{sure_choices};

    ghost listed = { λ run. sure_choices (plant_of (system_of run)) (parts_in run) };

    fn how_many(&self) -> u128 {
        self.count_sure()
    }

    fn entry(&self, place: u128) -> Choice {
        self.nth_sure(place)
    }
}

/// The place of the choice, if it is one of these. They may be more than one could look at; but they stand in order, so the only
/// place at which it can stand tells.
pub(crate) fn find<L: Listed>(those: &L, choice: &Choice) -> Option<u128>
    requires { AllPairs IsBefore (L.listed those.now) }
    ensures there { IfSome result (λ place. slice_get (L.listed those.now) place ≡ Some (choice_of choice.now)) }
    ensures none { result ≡ None → Contains (L.listed those.now) (choice_of choice.now) → ⊥ }
{
    let place = place_of(those, choice);
    if place < those.how_many() && those.entry(place).same(choice) {
        Some(place)
    } else {
        None
    }
}

/// The only place at which the choice can stand: that of the first choice that is not before it, or the one after the last.
fn place_of<L: Listed>(those: &L, choice: &Choice) -> u128
    requires { AllPairs IsBefore (L.listed those.now) }
    ensures { (place : ℕ) → slice_get (L.listed those.now) place ≡ Some (choice_of choice.now) → place ≡ result }
{
    let mut low = 0;
    let mut high = those.how_many();
    while low < high {
        let middle = low + (high - low) / 2;
        if is_before(&those.entry(middle), choice) {
            low = middle + 1;
        } else {
            high = middle;
        }
    }
    low
}

/// Whether the one choice is before the other in the order of choices.
fn is_before(one: &Choice, other: &Choice) -> bool
    ensures { result ≡ comes_before (order_key (choice_of one.now)) (order_key (choice_of other.now)) }
{
    one.connector < other.connector
        || (one.connector == other.connector
            && (one.mask < other.mask
                || (one.mask == other.mask
                    && are_before(one.moves.as_slice(), other.moves.as_slice()))))
}

/// Whether the transitions of the moves are before those of the others: at the first place where they differ.
fn are_before(moves: &[Move], others: &[Move]) -> bool
    ensures { result ≡ comes_before (map (λ m. m.transition) moves.now) (map (λ m. m.transition) others.now) }
{
    match moves {
        [] => false,
        [step, later @ ..] => match others {
            [] => false,
            [other, rest @ ..] => {
                step.transition < other.transition
                    || (step.transition == other.transition && are_before(later, rest))
            }
        },
    }
}
