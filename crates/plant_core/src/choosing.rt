//! What a durable plant can fire next.
ghost use Rattle.std.specs.Prelude.{◌≡◌, ◌<◌, Contains, None, Some, IfSome, length, slice_get};
ghost use Rattle.plant_model.specs.Chosen.{choice_of};
ghost use Rattle.plant_core.specs.Plants.{definition_of, view_of};
ghost use Rattle.plant_core.specs.View.{sure_in};

use crate::plant::Plant;
use disk_model::Disk;
use plant_model::Choice;
use step_core::Listed;

impl<'s, D: Disk> Plant<'s, D> {
    /// How many choices the plant has now: those of its present state, and the sure ones of these while atoms are away.
    pub fn count(&self) -> u128
        ensures { result ≡ length (sure_in (definition_of self.now) (view_of self.now)) }
    {
        self.executor.count()
    }

    /// The choice with this place, from 0, in the order of the choices.
    pub fn nth(&self, place: u128) -> Choice
        requires { place < length (sure_in (definition_of self.now) (view_of self.now)) }
        ensures { slice_get (sure_in (definition_of self.now) (view_of self.now)) place ≡ Some (choice_of result) }
    {
        self.executor.nth(place)
    }

    /// The place of the choice, if the plant has it now. [`Plant::fire`] fires it by that place.
    pub fn find(&self, choice: &Choice) -> Option<u128>
        ensures there { IfSome result (λ place. slice_get (sure_in (definition_of self.now) (view_of self.now)) place ≡ Some (choice_of choice.now)) }
        ensures none { result ≡ None → Contains (sure_in (definition_of self.now) (view_of self.now)) (choice_of choice.now) → ⊥ }
    {
        self.executor.find(choice)
    }
}

impl<'s, D: Disk> Listed for Plant<'s, D> {
    ghost listed = { λ plant. sure_in (definition_of plant) (view_of plant) };

    fn how_many(&self) -> u128 {
        self.count()
    }

    fn entry(&self, place: u128) -> Choice {
        self.nth(place)
    }
}
