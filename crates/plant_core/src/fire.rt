//! Firing a choice in memory.
ghost use Rattle.std.specs.Prelude.{◌≡◌, ◌+◌, ◌<◌, ◌%◌, None, Some, length, true};
ghost use Rattle.record_codec.specs.Fired.{IsFired, fired_in};
ghost use Rattle.record_codec.specs.declared.layout.TheConstants.{LAST_NUMBER};
ghost use Rattle.record_replay.specs.Records.{record_delivered};
ghost use Rattle.plant_model.specs.Chosen.{choice_of, firing_of};
ghost use Rattle.plant_model.specs.Firing.{has_its_inputs};
ghost use Rattle.step_core.specs.Sure.{IsSure};
ghost use Rattle.plant_core.specs.Events.{IsEvent, fire_refusal};
ghost use Rattle.plant_core.specs.declared.events.Happened.TheVariants.{Fire, FireChoice};
ghost use Rattle.plant_core.specs.Plants.{definition_of, device_of, text_digest, view_of};
ghost use Rattle.plant_core.specs.View.{fired_number, parts_in, with_fired};

use crate::events::FiredAs;
use crate::limits::MOST_TAIL;
use crate::marks::push_mark;
use crate::plant::Plant;
use crate::refused::Refused;
use disk_model::Disk;
use plant_model::laws::an_allowed_choice_is_in_range;
use plant_model::{Choice, Firing, Inputs};
use record_codec::LAST_NUMBER;
use record_replay::laws::{
    a_record_of_what_was_delivered_is_that_of_the_choice, the_record_of_a_step_is_of_its_plant,
};
use record_replay::{FiredStep, count_participants, push_record};
use step_core::laws::sure_is_allowed;

impl<'s, D: Disk> Plant<'s, D> {
    /// Fires the choice at the place `pick`, modulo the number of choices, with a value for each input of its connector, and answers it with
    /// its number. No call of the device is made, and no memory taken.
    pub fn fire(&mut self, pick: u128, inputs: &Inputs) -> Result<FiredAs, Refused>
        ensures event { IsEvent (definition_of self.old) (view_of self.old) (Fire pick inputs.now result) (view_of self.new) }
        ensures device { device_of self.new ≡ device_of self.old }
        ensures plant { definition_of self.new ≡ definition_of self.old }
        ensures digest { text_digest self.new ≡ text_digest self.old }
    {
        if let Some(refused) = self.fire_refusal() {
            return Err(refused);
        }
        let place = place_of(pick, self.executor.count());
        let choice = self.executor.nth(place);
        if !self.executor.system().takes(&choice, inputs.as_slice()) {
            return Err(Refused::Values);
        }
        let number = self.fired() + 1;
        self.go_on(&choice, inputs);
        Ok(FiredAs { number, choice })
    }

    /// Fires this very choice, as [`Plant::fire`] does, if the plant has it now. If not, there is no answer, and nothing changes.
    pub fn fire_choice(
        &mut self,
        choice: &Choice,
        inputs: &Inputs,
    ) -> Option<Result<FiredAs, Refused>>
        ensures event { IsEvent (definition_of self.old) (view_of self.old) (FireChoice choice.now inputs.now result) (view_of self.new) }
        ensures device { device_of self.new ≡ device_of self.old }
        ensures plant { definition_of self.new ≡ definition_of self.old }
        ensures digest { text_digest self.new ≡ text_digest self.old }
    {
        let place = self.find(choice)?;
        Some(self.fire(place, inputs))
    }

    /// Why a fire would be refused now, whatever its pick and its values.
    pub(crate) fn fire_refusal(&self) -> Option<Refused>
        ensures { result ≡ fire_refusal (definition_of self.now) (view_of self.now) }
    {
        let fired = self.fired();
        if self.broken {
            return Some(Refused::Broken);
        }
        if fired == LAST_NUMBER {
            return Some(Refused::Spent);
        }
        if self.tail.len() == MOST_TAIL {
            return Some(Refused::TailFull);
        }
        if fired + 1 - self.journal.base() == u64::from(self.journal.ring()) {
            return Some(Refused::RingFull);
        }
        if self.executor.count() == 0 {
            return Some(if self.executor.is_any_away() {
                Refused::Busy
            } else {
                Refused::Stuck
            });
        }
        None
    }

    /// Fires the choice with the values, for which there is room.
    fn go_on(&mut self, choice: &Choice, inputs: &Inputs)
        requires sure { IsSure (definition_of self.old) (parts_in (view_of self.old)) (choice_of choice.now) }
        requires inputs { has_its_inputs (definition_of self.old) (firing_of choice.now inputs.now) ≡ true }
        requires short { length (view_of self.old).tail < MOST_TAIL }
        requires room { fired_number (view_of self.old) + 1 < (view_of self.old).base + (view_of self.old).ring }
        requires last { fired_number (view_of self.old) < LAST_NUMBER }
        ensures view { view_of self.new ≡ with_fired (definition_of self.old) (firing_of choice.now inputs.now) (view_of self.old) }
        ensures device { device_of self.new ≡ device_of self.old }
        ensures plant { definition_of self.new ≡ definition_of self.old }
        ensures digest { text_digest self.new ≡ text_digest self.old }
    {
        self.executor.system().keeps_its_rules();
        sure_is_allowed();
        an_allowed_choice_is_in_range();
        a_record_of_what_was_delivered_is_that_of_the_choice();
        the_record_of_a_step_is_of_its_plant();
        let number = self.fired() + 1;
        self.executor
            .fire_telling(choice, inputs.as_slice(), &mut self.delivered);
        let step = FiredStep {
            number,
            choice,
            delivered: &self.delivered,
            counts: &self.counts,
        };
        push_record(&step, &mut self.bodies);
        push_mark(number, &step, &mut self.marks);
        count_participants(choice, &mut self.counts);
        self.tail.push_reserved(Firing {
            choice: choice.copy(),
            inputs: inputs.copy(),
        });
    }
}

/// The pick modulo the number of choices. Two numbers that fit 64 bits, as nearly all do, are divided by the processor's own division.
pub(crate) fn place_of(pick: u128, count: u128) -> u128
    requires { 0 < count }
    ensures { result ≡ pick % count }
{
    if pick <= u128::from(u64::MAX) && count <= u128::from(u64::MAX) {
        u128::from(pick as u64 % count as u64)
    } else {
        pick % count
    }
}
