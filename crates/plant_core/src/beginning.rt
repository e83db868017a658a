//! Beginning a choice whose participants go away, and taking a job back that was done.
ghost use Rattle.std.specs.Prelude.{◌≡◌, ◌+◌, ◌<◌, [], None, Some, IfOk, IfErr, OnErr, length, map, slice_get, slice_index_or, true};
ghost use Rattle.record_codec.specs.Fired.{IsFired, fired_in};
ghost use Rattle.record_codec.specs.declared.layout.TheConstants.{LAST_NUMBER};
ghost use Rattle.record_replay.specs.Records.{record_delivered};
ghost use Rattle.plant_model.specs.Chosen.{choice_of, firing_of};
ghost use Rattle.plant_model.specs.Firing.{has_its_inputs};
ghost use Rattle.step_core.specs.Job.{JobDefinition, job_done};
ghost use Rattle.step_core.specs.Jobs.{AreJobsOf, jobs_of};
ghost use Rattle.step_core.specs.Sure.{IsSure};
ghost use Rattle.plant_core.specs.Backs.{refusal_in};
ghost use Rattle.plant_core.specs.Events.{IsBack, IsEvent, IsReturned, fire_refusal};
ghost use Rattle.plant_core.specs.declared.events.Happened.TheVariants.{Begin};
ghost use Rattle.plant_core.specs.Plants.{definition_of, device_of, text_digest, view_of};
ghost use Rattle.plant_core.specs.declared.limits.TheConstants.{MOST_TAIL};
ghost use Rattle.plant_core.specs.View.{fired_number, parts_in, with_begun};

use crate::events::{FiredAs, Returned};
use crate::fire::place_of;
use crate::marks::push_mark;
use crate::plant::Plant;
use crate::refused::{BackRefused, Refused};
use disk_model::Disk;
use plant_model::laws::an_allowed_choice_is_in_range;
use plant_model::{Choice, Firing, Inputs};
use record_replay::laws::{
    a_record_of_what_was_delivered_is_that_of_the_choice, the_record_of_a_step_is_of_its_plant,
};
use record_replay::{FiredStep, count_participants, push_record};
use step_core::laws::sure_is_allowed;
use step_core::{Done, Jobs};

impl<'s, D: Disk> Plant<'s, D> {
    /// Begins the choice at the place `pick`, modulo the number of choices, with a value for each input of its connector, and answers it with its
    /// number: its participants go away, each with a job, of which the plant keeps a copy. Its record is whole: no flush and no restart needs what
    /// the jobs come to. No call of the device is made, and no memory taken.
    pub fn begin(
        &mut self,
        pick: u128,
        inputs: &Inputs,
        jobs: &mut Jobs<'s>,
    ) -> Result<FiredAs, Refused>
        requires { jobs_of jobs.old ≡ [] }
        ensures event { IsEvent (definition_of self.old) (view_of self.old) (Begin pick inputs.now result) (view_of self.new) }
        ensures jobs { IfOk result (λ fired. AreJobsOf (definition_of self.old) (parts_in (view_of self.old)) (firing_of fired.choice inputs.now) (view_of self.old).counts fired.choice.moves (jobs_of jobs.new)) }
        ensures none { OnErr result (jobs_of jobs.new ≡ []) }
        ensures device { device_of self.new ≡ device_of self.old }
        ensures plant { definition_of self.new ≡ definition_of self.old }
        ensures digest { text_digest self.new ≡ text_digest self.old }
    {
        if let Some(refused) = self.fire_refusal() {
            return Err(refused);
        }
        let place = place_of(pick, self.executor.count());
        let choice = self.executor.nth(place);
        if !self.executor.system().takes(&choice, inputs.as_slice()) {
            return Err(Refused::Values);
        }
        let number = self.fired() + 1;
        self.go_away(&choice, inputs, jobs);
        Ok(FiredAs { number, choice })
    }

    /// Begins the choice with the values, for which there is room.
    fn go_away(&mut self, choice: &Choice, inputs: &Inputs, jobs: &mut Jobs<'s>)
        requires sure { IsSure (definition_of self.old) (parts_in (view_of self.old)) (choice_of choice.now) }
        requires inputs { has_its_inputs (definition_of self.old) (firing_of choice.now inputs.now) ≡ true }
        requires short { length (view_of self.old).tail < MOST_TAIL }
        requires room { fired_number (view_of self.old) + 1 < (view_of self.old).base + (view_of self.old).ring }
        requires last { fired_number (view_of self.old) < LAST_NUMBER }
        requires empty { jobs_of jobs.old ≡ [] }
        ensures view { view_of self.new ≡ with_begun (definition_of self.old) (firing_of choice.now inputs.now) (view_of self.old) }
        ensures jobs { AreJobsOf (definition_of self.old) (parts_in (view_of self.old)) (firing_of choice.now inputs.now) (view_of self.old).counts choice.now.moves (jobs_of jobs.new) }
        ensures device { device_of self.new ≡ device_of self.old }
        ensures plant { definition_of self.new ≡ definition_of self.old }
        ensures digest { text_digest self.new ≡ text_digest self.old }
    {
        self.executor.system().keeps_its_rules();
        sure_is_allowed();
        an_allowed_choice_is_in_range();
        a_record_of_what_was_delivered_is_that_of_the_choice();
        the_record_of_a_step_is_of_its_plant();
        let number = self.fired() + 1;
        self.executor.begin(
            choice,
            inputs.as_slice(),
            &self.counts,
            jobs,
            &mut self.delivered,
        );
        let step = FiredStep {
            number,
            choice,
            delivered: &self.delivered,
            counts: &self.counts,
        };
        push_record(&step, &mut self.bodies);
        push_mark(number, &step, &mut self.marks);
        count_participants(choice, &mut self.counts);
        self.tail.push_reserved(Firing {
            choice: choice.copy(),
            inputs: inputs.copy(),
        });
    }

    /// Takes a job back that was done: its atom is present again. It has to be the very one that was given out. If it is refused it comes
    /// back. No call of the device is made, and no memory taken.
    pub fn back(&mut self, done: Done<'s>) -> Result<(), BackRefused<'s>>
        ensures event { IsBack (view_of self.old) (job_done done.entry) (refusal_in result) (view_of self.new) }
        ensures returned { IfErr result (λ refused. refused.done ≡ done.entry) }
        ensures device { device_of self.new ≡ device_of self.old }
        ensures plant { definition_of self.new ≡ definition_of self.old }
        ensures digest { text_digest self.new ≡ text_digest self.old }
    {
        if self.broken {
            return Err(BackRefused {
                done,
                refused: Refused::Broken,
            });
        }
        match self.executor.back(done) {
            Ok(()) => Ok(()),
            Err(done) => Err(BackRefused {
                done,
                refused: Refused::Stranger,
            }),
        }
    }

    /// The job that was done, as plain data: what a history keeps of it. `own` says whether its definition is that of the plant's own atom.
    pub fn returned(&self, done: &Done<'_>) -> Returned
        ensures { IsReturned (definition_of self.now) result (job_done done.now) }
    {
        let own = match self.executor.system().atoms().get(usize::from(done.atom())) {
            Some(own) => own.same(done.definition()),
            None => false,
        };
        Returned {
            own,
            atom: done.atom(),
            count: done.count(),
            transition: done.transition(),
            delivered: done.delivered(),
            before: done.before().copy(),
        }
    }
}
