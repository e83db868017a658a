//! A host: one plant under one lock, for many threads.
ghost use Rattle.std.specs.Prelude.{◌≡◌, ◌+◌, ◌⊎◌, is_ok, Err, if◌then◌else◌};
ghost use mathlib.Core.List.{IsPrefix};
ghost use Rattle.front_word.specs.Fronts.{IsRising, last_of};
ghost use Rattle.plant_core.specs.declared.events.Happened.TheVariants.{Fire, Flush, Save, Trim};
ghost use Rattle.plant_core.specs.declared.refused.Refused.{Refused};
ghost use Rattle.engine_host.specs.History.{IsLegal, fronts};
ghost use Rattle.step_core.specs.Jobs.{jobs_of};
ghost use Rattle.engine_host.specs.Told.{AreHandedBack, HasFired, HasFiredChoice, HasMade, HasSaved, HasWorked, fired_in};

use crate::entry::Entry;
use crate::gate::Gate;
use crate::locked::Locked;
use crate::naming::Naming;
use crate::seat::Seat;
use disk_model::Disk;
use front_word::{FrontWord, Watch};
use plant_core::{FiredAs, Front, PutRefused, Refused, SavedTo};
use plant_model::{Choice, Inputs};
use snapshot_writer::encode;
use std::sync::{Mutex, Wait};
use step_core::{Jobs, work};

/// One plant under one lock, with the word that tells how far it is.
#[derive(Drop)]
pub struct Host<'s, D: Disk, N: Naming> {
    pub(crate) lock: Mutex<Locked<'s, D, N>>,
    pub(crate) word: FrontWord<Entry, N>,
    pub(crate) seats: usize,
    pub ghost seats_are: { seats ≡ N.seats },
}

impl<'s, D: Disk, N: Naming> Host<'s, D, N> {
    /// Fires the choice at the place of the pick with these values, as `Plant::fire` does, in one hold of the lock. Where it fired the seat's
    /// share rises by one. A host over which `MOST_FIRED` choices were fired answers Spent, and makes no event.
    pub fn fire(
        &self,
        rt: &impl Wait,
        seat: &mut Seat<N>,
        pick: u128,
        inputs: &Inputs,
    ) -> Result<FiredAs, Refused>
        ensures watch { HasFired N.plant N.view seat.old.watch pick inputs.now result seat.new.watch }
        ensures amount { seat.new.share.amount ≡ seat.old.share.amount + (if is_ok result then 1 else 0) }
    {
        self.lock.lock(rt).fire_for(&self.word, seat, pick, inputs)
    }

    /// Fires this very choice with these values if the plant has it now, as `Plant::fire_choice` does, in one hold of the lock; none where it
    /// has not. The seat's share rises as by [`Host::fire`].
    pub fn fire_choice(
        &self,
        rt: &impl Wait,
        seat: &mut Seat<N>,
        choice: &Choice,
        inputs: &Inputs,
    ) -> Option<Result<FiredAs, Refused>>
        ensures watch { HasFiredChoice N.plant N.view seat.old.watch choice.now inputs.now result seat.new.watch }
        ensures amount { seat.new.share.amount ≡ seat.old.share.amount + fired_in result }
    {
        self.lock
            .lock(rt)
            .fire_choice_for(&self.word, seat, choice, inputs)
    }

    /// Acknowledges all that was fired, by whomever, as `Plant::flush` does, in one hold of the lock.
    pub fn flush(&self, rt: &impl Wait, seat: &mut Seat<N>) -> Result<u64, Refused>
        ensures watch { HasMade N.plant N.view seat.old.watch (Flush result) seat.new.watch }
        ensures amount { seat.new.share.amount ≡ seat.old.share.amount }
    {
        self.lock.lock(rt).flush_for(&self.word, seat)
    }

    /// Saves the acknowledged states of all atoms that are behind, as `Plant::save` does, in one hold of the lock.
    pub fn save(&self, rt: &impl Wait, seat: &mut Seat<N>) -> Result<SavedTo, Refused>
        ensures watch { HasMade N.plant N.view seat.old.watch (Save result) seat.new.watch }
        ensures amount { seat.new.share.amount ≡ seat.old.share.amount }
    {
        self.lock.lock(rt).save_for(&self.word, seat)
    }

    /// Drops the records that no restart needs, as `Plant::trim` does, in one hold of the lock.
    pub fn trim(&self, rt: &impl Wait, seat: &mut Seat<N>) -> Result<u64, Refused>
        ensures watch { HasMade N.plant N.view seat.old.watch (Trim result) seat.new.watch }
        ensures amount { seat.new.share.amount ≡ seat.old.share.amount }
    {
        self.lock.lock(rt).trim_for(&self.word, seat)
    }

    /// Saves the state of one atom: it is copied in one hold of the lock, encoded outside, and stored in another. Others fire meanwhile. It gives the
    /// refusal of the copy, or what storing answers. A state that is refused is given up: whoever wants it saved asks again.
    pub fn save_one(
        &self,
        rt: &impl Wait,
        seat: &mut Seat<N>,
        atom: u16,
        gate: &impl Gate,
    ) -> Result<u64, Refused>
        ensures watch { HasSaved N.plant N.view seat.old.watch atom result seat.new.watch }
        ensures amount { seat.new.share.amount ≡ seat.old.share.amount }
    {
        let parcel = self.lock.lock(rt).ask_for(&self.word, seat, atom)?;
        gate.outside(atom);
        let encoded = encode(parcel);
        match self.lock.lock(rt).put_for(&self.word, seat, encoded) {
            Ok(count) => Ok(count),
            Err(PutRefused { refused, .. }) => Err(refused),
        }
    }

    /// Fires the choice at the place of the pick with these values, and runs the updates of its participants outside the lock: it begins in one
    /// hold, and hands each participant back in a hold of its own, the least atom first. Others fire meanwhile what needs none of them. Where
    /// it fired the seat's share rises by one. A host over which `MOST_FIRED` choices were fired answers Spent, and makes no event.
    pub fn work(
        &self,
        rt: &impl Wait,
        seat: &mut Seat<N>,
        pick: u128,
        inputs: &Inputs,
        gate: &impl Gate,
    ) -> Result<FiredAs, Refused>
        ensures watch { HasWorked N.plant N.view seat.old.watch pick inputs.now result seat.new.watch }
        ensures amount { seat.new.share.amount ≡ seat.old.share.amount + (if is_ok result then 1 else 0) }
    {
        let mut jobs = Jobs::new();
        let answer = self
            .lock
            .lock(rt)
            .begin_for(&self.word, seat, pick, inputs, &mut jobs);
        self.work_all(rt, seat, &mut jobs, gate);
        answer
    }

    /// Does these jobs outside the lock, and hands each back.
    fn work_all(&self, rt: &impl Wait, seat: &mut Seat<N>, jobs: &mut Jobs<'s>, gate: &impl Gate)
        ensures watch { AreHandedBack N.plant N.view (jobs_of jobs.old) seat.old.watch seat.new.watch }
        ensures amount { seat.new.share.amount ≡ seat.old.share.amount }
    {
        while let Some(job) = jobs.take() {
            gate.outside(job.atom());
            self.lock.lock(rt).back_for(&self.word, seat, work(job));
        }
    }

    /// Tells the watch the whole history, under the lock.
    pub fn tell(&self, rt: &impl Wait, watch: &mut Watch<Entry, N>) -> Front
        ensures grows { IsPrefix watch.old watch.new }
        ensures legal { IsLegal N.plant N.view watch.new }
        ensures front { result ≡ last_of N.opening (fronts watch.new) }
        ensures rises { IsRising N.opening N.opening (fronts watch.new) }
    {
        self.lock.lock(rt).tell(&self.word, watch)
    }

    /// How far the plant is, by the word: a front that was published, after all that the watch has read or was told. It takes no lock and
    /// waits for nobody.
    pub fn front(&self, watch: &mut Watch<Entry, N>) -> Front
        ensures grows { IsPrefix watch.old watch.new }
        ensures front { result ≡ last_of N.opening (fronts watch.new) }
        ensures rises { IsRising N.opening N.opening (fronts watch.new) }
    {
        watch.front(&self.word)
    }

    /// A second watch that knows as much. It takes no lock.
    pub fn split(&self, watch: &mut Watch<Entry, N>) -> Watch<Entry, N>
        ensures same { watch.new ≡ watch.old }
        ensures as_much { result ≡ watch.old }
    {
        watch.split(&self.word)
    }

    /// Takes in another watch: what the watch knows then begins with what both knew. It takes no lock.
    pub fn join(&self, other: Watch<Entry, N>, watch: &mut Watch<Entry, N>)
        ensures grows { IsPrefix watch.old watch.new }
        ensures grows_from_other { IsPrefix other watch.new }
        ensures rises { IsRising N.opening N.opening (fronts watch.new) }
    {
        watch.join(&self.word, other)
    }
}
