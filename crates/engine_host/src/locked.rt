//! What lies under the lock of a host.
ghost use Rattle.std.specs.Prelude.{◌≡◌, ◌+◌, ◌<◌, ◌≤◌, List, true, false, All, length, sum_by, is_ok, Some, Err, IfErr, IfOk, OnErr, [], if◌then◌else◌};
ghost use mathlib.Core.List.{IsPrefix};
ghost use Rattle.front_word.specs.Fronts.{IsRising, last_of};
ghost use Rattle.plant_core.specs.declared.events.Happened.TheVariants.{Fire, FireChoice, Flush, Ask, Put, Save, Trim, Begin, Back};
ghost use Rattle.plant_core.specs.declared.events.Returned.{Returned};
ghost use Rattle.plant_core.specs.declared.refused.Refused.{Refused};
ghost use Rattle.plant_core.specs.Plants.{definition_of, device_of, text_digest, view_of};
ghost use Rattle.plant_core.specs.View.{fired_number, parts_in};
ghost use Rattle.plant_core.specs.Backs.{refusal_in as back_refusal_in};
ghost use Rattle.plant_core.specs.Events.{IsReturned, is_disk};
ghost use Rattle.plant_model.specs.Chosen.{firing_of};
ghost use Rattle.plant_model.specs.Runs.{IsRun};
ghost use Rattle.step_core.specs.Job.{job_done};
ghost use Rattle.plant_core.specs.Stops.{StandsForAcked, StandsForFront};
ghost use Rattle.disk_model.specs.Cells.{Cell, Leaves, MayBe};
ghost use Rattle.disk_model.specs.DiskState.{CountsUpTo, counted, size_of};
ghost use Rattle.disk_model.specs.declared.cells.TheConstants.{BODY};
ghost use Rattle.plant_core.specs.Puts.{refusal_in};
ghost use Rattle.step_core.specs.Jobs.{AreJobsOf, jobs_of};
ghost use Rattle.engine_host.specs.Held.{IsMade};
ghost use Rattle.engine_host.specs.History.{IsHistory, fronts};
ghost use Rattle.engine_host.specs.Names.{hosted};
ghost use Rattle.engine_host.specs.Told.{HasBegun, HasFired, HasFiredChoice, HasHandedBack, HasMade, fired_in};
ghost use Rattle.engine_host.specs.Views.{front_in, is_used_up};

use crate::closing::{Closed, gather};
use crate::entry::Entry;
use crate::making::{
    back_refusal_of, copy_of_answer, count_fired, fired_in, front_of, publish, refusal_of,
};
use crate::naming::Naming;
use crate::seat::Seat;
use disk_model::Disk;
use front_word::{FrontWord, MOST_FIRED, Publisher, Watch};
use plant_core::{BackRefused, FiredAs, Front, Happened, Plant, PutRefused, Refused, SavedTo};
use plant_model::{Choice, Inputs};
use snapshot_writer::{Encoded, Parcel};
use std::marker::Model;
use std::sync::ledger::{Book, Share};
use step_core::{Done, Jobs};

/// The plant of a host, with the pass that publishes its history, and the book of what was fired. Each call but [`Locked::tell`] makes one
/// event of the plant, and publishes it last.
#[derive(Drop)]
pub struct Locked<'s, D: Disk, N: Naming> {
    plant: Plant<'s, D>,
    publisher: Publisher<Entry, N>,
    book: Book<N>,
}

impl<'s, D: Disk, N: Naming> Model for Locked<'s, D, N> {
    ghost use Rattle.engine_host.specs.Held.{Held, IsKept, held_by};
    ghost use Rattle.plant_core.specs.Plants.{definition_of};
    ghost use Rattle.std.specs.Coded.{codes};
    ghost use Rattle.petri_atom.specs.Codes.{tree_code};

    ghost Value = { Held };

    ghost coded = { Prim.hlevel (codes, tree_code) };

    ghost view = { λ l. held_by l.plant l.publisher l.book.total };

    ghost invariant = { λ l. IsKept N.plant N.view N.digest N.keeps N.opening (definition_of l.plant) (held_by l.plant l.publisher l.book.total) };
}

impl<'s, D: Disk, N: Naming> Locked<'s, D, N> {
    /// The plant of a host that opens, which has no history yet.
    pub(crate) fn new(
        plant: Plant<'s, D>,
        publisher: Publisher<Entry, N>,
        book: Book<N>,
    ) -> Locked<'s, D, N>
        requires over { hosted plant ≡ record { plant = N.plant; view = N.view; digest = N.digest; keeps = N.keeps } }
        requires opens { N.opening ≡ front_in N.view }
        requires history { publisher ≡ [] }
        requires book { book.total ≡ 0 }
        ensures view { result.view ≡ N.view }
        ensures history { result.history ≡ [] }
        ensures device { result.device ≡ device_of plant.entry }
        ensures digest { result.digest ≡ text_digest plant.entry }
    {
        Locked {
            plant,
            publisher,
            book,
        }
    }

    /// The history leads from the view at opening to the plant's view, and as many choices were fired on the way as the book has. It makes no call.
    pub fn leads(&self)
        ensures history { IsHistory N.plant N.view self.now.history self.now.view }
        ensures booked { self.now.total + fired_number N.view ≡ fired_number self.now.view }
    {
        let _ = &self.plant;
    }

    /// What the plant keeps by its type, it keeps here. Whatever a stop leaves now stands for the acknowledged state where the device has
    /// not failed, and else for the state after some front of the tail; and the tail is a run from the acknowledged state to the present
    /// one. It makes no call.
    pub fn stands(&self)
        ensures acked { self.now.device.keeps ≡ true → self.now.view.broken ≡ false → (cells : List Cell) → MayBe (BODY + 1) self.now.device cells
            → StandsForAcked N.plant self.now.digest (size_of self.now.device) self.now.view cells }
        ensures front { self.now.device.keeps ≡ true → (cells : List Cell) → MayBe (BODY + 1) self.now.device cells
            → StandsForFront N.plant self.now.digest (size_of self.now.device) self.now.view cells }
        ensures run { IsRun N.plant self.now.view.acked self.now.view.tail self.now.view.present }
    {
        self.plant.stands();
        self.plant.stands_for_a_front();
        self.plant.tail_is_a_run();
    }

    /// The plant, with how many choices were fired since the opening: the sum of all shares. All that the seats know begins the history.
    pub(crate) fn close(self, word: &FrontWord<Entry, N>, seats: Vec<Seat<N>>) -> Closed<'s, D>
        requires some { 0 < length seats.items }
        requires all { N.parts ≤ length seats.items }
        ensures within { length seats.items ≤ N.parts }
        ensures view { view_of result.plant ≡ self.entry.view }
        ensures plant { definition_of result.plant ≡ N.plant }
        ensures device { device_of result.plant ≡ self.entry.device }
        ensures digest { text_digest result.plant ≡ N.digest }
        ensures keeps { (device_of result.plant).keeps ≡ N.keeps }
        ensures amount { result.fired ≡ sum_by (λ s. s.share.amount) seats.items }
        ensures fired { result.fired + fired_number N.view ≡ fired_number self.entry.view }
        ensures known { All (λ s. IsPrefix s.watch self.entry.history) seats.items }
        ensures history { IsHistory N.plant N.view self.entry.history (view_of result.plant) }
    {
        let Locked {
            plant,
            mut publisher,
            mut book,
        } = self;
        let mut all = gather(word, &mut publisher, seats);
        book.audit(&mut all);
        let fired = front_of(&plant).fired - word.opening().fired;
        Closed { fired, plant }
    }

    /// Whether so many choices were fired since the opening that no more can be counted.
    fn is_used_up(&self, word: &FrontWord<Entry, N>) -> bool
        ensures { result ≡ is_used_up N.view self.now.view }
    {
        front_of(&self.plant).fired - word.opening().fired == MOST_FIRED
    }

    /// Fires the choice at the place of the pick with these values, and counts it.
    pub fn fire(
        &mut self,
        word: &FrontWord<Entry, N>,
        share: &mut Share<N>,
        pick: u128,
        inputs: &Inputs,
    ) -> Result<FiredAs, Refused>
        requires part { 0 < share.old.parts }
        ensures made { is_used_up N.view self.old.view ≡ false → IsMade N.plant self.old (Fire pick inputs.now result) self.new }
        ensures spent { is_used_up N.view self.old.view ≡ true → result ≡ Err Refused.Spent }
        ensures untouched { is_used_up N.view self.old.view ≡ true → self.new ≡ self.old }
        ensures device { self.new.device ≡ self.old.device }
        ensures amount { share.new.amount ≡ share.old.amount + (if is_ok result then 1 else 0) }
        ensures parts { share.new.parts ≡ share.old.parts }
    {
        if self.is_used_up(word) {
            return Err(Refused::Spent);
        }
        let answer = self.plant.fire(pick, inputs);
        self.book.add(share, count_fired(&answer));
        let happened = publish(
            &self.plant,
            &mut self.publisher,
            word,
            Happened::Fire(pick, inputs.copy(), answer),
        );
        let Happened::Fire(_, _, answer) = happened else {
            unreachable!()
        };
        answer
    }

    /// Fires this very choice with these values if the plant has it now, and counts it.
    pub fn fire_choice(
        &mut self,
        word: &FrontWord<Entry, N>,
        share: &mut Share<N>,
        choice: &Choice,
        inputs: &Inputs,
    ) -> Option<Result<FiredAs, Refused>>
        requires part { 0 < share.old.parts }
        ensures made { is_used_up N.view self.old.view ≡ false → IsMade N.plant self.old (FireChoice choice.now inputs.now result) self.new }
        ensures spent { is_used_up N.view self.old.view ≡ true → result ≡ Some (Err Refused.Spent) }
        ensures untouched { is_used_up N.view self.old.view ≡ true → self.new ≡ self.old }
        ensures device { self.new.device ≡ self.old.device }
        ensures amount { share.new.amount ≡ share.old.amount + fired_in result }
        ensures parts { share.new.parts ≡ share.old.parts }
    {
        if self.is_used_up(word) {
            return Some(Err(Refused::Spent));
        }
        let answer = self.plant.fire_choice(choice, inputs);
        self.book.add(share, fired_in(&answer));
        let happened = publish(
            &self.plant,
            &mut self.publisher,
            word,
            Happened::FireChoice(choice.copy(), inputs.copy(), answer),
        );
        let Happened::FireChoice(_, _, answer) = happened else {
            unreachable!()
        };
        answer
    }

    /// Begins the choice at the place of the pick with these values, and counts it. Its participants go away, each with a job.
    pub fn begin(
        &mut self,
        word: &FrontWord<Entry, N>,
        share: &mut Share<N>,
        pick: u128,
        inputs: &Inputs,
        jobs: &mut Jobs<'s>,
    ) -> Result<FiredAs, Refused>
        requires part { 0 < share.old.parts }
        requires empty { jobs_of jobs.old ≡ [] }
        ensures made { is_used_up N.view self.old.view ≡ false → IsMade N.plant self.old (Begin pick inputs.now result) self.new }
        ensures jobs { IfOk result (λ fired. AreJobsOf N.plant (parts_in self.old.view) (firing_of fired.choice inputs.now) self.old.view.counts fired.choice.moves (jobs_of jobs.new)) }
        ensures none { OnErr result (jobs_of jobs.new ≡ []) }
        ensures spent { is_used_up N.view self.old.view ≡ true → result ≡ Err Refused.Spent }
        ensures untouched { is_used_up N.view self.old.view ≡ true → self.new ≡ self.old }
        ensures device { self.new.device ≡ self.old.device }
        ensures amount { share.new.amount ≡ share.old.amount + (if is_ok result then 1 else 0) }
        ensures parts { share.new.parts ≡ share.old.parts }
    {
        if self.is_used_up(word) {
            return Err(Refused::Spent);
        }
        let answer = self.plant.begin(pick, inputs, jobs);
        self.book.add(share, count_fired(&answer));
        let happened = publish(
            &self.plant,
            &mut self.publisher,
            word,
            Happened::Begin(pick, inputs.copy(), answer),
        );
        let Happened::Begin(_, _, answer) = happened else {
            unreachable!()
        };
        answer
    }

    /// Takes a job back that was done.
    pub fn back(
        &mut self,
        word: &FrontWord<Entry, N>,
        done: Done<'s>,
    ) -> Result<(), BackRefused<'s>>
        ensures made { (returned : Returned) × IsReturned N.plant returned (job_done done.entry) × IsMade N.plant self.old (Back returned (back_refusal_in result)) self.new }
        ensures returned { IfErr result (λ refused. refused.done ≡ done.entry) }
        ensures device { self.new.device ≡ self.old.device }
    {
        let returned = self.plant.returned(&done);
        let answer = self.plant.back(done);
        let told = back_refusal_of(&answer);
        publish(
            &self.plant,
            &mut self.publisher,
            word,
            Happened::Back(returned, told),
        );
        answer
    }

    /// Acknowledges all that was fired.
    pub fn flush(&mut self, word: &FrontWord<Entry, N>) -> Result<u64, Refused>
        ensures made { IsMade N.plant self.old (Flush result) self.new }
        ensures cause { self.new.device.failures ≡ counted (is_disk result) self.old.device.failures }
        ensures stops { self.old.device.keeps ≡ true
            → Leaves (BODY + 1) (StandsForFront N.plant self.old.digest (size_of self.old.device) self.old.view) self.old.device self.new.device }
    {
        let answer = self.plant.flush();
        publish(
            &self.plant,
            &mut self.publisher,
            word,
            Happened::Flush(answer),
        );
        answer
    }

    /// Copies the present state of the atom with the number, to be saved.
    pub fn ask(&mut self, word: &FrontWord<Entry, N>, atom: u16) -> Result<Parcel, Refused>
        ensures made { IsMade N.plant self.old (Ask atom result) self.new }
        ensures device { self.new.device ≡ self.old.device }
    {
        let answer = self.plant.ask(atom);
        let copy = copy_of_answer(&answer);
        publish(
            &self.plant,
            &mut self.publisher,
            word,
            Happened::Ask(atom, copy),
        );
        answer
    }

    /// Stores a state that was asked for.
    pub fn put(&mut self, word: &FrontWord<Entry, N>, encoded: Encoded) -> Result<u64, PutRefused>
        ensures made { IsMade N.plant self.old (Put encoded (refusal_in result)) self.new }
        ensures returned { IfErr result (λ refused. refused.encoded ≡ encoded) }
        ensures cause { CountsUpTo (is_disk (refusal_in result)) 3 self.old.device self.new.device }
        ensures stops { self.old.device.keeps ≡ true → self.old.view.broken ≡ false
            → Leaves (BODY + 1) (StandsForAcked N.plant self.old.digest (size_of self.old.device) self.old.view) self.old.device self.new.device }
    {
        let handed = encoded.parcel().to_saved();
        let answer = self.plant.put(encoded);
        let told = refusal_of(&answer);
        publish(
            &self.plant,
            &mut self.publisher,
            word,
            Happened::Put(handed, told),
        );
        answer
    }

    /// Saves the acknowledged states of all atoms that are behind.
    pub fn save(&mut self, word: &FrontWord<Entry, N>) -> Result<SavedTo, Refused>
        ensures made { IsMade N.plant self.old (Save result) self.new }
        ensures cause { CountsUpTo (is_disk result) 3 self.old.device self.new.device }
        ensures stops { self.old.device.keeps ≡ true → self.old.view.broken ≡ false
            → Leaves (BODY + 1) (StandsForAcked N.plant self.old.digest (size_of self.old.device) self.old.view) self.old.device self.new.device }
    {
        let answer = self.plant.save();
        publish(
            &self.plant,
            &mut self.publisher,
            word,
            Happened::Save(answer),
        );
        answer
    }

    /// Drops the records that no restart needs.
    pub fn trim(&mut self, word: &FrontWord<Entry, N>) -> Result<u64, Refused>
        ensures made { IsMade N.plant self.old (Trim result) self.new }
        ensures cause { CountsUpTo (is_disk result) 4 self.old.device self.new.device }
        ensures stops { self.old.device.keeps ≡ true → self.old.view.broken ≡ false
            → Leaves (BODY + 1) (StandsForAcked N.plant self.old.digest (size_of self.old.device) self.old.view) self.old.device self.new.device }
    {
        let answer = self.plant.trim();
        publish(
            &self.plant,
            &mut self.publisher,
            word,
            Happened::Trim(answer),
        );
        answer
    }

    /// Tells the watch the history so far.
    pub fn tell(&mut self, word: &FrontWord<Entry, N>, watch: &mut Watch<Entry, N>) -> Front
        ensures same { self.new ≡ self.old }
        ensures told { watch.new ≡ self.old.history }
        ensures grows { IsPrefix watch.old watch.new }
        ensures legal { IsHistory N.plant N.view watch.new self.old.view }
        ensures front { result ≡ front_in self.old.view }
        ensures last { result ≡ last_of N.opening (fronts watch.new) }
        ensures rises { IsRising N.opening N.opening (fronts watch.new) }
    {
        self.publisher.tell(word, watch)
    }

    /// Fires for a seat, whose watch is told before and after.
    pub(crate) fn fire_for(
        &mut self,
        word: &FrontWord<Entry, N>,
        seat: &mut Seat<N>,
        pick: u128,
        inputs: &Inputs,
    ) -> Result<FiredAs, Refused>
        ensures watch { HasFired N.plant N.view seat.old.watch pick inputs.now result seat.new.watch }
        ensures amount { seat.new.share.amount ≡ seat.old.share.amount + (if is_ok result then 1 else 0) }
    {
        self.tell(word, &mut seat.watch);
        let answer = self.fire(word, &mut seat.share, pick, inputs);
        self.tell(word, &mut seat.watch);
        answer
    }

    /// Fires a choice for a seat, whose watch is told before and after.
    pub(crate) fn fire_choice_for(
        &mut self,
        word: &FrontWord<Entry, N>,
        seat: &mut Seat<N>,
        choice: &Choice,
        inputs: &Inputs,
    ) -> Option<Result<FiredAs, Refused>>
        ensures watch { HasFiredChoice N.plant N.view seat.old.watch choice.now inputs.now result seat.new.watch }
        ensures amount { seat.new.share.amount ≡ seat.old.share.amount + fired_in result }
    {
        self.tell(word, &mut seat.watch);
        let answer = self.fire_choice(word, &mut seat.share, choice, inputs);
        self.tell(word, &mut seat.watch);
        answer
    }

    /// Begins for a seat, whose watch is told before and after.
    pub(crate) fn begin_for(
        &mut self,
        word: &FrontWord<Entry, N>,
        seat: &mut Seat<N>,
        pick: u128,
        inputs: &Inputs,
        jobs: &mut Jobs<'s>,
    ) -> Result<FiredAs, Refused>
        requires empty { jobs_of jobs.old ≡ [] }
        ensures watch { HasBegun N.plant N.view seat.old.watch pick inputs.now result (jobs_of jobs.new) seat.new.watch }
        ensures amount { seat.new.share.amount ≡ seat.old.share.amount + (if is_ok result then 1 else 0) }
    {
        self.tell(word, &mut seat.watch);
        let answer = self.begin(word, &mut seat.share, pick, inputs, jobs);
        self.tell(word, &mut seat.watch);
        answer
    }

    /// Takes a job back for a seat.
    pub(crate) fn back_for(
        &mut self,
        word: &FrontWord<Entry, N>,
        seat: &mut Seat<N>,
        done: Done<'s>,
    )
        ensures watch { HasHandedBack N.plant N.view seat.old.watch (job_done done.entry) seat.new.watch }
        ensures amount { seat.new.share.amount ≡ seat.old.share.amount }
    {
        self.tell(word, &mut seat.watch);
        let _ = self.back(word, done);
        self.tell(word, &mut seat.watch);
    }

    /// Flushes for a seat.
    pub(crate) fn flush_for(
        &mut self,
        word: &FrontWord<Entry, N>,
        seat: &mut Seat<N>,
    ) -> Result<u64, Refused>
        ensures watch { HasMade N.plant N.view seat.old.watch (Flush result) seat.new.watch }
        ensures amount { seat.new.share.amount ≡ seat.old.share.amount }
    {
        self.tell(word, &mut seat.watch);
        let answer = self.flush(word);
        self.tell(word, &mut seat.watch);
        answer
    }

    /// Saves for a seat.
    pub(crate) fn save_for(
        &mut self,
        word: &FrontWord<Entry, N>,
        seat: &mut Seat<N>,
    ) -> Result<SavedTo, Refused>
        ensures watch { HasMade N.plant N.view seat.old.watch (Save result) seat.new.watch }
        ensures amount { seat.new.share.amount ≡ seat.old.share.amount }
    {
        self.tell(word, &mut seat.watch);
        let answer = self.save(word);
        self.tell(word, &mut seat.watch);
        answer
    }

    /// Trims for a seat.
    pub(crate) fn trim_for(
        &mut self,
        word: &FrontWord<Entry, N>,
        seat: &mut Seat<N>,
    ) -> Result<u64, Refused>
        ensures watch { HasMade N.plant N.view seat.old.watch (Trim result) seat.new.watch }
        ensures amount { seat.new.share.amount ≡ seat.old.share.amount }
    {
        self.tell(word, &mut seat.watch);
        let answer = self.trim(word);
        self.tell(word, &mut seat.watch);
        answer
    }

    /// Asks for a seat.
    pub(crate) fn ask_for(
        &mut self,
        word: &FrontWord<Entry, N>,
        seat: &mut Seat<N>,
        atom: u16,
    ) -> Result<Parcel, Refused>
        ensures watch { HasMade N.plant N.view seat.old.watch (Ask atom result) seat.new.watch }
        ensures amount { seat.new.share.amount ≡ seat.old.share.amount }
    {
        self.tell(word, &mut seat.watch);
        let answer = self.ask(word, atom);
        self.tell(word, &mut seat.watch);
        answer
    }

    /// Puts for a seat.
    pub(crate) fn put_for(
        &mut self,
        word: &FrontWord<Entry, N>,
        seat: &mut Seat<N>,
        encoded: Encoded,
    ) -> Result<u64, PutRefused>
        ensures watch { HasMade N.plant N.view seat.old.watch (Put encoded (refusal_in result)) seat.new.watch }
        ensures amount { seat.new.share.amount ≡ seat.old.share.amount }
    {
        self.tell(word, &mut seat.watch);
        let answer = self.put(word, encoded);
        self.tell(word, &mut seat.watch);
        answer
    }
}
