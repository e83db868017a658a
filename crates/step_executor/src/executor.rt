//! A plant that runs while atoms are away.
ghost use Rattle.std.specs.Prelude.{◌≡◌, ◌≢◌, ◌<◌, [], None, Some, IfOk, IfErr, IfSome, OnOk, OnErr, IsTrue, ◌↔◌, length, map, option_map, replicate, slice_get, slice_index_or, slice_set, is_some};
ghost use Rattle.std.specs.List.{list_any};
ghost use Rattle.connector_tree.specs.declared.tree.TheConstants.{MAX_LEAVES};
ghost use Rattle.petri_atom.specs.Definition.{AtomDefinition, Fits};
ghost use Rattle.plant_model.specs.Chosen.{choice_of, firing_of};
ghost use Rattle.plant_model.specs.Delivery.{IsDelivered};
ghost use Rattle.plant_model.specs.Fitting.{IsOf, AllFit};
ghost use Rattle.plant_model.specs.Step.{next, transfer};
ghost use Rattle.plant_model.specs.System.{plant_of};
ghost use Rattle.step_core.specs.Dispatcher.{parts_in, system_of};
ghost use Rattle.step_core.specs.Job.{job_done, job_of};
ghost use Rattle.step_core.specs.Jobs.{AreJobsOf, jobs_of};
ghost use Rattle.step_core.specs.Sure.{IsSure, sure_choices};
ghost use Rattle.step_executor.specs.Outstanding.{AreCommitted, AreKept, AreMarked, is_out, jobs_after, kept_in, parts_without, whole_of};

use crate::committing::{commit_back, copied, copy_parts, mark_moved};
use crate::keeping::keep_jobs;
use connector_tree::MAX_LEAVES;
use petri_atom::{AtomState, Delivered};
use plant_model::{Choice, MAX_ATOMS, PlantState, System};
use std::alloc::{AllocError, Global};
use step_core::{Dispatcher, Done, Job, Jobs, PlantParts};

/// A plant that runs while atoms are away: a [`Dispatcher`], and of each atom that is away a copy of the job that it was given. Beside its
/// present state it has a committed one, which is the present state at the last commit. A commit copies the states of the atoms alone
/// that have moved since the one before. Only making it takes memory.
///
/// Of the committed state nothing is kept of an atom that was away at the last commit and still is: it is where the atom's job leaves it.
#[derive(Drop)]
pub struct Executor<'s> {
    dispatcher: Dispatcher<'s>,
    kept: Vec<Option<Job<'s>>>,
    /// What stands on an executor takes it for the acknowledged state.
    committed: PlantParts,
    /// The set of the atoms that have moved since the last commit.
    moved: u64,
    ghost outstanding: { AreKept (plant_of (system_of dispatcher)) (parts_in dispatcher) (kept_in kept.items) },
    ghost fits: { AllFit (plant_of (system_of dispatcher)) (whole_of (kept_in kept.items) (parts_in dispatcher)) },
    ghost behind: { AreCommitted (plant_of (system_of dispatcher)) committed (kept_in kept.items) },
    ghost marked: { AreMarked moved committed (parts_in dispatcher) },
}

impl<'s> Executor<'s> {
    ghost use Rattle.step_executor.specs.Executing.{committed_in, jobs_in, plant_in, states_in, system_in};

    /// The plant in this state of it, with no atom away.
    pub fn at(alloc: Global, system: &'s System, states: PlantState) -> Result<Self, AllocError>
        requires of_plant { IsOf (plant_of system.now) states }
        requires fits { AllFit (plant_of system.now) states }
        ensures system { IfOk result (λ run. system_in run ≡ system.now) }
        ensures states { IfOk result (λ run. states_in run ≡ states) }
        ensures committed { IfOk result (λ run. committed_in run ≡ states) }
        ensures none_away { IfOk result (λ run. jobs_in run ≡ replicate (length states) None) }
    {
        let kept = no_jobs(alloc, states.len())?;
        let committed = copied(alloc, system, &states)?;
        Ok(Executor {
            dispatcher: Dispatcher::at(system, states),
            kept,
            committed: PlantParts::all(committed),
            moved: 0,
        })
    }

    /// The system that runs.
    pub fn system(&self) -> &'s System
        ensures system { result.now ≡ system_in self.now }
        ensures plant { plant_of result.now ≡ plant_in self.now }
    {
        self.dispatcher.system()
    }

    /// What is known of the state without the atoms that are away.
    pub fn parts(&self) -> &PlantParts
        ensures { result.now ≡ parts_without (jobs_in self.now) (states_in self.now) }
    {
        self.dispatcher.parts()
    }

    /// Whether the atom is away.
    pub fn is_away(&self, atom: u16) -> bool
        ensures { result ≡ is_out (jobs_in self.now) atom }
    {
        self.dispatcher.is_away(atom)
    }

    /// Whether some atom is away.
    pub fn is_any_away(&self) -> bool
        ensures { result ≡ list_any is_some (jobs_in self.now) }
    {
        is_any_kept(self.kept.as_slice())
    }

    /// The state of the atom, if it is there: of one that is away the state that its job leaves.
    pub fn look(&self, atom: u16) -> Option<AtomState>
        ensures { result ≡ slice_get (states_in self.now) atom }
    {
        match self.kept_at(atom) {
            Some(job) => Some(job.end()),
            None => self.dispatcher.state(atom),
        }
    }

    /// How many atoms there are.
    pub fn len(&self) -> usize
        ensures { result ≡ length (states_in self.now) }
    {
        self.dispatcher.parts().shown().len()
    }

    /// The state of the atom: of one that is away the state that its job leaves.
    pub fn state(&self, atom: u16) -> AtomState
        requires { atom < length (states_in self.now) }
        ensures state { slice_get (states_in self.now) atom ≡ Some result }
        ensures fits { (a : AtomDefinition) → slice_get (plant_in self.now).atoms atom ≡ Some a → Fits a result }
    {
        match self.look(atom) {
            Some(state) => state,
            None => unreachable!(),
        }
    }

    /// How many sure choices there are.
    pub fn count(&self) -> u128
        ensures { result ≡ length (sure_choices (plant_in self.now) (parts_without (jobs_in self.now) (states_in self.now))) }
    {
        self.dispatcher.count_sure()
    }

    /// The sure choice with this place, from 0, in the order of the choices.
    pub fn nth(&self, place: u128) -> Choice
        requires { place < length (sure_choices (plant_in self.now) (parts_without (jobs_in self.now) (states_in self.now))) }
        ensures entry { slice_get (sure_choices (plant_in self.now) (parts_without (jobs_in self.now) (states_in self.now))) place ≡ Some (choice_of result) }
        ensures sure { IsSure (plant_in self.now) (parts_without (jobs_in self.now) (states_in self.now)) (choice_of result) }
    {
        self.dispatcher.nth_sure(place)
    }

    /// The place of the choice in the list of the sure choices, if it is one of them.
    pub fn find(&self, choice: &Choice) -> Option<u128>
        ensures there { IfSome result (λ place. slice_get (sure_choices (plant_in self.now) (parts_without (jobs_in self.now) (states_in self.now))) place ≡ Some (choice_of choice.now)) }
        ensures none { result ≡ None → IsSure (plant_in self.now) (parts_without (jobs_in self.now) (states_in self.now)) (choice_of choice.now) → ⊥ }
    {
        self.dispatcher.find_sure(choice)
    }

    /// Fires the sure choice, and writes what it delivered at the places of the moves.
    pub fn fire_telling(
        &mut self,
        choice: &Choice,
        inputs: &[i64],
        delivered: &mut [Delivered; MAX_LEAVES],
    )
        requires { IsSure (plant_in self.old) (parts_without (jobs_in self.old) (states_in self.old)) (choice_of choice.now) }
        ensures system { system_in self.new ≡ system_in self.old }
        ensures plant { plant_in self.new ≡ plant_in self.old }
        ensures next { states_in self.new ≡ next (plant_in self.old) (states_in self.old) (firing_of choice.now inputs.now) }
        ensures committed { committed_in self.new ≡ committed_in self.old }
        ensures jobs { jobs_in self.new ≡ jobs_in self.old }
        ensures delivered { IsDelivered choice.now.moves (transfer (plant_in self.old) (states_in self.old) (firing_of choice.now inputs.now)) delivered.new }
    {
        self.dispatcher.system().keeps_its_rules();
        self.dispatcher.fire_telling(choice, inputs, delivered);
        self.moved = mark_moved(self.moved, choice.moves.as_slice());
    }

    /// Begins the sure choice: its participants go away, each with a job that carries the atom's count of these, and what is delivered
    /// stands at the places of the moves.
    pub fn begin(
        &mut self,
        choice: &Choice,
        inputs: &[i64],
        counts: &[u64; MAX_ATOMS],
        jobs: &mut Jobs<'s>,
        delivered: &mut [Delivered; MAX_LEAVES],
    )
        requires sure { IsSure (plant_in self.old) (parts_without (jobs_in self.old) (states_in self.old)) (choice_of choice.now) }
        requires empty { jobs_of jobs.old ≡ [] }
        ensures system { system_in self.new ≡ system_in self.old }
        ensures plant { plant_in self.new ≡ plant_in self.old }
        ensures next { states_in self.new ≡ next (plant_in self.old) (states_in self.old) (firing_of choice.now inputs.now) }
        ensures committed { committed_in self.new ≡ committed_in self.old }
        ensures kept { jobs_in self.new ≡ jobs_after (plant_in self.old) (states_in self.old) counts.now (firing_of choice.now inputs.now) choice.now.moves (jobs_in self.old) }
        ensures jobs { AreJobsOf (plant_in self.old) (parts_without (jobs_in self.old) (states_in self.old)) (firing_of choice.now inputs.now) counts.now choice.now.moves (jobs_of jobs.new) }
        ensures delivered { IsDelivered choice.now.moves (transfer (plant_in self.old) (states_in self.old) (firing_of choice.now inputs.now)) delivered.new }
    {
        self.dispatcher.system().keeps_its_rules();
        self.dispatcher.begin(choice, inputs, counts, jobs);
        let moves = choice.moves.as_slice();
        keep_jobs(moves, jobs, &mut self.kept, delivered);
        self.moved = mark_moved(self.moved, moves);
    }

    /// Takes a job back that was done: its atom is present again, in the state that the job left. One that is not kept comes back.
    pub fn back(&mut self, done: Done<'s>) -> Result<(), Done<'s>>
        ensures system { system_in self.new ≡ system_in self.old }
        ensures plant { plant_in self.new ≡ plant_in self.old }
        ensures states { states_in self.new ≡ states_in self.old }
        ensures committed { committed_in self.new ≡ committed_in self.old }
        ensures taken { OnOk result ((slice_index_or (jobs_in self.old) (job_done done.entry).atom None ≡ Some (job_done done.entry))
            × (jobs_in self.new ≡ slice_set (jobs_in self.old) (job_done done.entry).atom None)) }
        ensures refused { OnErr result ((slice_index_or (jobs_in self.old) (job_done done.entry).atom None ≢ Some (job_done done.entry))
            × (jobs_in self.new ≡ jobs_in self.old)) }
        ensures returned { IfErr result (λ back. back ≡ done.entry) }
    {
        if !self.is_kept(&done) {
            return Err(done);
        }
        let atom = done.atom();
        commit_back(&mut self.committed, atom, done.after());
        self.kept[usize::from(atom)] = None;
        self.dispatcher.back(atom, done.into_state());
        Ok(())
    }

    /// Commits the present state. Atoms that are away are not waited for.
    pub fn commit(&mut self)
        ensures system { system_in self.new ≡ system_in self.old }
        ensures plant { plant_in self.new ≡ plant_in self.old }
        ensures states { states_in self.new ≡ states_in self.old }
        ensures committed { committed_in self.new ≡ states_in self.old }
        ensures jobs { jobs_in self.new ≡ jobs_in self.old }
    {
        copy_parts(&mut self.committed, self.dispatcher.parts(), self.moved);
        self.moved = 0;
    }

    /// The committed state of the atom: of one of which nothing is kept, the state that its job leaves.
    pub fn committed(&self, atom: u16) -> AtomState
        requires { atom < length (committed_in self.now) }
        ensures { slice_get (committed_in self.now) atom ≡ Some result }
    {
        match self.committed.state(atom) {
            Some(state) => state.copy(),
            None => self.state(atom),
        }
    }

    /// The present state fits, and has a state for each atom.
    pub fn fits(&self)
        ensures of_plant { IsOf (plant_in self.now) (states_in self.now) }
        ensures fits { AllFit (plant_in self.now) (states_in self.now) }
    {}

    /// Whether this very job is kept of its atom.
    fn is_kept(&self, done: &Done<'_>) -> bool
        ensures { IsTrue result ↔ (slice_index_or (jobs_in self.now) (job_done done.now).atom None ≡ Some (job_done done.now)) }
    {
        match self.kept_at(done.atom()) {
            Some(job) => job.is_done(done),
            None => false,
        }
    }

    /// The job that the atom has, if it is away.
    fn kept_at(&self, atom: u16) -> Option<&Job<'s>>
        ensures { option_map (λ job. job_of job.now) result ≡ slice_index_or (jobs_in self.now) atom None }
    {
        match self.kept.get(usize::from(atom)) {
            Some(Some(job)) => Some(job),
            _ => None,
        }
    }
}

/// Whether there is some job.
fn is_any_kept(kept: &[Option<Job<'_>>]) -> bool
    ensures { result ≡ list_any is_some (kept_in kept.now) }
{
    match kept {
        [] => false,
        [first, rest @ ..] => first.is_some() || is_any_kept(rest),
    }
}

/// Places for the jobs of so many atoms, none of which is away.
fn no_jobs<'s>(alloc: Global, atoms: usize) -> Result<Vec<Option<Job<'s>>>, AllocError>
    ensures { IfOk result (λ kept. kept.items ≡ replicate atoms None) }
{
    let mut kept = Vec::with_capacity(alloc, atoms)?;
    for _ in 0..atoms {
        kept.push_reserved(None);
    }
    Ok(kept)
}
