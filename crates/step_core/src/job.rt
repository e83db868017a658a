//! What an atom that is away has to do, and what is done.
ghost use Rattle.std.specs.Prelude.{◌≡◌, ◌↔◌, IsTrue};
ghost use Rattle.petri_atom.specs.Atom.{definition_of};
ghost use Rattle.petri_atom.specs.Definition.{offers_number, fired, Fits};

use petri_atom::{Atom, AtomState, Delivered};

/// What an atom that is away has to do: fire a transition that its state offers, with what is delivered to it.
#[derive(Drop)]
pub struct Job<'s> {
    definition: &'s Atom,
    atom: u16,
    count: u64,
    transition: u16,
    delivered: Delivered,
    state: AtomState,
    ghost offered: { IsTrue (offers_number (definition_of definition.now) state transition) },
    ghost fits: { Fits (definition_of definition.now) state },
}

/// A job that was done: the state after is that of the atom's firing of the job's own transition, with what was delivered to it, from
/// the state before.
#[derive(Drop)]
pub struct Done<'s> {
    job: Job<'s>,
    after: AtomState,
    ghost fired: { after ≡ fired (definition_of job.definition.now) job.transition job.delivered job.state },
    ghost fits: { Fits (definition_of job.definition.now) after },
}

impl<'s> Job<'s> {
    ghost use Rattle.step_core.specs.Job.{HasFieldsOf, job_done, job_of, worked};

    /// The job of the atom with this number and this definition.
    pub(crate) fn new(
        definition: &'s Atom,
        atom: u16,
        count: u64,
        transition: u16,
        delivered: Delivered,
        state: AtomState,
    ) -> Self
        requires offered { IsTrue (offers_number (definition_of definition.now) state transition) }
        requires fits { Fits (definition_of definition.now) state }
        ensures definition { (job_of result).definition ≡ definition_of definition.now }
        ensures atom { (job_of result).atom ≡ atom }
        ensures count { (job_of result).count ≡ count }
        ensures transition { (job_of result).transition ≡ transition }
        ensures delivered { (job_of result).delivered ≡ delivered }
        ensures state { (job_of result).state ≡ state }
    {
        Job {
            definition,
            atom,
            count,
            transition,
            delivered,
            state,
        }
    }

    /// The atom that is away.
    pub fn definition(&self) -> &'s Atom
        ensures { definition_of result.now ≡ (job_of self.now).definition }
    {
        self.definition
    }

    /// The number of the atom.
    pub fn atom(&self) -> u16
        ensures { result ≡ (job_of self.now).atom }
    {
        self.atom
    }

    /// The count that goes along.
    pub fn count(&self) -> u64
        ensures { result ≡ (job_of self.now).count }
    {
        self.count
    }

    /// The transition that the atom is to fire.
    pub fn transition(&self) -> u16
        ensures { result ≡ (job_of self.now).transition }
    {
        self.transition
    }

    /// What is delivered to the atom.
    pub fn delivered(&self) -> Delivered
        ensures { result ≡ (job_of self.now).delivered }
    {
        self.delivered
    }

    /// The state of the atom when it left.
    pub fn state(&self) -> &AtomState
        ensures state { result.now ≡ (job_of self.now).state }
        ensures offers { IsTrue (offers_number (job_of self.now).definition result.now (job_of self.now).transition) }
        ensures fits { Fits (job_of self.now).definition result.now }
    {
        &self.state
    }

    /// A second job that is equal to this one.
    pub fn copy(&self) -> Job<'s>
        ensures { job_of result ≡ job_of self.now }
    {
        Job {
            definition: self.definition,
            atom: self.atom,
            count: self.count,
            transition: self.transition,
            delivered: self.delivered,
            state: self.state.copy(),
        }
    }

    /// Whether this is the job that was done: of an atom with the same definition and number, with the same count, transition, delivered
    /// values and state before.
    pub fn is_done(&self, done: &Done<'_>) -> bool
        ensures { IsTrue result ↔ (job_of self.now ≡ job_done done.now) }
    {
        self.has_fields_of(&done.job) && self.definition.same(done.job.definition)
    }

    /// Whether two jobs are the same but for the definition.
    fn has_fields_of(&self, other: &Job<'_>) -> bool
        ensures { IsTrue result ↔ HasFieldsOf (job_of self.now) (job_of other.now) }
    {
        (self.atom == other.atom)
            & (self.count == other.count)
            & (self.transition == other.transition)
            & (self.delivered.row() == other.delivered.row())
            & self.state.same(&other.state)
    }

    /// The state that the job leaves.
    pub fn end(&self) -> AtomState
        ensures { result ≡ worked (job_of self.now) }
    {
        self.worked()
    }

    /// The state that the job leaves: the transition fires on a copy. It cannot fail, and takes no memory.
    fn worked(&self) -> AtomState
        ensures state { result ≡ worked (job_of self.now) }
        ensures fits { Fits (job_of self.now).definition result }
    {
        let mut after = self.state.copy();
        self.definition
            .apply(&mut after, self.transition, &self.delivered);
        after
    }

    /// The job, done. It cannot fail, and takes no memory.
    pub(crate) fn fire(self) -> Done<'s>
        ensures { job_done result ≡ job_of self.entry }
    {
        let after = self.worked();
        Done { job: self, after }
    }
}

impl<'s> Done<'s> {
    ghost use Rattle.step_core.specs.Job.{job_done, worked};

    /// The atom that was away.
    pub fn definition(&self) -> &'s Atom
        ensures { definition_of result.now ≡ (job_done self.now).definition }
    {
        self.job.definition
    }

    /// The number of the atom.
    pub fn atom(&self) -> u16
        ensures { result ≡ (job_done self.now).atom }
    {
        self.job.atom
    }

    /// The count that went along.
    pub fn count(&self) -> u64
        ensures { result ≡ (job_done self.now).count }
    {
        self.job.count
    }

    /// The transition that the atom fired.
    pub fn transition(&self) -> u16
        ensures { result ≡ (job_done self.now).transition }
    {
        self.job.transition
    }

    /// What was delivered to the atom.
    pub fn delivered(&self) -> Delivered
        ensures { result ≡ (job_done self.now).delivered }
    {
        self.job.delivered
    }

    /// The state of the atom when it left.
    pub fn before(&self) -> &AtomState
        ensures { result.now ≡ (job_done self.now).state }
    {
        &self.job.state
    }

    /// The state that the job left.
    pub fn after(&self) -> &AtomState
        ensures state { result.now ≡ worked (job_done self.now) }
        ensures fits { Fits (job_done self.now).definition result.now }
    {
        &self.after
    }

    /// The state that the job left, to be put in the atom's place.
    pub fn into_state(self) -> AtomState
        ensures state { result ≡ worked (job_done self.entry) }
        ensures fits { Fits (job_done self.entry).definition result }
    {
        self.after
    }
}
