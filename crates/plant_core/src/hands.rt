//! What is in hands: states to be stored, and jobs to be done.
ghost use Rattle.std.specs.Prelude.{◌≡◌, ◌<◌, ℕ, None, Some, IfOk, IfSome, length, option_map, replicate, slice_get, slice_set};
ghost use Rattle.step_core.specs.Job.{JobDefinition, job_of};
ghost use Rattle.step_core.specs.Jobs.{jobs_of};
ghost use Rattle.step_executor.specs.Outstanding.{kept_in};
ghost use Rattle.plant_core.specs.Hands.{AreOwnJobs, empty_hands, job_at, with_jobs};
ghost use Rattle.plant_core.specs.Snapshots.{AreOwn, held_at, with_held};

use plant_model::Move;
use snapshot_writer::Encoded;
use std::alloc::{AllocError, Global};
use step_core::{Job, Jobs};

/// A hand for each atom, which holds the state of the atom that was asked for last, until it is stored, and the job that it was given last, until it
/// is handed in. Only making them takes memory.
#[derive(Drop)]
pub struct Hands<'s> {
    held: Vec<Option<Encoded>>,
    jobs: Vec<Option<Job<'s>>>,
    ghost own: { AreOwn held.items },
    ghost own_jobs: { AreOwnJobs (kept_in jobs.items) },
}

impl<'s> Hands<'s> {
    ghost use Rattle.plant_core.specs.Handed.{hands_of};

    /// Empty hands for so many atoms.
    pub fn new(alloc: Global, atoms: usize) -> Result<Self, AllocError>
        ensures { IfOk result (λ hands. hands_of hands ≡ empty_hands atoms) }
    {
        let mut held = Vec::with_capacity(alloc, atoms)?;
        let mut jobs = Vec::with_capacity(alloc, atoms)?;
        for _ in 0..atoms {
            held.push_reserved(None);
            jobs.push_reserved(None);
        }
        Ok(Hands { held, jobs })
    }

    /// The state that the hand of the atom holds, if there is such a hand; then there is none in it.
    pub(crate) fn take(&mut self, atom: u16) -> Option<Encoded>
        ensures found { result ≡ held_at (hands_of self.old).saved atom }
        ensures left { hands_of self.new ≡ record (hands_of self.old) { saved = slice_set (hands_of self.old).saved atom None } }
        ensures own { IfSome result (λ e. e.atom ≡ atom) }
    {
        self.held.get_mut(usize::from(atom))?.take()
    }

    /// Puts the state in the hand of its atom, in place of one that was there.
    pub(crate) fn hold(&mut self, encoded: Encoded)
        requires { encoded.atom < length (hands_of self.old).saved }
        ensures { hands_of self.new ≡ record (hands_of self.old) { saved = with_held encoded (hands_of self.old).saved } }
    {
        let atom = usize::from(encoded.parcel().atom());
        self.held[atom] = Some(encoded);
    }

    /// The job that the hand of the atom holds, if there is such a hand; then there is none in it.
    pub(crate) fn take_job(&mut self, atom: u16) -> Option<Job<'s>>
        ensures found { option_map job_of result ≡ job_at (hands_of self.old).jobs atom }
        ensures left { hands_of self.new ≡ record (hands_of self.old) { jobs = slice_set (hands_of self.old).jobs atom None } }
        ensures own { IfSome result (λ job. (job_of job).atom ≡ atom) }
    {
        self.jobs.get_mut(usize::from(atom))?.take()
    }

    /// Puts the jobs of the moves in the hands of their atoms, in place of those that were there.
    pub(crate) fn hold_jobs(&mut self, moves: &[Move], jobs: &mut Jobs<'s>)
        requires as_many { length (jobs_of jobs.old) ≡ length moves.now }
        requires there { (place : ℕ) (job : JobDefinition) → slice_get (jobs_of jobs.old) place ≡ Some job → job.atom < length (hands_of self.old).jobs }
        ensures { hands_of self.new ≡ record (hands_of self.old) { jobs = with_jobs (jobs_of jobs.old) (hands_of self.old).jobs } }
    {
        for _ in moves {
            match jobs.take() {
                Some(job) => {
                    let atom = usize::from(job.atom());
                    self.jobs[atom] = Some(job);
                }
                None => unreachable!(),
            }
        }
    }
}
