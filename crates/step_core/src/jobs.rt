//! The jobs of a choice, and how one is done.
ghost use Rattle.std.specs.Prelude.{◌≡◌, ◌<◌, ◌+◌, ◌++◌, ◌∷◌, [], option_map, slice_get, drop};
ghost use Rattle.connector_tree.specs.declared.tree.TheConstants.{MAX_LEAVES};
ghost use Rattle.step_core.specs.Job.{job_done, job_of};

use crate::job::{Done, Job};
use crate::queue::Queue;

/// The jobs of a choice, at most one for each leaf of a connector, in rising order of their atoms. They take no memory.
#[derive(Drop)]
pub struct Jobs<'s> {
    queue: Queue<Job<'s>>,
}

impl<'s> Jobs<'s> {
    ghost use Rattle.step_core.specs.Jobs.{IsRoomFrom, jobs_of};

    /// No job.
    pub fn new() -> Self
        ensures { jobs_of result ≡ [] }
    {
        Jobs {
            queue: Queue::new(),
        }
    }

    /// The job at this place among those that are there.
    pub fn get(&self, place: usize) -> Option<&Job<'s>>
        ensures { option_map (λ job. job_of job.now) result ≡ slice_get (jobs_of self.now) place }
    {
        self.queue.get(place)
    }

    /// Takes the first job out, if there is one.
    pub fn take(&mut self) -> Option<Job<'s>>
        ensures first { option_map job_of result ≡ slice_get (jobs_of self.old) 0 }
        ensures rest { jobs_of self.new ≡ drop 1 (jobs_of self.old) }
    {
        self.queue.take()
    }

    /// Puts a job after all others, at this place.
    pub(crate) fn put(&mut self, place: usize, job: Job<'s>)
        requires place { place < MAX_LEAVES }
        requires room { IsRoomFrom place self.old }
        ensures jobs { jobs_of self.new ≡ jobs_of self.old ++ job_of job.entry ∷ [] }
        ensures room { IsRoomFrom (place + 1) self.new }
    {
        self.queue.put(place, job);
    }
}

/// Does a job: fires its transition. It cannot fail, takes no memory, and needs no plant.
pub fn work(job: Job<'_>) -> Done<'_>
    ensures { job_done result ≡ job_of job.entry }
{
    job.fire()
}
