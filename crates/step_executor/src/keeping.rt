//! How the jobs of a choice are kept.
ghost use Rattle.std.specs.Prelude.{◌≡◌, ◌<◌, ◌≤◌, ℕ, Some, length, slice_get};
ghost use Rattle.connector_tree.specs.declared.tree.TheConstants.{MAX_LEAVES};
ghost use Rattle.plant_model.specs.declared.choice.Move.{Move};
ghost use Rattle.step_core.specs.Job.{JobDefinition};
ghost use Rattle.step_core.specs.Jobs.{jobs_of};
ghost use Rattle.step_executor.specs.Outstanding.{kept_in, put_all};

use connector_tree::MAX_LEAVES;
use petri_atom::Delivered;
use plant_model::Move;
use step_core::{Job, Jobs};

/// Keeps a copy of the job of each move, at the number of its atom, and writes what is delivered at the places of the moves.
pub(crate) fn keep_jobs<'s>(
    moves: &[Move],
    jobs: &Jobs<'s>,
    kept: &mut Vec<Option<Job<'s>>>,
    delivered: &mut [Delivered; MAX_LEAVES],
)
    requires few { length moves.now ≤ MAX_LEAVES }
    requires as_many { length (jobs_of jobs.now) ≡ length moves.now }
    requires there { (place : ℕ) (m : Move) → slice_get moves.now place ≡ Some m → m.atom < length kept.old.items }
    ensures kept { kept_in kept.new.items ≡ put_all moves.now (jobs_of jobs.now) (kept_in kept.old.items) }
    ensures delivered { (place : ℕ) (job : JobDefinition) → slice_get (jobs_of jobs.now) place ≡ Some job → slice_get delivered.new place ≡ Some job.delivered }
{
    for place in 0..moves.len() {
        match jobs.get(place) {
            Some(job) => {
                delivered[place] = job.delivered();
                kept[usize::from(moves[place].atom)] = Some(job.copy());
            }
            None => unreachable!(),
        }
    }
}
