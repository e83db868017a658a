//! How the participants of a choice leave: each with its state in a job.
ghost use Rattle.std.specs.Prelude.{◌≡◌, []};
ghost use Rattle.plant_model.specs.Chosen.{choice_of, firing_of};
ghost use Rattle.plant_model.specs.System.{plant_of};
ghost use Rattle.step_core.specs.Dispatching.{AllPresentFit, ArePartsOf};
ghost use Rattle.step_core.specs.Jobs.{AreJobsOf, jobs_of};
ghost use Rattle.step_core.specs.Sure.{IsSure, left_by};

use crate::job::Job;
use crate::jobs::Jobs;
use crate::parts::PlantParts;
use plant_model::{Choice, MAX_ATOMS, System, no_deliveries};

/// Takes the states of a sure choice's participants out of the parts, each into a job with what the choice delivers to it on the
/// values from before, and with its count of these.
pub(crate) fn leave<'s>(
    system: &'s System,
    parts: &mut PlantParts,
    choice: &Choice,
    inputs: &[i64],
    counts: &[u64; MAX_ATOMS],
    jobs: &mut Jobs<'s>,
)
    requires of_plant { ArePartsOf (plant_of system.now) parts.old }
    requires fits { AllPresentFit (plant_of system.now) parts.old }
    requires sure { IsSure (plant_of system.now) parts.old (choice_of choice.now) }
    requires empty { jobs_of jobs.old ≡ [] }
    ensures parts { parts.new ≡ left_by parts.old choice.now.moves }
    ensures jobs { AreJobsOf (plant_of system.now) parts.old (firing_of choice.now inputs.now) counts.now choice.now.moves (jobs_of jobs.new) }
{
    let mut delivered = no_deliveries();
    system.deliver(parts.shown(), choice, inputs, &mut delivered);
    let moves = choice.moves.as_slice();
    for place in 0..moves.len() {
        let step = moves[place];
        let number = usize::from(step.atom);
        let state = parts.take(step.atom);
        let job = Job::new(
            &system.atoms[number],
            step.atom,
            counts[number],
            step.transition,
            delivered[place],
            state,
        );
        jobs.put(place, job);
    }
}
