//! What was found of a run in all.
ghost use Rattle.std.specs.Prelude.{◌≡◌, ◌*◌, ◌≤◌, IfOk};
ghost use Rattle.crash_explorer.specs.Exploring.{IsWholeRun};
ghost use Rattle.crash_explorer.specs.Seen.{plant_of, digest_of, LEAST_RING, MOST_RING};

use crate::explorer::Explorer;
use crate::fault::ExploreFault;
use plant_core::Event;
use plant_model::System;
use std::alloc::Global;

/// What was found of a run.
#[derive(Clone, Copy, Debug, PartialEq, Eq)]
pub struct Report {
    /// How many writes and syncs the run makes: it is stopped at each.
    pub stops: u64,
    /// How many trials were made: four for each stop. Each boots what the stop left.
    pub boots: u64,
    /// How many of these were not right.
    pub bad: u64,
}

/// Stops the run that formats a device with a ring of so many records, boots the plant, and makes these events, at each of its writes and syncs under
/// each of four tears; boots what each stop left, and judges it. A plant that boots goes on by one firing and a flush, and what a stop then leaves
/// is judged again.
pub fn explore(
    alloc: Global,
    system: &System,
    ring: u32,
    events: &[Event],
) -> Result<Report, ExploreFault>
    requires ring_from { LEAST_RING ≤ ring }
    requires ring_to { ring ≤ MOST_RING }
    ensures run { IfOk result (λ report. IsWholeRun (plant_of system.now) (digest_of system.now) ring events.now report.stops) }
    ensures boots { IfOk result (λ report. report.boots ≡ 4 * report.stops) }
    ensures bad { IfOk result (λ report. report.bad ≡ 0) }
{
    let mut explorer = Explorer::new(alloc, system, ring, events)?;
    let mut boots = 0;
    let mut bad = 0;
    while let Some(trial) = explorer.next_trial(alloc)? {
        boots += 1;
        if !trial.right {
            bad += 1;
        }
    }
    Ok(Report {
        stops: explorer.stops(),
        boots,
        bad,
    })
}
