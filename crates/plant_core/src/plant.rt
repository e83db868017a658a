//! A durable plant: what it holds.
ghost use Rattle.std.specs.Prelude.{◌≡◌, ◌+◌, ◌≤◌, List, true, false, vec_capacity};
ghost use Rattle.disk_model.specs.Cells.{Cell, MayBe, seen_cells};
ghost use Rattle.disk_model.specs.DiskState.{size_of};
ghost use Rattle.disk_model.specs.declared.cells.TheConstants.{BODY};
ghost use Rattle.plant_core.specs.Invariant.{AreMarked, AreNextSlots, AreOnTheWay, FitsTogether, IsAtRest, IsFrontOf, IsJournalOf};
ghost use Rattle.plant_core.specs.View.{view_by};
ghost use Rattle.plant_core.specs.declared.limits.TheConstants.{MOST_TAIL};
ghost use Rattle.plant_model.specs.System.{digest_of};
ghost use Rattle.step_executor.specs.Executing.{committed_in, jobs_in, plant_in, states_in, system_in};

use crate::snapshots::Snapshots;
use connector_tree::MAX_LEAVES;
use disk_model::{BODY, Cells, Disk};
use gated_journal::Journal;
use petri_atom::Delivered;
use plant_model::{Firing, MAX_ATOMS};
use snapshot_writer::Batch;
use step_executor::Executor;
use trimmer::Mark;

/// A plant on a device. It fires choices in memory, and writes their records when it is flushed: what was flushed is there after any
/// stop, and of what was not a front may be. The state of each atom is saved by itself, while the others step.
///
/// Only making it takes memory. When the device fails it is broken: then it can be looked at, and the device has to be booted again.
#[derive(Drop)]
pub struct Plant<'s, D: Disk> {
    /// The system, its present state and its acknowledged one, and the jobs of the atoms that are away.
    pub(crate) executor: Executor<'s>,
    /// How often each atom has taken part in the present state.
    pub(crate) counts: [u64; MAX_ATOMS],
    /// How often in the acknowledged state: a saved state that is ahead of it is not stored.
    pub(crate) acked_counts: [u64; MAX_ATOMS],
    /// The number of the last record that is acknowledged.
    pub(crate) number: u64,
    /// The choices that were fired since, each with its values. Calls ask only how many there are: the firings themselves are there for contracts alone,
    /// which say that the acknowledged state leads to the present one by these firings, and that a stop leaves what stands for one on that way.
    pub(crate) tail: Vec<Firing>,
    /// The bodies of their records, which a flush writes.
    pub(crate) bodies: Vec<[u8; BODY]>,
    /// Room for what a choice delivers, so that none is cleared for each. What stands there says nothing.
    pub(crate) delivered: [Delivered; MAX_LEAVES],
    /// Which record cells of the device are live.
    pub(crate) journal: Journal,
    /// Of each record that is kept who took part in it: so a trim reads no record.
    pub(crate) marks: Vec<Mark>,
    /// What is known of the saved states of the atoms.
    pub(crate) snapshots: Snapshots,
    /// Room for the states that a save stores.
    pub(crate) batch: Batch,
    /// The device.
    pub(crate) cells: Cells<D>,
    /// The device failed in a call, or a call of it runs.
    pub(crate) broken: bool,
    ghost fits_together: { FitsTogether (plant_in executor) (view_by (committed_in executor) acked_counts number tail.items (states_in executor) counts journal marks.items snapshots (jobs_in executor) broken) bodies.items },
    ghost room_of_tail: { MOST_TAIL ≤ vec_capacity tail },
    ghost room_of_bodies: { MOST_TAIL ≤ vec_capacity bodies },
    ghost room_of_marks: { journal.ring ≤ vec_capacity marks },
    ghost of_journal: { IsJournalOf (plant_in executor) number journal cells },
    ghost at_rest: { cells.keeps ≡ true → broken ≡ false → IsAtRest (plant_in executor) (digest_of (system_in executor)) journal (committed_in executor) acked_counts number snapshots.saved cells },
    ghost slots_known: { cells.keeps ≡ true → broken ≡ false → AreNextSlots (plant_in executor) snapshots.next_slots (seen_cells (BODY + 1) cells) },
    ghost marked: { cells.keeps ≡ true → broken ≡ false → AreMarked (plant_in executor) (view_by (committed_in executor) acked_counts number tail.items (states_in executor) counts journal marks.items snapshots (jobs_in executor) broken) (seen_cells (BODY + 1) cells) },
    ghost on_the_way: { cells.keeps ≡ true → broken ≡ false → AreOnTheWay (plant_in executor) (view_by (committed_in executor) acked_counts number tail.items (states_in executor) counts journal marks.items snapshots (jobs_in executor) broken) (seen_cells (BODY + 1) cells) },
    ghost at_a_stop: { cells.keeps ≡ true → (image : List Cell) → MayBe (BODY + 1) cells image
        → IsFrontOf (plant_in executor) (digest_of (system_in executor)) (size_of cells) (view_by (committed_in executor) acked_counts number tail.items (states_in executor) counts journal marks.items snapshots (jobs_in executor) broken) image },
}
