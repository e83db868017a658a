//! Making a durable plant.
ghost use Rattle.std.specs.Prelude.{◌≡◌};
ghost use Rattle.plant_model.specs.System.{digest_of};
ghost use Rattle.step_executor.specs.Executing.{plant_in, system_in};
ghost use Rattle.plant_core.specs.Parts.{MakeAPlant, view_in};
ghost use Rattle.plant_core.specs.Plants.{definition_of, device_of, text_digest, view_of};

use crate::plant::Plant;
use crate::snapshots::Snapshots;
use disk_model::{BODY, Cells, Disk};
use gated_journal::Journal;
use plant_model::{Firing, MAX_ATOMS, no_deliveries};
use snapshot_writer::Batch;
use step_executor::Executor;
use trimmer::Mark;

/// What a plant is made of, but for its device.
#[derive(Drop)]
pub struct Parts<'s> {
    /// The system, in the acknowledged state, which is committed, with no atom away.
    pub executor: Executor<'s>,
    /// How often each atom has taken part in it.
    pub counts: [u64; MAX_ATOMS],
    /// Room for the firings that are not acknowledged.
    pub tail: Vec<Firing>,
    /// Room for the bodies of their records.
    pub bodies: Vec<[u8; BODY]>,
    /// The journal, whose last record is that of the last choice that was fired.
    pub journal: Journal,
    /// The marks of its live records, with room for those of a full ring.
    pub marks: Vec<Mark>,
    /// What is known of the newest saved states of the atoms, of which none was asked for.
    pub snapshots: Snapshots,
    /// Room for the states that a save stores.
    pub batch: Batch,
}

impl<'s, D: Disk> Plant<'s, D> {
    /// The plant of these parts on the device, with nothing to acknowledge. It takes no memory, and no call of the device is made.
    pub fn of(parts: Parts<'s>, cells: Cells<D>) -> Plant<'s, D>
        requires { MakeAPlant parts cells }
        ensures view { view_of result ≡ view_in parts.entry }
        ensures device { device_of result ≡ cells }
        ensures plant { definition_of result ≡ plant_in parts.entry.executor }
        ensures digest { text_digest result ≡ digest_of (system_in parts.entry.executor) }
    {
        let Parts {
            executor,
            counts,
            tail,
            bodies,
            journal,
            marks,
            snapshots,
            batch,
        } = parts;
        let number = journal.last();
        Plant {
            executor,
            counts,
            acked_counts: counts,
            number,
            tail,
            bodies,
            delivered: no_deliveries(),
            journal,
            marks,
            snapshots,
            batch,
            cells,
            broken: false,
        }
    }
}
