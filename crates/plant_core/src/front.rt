//! How far a durable plant is, and what it shows.
ghost use Rattle.std.specs.Prelude.{◌≡◌, ◌+◌, ◌≤◌, slice_get};
ghost use Rattle.record_codec.specs.declared.layout.TheConstants.{LAST_NUMBER, MOST_RING};
ghost use Rattle.plant_model.specs.Fitting.{IsOf};
ghost use Rattle.plant_model.specs.System.{digest_of, plant_of};
ghost use Rattle.plant_core.specs.Plants.{definition_of, device_of, text_digest, view_of};
ghost use Rattle.plant_core.specs.View.{fired_number};

use crate::limits::MOST_TAIL;
use crate::plant::Plant;
use disk_model::Disk;
use petri_atom::AtomState;
use plant_model::{PlantState, System};

/// How far a plant is.
#[derive(Clone, Copy, Debug, PartialEq, Eq)]
pub struct Front {
    /// The number of the last choice that was fired, and 0 if none was.
    pub fired: u64,
    /// The number of the last choice that is acknowledged.
    pub acked: u64,
    /// The number of the first record that is kept, or of the next if none is.
    pub base: u64,
}

impl<'s, D: Disk> Plant<'s, D> {
    /// How far the plant is.
    pub fn front(&self) -> Front
        ensures fired { result.fired ≡ fired_number (view_of self.now) }
        ensures acked { result.acked ≡ (view_of self.now).number }
        ensures base { result.base ≡ (view_of self.now).base }
        ensures behind { result.acked ≤ result.fired }
        ensures tail { result.fired ≤ result.acked + MOST_TAIL }
        ensures ring { result.fired + 1 ≤ result.base + (view_of self.now).ring }
        ensures near { result.fired + 1 ≤ result.base + MOST_RING }
        ensures last { result.fired ≤ LAST_NUMBER }
        ensures base_from { 1 ≤ result.base }
        ensures base_to { result.base ≤ result.acked + 1 }
    {
        Front {
            fired: self.fired(),
            acked: self.number,
            base: self.journal.base(),
        }
    }

    /// How many choices were fired in all.
    pub(crate) fn fired(&self) -> u64
        ensures { result ≡ fired_number (view_of self.now) }
    {
        self.number + self.tail.len() as u64
    }

    /// The system that the plant runs.
    pub fn system(&self) -> &'s System
        ensures plant { plant_of result.now ≡ definition_of self.now }
        ensures digest { digest_of result.now ≡ text_digest self.now }
    {
        self.executor.system()
    }

    /// The present state of the atom with the number, where the plant has it. One that is away is where its job will leave it.
    pub fn look(&self, atom: u16) -> Option<AtomState>
        ensures { result ≡ slice_get (view_of self.now).present atom }
    {
        self.executor.look(atom)
    }

    /// Makes these states, which are some of the plant, its present ones. An atom that is away is where its job will leave it. No memory is
    /// taken.
    pub fn show(&self, states: &mut PlantState)
        requires { IsOf (definition_of self.now) states.old }
        ensures present { states.new ≡ (view_of self.now).present }
        ensures as_many { IsOf (definition_of self.now) states.new }
    {
        self.system().keeps_its_rules();
        for atom in 0..states.len() {
            if let Some(state) = self.look(atom as u16) {
                states.set(atom as u16, state);
            }
        }
    }

    /// Whether the device failed in a call. Such a plant refuses each event, and its device has to be booted again.
    pub fn is_broken(&self) -> bool
        ensures { result ≡ (view_of self.now).broken }
    {
        self.broken
    }

    /// The device, to look at: what it has to tell beside its bytes.
    pub fn device(&self) -> &D
        ensures { D.state result.now ≡ device_of self.now }
    {
        self.cells.device()
    }

    /// The device, which is left as it is.
    pub fn into_disk(self) -> D
        ensures { D.state result ≡ device_of self.entry }
    {
        let Plant { cells, .. } = self;
        cells.into_disk()
    }
}
