//! A run that was stopped, and what a stop there leaves.
ghost use Rattle.std.specs.Prelude.{◌≡◌, ◌+◌, ◌-◌, ◌^◌, ◌≤◌, ◌<◌, replicate, length, IfOk};
ghost use Rattle.record_codec.specs.Ring.{device_cells};
ghost use Rattle.crash_explorer.specs.Seen.{plant_of, digest_of, LEAST_RING, MOST_RING, formatted_size, BODY, cell_of, fresh, state_of};
ghost use Rattle.crash_explorer.specs.Watching.{IsCountable, IsWhole};

use crate::explorer::Trial;
use crate::fault::ExploreFault;
use crate::outcome::{NEXT_EVENTS, outcome_of};
use crate::running::{Ended, run};
use crate::watched::Cut;
use disk_model::{CELL, MemDisk, Tear};
use plant_core::Event;
use plant_model::System;
use record_codec::ring::device_cells;
use std::alloc::{AllocError, Global};
use std::marker::Model;

/// No event makes more writes and syncs than this, with those that it is the cause of later; and formatting and booting make no more for each
/// cell.
const CHANGES: usize = 8;

/// The run of these events on a device with a ring of so many records, stopped at its write or sync with this number, from 1 on.
#[derive(Drop)]
pub(crate) struct Halted<'a> {
    system: &'a System,
    ring: u32,
    events: &'a [Event],
    stop: u64,
    /// What the stop fell in.
    cut: Cut,
    /// What the run came to.
    ended: Ended,
}

impl<'a> Model for Halted<'a> {
    ghost use Rattle.std.specs.Coded.{codes};
    ghost use Rattle.plant_core.specs.contracts.events.Event as event_row;
    ghost use Rattle.plant_model.specs.contracts.system.System as system_row;
    ghost use Rattle.crash_explorer.specs.Halting.{HaltedRun};

    ghost Value = { HaltedRun };

    ghost coded = { Prim.hlevel (codes, event_row.the_row.coded, system_row.the_row.coded) };

    ghost use Rattle.crash_explorer.specs.Halted.{IsHalted, halted_by};

    ghost view = { halted_by };

    ghost invariant = { IsHalted };
}

impl<'a> Halted<'a> {
    ghost use Rattle.crash_explorer.specs.Exploring.{IsTrial};

    /// Makes the run.
    pub(crate) fn at(
        alloc: Global,
        system: &'a System,
        ring: u32,
        events: &'a [Event],
        stop: u64,
    ) -> Result<Self, ExploreFault>
        requires ring_from { LEAST_RING ≤ ring }
        requires ring_to { ring ≤ MOST_RING }
        requires countable { stop < 2 ^ 64 - 1 }
        ensures { IfOk result (λ h. h ≡ record { system = system.now; ring = ring; events = events.now; stop = stop }) }
    {
        let mut disk = device(alloc, system, ring, events.len())?;
        disk.fuse_change(stop);
        let ended = run(alloc, system, ring, events, disk)?;
        // A device that failed before had no room for its record of changes.
        let cut = ended.disk.cut_at(stop).ok_or(ExploreFault::Memory)?;
        Ok(Halted {
            system,
            ring,
            events,
            stop,
            cut,
            ended,
        })
    }

    /// The trial that tears so what was pending.
    pub(crate) fn trial(&self, alloc: Global, tear: Tear) -> Result<Trial, ExploreFault>
        ensures { IfOk result (IsTrial (plant_of self.now.system) (digest_of self.now.system) self.now.ring self.now.events self.now.stop tear) }
    {
        let ended = &self.ended;
        let room = room_for(cells_for(self.system, self.ring), NEXT_EVENTS);
        let left = ended.disk.memory().torn(alloc, tear, room)?;
        let outcome = outcome_of(
            alloc,
            self.system,
            ended.stage,
            &ended.fired,
            ended.acked,
            left,
            tear,
        )?;
        Ok(Trial {
            stop: self.stop,
            cut: self.cut,
            tear,
            stage: ended.stage,
            fired: ended.fired.len() as u64,
            acked: ended.acked as u64,
            found: outcome.found,
            next: outcome.next,
            right: outcome.right,
        })
    }
}

/// A device for the plant and a ring of so many records, with room for the changes of a run of so many events.
pub(crate) fn device(
    alloc: Global,
    system: &System,
    ring: u32,
    events: usize,
) -> Result<MemDisk, AllocError>
    ensures zeros { IfOk result (λ disk. state_of disk ≡ fresh (replicate (formatted_size (plant_of system.now) ring) 0)) }
    ensures cells { IfOk result (λ disk. cell_of disk ≡ BODY + 1) }
    ensures whole { IfOk result IsWhole }
    ensures countable { IfOk result IsCountable }
{
    let cells = cells_for(system, ring);
    MemDisk::with_cells(alloc, CELL * cells, room_for(cells, events), CELL)
}

/// Room for the changes of a run of so many events on so many cells.
fn room_for(cells: u64, events: usize) -> usize {
    events
        .saturating_add(cells as usize)
        .saturating_mul(CHANGES)
}

/// How many cells the device has for the plant and a ring of so many records.
fn cells_for(system: &System, ring: u32) -> u64
    ensures cells { result ≡ device_cells (length (plant_of system.now).atoms) ring }
    ensures few { result < 2 ^ 34 }
{
    system.keeps_its_rules();
    device_cells(system.atoms().len() as u16, ring)
}
