//! All trials of a run.
ghost use Rattle.std.specs.Prelude.{◌≡◌, ◌+◌, ◌*◌, ◌^◌, ◌≤◌, ◌<◌, replicate, length, slice_get, IfOk, OnErr, MatchOption, Some};
ghost use Rattle.disk_model.specs.declared.change.Tear.{Tear};
ghost use Rattle.record_codec.specs.Ring.{device_cells};
ghost use Rattle.crash_explorer.specs.Seen.{plant_of, digest_of, LEAST_RING, MOST_RING, formatted_size, BODY, cell_of, fresh, state_of};
ghost use Rattle.crash_explorer.specs.Watching.{IsCountable, IsWhole};
ghost use Rattle.crash_explorer.specs.Halting.{HaltedRun};
ghost use Rattle.crash_explorer.specs.declared.explorer.TheConstants.{MOST_STOPS, TEARS};

use crate::booting::Found;
use crate::fault::ExploreFault;
use crate::halted::{Halted, device};
use crate::outcome::Next;
use crate::running::{Stage, run};
use crate::watched::Cut;
use disk_model::Tear;
use plant_core::Event;
use plant_model::System;
use std::alloc::Global;

/// The ways in which a stop tears what is pending, in the order in which they are tried.
pub const TEARS: [Tear; 4] = [Tear::Old, Tear::New, Tear::Gates, Tear::Mixed];

/// The most stops of which all trials can be counted.
const MOST_STOPS: u64 = u64::MAX / 4;

/// One stop of a run, under one tear.
#[derive(Clone, Copy)]
pub struct Trial {
    /// At which write or sync of the run it fell, from 1 on.
    pub stop: u64,
    /// What that was.
    pub cut: Cut,
    /// How it tore what was pending.
    pub tear: Tear,
    /// How far the run had come.
    pub stage: Stage,
    /// How many choices were fired.
    pub fired: u64,
    /// How many of these were acknowledged.
    pub acked: u64,
    /// What the device boots to.
    pub found: Found,
    /// How the plant goes on, where it boots and the device is right.
    pub next: Option<Next>,
    /// Whether the device is right, and is so again when the plant went on.
    pub right: bool,
}

/// Makes a run again and again, each time stopped at its next write or sync, and tears what each stop left in each way.
#[derive(Drop)]
pub struct Explorer<'a> {
    system: &'a System,
    ring: u32,
    events: &'a [Event],
    stops: u64,
    stop: u64,
    tear: usize,
    /// The run up to the next stop, once a tear of it was tried: the others are made of the same run.
    halted: Option<Halted<'a>>,
    ghost ring_from: { LEAST_RING ≤ ring },
    ghost ring_to: { ring ≤ MOST_RING },
    ghost countable: { stops ≤ MOST_STOPS },
    ghost within: { stop ≤ stops },
    ghost torn: { tear < length TEARS },
    ghost of_next: { (h : HaltedRun) → halted ≡ Some h → h ≡ record { system = system.now; ring = ring; events = events.now; stop = stop + 1 } },
}

impl<'a> Explorer<'a> {
    ghost use Rattle.crash_explorer.specs.Exploring.{IsExplorerOf, IsNextTrial, IsTrial, IsWholeRun, stops_of, trials_left};

    /// The explorer of the run that formats a device with a ring of so many records, boots the plant, and makes these events.
    pub fn new(
        alloc: Global,
        system: &'a System,
        ring: u32,
        events: &'a [Event],
    ) -> Result<Self, ExploreFault>
        requires ring_from { LEAST_RING ≤ ring }
        requires ring_to { ring ≤ MOST_RING }
        ensures run { IfOk result (IsExplorerOf system.now ring events.now) }
        ensures stops { IfOk result (λ e. IsWholeRun (plant_of system.now) (digest_of system.now) ring events.now (stops_of e)) }
        ensures trials { IfOk result (λ e. trials_left e ≡ 4 * stops_of e) }
    {
        let disk = device(alloc, system, ring, events.len())?;
        let whole = run(alloc, system, ring, events, disk)?;
        // A device that failed had no room for its record of changes.
        if whole.disk.cut().is_some() || whole.stage != Stage::Running {
            return Err(ExploreFault::Memory);
        }
        let stops = whole.disk.into_memory().changes();
        if stops > MOST_STOPS {
            return Err(ExploreFault::Memory);
        }
        Ok(Explorer {
            system,
            ring,
            events,
            stops,
            stop: 0,
            tear: 0,
            halted: None,
        })
    }

    /// How many writes and syncs the run makes.
    pub fn stops(&self) -> u64
        ensures { result ≡ stops_of self.now }
    {
        self.stops
    }

    /// The next trial; none where all were made.
    pub fn next_trial(&mut self, alloc: Global) -> Result<Option<Trial>, ExploreFault>
        ensures trial { IfOk result (λ next. MatchOption next (trials_left self.old ≡ 0) (IsNextTrial self.old)) }
        ensures left { IfOk result (λ next. MatchOption next (self.new ≡ self.old) (λ _. trials_left self.new + 1 ≡ trials_left self.old)) }
        ensures run { IsExplorerOf self.old.system.now self.old.ring self.old.events.now self.new }
        ensures stops { stops_of self.new ≡ stops_of self.old }
        ensures err { OnErr result (self.new ≡ self.old) }
    {
        if self.stop == self.stops {
            return Ok(None);
        }
        let tear = self.next_tear();
        let trial = match &self.halted {
            Some(halted) => halted.trial(alloc, tear)?,
            None => {
                let halted = Halted::at(alloc, self.system, self.ring, self.events, self.stop + 1)?;
                let trial = halted.trial(alloc, tear)?;
                self.halted = Some(halted);
                trial
            }
        };
        self.tear += 1;
        if self.tear == TEARS.len() {
            self.halted = None;
            self.tear = 0;
            self.stop += 1;
        }
        Ok(Some(trial))
    }

    /// How the next stop is torn.
    fn next_tear(&self) -> Tear
        ensures { slice_get TEARS self.now.tear ≡ Some result }
    {
        TEARS[self.tear]
    }
}
