//! Telling what a stop at each moment of a run leaves.
ghost use Rattle.std.specs.Prelude.{◌≡◌, ◌+◌, ◌≤◌, ◌<◌, ◌^◌, IfOk, OnOk};
ghost use Rattle.std.specs.Io.KnownBytes.{Appends};
ghost use Rattle.image_commands.specs.Seen.{plant_of, digest_of, LEAST_RING, MOST_RING};
ghost use Rattle.image_commands.specs.Trials.{IsExplored, listed_line, wrong_of};

use crate::trial_line::{print_explored, print_trial};
use crash_explorer::{ExploreFault, Explorer, Trial};
use plant_core::Event;
use plant_model::System;
use std::alloc::Global;
use std::io::Write;
use text_io::{WriteFault, hand_on};

/// Who learns how far an exploration is.
pub trait Progress {
    /// How many writes and syncs the run makes. Nothing was tried yet.
    fn begin(&mut self, stops: u64);

    /// So many of these were tried.
    fn tried(&mut self, stops: u64);

    /// Something else is shown next, or nothing more is tried.
    fn hide(&mut self);
}

/// Why an exploration has no answer.
#[derive(Clone, Copy, Debug, PartialEq, Eq)]
pub enum ExploreEnding {
    /// Memory ran out.
    Memory,
    /// The output could not be written.
    Unwritten,
}

impl From<ExploreFault> for ExploreEnding {
    ghost use Rattle.std.specs.Prelude.{◌≡◌};
    ghost use Rattle.image_commands.specs.declared.exploring.ExploreEnding.TheVariants.{Memory};

    ghost from_gives = { λ _ ending. ending ≡ Memory };

    fn from(_: ExploreFault) -> Self {
        ExploreEnding::Memory
    }
}

impl From<WriteFault> for ExploreEnding {
    ghost use Rattle.std.specs.Prelude.{◌≡◌};
    ghost use Rattle.image_commands.specs.declared.exploring.ExploreEnding.TheVariants.{Unwritten};

    ghost from_gives = { λ _ ending. ending ≡ Unwritten };

    fn from(_: WriteFault) -> Self {
        ExploreEnding::Unwritten
    }
}

/// Formats a device in memory with a ring of so many records, boots the plant and makes the events: at first to the end, and then stopped at each write
/// and each sync, under each of four tears. It boots what each stop left, lets the plant go on, and judges both. Prints a line for each of these trials, where they are to be
/// listed, and how many there are; and gives how many are not right. Where it has no answer, a front of the lines may be printed.
pub fn explore_plant<W: Write, P: Progress>(
    alloc: Global,
    system: &System,
    ring: u32,
    events: &[Event],
    list: bool,
    output: &mut W,
    progress: &mut P,
) -> Result<u64, ExploreEnding>
    requires ring_from { LEAST_RING ≤ ring }
    requires ring_to { ring ≤ MOST_RING }
    ensures { IfOk result (λ wrong. IsExplored (plant_of system.now) (digest_of system.now) ring events.now list wrong (W.contents output.old) (W.contents output.new)) }
{
    let mut explorer = Explorer::new(alloc, system, ring, events)?;
    let mut boots = 0;
    let mut wrong = 0;
    progress.begin(explorer.stops());
    while let Some(trial) = explorer.next_trial(alloc)? {
        boots += 1;
        wrong = wrong_with(wrong, &trial);
        list_trial(&trial, list, output, progress)?;
        progress.tried(boots / 4);
    }
    progress.hide();
    print_explored(explorer.stops(), boots, wrong, output)?;
    hand_on(output)?;
    Ok(wrong)
}

/// Prints the line of a trial, where trials are listed.
fn list_trial<W: Write, P: Progress>(
    trial: &Trial,
    list: bool,
    output: &mut W,
    progress: &mut P,
) -> Result<(), WriteFault>
    ensures { OnOk result (Appends (W.contents output.old) (W.contents output.new) (listed_line list trial.now)) }
{
    if !list {
        return Ok(());
    }
    progress.hide();
    print_trial(trial, output)
}

/// How many trials are not right, with one more.
fn wrong_with(wrong: u64, trial: &Trial) -> u64
    requires { wrong + 1 < 2 ^ 64 }
    ensures { result ≡ wrong + wrong_of trial.now }
{
    if trial.right { wrong } else { wrong + 1 }
}
