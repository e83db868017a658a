//! What becomes of a device that a stop left.
ghost use Rattle.std.specs.Prelude.{◌≡◌, ◌+◌, ◌≤◌, ◌↔◌, ℕ, List, IsTrue, true, IfOk, length, map, take};
ghost use Rattle.plant_image.specs.declared.fault.ImageFault.TheVariants.{NotFormatted};
ghost use Rattle.crash_explorer.specs.Seen.{plant_of, digest_of, PlantDefinition, FiringDefinition, fired_of, definition_of, device_of, text_digest, view_of, BODY, size_of, Cell, seen_cells, cell_of, fuse_of, state_of, Off};
ghost use Rattle.crash_explorer.specs.Judging.{IsRightStop, IsRunOf};
ghost use Rattle.crash_explorer.specs.Outcomes.{IsNext, IsOutcome};
ghost use Rattle.crash_explorer.specs.Running.{IsAt, is_formatting};
ghost use Rattle.crash_explorer.specs.Watching.{IsCountable, IsWhole};
ghost use Rattle.crash_explorer.specs.Verdicts.{IsFound, IsVerdict};

use crate::booting::{Found, Opened, found_on, open};
use crate::fault::ExploreFault;
use crate::judging::{Verdict, verdict_on};
use crate::running::{Stage, run_booted};
use crate::watched::Watched;
use disk_model::{MemDisk, Tear};
use plant_core::{Event, Plant};
use plant_image::ImageFault;
use plant_model::{Firing, Inputs, System};
use std::alloc::{AllocError, Global};

/// How many events a plant is asked for that goes on after a stop.
pub(crate) const NEXT_EVENTS: usize = 2;

/// How a plant goes on that was booted after a stop: it fires its first choice without values, and flushes. It fires nothing where it has no choice, where
/// the connector of the first one has inputs, or where there is no room. Then the power is cut again, and tears as before.
#[derive(Clone, Copy, Debug, PartialEq, Eq)]
pub struct Next {
    /// How many choices it fired: one or none.
    pub fired: u64,
    /// What the device boots to then.
    pub found: Found,
    /// Whether the device is right then: all that was fired is acknowledged.
    pub right: bool,
}

/// What becomes of a device that a stop left.
#[derive(Clone, Copy)]
pub(crate) struct Outcome {
    /// What it boots to.
    pub(crate) found: Found,
    /// How the plant goes on, where it boots and the device is right.
    pub(crate) next: Option<Next>,
    /// Whether the device is right, and is so again when the plant went on.
    pub(crate) right: bool,
}

/// Boots a device that a stop left of a run with these firings; so many of them were acknowledged. Judges it, lets the plant go on, and judges it
/// again.
pub(crate) fn outcome_of(
    alloc: Global,
    system: &System,
    stage: Stage,
    fired: &[Firing],
    acked: usize,
    left: MemDisk,
    tear: Tear,
) -> Result<Outcome, ExploreFault>
    requires fuse { fuse_of left ≡ Off }
    requires cells { cell_of left ≡ BODY + 1 }
    requires whole { IsWhole left }
    requires countable { IsCountable left }
    requires run { IsRunOf (plant_of system.now) (map fired_of fired.now) }
    requires acked { acked ≤ length fired.now }
    ensures { IfOk result (IsOutcome (plant_of system.now) (digest_of system.now) (size_of (state_of left)) tear (map fired_of fired.now) acked
        (is_formatting stage) (seen_cells (BODY + 1) (state_of left))) }
{
    let mut left = left;
    let (front, tail) = fired.split_at(acked);
    let verdict = verdict_on(alloc, system, front, tail, &mut left)?;
    let opened = open(alloc, system, left)?;
    let found = opened.found();
    let stands = is_right(stage, verdict, found);
    match opened {
        Opened::Plant(plant) => {
            if !stands {
                return Ok(Outcome {
                    found,
                    next: None,
                    right: false,
                });
            }
            let held = plant.front().fired as usize;
            let behind = copies_of(alloc, front_of(fired, held))?;
            let next = go_on(alloc, plant, behind, tear)?;
            Ok(Outcome {
                found,
                next: Some(next),
                right: are_right(stands, next),
            })
        }
        Opened::Refused(_) => Ok(Outcome {
            found,
            next: None,
            right: stands,
        }),
    }
}

/// The first of the firings: so many, or all where there are fewer.
fn front_of(firings: &[Firing], count: usize) -> &[Firing]
    ensures { result.now ≡ take count firings.now }
{
    &firings[..count.min(firings.len())]
}

/// The same firings, in memory of their own.
fn copies_of(alloc: Global, firings: &[Firing]) -> Result<Vec<Firing>, AllocError>
    ensures { IfOk result (λ copies. copies.items ≡ firings.now) }
{
    let mut copies = Vec::new(alloc);
    for firing in firings {
        copies.push(Firing {
            choice: firing.choice.copy(),
            inputs: firing.inputs.copy(),
        })?;
    }
    Ok(copies)
}

/// How a plant goes on whose firings are these, all acknowledged.
fn go_on(
    alloc: Global,
    plant: Plant<'_, Watched>,
    behind: Vec<Firing>,
    tear: Tear,
) -> Result<Next, ExploreFault>
    requires { IsAt (definition_of plant) (map fired_of behind.items) (view_of plant) }
    ensures { IfOk result (IsNext (definition_of plant.entry) (text_digest plant.entry) (size_of (device_of plant.entry)) tear (view_of plant.entry)
        (map fired_of behind.items)) }
{
    let system = plant.system();
    let before = behind.len() as u64;
    let events: [Event; NEXT_EVENTS] = [Event::Fire(0, Inputs::none()), Event::Flush];
    let ended = run_booted(alloc, plant, &events, behind)?;
    // A device that failed had no room for its record of changes.
    if ended.acked != ended.fired.len() {
        return Err(ExploreFault::Memory);
    }
    let mut left = ended.disk.into_memory().stop(tear);
    let verdict = verdict_on(alloc, system, &ended.fired, &[], &mut left)?;
    let found = found_on(alloc, system, left)?;
    Ok(Next {
        fired: ended.fired.len() as u64 - before,
        found,
        right: is_right(Stage::Running, verdict, found),
    })
}

/// Whether what a stop left is right, and also what the plant left that went on from it.
fn are_right(stands: bool, next: Next) -> bool
    ensures { IsTrue result ↔ (IsTrue stands × IsTrue next.right) }
{
    stands && next.right
}

/// Whether what a stop left is right, by its verdict and by what it boots to.
fn is_right(stage: Stage, verdict: Verdict, found: Found) -> bool
    ensures { (plant : PlantDefinition) (digest : List ℕ) (bytes : ℕ) (acked tail : List FiringDefinition) (cells : List Cell)
        → IsVerdict plant digest bytes acked tail cells verdict → IsFound plant digest bytes cells found
        → IsTrue result ↔ IsRightStop plant digest bytes acked tail (is_formatting stage) cells }
{
    match verdict {
        Verdict::Stands(number, right) => right && found == Found::Booted(number),
        Verdict::Faulty(fault) => is_unformatted(stage, fault) && found == Found::Refused(fault),
    }
}

/// Whether nothing else is wrong than that formatting did not come to its end.
fn is_unformatted(stage: Stage, fault: ImageFault) -> bool
    ensures { IsTrue result ↔ ((is_formatting stage ≡ true) × (fault ≡ NotFormatted)) }
{
    match stage {
        Stage::Formatting => fault == ImageFault::NotFormatted,
        Stage::Booting | Stage::Running => false,
    }
}
