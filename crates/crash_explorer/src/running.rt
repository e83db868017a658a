//! One run: a device is formatted, the plant booted from it, and some events made.
ghost use Rattle.std.specs.Prelude.{◌≡◌, ◌+◌, ◌++◌, ◌≤◌, [], List, IfOk, map, option_map, replicate};
ghost use Rattle.std.specs.Option.{option_to_list};
ghost use Rattle.plant_core.specs.Events.{all_fired, fired_by};
ghost use Rattle.plant_image.specs.Standing.{StandsFor};
ghost use Rattle.plant_model.specs.Step.{initial_states};
ghost use Rattle.crash_explorer.specs.Seen.{plant_of, digest_of, fired_of, definition_of, device_of, text_digest, view_of, LEAST_RING, MOST_RING, formatted_size, BODY, size_of, Cell, MayBe, cell_of, fresh, state_of};
ghost use Rattle.crash_explorer.specs.declared.running.Stage.TheVariants.{Running};
ghost use Rattle.crash_explorer.specs.Watching.{IsCountable, IsWhole};
ghost use Rattle.crash_explorer.specs.Running.{IsAt, IsEnded, IsLived, IsMadeUntil, device_in, fired_in, firing_in};

use crate::fault::ExploreFault;
use crate::watched::Watched;
use disk_model::MemDisk;
use plant_core::{Event, FiredAs, Hands, Happened, Plant, Refused, drive};
use plant_image::ImageFault;
use plant_model::{Firing, Inputs, System};
use recovery::{BootFault, FormatFault, boot, format};
use std::alloc::{AllocError, Global};

/// What of a run a stop falls in.
#[derive(Clone, Copy, Debug, PartialEq, Eq)]
pub enum Stage {
    /// The device was being formatted.
    Formatting,
    /// The plant was being booted for the first time.
    Booting,
    /// The plant was there.
    Running,
}

/// What a run comes to, wherever it ends.
#[derive(Drop)]
pub(crate) struct Ended {
    pub(crate) disk: Watched,
    /// How far it came.
    pub(crate) stage: Stage,
    /// The choices that were fired, in order, each with the values that came in.
    pub(crate) fired: Vec<Firing>,
    /// How many of them are acknowledged.
    pub(crate) acked: usize,
}

impl Ended {
    /// A run that ended before anything was fired.
    fn before_the_first(alloc: Global, disk: Watched, stage: Stage) -> Ended
        ensures disk { result.disk ≡ disk }
        ensures stage { result.stage ≡ stage }
        ensures fired { result.fired.items ≡ [] }
        ensures acked { result.acked ≡ 0 }
    {
        Ended {
            disk,
            stage,
            fired: Vec::new(alloc),
            acked: 0,
        }
    }
}

/// Formats the device with a ring of so many records, boots the plant, and makes the events. It ends where the device fails.
pub(crate) fn run(
    alloc: Global,
    system: &System,
    ring: u32,
    events: &[Event],
    disk: MemDisk,
) -> Result<Ended, ExploreFault>
    requires ring_from { LEAST_RING ≤ ring }
    requires ring_to { ring ≤ MOST_RING }
    requires cells { cell_of disk ≡ BODY + 1 }
    requires whole { IsWhole disk }
    requires countable { IsCountable disk }
    requires zeros { state_of disk ≡ fresh (replicate (formatted_size (plant_of system.now) ring) 0) }
    ensures ended { IfOk result (IsEnded (plant_of system.now) (digest_of system.now) (formatted_size (plant_of system.now) ring)) }
    ensures made { IfOk result (λ e. IsMadeUntil (plant_of system.now) (digest_of system.now) (formatted_size (plant_of system.now) ring) events.now e.stage (fired_in e) e.acked (device_in e)) }
{
    match format(alloc, Watched::over(disk), system, ring) {
        Ok(disk) => run_formatted(alloc, system, events, disk),
        Err(refused) => match refused.fault {
            FormatFault::Memory => Err(ExploreFault::Memory),
            FormatFault::WrongSize | FormatFault::Disk => Ok(Ended::before_the_first(
                alloc,
                refused.disk,
                Stage::Formatting,
            )),
        },
    }
}

/// The same from a formatted device on.
fn run_formatted(
    alloc: Global,
    system: &System,
    events: &[Event],
    disk: Watched,
) -> Result<Ended, ExploreFault>
    requires { (cells : List Cell) → MayBe (BODY + 1) (state_of disk.disk) cells
        → StandsFor (plant_of system.now) (digest_of system.now) (size_of (state_of disk.disk)) cells (initial_states (plant_of system.now)) 0 }
    ensures ended { IfOk result (IsEnded (plant_of system.now) (digest_of system.now) (size_of (state_of disk.disk))) }
    ensures made { IfOk result (λ e. IsMadeUntil (plant_of system.now) (digest_of system.now) (size_of (state_of disk.disk)) events.now e.stage (fired_in e) e.acked (device_in e)) }
{
    match boot(alloc, disk, system) {
        Ok(plant) => run_booted(alloc, plant, events, Vec::new(alloc)),
        Err(refused) => match refused.fault {
            BootFault::Image(ImageFault::Memory) => Err(ExploreFault::Memory),
            BootFault::Image(_) | BootFault::Disk => Ok(Ended::before_the_first(
                alloc,
                refused.disk,
                Stage::Booting,
            )),
        },
    }
}

/// The same from a plant on whose firings are these, all acknowledged.
pub(crate) fn run_booted(
    alloc: Global,
    plant: Plant<'_, Watched>,
    events: &[Event],
    behind: Vec<Firing>,
) -> Result<Ended, ExploreFault>
    requires { IsAt (definition_of plant) (map fired_of behind.items) (view_of plant) }
    ensures ended { IfOk result (IsEnded (definition_of plant.entry) (text_digest plant.entry) (size_of (device_of plant.entry))) }
    ensures lived { IfOk result (λ e. IsLived (definition_of plant.entry) (text_digest plant.entry) events.now (view_of plant.entry) (map fired_of behind.items) (fired_in e) e.acked (device_in e)) }
    ensures stage { IfOk result (λ e. e.stage ≡ Running) }
{
    let mut plant = plant;
    let mut hands = Hands::new(alloc, plant.system().atoms().len())?;
    let answers = drive(alloc, &mut plant, events, &mut hands)?;
    let fired = fired_behind(behind, &answers)?;
    let acked = plant.front().acked as usize;
    plant.stands_for_a_front();
    Ok(Ended {
        disk: plant.into_disk(),
        stage: Stage::Running,
        fired,
        acked,
    })
}

/// These firings, and after them what was fired.
fn fired_behind(behind: Vec<Firing>, answers: &[Happened]) -> Result<Vec<Firing>, AllocError>
    ensures { IfOk result (λ fired. map fired_of fired.items ≡ map fired_of behind.items ++ all_fired answers.now) }
{
    let mut fired = behind;
    for happened in answers {
        if let Some(firing) = fired_by(happened) {
            fired.push(firing)?;
        }
    }
    Ok(fired)
}

/// The choice that an event fired, if it fired one, with the values that came in.
fn fired_by(happened: &Happened) -> Option<Firing>
    ensures { option_to_list (option_map fired_of result) ≡ fired_by happened.now }
{
    match happened {
        Happened::Fire(_, inputs, answer)
        | Happened::FireChoice(_, inputs, Some(answer))
        | Happened::Begin(_, inputs, answer) => { firing_in(answer, inputs) }
        _ => None,
    }
}

/// The choice of an answer, if one was fired, with these values.
fn firing_in(answer: &Result<FiredAs, Refused>, inputs: &Inputs) -> Option<Firing>
    ensures { option_map fired_of result ≡ firing_in answer.now inputs.now }
{
    match answer {
        Ok(fired) => Some(Firing {
            choice: fired.choice.copy(),
            inputs: inputs.copy(),
        }),
        Err(_) => None,
    }
}
