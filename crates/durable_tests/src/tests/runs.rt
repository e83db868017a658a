//! Runs of durable plants on devices in memory, stopped and booted again.
use super::common::{OpaqueDisk, formatted};
use disk_model::{MemDisk, Tear};
use plant_core::{Event, Front, Hands, Happened, Plant, Refused, drive};
use plant_image::ImageFault;
use plant_model::{Inputs, System};
use recovery::{BootFault, boot};
use std::alloc::Global;
use std::test::Fail;
use step_core::Stepper;

/// How many writes and syncs the devices keep.
pub(super) const ROOM: usize = 512;

/// A call that no run makes: the device never dies.
pub(super) const NEVER: u64 = u64::MAX;

/// A device that is formatted for the plant, with a ring of so many records.
pub(super) fn new_device(alloc: Global, system: &System, ring: u32) -> Result<MemDisk, Fail> {
    formatted(alloc, system, ring, ROOM)
}

/// What a run on a device left.
#[derive(Drop)]
pub(super) struct Outcome {
    pub(super) disk: MemDisk,
    pub(super) front: Front,
    /// How many calls of the device were made, from the boot on.
    pub(super) calls: u64,
    /// The last answer, where it is a refusal.
    pub(super) refused: Option<Refused>,
}

/// The plant that the device is booted to, or the device, where it failed.
pub(super) fn try_boot<'s>(
    alloc: Global,
    disk: OpaqueDisk,
    system: &'s System,
) -> Result<Result<Plant<'s, OpaqueDisk>, OpaqueDisk>, Fail> {
    match boot(alloc, disk, system) {
        Ok(plant) => Ok(Ok(plant)),
        Err(refused) if refused.fault == BootFault::Disk => Ok(Err(refused.disk)),
        Err(_) => Err(Fail::new("the image is refused")),
    }
}

/// Boots the plant on a device that is dead from its `k`-th call on, and makes these events. Where the boot is stopped nothing is fired.
pub(super) fn run(
    alloc: Global,
    system: &System,
    disk: MemDisk,
    k: u64,
    events: &[Event],
) -> Result<Outcome, Fail> {
    let mut disk = disk;
    disk.fuse_dead(k);
    match try_boot(alloc, OpaqueDisk::over(disk), system)? {
        Ok(plant) => driven(alloc, plant, events),
        Err(disk) => Ok(ended(disk, settled(0), None)),
    }
}

/// The whole run of these events on a freshly formatted device with room for eight records.
pub(super) fn whole_run(alloc: Global, system: &System, events: &[Event]) -> Result<Outcome, Fail> {
    stopped_run(alloc, system, NEVER, events)
}

/// The same, on a device that is dead from its `k`-th call on.
pub(super) fn stopped_run(
    alloc: Global,
    system: &System,
    k: u64,
    events: &[Event],
) -> Result<Outcome, Fail> {
    run(alloc, system, new_device(alloc, system, 8)?, k, events)
}

/// The answers of the plant to these events.
pub(super) fn answers_of(
    alloc: Global,
    plant: &mut Plant<'_, OpaqueDisk>,
    events: &[Event],
) -> Result<Vec<Happened>, Fail> {
    let mut hands = Hands::new(alloc, plant.system().atoms().len())?;
    Ok(drive(alloc, plant, events, &mut hands)?)
}

/// The run that these events make on the plant.
fn driven(alloc: Global, plant: Plant<'_, OpaqueDisk>, events: &[Event]) -> Result<Outcome, Fail> {
    let mut plant = plant;
    let answers = answers_of(alloc, &mut plant, events)?;
    let last = match answers.last() {
        Some(happened) => refusal_in(happened),
        None => None,
    };
    let front = plant.front();
    Ok(ended(plant.into_disk(), front, last))
}

fn ended(disk: OpaqueDisk, front: Front, refused: Option<Refused>) -> Outcome {
    let calls = disk.calls();
    Outcome {
        disk: disk.into_memory(),
        front,
        calls,
        refused,
    }
}

/// Why an event was refused, where it was.
pub(super) fn refusal_in(happened: &Happened) -> Option<Refused> {
    match happened {
        Happened::Fire(_, _, Err(refused))
        | Happened::Flush(Err(refused))
        | Happened::Ask(_, Err(refused))
        | Happened::Put(_, Err(refused))
        | Happened::Save(Err(refused))
        | Happened::Trim(Err(refused))
        | Happened::Begin(_, _, Err(refused))
        | Happened::Back(_, Err(refused)) => Some(*refused),
        _ => None,
    }
}

/// What a plant shows: the first values of its first two atoms, and its front.
pub(super) type Shown = (i64, i64, Front);

/// Boots the plant and says what it shows.
pub(super) fn shown(alloc: Global, system: &System, disk: MemDisk) -> Result<Shown, Fail> {
    match booted_to(alloc, system, disk)? {
        Some(shown) => Ok(shown),
        None => Err(Fail::new("the image reads as never formatted")),
    }
}

/// The same, and nothing where the image reads as never formatted.
pub(super) fn booted_to(
    alloc: Global,
    system: &System,
    disk: MemDisk,
) -> Result<Option<Shown>, Fail> {
    match boot(alloc, OpaqueDisk::over(disk), system) {
        Ok(plant) => Ok(Some((value_of(&plant, 0), value_of(&plant, 1), plant.front()))),
        Err(refused) if refused.fault == BootFault::Image(ImageFault::NotFormatted) => Ok(None),
        Err(_) => Err(Fail::new("the image is refused")),
    }
}

/// What a device has to boot to that is written afresh and stopped at a change: up to the `last` one what stood there before, from the `first`
/// on what is written, and nothing between them.
fn wanted_at(k: u64, last: u64, first: u64, before: Shown, behind: Shown) -> Option<Shown> {
    if k <= last {
        Some(before)
    } else if k < first {
        None
    } else {
        Some(behind)
    }
}

/// The first stop, and how it tears, that leaves something else than it is to, where a device is written afresh by so many changes. At its second
/// change a gate is pending, and again at the last two.
pub(super) fn first_wrong<F: Fn(u64, Tear) -> Result<Option<Shown>, Fail>>(
    changes: u64,
    before: Shown,
    behind: Shown,
    left: F,
) -> Result<Option<(Tear, u64)>, Fail>
    requires { F.IsAlwaysCallable left }
{
    let after = changes.saturating_add(1);
    // The last stop that leaves what stood there before, and the first that leaves what is written.
    for (tear, last, first) in [
        (Tear::Old, 2, after),
        (Tear::New, 1, changes),
        (Tear::Gates, 2, changes.saturating_sub(1)),
        (Tear::Mixed, 2, after),
    ] {
        for k in 1..=after {
            if left(k, tear)? != wanted_at(k, last, first, before, behind) {
                return Ok(Some((tear, k)));
            }
        }
    }
    Ok(None)
}

/// The first value of the atom; 0 where it has none.
pub(super) fn value_of(plant: &Plant<'_, OpaqueDisk>, atom: u16) -> i64 {
    match plant.look(atom) {
        Some(state) => match state.values().first() {
            Some(value) => *value,
            None => 0,
        },
        None => 0,
    }
}

/// Where all that was fired is acknowledged, and nothing was dropped.
pub(super) const fn settled(fired: u64) -> Front {
    Front {
        fired,
        acked: fired,
        base: 1,
    }
}

pub(super) fn fire_0() -> Event {
    Event::Fire(0, Inputs::none())
}

pub(super) fn fire_1() -> Event {
    Event::Fire(1, Inputs::none())
}

pub(super) const FLUSH: Event = Event::Flush;

pub(super) const ASK_A: Event = Event::Ask(0);

pub(super) const PUT_A: Event = Event::Put(0);

/// Tick, send, tick, send, all of it acknowledged, and A saved after all of them. B is saved after none of its two.
pub(super) fn a_saved() -> [Event; 7] {
    [fire_0(), fire_1(), fire_0(), fire_1(), FLUSH, ASK_A, PUT_A]
}

/// Tick, send, tick, send, of which two are acknowledged before the others are fired.
pub(super) fn two_and_two() -> [Event; 6] {
    [fire_0(), fire_1(), FLUSH, fire_0(), fire_1(), FLUSH]
}

/// What is left where the last sync of the second flush is stopped. Record 3 stands in a cell of even number, and record 4 in one of odd number.
pub(super) fn torn_flush(alloc: Global, system: &System, tear: Tear) -> Result<MemDisk, Fail> {
    // The boot makes 18 calls, and each flush of two 6.
    let stopped = stopped_run(alloc, system, 30, &two_and_two())?;
    Ok(stopped.disk.stop(tear))
}

/// Fires the choice of this pick with these values.
fn step(stepper: &mut Stepper<'_>, pick: u128, inputs: &Inputs) -> Result<(), Fail> {
    let choices = stepper.count();
    if choices == 0 {
        return Err(Fail::new("no choice"));
    }
    let choice = stepper.nth(pick % choices);
    stepper.fire(&choice, inputs.as_slice());
    Ok(())
}

/// The plant after the first `count` choices that these events fire, stepped without a device.
fn stepped<'s>(
    alloc: Global,
    system: &'s System,
    events: &[Event],
    count: u64,
) -> Result<Stepper<'s>, Fail> {
    let mut stepper = Stepper::first(alloc, system)?;
    let mut fired = 0u64;
    for event in events {
        if fired == count {
            break;
        }
        if let Event::Fire(pick, inputs) = event {
            step(&mut stepper, *pick, inputs)?;
            fired = fired.saturating_add(1);
        }
    }
    Ok(stepper)
}

/// Whether the plant shows the states of the stepped one.
fn shows(plant: &Plant<'_, OpaqueDisk>, wanted: &Stepper<'_>) -> bool {
    let count = wanted.states().len();
    for atom in 0..count {
        match plant.look(atom as u16) {
            Some(state) if state.same(wanted.states().state(atom as u16)) => {}
            _ => return false,
        }
    }
    plant.look(count as u16).is_none()
}

/// Whether this front is all acknowledged, is one of what was said to be fired, with all that was said to be acknowledged, and has the base that was said or
/// one after it, up to this.
fn is_left(found: Front, told: Front, last_base: u64) -> bool {
    let is_fired = told.acked <= found.fired && found.fired <= told.fired;
    let is_based = told.base <= found.base && found.base <= last_base;
    is_fired && is_based && found.acked == found.fired
}

/// Whether the image that a stop of the run left boots to a state after some front of what was fired, with all that was acknowledged; the base is the
/// one that was said or one after it, up to this.
pub(super) fn boots_right(
    alloc: Global,
    system: &System,
    left: MemDisk,
    told: Front,
    last_base: u64,
    events: &[Event],
) -> Result<bool, Fail> {
    let Ok(plant) = boot(alloc, OpaqueDisk::over(left), system) else {
        return Ok(false);
    };
    let found = plant.front();
    let wanted = stepped(alloc, system, events, found.fired)?;
    Ok(is_left(found, told, last_base) && shows(&plant, &wanted))
}
