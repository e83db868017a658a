//! Images, which are the bytes of C's devices, and what is to be done to these.
ghost use Rattle.std.specs.Prelude.{◌≡◌, ◌≢◌, ℕ, Bool, Option, None, Result};
ghost use Rattle.plant_for_c.specs.Images.{IsSizeOf};
ghost use Rattle.plant_for_c.specs.Things.{IsFill, IsFormat, no_image_of};
ghost use Rattle.plant_for_c.specs.declared.status.Status.{Status as CStatus};
ghost use Rattle.plant_for_c.specs.declared.thing.Thing.TheVariants.{Failed};
ghost use Rattle.kilnmace_c.specs.Calls.{IsHeldCall, IsHeldPlant, IsHeldSystem, IsStatusOf, IsTaken, IsToldAs, IsTurnedAway};
ghost use Rattle.queued_disk.specs.QueuedDisk.{steps_of};
ghost use Rattle.kilnmace_c.specs.Devices.{IsHeldDevice, IsToldStep};
ghost use Rattle.kilnmace_c.specs.Images.{IsHeldBoot, IsImage};
ghost use Rattle.kilnmace_c.specs.Told.{as_it_is, fill_status, or_absent};
ghost use Rattle.kilnmace_c.specs.declared.variable.TheConstants.{NOTHING, PLANT, TEXT};

use crate::told::{Detail, of_fill, status_of, tell};
use crate::variable::{PLANT, Variable};
use plant_for_c::{Refusal, Status, Thing, image_bytes, new_image};
use queued_disk::{QueuedDisk, Step};
use std::alloc::Global;

/// A step of a device, as C has it.
#[repr(C)]
#[derive(Clone, Copy)]
pub struct DeviceStep {
    /// The place of the first byte that is written.
    pub at: u64,
    /// How many bytes are written.
    pub length: u32,
    /// What is done: [`NO_STEP`], [`WRITE`] or [`SYNC`].
    pub kind: u32,
}

/// No step is left.
pub const NO_STEP: u32 = 0;

/// Bytes are written.
pub const WRITE: u32 = 1;

/// All that was written is put onto the disk.
pub const SYNC: u32 = 2;

/// No step has more bytes: none is longer than a cell.
const MOST_STEP: usize = 1_024;

/// How many bytes an image has for the plant of the text and a ring of so many records.
#[unsafe(no_mangle)]
pub extern "C" fn kilnmace_raw_image_bytes(
    alloc: Global,
    text: &mut Variable,
    ring: u32,
    bytes: &mut u64,
) -> u32
    ensures same { (text.new.handle.held ≡ text.old.handle.held) × (text.new.mark ≡ text.old.mark) }
    ensures turned_away { IsTurnedAway TEXT text.old.mark result (bytes.new ≡ bytes.old) }
    ensures told { text.old.mark ≡ TEXT → IsHeldPlant text.old.handle.held
        (λ plant. (answer : Result ℕ CStatus) × IsSizeOf plant ring answer × IsToldAs answer result bytes.old bytes.new) }
{
    match text.system(alloc) {
        Ok(system) => tell(image_bytes(system, ring), bytes),
        Err(status) => status.number(),
    }
}

/// Puts an image of so many zeros into a variable that holds nothing.
#[unsafe(no_mangle)]
pub extern "C" fn kilnmace_raw_image(alloc: Global, plant: &mut Variable, bytes: u64) -> u32
    ensures taken { IsTaken PLANT plant.old.mark result (plant.new ≡ plant.old) }
    ensures image { result ≡ 0 → (plant.new.mark ≡ PLANT) × IsImage plant.new.handle.held bytes }
    ensures refused { result ≢ 0 → plant.new ≡ plant.old }
{
    if let Err(status) = plant.is_free(PLANT) {
        return status.number();
    }
    let disk = match new_image(alloc, bytes) {
        Ok(disk) => disk,
        Err(status) => return status.number(),
    };
    match Box::new(alloc, Thing::Image(disk)) {
        Ok(thing) => {
            plant.open(PLANT, thing);
            Status::Done.number()
        }
        Err(_) => Status::Memory.number(),
    }
}

/// Takes over what the device of an image holds from this place on.
#[unsafe(no_mangle)]
pub extern "C" fn kilnmace_raw_fill(
    alloc: Global,
    plant: &mut Variable,
    at: u64,
    bytes: &[u8],
) -> u32
    ensures turned_away { IsTurnedAway PLANT plant.old.mark result (plant.new ≡ plant.old) }
    ensures filled { plant.old.mark ≡ PLANT → IsHeldCall plant.old.handle.held plant.new.handle.held (result ≡ 63)
        (λ thing changed. (answer : Option Bool) × IsFill thing at bytes.now answer changed × IsStatusOf (or_absent fill_status (no_image_of thing) answer) result) }
{
    let mut thing = match plant.take(PLANT, alloc) {
        Ok(thing) => thing,
        Err(status) => return status.number(),
    };
    let absent = thing.no_image();
    let answer = thing.fill(at, bytes);
    plant.put(thing);
    status_of(of_fill(answer, absent))
}

/// Formats an image.
#[unsafe(no_mangle)]
pub extern "C" fn kilnmace_raw_format(
    alloc: Global,
    plant: &mut Variable,
    text: &mut Variable,
    ring: u32,
) -> u32
    ensures same { (text.new.handle.held ≡ text.old.handle.held) × (text.new.mark ≡ text.old.mark) }
    ensures turned_away { IsTurnedAway PLANT plant.old.mark result (plant.new ≡ plant.old) }
    ensures formatted { plant.old.mark ≡ PLANT → IsHeldCall plant.old.handle.held plant.new.handle.held (result ≡ 63)
        (λ thing changed. IsTurnedAway TEXT text.old.mark result (changed ≡ thing) × (text.old.mark ≡ TEXT → IsHeldPlant text.old.handle.held
        (λ plant. (answer : Option (Result Unit CStatus)) × IsFormat plant ring thing answer changed × IsStatusOf (or_absent as_it_is (no_image_of thing) answer) result))) }
{
    let mut thing = match plant.take(PLANT, alloc) {
        Ok(thing) => thing,
        Err(status) => return status.number(),
    };
    let status = format_by(alloc, &mut thing, text, ring);
    plant.put(thing);
    status
}

/// Formats what is held by the text.
fn format_by(alloc: Global, thing: &mut Thing, text: &mut Variable, ring: u32) -> u32
    ensures same { (text.new.handle.held ≡ text.old.handle.held) × (text.new.mark ≡ text.old.mark) }
    ensures turned_away { IsTurnedAway TEXT text.old.mark result (thing.new ≡ thing.old) }
    ensures formatted { text.old.mark ≡ TEXT → IsHeldPlant text.old.handle.held
        (λ plant. (answer : Option (Result Unit CStatus)) × IsFormat plant ring thing.old answer thing.new × IsStatusOf (or_absent as_it_is (no_image_of thing.old) answer) result) }
{
    let system = match text.system(alloc) {
        Ok(system) => system,
        Err(status) => return status.number(),
    };
    let absent = thing.no_image();
    match thing.format(alloc, system, ring) {
        Some(answer) => status_of(answer),
        None => absent.number(),
    }
}

/// Boots the plant of the text on an image. If it is refused, the variable holds nothing.
#[unsafe(no_mangle)]
pub extern "C" fn kilnmace_raw_boot(
    alloc: Global,
    plant: &mut Variable,
    text: &mut Variable,
    detail: &mut Detail,
) -> u32
    ensures same { (text.new.handle.held ≡ text.old.handle.held) × (text.new.mark ≡ text.old.mark) }
    ensures turned_away { IsTurnedAway PLANT plant.old.mark result (plant.new ≡ plant.old) }
    ensures text { plant.old.mark ≡ PLANT → plant.old.handle.held ≢ None → IsTurnedAway TEXT text.old.mark result ((plant.new.handle.held ≡ plant.old.handle.held) × (plant.new.mark ≡ PLANT)) }
    ensures booted { plant.old.mark ≡ PLANT → text.old.mark ≡ TEXT → IsHeldSystem text.old.handle.held
        (λ plant_in digest. IsHeldBoot plant_in digest plant.old.handle.held plant.new.handle.held plant.new.mark result) }
{
    let mut thing = match plant.take(PLANT, alloc) {
        Ok(thing) => thing,
        Err(status) => return detail.tell(Refusal::plain(status)),
    };
    let system = match text.system(alloc) {
        Ok(system) => system,
        Err(status) => {
            plant.put(thing);
            return detail.tell(Refusal::plain(status));
        }
    };
    let absent = thing.no_image();
    match thing.boot(alloc, system) {
        Some(Ok(())) => {
            plant.put(thing);
            detail.tell(Refusal::plain(Status::Done))
        }
        Some(Err(refusal)) => {
            plant.end();
            detail.tell(refusal)
        }
        None => {
            plant.put(thing);
            detail.tell(Refusal::plain(absent))
        }
    }
}

/// Takes the next step that is to be done to the device of an image or of a plant.
#[unsafe(no_mangle)]
pub extern "C" fn kilnmace_raw_step(
    alloc: Global,
    plant: &mut Variable,
    step: &mut DeviceStep,
    bytes: &mut [u8],
) -> u32
    ensures same { (plant.new.handle.held ≡ plant.old.handle.held) × (plant.new.mark ≡ plant.old.mark) }
    ensures turned_away { IsTurnedAway PLANT plant.old.mark result ((step.new ≡ step.old) × (bytes.new ≡ bytes.old)) }
    ensures told { plant.old.mark ≡ PLANT → IsHeldDevice plant.old.handle.held result step.old step.new bytes.old bytes.new }
{
    let thing = match plant.take(PLANT, alloc) {
        Ok(thing) => thing,
        Err(status) => return status.number(),
    };
    let status = match thing.device() {
        Some(disk) => take_step(disk, step, bytes),
        None => thing.absent().number(),
    };
    plant.put(thing);
    status
}

/// Takes the next step of the device, unless there is no room for its bytes.
fn take_step(disk: &QueuedDisk, step: &mut DeviceStep, into: &mut [u8]) -> u32
    ensures { IsToldStep (steps_of disk.now) result step.old step.new into.old into.new }
{
    let (at, kind, length) = match disk.next() {
        None => (0, NO_STEP, 0),
        Some(Step::Sync) => (0, SYNC, 0),
        Some(Step::Write { at, bytes }) => {
            if bytes.len() > into.len().min(MOST_STEP) {
                return Status::NoRoom.number();
            }
            into[..bytes.len()].copy_from_slice(bytes);
            (at, WRITE, bytes.len() as u32)
        }
    };
    *step = DeviceStep { at, length, kind };
    disk.take();
    Status::Done.number()
}

/// The device failed: what is held is dropped, and each call but `close` is refused from now on.
#[unsafe(no_mangle)]
pub extern "C" fn kilnmace_raw_fail(alloc: Global, plant: &mut Variable) -> u32
    ensures turned_away { IsTurnedAway PLANT plant.old.mark result (plant.new ≡ plant.old) }
    ensures failed { plant.old.mark ≡ PLANT → IsHeldCall plant.old.handle.held plant.new.handle.held (result ≡ 63) (λ thing changed. (changed ≡ Failed) × (result ≡ 0)) }
    ensures mark { plant.new.mark ≡ plant.old.mark }
{
    let mut thing = match plant.take(PLANT, alloc) {
        Ok(thing) => thing,
        Err(status) => return status.number(),
    };
    thing.fail();
    plant.put(thing);
    Status::Done.number()
}

/// Drops what is held. The variable holds nothing from then on.
#[unsafe(no_mangle)]
pub extern "C" fn kilnmace_raw_close(alloc: Global, plant: &mut Variable) -> u32
    ensures turned_away { IsTurnedAway PLANT plant.old.mark result (plant.new ≡ plant.old) }
    ensures closed { plant.old.mark ≡ PLANT → (result ≡ 0) × (plant.new.handle.held ≡ None) × (plant.new.mark ≡ NOTHING) }
{
    match plant.close(PLANT, alloc) {
        Ok(()) => Status::Done.number(),
        Err(status) => status.number(),
    }
}
