//! The plant of a text, and its image: the bytes of a device that is C's.
ghost use Rattle.std.specs.Prelude.{◌≡◌, ◌≢◌, ◌⊎◌, ◌↔◌, ◌<◌, Ok, Err, IfOk, IfErr, IsTrue, length, replicate};
ghost use Rattle.plant_text.specs.Meaning.{meaning};
ghost use Rattle.plant_text.specs.Text.{text_of};
ghost use Rattle.plant_model.specs.System.{plant_of, digest_of};
ghost use Rattle.plant_core.specs.Plants.{definition_of, text_digest};
ghost use Rattle.queued_disk.specs.QueuedDisk.{held_by};
ghost use Rattle.plant_for_c.specs.Images.{IsFormatted, IsRing, IsSizeOf};
ghost use Rattle.plant_for_c.specs.declared.status.Status.TheVariants.{ImageWrongSize, Memory as MemoryStatus};
ghost use Rattle.plant_for_c.specs.Refusals.{IsTextRefusal};

use crate::refusal::{Refusal, of_boot, of_format, of_text};
use crate::status::Status;
use disk_model::CELL;
use plant_core::Plant;
use plant_model::System;
use plant_text::plant_of_text;
use queued_disk::QueuedDisk;
use record_codec::ring::device_cells;
use record_codec::{LEAST_RING, MOST_RING};
use recovery::{boot, format};
use std::alloc::Global;

/// A plant on the bytes of a device that is C's.
pub type QueuedPlant<'s> = Plant<'s, QueuedDisk>;

/// The bytes of the largest image: 64 atoms, and a ring of 4,096 records.
const LARGEST: u64 = 4_227 * CELL;

/// The plant of a text. It stays until the program ends: so any number of plants can be opened by it.
pub fn read_system(alloc: Global, text: &[u8]) -> Result<&'static System, Refusal>
    ensures plant { IfOk result (λ system. meaning text.now ≡ Ok (text_of (plant_of system.now))) }
    ensures refused { IfErr result (IsTextRefusal text.now) }
{
    let system = match plant_of_text(alloc, text) {
        Ok(system) => system,
        Err(told) => return Err(of_text(told)),
    };
    match Box::new(alloc, system) {
        Ok(kept) => Ok(Box::leak(kept)),
        Err(_) => Err(Refusal::plain(Status::Memory)),
    }
}

/// How many bytes an image has for the plant and a ring of so many records.
pub fn image_bytes(system: &System, ring: u32) -> Result<u64, Status>
    ensures { IsSizeOf (plant_of system.now) ring result }
{
    if !is_ring(ring) {
        return Err(Status::BadRing);
    }
    system.keeps_its_rules();
    Ok(CELL * device_cells(system.atoms().len() as u16, ring))
}

/// Room for the bytes of a device that has so many: zeros.
pub fn new_image(alloc: Global, bytes: u64) -> Result<QueuedDisk, Status>
    ensures zeros { IfOk result (λ disk. held_by disk ≡ replicate bytes 0) }
    ensures large { LARGEST < bytes → result ≡ Err ImageWrongSize }
    ensures wrong_size { result ≡ Err ImageWrongSize → LARGEST < bytes }
    ensures cause { IfErr result (λ status. (status ≡ ImageWrongSize) ⊎ (status ≡ MemoryStatus)) }
{
    if bytes > LARGEST {
        return Err(Status::ImageWrongSize);
    }
    match QueuedDisk::new(alloc, bytes as usize) {
        Ok(disk) => Ok(disk),
        Err(_) => Err(Status::Memory),
    }
}

/// Formats an image, which is handed back.
pub fn format_image(
    alloc: Global,
    disk: QueuedDisk,
    system: &System,
    ring: u32,
) -> (QueuedDisk, Result<(), Status>)
    ensures { IsFormatted (plant_of system.now) ring (length (held_by disk)) result.1 }
{
    if !is_ring(ring) {
        return (disk, Err(Status::BadRing));
    }
    match format(alloc, disk, system, ring) {
        Ok(disk) => (disk, Ok(())),
        Err(refused) => (refused.disk, Err(of_format(refused.fault))),
    }
}

/// Whether a ring has so many records.
fn is_ring(ring: u32) -> bool
    ensures { IsTrue result ↔ IsRing ring }
{
    LEAST_RING <= ring && ring <= MOST_RING
}

/// The durable plant on an image, where the last acknowledged move left it.
pub fn boot_image<'s>(
    alloc: Global,
    disk: QueuedDisk,
    system: &'s System,
) -> Result<QueuedPlant<'s>, Refusal>
    ensures plant { IfOk result (λ plant. definition_of plant ≡ plant_of system.now) }
    ensures digest { IfOk result (λ plant. text_digest plant ≡ digest_of system.now) }
{
    match boot(alloc, disk, system) {
        Ok(plant) => Ok(plant),
        Err(refused) => Err(of_boot(refused.fault)),
    }
}
