//! Bringing an image of the first layout over to a new device.
ghost use Rattle.std.specs.Prelude.{◌≡◌, ◌≢◌, ◌+◌, ◌*◌, ◌-◌, ◌≤◌, ℕ, List, None, true, false, length, IfErr, IfOk, OnOk};
ghost use Rattle.std.specs.List.{range_with_len};
ghost use Rattle.plant_image.specs.Contents.{last_number};
ghost use Rattle.plant_image.specs.Reading.{contents_in};
ghost use Rattle.recovery.specs.Seen.{plant_of, digest_of, Local, HasRoom, LEAST_RING, MOST_RING, device_cells, CountsUpTo, Reads, size_of, Leaves, MayBe, seen_cells};
ghost use Rattle.recovery.specs.Formatting.{formatted_size, is_disk_error};
ghost use Rattle.recovery.specs.Migrating.{IsMigrated, IsMigrateFault, is_new_disk_refusal, is_old_disk_refusal, new_returned, old_returned};
ghost use Rattle.recovery.specs.OldImage.{OldStandsFor, old_contents, old_fault_of};
ghost use Rattle.recovery.specs.Writing.{HasWritten, IsWriting};
ghost use Rattle.recovery.specs.declared.fault.BootFault.TheVariants.{Image};
ghost use Rattle.recovery.specs.declared.fault.MigrateFault.TheVariants.{Old, NewSize, NewDisk};
ghost use Rattle.plant_image.specs.declared.fault.ImageFault.TheVariants.{Memory as NoMemory};

use crate::fault::{FormatFault, MigrateFault, MigrateRefused};
use crate::old_image::judge_old;
use crate::writing::{other_cells, write_image};
use disk_model::{BODY, Cells, Disk, FIRST_BODY};
use plant_image::Standing;
use plant_model::System;
use std::alloc::Global;

/// Brings the image of the first layout that the old device holds over to the new one, with a ring of so many records: the new device stands
/// then for the state and the number that the old one stands for, and no record. The old device is only read, and whatever the new one held is
/// gone then. A stop inside leaves of the new device what it held, or an unformatted device, or the whole new image. The old image is judged
/// and all memory is taken before the first call of the new device, and its size is judged before the first write.
pub fn migrate<D1: Disk, D2: Disk>(
    alloc: Global,
    old: D1,
    new: D2,
    system: &System,
    ring: u32,
) -> Result<(D1, D2), MigrateRefused<D1, D2>>
    requires ring_from { LEAST_RING ≤ ring }
    requires ring_to { ring ≤ MOST_RING }

    // What is refused, and that nothing wrong is brought over.
    ensures sound { (D1.state old).keeps ≡ true → OnOk result
        (old_fault_of (plant_of system.now) (digest_of system.now) (size_of (D1.state old)) (seen_cells (FIRST_BODY + 1) (D1.state old)) ≡ None) }
    ensures refused { (D1.state old).keeps ≡ true → IfErr result (λ refused. IsMigrateFault
        (old_fault_of (plant_of system.now) (digest_of system.now) (size_of (D1.state old)) (seen_cells (FIRST_BODY + 1) (D1.state old)))
        refused.fault) }
    ensures memory { IfErr result (λ refused. refused.fault ≢ Old (Image NoMemory)) }
    ensures sized { OnOk result (size_of (D2.state new) ≡ formatted_size (plant_of system.now) ring) }
    ensures new_size { IfErr result (λ refused. refused.fault ≡ NewSize
        → size_of (D2.state new) ≢ formatted_size (plant_of system.now) ring) }

    // What is done to the old device.
    ensures old_counts { CountsUpTo (is_old_disk_refusal result) 1 (D1.state old) (D1.state (old_returned result)) }
    ensures old_stops { (D1.state old).keeps ≡ true → Leaves (FIRST_BODY + 1) (MayBe (FIRST_BODY + 1) (D1.state old))
        (D1.state old) (D1.state (old_returned result)) }
    ensures old_same { (D1.state old).keeps ≡ true
        → seen_cells (FIRST_BODY + 1) (D1.state (old_returned result)) ≡ seen_cells (FIRST_BODY + 1) (D1.state old) }

    // And to the new one.
    ensures untouched { IfErr result (λ refused. refused.fault ≢ NewDisk → Reads false (D2.state new) (D2.state refused.new)) }
    ensures uncalled { IfErr result (λ refused. refused.fault ≢ NewDisk → refused.fault ≢ NewSize → refused.new ≡ new) }
    ensures new_counts { CountsUpTo (is_new_disk_refusal result) (6 + 3 * length (plant_of system.now).atoms)
        (D2.state new) (D2.state (new_returned result)) }
    ensures new_stops { (D1.state old).keeps ≡ true → (D2.state new).keeps ≡ true → (states : List Local) (number : ℕ)
        → OldStandsFor (plant_of system.now) (digest_of system.now) (size_of (D1.state old)) (seen_cells (FIRST_BODY + 1) (D1.state old)) states number
        → Leaves (BODY + 1) (IsWriting (plant_of system.now) (digest_of system.now) states number (D2.state new))
        (D2.state new) (D2.state (new_returned result)) }
    ensures migrated { (D1.state old).keeps ≡ true → (D2.state new).keeps ≡ true → IfOk result (λ pair. IsMigrated (plant_of system.now)
        (digest_of system.now) ring (old_contents (plant_of system.now) (seen_cells (FIRST_BODY + 1) (D1.state old))) (D2.state pair.1)) }
{
    let Ok(others) = other_cells(alloc, system, ring) else {
        return Err(MigrateRefused {
            old,
            new,
            fault: MigrateFault::Memory,
        });
    };
    let (old, judged) = judge_old(alloc, old, system);
    let standing = match judged {
        Ok(standing) => standing,
        Err(fault) => {
            return Err(MigrateRefused {
                old,
                new,
                fault: fault.into(),
            });
        }
    };
    // From here on no memory is asked for.
    let mut cells = Cells::new(new);
    let written = write_standing(&mut cells, system, ring, &standing, &others);
    let new = cells.into_disk();
    match written {
        Ok(()) => Ok((old, new)),
        Err(fault) => Err(MigrateRefused {
            old,
            new,
            fault: fault.into(),
        }),
    }
}

/// Writes what stands into the cells, if there are exactly as many as the plant and the ring ask for.
fn write_standing<D: Disk>(
    cells: &mut Cells<D>,
    system: &System,
    ring: u32,
    standing: &Standing,
    others: &[u64],
) -> Result<(), FormatFault>
    requires ring_from { LEAST_RING ≤ ring }
    requires ring_to { ring ≤ MOST_RING }
    requires base { 1 ≤ standing.now.held.base }
    requires room { HasRoom (plant_of system.now) standing.now.states standing.now.counts (last_number (contents_in standing.now.held)) }
    requires others { others.now ≡ range_with_len 1 (device_cells (length (plant_of system.now).atoms) ring - 1) }
    ensures sized { OnOk result (size_of cells.old ≡ formatted_size (plant_of system.now) ring) }
    ensures wrong_size { IfErr result (λ fault. fault ≡ FormatFault.WrongSize → size_of cells.old ≢ formatted_size (plant_of system.now) ring) }
    ensures untouched { IfErr result (λ fault. fault ≢ FormatFault.Disk → Reads false cells.old cells.new) }
    ensures memory { IfErr result (λ fault. fault ≢ FormatFault.Memory) }
    ensures counts { CountsUpTo (is_disk_error result) (6 + 3 * length (plant_of system.now).atoms) cells.old cells.new }
    ensures stops { cells.old.keeps ≡ true → Leaves (BODY + 1) (IsWriting (plant_of system.now) (digest_of system.now)
        standing.now.states (last_number (contents_in standing.now.held)) cells.old) cells.old cells.new }
    ensures written { cells.old.keeps ≡ true → OnOk result (HasWritten (plant_of system.now) (digest_of system.now) ring
        standing.now.states standing.now.counts (last_number (contents_in standing.now.held)) cells.new) }
{
    let held = &standing.held;
    let last = held.base + held.records.len() as u64 - 1;
    // A stop inside leaves what the device held, or an unformatted device, or the whole new image.
    write_image(
        cells,
        system,
        ring,
        &standing.states,
        &standing.counts,
        last,
        others,
    )
}
