//! Bringing an image of the first layout over to a new one.
ghost use Rattle.std.specs.Prelude.{◌≡◌, ◌≢◌, ◌+◌, ◌≤◌, ℕ, true, IfErr, IfOk, OnOk, Err, None};
ghost use Rattle.std.specs.Io.KnownBytes.{Appends};
ghost use Rattle.plant_image.specs.Contents.{last_number};
ghost use Rattle.image_commands.specs.Seen.{plant_of, digest_of, LEAST_RING, MOST_RING, formatted_size, size_of, seen_cells, FIRST_BODY};
ghost use Rattle.image_commands.specs.Migrations.{IsEndingOfMigrate, StandsForContents, fault_of_old, held_by_old, migrated_line};
ghost use Rattle.image_commands.specs.declared.migrate_ending.MigrateRefusal.{MigrateRefusal};
ghost use Rattle.image_commands.specs.declared.migrate_ending.MigrateRefusal.TheVariants.{NewSize};
ghost use Rattle.image_commands.specs.declared.migrate_ending.MigrateEnding.TheVariants.{Refused};

use crate::booting::booted;
use crate::migrate_ending::{MigrateEnding, MigrateRefusal};
use disk_model::Disk;
use plant_model::System;
use recovery::migrate;
use std::alloc::Global;
use std::io::Write;
use std::thread::Threads;
use text_io::{WriteFault, end_line, hand_on, print_number, print_text};

/// Brings the image of the first layout that the old device holds over to the new one, with room for so many records, boots the plant from
/// it, and prints the number of the last record. The old device is only read; whatever the new one held is gone then.
pub fn migrate_image<R: Threads + Sync, D1: Disk + Drop, D2: Disk + Drop, W: Write>(
    rt: &R,
    alloc: Global,
    system: &System,
    ring: u32,
    old: D1,
    new: D2,
    output: &mut W,
) -> Result<(D1, D2), MigrateEnding>
    requires ring_from { LEAST_RING ≤ ring }
    requires ring_to { ring ≤ MOST_RING }
    ensures printed { (D1.state old).keeps ≡ true → (D2.state new).keeps ≡ true → OnOk result (Appends (W.contents output.old) (W.contents output.new)
        (migrated_line (last_number (held_by_old (plant_of system.now) (D1.state old))))) }
    ensures shape { OnOk result ((number : ℕ) × Appends (W.contents output.old) (W.contents output.new) (migrated_line number)) }
    ensures sound { (D1.state old).keeps ≡ true → OnOk result (fault_of_old (plant_of system.now) (digest_of system.now) (D1.state old) ≡ None) }
    ensures sized { OnOk result (size_of (D2.state new) ≡ formatted_size (plant_of system.now) ring) }
    ensures stands { (D1.state old).keeps ≡ true → (D2.state new).keeps ≡ true → IfOk result (λ pair. StandsForContents (plant_of system.now)
        (digest_of system.now) (held_by_old (plant_of system.now) (D1.state old)) (D2.state pair.1)) }
    ensures old_same { (D1.state old).keeps ≡ true → IfOk result (λ pair. seen_cells (FIRST_BODY + 1) (D1.state pair.0) ≡ seen_cells (FIRST_BODY + 1) (D1.state old)) }
    ensures ending { (D1.state old).keeps ≡ true → IfErr result (IsEndingOfMigrate (fault_of_old (plant_of system.now) (digest_of system.now) (D1.state old))) }
    ensures new_size { result ≡ Err (Refused NewSize) → size_of (D2.state new) ≢ formatted_size (plant_of system.now) ring }
    ensures nothing_printed { (refusal : MigrateRefusal) → result ≡ Err (Refused refusal) → output.new ≡ output.old }
{
    let (old, new) = match migrate(alloc, old, new, system, ring) {
        Ok(devices) => devices,
        Err(refused) => return Err(MigrateEnding::Refused(refused.fault.into())),
    };
    let plant = match booted(rt, alloc, system, new) {
        Ok(plant) => plant,
        Err(refusal) => return Err(MigrateEnding::Refused(MigrateRefusal::of_new(refusal))),
    };
    print_migrated(plant.front().acked, output)?;
    hand_on(output)?;
    plant.stands();
    Ok((old, plant.into_disk()))
}

/// Prints the number of the last record that an image holds.
fn print_migrated<W: Write>(number: u64, output: &mut W) -> Result<(), WriteFault>
    ensures { OnOk result (Appends (W.contents output.old) (W.contents output.new) (migrated_line number)) }
{
    print_text(output, b"migrated ")?;
    print_number(output, number)?;
    end_line(output)
}
