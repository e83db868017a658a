//! Booting a plant from a device.
ghost use Rattle.std.specs.Prelude.{◌≡◌, ◌≢◌, ◌+◌, ◌≤◌, true, false, IfErr, IfOk, MatchResult, Option};
ghost use Rattle.plant_core.specs.Parts.{view_in};
ghost use Rattle.plant_core.specs.Plants.{definition_of, device_of, text_digest, view_of};
ghost use Rattle.parallel_replay.specs.declared.workers.TheConstants.{MOST_WORKERS};
ghost use Rattle.recovery.specs.Seen.{plant_of, digest_of, fault_of, ImageFault, CountsTwo, CountsUpTo, DiskState, IsSettled, size_of, Leaves, seen_cells};
ghost use Rattle.recovery.specs.Booting.{AreLeft, IsBooted, IsBooting, IsBootFault, is_disk};
ghost use Rattle.recovery.specs.MadeOf.{IsMadeOf, IsPreparedFor, WasRead};
ghost use Rattle.recovery.specs.Judged.{IsJudged};
ghost use Rattle.recovery.specs.Loading.{IsSynced, IsSyncedInPart, WasLoaded};
ghost use Rattle.recovery.specs.declared.fault.BootFault.TheVariants.{Disk as DiskFailed};

use crate::fault::{BootFault, BootRefused};
use crate::loading::{Loaded, load_synced};
use disk_model::{BODY, Cells, Disk};
use gated_journal::Journal;
use parallel_replay::{MOST_WORKERS, Turn, read_image_by};
use plant_core::{MOST_TAIL, Parts, Plant, Snapshots, marks_of};
use plant_image::{ImageFault, Standing, read_image};
use plant_model::System;
use snapshot_writer::Batch;
use std::alloc::{AllocError, Global};
use std::thread::Threads;
use step_executor::Executor;

/// The plant of the system that the device stands for, after any stop. It syncs the device, judges all that a read gives, and takes all
/// memory that the plant needs; only then the record cells that are not live are emptied, by a second sync. If it is refused the device
/// is handed back, and stands for what it stood for: no cell has changed, but that record cells which are not live may be empty if the device
/// failed.
pub fn boot<'s, D: Disk>(
    alloc: Global,
    disk: D,
    system: &'s System,
) -> Result<Plant<'s, D>, BootRefused<D>>
    ensures system { IfOk result (λ p. (definition_of p ≡ plant_of system.now) × (text_digest p ≡ digest_of system.now)) }
    ensures booted { (D.state disk).keeps ≡ true → IfOk result (λ p. IsBooted (plant_of system.now) (digest_of system.now)
        (size_of (D.state disk)) (seen_cells (BODY + 1) (D.state disk)) (view_of p)) }
    ensures refused { (D.state disk).keeps ≡ true → IfErr result (λ r. IsBootFault (fault_of (plant_of system.now) (digest_of system.now)
        (size_of (D.state disk)) (seen_cells (BODY + 1) (D.state disk))) r.fault) }
    ensures stops { (D.state disk).keeps ≡ true → MatchResult result
        (λ p. Leaves (BODY + 1) (IsBooting (plant_of system.now) (digest_of system.now) (D.state disk)) (D.state disk) (device_of p))
        (λ r. Leaves (BODY + 1) (IsBooting (plant_of system.now) (digest_of system.now) (D.state disk)) (D.state disk) (D.state r.disk)) }
    ensures untouched { (D.state disk).keeps ≡ true → IfErr result (λ r. r.fault ≢ DiskFailed
        → seen_cells (BODY + 1) (D.state r.disk) ≡ seen_cells (BODY + 1) (D.state disk)) }
    ensures left { (D.state disk).keeps ≡ true → IfErr result (λ r. AreLeft (plant_of system.now)
        (seen_cells (BODY + 1) (D.state disk)) (seen_cells (BODY + 1) (D.state r.disk))) }
    ensures cause { MatchResult result
        (λ p. CountsTwo true (D.state disk) (device_of p))
        (λ r. CountsUpTo (is_disk r.fault) 1 (D.state disk) (D.state r.disk)) }
{
    let (cells, loaded) = load_device(alloc, disk, system)?;
    let judged = read_image(alloc, system, loaded.bytes, &loaded.cells);
    finish(alloc, cells, system, loaded, judged)
}

/// The same plant by several workers, who replay the atoms at once: worker w those whose number leaves w when it is divided by the number of
/// workers, in a thread of its own if one can be made. Each tells `turn` before it replays an atom. It waits for all of them, and calls the
/// device from this thread alone.
pub fn boot_par<'s, D: Disk, R: Threads + Sync, T: Turn>(
    rt: &R,
    alloc: Global,
    disk: D,
    system: &'s System,
    workers: usize,
    turn: &T,
) -> Result<Plant<'s, D>, BootRefused<D>>
    requires some { 1 ≤ workers }
    requires few { workers ≤ MOST_WORKERS }
    ensures system { IfOk result (λ p. (definition_of p ≡ plant_of system.now) × (text_digest p ≡ digest_of system.now)) }
    ensures booted { (D.state disk).keeps ≡ true → IfOk result (λ p. IsBooted (plant_of system.now) (digest_of system.now)
        (size_of (D.state disk)) (seen_cells (BODY + 1) (D.state disk)) (view_of p)) }
    ensures refused { (D.state disk).keeps ≡ true → IfErr result (λ r. IsBootFault (fault_of (plant_of system.now) (digest_of system.now)
        (size_of (D.state disk)) (seen_cells (BODY + 1) (D.state disk))) r.fault) }
    ensures stops { (D.state disk).keeps ≡ true → MatchResult result
        (λ p. Leaves (BODY + 1) (IsBooting (plant_of system.now) (digest_of system.now) (D.state disk)) (D.state disk) (device_of p))
        (λ r. Leaves (BODY + 1) (IsBooting (plant_of system.now) (digest_of system.now) (D.state disk)) (D.state disk) (D.state r.disk)) }
    ensures untouched { (D.state disk).keeps ≡ true → IfErr result (λ r. r.fault ≢ DiskFailed
        → seen_cells (BODY + 1) (D.state r.disk) ≡ seen_cells (BODY + 1) (D.state disk)) }
    ensures left { (D.state disk).keeps ≡ true → IfErr result (λ r. AreLeft (plant_of system.now)
        (seen_cells (BODY + 1) (D.state disk)) (seen_cells (BODY + 1) (D.state r.disk))) }
    ensures cause { MatchResult result
        (λ p. CountsTwo true (D.state disk) (device_of p))
        (λ r. CountsUpTo (is_disk r.fault) 1 (D.state disk) (D.state r.disk)) }
{
    let (cells, loaded) = load_device(alloc, disk, system)?;
    let judged = read_image_by(
        rt,
        alloc,
        system,
        loaded.bytes,
        &loaded.cells,
        workers,
        turn,
    );
    finish(alloc, cells, system, loaded, judged)
}

/// Syncs the device and loads what decides what it stands for, and gives its cells, which are as they were then; or hands it back.
fn load_device<D: Disk>(
    alloc: Global,
    disk: D,
    system: &System,
) -> Result<(Cells<D>, Loaded), BootRefused<D>>
    ensures synced { IfOk result (λ pair. IsSynced (D.state disk) pair.0) }
    ensures failed { IfErr result (λ r. IsSyncedInPart (is_disk r.fault) (D.state disk) (D.state r.disk)) }
    ensures loaded { IfOk result (λ pair. WasLoaded (plant_of system.now) pair.0 pair.1) }
    ensures silent { (found : Option ImageFault) → IfErr result (λ r. IsBootFault found r.fault) }
{
    let mut cells = Cells::new(disk);
    match load_synced(alloc, &mut cells, system) {
        Ok(loaded) => Ok((cells, loaded)),
        Err(fault) => Err(BootRefused {
            disk: cells.into_disk(),
            fault,
        }),
    }
}

/// Makes the plant, if something stands; or hands the device back. Its clauses speak of whatever state the device was in before it was synced.
fn finish<'s, D: Disk>(
    alloc: Global,
    mut cells: Cells<D>,
    system: &'s System,
    loaded: Loaded,
    judged: Result<Standing, ImageFault>,
) -> Result<Plant<'s, D>, BootRefused<D>>
    requires settled { cells.keeps ≡ true → IsSettled cells.now }
    requires loaded { WasLoaded (plant_of system.now) cells loaded }
    requires judged { IsJudged (plant_of system.now) (digest_of system.now) loaded judged }
    ensures system { IfOk result (λ p. (definition_of p ≡ plant_of system.now) × (text_digest p ≡ digest_of system.now)) }
    ensures booted { (old : DiskState) → IsSynced old cells → old.keeps ≡ true → IfOk result (λ p. IsBooted (plant_of system.now)
        (digest_of system.now) (size_of old) (seen_cells (BODY + 1) old) (view_of p)) }
    ensures refused { (old : DiskState) → IsSynced old cells → old.keeps ≡ true → IfErr result (λ r. IsBootFault
        (fault_of (plant_of system.now) (digest_of system.now) (size_of old) (seen_cells (BODY + 1) old)) r.fault) }
    ensures stops { (old : DiskState) → IsSynced old cells → old.keeps ≡ true → MatchResult result
        (λ p. Leaves (BODY + 1) (IsBooting (plant_of system.now) (digest_of system.now) old) old (device_of p))
        (λ r. Leaves (BODY + 1) (IsBooting (plant_of system.now) (digest_of system.now) old) old (D.state r.disk)) }
    ensures untouched { (old : DiskState) → IsSynced old cells → old.keeps ≡ true → IfErr result (λ r. r.fault ≢ DiskFailed
        → seen_cells (BODY + 1) (D.state r.disk) ≡ seen_cells (BODY + 1) old) }
    ensures left { (old : DiskState) → IsSynced old cells → old.keeps ≡ true → IfErr result (λ r. AreLeft (plant_of system.now)
        (seen_cells (BODY + 1) old) (seen_cells (BODY + 1) (D.state r.disk))) }
    ensures cause { (old : DiskState) → IsSynced old cells → MatchResult result
        (λ p. CountsTwo true old (device_of p))
        (λ r. CountsUpTo (is_disk r.fault) 1 old (D.state r.disk)) }
{
    match prepare(alloc, &mut cells, system, &loaded, judged) {
        Ok(parts) => Ok(Plant::of(parts, cells)),
        Err(fault) => Err(BootRefused {
            disk: cells.into_disk(),
            fault,
        }),
    }
}

/// Takes the memory for what stands, and empties the record cells that are not live. What was loaded is lent up to the end: the device holds it still.
fn prepare<'s, D: Disk>(
    alloc: Global,
    cells: &mut Cells<D>,
    system: &'s System,
    loaded: &Loaded,
    judged: Result<Standing, ImageFault>,
) -> Result<Parts<'s>, BootFault>
    requires settled { cells.old.keeps ≡ true → IsSettled cells.old.now }
    requires loaded { WasLoaded (plant_of system.now) cells.old loaded.now }
    requires judged { IsJudged (plant_of system.now) (digest_of system.now) loaded.now judged }
    ensures prepared { IfOk result (IsPreparedFor system.now cells.new) }
    ensures booted { (old : DiskState) → IsSynced old cells.old → old.keeps ≡ true → IfOk result (λ parts. IsBooted (plant_of system.now)
        (digest_of system.now) (size_of old) (seen_cells (BODY + 1) old) (view_in parts)) }
    ensures refused { (old : DiskState) → IsSynced old cells.old → old.keeps ≡ true
        → IfErr result (IsBootFault (fault_of (plant_of system.now) (digest_of system.now) (size_of old) (seen_cells (BODY + 1) old))) }
    ensures stops { (old : DiskState) → IsSynced old cells.old → old.keeps ≡ true
        → Leaves (BODY + 1) (IsBooting (plant_of system.now) (digest_of system.now) old) old cells.new }
    ensures untouched { (old : DiskState) → IsSynced old cells.old → old.keeps ≡ true
        → IfErr result (λ fault. fault ≢ DiskFailed → seen_cells (BODY + 1) cells.new ≡ seen_cells (BODY + 1) old) }
    ensures left { (old : DiskState) → IsSynced old cells.old → old.keeps ≡ true
        → IfErr result (λ _. AreLeft (plant_of system.now) (seen_cells (BODY + 1) old) (seen_cells (BODY + 1) cells.new)) }
    ensures cause { (old : DiskState) → IsSynced old cells.old
        → MatchResult result (λ _. CountsTwo true old cells.new) (λ fault. CountsUpTo (is_disk fault) 1 old cells.new) }
{
    system.keeps_its_rules();
    let standing = judged?;
    let mut parts = take_memory(alloc, cells, system, standing)?;
    // A stop here leaves some of these cells full. None of them is live, so that the next boot reads the same.
    parts.journal.clean(cells, &loaded.cells)?;
    Ok(parts)
}

/// What a plant is made of that stands so. No call of the device is made, and no later call takes memory.
fn take_memory<'s, D: Disk>(
    alloc: Global,
    cells: &Cells<D>,
    system: &'s System,
    standing: Standing,
) -> Result<Parts<'s>, AllocError>
    requires { WasRead (plant_of system.now) (digest_of system.now) cells.now standing }
    ensures { IfOk result (IsMadeOf system.now standing) }
{
    system.keeps_its_rules();
    let Standing {
        held,
        states,
        counts,
    } = standing;
    let atoms = system.atoms().len() as u16;
    let last = held.base + held.records.len() as u64 - 1;
    let journal = Journal::of(
        alloc,
        cells,
        atoms,
        held.ring,
        held.base_cell,
        held.base,
        last,
    )?;
    let marks = marks_of(alloc, &held.records, held.ring)?;
    let snapshots = Snapshots::of(alloc, &held.slots)?;
    let executor = Executor::at(alloc, system, states)?;
    let tail = Vec::with_capacity(alloc, MOST_TAIL)?;
    let bodies = Vec::with_capacity(alloc, MOST_TAIL)?;
    let batch = Batch::of(alloc)?;
    Ok(Parts {
        executor,
        counts,
        tail,
        bodies,
        journal,
        marks,
        snapshots,
        batch,
    })
}
