//! Loading the cells of a device, and judging what they stand for.
ghost use Rattle.std.specs.Prelude.{◌≡◌, ◌≤◌, true, length, take, IfErr, IfOk, OnOk, Option};
ghost use Rattle.plant_model.specs.declared.limits.TheConstants.{MAX_ATOMS};
ghost use Rattle.recovery.specs.Seen.{plant_of, digest_of, fault_of, ImageFault, MOST_RING, device_cells, Reads, size_of, cell_count, seen_cells};
ghost use Rattle.recovery.specs.Booting.{IsBootFault, has_failed, is_disk};
ghost use Rattle.recovery.specs.Judged.{WasReadOf};
ghost use Rattle.recovery.specs.Loading.{IsSynced, IsSyncedInPart, WasLoaded, WasLoadedOf};

use crate::fault::BootFault;
use crate::reading::ReadAsToday;
use disk_model::{BODY, CELL, Cells, Disk};
use plant_image::{Standing, read_image};
use plant_model::System;
use record_codec::MOST_RING;
use record_codec::ring::device_cells;
use std::alloc::Global;

/// What was loaded of a device.
#[derive(Drop)]
pub(crate) struct Loaded {
    /// How many bytes its cells take, as today's.
    pub(crate) bytes: u64,
    /// The cells that decide what it stands for, as today's.
    pub(crate) cells: Vec<Option<[u8; BODY]>>,
}

/// Syncs a device and loads what decides what it stands for. Nothing is written, and after it a stop leaves what a read gives.
pub(crate) fn load_synced<D: Disk>(
    alloc: Global,
    cells: &mut Cells<D>,
    system: &System,
) -> Result<Loaded, BootFault>
    ensures synced { OnOk result (IsSynced cells.old cells.new) }
    ensures failed { IfErr result (λ fault. IsSyncedInPart (is_disk fault) cells.old cells.new) }
    ensures loaded { IfOk result (WasLoaded (plant_of system.now) cells.new) }
    ensures silent { (found : Option ImageFault) → IfErr result (IsBootFault found) }
{
    cells.sync()?;
    load_all(alloc, cells, system)
}

/// What a device of either layout stands for, by what a read gives of it, or the first thing that is wrong with that. Only reading is done.
pub(crate) fn read<C: ReadAsToday>(
    alloc: Global,
    cells: &mut C,
    system: &System,
) -> Result<Standing, BootFault>
    ensures reads { Reads (has_failed result) (C.state cells.old) (C.state cells.new) }
    ensures read { IfOk result (WasReadOf (plant_of system.now) (digest_of system.now)
        (C.todays_bytes (size_of (C.state cells.old))) (C.state cells.old).keeps
        (C.todays (length (plant_of system.now).atoms) (seen_cells C.bytes_of_cell (C.state cells.old)))) }
    ensures refused { (C.state cells.old).keeps ≡ true
        → IfErr result (IsBootFault (fault_of (plant_of system.now) (digest_of system.now) (C.todays_bytes (size_of (C.state cells.old)))
        (C.todays (length (plant_of system.now).atoms) (seen_cells C.bytes_of_cell (C.state cells.old))))) }
{
    system.keeps_its_rules();
    let loaded = load_all(alloc, cells, system)?;
    Ok(read_image(alloc, system, loaded.bytes, &loaded.cells)?)
}

/// Loads what decides what a device of either layout stands for. Only reading is done.
fn load_all<C: ReadAsToday>(
    alloc: Global,
    cells: &mut C,
    system: &System,
) -> Result<Loaded, BootFault>
    ensures reads { Reads (has_failed result) (C.state cells.old) (C.state cells.new) }
    ensures loaded { IfOk result (WasLoadedOf (plant_of system.now)
        (C.todays_bytes (size_of (C.state cells.old))) (C.state cells.old).keeps
        (C.todays (length (plant_of system.now).atoms) (seen_cells C.bytes_of_cell (C.state cells.old)))) }
    ensures silent { (found : Option ImageFault) → IfErr result (IsBootFault found) }
{
    let bytes = cells.bytes()?;
    let list = load(alloc, cells, system, bytes)?;
    Ok(Loaded { bytes, cells: list })
}

/// The cells that decide what a device stands for whose cells take so many bytes as today's: all of them, or as many as any device for the
/// system has. One with more is of the wrong size by its first cell, and may be huge.
fn load<C: ReadAsToday>(
    alloc: Global,
    cells: &mut C,
    system: &System,
    bytes: u64,
) -> Result<Vec<Option<[u8; BODY]>>, BootFault>
    requires { bytes ≡ C.todays_bytes (size_of (C.state cells.old)) }
    ensures reads { Reads (has_failed result) (C.state cells.old) (C.state cells.new) }
    ensures silent { (found : Option ImageFault) → IfErr result (IsBootFault found) }
    ensures loaded { (C.state cells.old).keeps ≡ true
        → IfOk result (λ list. list.items ≡ take (device_cells (length (plant_of system.now).atoms) MOST_RING)
        (C.todays (length (plant_of system.now).atoms) (seen_cells C.bytes_of_cell (C.state cells.old)))) }
{
    system.keeps_its_rules();
    let atoms = system.atoms().len() as u16;
    let most = device_cells(atoms, MOST_RING);
    load_cells(alloc, cells, atoms, most.min(bytes / CELL))
}

/// The first cells of a device for so many atoms, as today's.
fn load_cells<C: ReadAsToday>(
    alloc: Global,
    cells: &mut C,
    atoms: u16,
    count: u64,
) -> Result<Vec<Option<[u8; BODY]>>, BootFault>
    requires inside { count ≤ cell_count C.bytes_of_cell (C.state cells.old) }
    requires few { count ≤ device_cells MAX_ATOMS MOST_RING }
    ensures reads { Reads (has_failed result) (C.state cells.old) (C.state cells.new) }
    ensures silent { (found : Option ImageFault) → IfErr result (IsBootFault found) }
    ensures loaded { (C.state cells.old).keeps ≡ true
        → IfOk result (λ list. list.items ≡ take count (C.todays atoms (seen_cells C.bytes_of_cell (C.state cells.old)))) }
{
    let mut list = Vec::with_capacity(alloc, count as usize)?;
    for k in 0..count {
        list.push_reserved(cells.load_cell(atoms, k)?);
    }
    Ok(list)
}
