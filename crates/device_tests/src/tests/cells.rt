//! What a stop leaves, call by call, on devices of five cells. The bodies of the cells are of one byte all through.
ghost use Rattle.std.specs.Prelude.{◌≡◌, IfOk, ◌+◌, ◌<◌, ◌∷◌, [], true};
ghost use Rattle.disk_model.specs.DiskState.{IsSettled, size_of};
ghost use Rattle.disk_model.specs.Cells.{cell_count, seen_cells, Leaves, OldOrEmptyAt};
ghost use Rattle.disk_model.specs.MemDisk.{state_of};

use super::common::TEARS;
use disk_model::{BODY, CELL, Cells, Disk, DiskFault, MemDisk, Tear};
use std::alloc::Global;
use std::process::Abort;
use std::test::Fail;

type Engine = Cells<MemDisk>;

fn check_whole(rt: &impl Abort, body: &[u8; BODY]) {
    for byte in body {
        assert!(rt; *byte == body[0], "a body is torn");
    }
}

/// The byte of each body, and 0 for an empty cell.
fn seen(rt: &impl Abort, disk: MemDisk) -> Result<[u8; 5], DiskFault>
    requires { size_of (state_of disk) ≡ 5120 }
{
    let mut cells = Engine::new(disk);
    let mut all = [0; 5];
    for k in 0..5 {
        let mut body = [0; BODY];
        if cells.read_cell(k as u64, &mut body)? {
            check_whole(rt, &body);
            all[k] = body[0];
        }
    }
    Ok(all)
}

/// Cells 1 to 4 are full, with bodies of 1 to 4.
fn filled(alloc: Global) -> Result<MemDisk, Fail>
    ensures { IfOk result (λ d. size_of (state_of d) ≡ 5120) }
{
    let mut disk = MemDisk::with_cells(alloc, 5 * CELL, 64, CELL)?;
    for k in 1..5 {
        disk.write_at(CELL * k, &[0xA5])?;
        disk.write_at(CELL * k + 1, &[k as u8; BODY])?;
    }
    disk.sync()?;
    Ok(disk)
}

/// Which call is stopped, and the number of its device calls.
#[derive(Clone, Copy)]
enum Call {
    Erase,
    EraseRun,
    Set,
    SetRun,
}

/// Makes the call on cells 1 to 3, or on cell 2 alone, with the device dead from its `k`-th device call on.
fn stopped(disk: MemDisk, call: Call, k: u64) -> Result<(bool, MemDisk), DiskFault>
    requires { size_of (state_of disk) ≡ 5120 }
    ensures { IfOk result (λ r. size_of (state_of r.1) ≡ 5120) }
{
    match call {
        Call::Erase => {
            let mut disk = disk;
            disk.fuse_dead(k);
            let mut cells = Engine::new(disk);
            let ok = cells.erase(2).is_ok();
            Ok((ok, cells.into_disk()))
        }
        Call::EraseRun => {
            let mut disk = disk;
            disk.fuse_dead(k);
            let mut cells = Engine::new(disk);
            let ok = cells.erase_run(&[1, 2, 3]).is_ok();
            Ok((ok, cells.into_disk()))
        }
        Call::Set => {
            let mut cells = Engine::new(disk);
            cells.erase(2)?;
            let mut disk = cells.into_disk();
            disk.fuse_dead(k);
            let mut cells = Engine::new(disk);
            let ok = cells.set(2, &[12; BODY]).is_ok();
            Ok((ok, cells.into_disk()))
        }
        Call::SetRun => {
            let mut cells = Engine::new(disk);
            cells.erase_run(&[1, 2, 3])?;
            let mut disk = cells.into_disk();
            disk.fuse_dead(k);
            let mut cells = Engine::new(disk);
            let ok = cells
                .set_run(&[1, 2, 3], &[[11; BODY], [12; BODY], [13; BODY]])
                .is_ok();
            Ok((ok, cells.into_disk()))
        }
    }
}

/// What the cells may be after a stop inside the call: of each cell two values. The last is that of a call that ended.
fn allowed(call: Call) -> [(u8, u8); 5] {
    match call {
        Call::Erase => [(0, 0), (1, 1), (2, 0), (3, 3), (4, 4)],
        Call::EraseRun => [(0, 0), (1, 0), (2, 0), (3, 0), (4, 4)],
        Call::Set => [(0, 0), (1, 1), (0, 12), (3, 3), (4, 4)],
        Call::SetRun => [(0, 0), (0, 11), (0, 12), (0, 13), (4, 4)],
    }
}

/// Whether the cells are what a stop may leave, and if the call ended what they have to be.
fn is_right(call: Call, ok: bool, cells: &[u8; 5]) -> bool {
    for (cell, (before, after)) in cells.iter().zip(&allowed(call)) {
        if cell != after && (ok || cell != before) {
            return false;
        }
    }
    true
}

/// What the cells are after the call, stopped at its `k`-th device call under this tear, and whether it ended before.
fn left_by(
    rt: &impl Abort,
    alloc: Global,
    call: Call,
    k: u64,
    tear: Tear,
) -> Result<(bool, [u8; 5]), Fail> {
    let (ok, disk) = stopped(filled(alloc)?, call, k)?;
    Ok((ok, seen(rt, disk.stop(tear))?))
}

/// Stops the call at its `k`-th device call under each tear, and says whether it ended before, and how many stops fell inside.
fn ends_before(rt: &impl Abort, alloc: Global, call: Call, k: u64) -> Result<(bool, u64), Fail> {
    let mut ended = false;
    let mut stops = 0u64;
    for tear in TEARS {
        let (ok, cells) = left_by(rt, alloc, call, k, tear)?;
        assert!(rt; is_right(call, ok, &cells), "device call {k}");
        stops = stops.saturating_add(u64::from(!ok));
        ended = ok;
    }
    Ok((ended, stops))
}

/// How many device calls the call makes, and how many stops were tried inside it.
fn device_calls(rt: &impl Abort, alloc: Global, call: Call) -> Result<(u64, u64), Fail> {
    let mut all = 0u64;
    for k in 1..20 {
        let (ended, stops) = ends_before(rt, alloc, call, k)?;
        all = all.saturating_add(stops);
        if ended {
            return Ok((k - 1, all));
        }
    }
    Ok((0, all))
}

#[test]
fn a_stop_leaves_each_cell_old_or_empty_or_new(rt: HostRuntime) -> Result<(), Fail> {
    // erase: read, write, sync. set: write, sync, write, sync. The runs: 3 * 2 + 1 and 3 + 1 + 3 + 1. In all 4 * 22 stops.
    for (call, calls, stops) in [
        (Call::Erase, 3, 12),
        (Call::EraseRun, 7, 28),
        (Call::Set, 4, 16),
        (Call::SetRun, 8, 32),
    ] {
        assert_eq!(rt; device_calls(&rt, rt.alloc(), call)?, (calls, stops));
    }
    Ok(())
}

/// Empties a full cell and an empty one.
fn two_erased(disk: MemDisk) -> Result<MemDisk, DiskFault>
    requires { size_of (state_of disk) ≡ 5120 }
    ensures { IfOk result (λ d. size_of (state_of d) ≡ 5120) }
{
    let mut cells = Engine::new(disk);
    cells.erase(2)?;
    cells.erase(0)?;
    Ok(cells.into_disk())
}

/// The gate of cell 2.
fn gate_in(disk: MemDisk) -> Result<u8, DiskFault>
    requires { size_of (state_of disk) ≡ 5120 }
{
    let mut disk = disk;
    let mut gate = [7];
    disk.read_at(2 * CELL, &mut gate)?;
    Ok(gate[0])
}

/// Of a full cell the gate is written, as 0; of an empty one nothing is.
#[test]
fn an_erase_writes_a_gate_or_only_syncs(rt: HostRuntime) -> Result<(), Fail> {
    let disk = two_erased(filled(rt.alloc())?)?;
    // Eight writes and a sync fill it; then a gate and a sync, and a sync alone.
    assert_eq!(rt; (disk.changes(), gate_in(disk)?), (9 + 2 + 1, 0));
    Ok(())
}

/// Empties cell `k` and answers the size: a caller that knows only that there is a device.
fn emptied<D: Disk>(cells: &mut Cells<D>, k: u64) -> Result<u64, DiskFault>
    requires inside { k < cell_count (BODY + 1) cells.old }
    requires settled { cells.old.keeps ≡ true → IsSettled cells.old.now }
    ensures size { IfOk result (λ n. n ≡ size_of cells.old) }
    ensures same_size { size_of cells.new ≡ size_of cells.old }
    ensures leaves { cells.old.keeps ≡ true
        → Leaves (BODY + 1) (OldOrEmptyAt (k ∷ []) (seen_cells (BODY + 1) cells.old)) cells.old cells.new }
{
    let size = cells.size()?;
    cells.erase(k)?;
    Ok(size)
}

/// Empties cell 1 by that caller.
fn first_emptied(disk: MemDisk) -> Result<(u64, MemDisk), DiskFault>
    requires { size_of (state_of disk) ≡ 5120 }
    ensures { IfOk result (λ r. size_of (state_of r.1) ≡ 5120) }
{
    let mut cells = Engine::new(disk);
    cells.sync()?;
    let size = emptied(&mut cells, 1)?;
    Ok((size, cells.into_disk()))
}

#[test]
fn cells_of_any_device_are_emptied(rt: HostRuntime) -> Result<(), Fail> {
    let (size, disk) = first_emptied(filled(rt.alloc())?)?;
    assert_eq!(rt; (size, seen(&rt, disk)?), (5120, [0, 0, 2, 3, 4]));
    Ok(())
}
