//! The cells of a device in memory, as a read gives them. Its calls are made at its own type: no contract of any device says that a call succeeds,
//! and this one's does while no fuse is set.
ghost use Rattle.std.specs.Prelude.{◌≡◌, ◌+◌, ◌<◌, ◌≤◌, length, take, drop, IfOk};
ghost use Rattle.crash_explorer.specs.Seen.{BODY, size_of, cell, cell_count, seen_cells, fuse_of, state_of, Off};
ghost use Rattle.crash_explorer.specs.Judging.{IsKept};

use disk_model::{BODY, CELL, CELL_LEN, Disk, MemDisk};
use std::alloc::{AllocError, Global};

/// The gate of a full cell.
const OPEN: u8 = 0xA5;

/// All cells.
pub(crate) fn load(alloc: Global, disk: &mut MemDisk) -> Result<Vec<Option<[u8; BODY]>>, AllocError>
    requires { fuse_of disk.old ≡ Off }
    ensures cells { IfOk result (λ cells. cells.items ≡ seen_cells (BODY + 1) (state_of disk.old)) }
    ensures kept { IsKept disk.old disk.new }
{
    let count = size(disk) / CELL;
    load_first(alloc, disk, count)
}

/// The first cells.
fn load_first(
    alloc: Global,
    disk: &mut MemDisk,
    count: u64,
) -> Result<Vec<Option<[u8; BODY]>>, AllocError>
    requires fuse { fuse_of disk.old ≡ Off }
    requires inside { count ≤ cell_count (BODY + 1) (state_of disk.old) }
    ensures cells { IfOk result (λ cells. cells.items ≡ take count (seen_cells (BODY + 1) (state_of disk.old))) }
    ensures kept { IsKept disk.old disk.new }
{
    let mut cells = Vec::with_capacity(alloc, count as usize)?;
    for k in 0..count {
        cells.push_reserved(load_cell(disk, k));
    }
    Ok(cells)
}

/// The body of cell `k`, where it is full.
fn load_cell(disk: &mut MemDisk, k: u64) -> Option<[u8; BODY]>
    requires fuse { fuse_of disk.old ≡ Off }
    requires inside { k < cell_count (BODY + 1) (state_of disk.old) }
    ensures cell { result ≡ cell (seen_cells (BODY + 1) (state_of disk.old)) k }
    ensures kept { IsKept disk.old disk.new }
{
    let mut whole = [0; CELL_LEN];
    read(disk, CELL * k, &mut whole);
    if whole[0] != OPEN {
        return None;
    }
    let mut body = [0; BODY];
    body.copy_from_slice(&whole[1..]);
    Some(body)
}

/// How many bytes the device has.
pub(crate) fn size(disk: &mut MemDisk) -> u64
    requires { fuse_of disk.old ≡ Off }
    ensures size { result ≡ size_of (state_of disk.old) }
    ensures kept { IsKept disk.old disk.new }
{
    disk.size().unwrap()
}

/// Fills `into` with the bytes from number `at` on.
fn read(disk: &mut MemDisk, at: u64, into: &mut [u8])
    requires fuse { fuse_of disk.old ≡ Off }
    requires inside { at + length into.old ≤ size_of (state_of disk.old) }
    ensures bytes { into.new ≡ take (length into.old) (drop at (state_of disk.old).now.seen) }
    ensures kept { IsKept disk.old disk.new }
{
    disk.read_at(at, into).unwrap();
}
