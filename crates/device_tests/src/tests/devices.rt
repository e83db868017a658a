//! What a device in memory makes of fuses, stops and changes without room.
ghost use Rattle.std.specs.Prelude.{◌≡◌, ◌+◌, ◌≤◌, length, IfOk};
ghost use Rattle.disk_model.specs.DiskState.{size_of};
ghost use Rattle.disk_model.specs.MemDisk.{state_of};

use disk_model::{CELL, Disk, DiskFault, MemDisk, Tear};
use record_codec::ring::{IDENTITY_CELL, base_cell, device_cells, record_cell, slot_cell};
use std::alloc::{AllocError, Global};
use std::test::Fail;

// Calls of a device, of which contracts know its size alone.
fn new_disk(alloc: Global, size: u64, room: usize) -> Result<MemDisk, AllocError>
    ensures { IfOk result (λ d. size_of (state_of d) ≡ size) }
{
    MemDisk::new(alloc, size, room)
}

fn wrote(disk: &mut MemDisk, at: u64, from: &[u8]) -> bool
    requires { at + length from.now ≤ size_of (state_of disk.old) }
    ensures { size_of (state_of disk.new) ≡ size_of (state_of disk.old) }
{
    disk.write_at(at, from).is_ok()
}

fn synced(disk: &mut MemDisk) -> bool
    ensures { size_of (state_of disk.new) ≡ size_of (state_of disk.old) }
{
    disk.sync().is_ok()
}

fn answered_size(disk: &mut MemDisk) -> Option<u64>
    ensures { size_of (state_of disk.new) ≡ size_of (state_of disk.old) }
{
    disk.size().ok()
}

/// The first nine bytes.
fn front_of(disk: &mut MemDisk) -> Result<[u8; 9], DiskFault>
    requires { 9 ≤ size_of (state_of disk.old) }
    ensures { size_of (state_of disk.new) ≡ size_of (state_of disk.old) }
{
    let mut bytes = [0xEE; 9];
    disk.read_at(0, &mut bytes)?;
    Ok(bytes)
}

/// The same after a stop.
fn front_left(disk: MemDisk, tear: Tear) -> Result<[u8; 9], DiskFault>
    requires { 9 ≤ size_of (state_of disk) }
{
    front_of(&mut disk.stop(tear))
}

/// What a stop leaves of two written bytes in cell 0 and two in cell 1, where 0x11 stood at the last sync and 0x22 was written.
fn torn(alloc: Global, tear: Tear) -> Result<[u8; 9], Fail> {
    let mut disk = MemDisk::with_cells(alloc, 16, 8, 4)?;
    disk.write_at(0, &[0x11; 8])?;
    disk.sync()?;
    disk.write_at(2, &[0x22; 4])?;
    Ok(front_left(disk, tear)?)
}

#[test]
fn each_tear_makes_its_own_of_what_is_pending(rt: HostRuntime) -> Result<(), Fail> {
    for (tear, even, odd) in [
        (Tear::Old, 0x11, 0x11),
        (Tear::New, 0x22, 0x22),
        (Tear::Gates, 0xA5, 0xA5),
        (Tear::Mixed, 0x11, 0x22),
    ] {
        let wanted = [0x11, 0x11, even, even, odd, odd, 0x11, 0x11, 0];
        assert_eq!(rt; torn(rt.alloc(), tear)?, wanted);
    }
    Ok(())
}

/// A write that the fuse fails writes the first half of its bytes, and its whole range is pending.
#[test]
fn a_fuse_cuts_a_write_in_half(rt: HostRuntime) -> Result<(), Fail> {
    let mut disk = new_disk(rt.alloc(), 16, 8)?;
    disk.fuse_once(2);
    let answers = (answered_size(&mut disk), wrote(&mut disk, 1, &[7; 5]));
    let found = [front_of(&mut disk)?, front_left(disk, Tear::Gates)?];
    let wanted = [
        [0, 7, 7, 0, 0, 0, 0, 0, 0],
        [0, 0xA5, 0xA5, 0xA5, 0xA5, 0xA5, 0, 0, 0],
    ];
    assert_eq!(rt; (answers, found), ((Some(16), false), wanted));
    Ok(())
}

/// The second change fails and all calls after it, reads among them.
#[test]
fn a_fuse_counts_changes_alone(rt: HostRuntime) -> Result<(), Fail> {
    let mut disk = new_disk(rt.alloc(), 16, 8)?;
    disk.fuse_change(2);
    let before = (wrote(&mut disk, 0, &[1]), answered_size(&mut disk));
    let after = (synced(&mut disk), answered_size(&mut disk));
    assert_eq!(rt; (before, after), ((true, Some(16)), (false, None)));
    assert_eq!(rt; disk.changes(), 2);
    Ok(())
}

/// Past its room, and longer than 1,024 bytes, a change fails and changes nothing.
#[test]
fn a_change_past_the_room_changes_nothing(rt: HostRuntime) -> Result<(), Fail> {
    let mut disk = new_disk(rt.alloc(), 2048, 1)?;
    let answers = [
        wrote(&mut disk, 0, &[1; 1025]),
        wrote(&mut disk, 0, &[1; 2]),
        wrote(&mut disk, 0, &[2; 2]),
        synced(&mut disk),
    ];
    let front = front_of(&mut disk)?;
    assert_eq!(rt;
        (answers, front),
        ([false, true, false, false], [1, 1, 0, 0, 0, 0, 0, 0, 0])
    );
    Ok(())
}

/// The last byte of a device of so many bytes, which was written and synced, after a stop.
fn last_byte_left(alloc: Global, size: u64) -> Result<u8, Fail> {
    if size == 0 {
        return Err(Fail::new("no byte"));
    }
    let mut disk = MemDisk::with_cells(alloc, size, 2, CELL)?;
    disk.write_at(size - 1, &[7])?;
    disk.sync()?;
    let mut disk = disk.stop(Tear::Old);
    let mut byte = [0];
    disk.read_at(size - 1, &mut byte)?;
    Ok(byte[0])
}

/// The largest device that a plant can have: two slots for each of 64 atoms, and a ring of 4,096 records.
#[test]
fn there_is_memory_for_the_largest_device(rt: HostRuntime) -> Result<(), Fail> {
    let size = CELL * device_cells(64, 4096);
    let last = CELL * (record_cell(64, 4096, u64::MAX) + 1) - 1;
    assert_eq!(rt; (size, last), (4_328_448, 4_328_447));
    assert_eq!(rt; last_byte_left(rt.alloc(), size)?, 7);
    Ok(())
}

/// The device of the sample plant: two atoms, and a ring of eight records.
#[test]
fn the_sample_has_fifteen_cells(rt: HostRuntime) {
    let bases = [IDENTITY_CELL, base_cell(0), base_cell(1)];
    let slots = [
        slot_cell(0, 0),
        slot_cell(0, 1),
        slot_cell(1, 0),
        slot_cell(1, 1),
    ];
    let records = [
        record_cell(2, 8, 7),
        record_cell(2, 8, 8),
        record_cell(2, 8, 9),
    ];
    let found = (bases, slots, records, device_cells(2, 8));
    assert_eq!(rt; found, ([0, 1, 2], [3, 4, 5, 6], [14, 7, 8], 15));
}

#[test]
fn a_failure_is_answered(rt: HostRuntime) -> Result<(), Fail> {
    let said = DiskFault.to_string(rt.alloc())?;
    assert_eq!(rt; said.as_str(), "the device failed");
    Ok(())
}
