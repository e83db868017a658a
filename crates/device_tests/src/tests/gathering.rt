//! What a device over a file asks of its file, and when.
ghost use Rattle.std.specs.Prelude.{◌≡◌, IfOk};
ghost use Rattle.disk_model.specs.DiskState.{size_of};
ghost use Rattle.file_disk.specs.FileDisk.{state_of};

use super::common::{MemoryFile, Opened, read_from, write_into};
use disk_model::{BODY, CELL, Cells, Disk};
use file_disk::FileDisk;
use std::alloc::Global;
use std::cell::Cell;
use std::io;
use std::os::unix::fs::FileExt;
use std::test::Fail;

/// The bytes of the file: eight cells.
const SIZE: usize = 8_192;

/// The first of these writes are noted.
const NOTED: usize = 4;

/// What was asked of a file.
#[derive(Clone, Copy, PartialEq, Eq)]
struct Asked {
    reads: u64,
    writes: usize,
    syncs: u64,
    /// Where each of the first writes began, and how many bytes it had.
    ranges: [(u64, usize); NOTED],
}

/// So many reads and syncs, and these writes.
fn calls(reads: u64, syncs: u64, writes: &[(u64, usize)]) -> Asked {
    let mut ranges = [(0, 0); NOTED];
    for (range, write) in ranges.iter_mut().zip(writes) {
        *range = *write;
    }
    Asked {
        reads,
        writes: writes.len(),
        syncs,
        ranges,
    }
}

/// A file in memory that notes what is asked of it.
#[derive(Drop)]
struct Watched {
    bytes: Cell<[u8; SIZE]>,
    asked: Cell<Asked>,
    fails_to_read: Cell<bool>,
    /// From this write on none succeeds.
    first_failing: Cell<usize>,
}

impl Watched {
    /// Each byte has the number of its block.
    fn new() -> Watched {
        let mut bytes = [0; SIZE];
        for i in 0..SIZE {
            bytes[i] = (i / 512) as u8;
        }
        Watched {
            bytes: Cell::new(bytes),
            asked: Cell::new(calls(0, 0, &[])),
            fails_to_read: Cell::new(false),
            first_failing: Cell::new(usize::MAX),
        }
    }

    /// What was asked since this was last called.
    fn take(&self) -> Asked {
        self.asked.replace(calls(0, 0, &[]))
    }
}

impl FileExt for Opened<'_, Watched> {
    fn read_at(&self, buf: &mut [u8], offset: u64) -> io::Result<usize> {
        let mut asked = self.0.asked.get();
        asked.reads = asked.reads.saturating_add(1);
        self.0.asked.set(asked);
        if self.0.fails_to_read.get() {
            return Err(io::ErrorKind::Other.into());
        }
        Ok(read_from(&self.0.bytes.get(), offset, buf))
    }

    fn write_at(&self, buf: &[u8], offset: u64) -> io::Result<usize> {
        let mut asked = self.0.asked.get();
        let number = asked.writes;
        if let Some(range) = asked.ranges.get_mut(number) {
            *range = (offset, buf.len());
        }
        asked.writes = number.saturating_add(1);
        self.0.asked.set(asked);
        if number >= self.0.first_failing.get() {
            return Err(io::ErrorKind::Other.into());
        }
        let mut bytes = self.0.bytes.get();
        let (_, count) = write_into(&mut bytes, offset, buf);
        self.0.bytes.set(bytes);
        Ok(count)
    }
}

impl MemoryFile for Watched {
    const BYTES: usize = SIZE;

    fn sync(&self) -> io::Result<()> {
        let mut asked = self.asked.get();
        asked.syncs = asked.syncs.saturating_add(1);
        self.asked.set(asked);
        Ok(())
    }
}

/// A device over the file, behind its first sync, which read and wrote all of it.
fn synced<'a>(alloc: Global, file: &'a Watched) -> Result<FileDisk<Opened<'a, Watched>>, Fail>
    ensures size { IfOk result (λ disk. size_of (state_of disk) ≡ SIZE) }
{
    let mut disk = FileDisk::over(alloc, Opened(file), SIZE as u64)?;
    disk.sync()?;
    if file.take() != calls(1, 1, &[(0, SIZE)]) {
        return Err(Fail::new("another first sync"));
    }
    Ok(disk)
}

/// As a boot does: a sync, the size, and cell after cell.
#[test]
fn a_boot_reads_the_file_once(rt: HostRuntime) -> Result<(), Fail> {
    let file = Watched::new();
    let mut cells = Cells::new(FileDisk::over(rt.alloc(), Opened(&file), SIZE as u64)?);
    let opened = file.take();
    cells.sync()?;
    if cells.size()? != SIZE as u64 {
        return Err(Fail::new("another size"));
    }
    let mut body = [0; BODY];
    let are_full = [
        cells.read_cell(0, &mut body)?,
        cells.read_cell(1, &mut body)?,
        cells.read_cell(7, &mut body)?,
    ];
    assert_eq!(rt; are_full, [false; 3]);
    assert!(rt; opened == calls(0, 0, &[]));
    assert!(rt; file.take() == calls(1, 1, &[(0, SIZE)]));
    Ok(())
}

/// The bodies go out before the first sync, and the gates before the second: of cells beside each other by one write each.
#[test]
fn a_batch_is_two_writes_and_two_syncs(rt: HostRuntime) -> Result<(), Fail> {
    let file = Watched::new();
    let mut cells = Cells::new(synced(rt.alloc(), &file)?);
    if cells.size()? / CELL <= 5 {
        return Err(Fail::new("a device of six cells at least"));
    }
    cells.set_run(&[2, 3, 4, 5], &[[7; BODY]; 4])?;
    assert!(rt; file.take() == calls(0, 2, &[(2_048, 4_096), (2_048, 3_584)]));
    let bytes = file.bytes.get();
    assert_eq!(rt; [bytes[2_047], bytes[2_048], bytes[2_049]], [3, 0xA5, 7]);
    assert_eq!(rt; [bytes[5_120], bytes[6_143], bytes[6_144]], [0xA5, 7, 12]);
    Ok(())
}

/// Where the ring begins again its cells are apart.
#[test]
fn a_batch_over_the_end_of_the_ring_is_four_writes(rt: HostRuntime) -> Result<(), Fail> {
    let file = Watched::new();
    let mut cells = Cells::new(synced(rt.alloc(), &file)?);
    if cells.size()? / CELL <= 7 {
        return Err(Fail::new("a device of eight cells at least"));
    }
    cells.set_run(&[6, 7, 1, 2], &[[7; BODY]; 4])?;
    let bodies = [(1_024, 2_048), (6_144, 2_048)];
    let gates = [(1_024, 1_536), (6_144, 1_536)];
    assert!(rt; file.take() == calls(0, 2, &[bodies[0], bodies[1], gates[0], gates[1]]));
    Ok(())
}

/// A block between two that were written goes out with them, and of two none: that would be a page in which nothing was written.
#[test]
fn two_blocks_between_are_not_written(rt: HostRuntime) -> Result<(), Fail> {
    let file = Watched::new();
    let mut disk = synced(rt.alloc(), &file)?;
    disk.write_at(511, &[1])?;
    disk.write_at(1_024, &[2])?;
    disk.write_at(2_560, &[3])?;
    disk.write_at(7_680, &[])?;
    disk.sync()?;
    assert!(rt; file.take() == calls(0, 1, &[(0, 1_536), (2_560, 512)]));
    disk.write_at(8_191, &[4])?;
    disk.sync()?;
    disk.sync()?;
    assert!(rt; file.take() == calls(0, 2, &[(7_680, 512)]));
    Ok(())
}

/// It is read from memory before it is in the file, and after.
#[test]
fn what_is_written_is_read_before_the_sync(rt: HostRuntime) -> Result<(), Fail> {
    let file = Watched::new();
    let mut disk = synced(rt.alloc(), &file)?;
    let (mut before, mut after) = ([9; 5], [9; 5]);
    disk.write_at(511, &[21, 22, 23])?;
    disk.read_at(510, &mut before)?;
    let written = file.bytes.get();
    disk.sync()?;
    disk.read_at(510, &mut after)?;
    let synced = file.bytes.get();
    assert_eq!(rt; [before, after], [[0, 21, 22, 23, 1]; 2]);
    assert_eq!(rt; [written[511], written[512], written[513]], [0, 1, 1]);
    assert_eq!(rt; [synced[511], synced[512], synced[513]], [21, 22, 23]);
    Ok(())
}

/// A sync ends at the first write that fails, and what it wrote before that is written again too.
#[test]
fn after_a_write_that_failed_all_is_written_again(rt: HostRuntime) -> Result<(), Fail> {
    let file = Watched::new();
    let mut disk = synced(rt.alloc(), &file)?;
    disk.write_at(0, &[21])?;
    disk.write_at(4_096, &[22])?;
    file.first_failing.set(1);
    let has_failed = disk.sync().is_err();
    let first = file.take();
    file.first_failing.set(usize::MAX);
    disk.sync()?;
    let ranges = [(0, 512), (4_096, 512)];
    assert!(rt; has_failed && disk.failure().is_some());
    assert!(rt; first == calls(0, 0, &ranges) && file.take() == calls(0, 1, &ranges));
    let bytes = file.bytes.get();
    assert_eq!(rt;
        [bytes[0], bytes[1], bytes[4_096], bytes[4_097]],
        [21, 0, 22, 8]
    );
    Ok(())
}

/// Nothing is read or written of a file that can't be read. The next call reads it.
#[test]
fn a_file_that_was_not_read_is_read_by_the_next_call(rt: HostRuntime) -> Result<(), Fail> {
    let file = Watched::new();
    let mut disk = FileDisk::over(rt.alloc(), Opened(&file), SIZE as u64)?;
    if disk.size()? != SIZE as u64 {
        return Err(Fail::new("another size"));
    }
    file.fails_to_read.set(true);
    let are_read = [
        disk.read_at(0, &mut [0; 2]).is_ok(),
        disk.write_at(0, &[21]).is_ok(),
        disk.sync().is_ok(),
    ];
    let failed = file.take();
    file.fails_to_read.set(false);
    let mut bytes = [9; 2];
    disk.read_at(511, &mut bytes)?;
    assert_eq!(rt; (are_read, bytes), ([false; 3], [0, 1]));
    assert!(rt; failed == calls(3, 0, &[]) && file.take() == calls(1, 0, &[]));
    Ok(())
}
