//! A device over a file, on files in the folder where the tests run, and on one in memory that forgets.
use super::common::{MemoryFile, Opened, read_from, write_into};
use disk_model::{BODY, CELL, Cells, Disk};
use file_disk::{FileDisk, FileFault, ImageFile, LARGEST_IMAGE, NewFile};
use record_codec::ring::device_cells;
use std::alloc::Global;
use std::cell::Cell;
use std::fs::{File, OpenOptions};
use std::os::unix::fs::FileExt;
use std::rt::Files;
use std::test::Fail;
use std::{fs, io};

/// The path of a test's file, where no file is.
fn fresh<'a>(rt: &impl Files, path: &'a str) -> &'a str {
    let _ = fs::remove_file(rt, path);
    path
}

/// The first and the last four of so many bytes.
fn ends<R: Files + AllocGlobal>(
    disk: &mut FileDisk<ImageFile<'_, R>>,
    bytes: u64,
) -> Result<[u8; 8], Fail> {
    let mut ends = [0xEE; 8];
    if disk.size()? != bytes || bytes < 4 {
        return Err(Fail::new("another size"));
    }
    disk.read_at(0, &mut ends[..4])?;
    disk.read_at(bytes - 4, &mut ends[4..])?;
    Ok(ends)
}

/// Why a file of so many bytes is not created, or `None` if it is.
fn refused_new<R: Files<File = File> + AllocGlobal>(
    rt: &R,
    path: &str,
    bytes: u64,
) -> Option<FileFault> {
    match NewFile::create(rt, path, bytes) {
        Ok(new) => {
            new.give_up();
            None
        }
        Err(fault) => Some(fault),
    }
}

/// Why the file is not opened, or `None` if it is.
fn refused<R: Files<File = File> + AllocGlobal>(rt: &R, path: &str) -> Option<FileFault> {
    ImageFile::open(rt, path).err()
}

/// How many bytes a file has that is created for so many, and whether they are zeros.
fn created(rt: &HostRuntime, path: &str, bytes: u64) -> Result<(u64, bool), Fail> {
    NewFile::create(rt, path, bytes)?.take_name()?;
    let found = fs::read(rt, path)?;
    fs::remove_file(rt, path)?;
    Ok((found.len() as u64, found.iter().all(|byte| *byte == 0)))
}

#[test]
fn a_created_file_has_its_size_and_zeros(rt: HostRuntime) -> Result<(), Fail> {
    let path = fresh(&rt, "file_disk_created");
    for bytes in [0, 1, 4_096, 7_681] {
        assert_eq!(rt; created(&rt, path, bytes)?, (bytes, true));
    }
    Ok(())
}

/// Writes the first four and the last four bytes of a device of 1,025.
fn write_ends<R: Files + AllocGlobal>(disk: &mut FileDisk<ImageFile<'_, R>>) -> Result<(), Fail> {
    if disk.size()? != 1_025 {
        return Err(Fail::new("another size"));
    }
    disk.write_at(0, &[1, 2, 3, 4])?;
    disk.write_at(1_021, &[5, 6, 7, 8])?;
    disk.sync()?;
    Ok(())
}

/// The same ends, behind a write to a new file, which then takes its name.
fn written(rt: &HostRuntime, path: &str) -> Result<[u8; 8], Fail> {
    let new = NewFile::create(rt, path, 1_025)?;
    match written_in(&new) {
        Ok(ends) => {
            new.take_name()?;
            Ok(ends)
        }
        Err(failed) => {
            new.give_up();
            Err(failed)
        }
    }
}

/// The ends of the new file, behind the write.
fn written_in(new: &NewFile<'_, HostRuntime>) -> Result<[u8; 8], Fail> {
    let mut disk = new.device()?;
    write_ends(&mut disk)?;
    ends(&mut disk, 1_025)
}

#[test]
fn what_is_written_is_read_after_reopening(rt: HostRuntime) -> Result<(), Fail> {
    let path = fresh(&rt, "file_disk_written");
    let before = written(&rt, path)?;
    let after = ends(&mut ImageFile::open(&rt, path)?, 1_025)?;
    fs::remove_file(&rt, path)?;
    assert_eq!(rt; [before, after], [[1, 2, 3, 4, 5, 6, 7, 8]; 2]);
    Ok(())
}

/// What is there already is left as it was.
#[test]
fn a_taken_name_is_refused(rt: HostRuntime) -> Result<(), Fail> {
    let path = fresh(&rt, "file_disk_taken");
    fs::write(&rt, path, "kept")?;
    let refused = refused_new(&rt, path, 512);
    let is_kept = fs::read(&rt, path)?.as_slice() == b"kept".as_slice();
    fs::remove_file(&rt, path)?;
    assert_eq!(rt; (refused, is_kept), (Some(FileFault::AlreadyThere), true));
    Ok(())
}

#[test]
fn what_is_no_file_is_refused(rt: HostRuntime) {
    let missing = fresh(&rt, "file_disk_missing");
    for (path, fault) in [
        (missing, FileFault::NotThere),
        (".", FileFault::NotAFile),
        ("/dev/null", FileFault::NotAFile),
        ("a\0b", FileFault::Unopened),
    ] {
        assert_eq!(rt; refused(&rt, path), Some(fault), "{path}");
    }
    let inside = refused_new(&rt, "file_disk_missing/image", 512);
    assert_eq!(rt; inside, Some(FileFault::NotThere));
}

/// A device may go from one thread to another.
fn sent<T: Send>(device: T) -> T {
    device
}

/// Why the file is not opened beside the device that has it open. That one is closed then.
fn refused_beside<R: Files<File = File> + AllocGlobal>(
    rt: &R,
    path: &str,
    device: FileDisk<ImageFile<'_, R>>,
) -> Option<FileFault> {
    let fault = refused(rt, path);
    drop(device);
    fault
}

/// Two programs are two openings: the lock is of an opening, and ends with it.
#[test]
fn a_file_is_open_once_at_a_time(rt: HostRuntime) -> Result<(), Fail> {
    let path = fresh(&rt, "file_disk_open");
    let new = NewFile::create(&rt, path, 512)?;
    let created = refused_new(&rt, path, 512);
    new.take_name()?;
    let opened = refused_beside(&rt, path, sent(ImageFile::open(&rt, path)?));
    let closed = refused(&rt, path);
    fs::remove_file(&rt, path)?;
    let in_use = Some(FileFault::InUse);
    assert_eq!(rt; [created, opened, closed], [in_use, in_use, None]);
    Ok(())
}

/// A file that a stop left while it was made is taken away, and its name stays free; one that is being made is not.
#[test]
fn what_a_stop_left_is_taken_away(rt: HostRuntime) -> Result<(), Fail> {
    let path = fresh(&rt, "file_disk_left");
    fs::write(&rt, "file_disk_left.kilnmace-unfinished", "a part")?;
    NewFile::create(&rt, path, 512)?.take_name()?;
    let made = fs::read(&rt, path)?.len();
    fs::write(&rt, "file_disk_left.kilnmace-unfinished", "a part")?;
    let refused = refused_new(&rt, path, 512);
    let is_left = fs::exists(&rt, "file_disk_left.kilnmace-unfinished")?;
    fs::remove_file(&rt, path)?;
    assert_eq!(rt;
        (made, refused, is_left),
        (512, Some(FileFault::AlreadyThere), false)
    );
    Ok(())
}

/// A name that is taken while the file is made stays with what took it.
#[test]
fn a_name_taken_meanwhile_is_left(rt: HostRuntime) -> Result<(), Fail> {
    let path = fresh(&rt, "file_disk_meanwhile");
    let new = NewFile::create(&rt, path, 512)?;
    let written = fs::write(&rt, path, "kept");
    let named = new.take_name();
    written?;
    let is_kept = fs::read(&rt, path)?.as_slice() == b"kept".as_slice();
    let is_left = fs::exists(&rt, "file_disk_meanwhile.kilnmace-unfinished")?;
    fs::remove_file(&rt, path)?;
    assert_eq!(rt;
        (named, is_kept, is_left),
        (Err(FileFault::AlreadyThere), true, false)
    );
    Ok(())
}

/// Whether the device of 512 bytes syncs.
fn syncs<R: Files + AllocGlobal>(disk: &mut FileDisk<ImageFile<'_, R>>) -> Result<bool, Fail> {
    if disk.size()? != 512 {
        return Err(Fail::new("another size"));
    }
    disk.write_at(0, &[1])?;
    Ok(disk.sync().is_ok())
}

/// No sync succeeds once the path names another file, or none, or the file has another size.
#[test]
fn a_file_that_is_taken_away_fails(rt: HostRuntime) -> Result<(), Fail> {
    let path = fresh(&rt, "file_disk_away");
    NewFile::create(&rt, path, 512)?.take_name()?;
    let mut disk = ImageFile::open(&rt, path)?;
    let before = syncs(&mut disk)?;
    fs::rename(&rt, path, "file_disk_moved")?;
    let moved = syncs(&mut disk)?;
    fs::copy(&rt, "file_disk_moved", path)?;
    let copied = syncs(&mut disk)?;
    fs::rename(&rt, "file_disk_moved", path)?;
    let back = syncs(&mut disk)?;
    set_length(&rt, path, 511)?;
    let cut = syncs(&mut disk)?;
    fs::remove_file(&rt, path)?;
    assert_eq!(rt;
        [before, moved, copied, back, cut],
        [true, false, false, true, false]
    );
    Ok(())
}

/// Gives the file another length, as another program would.
fn set_length(rt: &impl Files<File = File>, path: &str, bytes: u64) -> Result<(), Fail> {
    OpenOptions::new()
        .write(true)
        .open(rt, path)?
        .set_len(bytes)?;
    Ok(())
}

/// A new file of the largest image, of which the last byte is written.
fn new_largest<R: Files<File = File> + AllocGlobal>(rt: &R, path: &str) -> Result<(), Fail> {
    NewFile::create(rt, path, LARGEST_IMAGE)?.take_name()?;
    let mut disk = ImageFile::open(rt, path)?;
    if disk.size()? != LARGEST_IMAGE {
        return Err(Fail::new("another size"));
    }
    disk.write_at(LARGEST_IMAGE - 1, &[7])?;
    disk.sync()?;
    Ok(())
}

/// Whether the device of so many bytes takes a byte.
fn takes_a_byte<R: Files + AllocGlobal>(
    disk: &mut FileDisk<ImageFile<'_, R>>,
    bytes: u64,
) -> Result<bool, Fail> {
    if disk.size()? != bytes || bytes == 0 {
        return Err(Fail::new("another size"));
    }
    Ok(disk.write_at(0, &[1]).is_ok())
}

/// The largest image is that of 64 atoms and a ring of 4,096 records, in cells of 1,024 bytes; its last byte can be written.
#[test]
fn a_file_past_the_largest_image_is_only_read(rt: HostRuntime) -> Result<(), Fail> {
    let path = fresh(&rt, "file_disk_longer");
    let longer = LARGEST_IMAGE + 1;
    new_largest(&rt, path)?;
    set_length(&rt, path, longer)?;
    let mut disk = ImageFile::open(&rt, path)?;
    let before = ends(&mut disk, longer)?;
    let takes = takes_a_byte(&mut disk, longer)?;
    let after = ends(&mut disk, longer)?;
    fs::remove_file(&rt, path)?;
    let wanted = [0, 0, 0, 0, 0, 0, 7, 0];
    assert_eq!(rt; (before, takes, after), (wanted, false, wanted));
    Ok(())
}

#[test]
fn no_file_past_the_largest_image_is_created(rt: HostRuntime) {
    assert_eq!(rt; LARGEST_IMAGE, 1_024 * device_cells(64, 4_096));
    let path = fresh(&rt, "file_disk_too_large");
    let refused = refused_new(&rt, path, LARGEST_IMAGE + 1);
    assert_eq!(rt; refused, Some(FileFault::TooLarge));
}

/// Whether the first four bytes of a device of 512 can be read.
fn can_be_read<R: Files + AllocGlobal>(
    disk: &mut FileDisk<ImageFile<'_, R>>,
) -> Result<bool, Fail> {
    if disk.size()? != 512 {
        return Err(Fail::new("another size"));
    }
    Ok(disk.read_at(0, &mut [0; 4]).is_ok())
}

/// A file that another program has made shorter behind the device's back keeps its size and fails.
#[test]
fn a_read_past_the_end_fails(rt: HostRuntime) -> Result<(), Fail> {
    let path = fresh(&rt, "file_disk_cut");
    NewFile::create(&rt, path, 512)?.take_name()?;
    let mut disk = ImageFile::open(&rt, path)?;
    set_length(&rt, path, 3)?;
    let can_be_read = can_be_read(&mut disk)?;
    fs::remove_file(&rt, path)?;
    assert!(rt; !can_be_read);
    Ok(())
}

/// The body of cell 2, if it is full. Then it is filled.
fn filled<R: Files + AllocGlobal>(
    disk: FileDisk<ImageFile<'_, R>>,
) -> Result<Option<[u8; BODY]>, Fail> {
    let mut cells = Cells::new(disk);
    if cells.size()? / CELL <= 2 {
        return Err(Fail::new("a device of three cells at least"));
    }
    let mut body = [0; BODY];
    let is_full = cells.read_cell(2, &mut body)?;
    cells.sync()?;
    cells.replace(2, &[7; BODY])?;
    Ok(is_full.then_some(body))
}

/// Cells stand on it as on any device.
#[test]
fn a_cell_is_full_after_reopening(rt: HostRuntime) -> Result<(), Fail> {
    let path = fresh(&rt, "file_disk_cells");
    NewFile::create(&rt, path, 4 * CELL)?.take_name()?;
    let first = filled(ImageFile::open(&rt, path)?)?;
    let second = filled(ImageFile::open(&rt, path)?)?;
    fs::remove_file(&rt, path)?;
    assert!(rt; [first, second] == [None, Some([7; BODY])]);
    Ok(())
}

/// The bytes of a file in memory: two blocks and a part of one.
const SIZE: usize = 1_100;

/// A file in memory of which a failed sync forgets what it did not save.
#[derive(Drop)]
struct Forgetful {
    /// What a read gives.
    seen: Cell<[u8; SIZE]>,
    /// Each byte that was written since the last sync, failed or not.
    written: Cell<[bool; SIZE]>,
    /// What is on the disk.
    disk: Cell<[u8; SIZE]>,
    /// Each byte that the last sync which succeeded put there.
    saved: Cell<[bool; SIZE]>,
    fails: Cell<bool>,
}

impl Forgetful {
    /// A read gives a byte that the disk does not have: a sync of an earlier program forgot it.
    fn new() -> Forgetful {
        let mut seen = [0; SIZE];
        seen[700] = 9;
        Forgetful {
            seen: Cell::new(seen),
            written: Cell::new([false; SIZE]),
            disk: Cell::new([0; SIZE]),
            saved: Cell::new([false; SIZE]),
            fails: Cell::new(false),
        }
    }

    /// Puts what was written on the disk.
    fn save(&self) {
        let (seen, written) = (self.seen.get(), self.written.get());
        let mut disk = self.disk.get();
        for i in 0..SIZE {
            if written[i] {
                disk[i] = seen[i];
            }
        }
        self.disk.set(disk);
        self.saved.set(written);
    }
}

impl FileExt for Opened<'_, Forgetful> {
    fn read_at(&self, buf: &mut [u8], offset: u64) -> io::Result<usize> {
        Ok(read_from(&self.0.seen.get(), offset, buf))
    }

    fn write_at(&self, buf: &[u8], offset: u64) -> io::Result<usize> {
        let (mut bytes, mut written) = (self.0.seen.get(), self.0.written.get());
        let (at, count) = write_into(&mut bytes, offset, buf);
        written[at..at + count].fill(true);
        self.0.seen.set(bytes);
        self.0.written.set(written);
        Ok(count)
    }
}

impl MemoryFile for Forgetful {
    const BYTES: usize = SIZE;

    fn sync(&self) -> io::Result<()> {
        let fails = self.fails.get();
        if !fails {
            self.save();
        }
        self.written.set([false; SIZE]);
        if fails {
            return Err(io::ErrorKind::Other.into());
        }
        Ok(())
    }
}

/// The bytes from one number to another.
fn range(from: usize, to: usize) -> [bool; SIZE] {
    let mut range = [false; SIZE];
    for i in from..to {
        if let Some(byte) = range.get_mut(i) {
            *byte = true;
        }
    }
    range
}

/// A write and a sync after it.
#[derive(Drop)]
struct Round {
    at: u64,
    bytes: &'static [u8],
    fails: bool,
    /// Which bytes the last sync that succeeded put on the disk.
    saved: (usize, usize),
}

impl Round {
    const fn new(at: u64, bytes: &'static [u8], fails: bool, saved: (usize, usize)) -> Round {
        Round {
            at,
            bytes,
            fails,
            saved,
        }
    }
}

/// Makes the round, and says whether the sync did as the file. What is read stands on the disk then if and only if it succeeded.
fn is_right(
    disk: &mut FileDisk<Opened<'_, Forgetful>>,
    file: &Forgetful,
    round: &Round,
) -> Result<bool, Fail> {
    if round.bytes.len() > SIZE || round.at > SIZE as u64 - round.bytes.len() as u64 {
        return Err(Fail::new("past the end"));
    }
    if disk.size()? != SIZE as u64 {
        return Err(Fail::new("another size"));
    }
    disk.write_at(round.at, round.bytes)?;
    file.fails.set(round.fails);
    let is_synced = disk.sync().is_ok();
    let (from, to) = round.saved;
    let is_on_disk = file.disk.get() == file.seen.get();
    Ok(is_synced != round.fails && is_on_disk != round.fails && file.saved.get() == range(from, to))
}

/// The number of the first round that is not right.
fn first_wrong(alloc: Global, rounds: &[Round]) -> Result<Option<usize>, Fail> {
    let file = Forgetful::new();
    let mut disk = FileDisk::over(alloc, Opened(&file), SIZE as u64)?;
    for (number, round) in rounds.iter().enumerate() {
        if !is_right(&mut disk, &file, round)? {
            return Ok(Some(number));
        }
    }
    Ok(None)
}

/// The first sync writes all. After failed syncs the next one writes again each block that was written since the last that succeeded, and no other: block 1, and
/// block 2, of which the file has 76 bytes.
#[test]
fn what_a_failed_sync_forgets_is_written_again(rt: HostRuntime) -> Result<(), Fail> {
    let rounds = [
        Round::new(0, &[1; 512], false, (0, SIZE)),
        Round::new(513, &[2; 511], true, (0, SIZE)),
        Round::new(1_024, &[3], true, (0, SIZE)),
        Round::new(1_099, &[4], false, (512, SIZE)),
        Round::new(0, &[], false, (0, 0)),
    ];
    assert_eq!(rt; first_wrong(rt.alloc(), &rounds)?, None);
    Ok(())
}

/// What a failed sync of an earlier program forgot is written anew by the first sync, though nothing was written since.
#[test]
fn the_first_sync_writes_all(rt: HostRuntime) -> Result<(), Fail> {
    let rounds = [
        Round::new(0, &[], true, (0, 0)),
        Round::new(0, &[], false, (0, SIZE)),
        Round::new(0, &[], false, (0, 0)),
    ];
    assert_eq!(rt; first_wrong(rt.alloc(), &rounds)?, None);
    Ok(())
}

/// A gate is written again with its block.
#[test]
fn a_gate_is_written_again_with_its_block(rt: HostRuntime) -> Result<(), Fail> {
    let rounds = [
        Round::new(0, &[], false, (0, SIZE)),
        Round::new(512, &[0xA5], true, (0, SIZE)),
        Round::new(0, &[], false, (512, 1_024)),
    ];
    assert_eq!(rt; first_wrong(rt.alloc(), &rounds)?, None);
    Ok(())
}

/// What is printed for a user.
#[test]
fn a_fault_is_printed(rt: HostRuntime) -> Result<(), Fail> {
    for (fault, text) in [
        (FileFault::TooLarge, "an image has at most 4328448 bytes"),
        (FileFault::Memory, "no memory for its bytes"),
        (FileFault::InUse, "in use: end the program that has it open"),
    ] {
        let said = fault.to_string(rt.alloc())?;
        assert_eq!(rt; said.as_str(), text);
    }
    Ok(())
}
