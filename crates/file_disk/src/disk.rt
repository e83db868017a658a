//! A device over an open file.
ghost use Rattle.std.specs.Prelude.{◌≡◌, ◌^◌, ◌<◌, ◌≤◌, IfOk, None};
ghost use Rattle.disk_model.specs.DiskState.{size_of, Counts};
ghost use Rattle.file_disk.specs.Gathered.{size_in, held_in, marks_on};
ghost use Rattle.file_disk.specs.Marks.{all_marked};
ghost use Rattle.file_disk.specs.Opened.{opened};
ghost use Rattle.file_disk.specs.declared.marks.TheConstants.{LARGEST_IMAGE};

use crate::gathered::Gathered;
use crate::image_file::another_file;
use crate::marks::LARGEST_IMAGE;
use disk_model::{Disk, DiskFault};
use std::alloc::{AllocError, Global};
use std::fs::OpenFile;
use std::io;
use std::os::unix::fs::FileExt;

/// A device over an open file. It reads the file once, and writes to it only in a sync; the first sync writes all of it anew. A call fails if the
/// file's does. Of a file with more than `LARGEST_IMAGE` bytes it holds none: each read is one of the file, and a write fails and changes nothing.
#[derive(Drop)]
pub struct FileDisk<F> {
    file: F,
    size: u64,
    failures: u64,
    /// Why the file failed last.
    failure: Option<io::Error>,
    syncs: u64,
    /// The bytes of the file, or no byte of one that is larger than the largest image.
    gathered: Gathered,
    ghost small: { size_of (opened size) < 2 ^ 64 },
    ghost whole: { size ≤ LARGEST_IMAGE → size_in gathered ≡ size },
    ghost larger: { LARGEST_IMAGE < size → held_in gathered ≡ None },
}

/// The memory for the bytes of a file that has so many.
pub(crate) fn room_for(alloc: Global, size: u64) -> Result<Gathered, AllocError>
    ensures size { IfOk result (λ all. size ≤ LARGEST_IMAGE → size_in all ≡ size) }
    ensures held { IfOk result (λ all. held_in all ≡ None) }
    ensures marks { IfOk result (λ all. size ≤ LARGEST_IMAGE → marks_on all ≡ all_marked size) }
{
    let kept = if size <= LARGEST_IMAGE { size } else { 0 };
    Gathered::new(alloc, kept as usize)
}

impl<F: FileExt + OpenFile> FileDisk<F> {
    ghost use Rattle.std.specs.Prelude.{ℕ, List, false, is_err, length, replicate, IsSome, OnOk, Some};
    ghost use Rattle.file_disk.specs.FileDisk.{state_of, file_of, held_by, unsaved_by, IsUnread};

    /// A device over a file that is open and has so many bytes. It takes no lock: that nothing else writes to the file is the
    /// caller's to see to.
    pub fn over(alloc: Global, file: F, size: u64) -> Result<FileDisk<F>, AllocError>
    where
        F: Drop,
        ensures device { IfOk result (λ disk. state_of disk ≡ opened size) }
        ensures unread { IfOk result IsUnread }
    {
        Ok(FileDisk::with(file, size, room_for(alloc, size)?))
    }

    /// The same, with memory that was taken for it.
    pub(crate) fn with(file: F, size: u64, gathered: Gathered) -> FileDisk<F>
        requires size { size ≤ LARGEST_IMAGE → size_in gathered ≡ size }
        requires held { held_in gathered ≡ None }
        ensures device { state_of result ≡ opened size }
        ensures held { held_by result ≡ None }
        ensures unsaved { unsaved_by result ≡ marks_on gathered }
    {
        FileDisk {
            file,
            size,
            failures: 0,
            failure: None,
            syncs: 0,
            gathered,
        }
    }

    /// Takes all marks away: the disk is supposed to have what a read of the file gives.
    pub(crate) fn suppose_saved(&mut self)
        ensures state { state_of self.new ≡ state_of self.old }
        ensures held { held_by self.new ≡ held_by self.old }
        ensures unsaved { unsaved_by self.new ≡ replicate (length (unsaved_by self.old)) false }
    {
        self.gathered.settle();
    }

    /// The file that it is over.
    pub fn file(&self) -> &F
        ensures { result.now ≡ file_of self.now }
    {
        &self.file
    }

    /// Why the file failed last, if it ever did: what the system told.
    pub fn failure(&self) -> Option<io::Error>
        ensures { result ≡ self.now.failure }
    {
        self.failure
    }

    /// Counts a failure, if it is one, and keeps what the system told.
    fn count(&mut self, answer: io::Result<()>) -> Result<(), DiskFault>
        ensures same { is_err result ≡ is_err answer }
        ensures counts { Counts (is_err answer) false (state_of self.old) (state_of self.new) }
        ensures held { held_by self.new ≡ held_by self.old }
        ensures unsaved { unsaved_by self.new ≡ unsaved_by self.old }
    {
        if let Err(failure) = answer {
            self.failure = Some(failure);
            self.failures = self.failures.saturating_add(1);
            return Err(DiskFault);
        }
        Ok(())
    }

    /// Writes to the file what the disk may not have, and syncs it. It fails, and writes nothing, if the file is another one now, or has another size.
    fn write_out(&mut self) -> io::Result<()>
        ensures state { state_of self.new ≡ state_of self.old }
        ensures read { OnOk result (size_of (state_of self.old) ≤ LARGEST_IMAGE → IsSome (held_by self.new)) }
        ensures held { (all : List ℕ) → held_by self.old ≡ Some all → held_by self.new ≡ Some all }
        ensures unsaved { unsaved_by self.new ≡ unsaved_by self.old }
    {
        if self.file.metadata()?.len() != self.size {
            return Err(another_file());
        }
        if self.size <= LARGEST_IMAGE {
            self.gathered.write_out(&self.file)?;
        }
        self.file.sync_data()
    }
}

// Each call has the clauses of the trait, which hold of every device, and beside them what it does to the bytes in memory and to their marks.
impl<F: FileExt + OpenFile> Disk for FileDisk<F> {
    ghost use Rattle.std.specs.Prelude.{ℕ, ◌+◌, ◌-◌, ◌/◌, true, false, List, length, take, drop, replicate, is_err, is_ok, IsErr, IsSome, IsSomeAnd, OnOk, OnErr, Some};
    ghost use Rattle.std.specs.Int.{div_ceil};
    ghost use Rattle.disk_model.specs.DiskState.{IsUnchanged, Writes, FailsToWrite, Syncs, overwritten};
    ghost use Rattle.file_disk.specs.FileDisk.{state_of, held_by, unsaved_by};
    ghost use Rattle.file_disk.specs.declared.gathered.TheConstants.{BLOCK};

    ghost state = { state_of };

    ghost fits = { λ d. d.small };

    fn size(&mut self) -> Result<u64, DiskFault> {
        Ok(self.size)
    }

    fn read_at(&mut self, at: u64, into: &mut [u8]) -> Result<(), DiskFault>
        requires { at + length into.old ≤ size_of (state_of self.old) }
        ensures bytes { (state_of self.old).keeps ≡ true → OnOk result (into.new ≡ take (length into.old) (drop at (state_of self.old).now.seen)) }
        ensures counts { Counts (is_err result) false (state_of self.old) (state_of self.new) }
        ensures same { (state_of self.old).keeps ≡ true → IsUnchanged (state_of self.old) (state_of self.new) }

        // If the file has no more bytes than the largest image.
        ensures given { size_of (state_of self.old) ≤ LARGEST_IMAGE → OnOk result (IsSomeAnd (held_by self.new) (λ all. into.new ≡ take (length into.old) (drop at all))) }
        ensures failed { OnErr result (held_by self.new ≡ None) }
        ensures held { (all : List ℕ) → held_by self.old ≡ Some all → held_by self.new ≡ Some all }
        ensures unsaved { unsaved_by self.new ≡ unsaved_by self.old }
    {
        let answer = if self.size <= LARGEST_IMAGE {
            self.gathered.read(&self.file, at as usize, into)
        } else {
            self.file.read_exact_at(into, at)
        };
        self.count(answer)
    }

    fn write_at(&mut self, at: u64, from: &[u8]) -> Result<(), DiskFault>
        requires { at + length from.now ≤ size_of (state_of self.old) }
        ensures ok { (state_of self.old).keeps ≡ true → OnOk result (Writes at from.now (state_of self.old) (state_of self.new)) }
        ensures err { (state_of self.old).keeps ≡ true → OnErr result (FailsToWrite at from.now (state_of self.old) (state_of self.new)) }
        ensures counts { Counts (is_err result) false (state_of self.old) (state_of self.new) }

        ensures too_large { LARGEST_IMAGE < size_of (state_of self.old) → IsErr result }
        ensures taken { OnOk result (IsSomeAnd (held_by self.new) (λ all. take (length from.now) (drop at all) ≡ from.now)) }
        ensures failed { OnErr result (held_by self.new ≡ None) }
        ensures held { (all : List ℕ) → held_by self.old ≡ Some all → held_by self.new ≡ Some (overwritten at from.now all) }
        ensures marked { OnOk result (unsaved_by self.new ≡ overwritten (at / BLOCK) (replicate (div_ceil (at + length from.now) BLOCK - at / BLOCK) true) (unsaved_by self.old)) }
        ensures unmarked { OnErr result (unsaved_by self.new ≡ unsaved_by self.old) }
    {
        if self.size > LARGEST_IMAGE {
            self.failures = self.failures.saturating_add(1);
            return Err(DiskFault);
        }
        let answer = self.gathered.write(&self.file, at as usize, from);
        self.count(answer)
    }

    fn sync(&mut self) -> Result<(), DiskFault>
        ensures ok { (state_of self.old).keeps ≡ true → OnOk result (Syncs (state_of self.old) (state_of self.new)) }
        ensures err { (state_of self.old).keeps ≡ true → OnErr result (IsUnchanged (state_of self.old) (state_of self.new)) }
        ensures counts { Counts (is_err result) (is_ok result) (state_of self.old) (state_of self.new) }

        // What goes out was read before: the first sync writes all bytes of the file, and each later one what was written since.
        ensures read { OnOk result (size_of (state_of self.old) ≤ LARGEST_IMAGE → IsSome (held_by self.new)) }
        ensures held { (all : List ℕ) → held_by self.old ≡ Some all → held_by self.new ≡ Some all }
        ensures saved { OnOk result (unsaved_by self.new ≡ replicate (length (unsaved_by self.old)) false) }
        ensures unsaved { OnErr result (unsaved_by self.new ≡ unsaved_by self.old) }
    {
        let answer = self.write_out();
        self.count(answer)?;
        self.gathered.settle();
        self.syncs = self.syncs.saturating_add(1);
        Ok(())
    }
}
