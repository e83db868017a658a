//! A device over a file that is open for reading alone.
ghost use Rattle.std.specs.Prelude.{◌≡◌, ◌+◌, ◌^◌, ◌<◌, ◌≤◌, true, false, length, is_err, is_ok, OnOk, OnErr, Err};
ghost use Rattle.disk_model.specs.DiskState.{size_of, Counts, IsUnchanged, Writes, FailsToWrite, Syncs};
ghost use Rattle.file_disk.specs.Opened.{opened};

use disk_model::{Disk, DiskFault};
use std::fs::File;
use std::os::unix::fs::FileExt;

/// A device over a file that is open for reading alone. A read fails if the file's does. A write or a sync fails, asks nothing of the file, and
/// changes nothing.
#[derive(Drop)]
pub struct FileView<F = File> {
    file: F,
    size: u64,
    failures: u64,
    ghost small: { size_of (opened size) < 2 ^ 64 },
}

impl<F: FileExt> FileView<F> {
    ghost use Rattle.file_disk.specs.FileView.{view_of};

    /// A device over a file that is open to be read and has so many bytes. It takes no lock: that nothing writes to the file is the caller's to see
    /// to.
    pub fn over(file: F, size: u64) -> FileView<F>
        ensures { view_of result ≡ opened size }
    {
        FileView {
            file,
            size,
            failures: 0,
        }
    }

    /// Counts a failure.
    fn fail(&mut self) -> DiskFault
        ensures counts { Counts true false (view_of self.old) (view_of self.new) }
        ensures same { IsUnchanged (view_of self.old) (view_of self.new) }
    {
        self.failures = self.failures.saturating_add(1);
        DiskFault
    }
}

impl<F: FileExt> Disk for FileView<F> {
    ghost use Rattle.std.specs.Prelude.{IsErr};
    ghost use Rattle.file_disk.specs.FileView.{view_of};

    ghost state = { view_of };

    ghost fits = { λ d. d.small };

    fn size(&mut self) -> Result<u64, DiskFault> {
        Ok(self.size)
    }

    fn read_at(&mut self, at: u64, into: &mut [u8]) -> Result<(), DiskFault> {
        if self.file.read_exact_at(into, at).is_err() {
            return Err(self.fail());
        }
        Ok(())
    }

    fn write_at(&mut self, at: u64, from: &[u8]) -> Result<(), DiskFault>
        ensures refused { IsErr result }
        ensures same { IsUnchanged (view_of self.old) (view_of self.new) }
        ensures ok { (view_of self.old).keeps ≡ true → OnOk result (Writes at from.now (view_of self.old) (view_of self.new)) }
        ensures err { (view_of self.old).keeps ≡ true → OnErr result (FailsToWrite at from.now (view_of self.old) (view_of self.new)) }
        ensures counts { Counts (is_err result) false (view_of self.old) (view_of self.new) }
    {
        Err(self.fail())
    }

    fn sync(&mut self) -> Result<(), DiskFault>
        ensures refused { IsErr result }
        ensures same { IsUnchanged (view_of self.old) (view_of self.new) }
        ensures ok { (view_of self.old).keeps ≡ true → OnOk result (Syncs (view_of self.old) (view_of self.new)) }
        ensures err { (view_of self.old).keeps ≡ true → OnErr result (IsUnchanged (view_of self.old) (view_of self.new)) }
        ensures counts { Counts (is_err result) (is_ok result) (view_of self.old) (view_of self.new) }
    {
        Err(self.fail())
    }
}
