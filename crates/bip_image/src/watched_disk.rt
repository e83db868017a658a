//! The device of an image, and why its file failed last.
ghost use Rattle.std.specs.Prelude.{◌^◌, ◌<◌};
ghost use Rattle.disk_model.specs.DiskState.{size_of};
ghost use Rattle.file_disk.specs.FileDisk.{state_of};

use crate::aside::Noted;
use disk_model::{Disk, DiskFault};
use file_disk::{FileDisk, ImageFile};
use std::rt::Files;

/// A device over a file. It does what that does, and notes outside itself why the file failed last: a task that ends early keeps no device.
#[derive(Drop)]
pub(crate) struct WatchedDisk<'a, 'n, R> {
    within: FileDisk<ImageFile<'a, R>>,
    noted: &'n Noted,
    ghost small: { size_of (state_of within) < 2 ^ 64 },
}

impl<'a, 'n, R: Files + AllocGlobal> WatchedDisk<'a, 'n, R> {
    /// This device, and where it notes why its file failed.
    pub(crate) fn new(within: FileDisk<ImageFile<'a, R>>, noted: &'n Noted) -> Self {
        WatchedDisk { within, noted }
    }

    /// Notes why the file failed last.
    fn note(&self) {
        self.noted.failure.set(self.within.failure());
    }
}

impl<'a, 'n, R: Files + AllocGlobal> Disk for WatchedDisk<'a, 'n, R> {
    ghost use Rattle.file_disk.specs.FileDisk.{state_of};

    ghost state = { λ d. state_of d.within };

    ghost fits = { λ d. d.small };

    fn size(&mut self) -> Result<u64, DiskFault> {
        self.within.size()
    }

    fn read_at(&mut self, at: u64, into: &mut [u8]) -> Result<(), DiskFault> {
        let answer = self.within.read_at(at, into);
        if answer.is_err() {
            self.note();
        }
        answer
    }

    fn write_at(&mut self, at: u64, from: &[u8]) -> Result<(), DiskFault> {
        let answer = self.within.write_at(at, from);
        if answer.is_err() {
            self.note();
        }
        answer
    }

    fn sync(&mut self) -> Result<(), DiskFault> {
        let answer = self.within.sync();
        if answer.is_err() {
            self.note();
        }
        answer
    }
}
