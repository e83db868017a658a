//! A device in memory, at the engine's cells, that remembers which of its writes and syncs was the first to fail.
ghost use Rattle.std.specs.Prelude.{◌≡◌, ◌+◌, ◌-◌, ◌^◌, ◌<◌, ◌≤◌, MatchOption, None, Some};
ghost use Rattle.crash_explorer.specs.Seen.{BODY, size_of, cell_of, changes_of, state_of};
ghost use Rattle.crash_explorer.specs.Watching.{IsCountable, IsStoppedAt, IsWhole, cut_of};
ghost use Rattle.crash_explorer.specs.declared.watched.Cut.{Cut};

use disk_model::{CELL, Disk, DiskFault, MemDisk};

/// What of a device a stop falls in.
#[derive(Clone, Copy, Debug, PartialEq, Eq)]
pub enum Cut {
    /// A write of the gate of the cell with this number.
    Gate(u64),
    /// A write of the body of the cell with this number.
    Body(u64),
    /// A sync.
    Sync,
}

impl Cut {
    /// That of a write of so many bytes from number `at` on: one of one byte where a cell begins is of its gate.
    fn of_write(at: u64, count: usize) -> Cut
        ensures { result ≡ cut_of at count }
    {
        let cell = at / CELL;
        if at % CELL == 0 && count == 1 {
            Cut::Gate(cell)
        } else {
            Cut::Body(cell)
        }
    }
}

/// A device in memory, and the first write or sync of it that failed.
#[derive(Drop)]
pub(crate) struct Watched {
    disk: MemDisk,
    cut: Option<Cut>,
    /// How many writes and syncs had been asked for when it failed, with that one; 0 before.
    asked: u64,
    ghost small: { size_of (state_of disk) < 2 ^ 64 },
    ghost cells: { cell_of disk ≡ BODY + 1 },
    ghost whole: { cut ≡ None → IsWhole disk },
    ghost counted: { asked < 2 ^ 64 },
    ghost since: { asked ≤ changes_of disk },
    ghost stopped: { (c : Cut) → cut ≡ Some c → asked < 2 ^ 64 - 1 → changes_of disk ≡ asked → ∥ IsStoppedAt asked c disk ∥₁ },
    ghost countable: { IsCountable disk },
}

impl Watched {
    pub(crate) fn over(disk: MemDisk) -> Watched
        requires cells { cell_of disk ≡ BODY + 1 }
        requires whole { IsWhole disk }
        requires countable { IsCountable disk }
        ensures { result.disk ≡ disk }
    {
        Watched {
            disk,
            cut: None,
            asked: 0,
        }
    }

    /// What failed first, if anything did.
    pub(crate) fn cut(&self) -> Option<Cut>
        ensures { result ≡ self.now.cut }
    {
        self.cut
    }

    /// What failed first, where it was the write or sync with this number, from 1 on, and none was asked for after it.
    pub(crate) fn cut_at(&self, number: u64) -> Option<Cut>
        requires { number < 2 ^ 64 - 1 }
        ensures { MatchOption result (Unit {0}) (λ cut. ∥ IsStoppedAt number cut self.now.disk ∥₁) }
    {
        if self.asked == number && self.disk.changes() == number {
            self.cut
        } else {
            None
        }
    }

    /// The device.
    pub(crate) fn memory(&self) -> &MemDisk
        ensures { result.now ≡ self.now.disk }
    {
        &self.disk
    }

    /// The device, handed on.
    pub(crate) fn into_memory(self) -> MemDisk
        ensures { result ≡ self.disk }
    {
        let Watched { disk, .. } = self;
        disk
    }
}

impl Disk for Watched {
    ghost use Rattle.disk_model.specs.MemDisk.{state_of};

    ghost state = { λ d. state_of d.disk };

    ghost fits = { λ d. d.small };

    fn size(&mut self) -> Result<u64, DiskFault> {
        self.disk.size()
    }

    fn read_at(&mut self, at: u64, into: &mut [u8]) -> Result<(), DiskFault> {
        self.disk.read_at(at, into)
    }

    fn write_at(&mut self, at: u64, from: &[u8]) -> Result<(), DiskFault> {
        let written = self.disk.write_at(at, from);
        if written.is_err() && self.cut.is_none() {
            self.cut = Some(Cut::of_write(at, from.len()));
            self.asked = self.disk.changes();
        }
        written
    }

    fn sync(&mut self) -> Result<(), DiskFault> {
        let synced = self.disk.sync();
        if synced.is_err() && self.cut.is_none() {
            self.cut = Some(Cut::Sync);
            self.asked = self.disk.changes();
        }
        synced
    }
}
