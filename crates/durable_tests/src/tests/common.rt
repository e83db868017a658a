//! What several tests share: a plant, and a device of which contracts say little, so that to prove the tests costs little.
ghost use Rattle.std.specs.Prelude.{◌≡◌, ◌^◌, ◌<◌, false};
ghost use Rattle.disk_model.specs.DiskState.{size_of};
ghost use Rattle.disk_model.specs.MemDisk.{state_of};

use disk_model::{CELL, Disk, DiskFault, MemDisk, Tear};
use plant_model::System;
use plant_text::plant_of_text;
use record_codec::ring::device_cells;
use record_codec::{LEAST_RING, MOST_RING};
use recovery::format;
use std::alloc::Global;
use std::test::Fail;

/// A counts, and B takes what A has counted.
pub(super) const SAMPLE: &[u8] =
    b"atom A\nplace s init\nvar n 0\nport t n\ntrans t from s to s do n := + n 1\natom B\nplace s init\nvar m 0\nport u m\ntrans u from s to s\nconnector tick A.t\nconnector send A.t B.u\nmove B.m := A.n\n";

/// The sample, of which contracts say nothing.
pub(super) fn sample(alloc: Global) -> Result<System, Fail> {
    plant(alloc, SAMPLE)
}

/// The plant of a text, of which contracts say nothing.
pub(super) fn plant(alloc: Global, text: &[u8]) -> Result<System, Fail> {
    Ok(plant_of_text(alloc, text)?)
}

/// All ways in which a stop tears what is pending.
pub(super) const TEARS: [Tear; 4] = [Tear::Old, Tear::New, Tear::Gates, Tear::Mixed];

/// A device in memory of which contracts say the size and the counts alone: what its cells read for is seen by running. It counts
/// its calls.
#[derive(Drop)]
pub(super) struct OpaqueDisk {
    disk: MemDisk,
    calls: u64,
    ghost small: { size_of (state_of disk) < 2 ^ 64 },
}

impl OpaqueDisk {
    pub(super) fn over(disk: MemDisk) -> OpaqueDisk
        ensures { result.disk ≡ disk }
    {
        OpaqueDisk { disk, calls: 0 }
    }

    pub(super) fn into_memory(self) -> MemDisk {
        let OpaqueDisk { disk, .. } = self;
        disk
    }

    pub(super) fn calls(&self) -> u64 {
        self.calls
    }
}

impl Disk for OpaqueDisk {
    ghost use Rattle.std.specs.Prelude.{false};
    ghost use Rattle.disk_model.specs.MemDisk.{state_of};

    ghost state = { λ d. record (state_of d.disk) { keeps = false } };

    ghost fits = { λ d. d.small };

    fn size(&mut self) -> Result<u64, DiskFault> {
        self.calls = self.calls.saturating_add(1);
        self.disk.size()
    }

    fn read_at(&mut self, at: u64, into: &mut [u8]) -> Result<(), DiskFault> {
        self.calls = self.calls.saturating_add(1);
        self.disk.read_at(at, into)
    }

    fn write_at(&mut self, at: u64, from: &[u8]) -> Result<(), DiskFault> {
        self.calls = self.calls.saturating_add(1);
        self.disk.write_at(at, from)
    }

    fn sync(&mut self) -> Result<(), DiskFault> {
        self.calls = self.calls.saturating_add(1);
        self.disk.sync()
    }
}

/// A device in memory that is formatted for the plant, with a ring of so many records and room for so many writes and syncs.
pub(super) fn formatted(
    alloc: Global,
    system: &System,
    ring: u32,
    room: usize,
) -> Result<MemDisk, Fail> {
    if !(LEAST_RING..=MOST_RING).contains(&ring) {
        return Err(Fail::new("no such ring"));
    }
    system.keeps_its_rules();
    let bytes = CELL * device_cells(system.atoms().len() as u16, ring);
    let disk = OpaqueDisk::over(MemDisk::with_cells(alloc, bytes, room, CELL)?);
    match format(alloc, disk, system, ring) {
        Ok(disk) => Ok(disk.into_memory()),
        Err(_) => Err(Fail::new("the device was not formatted")),
    }
}

/// Writes the bytes to the device at this place.
pub(super) fn put(disk: &mut OpaqueDisk, at: u64, bytes: &[u8]) -> Result<(), Fail> {
    let size = disk.size()?;
    if at > size || bytes.len() as u64 > size - at {
        return Err(Fail::new("no such place"));
    }
    disk.write_at(at, bytes)?;
    Ok(())
}
