//! A device that is its bytes.
ghost use Rattle.std.specs.Prelude.{◌≡◌, ◌^◌, ◌<◌, IfOk, length};
ghost use Rattle.disk_model.specs.DiskState.{size_of};

use disk_model::{Disk, DiskFault};
use std::alloc::{AllocError, Global};
use std::vec;

/// A device in memory. No call of it fails, and a stop leaves nothing.
#[derive(Drop)]
pub struct BareDisk {
    bytes: Vec<u8>,
    syncs: u64,
    ghost small: { length bytes.items < 2 ^ 64 },
}

impl BareDisk {
    ghost use Rattle.bare_disk.specs.BareDisk.{state_of};

    /// So many zeros.
    pub fn new(alloc: Global, size: u64) -> Result<BareDisk, AllocError>
        ensures { IfOk result (λ d. size_of (state_of d) ≡ size) }
    {
        Ok(BareDisk {
            bytes: vec![in alloc; 0; size as usize]?,
            syncs: 0,
        })
    }
}

impl Disk for BareDisk {
    ghost use Rattle.bare_disk.specs.BareDisk.{state_of};

    ghost state = { state_of };

    ghost fits = { λ d. d.small };

    fn size(&mut self) -> Result<u64, DiskFault> {
        Ok(self.bytes.len() as u64)
    }

    fn read_at(&mut self, at: u64, into: &mut [u8]) -> Result<(), DiskFault> {
        let at = at as usize;
        let count = into.len();
        into.copy_from_slice(&self.bytes[at..at + count]);
        Ok(())
    }

    fn write_at(&mut self, at: u64, from: &[u8]) -> Result<(), DiskFault> {
        let at = at as usize;
        self.bytes[at..at + from.len()].copy_from_slice(from);
        Ok(())
    }

    fn sync(&mut self) -> Result<(), DiskFault> {
        self.syncs = self.syncs.saturating_add(1);
        Ok(())
    }
}
