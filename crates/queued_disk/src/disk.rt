//! The device.
ghost use Rattle.std.specs.Prelude.{◌≡◌, ◌+◌, ◌^◌, ◌<◌, ◌≤◌, ◌↔◌, IsTrue, IsFalse, true, false, length, replicate, IfOk};
ghost use Rattle.disk_model.specs.DiskState.{Counts, overwritten, size_of};

use crate::queue::{Queue, Step};
use disk_model::{CELL, Disk, DiskFault};
use std::alloc::{AllocError, Global};
use std::vec;

/// How many bytes the queue has room for beside one for each step: the bodies of 64 records, or of the states of 64 atoms, and of two cells more.
const BODIES: usize = 66 * CELL as usize;

/// A device in memory. It is as the real one will be once all steps are done to it.
#[derive(Drop)]
pub struct QueuedDisk {
    bytes: Vec<u8>,
    failures: u64,
    syncs: u64,
    queue: Queue,
    ghost small: { length bytes.items < 2 ^ 64 },
}

impl QueuedDisk {
    ghost use Rattle.std.specs.Prelude.{[], IfSome};
    ghost use Rattle.queued_disk.specs.QueuedDisk.{held_by, state_of, steps_of};
    ghost use Rattle.queued_disk.specs.Steps.{IsToldOf};

    /// So many zeros, and no step.
    pub fn new(alloc: Global, size: usize) -> Result<QueuedDisk, AllocError>
        ensures held { IfOk result (λ d. held_by d ≡ replicate size 0) }
        ensures steps { IfOk result (λ d. steps_of d ≡ []) }
    {
        let steps = 3 * (size / CELL as usize) + 64;
        Ok(QueuedDisk {
            bytes: vec![in alloc; 0; size]?,
            failures: 0,
            syncs: 0,
            queue: Queue::new(alloc, steps, BODIES + steps)?,
        })
    }

    /// Takes over what the real device holds from this place on, if it has all these places.
    pub fn fill(&mut self, at: u64, bytes: &[u8]) -> bool
        ensures fits { IsTrue result ↔ (at + length bytes.now ≤ length (held_by self.old)) }
        ensures filled { IsTrue result → held_by self.new ≡ overwritten at bytes.now (held_by self.old) }
        ensures same { IsFalse result → held_by self.new ≡ held_by self.old }
        ensures steps { steps_of self.new ≡ steps_of self.old }
    {
        let size = self.bytes.len() as u64;
        if at > size || bytes.len() as u64 > size - at {
            return false;
        }
        let first = at as usize;
        self.bytes[first..first + bytes.len()].copy_from_slice(bytes);
        true
    }

    /// The next step that is to be done to the real device, if there is one.
    pub fn next(&self) -> Option<Step<'_>>
        ensures { IfSome result (IsToldOf (steps_of self.now)) }
    {
        self.queue.next()
    }

    /// Takes that step: it is done.
    pub fn take(&self) {
        self.queue.take();
    }

    /// Counts a failure.
    fn fail(&mut self) -> DiskFault
        ensures counts { Counts true false (state_of self.old) (state_of self.new) }
        ensures held { held_by self.new ≡ held_by self.old }
    {
        self.failures = self.failures.saturating_add(1);
        DiskFault
    }
}

// Each call has the clauses of the trait, which hold of every device, and beside them what it does to the bytes.
impl Disk for QueuedDisk {
    ghost use Rattle.std.specs.Prelude.{true, false, take, drop, is_err, is_ok, OnOk, OnErr, Some, None};
    ghost use Rattle.disk_model.specs.DiskState.{Counts, IsUnchanged, Writes, FailsToWrite, Syncs};
    ghost use Rattle.queued_disk.specs.QueuedDisk.{held_by, state_of, steps_of};
    ghost use Rattle.queued_disk.specs.Steps.{IsAdded};

    ghost state = { state_of };

    ghost fits = { λ d. d.small };

    fn size(&mut self) -> Result<u64, DiskFault> {
        Ok(self.bytes.len() as u64)
    }

    fn read_at(&mut self, at: u64, into: &mut [u8]) -> Result<(), DiskFault>
        requires { at + length into.old ≤ size_of (state_of self.old) }
        ensures bytes { (state_of self.old).keeps ≡ true → OnOk result (into.new ≡ take (length into.old) (drop at (state_of self.old).now.seen)) }
        ensures counts { Counts (is_err result) false (state_of self.old) (state_of self.new) }
        ensures same { (state_of self.old).keeps ≡ true → IsUnchanged (state_of self.old) (state_of self.new) }

        ensures given { OnOk result (into.new ≡ take (length into.old) (drop at (held_by self.old))) }
        ensures held { held_by self.new ≡ held_by self.old }
    {
        let at = at as usize;
        let count = into.len();
        into.copy_from_slice(&self.bytes[at..at + count]);
        Ok(())
    }

    fn write_at(&mut self, at: u64, from: &[u8]) -> Result<(), DiskFault>
        requires { at + length from.now ≤ size_of (state_of self.old) }
        ensures ok { (state_of self.old).keeps ≡ true → OnOk result (Writes at from.now (state_of self.old) (state_of self.new)) }
        ensures err { (state_of self.old).keeps ≡ true → OnErr result (FailsToWrite at from.now (state_of self.old) (state_of self.new)) }
        ensures counts { Counts (is_err result) false (state_of self.old) (state_of self.new) }

        ensures taken { OnOk result (held_by self.new ≡ overwritten at from.now (held_by self.old)) }
        ensures added { OnOk result (IsAdded (Some (at, from.now)) (steps_of self.old) (steps_of self.new)) }
        ensures failed { OnErr result (held_by self.new ≡ held_by self.old) }
    {
        if self.queue.add_write(at, from).is_err() {
            return Err(self.fail());
        }
        let at = at as usize;
        self.bytes[at..at + from.len()].copy_from_slice(from);
        Ok(())
    }

    fn sync(&mut self) -> Result<(), DiskFault>
        ensures ok { (state_of self.old).keeps ≡ true → OnOk result (Syncs (state_of self.old) (state_of self.new)) }
        ensures err { (state_of self.old).keeps ≡ true → OnErr result (IsUnchanged (state_of self.old) (state_of self.new)) }
        ensures counts { Counts (is_err result) (is_ok result) (state_of self.old) (state_of self.new) }

        ensures held { held_by self.new ≡ held_by self.old }
        ensures added { OnOk result (IsAdded None (steps_of self.old) (steps_of self.new)) }
    {
        if self.queue.add_sync().is_err() {
            return Err(self.fail());
        }
        self.syncs = self.syncs.saturating_add(1);
        Ok(())
    }
}
