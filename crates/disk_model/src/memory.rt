//! A device in memory, for tests: when its calls fail is chosen, and what a stop leaves of it.
ghost use Rattle.std.specs.Prelude.{◌≡◌, ℕ, ◌+◌, ◌^◌, ◌<◌, ◌≤◌, ◌||◌, not, if◌then◌else◌, true, false, slice_index, length, take, drop, replicate, max, is_ok, is_err, IfOk, OnOk, OnErr};
ghost use Rattle.disk_model.specs.DiskState.{MayLeave, size_of, moment_of, is_pending, Counts, IsUnchanged, Reads, Writes, FailsToWrite, Syncs};
ghost use Rattle.disk_model.specs.Recording.{byte_left};

use crate::cells::FIRST_CELL;
use crate::change::{LONGEST, Tear};
use crate::fuse::Fuse;
use crate::recorded::Recorded;
use crate::{Disk, DiskFault};
use std::alloc::{AllocError, Global};

/// A device in memory that always keeps the disk model, for tests. Its calls fail as a fuse says, and a stop tears what
/// is pending by one of four patterns. Once it is made its calls take no memory: it keeps a record of its changes in a
/// room of fixed size. A change that has no room there, or is longer than `LONGEST`, fails and changes nothing.
#[derive(Drop)]
pub struct MemDisk {
    recorded: Recorded,
    cell: u64,
    fuse: Fuse,
    failures: u64,
    syncs: u64,
    changes: u64,
    ghost small: { length recorded.present.seen < 2 ^ 64 },
    ghost whole: { 0 < cell },
}

impl MemDisk {
    ghost use Rattle.disk_model.specs.declared.fuse.Fuse.TheVariants.{Off, Once, Dead, Change};
    ghost use Rattle.disk_model.specs.MemDisk.{state_of, fuse_of, room_of, cell_of, changes_of, synced_of, fresh, IsRead, AsksNoChange};

    /// All zeros, with room for so many changes, at cells of the first layout, which have 512 bytes.
    pub fn new(alloc: Global, size: u64, room: usize) -> Result<MemDisk, AllocError>
        ensures state { IfOk result (λ d. state_of d ≡ fresh (replicate size 0)) }
        ensures room { IfOk result (λ d. room_of d ≡ room) }
        ensures cell { IfOk result (λ d. cell_of d ≡ 512) }
        ensures fuse { IfOk result (λ d. fuse_of d ≡ Off) }
        ensures changes { IfOk result (λ d. changes_of d ≡ 0) }
        ensures synced { IfOk result (λ d. synced_of d ≡ replicate size 0) }
    {
        MemDisk::with_cells(alloc, size, room, FIRST_CELL)
    }

    /// The same, at cells of `cell` bytes, of which `Tear::Mixed` speaks. Of 0 it makes 1.
    pub fn with_cells(
        alloc: Global,
        size: u64,
        room: usize,
        cell: u64,
    ) -> Result<MemDisk, AllocError>
        ensures state { IfOk result (λ d. state_of d ≡ fresh (replicate size 0)) }
        ensures room { IfOk result (λ d. room_of d ≡ room) }
        ensures cell { IfOk result (λ d. cell_of d ≡ max cell 1) }
        ensures fuse { IfOk result (λ d. fuse_of d ≡ Off) }
        ensures changes { IfOk result (λ d. changes_of d ≡ 0) }
        ensures synced { IfOk result (λ d. synced_of d ≡ replicate size 0) }
    {
        Ok(MemDisk {
            recorded: Recorded::new(alloc, size as usize, room)?,
            cell: cell.max(1),
            fuse: Fuse::Off,
            failures: 0,
            syncs: 0,
            changes: 0,
        })
    }

    /// The `k`-th device call from now fails, and those after it go on. Takes the place of a fuse that is set.
    pub fn fuse_once(&mut self, k: u64)
        ensures fuse { fuse_of self.new ≡ Once k }
        ensures state { state_of self.new ≡ state_of self.old }
        ensures rest { AsksNoChange self.old self.new }
    {
        self.fuse = Fuse::Once(k);
    }

    /// The `k`-th device call from now and all later ones fail.
    pub fn fuse_dead(&mut self, k: u64)
        ensures fuse { fuse_of self.new ≡ Dead k }
        ensures state { state_of self.new ≡ state_of self.old }
        ensures rest { AsksNoChange self.old self.new }
    {
        self.fuse = Fuse::Dead(k);
    }

    /// The `k`-th write or sync from now fails, and every device call after it.
    pub fn fuse_change(&mut self, k: u64)
        ensures fuse { fuse_of self.new ≡ Change k }
        ensures state { state_of self.new ≡ state_of self.old }
        ensures rest { AsksNoChange self.old self.new }
    {
        self.fuse = Fuse::Change(k);
    }

    /// A call that only reads fails if the fuse says so.
    fn burn_for_read(&mut self) -> Result<(), DiskFault>
        ensures reads { Reads (is_err result) (state_of self.old) (state_of self.new) }
        ensures asked { IsRead (is_err result) self.old self.new }
    {
        if self.fuse.burn(false) {
            self.failures = self.failures.saturating_add(1);
            return Err(DiskFault);
        }
        Ok(())
    }

    /// How many writes and syncs were asked for since it was made.
    pub fn changes(&self) -> u64
        ensures { result ≡ changes_of self.now }
    {
        self.changes
    }

    /// The device after a stop: what was pending is torn, nothing is pending, the fuse is off, the record is empty, and
    /// all counts start at 0.
    pub fn stop(mut self, tear: Tear) -> MemDisk
        ensures left { MayLeave (state_of self).now (state_of result).now.seen }
        ensures each { (i : ℕ) → i < size_of (state_of self) → slice_index (state_of result).now.seen i
            ≡ byte_left tear (cell_of self) (is_pending (state_of self).now i) i (slice_index (state_of self).now.seen i) (slice_index (synced_of self) i) }
        ensures state { state_of result ≡ fresh (state_of result).now.seen }
        ensures room { room_of result ≡ room_of self + moment_of (state_of self) }
        ensures cell { cell_of result ≡ cell_of self }
        ensures fuse { fuse_of result ≡ Off }
        ensures changes { changes_of result ≡ 0 }
        ensures synced { synced_of result ≡ (state_of result).now.seen }
    {
        let cell = self.cell;
        self.recorded.tear(tear, cell);
        self.fuse = Fuse::Off;
        self.failures = 0;
        self.syncs = 0;
        self.changes = 0;
        self
    }

    /// The device that a stop now would leave, made beside this one, with room for so many changes. Else it is as `stop` leaves it.
    pub fn torn(&self, alloc: Global, tear: Tear, room: usize) -> Result<MemDisk, AllocError>
        ensures left { IfOk result (λ d. MayLeave (state_of self.now).now (state_of d).now.seen) }
        ensures each { IfOk result (λ d. (i : ℕ) → i < size_of (state_of self.now) → slice_index (state_of d).now.seen i
            ≡ byte_left tear (cell_of self.now) (is_pending (state_of self.now).now i) i (slice_index (state_of self.now).now.seen i) (slice_index (synced_of self.now) i)) }
        ensures state { IfOk result (λ d. state_of d ≡ fresh (state_of d).now.seen) }
        ensures room { IfOk result (λ d. room_of d ≡ room) }
        ensures cell { IfOk result (λ d. cell_of d ≡ cell_of self.now) }
        ensures fuse { IfOk result (λ d. fuse_of d ≡ Off) }
        ensures changes { IfOk result (λ d. changes_of d ≡ 0) }
        ensures synced { IfOk result (λ d. synced_of d ≡ (state_of d).now.seen) }
    {
        Ok(MemDisk {
            recorded: self.recorded.torn(alloc, tear, self.cell, room)?,
            cell: self.cell,
            fuse: Fuse::Off,
            failures: 0,
            syncs: 0,
            changes: 0,
        })
    }
}

impl Disk for MemDisk {
    ghost use Rattle.disk_model.specs.Fuse.{burns, fuse_after};
    ghost use Rattle.disk_model.specs.MemDisk.{state_of, fuse_of, room_of, synced_of, is_refused, IsRead, AsksChange, WritesHalf};

    ghost state = { state_of };

    ghost fits = { λ d. d.small };

    fn size(&mut self) -> Result<u64, DiskFault>
        ensures size { IfOk result (λ n. n ≡ size_of (state_of self.old)) }
        ensures counts { Counts (is_err result) false (state_of self.old) (state_of self.new) }
        ensures same { (state_of self.old).keeps ≡ true → IsUnchanged (state_of self.old) (state_of self.new) }

        ensures asked { IsRead (is_err result) self.old self.new }
    {
        self.burn_for_read()?;
        Ok(self.recorded.bytes().len() as u64)
    }

    fn read_at(&mut self, at: u64, into: &mut [u8]) -> Result<(), DiskFault>
        requires { at + length into.old ≤ size_of (state_of self.old) }
        ensures bytes { (state_of self.old).keeps ≡ true → OnOk result
            (into.new ≡ take (length into.old) (drop at (state_of self.old).now.seen)) }
        ensures counts { Counts (is_err result) false (state_of self.old) (state_of self.new) }
        ensures same { (state_of self.old).keeps ≡ true → IsUnchanged (state_of self.old) (state_of self.new) }

        ensures asked { IsRead (is_err result) self.old self.new }
    {
        self.burn_for_read()?;
        let start = at as usize;
        into.copy_from_slice(&self.recorded.bytes()[start..start + into.len()]);
        Ok(())
    }

    fn write_at(&mut self, at: u64, from: &[u8]) -> Result<(), DiskFault>
        requires { at + length from.now ≤ size_of (state_of self.old) }
        ensures ok { (state_of self.old).keeps ≡ true → OnOk result
            (Writes at from.now (state_of self.old) (state_of self.new)) }
        ensures err { (state_of self.old).keeps ≡ true → OnErr result
            (FailsToWrite at from.now (state_of self.old) (state_of self.new)) }
        ensures counts { Counts (is_err result) false (state_of self.old) (state_of self.new) }

        ensures fails { is_err result ≡ (burns (fuse_of self.old) true || is_refused self.old (length from.now)) }
        ensures refused { is_refused self.old (length from.now) ≡ true
            → IsUnchanged (state_of self.old) (state_of self.new) }
        ensures half { is_refused self.old (length from.now) ≡ false → OnErr result
            (WritesHalf at from.now (state_of self.old) (state_of self.new)) }
        ensures fuse { fuse_of self.new ≡ fuse_after (fuse_of self.old) true }
        ensures rest { AsksChange (not (is_refused self.old (length from.now))) (synced_of self.old) self.old self.new }
    {
        let burnt = self.fuse.burn(true);
        self.changes = self.changes.saturating_add(1);
        if from.len() > LONGEST || !self.recorded.has_room() {
            self.failures = self.failures.saturating_add(1);
            return Err(DiskFault);
        }
        if burnt {
            self.recorded.write(at as usize, from, from.len() / 2);
            self.failures = self.failures.saturating_add(1);
            return Err(DiskFault);
        }
        self.recorded.write(at as usize, from, from.len());
        Ok(())
    }

    fn sync(&mut self) -> Result<(), DiskFault>
        ensures ok { (state_of self.old).keeps ≡ true → OnOk result
            (Syncs (state_of self.old) (state_of self.new)) }
        ensures err { (state_of self.old).keeps ≡ true → OnErr result
            (IsUnchanged (state_of self.old) (state_of self.new)) }
        ensures counts { Counts (is_err result) (is_ok result) (state_of self.old) (state_of self.new) }

        ensures fails { is_err result ≡ (burns (fuse_of self.old) true || is_refused self.old 0) }
        ensures fuse { fuse_of self.new ≡ fuse_after (fuse_of self.old) true }
        ensures rest { AsksChange (is_ok result) (if is_ok result then (state_of self.old).now.seen else synced_of self.old) self.old self.new }
    {
        let burnt = self.fuse.burn(true);
        self.changes = self.changes.saturating_add(1);
        if burnt || !self.recorded.has_room() {
            self.failures = self.failures.saturating_add(1);
            return Err(DiskFault);
        }
        self.recorded.sync();
        self.syncs = self.syncs.saturating_add(1);
        Ok(())
    }
}
