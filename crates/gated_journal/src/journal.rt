//! The journal: its live records, and the calls that change them.
ghost use Rattle.std.specs.Prelude.{◌≡◌, ◌+◌, ◌<◌, ◌≤◌, List, true, length, if◌then◌else◌, is_ok, is_err, IfOk, OnOk};
ghost use Rattle.disk_model.specs.DiskState.{Counts, CountsTwo, CountsUpTo, Reads, IsSettled};
ghost use Rattle.disk_model.specs.Cells.{cell, cell_count, seen_cells, Leaves};
ghost use Rattle.record_codec.specs.declared.layout.TheConstants.{LAST_NUMBER};
ghost use Rattle.record_codec.specs.Fired.{FiredFields};
ghost use Rattle.gated_journal.specs.Live.{record_in, place, AreRecords};
ghost use Rattle.gated_journal.specs.Rings.{IsRing, IsWhole, IsReadFor, IsFoundFor, cells_of_ring, appended};
ghost use Rattle.gated_journal.specs.Stops.{IsReady, HasAppended, HasAppendedAll, HasCleaned, IsMovedOrNot, HasMoved, moved};

use crate::appending::append;
use crate::cleaning::clean;
use crate::moving::move_base;
use crate::ring::{Ring, place};
use disk_model::{BODY, Cells, Disk, DiskFault};
use record_codec::Fired;
use std::alloc::{AllocError, Global};
use std::marker::Model;
use std::vec;

/// The live records of a device: where they stand, and which they are. Only making it takes memory. After a failure of the
/// device it is made again, from what the cells read for.
#[derive(Drop)]
pub struct Journal {
    ring: Ring,
    /// Room for the numbers of all record cells.
    room: Vec<u64>,
}

// Clauses see where the records stand, and not the room.
impl Model for Journal {
    ghost use Rattle.gated_journal.specs.Rings.{IsSound};
    ghost use Rattle.gated_journal.specs.declared.ring.Ring.{Ring};

    ghost Value = { Ring };

    ghost view = { λ j. j.ring };

    ghost invariant = { IsSound };
}

impl Journal {
    /// The journal of a device for so many atoms and a ring of so many records, of which `base` to `last` are live, and whose
    /// base stands in `base_cell`. No call of the device is made, and no later call takes memory.
    pub fn of<D: Disk>(
        alloc: Global,
        _cells: &Cells<D>,
        atoms: u16,
        ring: u32,
        base_cell: u64,
        base: u64,
        last: u64,
    ) -> Result<Journal, AllocError>
        requires ring { IsRing (record { atoms = atoms; ring = ring; base_cell = base_cell; base = base; last = last }) }
        requires read { _cells.now.keeps ≡ true
            → IsReadFor (record { atoms = atoms; ring = ring; base_cell = base_cell; base = base; last = last }) (seen_cells (BODY + 1) _cells.now) }
        ensures { IfOk result
            (λ j. j ≡ record { atoms = atoms; ring = ring; base_cell = base_cell; base = base; last = last }) }
    {
        let room = vec![in alloc; 0; ring as usize]?;
        let ring = Ring {
            atoms,
            ring,
            base_cell,
            base,
            last,
        };
        Ok(Journal { ring, room })
    }

    /// The number of the first live record, or of the next if none is live.
    pub fn base(&self) -> u64
        ensures number { result ≡ self.now.base }
        ensures in_range { IsRing self.now }
    {
        self.ring.base
    }

    /// The number of the last live record, or base - 1 if none is live.
    pub fn last(&self) -> u64
        ensures number { result ≡ self.now.last }
        ensures in_range { IsRing self.now }
    {
        self.ring.last
    }

    /// How many records the ring has cells for.
    pub fn ring(&self) -> u32
        ensures number { result ≡ self.now.ring }
        ensures in_range { IsRing self.now }
    {
        self.ring.ring
    }

    /// Record `n`, if its cell holds it, whether it is live or not.
    pub fn read_record<D: Disk>(
        &self,
        cells: &mut Cells<D>,
        n: u64,
    ) -> Result<Option<Fired>, DiskFault>
        requires inside { cells_of_ring self.now ≤ cell_count (BODY + 1) cells.old }
        ensures record { cells.old.keeps ≡ true → IfOk result
            (λ found. found ≡ record_in n (cell (seen_cells (BODY + 1) cells.old) (place self.now n))) }
        ensures reads { Reads (is_err result) cells.old cells.new }
    {
        let mut body = [0; BODY];
        if !cells.read_cell(place(self.ring, n), &mut body)? {
            return Ok(None);
        }
        match Fired::from_body(&body) {
            Some(fired) if fired.number() == n => Ok(Some(fired)),
            _ => Ok(None),
        }
    }

    /// Makes the records that the bodies hold live after the last, by two syncs.
    pub fn append_run<D: Disk>(
        &mut self,
        cells: &mut Cells<D>,
        bodies: &[[u8; BODY]],
    ) -> Result<(), DiskFault>
        requires room { self.old.last + length bodies.now < self.old.base + self.old.ring }
        requires in_range { self.old.last + length bodies.now ≤ LAST_NUMBER }
        requires inside { cells_of_ring self.old ≤ cell_count (BODY + 1) cells.old }
        requires ready { cells.old.keeps ≡ true → IsReady self.old cells.old }
        ensures journal { self.new ≡ (if is_ok result then appended (length bodies.now) self.old else self.old) }
        ensures counts { CountsTwo (is_ok result) cells.old cells.new }
        ensures leaves { cells.old.keeps ≡ true → (news : List FiredFields) → AreRecords (self.old.last + 1) bodies.now news
            → Leaves (BODY + 1) (HasAppended self.old news (seen_cells (BODY + 1) cells.old)) cells.old cells.new }
        ensures appended { cells.old.keeps ≡ true → (news : List FiredFields) → AreRecords (self.old.last + 1) bodies.now news
            → OnOk result (HasAppendedAll self.old news cells.old cells.new) }
    {
        let count = bodies.len();
        append(cells, self.ring, &mut self.room[..count], bodies)?;
        self.ring.last += count as u64;
        Ok(())
    }

    /// Empties each record cell that is not live, by one sync. `found` has the bodies of the cells as they were
    /// loaded and so says which of them are full: none is read again.
    pub fn clean<D: Disk>(
        &mut self,
        cells: &mut Cells<D>,
        found: &[Option<[u8; BODY]>],
    ) -> Result<(), DiskFault>
        requires inside { cells_of_ring self.old ≤ cell_count (BODY + 1) cells.old }
        requires settled { cells.old.keeps ≡ true → IsSettled cells.old.now }
        requires whole { cells.old.keeps ≡ true → IsWhole self.old (seen_cells (BODY + 1) cells.old) }
        requires found { cells.old.keeps ≡ true → IsFoundFor self.old (seen_cells (BODY + 1) cells.old) found.now }
        ensures journal { self.new ≡ self.old }
        ensures counts { Counts (is_err result) (is_ok result) cells.old cells.new }
        ensures leaves { cells.old.keeps ≡ true
            → Leaves (BODY + 1) (HasCleaned self.old (seen_cells (BODY + 1) cells.old)) cells.old cells.new }
        ensures cleaned { cells.old.keeps ≡ true → OnOk result (IsReady self.old cells.new) }
    {
        let ring = self.ring;
        let end = ring.base + u64::from(ring.ring);
        let count = (end - 1 - ring.last) as usize;
        clean(cells, ring, &mut self.room[..count], found)
    }

    /// Drops the live records before `base`, by three syncs or four.
    pub fn move_base<D: Disk>(&mut self, cells: &mut Cells<D>, base: u64) -> Result<(), DiskFault>
        requires above { self.old.base < base }
        requires within { base ≤ self.old.last + 1 }
        requires inside { cells_of_ring self.old ≤ cell_count (BODY + 1) cells.old }
        requires settled { cells.old.keeps ≡ true → IsSettled cells.old.now }
        requires read { cells.old.keeps ≡ true → IsReadFor self.old (seen_cells (BODY + 1) cells.old) }
        ensures journal { self.new ≡ (if is_ok result then moved base self.old else self.old) }
        ensures counts { CountsUpTo (is_err result) 4 cells.old cells.new }
        ensures leaves { cells.old.keeps ≡ true
            → Leaves (BODY + 1) (IsMovedOrNot base self.old (seen_cells (BODY + 1) cells.old)) cells.old cells.new }
        ensures moved { cells.old.keeps ≡ true → OnOk result (HasMoved base self.old cells.old cells.new) }
    {
        let ring = self.ring;
        let count = (base - ring.base) as usize;
        move_base(cells, ring, base, &mut self.room[..count])?;
        self.ring.base = base;
        self.ring.base_cell = 3 - ring.base_cell;
        Ok(())
    }
}
