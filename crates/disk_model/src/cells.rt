//! A device as cells, which are read, emptied and filled.
ghost use Rattle.std.specs.Prelude.{◌≡◌, ℕ, ◌+◌, ◌<◌, ◌∷◌, [], true, false, if◌then◌else◌, length, is_ok, is_err, is_some, IfOk, OnOk, MatchResult, Some, None};
ghost use Rattle.disk_model.specs.DiskState.{DiskState, Counts, CountsTwo, CountsUpTo, IsSettled, IsUnchanged, Reads, Syncs, size_of};
ghost use Rattle.disk_model.specs.Cells.{cell_count, cell, seen_cells, IsClosed, MayBe, Leaves, Settles, OldOrEmpty, EmptyOrNew, Erased, Filled, OldOrEmptyAt, OldEmptyOrNewAt, OldEmptyOrNewRun, Replaced};
ghost use Rattle.disk_model.specs.Steps.{AreInside, ReadEmpty, ReadFull, AreClosed, AllDiffer, AreTheFull};

use crate::calls::{Known, read_full};
use crate::run::{erase_all, set_all, sync_all};
use crate::{Disk, DiskFault};
use std::marker::Model;
use std::slice;

/// The bytes of a body, as the engine's cells have them.
pub const BODY: usize = 1023;

/// The bytes of a cell: its gate and its body.
pub const CELL: u64 = CELL_LEN as u64;

/// The same, as the length of an array.
pub const CELL_LEN: usize = BODY + 1;

/// The bytes of a body of the first layout.
pub const FIRST_BODY: usize = 511;

/// The bytes of a cell of the first layout.
pub const FIRST_CELL: u64 = FIRST_CELL_LEN as u64;

/// The same, as the length of an array.
pub(crate) const FIRST_CELL_LEN: usize = FIRST_BODY + 1;

/// A device as cells of one gate and a body of [`BODY`] bytes. A cell is full or empty. Cells of the first layout are
/// [`FirstCells`](crate::FirstCells).
//
// The length of a body is no parameter: where code that is generic in the device drops such a value or calls it, it would
// have to show that the whole struct fits in memory, which no bound on the device gives.
#[derive(Drop)]
pub struct Cells<D: Disk> {
    pub(crate) disk: D,
}

// Clauses see the device's state.
impl<D: Disk> Model for Cells<D> {
    ghost use Rattle.disk_model.specs.DiskState.{DiskState};

    ghost Value = { DiskState };

    ghost view = { λ c. D.state c.disk };
}

impl<D: Disk> Cells<D> {
    /// The cells of the device, which is left as it is.
    pub fn new(disk: D) -> Self
        ensures { result ≡ D.state disk }
    {
        Cells { disk }
    }

    /// The device under the cells.
    pub fn into_disk(self) -> D
        ensures { D.state result ≡ self }
    {
        let Cells { disk } = self;
        disk
    }

    /// The device under the cells, to look at.
    pub fn device(&self) -> &D
        ensures { D.state result.now ≡ self.now }
    {
        &self.disk
    }

    /// How many bytes the device has.
    pub fn size(&mut self) -> Result<u64, DiskFault>
        ensures size { IfOk result (λ n. n ≡ size_of self.old) }
        ensures reads { Reads (is_err result) self.old self.new }
    {
        self.disk.size()
    }

    /// Puts everything written so far onto the disk.
    pub fn sync(&mut self) -> Result<(), DiskFault>
        ensures counts { Counts (is_err result) (is_ok result) self.old self.new }
        ensures leaves { self.old.keeps ≡ true
            → Leaves (BODY + 1) (MayBe (BODY + 1) self.old) self.old self.new }
        ensures settles { self.old.keeps ≡ true → OnOk result (Settles (BODY + 1) self.old self.new) }
        ensures syncs { self.old.keeps ≡ true
            → MatchResult result (λ _. Syncs self.old self.new) (λ _. IsUnchanged self.old self.new) }
    {
        sync_all::<D, BODY>(&mut self.disk)
    }

    /// Whether cell `k` is full, and its body then. Of an empty cell, and after a failure, `body` holds anything.
    pub fn read_cell(&mut self, k: u64, body: &mut [u8; BODY]) -> Result<bool, DiskFault>
        requires inside { k < cell_count (BODY + 1) self.old }
        ensures cell { self.old.keeps ≡ true → IfOk result
            (λ full. cell (seen_cells (BODY + 1) self.old) k ≡ (if full then Some body.new else None)) }
        ensures reads { Reads (is_err result) self.old self.new }
    {
        let mut whole = [0; CELL_LEN];
        read_full(&mut self.disk, k, body, &mut whole)
    }

    /// Empties cell `k`. If it reads empty nothing is written, and the call only syncs.
    pub fn erase(&mut self, k: u64) -> Result<(), DiskFault>
        requires inside { k < cell_count (BODY + 1) self.old }
        ensures counts { Counts (is_err result) (is_ok result) self.old self.new }
        ensures leaves { self.old.keeps ≡ true
            → Leaves (BODY + 1) (OldOrEmpty (BODY + 1) self.old (k ∷ [])) self.old self.new }
        ensures erased { self.old.keeps ≡ true → OnOk result (Erased (BODY + 1) (k ∷ []) self.old self.new) }
        ensures only_syncs { self.old.keeps ≡ true → cell (seen_cells (BODY + 1) self.old) k ≡ None
            → MatchResult result (λ _. Syncs self.old self.new) (λ _. IsUnchanged self.old self.new) }
    {
        self.erase_run(&[k])
    }

    /// Fills cell `k`, which is empty whatever a stop leaves.
    pub fn set(&mut self, k: u64, body: &[u8; BODY]) -> Result<(), DiskFault>
        requires inside { k < cell_count (BODY + 1) self.old }
        requires closed { self.old.keeps ≡ true → IsClosed (BODY + 1) self.old k }
        ensures counts { CountsTwo (is_ok result) self.old self.new }
        ensures leaves { self.old.keeps ≡ true
            → Leaves (BODY + 1) (EmptyOrNew (BODY + 1) self.old (k ∷ []) (body.now ∷ [])) self.old self.new }
        ensures filled { self.old.keeps ≡ true → OnOk result (Filled (BODY + 1) (k ∷ []) (body.now ∷ []) self.old self.new) }
    {
        self.set_run(&[k], slice::from_ref(body))
    }

    /// Empties the cells `ks` by one sync.
    pub fn erase_run(&mut self, ks: &[u64]) -> Result<(), DiskFault>
        requires inside { AreInside (BODY + 1) self.old ks.now }
        ensures counts { Counts (is_err result) (is_ok result) self.old self.new }
        ensures leaves { self.old.keeps ≡ true
            → Leaves (BODY + 1) (OldOrEmpty (BODY + 1) self.old ks.now) self.old self.new }
        ensures erased { self.old.keeps ≡ true → OnOk result (Erased (BODY + 1) ks.now self.old self.new) }
        ensures only_syncs { self.old.keeps ≡ true → ReadEmpty (BODY + 1) self.old ks.now
            → MatchResult result (λ _. Syncs self.old self.new) (λ _. IsUnchanged self.old self.new) }
    {
        erase_all::<D, BODY>(&mut self.disk, ks, Known::Nothing)
    }

    /// Empties the cells `ks`, which all read full, by one sync. No cell is read.
    pub fn erase_full_run(&mut self, ks: &[u64]) -> Result<(), DiskFault>
        requires differ { AllDiffer ks.now }
        requires inside { AreInside (BODY + 1) self.old ks.now }
        requires full { self.old.keeps ≡ true → ReadFull (BODY + 1) self.old ks.now }
        ensures counts { Counts (is_err result) (is_ok result) self.old self.new }
        ensures leaves { self.old.keeps ≡ true
            → Leaves (BODY + 1) (OldOrEmpty (BODY + 1) self.old ks.now) self.old self.new }
        ensures erased { self.old.keeps ≡ true → OnOk result (Erased (BODY + 1) ks.now self.old self.new) }
    {
        erase_all::<D, BODY>(&mut self.disk, ks, Known::Full)
    }

    /// Fills the cells `ks`, which are empty whatever a stop leaves, by two syncs.
    pub fn set_run(&mut self, ks: &[u64], bodies: &[[u8; BODY]]) -> Result<(), DiskFault>
        requires differ { AllDiffer ks.now }
        requires as_many { length bodies.now ≡ length ks.now }
        requires inside { AreInside (BODY + 1) self.old ks.now }
        requires closed { self.old.keeps ≡ true → AreClosed (BODY + 1) self.old ks.now }
        ensures counts { CountsTwo (is_ok result) self.old self.new }
        ensures leaves { self.old.keeps ≡ true
            → Leaves (BODY + 1) (EmptyOrNew (BODY + 1) self.old ks.now bodies.now) self.old self.new }
        ensures filled { self.old.keeps ≡ true → OnOk result (Filled (BODY + 1) ks.now bodies.now self.old self.new) }
    {
        set_all(&mut self.disk, ks, bodies)
    }

    /// Empties the cells `ks`, which all read full, by one sync. Where there are none it makes no sync.
    fn empty_run(&mut self, ks: &[u64]) -> Result<(), DiskFault>
        requires differ { AllDiffer ks.now }
        requires inside { AreInside (BODY + 1) self.old ks.now }
        requires full { self.old.keeps ≡ true → ReadFull (BODY + 1) self.old ks.now }
        requires settled { self.old.keeps ≡ true → IsSettled self.old.now }
        ensures counts { CountsUpTo (is_err result) 1 self.old self.new }
        ensures leaves { self.old.keeps ≡ true
            → Leaves (BODY + 1) (OldOrEmptyAt ks.now (seen_cells (BODY + 1) self.old)) self.old self.new }
        ensures erased { self.old.keeps ≡ true → OnOk result (Erased (BODY + 1) ks.now self.old self.new) }
    {
        if ks.is_empty() {
            return Ok(());
        }
        self.erase_full_run(ks)
    }

    /// Fills the cells `ks` with the bodies, whatever they held, by two syncs. Those that are full, which the caller names, are emptied
    /// first, by a third for all of them. No cell is read.
    pub fn replace_run(
        &mut self,
        ks: &[u64],
        full: &[u64],
        bodies: &[[u8; BODY]],
    ) -> Result<(), DiskFault>
        requires differ { AllDiffer ks.now }
        requires as_many { length bodies.now ≡ length ks.now }
        requires inside { AreInside (BODY + 1) self.old ks.now }
        requires full { AreTheFull (BODY + 1) self.old ks.now full.now }
        requires settled { self.old.keeps ≡ true → IsSettled self.old.now }
        ensures counts { CountsUpTo (is_err result) 3 self.old self.new }
        ensures leaves { self.old.keeps ≡ true
            → Leaves (BODY + 1) (OldEmptyOrNewRun ks.now bodies.now (seen_cells (BODY + 1) self.old)) self.old self.new }
        ensures replaced { self.old.keeps ≡ true → OnOk result (Filled (BODY + 1) ks.now bodies.now self.old self.new) }
    {
        // A body written behind an open gate would show torn. Emptied and synced, the cells are closed whatever a stop leaves.
        self.empty_run(full)?;
        self.set_run(ks, bodies)
    }

    /// Fills cell `k`, of which the caller knows whether it is full, with the body, by two syncs. If it is full it is emptied first, by a
    /// third. No cell is read.
    pub fn replace_known(&mut self, k: u64, full: bool, body: &[u8; BODY]) -> Result<(), DiskFault>
        requires inside { k < cell_count (BODY + 1) self.old }
        requires full { self.old.keeps ≡ true → is_some (cell (seen_cells (BODY + 1) self.old) k) ≡ full }
        requires settled { self.old.keeps ≡ true → IsSettled self.old.now }
        ensures counts { CountsUpTo (is_err result) 3 self.old self.new }
        ensures leaves { self.old.keeps ≡ true
            → Leaves (BODY + 1) (OldEmptyOrNewAt k body.now (seen_cells (BODY + 1) self.old)) self.old self.new }
        ensures replaced { self.old.keeps ≡ true → OnOk result (Replaced (BODY + 1) k body.now self.old self.new) }
    {
        let cells = [k];
        let full: &[u64] = if full { &cells } else { &[] };
        self.replace_run(&cells, full, slice::from_ref(body))
    }

    /// Fills cell `k` with the body, whatever it held, by two syncs. It is read, and if it is full it is emptied first, by a third.
    pub fn replace(&mut self, k: u64, body: &[u8; BODY]) -> Result<(), DiskFault>
        requires inside { k < cell_count (BODY + 1) self.old }
        requires settled { self.old.keeps ≡ true → IsSettled self.old.now }
        ensures counts { CountsUpTo (is_err result) 3 self.old self.new }
        ensures leaves { self.old.keeps ≡ true
            → Leaves (BODY + 1) (OldEmptyOrNewAt k body.now (seen_cells (BODY + 1) self.old)) self.old self.new }
        ensures replaced { self.old.keeps ≡ true → OnOk result (Replaced (BODY + 1) k body.now self.old self.new) }
    {
        let mut held = [0; BODY];
        let full = self.read_cell(k, &mut held)?;
        self.replace_known(k, full, body)
    }
}
