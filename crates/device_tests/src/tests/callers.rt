//! A caller of two calls that knows only that there is a device, and a device on which its conditions are met.
ghost use Rattle.std.specs.Prelude.{◌≡◌, ◌+◌, ◌<◌, ◌≤◌, List, true, length, IfOk, OnOk, Some};
ghost use Rattle.disk_model.specs.DiskState.{size_of};
ghost use Rattle.disk_model.specs.Cells.{cell_count, seen_cells, Leaves};
ghost use Rattle.record_codec.specs.declared.layout.TheConstants.{LAST_NUMBER};
ghost use Rattle.record_codec.specs.Fired.{FiredFields, fired_in};
ghost use Rattle.gated_journal.specs.Live.{AreRecords};
ghost use Rattle.gated_journal.specs.Bases.{IsBased};
ghost use Rattle.gated_journal.specs.Rings.{IsReadFor, cells_of_ring, appended};
ghost use Rattle.gated_journal.specs.Stops.{IsReady, moved};
ghost use Rattle.device_tests.specs.AppendThenMove.{IsFollowedOrCut, empty_journal, record_of};

use disk_model::{BODY, CELL, Cells, Disk, DiskFault, MemDisk};
use gated_journal::Journal;
use record_codec::{Base, Entry, Fired};
use std::alloc::{AllocError, Global};
use std::test::Fail;

/// Appends a batch and drops the records before `base`. A stop at any moment of both leaves the old records and a front of the
/// batch, or the records from `base` on.
fn append_then_move<D: Disk>(
    cells: &mut Cells<D>,
    journal: &mut Journal,
    bodies: &[[u8; BODY]],
    base: u64,
) -> Result<(), DiskFault>
    requires room { journal.old.last + length bodies.now < journal.old.base + journal.old.ring }
    requires in_range { journal.old.last + length bodies.now ≤ LAST_NUMBER }
    requires above { journal.old.base < base }
    requires within { base ≤ journal.old.last + length bodies.now + 1 }
    requires inside { cells_of_ring journal.old ≤ cell_count (BODY + 1) cells.old }
    requires ready { cells.old.keeps ≡ true → IsReady journal.old cells.old }
    requires based { cells.old.keeps ≡ true → IsBased journal.old (seen_cells (BODY + 1) cells.old) }
    requires records { cells.old.keeps ≡ true → (news : List FiredFields) × AreRecords (journal.old.last + 1) bodies.now news }
    ensures journal { OnOk result (journal.new ≡ moved base (appended (length bodies.now) journal.old)) }
    ensures leaves { cells.old.keeps ≡ true → (news : List FiredFields) → AreRecords (journal.old.last + 1) bodies.now news
        → Leaves (BODY + 1) (IsFollowedOrCut base journal.old news (seen_cells (BODY + 1) cells.old)) cells.old cells.new }
    ensures ready { cells.old.keeps ≡ true → OnOk result (IsReady (moved base (appended (length bodies.now) journal.old)) cells.new) }
{
    journal.append_run(cells, bodies)?;
    journal.move_base(cells, base)
}

/// A new device with base 1, for a ring of eight records after the slots of two atoms.
fn new_cells(alloc: Global) -> Result<Cells<MemDisk>, Fail>
    ensures keeps { IfOk result (λ s. s.keeps ≡ true) }
    ensures size { IfOk result (λ s. size_of s ≡ 15360) }
    ensures ready { IfOk result (λ s. IsReady empty_journal s) }
    ensures read { IfOk result (λ s. IsReadFor empty_journal (seen_cells (BODY + 1) s)) }
{
    let disk = MemDisk::with_cells(alloc, 15 * CELL, 64, CELL)?;
    let mut cells = Cells::new(disk);
    cells.sync()?;
    let base = Base::new(1);
    cells.replace(1, &base.to_body())?;
    Ok(cells)
}

fn new_journal<D: Disk>(alloc: Global, cells: &Cells<D>) -> Result<Journal, AllocError>
    requires { cells.now.keeps ≡ true → IsReadFor empty_journal (seen_cells (BODY + 1) cells.now) }
    ensures { IfOk result (λ j. j ≡ empty_journal) }
{
    Journal::of(alloc, cells, 2, 8, 1, 1, 0)
}

/// The body of record `n`, in which atom 0 fired for the first time.
fn body_of(n: u64) -> [u8; BODY]
    requires positive { 1 ≤ n }
    requires in_range { n ≤ LAST_NUMBER }
    ensures { fired_in result ≡ Some (record_of n) }
{
    let entry = Entry {
        atom: 0,
        transition: 0,
        participation: 1,
        delivered: [None; 4],
    };
    Fired::new(n, 0, &[entry]).to_body()
}

/// Appends records 1 to 3, and keeps the last of them.
fn keep_the_last_of_three<D: Disk>(
    cells: &mut Cells<D>,
    journal: &mut Journal,
) -> Result<(), DiskFault>
    requires journal { journal.old ≡ empty_journal }
    requires size { size_of cells.old ≡ 15360 }
    requires ready { cells.old.keeps ≡ true → IsReady empty_journal cells.old }
    requires read { cells.old.keeps ≡ true → IsReadFor empty_journal (seen_cells (BODY + 1) cells.old) }
{
    append_then_move(cells, journal, &[body_of(1), body_of(2), body_of(3)], 3)
}

/// On a device that keeps the model: what an append and a move of the base ask for can be met.
#[test]
fn a_batch_is_appended_and_the_base_is_moved(rt: HostRuntime) -> Result<(), Fail> {
    let mut cells = new_cells(rt.alloc())?;
    let made = new_journal(rt.alloc(), &cells);
    let mut journal = made?;
    keep_the_last_of_three(&mut cells, &mut journal)?;
    assert_eq!(rt; (journal.base(), journal.last()), (3, 3));
    Ok(())
}
