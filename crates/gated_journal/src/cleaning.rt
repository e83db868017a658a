//! What cleaning does to the cells.
ghost use Rattle.std.specs.Prelude.{◌≡◌, ◌+◌, ◌<◌, ◌≤◌, true, length, take, is_ok, is_err, OnOk};
ghost use Rattle.std.specs.List.{filter};
ghost use Rattle.disk_model.specs.DiskState.{Counts, IsSettled};
ghost use Rattle.disk_model.specs.Cells.{cell_count, seen_cells, Leaves};
ghost use Rattle.gated_journal.specs.Rings.{IsRing, IsWhole, IsFoundFor, cells_of_ring, is_full_in};
ghost use Rattle.gated_journal.specs.Stops.{IsReady, HasCleaned};

use crate::ring::{Ring, write_places};
use disk_model::{BODY, Cells, Disk, DiskFault};

/// Whether cell `k` was found full. A cell past the end of the list counts as empty.
fn is_full(found: &[Option<[u8; BODY]>], k: u64) -> bool
    ensures { result ≡ is_full_in found.now k }
{
    matches!(found.get(k as usize), Some(Some(_)))
}

/// Moves those of the cells that were found full to the front, and says how many these are.
fn keep_full(found: &[Option<[u8; BODY]>], places: &mut [u64]) -> usize
    ensures few { result ≤ length places.new }
    ensures kept { take result places.new ≡ filter (is_full_in found.now) places.old }
{
    let mut count = 0;
    for i in 0..places.len() {
        let k = places[i];
        if is_full(found, k) {
            places[count] = k;
            count += 1;
        }
    }
    count
}

/// Empties the cell of each record that is not live, if it was found full. In `room` it writes down their cells.
pub(crate) fn clean<D: Disk>(
    cells: &mut Cells<D>,
    ring: Ring,
    room: &mut [u64],
    found: &[Option<[u8; BODY]>],
) -> Result<(), DiskFault>
    requires ring { IsRing ring }
    requires as_many { ring.last + 1 + length room.old ≡ ring.base + ring.ring }
    requires inside { cells_of_ring ring ≤ cell_count (BODY + 1) cells.old }
    requires settled { cells.old.keeps ≡ true → IsSettled cells.old.now }
    requires whole { cells.old.keeps ≡ true → IsWhole ring (seen_cells (BODY + 1) cells.old) }
    requires found { cells.old.keeps ≡ true → IsFoundFor ring (seen_cells (BODY + 1) cells.old) found.now }
    ensures counts { Counts (is_err result) (is_ok result) cells.old cells.new }
    ensures leaves { cells.old.keeps ≡ true
        → Leaves (BODY + 1) (HasCleaned ring (seen_cells (BODY + 1) cells.old)) cells.old cells.new }
    ensures cleaned { cells.old.keeps ≡ true → OnOk result (IsReady ring cells.new) }
{
    write_places(ring, ring.last + 1, room);
    let count = keep_full(found, room);
    // No cell of a live record is among these, and the one after the last ends the list whether it is emptied or not.
    cells.erase_full_run(&room[..count])
}
