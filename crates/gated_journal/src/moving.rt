//! What moving the base does to the cells.
ghost use Rattle.std.specs.Prelude.{◌≡◌, ◌+◌, ◌<◌, ◌≤◌, true, length, is_err, OnOk};
ghost use Rattle.disk_model.specs.DiskState.{CountsUpTo, IsSettled};
ghost use Rattle.disk_model.specs.Cells.{cell_count, seen_cells, Leaves};
ghost use Rattle.gated_journal.specs.Rings.{IsRing, IsReadFor, cells_of_ring};
ghost use Rattle.gated_journal.specs.Stops.{IsMovedOrNot, HasMoved};

use crate::ring::{Ring, write_places};
use disk_model::{BODY, Cells, Disk, DiskFault};
use record_codec::Base;

/// Moves the base, and empties the cells of the records that it drops. In `room` it writes down their cells.
pub(crate) fn move_base<D: Disk>(
    cells: &mut Cells<D>,
    ring: Ring,
    base: u64,
    room: &mut [u64],
) -> Result<(), DiskFault>
    requires ring { IsRing ring }
    requires above { ring.base < base }
    requires within { base ≤ ring.last + 1 }
    requires as_many { ring.base + length room.old ≡ base }
    requires inside { cells_of_ring ring ≤ cell_count (BODY + 1) cells.old }
    requires settled { cells.old.keeps ≡ true → IsSettled cells.old.now }
    requires read { cells.old.keeps ≡ true → IsReadFor ring (seen_cells (BODY + 1) cells.old) }
    ensures counts { CountsUpTo (is_err result) 4 cells.old cells.new }
    ensures leaves { cells.old.keeps ≡ true
        → Leaves (BODY + 1) (IsMovedOrNot base ring (seen_cells (BODY + 1) cells.old)) cells.old cells.new }
    ensures moved { cells.old.keeps ≡ true → OnOk result (HasMoved base ring cells.old cells.new) }
{
    let other = 3 - ring.base_cell;
    // The base that counts stands in the one cell, and the other may go. Until the new base is whole there the old one counts,
    // and from then on the new one: the records that it drops are passed over, whether their cells are full or not.
    cells.replace(other, &Base::new(base).to_body())?;
    write_places(ring, ring.base, room);
    // Emptied before the new base is set, these records would be missed at the front of the list.
    cells.erase_run(room)
}
