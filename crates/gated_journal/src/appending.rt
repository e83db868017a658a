//! What appending does to the cells.
ghost use Rattle.std.specs.Prelude.{◌≡◌, ◌+◌, ◌<◌, ◌≤◌, List, true, length, is_ok, OnOk};
ghost use Rattle.disk_model.specs.DiskState.{CountsTwo};
ghost use Rattle.disk_model.specs.Cells.{cell_count, seen_cells, Leaves};
ghost use Rattle.record_codec.specs.Fired.{FiredFields};
ghost use Rattle.gated_journal.specs.Live.{AreRecords};
ghost use Rattle.gated_journal.specs.Rings.{IsRing, cells_of_ring};
ghost use Rattle.gated_journal.specs.Stops.{IsReady, HasAppended, HasAppendedAll};

use crate::ring::{Ring, write_places};
use disk_model::{BODY, Cells, Disk, DiskFault};

/// Appends the records that the bodies hold. In `room` it writes down their cells.
pub(crate) fn append<D: Disk>(
    cells: &mut Cells<D>,
    ring: Ring,
    room: &mut [u64],
    bodies: &[[u8; BODY]],
) -> Result<(), DiskFault>
    requires ring { IsRing ring }
    requires as_many { length room.old ≡ length bodies.now }
    requires room { ring.last + length bodies.now < ring.base + ring.ring }
    requires inside { cells_of_ring ring ≤ cell_count (BODY + 1) cells.old }
    requires ready { cells.old.keeps ≡ true → IsReady ring cells.old }
    ensures counts { CountsTwo (is_ok result) cells.old cells.new }
    ensures leaves { cells.old.keeps ≡ true → (news : List FiredFields) → AreRecords (ring.last + 1) bodies.now news
        → Leaves (BODY + 1) (HasAppended ring news (seen_cells (BODY + 1) cells.old)) cells.old cells.new }
    ensures appended { cells.old.keeps ≡ true → (news : List FiredFields) → AreRecords (ring.last + 1) bodies.now news
        → OnOk result (HasAppendedAll ring news cells.old cells.new) }
{
    write_places(ring, ring.last + 1, room);
    // The cells are all closed: a stop before the last sync leaves each of them empty or with its whole body, so that a front
    // of the records is live, up to the first closed one.
    cells.set_run(room, bodies)
}
