//! The live records, as the gates and the numbers of the ring say.
ghost use Rattle.std.specs.Prelude.{◌≡◌, ◌+◌, ◌<◌, ◌≤◌, true, is_err, is_some, length, IfOk, IfErr};
ghost use Rattle.std.specs.List.{range_with_len};
ghost use Rattle.disk_model.specs.Cells.{cell, cell_count, seen_cells};
ghost use Rattle.disk_model.specs.DiskState.{Reads};
ghost use Rattle.disk_model.specs.declared.cells.TheConstants.{BODY};
ghost use Rattle.gated_journal.specs.Live.{live_among, record_in};
ghost use Rattle.record_codec.specs.Ring.{device_cells, record_cell};
ghost use Rattle.record_codec.specs.declared.layout.TheConstants.{LAST_NUMBER, MOST_RING};

use crate::reading::body_of;
use disk_model::{Cells, Disk, DiskFault};
use record_codec::Fired;
use record_codec::ring::record_cell;

/// How many records are live: the base and those after it, up to the first cell that is empty or holds another number.
pub(crate) fn live_records<D: Disk>(
    cells: &mut Cells<D>,
    atoms: u16,
    ring: u32,
    base: u64,
) -> Result<u64, DiskFault>
    requires some { 1 ≤ ring }
    requires few { ring ≤ MOST_RING }
    requires base { base ≤ LAST_NUMBER + 1 }
    requires inside { device_cells atoms ring ≤ cell_count (BODY + 1) cells.old }
    ensures reads { Reads (is_err result) cells.old cells.new }
    ensures few { IfOk result (λ count. count ≤ ring) }
    ensures live { cells.old.keeps ≡ true → IfOk result
        (λ count. count ≡ length (live_among (seen_cells (BODY + 1) cells.old) (record_cell atoms ring) (range_with_len base ring))) }
{
    for number in base..base + u64::from(ring) {
        if !holds_record(cells, record_cell(atoms, ring, number), number)? {
            return Ok(number - base);
        }
    }
    Ok(u64::from(ring))
}

/// Whether cell `k` holds the record with the number.
fn holds_record<D: Disk>(cells: &mut Cells<D>, k: u64, number: u64) -> Result<bool, DiskFault>
    requires { k < cell_count (BODY + 1) cells.old }
    ensures reads { Reads (is_err result) cells.old cells.new }
    ensures holds { cells.old.keeps ≡ true → IfOk result (λ holds. holds ≡ is_some (record_in number (cell (seen_cells (BODY + 1) cells.old) k))) }
{
    let Some(body) = body_of(cells, k)? else {
        return Ok(false);
    };
    match Fired::from_body(&body) {
        Some(fired) => Ok(fired.number() == number),
        None => Ok(false),
    }
}
