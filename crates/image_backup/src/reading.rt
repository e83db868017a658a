//! The body of one cell.
ghost use Rattle.std.specs.Prelude.{◌≡◌, ◌+◌, ◌<◌, true, is_err, IfOk};
ghost use Rattle.disk_model.specs.Cells.{cell, cell_count, seen_cells};
ghost use Rattle.disk_model.specs.DiskState.{Reads};
ghost use Rattle.disk_model.specs.declared.cells.TheConstants.{BODY};

use disk_model::{BODY, Cells, Disk, DiskFault};

/// The body of cell `k`, where it is full.
pub(crate) fn body_of<D: Disk>(
    cells: &mut Cells<D>,
    k: u64,
) -> Result<Option<[u8; BODY]>, DiskFault>
    requires inside { k < cell_count (BODY + 1) cells.old }
    ensures cell { cells.old.keeps ≡ true → IfOk result (λ held. held ≡ cell (seen_cells (BODY + 1) cells.old) k) }
    ensures reads { Reads (is_err result) cells.old cells.new }
{
    let mut body = [0; BODY];
    if cells.read_cell(k, &mut body)? {
        Ok(Some(body))
    } else {
        Ok(None)
    }
}
