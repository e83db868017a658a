//! The cells of the first layout, which are read and never written.
ghost use Rattle.std.specs.Prelude.{◌≡◌, ◌+◌, ◌<◌, true, if◌then◌else◌, is_err, IfOk, Some, None};
ghost use Rattle.disk_model.specs.DiskState.{Reads};
ghost use Rattle.disk_model.specs.Cells.{cell_count, cell, seen_cells};

use crate::calls::read_full;
use crate::cells::{Cells, FIRST_BODY, FIRST_CELL_LEN};
use crate::{Disk, DiskFault};

/// A device as cells of one gate and a body of [`FIRST_BODY`] bytes, as an image of the first layout has them.
//
// It is a type of its own and no length of body as a parameter of `Cells`: such a parameter would ask of each drop that is
// generic in the device that the whole struct fits in memory.
#[derive(Drop)]
pub struct FirstCells<D: Disk> {
    /// The device. How long its cells are matters to `read_cell` alone.
    pub cells: Cells<D>,
}

impl<D: Disk> FirstCells<D> {
    /// Whether cell `k` is full, and its body then. Of an empty cell, and after a failure, `body` holds anything.
    pub fn read_cell(&mut self, k: u64, body: &mut [u8; FIRST_BODY]) -> Result<bool, DiskFault>
        requires inside { k < cell_count (FIRST_BODY + 1) self.old.cells }
        ensures cell { self.old.cells.keeps ≡ true → IfOk result
            (λ full. cell (seen_cells (FIRST_BODY + 1) self.old.cells) k ≡ (if full then Some body.new else None)) }
        ensures reads { Reads (is_err result) self.old.cells self.new.cells }
    {
        let mut whole = [0; FIRST_CELL_LEN];
        read_full(&mut self.cells.disk, k, body, &mut whole)
    }
}
