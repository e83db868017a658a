//! Cells that can only be read.
ghost use Rattle.std.specs.Prelude.{◌≡◌, ◌+◌, ◌<◌, ◌≤◌, true, is_err, take, IfOk};
ghost use Rattle.image_inspection.specs.Seen.{BODY, DiskState, Reads, size_of, cell, cell_count, seen_cells};
ghost use Rattle.image_inspection.specs.Inspected.{inspected_cells, most_cells};
ghost use Rattle.image_inspection.specs.Endings.{has_failed};

use crate::ending::InspectionEnding;
use disk_model::{BODY, CELL, Cells, Disk, DiskFault};
use record_codec::ring::device_cells;
use record_codec::{MOST_ATOMS, MOST_RING};
use std::alloc::Global;

/// The cells of a device that can only be read: no call writes, and none syncs.
pub trait ReadCells {
    /// What the device holds and has held.
    ghost state: { Self → DiskState };

    /// How many bytes the device has.
    fn bytes(&mut self) -> Result<u64, DiskFault>
        ensures size { IfOk result (λ n. n ≡ size_of (state self.old)) }
        ensures reads { Reads (is_err result) (state self.old) (state self.new) };

    /// The body of cell `k`, where it is full.
    fn load_cell(&mut self, k: u64) -> Result<Option<[u8; BODY]>, DiskFault>
        requires { k < cell_count (BODY + 1) (state self.old) }
        ensures reads { Reads (is_err result) (state self.old) (state self.new) }
        ensures loaded { (state self.old).keeps ≡ true
            → IfOk result (λ found. found ≡ cell (seen_cells (BODY + 1) (state self.old)) k) };
}

impl<D: Disk> ReadCells for Cells<D> {
    ghost state = { λ s. s };

    fn bytes(&mut self) -> Result<u64, DiskFault> {
        self.size()
    }

    fn load_cell(&mut self, k: u64) -> Result<Option<[u8; BODY]>, DiskFault> {
        let mut body = [0; BODY];
        if self.read_cell(k, &mut body)? {
            Ok(Some(body))
        } else {
            Ok(None)
        }
    }
}

/// The cells of a device of so many bytes, none past those that an image has at most. Only reading is done.
pub(crate) fn load_cells<C: ReadCells>(
    alloc: Global,
    cells: &mut C,
    bytes: u64,
) -> Result<Vec<Option<[u8; BODY]>>, InspectionEnding>
    requires { bytes ≡ size_of (C.state cells.old) }
    ensures reads { Reads (has_failed result) (C.state cells.old) (C.state cells.new) }
    ensures loaded { (C.state cells.old).keeps ≡ true → IfOk result (λ list. list.items ≡ inspected_cells (C.state cells.old)) }
{
    let count = device_cells(MOST_ATOMS, MOST_RING).min(bytes / CELL);
    load_first(alloc, cells, count)
}

/// The first cells of a device.
fn load_first<C: ReadCells>(
    alloc: Global,
    cells: &mut C,
    count: u64,
) -> Result<Vec<Option<[u8; BODY]>>, InspectionEnding>
    requires inside { count ≤ cell_count (BODY + 1) (C.state cells.old) }
    requires few { count ≤ most_cells }
    ensures reads { Reads (has_failed result) (C.state cells.old) (C.state cells.new) }
    ensures loaded { (C.state cells.old).keeps ≡ true
        → IfOk result (λ list. list.items ≡ take count (seen_cells (BODY + 1) (C.state cells.old))) }
{
    let mut list = Vec::with_capacity(alloc, count as usize)?;
    for k in 0..count {
        list.push_reserved(cells.load_cell(k)?);
    }
    Ok(list)
}
