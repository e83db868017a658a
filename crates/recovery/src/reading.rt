//! The cells of a device of either layout, read as today's.
ghost use Rattle.std.specs.Prelude.{◌≡◌, ◌+◌, ◌-◌, ◌/◌, ◌^◌, ◌<◌, ◌≤◌, ℕ, List, true, length, is_err, IfOk};
ghost use Rattle.plant_image.specs.Faults.{cell_bytes};
ghost use Rattle.recovery.specs.Seen.{DiskState, Reads, size_of, Cell, cell, cell_count, cells_in, seen_cells};
ghost use Rattle.recovery.specs.OldImage.{todays_body_at, todays_cells, todays_size};

use disk_model::{BODY, Cells, Disk, DiskFault, FIRST_BODY, FirstCells};
use record_codec::ring::{IDENTITY_CELL, device_cells};
use record_codec::v1::{todays_body, todays_identity, todays_record};

/// A device whose cells are read as today's.
pub(crate) trait ReadAsToday {
    /// What the device holds and has held.
    ghost state: { Self → DiskState };

    /// How many bytes a cell has on the device.
    ghost bytes_of_cell: { ℕ };

    /// Today's cells of those of a device for so many atoms.
    ghost todays: { ℕ → List Cell → List Cell };

    /// How many bytes these take in place of so many.
    ghost todays_bytes: { ℕ → ℕ };

    /// How many bytes today's cells of the device take.
    fn bytes(&mut self) -> Result<u64, DiskFault>
        ensures size { IfOk result (λ n. n ≡ todays_bytes (size_of (state self.old))) }
        ensures reads { Reads (is_err result) (state self.old) (state self.new) };

    /// Today's body of cell `k` of a device for so many atoms, where it is full.
    fn load_cell(&mut self, atoms: u16, k: u64) -> Result<Option<[u8; BODY]>, DiskFault>
        requires { k < cell_count bytes_of_cell (state self.old) }
        ensures reads { Reads (is_err result) (state self.old) (state self.new) }
        ensures loaded { (state self.old).keeps ≡ true
            → IfOk result (λ found. found ≡ cell (todays atoms (seen_cells bytes_of_cell (state self.old))) k) };

    /// Each cell has one of today's.
    ghost as_many: { (atoms : ℕ) (cells : List Cell) → length (todays atoms cells) ≡ length cells };

    /// The bytes tell no more cells than there are.
    ghost no_more: { (n : ℕ) → cells_in cell_bytes (todays_bytes n) ≤ cells_in bytes_of_cell n };

    /// They tell how many, if a `u64` does.
    ghost exact: { (n : ℕ) → cells_in cell_bytes (todays_bytes n) < 2 ^ 54 - 1 → cells_in cell_bytes (todays_bytes n) ≡ cells_in bytes_of_cell n };
}

impl<D: Disk> ReadAsToday for Cells<D> {
    ghost use Rattle.std.specs.Prelude.{refl};
    ghost use Rattle.disk_model.specs.declared.cells.TheConstants.{BODY};
    ghost use Rattle.recovery.specs.OldImage.{no_more_same};

    ghost state = { λ s. s };

    ghost bytes_of_cell = { BODY + 1 };

    ghost todays = { λ _ cells. cells };

    ghost todays_bytes = { λ n. n };

    fn bytes(&mut self) -> Result<u64, DiskFault> {
        self.size()
    }

    fn load_cell(&mut self, _atoms: u16, k: u64) -> Result<Option<[u8; BODY]>, DiskFault> {
        let mut body = [0; BODY];
        if self.read_cell(k, &mut body)? {
            Ok(Some(body))
        } else {
            Ok(None)
        }
    }

    ghost as_many = { λ _ cells. refl };

    ghost no_more = { no_more_same };

    ghost exact = { λ _ _. refl };
}

impl<D: Disk> ReadAsToday for FirstCells<D> {
    ghost use Rattle.disk_model.specs.declared.cells.TheConstants.{FIRST_BODY};
    ghost use Rattle.recovery.specs.OldImage.{length-todays_cells, no_more_todays, exact_todays};

    ghost state = { λ s. s.cells };

    ghost bytes_of_cell = { FIRST_BODY + 1 };

    ghost todays = { todays_cells };

    ghost todays_bytes = { todays_size };

    fn bytes(&mut self) -> Result<u64, DiskFault> {
        Ok(self.cells.size()?.saturating_mul(2))
    }

    fn load_cell(&mut self, atoms: u16, k: u64) -> Result<Option<[u8; BODY]>, DiskFault> {
        let mut body = [0; FIRST_BODY];
        if self.read_cell(k, &mut body)? {
            Ok(Some(todays_body_at(atoms, k, &body)))
        } else {
            Ok(None)
        }
    }

    ghost as_many = { length-todays_cells };

    ghost no_more = { no_more_todays };

    ghost exact = { exact_todays };
}

/// Today's body of one of the first layout that stands in cell `k` of a device for so many atoms.
fn todays_body_at(atoms: u16, k: u64, body: &[u8; FIRST_BODY]) -> [u8; BODY]
    ensures { result ≡ todays_body_at atoms k body.now }
{
    if k == IDENTITY_CELL {
        todays_identity(body)
    } else if k < device_cells(atoms, 0) {
        todays_body(body)
    } else {
        todays_record(body)
    }
}
