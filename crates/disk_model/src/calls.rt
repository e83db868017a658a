//! The device calls on one cell. Only these functions and their proofs speak of bytes.
ghost use Rattle.std.specs.Prelude.{◌≡◌, ◌≢◌, ◌+◌, ◌*◌, ◌<◌, ◌==◌, ℕ, List, true, false, if◌then◌else◌, length, slice_index, is_err, IfOk, OnOk, Some, None};
ghost use Rattle.disk_model.specs.DiskState.{Counts, IsUnchanged};
ghost use Rattle.disk_model.specs.Cells.{cell_count, body_at, cell, seen_cells, IsClosed};
ghost use Rattle.disk_model.specs.Steps.{ChangesOne, IsAsBefore, IsAsBeforeOrEmpty, IsEmptied, IsEmptyOr, HasBody, Steps, IsFirm};
ghost use Rattle.disk_model.specs.declared.calls.Known.TheVariants.{Full};

use crate::{Disk, DiskFault};

/// The gate of a full cell. At any other value the cell is empty.
const OPEN: u8 = 0xA5;

const CLOSED: u8 = 0;

/// What the caller knows of cells that are to be emptied.
#[derive(Clone, Copy)]
pub(crate) enum Known {
    /// Nothing, so that their gates have to be read.
    Nothing,
    /// They read full, so that no gate has to be read.
    Full,
}

/// Whether the gate of cell `k` is open. It is read only if that is not known.
fn gate_is_open<D: Disk, const B: usize>(
    disk: &mut D,
    k: u64,
    known: Known,
) -> Result<bool, DiskFault>
    requires inside { k < cell_count (B + 1) (D.state disk.old) }
    requires full { (D.state disk.old).keeps ≡ true → known ≡ Full → cell (seen_cells (B + 1) (D.state disk.old)) k ≢ None }
    ensures gate { (D.state disk.old).keeps ≡ true → IfOk result
        (λ is_open. is_open ≡ (slice_index (D.state disk.old).now.seen ((B + 1) * k) == 165)) }
    ensures counts { Counts (is_err result) false (D.state disk.old) (D.state disk.new) }
    ensures same { (D.state disk.old).keeps ≡ true → IsUnchanged (D.state disk.old) (D.state disk.new) }
{
    match known {
        Known::Full => Ok(true),
        Known::Nothing => {
            let mut gate = [CLOSED];
            disk.read_at((B as u64 + 1) * k, &mut gate)?;
            Ok(gate[0] == OPEN)
        }
    }
}

/// Whether cell `k` is full, and its body then. One call reads it into `whole`, the gate with the body.
pub(crate) fn read_full<D: Disk, const B: usize>(
    disk: &mut D,
    k: u64,
    body: &mut [u8; B],
    whole: &mut [u8],
) -> Result<bool, DiskFault>
    requires inside { k < cell_count (B + 1) (D.state disk.old) }
    requires room { length whole.old ≡ B + 1 }
    ensures cell { (D.state disk.old).keeps ≡ true → IfOk result
        (λ full. cell (seen_cells (B + 1) (D.state disk.old)) k ≡ (if full then Some body.new else None)) }
    ensures counts { Counts (is_err result) false (D.state disk.old) (D.state disk.new) }
    ensures same { (D.state disk.old).keeps ≡ true → IsUnchanged (D.state disk.old) (D.state disk.new) }
{
    disk.read_at((B as u64 + 1) * k, whole)?;
    if whole[0] != OPEN {
        return Ok(false);
    }
    body.copy_from_slice(&whole[1..]);
    Ok(true)
}

/// Writes the body of cell `k`. It is closed, so that no stop shows what stands there.
pub(crate) fn write_body<D: Disk, const B: usize>(
    disk: &mut D,
    k: u64,
    body: &[u8; B],
) -> Result<(), DiskFault>
    requires inside { k < cell_count (B + 1) (D.state disk.old) }
    requires closed { (D.state disk.old).keeps ≡ true → IsClosed (B + 1) (D.state disk.old) k }
    ensures counts { Counts (is_err result) false (D.state disk.old) (D.state disk.new) }
    ensures steps { (D.state disk.old).keeps ≡ true → Steps (B + 1) k IsAsBefore (D.state disk.old) (D.state disk.new) }
    ensures seen { (D.state disk.old).keeps ≡ true → OnOk result
        (ChangesOne k IsAsBefore (seen_cells (B + 1) (D.state disk.old)) (seen_cells (B + 1) (D.state disk.new))) }
    ensures written { (D.state disk.old).keeps ≡ true → OnOk result
        (body_at (B + 1) (D.state disk.new).now.seen k ≡ body.now) }
    ensures others { (D.state disk.old).keeps ≡ true → OnOk result
        ((j : ℕ) → j ≢ k → body_at (B + 1) (D.state disk.new).now.seen j ≡ body_at (B + 1) (D.state disk.old).now.seen j) }
{
    disk.write_at((B as u64 + 1) * k + 1, body)
}

/// Closes the gate of cell `k` if it is open. The gate of a closed cell is not written: torn, it could come open
/// over whatever body stands there.
pub(crate) fn close_gate<D: Disk, const B: usize>(
    disk: &mut D,
    k: u64,
    known: Known,
) -> Result<(), DiskFault>
    requires inside { k < cell_count (B + 1) (D.state disk.old) }
    requires full { (D.state disk.old).keeps ≡ true → known ≡ Full → cell (seen_cells (B + 1) (D.state disk.old)) k ≢ None }
    ensures counts { Counts (is_err result) false (D.state disk.old) (D.state disk.new) }
    ensures steps { (D.state disk.old).keeps ≡ true → Steps (B + 1) k IsAsBeforeOrEmpty (D.state disk.old) (D.state disk.new) }
    ensures seen { (D.state disk.old).keeps ≡ true → OnOk result
        (ChangesOne k IsEmptied (seen_cells (B + 1) (D.state disk.old)) (seen_cells (B + 1) (D.state disk.new))) }
    ensures untouched { (D.state disk.old).keeps ≡ true → cell (seen_cells (B + 1) (D.state disk.old)) k ≡ None
        → IsUnchanged (D.state disk.old) (D.state disk.new) }
{
    if gate_is_open::<D, B>(disk, k, known)? {
        disk.write_at((B as u64 + 1) * k, &[CLOSED])?;
    }
    Ok(())
}

/// Opens the gate of cell `k`.
pub(crate) fn open_gate<D: Disk, const B: usize>(disk: &mut D, k: u64) -> Result<(), DiskFault>
    requires inside { k < cell_count (B + 1) (D.state disk.old) }
    ensures counts { Counts (is_err result) false (D.state disk.old) (D.state disk.new) }
    ensures steps { (D.state disk.old).keeps ≡ true → (body : List ℕ) → IsFirm (B + 1) (D.state disk.old) k body
        → Steps (B + 1) k (IsEmptyOr body) (D.state disk.old) (D.state disk.new) }
    ensures firm { (D.state disk.old).keeps ≡ true → (j : ℕ) (body : List ℕ) → IsFirm (B + 1) (D.state disk.old) j body
        → IsFirm (B + 1) (D.state disk.new) j body }
    ensures seen { (D.state disk.old).keeps ≡ true → OnOk result
        (ChangesOne k (HasBody (body_at (B + 1) (D.state disk.old).now.seen k)) (seen_cells (B + 1) (D.state disk.old)) (seen_cells (B + 1) (D.state disk.new))) }
    ensures bodies { (D.state disk.old).keeps ≡ true → OnOk result
        ((j : ℕ) → body_at (B + 1) (D.state disk.new).now.seen j ≡ body_at (B + 1) (D.state disk.old).now.seen j) }
{
    disk.write_at((B as u64 + 1) * k, &[OPEN])
}
