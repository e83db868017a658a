//! The base cells.
ghost use Rattle.std.specs.Prelude.{◌≡◌, ◌+◌, ◌≤◌, is_none, IfOk, IfSome};
ghost use Rattle.disk_model.specs.Cells.{cell};
ghost use Rattle.gated_journal.specs.Bases as bases;
ghost use Rattle.record_codec.specs.Ring.{base_cell};
ghost use Rattle.record_codec.specs.declared.layout.TheConstants.{LAST_NUMBER};
ghost use Rattle.plant_image.specs.Contents.{base_held};
ghost use Rattle.plant_image.specs.Faults.{base_cell_fault, base_fault};
ghost use Rattle.plant_image.specs.Reading.{Tells};

use crate::bodies::body_of;
use crate::fault::ImageFault;
use disk_model::BODY;
use record_codec::Base;
use record_codec::ring::base_cell;

/// The base that counts.
#[derive(Drop)]
pub(crate) struct CountingBase {
    /// Its cell.
    pub(crate) cell: u64,
    /// The number of the first record that is kept.
    pub(crate) base: u64,
}

/// The base that counts: the greater of the two, and the first if both are equal.
pub(crate) fn read_base(cells: &[Option<[u8; BODY]>]) -> Result<CountingBase, ImageFault>
    ensures base { Tells (base_fault cells.now)
        (λ found. (found.cell ≡ bases.base_cell_of cells.now) × (found.base ≡ base_held cells.now)) result }
    ensures cell { IfOk result (λ found. (base_cell 0 ≤ found.cell) × (found.cell ≤ base_cell 1)) }
    ensures in_range { IfOk result (λ found. (1 ≤ found.base) × (found.base ≤ LAST_NUMBER + 1)) }
{
    let first = base_at(cells, 0)?;
    let second = base_at(cells, 1)?;
    match (first, second) {
        (None, None) => Err(ImageFault::Damaged(base_cell(0))),
        (Some(first), None) => Ok(counting(0, first)),
        (None, Some(second)) => Ok(counting(1, second)),
        (Some(first), Some(second)) => {
            if first.number() < second.number() {
                Ok(counting(1, second))
            } else {
                Ok(counting(0, first))
            }
        }
    }
}

/// The base that base cell 0 or 1 holds.
fn base_at(cells: &[Option<[u8; BODY]>], base: u8) -> Result<Option<Base>, ImageFault>
    ensures { Tells (base_cell_fault cells.now base)
        (λ found. (found ≡ bases.base_held (cell cells.now (base_cell base))) × (is_none found ≡ is_none (cell cells.now (base_cell base)))) result }
{
    let k = base_cell(base);
    let Some(body) = body_of(cells, k) else {
        return Ok(None);
    };
    match Base::from_body(body) {
        Some(base) => Ok(Some(base)),
        None => Err(ImageFault::Damaged(k)),
    }
}

/// The base in base cell 0 or 1, as the one that counts.
fn counting(base: u8, held: Base) -> CountingBase
    ensures cell { result.cell ≡ base_cell base }
    ensures base { result.base ≡ held }
    ensures in_range { (1 ≤ held) × (held ≤ LAST_NUMBER + 1) }
{
    CountingBase {
        cell: base_cell(base),
        base: held.number(),
    }
}
