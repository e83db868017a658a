//! Whether an image stands on a device.
ghost use Rattle.std.specs.Prelude.{◌≡◌, ◌+◌, ◌*◌, ◌<◌, ◌≤◌, true, false, is_none, Some, IfOk, IfErr};
ghost use Rattle.disk_model.specs.Cells.{cell, cell_count, seen_cells};
ghost use Rattle.disk_model.specs.DiskState.{Reads, size_of};
ghost use Rattle.disk_model.specs.declared.cells.TheConstants.{BODY};
ghost use Rattle.gated_journal.specs.Bases as bases;
ghost use Rattle.record_codec.specs.Ring.{base_cell, device_cells, identity_cell};
ghost use Rattle.record_codec.specs.declared.layout.TheConstants.{LAST_NUMBER};
ghost use Rattle.plant_image.specs.Contents.{base_held, identity_held};
ghost use Rattle.plant_image.specs.Faults.{base_cell_fault, base_fault, first_cell_fault};
ghost use Rattle.image_backup.specs.Faults.{IsOfCheck, Judges, has_failed, image_fault, size_fault};
ghost use Rattle.image_backup.specs.Fronts.{HasCells, last_held};

use crate::fault::BackupFault;
use crate::front::ImageFront;
use crate::reading::body_of;
use crate::records::live_records;
use disk_model::{CELL, Cells, Disk};
use plant_image::ImageFault;
use record_codec::ring::{IDENTITY_CELL, base_cell, device_cells};
use record_codec::{Base, Identity, VERSION};

/// Whether an image stands on the device, how many cells it has, and how far it leads. Only reading is done.
pub fn check_image<D: Disk + Drop>(disk: D) -> Result<(D, ImageFront), BackupFault>
    ensures reads { IfOk result (λ found. Reads false (D.state disk) (D.state found.0)) }
    ensures sized { IfOk result (λ found. HasCells found.1 (D.state disk)) }
    ensures judged { (D.state disk).keeps ≡ true
        → Judges (image_fault (size_of (D.state disk)) (seen_cells (BODY + 1) (D.state disk)))
        (λ found. found.1.last ≡ last_held (seen_cells (BODY + 1) (D.state disk))) result }
    ensures silent { IfErr result IsOfCheck }
{
    let mut cells = Cells::new(disk);
    match front_of(&mut cells) {
        Ok(front) => Ok((cells.into_disk(), front)),
        Err(fault) => Err(fault),
    }
}

/// How many cells the image has, and how far it leads.
fn front_of<D: Disk>(cells: &mut Cells<D>) -> Result<ImageFront, BackupFault>
    ensures reads { Reads (has_failed result) cells.old cells.new }
    ensures sized { IfOk result (λ front. HasCells front cells.old) }
    ensures judged { cells.old.keeps ≡ true → Judges (image_fault (size_of cells.old) (seen_cells (BODY + 1) cells.old))
        (λ front. front.last ≡ last_held (seen_cells (BODY + 1) cells.old)) result }
    ensures silent { IfErr result IsOfCheck }
{
    let identity = identity_of(cells)?;
    let base = base_of(cells)?;
    let records = live_records(cells, identity.atoms(), identity.ring(), base)?;
    Ok(ImageFront {
        cells: device_cells(identity.atoms(), identity.ring()),
        last: base + records - 1,
    })
}

/// What the device was formatted for. It has the size for it.
fn identity_of<D: Disk>(cells: &mut Cells<D>) -> Result<Identity, BackupFault>
    ensures reads { Reads (has_failed result) cells.old cells.new }
    ensures sized { IfOk result (λ identity. size_of cells.old ≡ (BODY + 1) * device_cells identity.atoms identity.ring) }
    ensures judged { cells.old.keeps ≡ true → Judges (size_fault (size_of cells.old) (seen_cells (BODY + 1) cells.old))
        (λ identity. identity_held (seen_cells (BODY + 1) cells.old) ≡ Some identity) result }
    ensures silent { IfErr result IsOfCheck }
{
    let bytes = cells.size()?;
    if bytes < CELL {
        return Err(BackupFault::Image(ImageFault::WrongSize));
    }
    let identity = first_cell(cells)?;
    if bytes != CELL * device_cells(identity.atoms(), identity.ring()) {
        return Err(BackupFault::Image(ImageFault::WrongSize));
    }
    Ok(identity)
}

/// What the first cell says that the device was formatted for.
fn first_cell<D: Disk>(cells: &mut Cells<D>) -> Result<Identity, BackupFault>
    requires { identity_cell < cell_count (BODY + 1) cells.old }
    ensures reads { Reads (has_failed result) cells.old cells.new }
    ensures judged { cells.old.keeps ≡ true → Judges (first_cell_fault (cell (seen_cells (BODY + 1) cells.old) identity_cell))
        (λ identity. identity_held (seen_cells (BODY + 1) cells.old) ≡ Some identity) result }
    ensures silent { IfErr result IsOfCheck }
{
    let Some(body) = body_of(cells, IDENTITY_CELL)? else {
        return Err(BackupFault::Image(ImageFault::NotFormatted));
    };
    match Identity::version_in(&body) {
        None => return Err(BackupFault::Image(ImageFault::NotFormatted)),
        Some(VERSION) => {}
        Some(_) => return Err(BackupFault::Image(ImageFault::OtherVersion)),
    }
    match Identity::from_body(&body) {
        Some(identity) => Ok(identity),
        None => Err(BackupFault::Image(ImageFault::Damaged(IDENTITY_CELL))),
    }
}

/// The base that counts: the greater of the two, and the only one where one cell is empty.
fn base_of<D: Disk>(cells: &mut Cells<D>) -> Result<u64, BackupFault>
    requires { base_cell 1 < cell_count (BODY + 1) cells.old }
    ensures reads { Reads (has_failed result) cells.old cells.new }
    ensures in_range { IfOk result (λ base. (1 ≤ base) × (base ≤ LAST_NUMBER + 1)) }
    ensures judged { cells.old.keeps ≡ true → Judges (base_fault (seen_cells (BODY + 1) cells.old))
        (λ base. base ≡ base_held (seen_cells (BODY + 1) cells.old)) result }
    ensures silent { IfErr result IsOfCheck }
{
    let first = base_at(cells, 0)?;
    let second = base_at(cells, 1)?;
    match (first, second) {
        (None, None) => Err(BackupFault::Image(ImageFault::Damaged(base_cell(0)))),
        (Some(base), None) | (None, Some(base)) => Ok(base.number()),
        (Some(first), Some(second)) => Ok(first.number().max(second.number())),
    }
}

/// The base that base cell 0 or 1 holds.
fn base_at<D: Disk>(cells: &mut Cells<D>, base: u8) -> Result<Option<Base>, BackupFault>
    requires { base_cell base < cell_count (BODY + 1) cells.old }
    ensures reads { Reads (has_failed result) cells.old cells.new }
    ensures judged { cells.old.keeps ≡ true → Judges (base_cell_fault (seen_cells (BODY + 1) cells.old) base)
        (λ found. (found ≡ bases.base_held (cell (seen_cells (BODY + 1) cells.old) (base_cell base)))
        × (is_none found ≡ is_none (cell (seen_cells (BODY + 1) cells.old) (base_cell base)))) result }
    ensures silent { IfErr result IsOfCheck }
{
    let k = base_cell(base);
    let Some(body) = body_of(cells, k)? else {
        return Ok(None);
    };
    match Base::from_body(&body) {
        Some(base) => Ok(Some(base)),
        None => Err(BackupFault::Image(ImageFault::Damaged(k))),
    }
}
