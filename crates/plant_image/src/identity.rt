//! The first cell, and the size that it tells.
ghost use Rattle.std.specs.Prelude.{◌≡◌, Some, length};
ghost use Rattle.disk_model.specs.Cells.{cell};
ghost use Rattle.record_codec.specs.Ring.{identity_cell};
ghost use Rattle.plant_model.specs.System.{plant_of, digest_of};
ghost use Rattle.plant_image.specs.Contents.{identity_held};
ghost use Rattle.plant_image.specs.Faults.{first_cell_fault, identity_fault};
ghost use Rattle.plant_image.specs.Reading.{Tells};

use crate::bodies::body_of;
use crate::fault::ImageFault;
use disk_model::{BODY, CELL};
use plant_model::System;
use record_codec::ring::{IDENTITY_CELL, device_cells};
use record_codec::{Identity, VERSION};

/// What the device was formatted for. It is this system, and the device has the size for it.
pub(crate) fn read_identity(
    system: &System,
    bytes: u64,
    cells: &[Option<[u8; BODY]>],
) -> Result<Identity, ImageFault>
    ensures { Tells (identity_fault (length (plant_of system.now).atoms) (digest_of system.now) bytes cells.now)
        (λ identity. (identity_held cells.now ≡ Some identity) × (identity.atoms ≡ length (plant_of system.now).atoms)) result }
{
    if bytes < CELL {
        return Err(ImageFault::WrongSize);
    }
    let identity = identity_in(cells)?;
    if usize::from(identity.atoms()) != system.atoms().len()
        || identity.digest() != system.digest()
    {
        return Err(ImageFault::OtherSystem);
    }
    if bytes != CELL * device_cells(identity.atoms(), identity.ring()) {
        return Err(ImageFault::WrongSize);
    }
    Ok(identity)
}

/// The identity that the first cell holds.
fn identity_in(cells: &[Option<[u8; BODY]>]) -> Result<Identity, ImageFault>
    ensures { Tells (first_cell_fault (cell cells.now identity_cell)) (λ identity. identity_held cells.now ≡ Some identity) result }
{
    let Some(body) = body_of(cells, IDENTITY_CELL) else {
        return Err(ImageFault::NotFormatted);
    };
    match Identity::version_in(body) {
        None => return Err(ImageFault::NotFormatted),
        Some(VERSION) => {}
        Some(_) => return Err(ImageFault::OtherVersion),
    }
    match Identity::from_body(body) {
        Some(identity) => Ok(identity),
        None => Err(ImageFault::Damaged(IDENTITY_CELL)),
    }
}
