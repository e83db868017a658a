//! What a boot would answer.
ghost use Rattle.std.specs.Prelude.{◌≡◌, option_copied, IfErr, IfOk};
ghost use Rattle.image_inspection.specs.Inspected.{IsWithin, atoms_told};
ghost use Rattle.image_inspection.specs.Seen.{contents_in, contents_of, digest_of, identity_held, plant_of};
ghost use Rattle.image_inspection.specs.Verdicts.{fault_told};
ghost use Rattle.image_inspection.specs.declared.ending.InspectionEnding.TheVariants.{Memory};
ghost use Rattle.plant_image.specs.Faults.{fault_of};

use crate::bare::bare_fault;
use crate::ending::InspectionEnding;
use disk_model::BODY;
use plant_image::{Held, ImageFault, read_image};
use plant_model::System;
use std::alloc::Global;

/// What is wrong with the image: what a boot of the plant would answer, or what is wrong whatever the plant.
pub(crate) fn fault_told(
    alloc: Global,
    plant: Option<&System>,
    atoms: u16,
    bytes: u64,
    cells: &[Option<[u8; BODY]>],
    held: &Held,
) -> Result<Option<ImageFault>, InspectionEnding>
    requires within { IsWithin held.now }
    requires atoms { atoms ≡ atoms_told (option_copied plant) (identity_held cells.now) }
    requires contents { contents_in held.now ≡ contents_of atoms cells.now }
    ensures fault { IfOk result (λ fault. fault ≡ fault_told (option_copied plant.entry) bytes cells.now) }
    ensures memory { IfErr result (λ ending. ending ≡ Memory) }
{
    match plant {
        Some(system) => boot_fault(alloc, system, bytes, cells),
        None => Ok(bare_fault(atoms, bytes, cells, held)),
    }
}

/// What a boot of the plant would answer, if it would be refused.
fn boot_fault(
    alloc: Global,
    system: &System,
    bytes: u64,
    cells: &[Option<[u8; BODY]>],
) -> Result<Option<ImageFault>, InspectionEnding>
    ensures fault { IfOk result (λ fault. fault ≡ fault_of (plant_of system.now) (digest_of system.now) bytes cells.now) }
    ensures memory { IfErr result (λ ending. ending ≡ Memory) }
{
    match read_image(alloc, system, bytes, cells) {
        Ok(_standing) => Ok(None),
        Err(ImageFault::Memory) => Err(InspectionEnding::Memory),
        Err(fault) => Ok(Some(fault)),
    }
}
