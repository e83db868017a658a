//! The reading of a whole image.
ghost use Rattle.std.specs.Prelude.{◌≡◌, None, length, IfOk};
ghost use Rattle.plant_model.specs.Rules.{first_fault_in};
ghost use Rattle.plant_model.specs.System.{plant_of, digest_of};
ghost use Rattle.plant_image.specs.Faults.{cells_fault, fault_of, leading_fault, replay_fault};
ghost use Rattle.plant_image.specs.Reading.{IsHeld, IsLed, IsSound, IsStanding, Tells, contents_in};

use crate::bases::read_base;
use crate::counts::judge_counts;
use crate::fault::ImageFault;
use crate::identity::read_identity;
use crate::records::read_records;
use crate::replaying::replay_all;
use crate::slots::read_slots;
use crate::standing::{Held, Standing};
use disk_model::BODY;
use plant_model::System;
use std::alloc::Global;

/// What an image of so many bytes with these cells stands for, or the first thing that is wrong with it. A cell past the end of the
/// list counts as empty. No device is called.
pub fn read_image(
    alloc: Global,
    system: &System,
    bytes: u64,
    cells: &[Option<[u8; BODY]>],
) -> Result<Standing, ImageFault>
    ensures { Tells (fault_of (plant_of system.now) (digest_of system.now) bytes cells.now)
        (IsStanding (plant_of system.now) cells.now) result }
{
    let held = read_cells(alloc, system, bytes, cells)?;
    lead(alloc, system, held)
}

/// What the cells of such an image hold, or the first thing that is wrong with them. Where the records lead is not asked.
pub fn read_cells(
    alloc: Global,
    system: &System,
    bytes: u64,
    cells: &[Option<[u8; BODY]>],
) -> Result<Held, ImageFault>
    ensures held { Tells (cells_fault (plant_of system.now) (digest_of system.now) bytes cells.now)
        (IsHeld (length (plant_of system.now).atoms) cells.now) result }
    ensures sound { IfOk result (λ held. IsSound (plant_of system.now) (contents_in held)) }
{
    let identity = read_identity(system, bytes, cells)?;
    let base = read_base(cells)?;
    let slots = read_slots(alloc, system, cells)?;
    let ring = identity.ring();
    let records = read_records(alloc, system, ring, base.base, cells)?;
    Ok(Held {
        ring,
        base_cell: base.cell,
        base: base.base,
        slots,
        records,
    })
}

/// Where that leads, with the atoms replayed one after another.
fn lead(alloc: Global, system: &System, held: Held) -> Result<Standing, ImageFault>
    requires { IsSound (plant_of system.now) (contents_in held) }
    ensures { Tells (leading_fault (plant_of system.now) (contents_in held)) (IsLed (plant_of system.now) (contents_in held)) result }
{
    let standing = replay_all(alloc, system, held)?;
    judge_standing(system, standing)
}

/// What stands, of where the records bring the atoms; or of which atom firings are missing at the end. It takes no memory.
pub fn judge_standing(system: &System, standing: Standing) -> Result<Standing, ImageFault>
    requires sound { IsSound (plant_of system.now) (contents_in standing.held) }
    requires none { first_fault_in (replay_fault (contents_in standing.held)) 0 (plant_of system.now).atoms ≡ None }
    requires led { IsLed (plant_of system.now) (contents_in standing.held) standing }
    ensures { Tells (leading_fault (plant_of system.now) (contents_in standing.held)) (IsLed (plant_of system.now) (contents_in standing.held)) result }
{
    system.keeps_its_rules();
    judge_counts(system.atoms(), &standing.held, &standing.counts)?;
    Ok(standing)
}
