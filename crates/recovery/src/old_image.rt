//! Judging what a device of the first layout stands for.
ghost use Rattle.std.specs.Prelude.{◌≡◌, ◌+◌, true, false, IfErr, IfOk, MatchResult};
ghost use Rattle.recovery.specs.Seen.{plant_of, digest_of, Counts, CountsUpTo, size_of, Leaves, MayBe, seen_cells};
ghost use Rattle.recovery.specs.Booting.{IsBootFault, is_disk};
ghost use Rattle.recovery.specs.OldImage.{OldWasRead, old_fault_of};

use crate::fault::BootFault;
use crate::loading::read;
use disk_model::{Cells, Disk, FIRST_BODY, FirstCells};
use plant_image::Standing;
use plant_model::System;
use std::alloc::Global;

/// What the device stands for, or the first thing that is wrong with it; and the device. Nothing is written, and after it a stop leaves
/// what a read gives.
pub(crate) fn judge_old<D: Disk>(
    alloc: Global,
    mut disk: D,
    system: &System,
) -> (D, Result<Standing, BootFault>)
    ensures counts { MatchResult result.1 (λ _. Counts false true (D.state disk) (D.state result.0))
        (λ fault. CountsUpTo (is_disk fault) 1 (D.state disk) (D.state result.0)) }
    ensures leaves { (D.state disk).keeps ≡ true
        → Leaves (FIRST_BODY + 1) (MayBe (FIRST_BODY + 1) (D.state disk)) (D.state disk) (D.state result.0) }
    ensures same { (D.state disk).keeps ≡ true
        → seen_cells (FIRST_BODY + 1) (D.state result.0) ≡ seen_cells (FIRST_BODY + 1) (D.state disk) }
    ensures read { IfOk result.1 (OldWasRead (plant_of system.now) (digest_of system.now) (D.state disk)) }
    ensures refused { (D.state disk).keeps ≡ true → IfErr result.1 (IsBootFault (old_fault_of (plant_of system.now) (digest_of system.now)
        (size_of (D.state disk)) (seen_cells (FIRST_BODY + 1) (D.state disk)))) }
{
    // A stop here leaves what it left before: a sync puts onto the disk what was written, and writes nothing.
    let Ok(()) = disk.sync() else {
        return (disk, Err(BootFault::Disk));
    };
    let mut old = FirstCells {
        cells: Cells::new(disk),
    };
    let judged = read(alloc, &mut old, system);
    (old.cells.into_disk(), judged)
}
