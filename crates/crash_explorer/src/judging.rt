//! When a device is right.
ghost use Rattle.std.specs.Prelude.{◌≡◌, ◌+◌, ◌++◌, ◌↔◌, IsTrue, IfOk, map};
ghost use Rattle.crash_explorer.specs.Seen.{plant_of, digest_of, fired_of, BODY, size_of, seen_cells, fuse_of, state_of, Off};
ghost use Rattle.crash_explorer.specs.Judging.{IsKept, IsRight, IsRunOf};
ghost use Rattle.crash_explorer.specs.Verdicts.{IsVerdict};

use crate::fault::ExploreFault;
use crate::loading::{load, size};
use crate::states::are_behind_front;
use disk_model::MemDisk;
use plant_image::{ImageFault, read_image};
use plant_model::{Firing, System};
use std::alloc::Global;

/// What the cells of a device come to.
#[derive(Clone, Copy)]
pub(crate) enum Verdict {
    /// They stand for a state and this number, and whether it is right that they do.
    Stands(u64, bool),
    /// This is wrong with them.
    Faulty(ImageFault),
}

/// Whether what the device reads stands for the state of the plant after all of the acknowledged firings and some front of the tail, and for how
/// many firings that is.
pub fn judge(
    alloc: Global,
    system: &System,
    acked: &[Firing],
    tail: &[Firing],
    disk: MemDisk,
) -> Result<bool, ExploreFault>
    requires fuse { fuse_of disk ≡ Off }
    requires run { IsRunOf (plant_of system.now) (map fired_of acked.now ++ map fired_of tail.now) }
    ensures { IfOk result (λ right. IsTrue right ↔ IsRight (plant_of system.now) (digest_of system.now) (size_of (state_of disk))
        (map fired_of acked.now) (map fired_of tail.now) (seen_cells (BODY + 1) (state_of disk))) }
{
    let mut disk = disk;
    match verdict_on(alloc, system, acked, tail, &mut disk)? {
        Verdict::Stands(_, right) => Ok(right),
        Verdict::Faulty(_) => Ok(false),
    }
}

/// What the cells that a read gives come to.
pub(crate) fn verdict_on(
    alloc: Global,
    system: &System,
    acked: &[Firing],
    tail: &[Firing],
    disk: &mut MemDisk,
) -> Result<Verdict, ExploreFault>
    requires fuse { fuse_of disk.old ≡ Off }
    requires run { IsRunOf (plant_of system.now) (map fired_of acked.now ++ map fired_of tail.now) }
    ensures verdict { IfOk result (IsVerdict (plant_of system.now) (digest_of system.now) (size_of (state_of disk.old))
        (map fired_of acked.now) (map fired_of tail.now) (seen_cells (BODY + 1) (state_of disk.old))) }
    ensures kept { IsKept disk.old disk.new }
{
    let bytes = size(disk);
    let cells = load(alloc, disk)?;
    match read_image(alloc, system, bytes, &cells) {
        Ok(standing) => {
            let number = standing.held.base + standing.held.records.len() as u64 - 1;
            let right = are_behind_front(alloc, system, acked, tail, &standing.states, number)?;
            Ok(Verdict::Stands(number, right))
        }
        Err(fault) => match fault {
            ImageFault::Memory => Err(ExploreFault::Memory),
            wrong => Ok(Verdict::Faulty(wrong)),
        },
    }
}
