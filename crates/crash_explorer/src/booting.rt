//! What a device boots to.
ghost use Rattle.std.specs.Prelude.{◌≡◌, ◌+◌, IfOk};
ghost use Rattle.crash_explorer.specs.Seen.{plant_of, digest_of, definition_of, text_digest, BODY, size_of, seen_cells, cell_of, state_of};
ghost use Rattle.crash_explorer.specs.Watching.{IsCountable, IsWhole};
ghost use Rattle.crash_explorer.specs.Verdicts.{IsFound, IsOpened, found_in};

use crate::fault::ExploreFault;
use crate::watched::Watched;
use disk_model::MemDisk;
use plant_core::Plant;
use plant_image::ImageFault;
use plant_model::System;
use recovery::{BootFault, boot};
use std::alloc::Global;

/// What a device boots to.
#[derive(Clone, Copy, Debug, PartialEq, Eq)]
pub enum Found {
    /// A plant that has fired and acknowledged so many choices.
    Booted(u64),
    /// No plant, since this is wrong with what it reads.
    Refused(ImageFault),
}

/// The plant that a device boots to, or what is wrong with what it reads.
#[derive(Drop)]
pub(crate) enum Opened<'s> {
    Plant(Plant<'s, Watched>),
    Refused(ImageFault),
}

impl Opened<'_> {
    /// What it is, without the plant.
    pub(crate) fn found(&self) -> Found
        ensures { result ≡ found_in self.now }
    {
        match self {
            Opened::Plant(plant) => Found::Booted(plant.front().fired),
            Opened::Refused(fault) => Found::Refused(*fault),
        }
    }
}

/// Boots the plant on the device. While no fuse is set it fails only where its record of changes has no room, which is want of memory.
pub(crate) fn open<'s>(
    alloc: Global,
    system: &'s System,
    disk: MemDisk,
) -> Result<Opened<'s>, ExploreFault>
    requires cells { cell_of disk ≡ BODY + 1 }
    requires whole { IsWhole disk }
    requires countable { IsCountable disk }
    ensures { IfOk result (IsOpened (plant_of system.now) (digest_of system.now) (state_of disk)) }
{
    match boot(alloc, Watched::over(disk), system) {
        Ok(plant) => Ok(Opened::Plant(plant)),
        Err(refused) => match refused.fault {
            BootFault::Disk => Err(ExploreFault::Memory),
            BootFault::Image(fault) => match fault {
                ImageFault::Memory => Err(ExploreFault::Memory),
                wrong => Ok(Opened::Refused(wrong)),
            },
        },
    }
}

/// What the device boots to.
pub(crate) fn found_on(alloc: Global, system: &System, disk: MemDisk) -> Result<Found, ExploreFault>
    requires cells { cell_of disk ≡ BODY + 1 }
    requires whole { IsWhole disk }
    requires countable { IsCountable disk }
    ensures { IfOk result (IsFound (plant_of system.now) (digest_of system.now) (size_of (state_of disk)) (seen_cells (BODY + 1) (state_of disk))) }
{
    Ok(open(alloc, system, disk)?.found())
}
