//! A host over a device that fails.
ghost use Rattle.std.specs.Prelude.{◌≡◌, ◌^◌, ◌<◌};
ghost use Rattle.disk_model.specs.DiskState.{size_of};
ghost use Rattle.disk_model.specs.MemDisk.{state_of};
ghost use Rattle.engine_host.specs.Names.{IsNamedFor, hosted};

use super::common::{SAMPLE, booted, bytes_for, formatted};
use super::rows::{fires, is_front};
use disk_model::{CELL, Disk, DiskFault, MemDisk};
use engine_host::{Closed, Named, Naming, name, open};
use plant_core::{Plant, Refused};
use plant_model::Inputs;
use plant_text::plant_of_text;
use std::alloc::Global;
use std::marker::Brand;
use std::process::Abort;
use std::sync::Wait;
use std::test::*;

/// How many records the ring has.
const RING: u32 = 8;

/// How many calls a boot makes of a device for the sample with such a ring: `durable_tests` counts them.
const BOOT_CALLS: u64 = 18;

/// A device in memory of which contracts say the size and the counts alone: what its cells read for is seen by running.
#[derive(Drop)]
struct Untold {
    disk: MemDisk,
    ghost small: { size_of (state_of disk) < 2 ^ 64 },
}

impl Untold {
    fn over(disk: MemDisk) -> Untold
        ensures { result.disk ≡ disk }
    {
        Untold { disk }
    }

    fn into_memory(self) -> MemDisk {
        let Untold { disk, .. } = self;
        disk
    }
}

impl Disk for Untold {
    ghost use Rattle.std.specs.Prelude.{false};
    ghost use Rattle.disk_model.specs.MemDisk.{state_of};

    ghost state = { λ d. record (state_of d.disk) { keeps = false } };

    ghost fits = { λ d. d.small };

    fn size(&mut self) -> Result<u64, DiskFault> {
        self.disk.size()
    }

    fn read_at(&mut self, at: u64, into: &mut [u8]) -> Result<(), DiskFault> {
        self.disk.read_at(at, into)
    }

    fn write_at(&mut self, at: u64, from: &[u8]) -> Result<(), DiskFault> {
        self.disk.write_at(at, from)
    }

    fn sync(&mut self) -> Result<(), DiskFault> {
        self.disk.sync()
    }
}

/// One seat's flush meets the failure, and the other's fire is refused after it. What was fired before still counts.
fn two_seats<D: Disk + Drop, N: Naming, R: Wait + Abort>(
    rt: &R,
    alloc: Global,
    named: Named,
    plant: Plant<'_, D>,
) -> Result<(), Fail>
    requires named { IsNamedFor named (record { table = N.table; opening = N.opening; ledger = N.name; parts = N.parts; seats = N.seats }) (record { plant = N.plant; view = N.view; digest = N.digest; keeps = N.keeps }) (hosted plant) }
    requires seats { N.seats ≡ 2 }
    requires parts { N.parts ≡ 2 }
{
    let room = named.room(alloc)?;
    let (host, mut seats) = open::<D, N>(named, plant, room);
    let (Some(mut first), Some(mut second)) = (seats.pop(), seats.pop()) else {
        return Err(Fail::new("two seats"));
    };
    assert!(rt; fires(rt, &host, &mut first, &[0, 0]));
    assert!(rt; fires(rt, &host, &mut second, &[0]));
    assert!(rt; host.flush(rt, &mut first) == Err(Refused::Disk));
    assert!(rt;
        matches!(
            host.fire(rt, &mut second, 0, &Inputs::none()),
            Err(Refused::Broken)
        )
    );
    seats.push(first)?;
    seats.push(second)?;
    let Ok(Closed { fired, plant }) = host.close(seats) else {
        return Err(Fail::new("both seats are there"));
    };
    assert!(rt; fired == 3 && is_front(plant.front(), 3, 0, 1));
    Ok(())
}

#[test]
fn a_failure_is_told_to_one_seat_and_breaks_the_plant_for_all(rt: HostRuntime) -> Result<(), Fail> {
    let system = plant_of_text(rt.alloc(), SAMPLE)?;
    let disk = MemDisk::with_cells(rt.alloc(), bytes_for(&system, RING), 100, CELL)?;
    let mut disk = formatted(rt.alloc(), Untold::over(disk), &system, RING)?.into_memory();
    disk.fuse_dead(BOOT_CALLS + 1);
    let plant = booted(rt.alloc(), Untold::over(disk), &system)?;
    let named = name(rt.alloc(), &plant, 2)?;
    two_seats::<Untold, Brand, _>(&rt, rt.alloc(), named, plant)
}
