//! An atom that is away when the power is cut.
use super::common::{OpaqueDisk, sample};
use super::runs::{new_device, settled, try_boot, value_of};
use disk_model::{MemDisk, Tear};
use plant_core::{BackRefused, Plant, Refused};
use plant_model::{Inputs, System};
use std::alloc::Global;
use std::test::Fail;
use step_core::{Done, Jobs, work};

/// The plant that the device is booted to.
fn booted<'s>(
    alloc: Global,
    system: &'s System,
    disk: MemDisk,
) -> Result<Plant<'s, OpaqueDisk>, Fail> {
    match try_boot(alloc, OpaqueDisk::over(disk), system)? {
        Ok(plant) => Ok(plant),
        Err(_) => Err(Fail::new("the device failed")),
    }
}

/// The job of A in a plant that begins tick and acknowledges it, done; and what a stop leaves of the plant's device.
fn done_before_a_stop<'s>(alloc: Global, system: &'s System) -> Result<(Done<'s>, MemDisk), Fail> {
    let mut plant = booted(alloc, system, new_device(alloc, system, 8)?)?;
    let mut jobs = Jobs::new();
    let Ok(_) = plant.begin(0, &Inputs::none(), &mut jobs) else {
        return Err(Fail::new("nothing begins"));
    };
    if plant.flush() != Ok(1) {
        return Err(Fail::new("nothing is acknowledged"));
    }
    let Some(job) = jobs.take() else {
        return Err(Fail::new("A has no job"));
    };
    Ok((work(job), plant.into_disk().into_memory().stop(Tear::New)))
}

/// What began stands whole after the restart, and the old job changes nothing: it comes back.
#[test]
fn an_old_job_is_a_stranger_behind_a_restart(rt: HostRuntime) -> Result<(), Fail> {
    let system = sample(rt.alloc())?;
    let (done, disk) = done_before_a_stop(rt.alloc(), &system)?;
    let mut plant = booted(rt.alloc(), &system, disk)?;
    match plant.back(done) {
        Ok(()) => return Err(Fail::new("the old job is taken")),
        Err(BackRefused { done, refused }) => {
            assert_eq!(rt;
                (refused, done.atom(), done.transition()),
                (Refused::Stranger, 0, 0)
            );
        }
    }
    assert_eq!(rt; (value_of(&plant, 0), plant.front()), (1, settled(1)));
    Ok(())
}
