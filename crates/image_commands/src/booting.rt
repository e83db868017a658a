//! How a plant comes to be on a device.
ghost use Rattle.std.specs.Prelude.{◌≡◌, true, IfErr, IfOk};
ghost use Rattle.image_commands.specs.Seen.{plant_of, digest_of, definition_of, device_of, text_digest, view_of};
ghost use Rattle.image_commands.specs.Runs.{IsBootedFrom, fault_on};
ghost use Rattle.image_commands.specs.Refusals.{IsRefusedBy};

use crate::refusal::ImageRefusal;
use disk_model::Disk;
use plant_core::Plant;
use plant_model::System;
use recovery::{Quiet, boot_par};
use std::alloc::Global;
use std::thread::Threads;

/// How many workers replay the atoms.
const WORKERS: usize = 4;

/// The plant that the device stands for, or why there is none. Then the device is let go.
#[tactic(auto, using(crate::proofs::Refused::refused_by_boot))]
pub fn booted<'s, D: Disk + Drop, R: Threads + Sync>(
    rt: &R,
    alloc: Global,
    system: &'s System,
    disk: D,
) -> Result<Plant<'s, D>, ImageRefusal>
    ensures plant { IfOk result (λ p. definition_of p ≡ plant_of system.now) }
    ensures digest { IfOk result (λ p. text_digest p ≡ digest_of system.now) }
    ensures booted { IfOk result (λ p. IsBootedFrom (plant_of system.now) (digest_of system.now) (D.state disk) (view_of p)) }
    ensures keeps { IfOk result (λ p. (device_of p).keeps ≡ (D.state disk).keeps) }
    ensures refused { (D.state disk).keeps ≡ true → IfErr result (IsRefusedBy (fault_on (plant_of system.now) (digest_of system.now) (D.state disk))) }
{
    match boot_par(rt, alloc, disk, system, WORKERS, &Quiet) {
        Ok(plant) => Ok(plant),
        Err(refused) => Err(refused.fault.into()),
    }
}
