//! The threads of a replay.
ghost use Rattle.std.specs.Prelude.{◌≡◌, ◌≤◌, IfOk};
ghost use Rattle.plant_model.specs.System.{digest_of, plant_of};
ghost use Rattle.plant_image.specs.Faults.{fault_of, leading_fault};
ghost use Rattle.plant_image.specs.Reading.{IsLed, IsSound, IsStanding, Tells, contents_in};
ghost use Rattle.record_replay.specs.Parts.{AreParts};
ghost use Rattle.parallel_replay.specs.Shares.{AreShares, IsShare};
ghost use Rattle.parallel_replay.specs.declared.workers.TheConstants.{MOST_WORKERS};

use crate::gathering::gather;
use crate::share::{Share, replay_share};
use crate::turn::Turn;
use disk_model::BODY;
use plant_image::{Held, ImageFault, Standing, judge_standing, parts_of, read_cells};
use plant_model::System;
use std::alloc::{AllocError, Global};
use std::thread;
use std::thread::Threads;

/// How many workers there may be: each may take a thread.
pub const MOST_WORKERS: usize = 16;

/// What an image of so many bytes with these cells stands for, or the first thing that is wrong with it, as `plant_image::read_image` says it,
/// with the atoms replayed by so many workers. It waits for all of them, and calls no device.
pub fn read_image_by<R: Threads + Sync, T: Turn>(
    rt: &R,
    alloc: Global,
    system: &System,
    bytes: u64,
    cells: &[Option<[u8; BODY]>],
    workers: usize,
    turn: &T,
) -> Result<Standing, ImageFault>
    requires some { 1 ≤ workers }
    requires few { workers ≤ MOST_WORKERS }
    ensures { Tells (fault_of (plant_of system.now) (digest_of system.now) bytes cells.now)
        (IsStanding (plant_of system.now) cells.now) result }
{
    let held = read_cells(alloc, system, bytes, cells)?;
    lead_by(rt, alloc, system, held, workers, turn)
}

/// Where that leads.
fn lead_by<R: Threads + Sync, T: Turn>(
    rt: &R,
    alloc: Global,
    system: &System,
    held: Held,
    workers: usize,
    turn: &T,
) -> Result<Standing, ImageFault>
    requires some { 1 ≤ workers }
    requires sound { IsSound (plant_of system.now) (contents_in held) }
    ensures { Tells (leading_fault (plant_of system.now) (contents_in held)) (IsLed (plant_of system.now) (contents_in held)) result }
{
    let shares = replay_shares(rt, alloc, system, &held, workers, turn)?;
    let standing = gather(alloc, system, held, workers, &shares)?;
    judge_standing(system, standing)
}

/// The shares of all workers, by the workers' numbers.
fn replay_shares<R: Threads + Sync, T: Turn>(
    rt: &R,
    alloc: Global,
    system: &System,
    held: &Held,
    workers: usize,
    turn: &T,
) -> Result<Vec<Result<Share, AllocError>>, AllocError>
    requires some { 1 ≤ workers }
    requires sound { IsSound (plant_of system.now) (contents_in held.now) }
    ensures { IfOk result (λ shares. AreShares (plant_of system.now) (contents_in held.now) workers shares.items) }
{
    let parts = parts_of(alloc, &held.records)?;
    let replay = |worker: usize| -> Result<Share, AllocError>
        requires { (1 ≤ workers) × IsSound (plant_of system.now) (contents_in held.now) × AreParts held.now.records.items parts.items }
        ensures { IsShare (plant_of system.entry.now) (contents_in held.entry.now) workers worker result }
    { replay_share(alloc, system, held, &parts, workers, worker, turn) };
    thread::map_indices(rt, alloc, workers, &replay)
}
