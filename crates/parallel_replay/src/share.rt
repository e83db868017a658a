//! What one worker replays.
ghost use Rattle.std.specs.Prelude.{◌≡◌, ◌≤◌, ◌<◌, ◌%◌, Some, length, slice_get, IfOk};
ghost use Rattle.petri_atom.specs.Definition.{AtomDefinition};
ghost use Rattle.plant_model.specs.System.{plant_of};
ghost use Rattle.plant_image.specs.Reading.{IsSound, contents_in};
ghost use Rattle.record_replay.specs.Parts.{AreParts};
ghost use Rattle.parallel_replay.specs.Shares.{IsPlaced, IsShareOf};

use crate::turn::Turn;
use plant_image::{Held, ImageFault, Reached, replay_saved};
use plant_model::System;
use std::alloc::{AllocError, Global};

/// What a worker found: at the place of each of its atoms where the records bring it, or why they bring it nowhere. The other places are empty.
#[derive(Drop)]
pub(crate) struct Share {
    pub(crate) places: Vec<Option<Result<Reached, ImageFault>>>,
}

/// Replays the atoms of this worker, in their order: those whose number leaves the worker's when it is divided by that of all workers. `parts` has
/// at the place of each live record the atoms that have a part in it.
pub(crate) fn replay_share<T: Turn>(
    alloc: Global,
    system: &System,
    held: &Held,
    parts: &[u64],
    workers: usize,
    worker: usize,
    turn: &T,
) -> Result<Share, AllocError>
    requires some { 1 ≤ workers }
    requires sound { IsSound (plant_of system.now) (contents_in held.now) }
    requires parts { AreParts held.now.records.items parts.now }
    ensures { IfOk result (λ share. IsShareOf (plant_of system.now) (contents_in held.now) workers worker share) }
{
    let atoms = system.atoms().len();
    let mut places = Vec::with_capacity(alloc, atoms)?;
    for number in 0..atoms {
        places.push_reserved(replay_own(system, held, parts, workers, worker, number, turn));
    }
    Ok(Share { places })
}

/// Replays the atom with the number, if it is one of the worker's.
fn replay_own<T: Turn>(
    system: &System,
    held: &Held,
    parts: &[u64],
    workers: usize,
    worker: usize,
    number: usize,
    turn: &T,
) -> Option<Result<Reached, ImageFault>>
    requires some { 1 ≤ workers }
    requires sound { IsSound (plant_of system.now) (contents_in held.now) }
    requires parts { AreParts held.now.records.items parts.now }
    requires there { number < length (plant_of system.now).atoms }
    ensures { (a : AtomDefinition) → slice_get (plant_of system.now).atoms number ≡ Some a → number % workers ≡ worker
        → IsPlaced (contents_in held.now) number a result }
{
    if number % workers != worker {
        return None;
    }
    system.keeps_its_rules();
    let atom = number as u16;
    turn.replaying(atom);
    Some(replay_saved(
        &system.atoms()[number],
        atom,
        &held.slots[number],
        &held.records,
        parts,
    ))
}
