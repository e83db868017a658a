//! What a run is watched for, as the words of the command line say it.
ghost use Rattle.std.specs.Prelude.{◌≡◌, Ok, IfErr, IfOk, map};
ghost use Rattle.run_text.specs.Seen.{plant_of};
ghost use Rattle.run_watches.specs.Watches.{watch_in, watch_of};
ghost use Rattle.plant_tasks.specs.Ending.{IsSilent};
ghost use Rattle.plant_tasks.specs.Watches.{IsBadAt, IsFirstBad, is_held, is_never_at, watches_in};

use crate::ending::PlantEnding;
use command_line::{WatchKind, WatchWords};
use plant_model::System;
use run_text::Reached;
use run_watches::{Watch, WatchFault, read_watch};
use std::alloc::{AllocError, Global};

/// What the words watch a run of the plant for, in their order. Or the first of them that can't be read, and why not.
pub(crate) fn watches_of(
    alloc: Global,
    system: &System,
    words: &[WatchWords<'_>],
) -> Result<Vec<Watch>, PlantEnding>
    ensures watches { IfOk result (λ watches. map (λ watch. Ok (watch_of watch)) watches.items ≡ watches_in (plant_of system.now) words.now) }
    ensures bad { IfErr result (IsFirstBad (plant_of system.now) words.now) }
    ensures silent { IfErr result IsSilent }
{
    let mut watches = Vec::new(alloc);
    for one in words {
        let watch = watch_at(alloc, system, watches.len(), one.text)?;
        watches.push(watch).map_err(AllocError::from)?;
    }
    Ok(watches)
}

/// The watch that a text is, which stands at this place, from 0, among those of the command line.
fn watch_at(alloc: Global, system: &System, place: usize, text: &str) -> Result<Watch, PlantEnding>
    ensures watch { IfOk result (λ watch. watch_in (plant_of system.now) text.now ≡ Ok (watch_of watch)) }
    ensures bad { IfErr result (IsBadAt (plant_of system.now) place text.now) }
    ensures silent { IfErr result IsSilent }
{
    match read_watch(alloc, system, text.as_bytes()) {
        Ok(watch) => Ok(watch),
        Err(WatchFault::Memory) => Err(PlantEnding::Memory),
        Err(fault) => Err(PlantEnding::BadWatch { place, fault }),
    }
}

/// Whether a run has ended by what must not hold.
pub(crate) fn is_held(words: &[WatchWords<'_>], reached: Option<Reached>) -> bool
    ensures { result ≡ is_held words.now reached }
{
    match reached {
        Some(reached) => is_never_at(words, reached.watch),
        None => false,
    }
}

/// Whether what stands at the place must not hold.
fn is_never_at(words: &[WatchWords<'_>], place: usize) -> bool
    ensures { result ≡ is_never_at words.now place }
{
    match words.get(place) {
        Some(one) => matches!(one.kind, WatchKind::Never),
        None => false,
    }
}
