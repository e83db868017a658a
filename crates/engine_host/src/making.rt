//! Adding an event to the history.
ghost use Rattle.std.specs.Prelude.{◌≡◌, ◌++◌, ◌∷◌, [], ◌+◌, ◌≤◌, map, is_ok, if◌then◌else◌};
ghost use Rattle.front_word.specs.Fronts.{IsNotBelow, IsWithin, last_of};
ghost use Rattle.plant_core.specs.declared.front.Front.{Front};
ghost use Rattle.front_word.specs.declared.front.TheConstants.{MOST_FIRED};
ghost use Rattle.plant_core.specs.Plants.{view_of};
ghost use Rattle.plant_core.specs.Backs.{refusal_in as back_refusal_in};
ghost use Rattle.plant_core.specs.Puts.{refusal_in};
ghost use Rattle.engine_host.specs.History.{entry};
ghost use Rattle.engine_host.specs.Told.{fired_in};
ghost use Rattle.engine_host.specs.Views.{front_in};

use crate::entry::Entry;
use crate::naming::Naming;
use disk_model::Disk;
use front_word::{FrontWord, Publisher};
use plant_core::{BackRefused, FiredAs, Front, Happened, Plant, PutRefused, Refused};
use record_codec::Saved;
use snapshot_writer::Parcel;

/// How far the plant is.
pub(crate) fn front_of<D: Disk>(plant: &Plant<'_, D>) -> Front
    ensures front { result ≡ front_in (view_of plant.now) }
    ensures within { (opening : Front) → opening.fired ≤ result.fired → result.fired ≤ opening.fired + MOST_FIRED → IsWithin opening result }
{
    plant.front()
}

/// Publishes what happened to the plant, and gives it back.
pub(crate) fn publish<D: Disk, N: Naming>(
    plant: &Plant<'_, D>,
    publisher: &mut Publisher<Entry, N>,
    word: &FrontWord<Entry, N>,
    happened: Happened,
) -> Happened
    requires from { N.opening.fired ≤ (front_in (view_of plant.now)).fired }
    requires to { (front_in (view_of plant.now)).fired ≤ N.opening.fired + MOST_FIRED }
    requires rises { IsNotBelow (last_of N.opening (map (λ e. e.front) publisher.old)) (front_in (view_of plant.now)) }
    ensures same { result ≡ happened }
    ensures history { publisher.new ≡ publisher.old ++ entry happened (front_in (view_of plant.now)) ∷ [] }
{
    let entry = Entry {
        happened,
        front: front_of(plant),
    };
    publisher.publish(word, &entry);
    entry.happened
}

/// The answer, with a copy of the state that was asked for.
pub(crate) fn copy_of_answer(answer: &Result<Parcel, Refused>) -> Result<Saved, Refused>
    ensures { result ≡ answer.now }
{
    match answer {
        Ok(parcel) => Ok(parcel.to_saved()),
        Err(refused) => Err(*refused),
    }
}

/// How many choices were fired by this answer.
pub(crate) fn count_fired(answer: &Result<FiredAs, Refused>) -> u64
    ensures { result ≡ (if is_ok answer.now then 1 else 0) }
{
    if answer.is_ok() { 1 } else { 0 }
}

/// How many choices were fired by this answer to a fire of a choice.
pub(crate) fn fired_in(answer: &Option<Result<FiredAs, Refused>>) -> u64
    ensures { result ≡ fired_in answer.now }
{
    match answer {
        Some(answer) => count_fired(answer),
        None => 0,
    }
}

/// The answer, without the job that comes back.
pub(crate) fn back_refusal_of(answer: &Result<(), BackRefused<'_>>) -> Result<(), Refused>
    ensures { result ≡ back_refusal_in answer.now }
{
    match answer {
        Ok(()) => Ok(()),
        Err(refused) => Err(refused.refused),
    }
}

/// The answer, without the state that comes back.
pub(crate) fn refusal_of(answer: &Result<u64, PutRefused>) -> Result<u64, Refused>
    ensures { result ≡ refusal_in answer.now }
{
    match answer {
        Ok(count) => Ok(*count),
        Err(refused) => Err(refused.refused),
    }
}
