//! Driving a plant through a list of events.
ghost use Rattle.std.specs.Prelude.{◌≡◌, ◌+◌, true, false, length, IfOk, OnErr};
ghost use Rattle.disk_model.specs.Cells.{Leaves};
ghost use Rattle.disk_model.specs.DiskState.{CountsUpTo, counted, size_of};
ghost use Rattle.disk_model.specs.declared.cells.TheConstants.{BODY};
ghost use Rattle.plant_core.specs.Driven.{IsDriven};
ghost use Rattle.plant_core.specs.Events.{AreHandsAfter, IsEvent, IsHandedIn, asked_in, has_failed, is_in_memory, may_call};
ghost use Rattle.plant_core.specs.Handed.{hands_of};
ghost use Rattle.plant_core.specs.Hands.{AreHandsFor};
ghost use Rattle.plant_core.specs.Plants.{definition_of, device_of, text_digest, view_of};
ghost use Rattle.plant_core.specs.Stops.{StandsForFront};

use crate::events::{Event, Happened};
use crate::hands::Hands;
use crate::plant::Plant;
use crate::refused::{BackRefused, PutRefused};
use disk_model::Disk;
use plant_model::Inputs;
use snapshot_writer::encode;
use std::alloc::{AllocError, Global};
use step_core::{Jobs, work};

/// Asks a plant for these events, one after another, and answers what happened at each. A state that is asked for goes into the hand of its atom,
/// and what is in the hand is stored if that is asked. It takes the room for its answers first: if there is none, nothing happens.
pub fn drive<'s, D: Disk>(
    alloc: Global,
    plant: &mut Plant<'s, D>,
    events: &[Event],
    hands: &mut Hands<'s>,
) -> Result<Vec<Happened>, AllocError>
    requires { AreHandsFor (length (definition_of plant.old).atoms) (hands_of hands.old) }
    ensures driven { IfOk result (λ answers. IsDriven (definition_of plant.old) (text_digest plant.old) (view_of plant.old) (device_of plant.old) (hands_of hands.old) events.now
        answers.items (view_of plant.new) (device_of plant.new) (hands_of hands.new)) }
    ensures untouched_hands { OnErr result (hands_of hands.new ≡ hands_of hands.old) }
    ensures untouched_view { OnErr result (view_of plant.new ≡ view_of plant.old) }
    ensures untouched_device { OnErr result (device_of plant.new ≡ device_of plant.old) }

    // What stays.
    ensures plant { definition_of plant.new ≡ definition_of plant.old }
    ensures digest { text_digest plant.new ≡ text_digest plant.old }
    ensures size { size_of (device_of plant.new) ≡ size_of (device_of plant.old) }
    ensures keeps { (device_of plant.new).keeps ≡ (device_of plant.old).keeps }
{
    let mut answers = Vec::with_capacity(alloc, events.len())?;
    for event in events {
        answers.push_reserved(meet(plant, hands, event));
    }
    Ok(answers)
}

/// Asks a plant for one event, and answers what happened.
pub fn meet<'s, D: Disk>(plant: &mut Plant<'s, D>, hands: &mut Hands<'s>, event: &Event) -> Happened
    requires { AreHandsFor (length (definition_of plant.old).atoms) (hands_of hands.old) }
    ensures asked { asked_in result ≡ event.now }
    ensures event { IsEvent (definition_of plant.old) (view_of plant.old) result (view_of plant.new) }
    ensures handed_in { IsHandedIn (definition_of plant.old) (hands_of hands.old) result }
    ensures hands { AreHandsAfter (definition_of plant.old) (view_of plant.old) (hands_of hands.old) result (hands_of hands.new) }
    ensures as_many { AreHandsFor (length (definition_of plant.old).atoms) (hands_of hands.new) }
    ensures stops { (device_of plant.old).keeps ≡ true
        → Leaves (BODY + 1) (StandsForFront (definition_of plant.old) (text_digest plant.old) (size_of (device_of plant.old)) (view_of plant.old)) (device_of plant.old) (device_of plant.new) }
    ensures cause { (device_of plant.new).failures ≡ counted (has_failed result) (device_of plant.old).failures }
    ensures idle { is_in_memory event.now ≡ true → device_of plant.new ≡ device_of plant.old }
    ensures untouched { may_call result ≡ false → device_of plant.new ≡ device_of plant.old }
    ensures plant { definition_of plant.new ≡ definition_of plant.old }
    ensures digest { text_digest plant.new ≡ text_digest plant.old }
    ensures size { size_of (device_of plant.new) ≡ size_of (device_of plant.old) }
    ensures keeps { (device_of plant.new).keeps ≡ (device_of plant.old).keeps }
{
    match event {
        Event::Fire(pick, inputs) => {
            Happened::Fire(*pick, inputs.copy(), plant.fire(*pick, inputs))
        }
        Event::FireChoice(choice, inputs) => Happened::FireChoice(
            choice.copy(),
            inputs.copy(),
            plant.fire_choice(choice, inputs),
        ),
        Event::Flush => Happened::Flush(plant.flush()),
        Event::Ask(atom) => ask(plant, hands, *atom),
        Event::Put(atom) => put(plant, hands, *atom),
        Event::Save => Happened::Save(plant.save()),
        Event::Trim => Happened::Trim(plant.trim()),
        Event::Begin(pick, inputs) => begin(plant, hands, *pick, inputs),
        Event::Back(atom) => back(plant, hands, *atom),
    }
}

/// Asks a plant for the present state of an atom, which goes into its hand.
fn ask<'s, D: Disk>(plant: &mut Plant<'s, D>, hands: &mut Hands<'s>, atom: u16) -> Happened
    requires { AreHandsFor (length (definition_of plant.old).atoms) (hands_of hands.old) }
    ensures asked { asked_in result ≡ Event.Ask atom }
    ensures event { IsEvent (definition_of plant.old) (view_of plant.old) result (view_of plant.new) }
    ensures handed_in { IsHandedIn (definition_of plant.old) (hands_of hands.old) result }
    ensures hands { AreHandsAfter (definition_of plant.old) (view_of plant.old) (hands_of hands.old) result (hands_of hands.new) }
    ensures silent { has_failed result ≡ false }
    ensures device { device_of plant.new ≡ device_of plant.old }
    ensures plant { definition_of plant.new ≡ definition_of plant.old }
    ensures digest { text_digest plant.new ≡ text_digest plant.old }
{
    match plant.ask(atom) {
        Ok(parcel) => {
            let copy = parcel.to_saved();
            hands.hold(encode(parcel));
            Happened::Ask(atom, Ok(copy))
        }
        Err(refused) => Happened::Ask(atom, Err(refused)),
    }
}

/// Asks a plant to store what the hand of an atom holds. If it is refused it is in the hand again.
fn put<'s, D: Disk>(plant: &mut Plant<'s, D>, hands: &mut Hands<'s>, atom: u16) -> Happened
    ensures asked { asked_in result ≡ Event.Put atom }
    ensures event { IsEvent (definition_of plant.old) (view_of plant.old) result (view_of plant.new) }
    ensures handed_in { IsHandedIn (definition_of plant.old) (hands_of hands.old) result }
    ensures hands { AreHandsAfter (definition_of plant.old) (view_of plant.old) (hands_of hands.old) result (hands_of hands.new) }
    ensures stops { (device_of plant.old).keeps ≡ true
        → Leaves (BODY + 1) (StandsForFront (definition_of plant.old) (text_digest plant.old) (size_of (device_of plant.old)) (view_of plant.old)) (device_of plant.old) (device_of plant.new) }
    ensures counts { CountsUpTo (has_failed result) 3 (device_of plant.old) (device_of plant.new) }
    ensures untouched { may_call result ≡ false → device_of plant.new ≡ device_of plant.old }
    ensures plant { definition_of plant.new ≡ definition_of plant.old }
    ensures digest { text_digest plant.new ≡ text_digest plant.old }
{
    let Some(encoded) = hands.take(atom) else {
        return Happened::Empty(atom);
    };
    let handed = encoded.parcel().to_saved();
    match plant.put(encoded) {
        Ok(count) => Happened::Put(handed, Ok(count)),
        Err(PutRefused { encoded, refused }) => {
            hands.hold(encoded);
            Happened::Put(handed, Err(refused))
        }
    }
}

/// Asks a plant to begin a choice with these values. Its jobs go into the hands of their atoms.
fn begin<'s, D: Disk>(
    plant: &mut Plant<'s, D>,
    hands: &mut Hands<'s>,
    pick: u128,
    inputs: &Inputs,
) -> Happened
    requires { AreHandsFor (length (definition_of plant.old).atoms) (hands_of hands.old) }
    ensures asked { asked_in result ≡ Event.Begin pick inputs.now }
    ensures event { IsEvent (definition_of plant.old) (view_of plant.old) result (view_of plant.new) }
    ensures handed_in { IsHandedIn (definition_of plant.old) (hands_of hands.old) result }
    ensures hands { AreHandsAfter (definition_of plant.old) (view_of plant.old) (hands_of hands.old) result (hands_of hands.new) }
    ensures silent { has_failed result ≡ false }
    ensures device { device_of plant.new ≡ device_of plant.old }
    ensures plant { definition_of plant.new ≡ definition_of plant.old }
    ensures digest { text_digest plant.new ≡ text_digest plant.old }
{
    let mut jobs = Jobs::new();
    match plant.begin(pick, inputs, &mut jobs) {
        Ok(fired) => {
            hands.hold_jobs(fired.choice.moves.as_slice(), &mut jobs);
            Happened::Begin(pick, inputs.copy(), Ok(fired))
        }
        Err(refused) => Happened::Begin(pick, inputs.copy(), Err(refused)),
    }
}

/// Does the job that the hand of an atom holds, and hands it in to the plant.
fn back<'s, D: Disk>(plant: &mut Plant<'s, D>, hands: &mut Hands<'s>, atom: u16) -> Happened
    requires { AreHandsFor (length (definition_of plant.old).atoms) (hands_of hands.old) }
    ensures asked { asked_in result ≡ Event.Back atom }
    ensures event { IsEvent (definition_of plant.old) (view_of plant.old) result (view_of plant.new) }
    ensures handed_in { IsHandedIn (definition_of plant.old) (hands_of hands.old) result }
    ensures hands { AreHandsAfter (definition_of plant.old) (view_of plant.old) (hands_of hands.old) result (hands_of hands.new) }
    ensures silent { has_failed result ≡ false }
    ensures device { device_of plant.new ≡ device_of plant.old }
    ensures plant { definition_of plant.new ≡ definition_of plant.old }
    ensures digest { text_digest plant.new ≡ text_digest plant.old }
{
    let Some(job) = hands.take_job(atom) else {
        return Happened::Idle(atom);
    };
    let done = work(job);
    let returned = plant.returned(&done);
    match plant.back(done) {
        Ok(()) => Happened::Back(returned, Ok(())),
        Err(BackRefused { refused, .. }) => Happened::Back(returned, Err(refused)),
    }
}
