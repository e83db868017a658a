//! Firing a choice by its number, or by its connector.
ghost use Rattle.std.specs.Prelude.{◌≡◌, ◌+◌, ◌^◌, ◌≤◌, ◌<◌, ℕ, IfSome, length};
ghost use Rattle.std.specs.Option.{MatchOption};
ghost use Rattle.plant_core.specs.Plants.{definition_of, device_of, text_digest, view_of};
ghost use Rattle.plant_core.specs.View.{sure_in};
ghost use Rattle.plant_for_c.specs.Fires.{IsOf, IsNotOf, IsFireAt, IsFireByNumber, IsFireByConnector};

use disk_model::Disk;
use plant_core::{FiredAs, Plant, Refused};
use plant_model::Inputs;

/// Why a choice is not fired.
#[derive(Clone, Copy)]
pub enum Unfired {
    /// The plant has no choice with this number, or no connector.
    NoSuch,
    /// The connector has no choice now.
    NoChoice,
    /// The connector has several choices now.
    Several,
    /// The plant refuses it.
    Refused(Refused),
}

/// Fires the choice with this number, from 0, and answers it with the number of its record. No call of the device is made, and no memory taken.
pub fn fire_by_number<D: Disk>(plant: &mut Plant<'_, D>, number: u64) -> Result<FiredAs, Unfired>
    ensures event { IsFireByNumber (definition_of plant.old) (view_of plant.old) number result (view_of plant.new) }
    ensures device { device_of plant.new ≡ device_of plant.old }
    ensures plant { definition_of plant.new ≡ definition_of plant.old }
    ensures digest { text_digest plant.new ≡ text_digest plant.old }
{
    let place = u128::from(number);
    let count = plant.count();
    if place < count {
        return fire_at(plant, place);
    }
    if count == 0 {
        return fire_at(plant, place);
    }
    Err(Unfired::NoSuch)
}

/// Fires the choice at the place, modulo the number of choices.
fn fire_at<D: Disk>(plant: &mut Plant<'_, D>, place: u128) -> Result<FiredAs, Unfired>
    ensures event { IsFireAt (definition_of plant.old) (view_of plant.old) place result (view_of plant.new) }
    ensures device { device_of plant.new ≡ device_of plant.old }
    ensures plant { definition_of plant.new ≡ definition_of plant.old }
    ensures digest { text_digest plant.new ≡ text_digest plant.old }
{
    match plant.fire(place, &Inputs::none()) {
        Ok(fired) => Ok(fired),
        Err(refused) => Err(Unfired::Refused(refused)),
    }
}

/// Fires the only choice of the connector, as [`fire_by_number`] does.
pub fn fire_by_connector<D: Disk>(
    plant: &mut Plant<'_, D>,
    connector: u16,
) -> Result<FiredAs, Unfired>
    ensures event { IsFireByConnector (definition_of plant.old) (view_of plant.old) connector result (view_of plant.new) }
    ensures device { device_of plant.new ≡ device_of plant.old }
    ensures plant { definition_of plant.new ≡ definition_of plant.old }
    ensures digest { text_digest plant.new ≡ text_digest plant.old }
{
    if usize::from(connector) >= plant.system().wires().len() {
        return Err(Unfired::NoSuch);
    }
    let Some(place) = next_choice(plant, connector, 0) else {
        return Err(Unfired::NoChoice);
    };
    if let Some(_second) = next_choice(plant, connector, place + 1) {
        return Err(Unfired::Several);
    }
    match plant.fire(place, &Inputs::none()) {
        Ok(fired) => Ok(fired),
        Err(refused) => Err(Unfired::Refused(refused)),
    }
}

/// The place of the first choice of the connector from this place on, if it has one there.
fn next_choice<D: Disk>(plant: &Plant<'_, D>, connector: u16, from: u128) -> Option<u128>
    ensures there { IfSome result (λ place. IsOf (definition_of plant.now) (view_of plant.now) connector place) }
    ensures within { IfSome result (λ place. place < length (sure_in (definition_of plant.now) (view_of plant.now))) }
    ensures small { IfSome result (λ place. place + 1 < 2 ^ 128) }
    ensures behind { IfSome result (λ place. from ≤ place) }
    ensures before { (place : ℕ) → from ≤ place → MatchOption result (IsNotOf (definition_of plant.now) (view_of plant.now) connector place)
        (λ first. place < first → IsNotOf (definition_of plant.now) (view_of plant.now) connector place) }
{
    for place in from..plant.count() {
        if plant.nth(place).connector == connector {
            return Some(place);
        }
    }
    None
}
