//! What is asked of a plant.
ghost use Rattle.std.specs.Prelude.{◌≡◌, ℕ, Err, Result};
ghost use Rattle.plant_core.specs.Events.{IsFlush, IsSave, IsTrim};
ghost use Rattle.plant_for_c.specs.Puts.{IsPutOf};
ghost use Rattle.plant_for_c.specs.Statuses.{number_of};
ghost use Rattle.plant_core.specs.declared.events.SavedTo.{SavedTo};
ghost use Rattle.plant_core.specs.declared.events.FiredAs.{FiredAs};
ghost use Rattle.plant_core.specs.declared.refused.Refused.{Refused};
ghost use Rattle.plant_for_c.specs.Fires.{IsFireByConnector, IsFireByNumber};
ghost use Rattle.plant_for_c.specs.declared.firing.Unfired.{Unfired};
ghost use Rattle.kilnmace_c.specs.Calls.{IsHeldStep, IsStatusOf, IsToldAs, IsTurnedAway, absent_in};
ghost use Rattle.kilnmace_c.specs.Told.{event_status, fire_status, save_status};
ghost use Rattle.kilnmace_c.specs.declared.variable.TheConstants.{PLANT};

use crate::told::{of_event, of_fire, of_save, status_of, tell};
use crate::variable::{PLANT, Variable};
use std::alloc::Global;

/// Fires the choice with the number, and tells the number of its record.
#[unsafe(no_mangle)]
pub extern "C" fn kilnmace_raw_fire(
    alloc: Global,
    plant: &mut Variable,
    number: u64,
    fired: &mut u64,
) -> u32
    ensures turned_away { IsTurnedAway PLANT plant.old.mark result ((plant.new ≡ plant.old) × (fired.new ≡ fired.old)) }
    ensures event { plant.old.mark ≡ PLANT → IsHeldStep plant.old.handle.held plant.new.handle.held (IsToldAs (Err (absent_in plant.old.handle.held)) result fired.old fired.new)
        (λ definition v w. (answer : Result FiredAs Unfired) × IsFireByNumber definition v number answer w × IsToldAs (fire_status answer) result fired.old fired.new) }
{
    let mut thing = match plant.take(PLANT, alloc) {
        Ok(thing) => thing,
        Err(status) => return status.number(),
    };
    let absent = thing.absent();
    let answer = thing.fire(number);
    plant.put(thing);
    tell(of_fire(answer, absent), fired)
}

/// Fires the only choice of the connector, and tells the number of its record.
#[unsafe(no_mangle)]
pub extern "C" fn kilnmace_raw_fire_connector(
    alloc: Global,
    plant: &mut Variable,
    connector: u16,
    fired: &mut u64,
) -> u32
    ensures turned_away { IsTurnedAway PLANT plant.old.mark result ((plant.new ≡ plant.old) × (fired.new ≡ fired.old)) }
    ensures event { plant.old.mark ≡ PLANT → IsHeldStep plant.old.handle.held plant.new.handle.held (IsToldAs (Err (absent_in plant.old.handle.held)) result fired.old fired.new)
        (λ definition v w. (answer : Result FiredAs Unfired) × IsFireByConnector definition v connector answer w × IsToldAs (fire_status answer) result fired.old fired.new) }
{
    let mut thing = match plant.take(PLANT, alloc) {
        Ok(thing) => thing,
        Err(status) => return status.number(),
    };
    let absent = thing.absent();
    let answer = thing.fire_connector(connector);
    plant.put(thing);
    tell(of_fire(answer, absent), fired)
}

/// Acknowledges all that was fired, and tells the number of the last.
#[unsafe(no_mangle)]
pub extern "C" fn kilnmace_raw_flush(alloc: Global, plant: &mut Variable, acked: &mut u64) -> u32
    ensures turned_away { IsTurnedAway PLANT plant.old.mark result ((plant.new ≡ plant.old) × (acked.new ≡ acked.old)) }
    ensures event { plant.old.mark ≡ PLANT → IsHeldStep plant.old.handle.held plant.new.handle.held (IsToldAs (Err (absent_in plant.old.handle.held)) result acked.old acked.new)
        (λ definition v w. (answer : Result ℕ Refused) × IsFlush v answer w × IsToldAs (event_status answer) result acked.old acked.new) }
{
    let mut thing = match plant.take(PLANT, alloc) {
        Ok(thing) => thing,
        Err(status) => return status.number(),
    };
    let absent = thing.absent();
    let answer = thing.flush();
    plant.put(thing);
    tell(of_event(answer, absent), acked)
}

/// Stores the acknowledged state of each atom that is behind, and tells of which.
#[unsafe(no_mangle)]
pub extern "C" fn kilnmace_raw_save(alloc: Global, plant: &mut Variable, atoms: &mut u64) -> u32
    ensures turned_away { IsTurnedAway PLANT plant.old.mark result ((plant.new ≡ plant.old) × (atoms.new ≡ atoms.old)) }
    ensures event { plant.old.mark ≡ PLANT → IsHeldStep plant.old.handle.held plant.new.handle.held (IsToldAs (Err (absent_in plant.old.handle.held)) result atoms.old atoms.new)
        (λ definition v w. (answer : Result SavedTo Refused) × IsSave v answer w × IsToldAs (save_status answer) result atoms.old atoms.new) }
{
    let mut thing = match plant.take(PLANT, alloc) {
        Ok(thing) => thing,
        Err(status) => return status.number(),
    };
    let absent = thing.absent();
    let answer = thing.save();
    plant.put(thing);
    tell(of_save(answer, absent), atoms)
}

/// Copies the present state of one atom and stores it.
#[unsafe(no_mangle)]
pub extern "C" fn kilnmace_raw_put(alloc: Global, plant: &mut Variable, atom: u16) -> u32
    ensures turned_away { IsTurnedAway PLANT plant.old.mark result ((plant.new ≡ plant.old)) }
    ensures event { plant.old.mark ≡ PLANT → IsHeldStep plant.old.handle.held plant.new.handle.held (result ≡ number_of (absent_in plant.old.handle.held))
        (λ definition v w. (answer : Result ℕ Refused) × IsPutOf v atom answer w × IsStatusOf (event_status answer) result) }
{
    let mut thing = match plant.take(PLANT, alloc) {
        Ok(thing) => thing,
        Err(status) => return status.number(),
    };
    let absent = thing.absent();
    let answer = thing.put(atom);
    plant.put(thing);
    status_of(of_event(answer, absent))
}

/// Drops the records that no restart needs, and tells the number of the first that is kept.
#[unsafe(no_mangle)]
pub extern "C" fn kilnmace_raw_trim(alloc: Global, plant: &mut Variable, base: &mut u64) -> u32
    ensures turned_away { IsTurnedAway PLANT plant.old.mark result ((plant.new ≡ plant.old) × (base.new ≡ base.old)) }
    ensures event { plant.old.mark ≡ PLANT → IsHeldStep plant.old.handle.held plant.new.handle.held (IsToldAs (Err (absent_in plant.old.handle.held)) result base.old base.new)
        (λ definition v w. (answer : Result ℕ Refused) × IsTrim v answer w × IsToldAs (event_status answer) result base.old base.new) }
{
    let mut thing = match plant.take(PLANT, alloc) {
        Ok(thing) => thing,
        Err(status) => return status.number(),
    };
    let absent = thing.absent();
    let answer = thing.trim();
    plant.put(thing);
    tell(of_event(answer, absent), base)
}
