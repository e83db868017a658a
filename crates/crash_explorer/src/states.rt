//! The state of a plant after some firings.
ghost use Rattle.std.specs.Prelude.{◌≡◌, ◌+◌, ◌≤◌, ◌↔◌, ◌++◌, ℕ, IsTrue, IfOk, length, map, take};
ghost use Rattle.plant_model.specs.Runs.{IsRun, fold};
ghost use Rattle.plant_model.specs.declared.limits.TheConstants.{MAX_ATOMS};
ghost use Rattle.step_core.specs.Running.{plant_in, states_in};
ghost use Rattle.crash_explorer.specs.Seen.{plant_of, fired_of};
ghost use Rattle.crash_explorer.specs.Judging.{IsRunOf, state_after};

use plant_model::{Firing, PlantState, System};
use std::alloc::{AllocError, Global};
use step_core::Stepper;

/// Whether these are the states after all of the acknowledged firings and a front of the tail, and `number` is how many firings that is.
pub(crate) fn are_behind_front(
    alloc: Global,
    system: &System,
    acked: &[Firing],
    tail: &[Firing],
    states: &PlantState,
    number: u64,
) -> Result<bool, AllocError>
    requires { IsRunOf (plant_of system.now) (map fired_of acked.now ++ map fired_of tail.now) }
    ensures { IfOk result (λ are. IsTrue are ↔ ((k : ℕ) × (k ≤ length (map fired_of tail.now))
        × (states.now ≡ state_after (plant_of system.now) (map fired_of acked.now ++ take k (map fired_of tail.now)))
        × (number ≡ length (map fired_of acked.now) + k))) }
{
    let least = acked.len() as u64;
    if number < least || number - least > tail.len() as u64 {
        return Ok(false);
    }
    let front = (number - least) as usize;
    system.keeps_its_rules();
    let mut stepper = Stepper::first(alloc, system)?;
    fire_all(&mut stepper, acked);
    fire_all(&mut stepper, &tail[..front]);
    Ok(are_same(stepper.states(), states))
}

/// Makes the firings, one after another.
fn fire_all(stepper: &mut Stepper<'_>, firings: &[Firing])
    requires { IsRun (plant_in stepper.old) (states_in stepper.old) (map fired_of firings.now) (fold (plant_in stepper.old) (states_in stepper.old) (map fired_of firings.now)) }
    ensures plant { plant_in stepper.new ≡ plant_in stepper.old }
    ensures states { states_in stepper.new ≡ fold (plant_in stepper.old) (states_in stepper.old) (map fired_of firings.now) }
{
    for firing in firings {
        stepper.fire(&firing.choice, firing.inputs.as_slice());
    }
}

/// Whether the two are the same state of each atom.
fn are_same(one: &PlantState, other: &PlantState) -> bool
    requires { length one.now ≤ MAX_ATOMS }
    ensures { IsTrue result ↔ (one.now ≡ other.now) }
{
    if one.len() != other.len() {
        return false;
    }
    for atom in 0..one.len() {
        if !one.state(atom as u16).same(other.state(atom as u16)) {
            return false;
        }
    }
    true
}
