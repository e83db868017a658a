//! A run of random choices.
ghost use Rattle.std.specs.Prelude.{◌≡◌, ◌≤◌, ◌<◌, ◌%◌};
ghost use Rattle.step_core.specs.Running.{plant_in};

use crate::hash::Hash;
use run_text::{Pick, Picks, RandomPicks, Take, print_states};
use step_core::Stepper;

/// Fires so many choices by the picks, each modulo how many there are, and says how many it fired: fewer only if nothing is possible
/// any more, or no pick is left.
pub(crate) fn fire_steps(run: &mut Stepper<'_>, picks: &mut RandomPicks, steps: u64) -> u64
    ensures few { result ≤ steps }
    ensures plant { plant_in run.new ≡ plant_in run.old }
{
    for fired in 0..steps {
        match next_number(picks) {
            Some(number) if fire_step(run, number) => {}
            _ => return fired,
        }
    }
    steps
}

/// The number of the next pick, if one is left.
fn next_number(picks: &mut RandomPicks) -> Option<u64> {
    match picks.next_pick() {
        Ok(
            Some(
                Pick {
                    take: Take::Counted(number),
                    ..
                },
            ),
        ) => Some(number),
        _ => None,
    }
}

/// Fires one choice by the number, and says whether there was one.
fn fire_step(run: &mut Stepper<'_>, number: u64) -> bool
    ensures plant { plant_in run.new ≡ plant_in run.old }
{
    let count = run.count();
    if count == 0 {
        return false;
    }
    run.fire_nth(place_of(number, count));
    true
}

/// The number modulo the count, by a division of 64 bits: a count that fits none is greater than each number.
fn place_of(number: u64, count: u128) -> u128
    requires { 0 < count }
    ensures remainder { result ≡ number % count }
    ensures within { result < count }
{
    if count <= u128::from(u64::MAX) {
        u128::from(number % count as u64)
    } else {
        u128::from(number)
    }
}

/// The hash of the lines of the present state.
pub(crate) fn hash_of_states(run: &Stepper<'_>) -> u64 {
    let mut hash = Hash::new();
    let _ = print_states(run.system(), run.states(), &mut hash);
    hash.value
}
