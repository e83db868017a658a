//! What a number takes by the weights of connectors.
ghost use Rattle.std.specs.Prelude.{◌≡◌, ◌+◌, ◌-◌, ◌%◌, ◌<◌, ◌≤◌, ◌==◌, if◌then◌else◌, ℕ, Some, IfSome, length, option_map, slice_get, slice_index, slice_index_or};
ghost use Rattle.std.specs.List.{sum};
ghost use Rattle.run_text.specs.OwnNumbers.{AreOwn};
ghost use Rattle.run_text.specs.Seen.{IsAllowed, choice_of, choices, plant_in, states_in};
ghost use Rattle.run_text.specs.Weights.{by_weight, falls_to, weight_in};
ghost use Rattle.run_text.specs.declared.own_numbers.OwnNumbers.{OwnNumbers};
ghost use Rattle.plant_model.specs.declared.limits.TheConstants.{MAX_WIRES};

use crate::own_numbers::{OwnNumbers, numbers_by_connector};
use crate::weights::Weights;
use plant_model::laws::a_plant_is_within_limits;
use plant_model::{Choice, MAX_WIRES};
use step_core::Stepper;

/// The choice that the number takes by the weights of the connectors: modulo the sum of the weights it falls to a connector, and what is left of it
/// takes one of the choices of that one. `None` if no connector that has a choice has a weight.
pub fn by_weight(run: &Stepper<'_>, number: u64, weights: &Weights) -> Option<Choice>
    ensures choice { option_map choice_of result ≡ by_weight (plant_in run.now) (states_in run.now) weights.now number }
    ensures allowed { IfSome result (λ choice. IsAllowed (plant_in run.now) (states_in run.now) (choice_of choice)) }
{
    let numbers = numbers_by_connector(run);
    let shares = shares_of(run, &numbers, weights);
    let shares = &shares[..wire_count(run)];
    let sum = sum_of(shares);
    if sum == 0 {
        return None;
    }
    let connector = falls_to(number % sum, shares);
    Some(own_choice(run, numbers[connector], number / sum))
}

/// How many connectors the plant has.
fn wire_count(run: &Stepper<'_>) -> usize
    ensures count { result ≡ length (plant_in run.now).wires }
    ensures few { result ≤ MAX_WIRES }
{
    run.system().keeps_its_rules();
    a_plant_is_within_limits();
    run.system().wires().len()
}

/// The weight of each connector in the present state, where these are the numbers of the connectors' choices.
fn shares_of(
    run: &Stepper<'_>,
    numbers: &[OwnNumbers; MAX_WIRES],
    weights: &Weights,
) -> [u16; MAX_WIRES]
    requires { (connector : ℕ) (other : OwnNumbers) → connector < MAX_WIRES → AreOwn (plant_in run.now) (states_in run.now) connector (slice_index_or numbers.now connector other) }
    ensures weights { (connector : ℕ) → connector < MAX_WIRES → slice_index result connector ≡ weight_in (plant_in run.now) (states_in run.now) weights.now connector }
    ensures all { length result ≡ MAX_WIRES }
{
    let mut shares = [0; MAX_WIRES];
    for connector in 0..MAX_WIRES {
        shares[connector] = share(numbers[connector], connector, weights);
    }
    shares
}

/// The weight of a connector whose choices have these numbers: the one that is set for it, but 0 if there are none.
fn share(own: OwnNumbers, connector: usize, weights: &Weights) -> u16
    ensures { result ≡ (if own.end - own.first == 0 then 0 else slice_index weights.now connector) }
{
    if own.count() == 0 {
        0
    } else {
        weights.of(connector)
    }
}

/// The sum of the weights.
fn sum_of(shares: &[u16]) -> u64
    requires { length shares.now ≤ MAX_WIRES }
    ensures { result ≡ sum shares.now }
{
    let mut sum = 0;
    for share in shares {
        sum += u64::from(*share);
    }
    sum
}

/// The place to which the number falls by running sums of the weights; past them if it is no less than their sum.
fn falls_to(number: u64, shares: &[u16]) -> usize
    ensures { result ≡ falls_to number shares.now }
{
    let mut left = number;
    for (place, share) in shares.iter().enumerate() {
        let share = u64::from(*share);
        if left < share {
            return place;
        }
        left -= share;
    }
    shares.len()
}

/// The choice that the number takes among those with these numbers, modulo how many they are.
fn own_choice(run: &Stepper<'_>, own: OwnNumbers, number: u64) -> Choice
    requires some { own.first < own.end }
    requires there { own.end ≤ length (choices (plant_in run.now) (states_in run.now)) }
    ensures choice { slice_get (choices (plant_in run.now) (states_in run.now)) (own.first + number % (own.end - own.first)) ≡ Some (choice_of result) }
    ensures allowed { IsAllowed (plant_in run.now) (states_in run.now) (choice_of result) }
{
    run.nth(own.first + u128::from(number) % own.count())
}
