//! The numbers of a connector's choices.
ghost use Rattle.std.specs.Prelude.{◌≡◌, ◌+◌, ◌-◌, ◌<◌, ◌≤◌, ℕ, length, slice_index_or};
ghost use Rattle.std.specs.List.{range_with_len};
ghost use Rattle.run_text.specs.Seen.{ChoiceDefinition, choices, plant_in, states_in};
ghost use Rattle.run_text.specs.OwnNumbers.{AreOwn, numbers_of};
ghost use Rattle.run_text.specs.declared.own_numbers.OwnNumbers.{OwnNumbers};
ghost use Rattle.plant_model.specs.declared.limits.TheConstants.{MAX_WIRES};

use plant_model::MAX_WIRES;
use plant_model::laws::choices_stand_in_order;
use step_core::Stepper;

/// The numbers of a connector's choices in the list of choices: those from the first on, up to the end.
#[derive(Clone, Copy)]
pub struct OwnNumbers {
    /// The first.
    pub first: u128,
    /// The one after the last.
    pub end: u128,
}

impl OwnNumbers {
    /// How many there are.
    pub fn count(self) -> u128
        ensures { result ≡ self.end - self.first }
    {
        self.end.saturating_sub(self.first)
    }
}

/// The numbers of the choices that the connector has in the present state. It may have more than one could look at; but choices stand in order, so
/// the ends are found by halving.
pub fn numbers_of(run: &Stepper<'_>, connector: u16) -> OwnNumbers
    ensures numbers { numbers_of (plant_in run.now) (states_in run.now) connector ≡ range_with_len result.first (result.end - result.first) }
    ensures there { result.end ≤ length (choices (plant_in run.now) (states_in run.now)) }
{
    OwnNumbers {
        first: first_from(run, 0, u32::from(connector)),
        end: first_from(run, 0, u32::from(connector) + 1),
    }
}

/// The numbers of each connector's choices, by the connectors' numbers. One connector's begin where those before it end, so each end is looked for
/// once.
pub(crate) fn numbers_by_connector(run: &Stepper<'_>) -> [OwnNumbers; MAX_WIRES]
    ensures { (connector : ℕ) (other : OwnNumbers) → connector < MAX_WIRES → AreOwn (plant_in run.now) (states_in run.now) connector (slice_index_or result connector other) }
{
    let mut numbers = [OwnNumbers { first: 0, end: 0 }; MAX_WIRES];
    let mut first = 0;
    for connector in 0..MAX_WIRES {
        let end = first_from(run, first, connector as u32 + 1);
        numbers[connector] = OwnNumbers { first, end };
        first = end;
    }
    numbers
}

/// The place of the first choice of the connector with this number or of a later one; if there is none, how many choices there are. Those before
/// the place `low` are known to be of earlier connectors.
fn first_from(run: &Stepper<'_>, low: u128, connector: u32) -> u128
    requires low { low ≤ length (choices (plant_in run.now) (states_in run.now)) }
    requires earlier { (place : ℕ) (other : ChoiceDefinition) → place < low → (slice_index_or (choices (plant_in run.now) (states_in run.now)) place other).connector < connector }
    ensures within { result ≤ length (choices (plant_in run.now) (states_in run.now)) }
    ensures before { (place : ℕ) (other : ChoiceDefinition) → place < result → (slice_index_or (choices (plant_in run.now) (states_in run.now)) place other).connector < connector }
    ensures from_there { (place : ℕ) (other : ChoiceDefinition) → result ≤ place → place < length (choices (plant_in run.now) (states_in run.now))
        → connector ≤ (slice_index_or (choices (plant_in run.now) (states_in run.now)) place other).connector }
{
    choices_stand_in_order();
    let mut low = low;
    let mut high = run.count();
    while low < high {
        let middle = low + (high - low) / 2;
        if u32::from(run.nth(middle).connector) < connector {
            low = middle + 1;
        } else {
            high = middle;
        }
    }
    low
}
