//! Which connectors have a choice.
ghost use Rattle.std.specs.Prelude.{◌≡◌};
ghost use Rattle.plant_model.specs.Choice.{choices};
ghost use Rattle.step_core.specs.Running.{plant_in, states_in};
ghost use Rattle.plant_drawing.specs.Drawn.{has_choice, is_coloured};
ghost use Rattle.plant_drawing.specs.Place.{IsFirstFrom};

use crate::filling::Filling;
use step_core::Stepper;

/// Whether the connector with this number is filled as one that has a choice in the present state.
pub(crate) fn is_coloured(filling: Filling, run: &Stepper<'_>, connector: usize) -> bool
    ensures { result ≡ is_coloured filling (plant_in run.now) (states_in run.now) connector }
{
    match filling {
        Filling::Alike => false,
        Filling::ByChoice => has_choice(run, connector),
    }
}

/// Whether the connector with this number has a choice in the present state. A state may have more choices than one could look at;
/// but they stand in the order of their connectors, so the first one past the earlier connectors tells.
fn has_choice(run: &Stepper<'_>, connector: usize) -> bool
    ensures { result ≡ has_choice (choices (plant_in run.now) (states_in run.now)) connector }
{
    let first = first_from(run, connector);
    first < run.count() && usize::from(run.nth(first).connector) == connector
}

/// The place of the first choice that is of this connector or of a later one; that after the last if there is none.
fn first_from(run: &Stepper<'_>, connector: usize) -> u128
    ensures { IsFirstFrom (choices (plant_in run.now) (states_in run.now)) connector result }
{
    let mut low = 0;
    let mut high = run.count();
    while low < high {
        let middle = low + (high - low) / 2;
        if usize::from(run.nth(middle).connector) < connector {
            low = middle + 1;
        } else {
            high = middle;
        }
    }
    low
}
