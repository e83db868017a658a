//! Several things that a run is watched for.
ghost use Rattle.std.specs.Prelude.{◌≡◌};
ghost use Rattle.step_core.specs.Running.{plant_in, states_in};
ghost use Rattle.run_watches.specs.Watches.{first_of};

use crate::watch::Watch;
use run_text::Watching;
use step_core::Stepper;

/// Several things that a run is watched for, in their order.
#[derive(Clone, Copy)]
pub struct Watches<'a> {
    /// These.
    pub watches: &'a [Watch],
}

impl Watching for Watches<'_> {
    ghost use Rattle.std.specs.Prelude.{refl};
    ghost use Rattle.run_text.specs.Watched.{watched};
    ghost use Rattle.run_watches.specs.Watches.{first_of};

    ghost held = { λ several. first_of several.watches.now };

    ghost taken = { λ several plant states left. watched (first_of several.watches.now) plant states 1 left };

    fn first_held(&self, run: &Stepper<'_>) -> Option<usize> {
        first_of(self.watches, run)
    }

    ghost taken_is = { λ _ _ _ _. refl };
}

/// The place of the first of them that holds in the present state.
fn first_of(watches: &[Watch], run: &Stepper<'_>) -> Option<usize>
    ensures { result ≡ first_of watches.now (plant_in run.now) (states_in run.now) }
{
    watches.iter().position(|watch| watch.holds(run))
}
