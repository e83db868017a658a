//! The plant in its first state once more.
ghost use Rattle.std.specs.Prelude.{◌≡◌};
ghost use Rattle.run_text.specs.Seen.{initial_states, plant_in, states_in};

use step_core::Stepper;

/// Puts a plant into its first state, whatever its present one is. It takes no memory.
pub(crate) fn restart(run: &mut Stepper<'_>)
    ensures plant { plant_in run.new ≡ plant_in run.old }
    ensures first { states_in run.new ≡ initial_states (plant_in run.old) }
{
    let system = run.system();
    system.keeps_its_rules();
    for (number, atom) in system.atoms().iter().enumerate() {
        run.set(number as u16, atom.initial());
    }
}
