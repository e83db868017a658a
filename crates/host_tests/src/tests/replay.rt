//! What all threads were answered, replayed as one run.
ghost use Rattle.plant_model.specs.Fitting.{IsOf};
ghost use Rattle.plant_model.specs.System.{plant_of};

use super::told::Fire;
use disk_model::Disk;
use plant_core::Plant;
use plant_model::{PlantState, System};
use std::alloc::{AllocError, Global};
use step_core::{count_allowed, nth_allowed};

/// Whether the fires, in the order of their numbers, are one run of the plant from its first state, which leads to what the plant shows.
pub(super) fn is_one_run<D: Disk>(
    alloc: Global,
    plant: &Plant<'_, D>,
    mut fires: Vec<Fire>,
) -> Result<bool, AllocError> {
    fires.sort_unstable_by_key(|fire| fire.fired.number);
    let system = plant.system();
    let mut states = PlantState::init(alloc, system)?;
    let mut number = 0u64;
    for fire in &fires {
        number = number.saturating_add(1);
        if fire.fired.number != number || !is_next(system, &mut states, fire) {
            return Ok(false);
        }
    }
    Ok(number == plant.front().fired && shows(plant, &states))
}

/// Whether this is the choice of the state at its pick, modulo how many there are. It is fired.
fn is_next(system: &System, states: &mut PlantState, fire: &Fire) -> bool
    requires { IsOf (plant_of system.now) states.old }
    ensures { IsOf (plant_of system.now) states.new }
{
    let count = count_allowed(system, states);
    if count == 0 {
        return false;
    }
    let choice = nth_allowed(system, states, u128::from(fire.pick) % count);
    system.next(states, &choice, &[]);
    choice.same(&fire.fired.choice)
}

/// Whether the plant shows these states.
fn shows<D: Disk>(plant: &Plant<'_, D>, states: &PlantState) -> bool {
    let Ok(atoms) = u16::try_from(states.len()) else {
        return false;
    };
    for atom in 0..atoms {
        match plant.look(atom) {
            Some(state) if state.same(states.state(atom)) => {}
            _ => return false,
        }
    }
    plant.look(atoms).is_none()
}
