//! What comes of all shares.
ghost use Rattle.std.specs.Prelude.{◌≡◌, ◌≤◌};
ghost use Rattle.plant_model.specs.Rules.{first_fault_in};
ghost use Rattle.plant_model.specs.System.{plant_of};
ghost use Rattle.plant_image.specs.Faults.{replay_fault};
ghost use Rattle.plant_image.specs.Reading.{IsLed, IsSound, Tells, contents_in};
ghost use Rattle.parallel_replay.specs.Shares.{AreShares};

use crate::share::Share;
use plant_image::{Held, ImageFault, Standing};
use plant_model::{MAX_ATOMS, PlantState, System};
use std::alloc::{AllocError, Global};

/// Puts what the workers found together with what was read, in the order of the atoms. So the fault that is answered is that of the least atom, whichever a worker
/// met first.
pub(crate) fn gather(
    alloc: Global,
    system: &System,
    held: Held,
    workers: usize,
    shares: &[Result<Share, AllocError>],
) -> Result<Standing, ImageFault>
    requires some { 1 ≤ workers }
    requires sound { IsSound (plant_of system.now) (contents_in held) }
    requires shares { AreShares (plant_of system.now) (contents_in held) workers shares.now }
    ensures { Tells (first_fault_in (replay_fault (contents_in held)) 0 (plant_of system.now).atoms)
        (IsLed (plant_of system.now) (contents_in held)) result }
{
    system.keeps_its_rules();
    let mut states = PlantState::init(alloc, system)?;
    let mut counts = [0; MAX_ATOMS];
    // There is a slot for each atom.
    for number in 0..held.slots.len() {
        let Ok(share) = &shares[number % workers] else {
            return Err(ImageFault::Memory);
        };
        let Some(found) = &share.places[number] else {
            unreachable!();
        };
        match found {
            Ok(reached) => {
                states.set(number as u16, reached.state.copy());
                counts[number] = reached.count;
            }
            Err(fault) => return Err(*fault),
        }
    }
    Ok(Standing {
        held,
        states,
        counts,
    })
}
