//! Room for the record of the next move.
use crate::ending::Ending;
use disk_model::Disk;
use plant_core::{Plant, Refused};

/// Room is made where the ring has less for new records.
const LEAST_FREE: u64 = 8;

/// Saves the atoms that are behind and drops the records that no restart needs, if the ring has room for few records more.
pub(crate) fn make_room<D: Disk>(plant: &mut Plant<'_, D>) -> Result<(), Ending> {
    let front = plant.front();
    let kept = front.fired + 1 - front.base;
    if u64::from(plant.ring()) - kept >= LEAST_FREE {
        return Ok(());
    }
    passed(plant.save().err())?;
    passed(plant.trim().err())
}

/// That nothing is new to save, and nothing may go, is no reason to end.
fn passed(refused: Option<Refused>) -> Result<(), Ending> {
    match refused {
        None | Some(Refused::NothingNew) => Ok(()),
        Some(refused) => Err(Ending::Refused(refused)),
    }
}
