//! Storing the present state of one atom.
ghost use Rattle.std.specs.Prelude.{◌≡◌};
ghost use Rattle.plant_core.specs.Plants.{definition_of, text_digest, view_of};
ghost use Rattle.plant_for_c.specs.Puts.{IsPutOf};

use disk_model::Disk;
use plant_core::{Plant, Refused};
use snapshot_writer::encode;

/// Copies the present state of the atom, stores it, and answers how often the atom had taken part.
pub fn put_state<D: Disk>(plant: &mut Plant<'_, D>, atom: u16) -> Result<u64, Refused>
    ensures event { IsPutOf (view_of plant.old) atom result (view_of plant.new) }
    ensures plant { definition_of plant.new ≡ definition_of plant.old }
    ensures digest { text_digest plant.new ≡ text_digest plant.old }
{
    let parcel = match plant.ask(atom) {
        Ok(parcel) => parcel,
        Err(refused) => return Err(refused),
    };
    match plant.put(encode(parcel)) {
        Ok(count) => Ok(count),
        Err(refusal) => Err(refusal.refused),
    }
}
