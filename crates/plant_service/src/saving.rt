//! All that is behind is saved.
ghost use Rattle.std.specs.Prelude.{◌≡◌, length, IfOk, OnErr};
ghost use Rattle.plant_core.specs.Handed.{hands_of};
ghost use Rattle.plant_core.specs.Hands.{AreHandsFor};
ghost use Rattle.plant_core.specs.Plants.{definition_of, device_of, text_digest, view_of};
ghost use Rattle.plant_service.specs.Saving.{saving_events};
ghost use Rattle.plant_service.specs.Serving.{HasBeenAsked, HasBeenDriven};

use disk_model::Disk;
use plant_core::{Event, Hands, Plant};
use script_lines::{answer, has_failed};
use std::io::Write;
use text_io::WriteFault;

/// Stores the acknowledged state of each atom whose newest saved state is behind it, and then drops the records that no restart needs. It prints the
/// line of each answer, and tells whether the device failed.
pub(crate) fn save<'s, D: Disk, W: Write>(
    plant: &mut Plant<'s, D>,
    hands: &mut Hands<'s>,
    output: &mut W,
) -> Result<bool, WriteFault>
    requires { AreHandsFor (length (definition_of plant.old).atoms) (hands_of hands.old) }
    ensures saved { IfOk result (λ failed. HasBeenAsked (definition_of plant.old) (text_digest plant.old) (view_of plant.old) (device_of plant.old) (hands_of hands.old) saving_events failed (view_of plant.new) (device_of plant.new) (hands_of hands.new) (W.contents output.old) (W.contents output.new)) }
    ensures cut { OnErr result (HasBeenDriven (definition_of plant.old) (text_digest plant.old) (view_of plant.old) (device_of plant.old) (hands_of hands.old) (view_of plant.new) (device_of plant.new) (hands_of hands.new)) }
    ensures as_many { AreHandsFor (length (definition_of plant.old).atoms) (hands_of hands.new) }
    ensures plant { definition_of plant.new ≡ definition_of plant.old }
    ensures digest { text_digest plant.new ≡ text_digest plant.old }
{
    plant.stands_for_a_front();
    plant.tail_is_a_run();
    let saved = answer(plant, hands, &Event::Save, output)?;
    let trimmed = answer(plant, hands, &Event::Trim, output)?;
    Ok(has_failed(&saved) | has_failed(&trimmed))
}
