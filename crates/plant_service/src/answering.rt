//! The answer to a line.
ghost use Rattle.std.specs.Prelude.{◌≡◌, length, IfOk, OnErr};
ghost use Rattle.blocked_text.specs.Asked.{plant_asked};
ghost use Rattle.plant_core.specs.Handed.{hands_of};
ghost use Rattle.plant_core.specs.Hands.{AreHandsFor};
ghost use Rattle.plant_core.specs.Plants.{definition_of, device_of, text_digest, view_of};
ghost use Rattle.plant_model.specs.Fitting.{IsOf};
ghost use Rattle.plant_service.specs.Serving.{HasBeenDriven, IsAnsweredAs};

use crate::command::Command;
use crate::queries::print_query;
use crate::saving::save;
use blocked_text::Reasons;
use disk_model::Disk;
use plant_core::{Hands, Plant};
use plant_model::PlantState;
use script_lines::{answer, has_failed};
use std::io::Write;
use text_io::WriteFault;

/// Does what a line asks for, prints the answer, and tells whether the device failed. The reasons are those of the plant, rule k of it stands on
/// the line `rule_lines[k]` of its text, and the states are room in which those of the plant are looked at.
pub(crate) fn answer_command<'s, D: Disk, W: Write>(
    plant: &mut Plant<'s, D>,
    hands: &mut Hands<'s>,
    reasons: &Reasons<'_>,
    rule_lines: &[u32],
    states: &mut PlantState,
    command: &Command,
    line: &[u8],
    output: &mut W,
) -> Result<bool, WriteFault>
    requires hands { AreHandsFor (length (definition_of plant.old).atoms) (hands_of hands.old) }
    requires reasons { plant_asked reasons.now ≡ definition_of plant.old }
    requires states { IsOf (definition_of plant.old) states.old }
    ensures answered { IfOk result (λ failed. IsAnsweredAs (definition_of plant.old) (text_digest plant.old) rule_lines.now (view_of plant.old) (device_of plant.old) (hands_of hands.old) line.now command.now failed (view_of plant.new) (device_of plant.new) (hands_of hands.new) (W.contents output.old) (W.contents output.new)) }
    ensures cut { OnErr result (HasBeenDriven (definition_of plant.old) (text_digest plant.old) (view_of plant.old) (device_of plant.old) (hands_of hands.old) (view_of plant.new) (device_of plant.new) (hands_of hands.new)) }
    ensures as_many { AreHandsFor (length (definition_of plant.old).atoms) (hands_of hands.new) }
    ensures states { IsOf (definition_of plant.old) states.new }
    ensures plant { definition_of plant.new ≡ definition_of plant.old }
    ensures digest { text_digest plant.new ≡ text_digest plant.old }
{
    match command {
        Command::Asks(event) => Ok(has_failed(&answer(plant, hands, event, output)?)),
        Command::Save => save(plant, hands, output),
        _ => {
            plant.stands_for_a_front();
            print_query(plant, reasons, rule_lines, states, command, line, output)?;
            Ok(false)
        }
    }
}
