//! One move of the plant and of its device.
ghost use Rattle.std.specs.Prelude.{◌≡◌, ◌≢◌, ◌<◌, ◌≤◌, ℕ, [], Contains, None, Some, IfOk, IfSome, OnOk, length, slice_get};
ghost use Rattle.std.specs.Io.KnownBytes.{Appends};
ghost use Rattle.plant_model.specs.Choice.{ChoiceDefinition};
ghost use Rattle.plant_core.specs.Plants.{definition_of, device_of, text_digest, view_of};
ghost use Rattle.plant_core.specs.View.{sure_in};
ghost use Rattle.crossing_control.specs.Moves.{HasMoved, order_text, told_text};

use crate::ending::Ending;
use disk_model::Disk;
use plant_core::Plant;
use plant_model::Inputs;
use std::io::Write;
use text_io::{WriteFault, end_line, hand_on, print_number, print_text};

/// Makes the first move that the connector has now, if it has one, and says whether it had. The choice is fired and acknowledged, and only then the device is told to
/// move: by a line with the number of the move and the name of the connector.
pub(crate) fn make_move<D: Disk, W: Write>(
    plant: &mut Plant<'_, D>,
    connector: u16,
    output: &mut W,
) -> Result<bool, Ending>
    ensures moved { IfOk result (λ moved. HasMoved (definition_of plant.old) connector (view_of plant.old) moved (view_of plant.new)) }
    ensures told { IfOk result (λ moved. Appends (W.contents output.old) (W.contents output.new) (told_text (definition_of plant.old) connector moved (view_of plant.new).number)) }
    // Nothing is told while a move is not acknowledged.
    ensures safe { (view_of plant.new).tail ≢ [] → output.new ≡ output.old }
    ensures plant { definition_of plant.new ≡ definition_of plant.old }
    ensures digest { text_digest plant.new ≡ text_digest plant.old }
{
    let Some(place) = first_choice(plant, connector) else {
        return Ok(false);
    };
    plant.fire(place, &Inputs::none())?;
    let number = plant.flush()?;
    tell_device(plant, connector, number, output)?;
    Ok(true)
}

/// The place of the first choice of the connector, if it has one now.
fn first_choice<D: Disk>(plant: &Plant<'_, D>, connector: u16) -> Option<u128>
    ensures there { IfSome result (λ place. (c : ChoiceDefinition) × (slice_get (sure_in (definition_of plant.now) (view_of plant.now)) place ≡ Some c) × (c.connector ≡ connector)) }
    ensures none { result ≡ None → (c : ChoiceDefinition) → Contains (sure_in (definition_of plant.now) (view_of plant.now)) c → c.connector ≢ connector }
{
    for place in 0..plant.count() {
        if plant.nth(place).connector == connector {
            return Some(place);
        }
    }
    None
}

/// Tells the device of a connector to move, by a line that goes out at once.
fn tell_device<D: Disk, W: Write>(
    plant: &Plant<'_, D>,
    connector: u16,
    number: u64,
    output: &mut W,
) -> Result<(), WriteFault>
    ensures { OnOk result (Appends (W.contents output.old) (W.contents output.new) (order_text (definition_of plant.now) connector number)) }
{
    print_number(output, number)?;
    print_text(output, b" ")?;
    print_text(output, plant.system().wire_name(connector))?;
    end_line(output)?;
    hand_on(output)
}
