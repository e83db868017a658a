//! Printing a restated text.
ghost use Rattle.std.specs.Prelude.{◌≡◌, ◌<◌, ◌≤◌, IfErr, OnOk, length};
ghost use Rattle.plant_model.specs.declared.limits.TheConstants.{MAX_ATOMS};
ghost use Rattle.text_io.specs.Printing.{Prints};
ghost use Rattle.text_io.specs.declared.reading.TheConstants.{MAX_TEXT};
ghost use Rattle.restated_text.specs.Printing.{Leaves};
ghost use Rattle.restated_text.specs.Text.{restated_text};

use crate::fault::RestateFault;
use crate::text::restate;
use plant_model::PlantState;
use std::alloc::Global;
use std::io::Write;
use text_io::{MAX_TEXT, print_text};

/// Prints the text with the states as its atoms' first ones, if it is no longer than a text may be. The whole text is made first, and
/// written by one call.
///
/// What it means if the text means a plant: [`laws`](crate::laws).
pub fn print_restated<W: Write>(
    alloc: Global,
    text: &[u8],
    states: &PlantState,
    output: &mut W,
) -> Result<(), RestateFault>
    requires { length states.now ≤ MAX_ATOMS }
    ensures printed { Prints result (W.contents output.old) (W.contents output.new) (restated_text states.now text.now) }
    ensures short { OnOk result (length (restated_text states.now text.now) ≤ MAX_TEXT) }
    ensures fault { IfErr result (λ fault. Leaves fault (restated_text states.now text.now) (W.contents output.old) (W.contents output.new)) }
{
    let restated = restate(alloc, text, states)?;
    if restated.len() > MAX_TEXT {
        return Err(RestateFault::TooLong);
    }
    print_text(output, &restated)?;
    Ok(())
}
