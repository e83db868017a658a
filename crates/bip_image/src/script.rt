//! The script of a run, from a reader.
ghost use Rattle.std.specs.Prelude.{◌≡◌, ◌≤◌, length, IfErr, IfOk, IfSome, OnOk, Ok, Err};
ghost use Rattle.bip_image.specs.Script.{TellsOfScript};
ghost use Rattle.bip_image.specs.declared.ending.Ending.TheVariants.{ScriptUnread};
ghost use Rattle.script_lines.specs.Script.{script_meaning};
ghost use Rattle.plant_model.specs.Plant.{PlantDefinition};
ghost use Rattle.plant_model.specs.System.{plant_of};
ghost use Rattle.text_io.specs.Reading.{GivesUp};
ghost use Rattle.text_io.specs.declared.reading.TheConstants.{MAX_TEXT};

use crate::ending::Ending;
use plant_core::Event;
use plant_model::System;
use plant_tasks::PlantEnding;
use script_lines::read_script;
use std::alloc::Global;
use std::io::Read;
use text_io::{TextFault, read_text};

/// Reads a script to the reader's end, and gives the events that it asks of a plant of the system. Its text is put into `text`, so that a mistake can
/// be shown there.
pub(crate) fn read_events<R: Read>(
    alloc: Global,
    system: &System,
    reader: &mut R,
    text: &mut Vec<u8>,
) -> Result<Vec<Event>, Ending>
    ensures all { OnOk result (IfSome (R.remaining reader.old) (λ bytes. text.new.items ≡ bytes)) }
    ensures short { OnOk result (length text.new.items ≤ MAX_TEXT) }
    ensures events { IfOk result (λ events. IfSome (R.remaining reader.old) (λ bytes. script_meaning (plant_of system.now) bytes ≡ Ok events.items)) }
    ensures refused { IfErr result (λ ending. IfSome (R.remaining reader.old) (λ bytes. TellsOfScript (plant_of system.now) ending bytes)) }
    ensures unread { result ≡ Err ScriptUnread → GivesUp TextFault.Read (R.remaining reader.old) (R.remaining reader.new) }
{
    let bytes = script_text(alloc, reader)?;
    *text = bytes;
    Ok(read_script(alloc, system, text)?)
}

/// The bytes of a script.
#[tactic(auto, using(crate::proofs::Scripts::long_text_refused))]
fn script_text<R: Read>(alloc: Global, reader: &mut R) -> Result<Vec<u8>, Ending>
    ensures all { IfOk result (λ text. IfSome (R.remaining reader.old) (λ bytes. text.items ≡ bytes)) }
    ensures short { IfOk result (λ text. length text.items ≤ MAX_TEXT) }
    ensures refused { (plant : PlantDefinition) → IfErr result (λ ending. IfSome (R.remaining reader.old) (λ bytes. TellsOfScript plant ending bytes)) }
    ensures unread { result ≡ Err ScriptUnread → GivesUp TextFault.Read (R.remaining reader.old) (R.remaining reader.new) }
{
    match read_text(alloc, reader) {
        Ok(text) => Ok(text),
        Err(TextFault::TooLong) => Err(Ending::Script(0)),
        Err(TextFault::Memory) => Err(Ending::OfPlant(PlantEnding::Memory)),
        Err(TextFault::Read) => Err(Ending::ScriptUnread),
    }
}
