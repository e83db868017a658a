//! What is done with a plant: it is read from a text, and then a task is done with it.
ghost use Rattle.std.specs.Prelude.{◌≡◌, ◌<◌, IfErr, IfOk, IfSome, OnOk, Ok, Err};
ghost use Rattle.std.specs.Io.KnownBytes.{Keeps};
ghost use Rattle.run_text.specs.Seen.{plant_of};
ghost use Rattle.plant_text.specs.Meaning.{meaning};
ghost use Rattle.plant_text.specs.Taken.{TakesFew};
ghost use Rattle.plant_text.specs.Text.{text_of};
ghost use Rattle.plant_text.specs.declared.fault.PlantFault.{PlantFault};
ghost use Rattle.plant_tasks.specs.Done.{IsDone};
ghost use Rattle.plant_tasks.specs.Ending.{Tells};
ghost use Rattle.plant_tasks.specs.declared.ending.PlantEnding.TheVariants.{Plant};

use crate::doing::print_task;
use crate::ending::PlantEnding;
use command_line::Task;
use plant_model::System;
use plant_text::{PlantFault, plant_of_text};
use run_tallies::Progress;
use std::alloc::Global;
use std::io::{BufRead, Read, Write};
use text_io::{WriteFault, hand_on, read_text};

/// A plant that was read, and its text.
#[derive(Clone, Copy)]
pub struct ReadPlant<'a> {
    /// The plant.
    pub system: &'a System,
    /// Its text.
    pub text: &'a [u8],
    /// Where the text stands, as warnings name it.
    pub path: &'a str,
}

/// Prints what the task says of a plant that was read, and saves what it fires if it is to. The picks that a text has are read from `input`
/// as they are taken, and nothing else is. How far many runs have come is told to `progress`.
///
/// Where a pick is refused, and where a run comes to what must not hold, it is printed and saved up to there. Where the input or a writer fails, a part
/// of it may be.
pub fn perform<F: BufRead + Drop, W: Write, S: Write, G: Progress>(
    alloc: Global,
    task: &Task<'_>,
    plant: &ReadPlant<'_>,
    input: F,
    output: &mut W,
    saved: &mut S,
    progress: &mut G,
) -> Result<(), PlantEnding>
    ensures { IsDone W.contents S.contents task.now plant.now (F.remaining input) result output.old output.new saved.old saved.new }
{
    match print_task(alloc, task, plant, input, output, saved, progress) {
        Ok(()) => Ok(hand_on_both(output, saved)?),
        Err(PlantEnding::Refused(refusal)) => {
            hand_on_both(output, saved)?;
            Err(PlantEnding::Refused(refusal))
        }
        Err(PlantEnding::Held) => {
            hand_on_both(output, saved)?;
            Err(PlantEnding::Held)
        }
        Err(ending) => Err(ending),
    }
}

/// Hands on what both writers still keep.
fn hand_on_both<W: Write, S: Write>(output: &mut W, saved: &mut S) -> Result<(), WriteFault>
    ensures output { OnOk result (Keeps (W.contents output.old) (W.contents output.new)) }
    ensures saved { OnOk result (Keeps (S.contents saved.old) (S.contents saved.new)) }
{
    hand_on(output)?;
    hand_on(saved)
}

/// Reads a plant text to the reader's end, and gives the plant. The text is put into `text`, so that a fault of one of its lines can be
/// shown there.
pub fn read_plant<R: Read>(
    alloc: Global,
    reader: &mut R,
    text: &mut Vec<u8>,
) -> Result<System, PlantEnding>
    ensures plant { IfOk result (λ system. IfSome (R.remaining reader.old) (λ bytes. meaning bytes ≡ Ok (text_of (plant_of system)))) }
    ensures all { OnOk result (IfSome (R.remaining reader.old) (λ bytes. text.new.items ≡ bytes)) }
    ensures refused { IfErr result (λ ending. IfSome (R.remaining reader.old) (λ bytes. Tells ending bytes)) }
    ensures kept { (found : PlantFault) → result ≡ Err (Plant found) → 0 < found.line → IfSome (R.remaining reader.old) (λ bytes. text.new.items ≡ bytes) }
    ensures few { TakesFew (R.remaining reader.old) (R.remaining reader.new) }
{
    *text = read_bytes(alloc, reader)?;
    Ok(plant_of_text(alloc, text)?)
}

/// The bytes of a plant text.
fn read_bytes<R: Read>(alloc: Global, reader: &mut R) -> Result<Vec<u8>, PlantEnding>
    ensures all { IfOk result (λ text. IfSome (R.remaining reader.old) (λ bytes. text.items ≡ bytes)) }
    ensures refused { IfErr result (λ ending. IfSome (R.remaining reader.old) (λ bytes. Tells ending bytes)) }
    ensures no_line { (found : PlantFault) → result ≡ Err (Plant found) → found.line ≡ 0 }
    ensures few { TakesFew (R.remaining reader.old) (R.remaining reader.new) }
{
    Ok(read_text(alloc, reader).map_err(PlantFault::from)?)
}
