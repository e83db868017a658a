//! From the bytes of a text to its system.
ghost use Rattle.std.specs.Prelude.{◌≡◌, ◌≢◌, ◌≤◌, length, IfOk, IfErr, IfSome, OnOk, Ok, Err};
ghost use Rattle.std.specs.Io.KnownBytes.{IsAtEnd};
ghost use Rattle.sha2.specs.Sha256.{sha256};
ghost use Rattle.plant_model.specs.Plant.{PlantDefinition};
ghost use Rattle.plant_model.specs.System.{plant_of};
ghost use Rattle.plant_words.specs.Lines.{lines_of};
ghost use Rattle.text_io.specs.declared.reading.TheConstants.{MAX_TEXT};
ghost use Rattle.plant_text.specs.Draft.{drafted};
ghost use Rattle.plant_text.specs.Fault.{of_no_line};
ghost use Rattle.plant_text.specs.Meaning.{IsWritten, meaning, written_in, lines_row, nothing};
ghost use Rattle.plant_text.specs.Taken.{TakesFew};
ghost use Rattle.plant_text.specs.Text.{text_of};
ghost use Rattle.plant_text.specs.declared.fault.Fault.TheVariants as fault;

use crate::draft::PlantDraft;
use crate::fault::{Fault, PlantFault};
use crate::making::system_of;
use plant_model::System;
use plant_words::Lines;
use std::alloc::Global;
use std::io::Read;
use text_io::{MAX_TEXT, digest_of, read_text};

/// Reads a plant text to the reader's end, and gives its system.
///
/// A fault of a line is answered when the reader is at its end. A reader that has more than a text may have is read up to one byte past
/// that, so at most 1,048,578 reads are made: each but the last gives a byte. Any error of the reader is [`Fault::Read`], also one
/// that asks to try again.
#[tactic(auto, using(crate::proofs::Taking::few_with_a_text, crate::proofs::Taking::few_without_a_text))]
pub fn read_plant<R: Read>(alloc: Global, reader: &mut R) -> Result<System, PlantFault>
    ensures end { OnOk result (IsAtEnd (R.remaining reader.new)) }
    ensures plant { IfOk result
        (λ system. IfSome (R.remaining reader.old) (λ bytes. meaning bytes ≡ Ok (text_of (plant_of system)))) }
    ensures digest { IfOk result
        (λ system. IfSome (R.remaining reader.old) (λ bytes. system.digest ≡ sha256 bytes)) }

    // The text means no other plant.
    ensures only { IfOk result (λ system. IfSome (R.remaining reader.old)
        (λ bytes. (plant : PlantDefinition) → meaning bytes ≡ Ok (text_of plant) → plant ≡ plant_of system)) }
    ensures fault { IfErr result
        (λ told. told ≢ of_no_line fault.Memory → told ≢ of_no_line fault.Read → IfSome (R.remaining reader.old) (λ bytes. meaning bytes ≡ Err told)) }
    ensures few { TakesFew (R.remaining reader.old) (R.remaining reader.new) }
{
    let text = read_text(alloc, reader)?;
    plant_of_text(alloc, &text)
}

/// The system of a plant text.
pub fn plant_of_text(alloc: Global, text: &[u8]) -> Result<System, PlantFault>
    ensures plant { IfOk result (λ system. meaning text.now ≡ Ok (text_of (plant_of system))) }
    ensures digest { IfOk result (λ system. system.digest ≡ sha256 text.now) }

    // The text means no other plant.
    ensures only { IfOk result
        (λ system. (plant : PlantDefinition) → meaning text.now ≡ Ok (text_of plant) → plant ≡ plant_of system) }
    ensures fault { IfErr result (λ told. told ≢ of_no_line fault.Memory → meaning text.now ≡ Err told) }
{
    let draft = read_draft(alloc, text)?;
    system_of(draft, digest_of(text))
}

/// What the lines of a plant text write.
fn read_draft(alloc: Global, text: &[u8]) -> Result<PlantDraft, PlantFault>
    ensures draft { IfOk result (λ draft. written_in text.now ≡ Ok (drafted draft)) }
    ensures written { IfOk result (λ draft. IsWritten (drafted draft)) }
    ensures fault { IfErr result (λ told. told ≢ of_no_line fault.Memory → written_in text.now ≡ Err told) }
{
    if text.len() > MAX_TEXT {
        return Err(PlantFault::of_no_line(Fault::TooLong));
    }
    let draft = read_lines(alloc, text)?;
    if draft.atoms.is_empty() {
        return Err(PlantFault::of_no_line(Fault::NoAtom));
    }
    Ok(draft)
}

/// What the lines of a text say, one after the other.
fn read_lines(alloc: Global, text: &[u8]) -> Result<PlantDraft, PlantFault>
    requires { length text.now ≤ MAX_TEXT }
    ensures draft { IfOk result (λ draft. lines_row 1 (lines_of text.now) nothing ≡ Ok (drafted draft)) }
    ensures fault { IfErr result
        (λ told. told ≢ of_no_line fault.Memory → lines_row 1 (lines_of text.now) nothing ≡ Err told) }
{
    let mut draft = PlantDraft::new(alloc);
    let mut lines = Lines::new(text);
    let mut number = 1;
    while let Some(line) = lines.next_line() {
        match draft.add_line(line) {
            Ok(()) => number += 1,
            Err(fault) => return Err(PlantFault::placed(number, fault)),
        }
    }
    Ok(draft)
}
