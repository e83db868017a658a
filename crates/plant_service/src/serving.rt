//! The lines, one by one.
ghost use Rattle.std.specs.Prelude.{◌≡◌, codes, length, IfOk, IfSome, OnOk};
ghost use Rattle.std.specs.Io.KnownBytes.{Appends};
ghost use Rattle.blocked_text.specs.Asked.{plant_asked};
ghost use Rattle.plant_core.specs.Handed.{hands_of};
ghost use Rattle.plant_core.specs.Hands.{AreHandsFor};
ghost use Rattle.plant_core.specs.Plants.{definition_of, device_of, text_digest, view_of};
ghost use Rattle.plant_model.specs.Fitting.{IsOf};
ghost use Rattle.plant_service.specs.Serving.{AreLinesServed, HasBeenDriven, HasBeenServed, IsSession, closing_text};

use crate::answering::answer_command;
use crate::command::read_command;
use crate::fault::ServeFault;
use crate::line_length::KEPT;
use arrayvec::ArrayVec;
use blocked_text::Reasons;
use disk_model::Disk;
use plant_core::{Hands, Plant};
use plant_model::PlantState;
use plant_words::Lines;
use script_lines::{print_front, print_standing};
use std::alloc::Global;
use std::io::{BufRead, Write};
use text_io::{WriteFault, hand_on, print_text, read_line};

/// Serves a durable plant: prints where it stands, and answers each line of the input until one asks to quit, or to the input's end; then it prints
/// how far the plant is. It tells whether the device failed: that answer was the last, and nothing stands after it.
///
/// A line `end` stands behind each answer, and behind the first and the last lines. All that was printed is handed on before a line is read, before
/// each event that makes calls of the device, and at the end: so whoever reads the answers sees each before it needs to write the next line.
/// Nothing is flushed of its own: what was fired and not acknowledged at the end may be lost. Rule k of the plant stands on the line
/// `rule_lines[k]` of its text. Lines may have up to `MAX_LINE` bytes, and there is no limit of all together.
pub fn serve<'s, D: Disk, R: BufRead, W: Write>(
    alloc: Global,
    plant: &mut Plant<'s, D>,
    rule_lines: &[u32],
    input: &mut R,
    output: &mut W,
) -> Result<bool, ServeFault>
    ensures served { IfOk result (λ failed. IfSome (R.remaining input.old) (λ bytes. IsSession (definition_of plant.old) (text_digest plant.old) rule_lines.now (view_of plant.old) (device_of plant.old) bytes failed (view_of plant.new) (device_of plant.new) (W.contents output.old) (W.contents output.new))) }
    ensures driven { HasBeenServed (definition_of plant.old) (text_digest plant.old) (view_of plant.old) (device_of plant.old) (view_of plant.new) (device_of plant.new) }
    ensures plant { definition_of plant.new ≡ definition_of plant.old }
    ensures digest { text_digest plant.new ≡ text_digest plant.old }
{
    plant.stands_for_a_front();
    let system = plant.system();
    let reasons = Reasons::new(alloc, system);
    let mut states = PlantState::init(alloc, system)?;
    let mut hands = Hands::new(alloc, system.atoms().len())?;
    print_standing(plant, output)?;
    end_answer(output)?;
    let failed = serve_lines(
        plant,
        &mut hands,
        &reasons,
        rule_lines,
        &mut states,
        input,
        output,
    )?;
    close(plant, failed, output)?;
    Ok(failed)
}

/// Prints how far the plant is, where the device did not fail.
fn close<D: Disk, W: Write>(
    plant: &Plant<'_, D>,
    failed: bool,
    output: &mut W,
) -> Result<(), WriteFault>
    ensures { OnOk result (Appends (W.contents output.old) (W.contents output.new) (closing_text failed (view_of plant.now))) }
{
    if failed {
        return print_text(output, b"");
    }
    print_front(plant.front(), output)?;
    print_text(output, b"\n")?;
    end_answer(output)
}

/// Ends an answer, and lets it out.
fn end_answer<W: Write>(output: &mut W) -> Result<(), WriteFault>
    ensures { OnOk result (Appends (W.contents output.old) (W.contents output.new) (codes "end\n")) }
{
    print_text(output, b"end\n")?;
    hand_on(output)
}

/// Answers each line of the input until one asks to quit, or the device fails, or to the input's end. It tells whether the device failed.
fn serve_lines<'s, D: Disk, R: BufRead, W: Write>(
    plant: &mut Plant<'s, D>,
    hands: &mut Hands<'s>,
    reasons: &Reasons<'_>,
    rule_lines: &[u32],
    states: &mut PlantState,
    input: &mut R,
    output: &mut W,
) -> Result<bool, ServeFault>
    requires hands { AreHandsFor (length (definition_of plant.old).atoms) (hands_of hands.old) }
    requires reasons { plant_asked reasons.now ≡ definition_of plant.old }
    requires states { IsOf (definition_of plant.old) states.old }
    ensures served { IfOk result (λ failed. IfSome (R.remaining input.old) (λ bytes. AreLinesServed (definition_of plant.old) (text_digest plant.old) rule_lines.now (view_of plant.old) (device_of plant.old) (hands_of hands.old) bytes failed (view_of plant.new) (device_of plant.new) (hands_of hands.new) (W.contents output.old) (W.contents output.new))) }
    ensures driven { HasBeenDriven (definition_of plant.old) (text_digest plant.old) (view_of plant.old) (device_of plant.old) (hands_of hands.old) (view_of plant.new) (device_of plant.new) (hands_of hands.new) }
    ensures plant { definition_of plant.new ≡ definition_of plant.old }
    ensures digest { text_digest plant.new ≡ text_digest plant.old }
{
    plant.stands_for_a_front();
    plant.tail_is_a_run();
    let mut line: ArrayVec<u8, KEPT> = ArrayVec::new();
    for _ in 0..u64::MAX {
        read_line(input, &mut line)?;
        let Some(asked) = Lines::new(line.as_slice()).next_line() else {
            return Ok(false);
        };
        let command = read_command(plant.system(), asked);
        if command.ends() {
            return Ok(false);
        }
        let failed = answer_command(
            plant, hands, reasons, rule_lines, states, &command, asked, output,
        )?;
        end_answer(output)?;
        if failed {
            return Ok(true);
        }
    }
    Err(ServeFault::Read)
}
