//! A plant that is run by hand.
ghost use Rattle.std.specs.Prelude.{◌≡◌, IfErr, IfOk, IfSome, OnOk};
ghost use Rattle.part_lines.specs.Lookup.{rule_lines};
ghost use Rattle.plant_words.specs.Lines.{lines_of};
ghost use Rattle.run_text.specs.RunPicks.{picks_left};
ghost use Rattle.run_text.specs.Runs.{refusal_of};
ghost use Rattle.run_text.specs.Seen.{plant_of};
ghost use Rattle.step_session.specs.Behind.{session_behind};
ghost use Rattle.step_session.specs.Transcript.{IsTranscript, transcript_of};
ghost use Rattle.plant_tasks.specs.Behind.{picks_behind};
ghost use Rattle.plant_tasks.specs.Ending.{IfDone, IsOfSession, IsUnbegun};
ghost use Rattle.plant_tasks.specs.Printed.{plant_read};

use crate::ending::PlantEnding;
use crate::picks::numbers_of;
use crate::task::ReadPlant;
use command_line::Numbers;
use part_lines::rule_lines;
use plant_model::System;
use recorded_picks::RecordedPicks;
use run_text::{GivenPicks, RunPicks};
use std::alloc::{AllocError, Global};
use std::io::{BufRead, Write};
use step_session::{Mark, Saver, step_by_hand};

/// A text of picks behind which a run by hand begins.
#[derive(Drop)]
pub struct RecordedText<R> {
    /// What reads the text.
    pub text: R,
    /// How its numbers are taken.
    pub numbers: Numbers,
}

/// Lets a plant that was read be run by hand: fires the picks of a text, if there is one, prints where the plant stands then, and answers each line of
/// the input, up to one that asks to quit or to the input's end. The mark tells where an answer ends. What was fired, by the picks too, is saved by the
/// saver, where a line asks for it.
///
/// The text of the picks is read before anything is printed. Where one of them is refused, or they can't be read, nothing is.
pub fn step<R: BufRead + Drop, F: BufRead, W: Write, S: Saver>(
    alloc: Global,
    plant: &ReadPlant<'_>,
    recorded: Option<RecordedText<R>>,
    mark: Mark,
    input: &mut F,
    output: &mut W,
    saver: &mut S,
) -> Result<(), PlantEnding>
    ensures told { OnOk result (IfSome (picks_behind R.remaining (plant_read plant.now) recorded) (λ left. IfSome (F.remaining input.old) (λ bytes.
        IsTranscript S.saves (transcript_of (plant_read plant.now) (rule_lines plant.now.text.now) mark (session_behind (plant_read plant.now) left) (lines_of bytes))
        saver.old saver.new (W.contents output.old) (W.contents output.new)))) }
    ensures refusal { IfDone result (λ refusal. IfSome (picks_behind R.remaining (plant_read plant.now) recorded) (λ left. refusal ≡ refusal_of (plant_read plant.now) left)) }
    ensures of_session { IfErr result IsOfSession }
    ensures nothing_printed { IfErr result (λ ending. IsUnbegun ending → output.new ≡ output.old) }
    ensures nothing_saved { IfErr result (λ ending. IsUnbegun ending → saver.new ≡ saver.old) }
{
    let lines = rule_lines(alloc, plant.text)?;
    let mut picks = picks_behind(alloc, plant.system, recorded)?;
    step_by_hand(
        alloc,
        plant.system,
        &lines,
        mark,
        &mut picks,
        input,
        output,
        saver,
    )?;
    Ok(())
}

/// The picks of a text, read from it as they are taken; none where there is no text.
fn picks_behind<'a, R: BufRead + Drop>(
    alloc: Global,
    system: &'a System,
    recorded: Option<RecordedText<R>>,
) -> Result<RunPicks<'a, RecordedPicks<'a, R>>, AllocError>
    ensures { IfOk result (λ picks. picks_left (λ left. left) picks ≡ picks_behind R.remaining (plant_of system.now) recorded) }
{
    match recorded {
        Some(RecordedText { text, numbers }) => {
            let picks = RecordedPicks::new(alloc, system, text, numbers_of(numbers))?;
            Ok(RunPicks::From(picks))
        }
        None => {
            let none = GivenPicks::of(&[], run_text::Numbers::Modulo);
            Ok(RunPicks::Given(none))
        }
    }
}
