//! The session, line by line.
ghost use Rattle.std.specs.Prelude.{◌≡◌, IfSome, OnOk};
ghost use Rattle.std.specs.Io.KnownBytes.{Keeps};
ghost use Rattle.run_text.specs.Runs.{refusal_of};
ghost use Rattle.run_text.specs.Seen.{plant_of};
ghost use Rattle.blocked_text.specs.Asked.{plant_asked};
ghost use Rattle.plant_words.specs.Lines.{lines_of};
ghost use Rattle.step_session.specs.Began.{IfBegan, IfUnbegun};
ghost use Rattle.step_session.specs.Behind.{session_behind};
ghost use Rattle.step_session.specs.SessionOf.{plant_stepped, session_of};
ghost use Rattle.step_session.specs.Transcript.{IsTranscript, transcript_from, transcript_of};

use crate::command::read_command;
use crate::fault::{AnswerFault, StepFault};
use crate::lines::KEPT;
use crate::mark::Mark;
use crate::saver::Saver;
use crate::session::Session;
use arrayvec::ArrayVec;
use blocked_text::Reasons;
use plant_model::System;
use plant_words::Lines;
use run_text::Picks;
use std::alloc::Global;
use std::io::{BufRead, Write};
use text_io::{print_text, read_line};

/// Lets an engineer step the plant of the system by hand: fires what the picks take, prints where the plant stands then, and answers each line of
/// the input until one asks to quit, or to the input's end. The mark tells where an answer ends. Rule k of the plant stands on the line
/// `rule_lines[k]` of its text. What was fired, by the picks too, is saved by the saver.
///
/// The picks are taken before anything is printed. Behind one that takes nothing those that are left are passed over; if one is refused, or they can't be
/// read, the session does not begin.
///
/// The output is flushed before each line is read, and at the end: who types sees the answer first.
pub fn step_by_hand<P: Picks, R: BufRead, W: Write, S: Saver>(
    alloc: Global,
    system: &System,
    rule_lines: &[u32],
    mark: Mark,
    picks: &mut P,
    input: &mut R,
    output: &mut W,
    saver: &mut S,
) -> Result<(), StepFault>
    ensures transcript { OnOk result (IfSome (P.left picks.old) (λ left. IfSome (R.remaining input.old) (λ bytes.
        IsTranscript S.saves (transcript_of (plant_of system.now) rule_lines.now mark (session_behind (plant_of system.now) left) (lines_of bytes)) saver.old saver.new (W.contents output.old) (W.contents output.new)))) }
    ensures refusal { IfBegan result (λ refusal. IfSome (P.left picks.old) (λ left. refusal ≡ refusal_of (plant_of system.now) left)) }
    ensures nothing_printed { IfUnbegun result (output.new ≡ output.old) }
    ensures nothing_read { IfUnbegun result (input.new ≡ input.old) }
    ensures nothing_saved { IfUnbegun result (saver.new ≡ saver.old) }
{
    let reasons = Reasons::new(alloc, system);
    let mut session = Session::behind(alloc, system, picks)?;
    step_on(
        &mut session,
        &reasons,
        rule_lines,
        mark,
        input,
        output,
        saver,
    )?;
    Ok(())
}

/// Prints where the session stands, and answers each line of the input until one asks to quit, or to the input's end.
fn step_on<R: BufRead, W: Write, S: Saver>(
    session: &mut Session<'_>,
    reasons: &Reasons<'_>,
    rule_lines: &[u32],
    mark: Mark,
    input: &mut R,
    output: &mut W,
    saver: &mut S,
) -> Result<(), AnswerFault>
    requires { plant_asked reasons.now ≡ plant_stepped session.old }
    ensures { OnOk result (IfSome (R.remaining input.old) (λ bytes.
        IsTranscript S.saves (transcript_of (plant_stepped session.old) rule_lines.now mark (session_of session.old) (lines_of bytes)) saver.old saver.new (W.contents output.old) (W.contents output.new))) }
{
    session.print_standing(output)?;
    print_text(output, mark.end())?;
    answer_lines(session, reasons, rule_lines, mark, input, output, saver)
}

/// Answers each line of the input until one asks to quit, or to the input's end.
fn answer_lines<R: BufRead, W: Write, S: Saver>(
    session: &mut Session<'_>,
    reasons: &Reasons<'_>,
    rule_lines: &[u32],
    mark: Mark,
    input: &mut R,
    output: &mut W,
    saver: &mut S,
) -> Result<(), AnswerFault>
    requires { plant_asked reasons.now ≡ plant_stepped session.old }
    ensures { OnOk result (IfSome (R.remaining input.old) (λ bytes.
        IsTranscript S.saves (transcript_from (plant_stepped session.old) rule_lines.now mark (session_of session.old) (lines_of bytes)) saver.old saver.new (W.contents output.old) (W.contents output.new))) }
{
    let mut line: ArrayVec<u8, KEPT> = ArrayVec::new();
    for _ in 0..u64::MAX {
        print_text(output, mark.prompt())?;
        hand_on(output)?;
        read_line(input, &mut line)?;
        let Some(typed) = Lines::new(line.as_slice()).next_line() else {
            print_text(output, mark.last())?;
            return hand_on(output);
        };
        let command = read_command(typed);
        session.answer(reasons, rule_lines, &command, output, saver)?;
        print_text(output, mark.end())?;
        if command.ends() {
            return hand_on(output);
        }
    }
    Err(AnswerFault::Read)
}

/// Hands on what the writer still keeps.
fn hand_on<W: Write>(output: &mut W) -> Result<(), AnswerFault>
    ensures { OnOk result (Keeps (W.contents output.old) (W.contents output.new)) }
{
    match output.flush() {
        Ok(()) => Ok(()),
        Err(_) => Err(AnswerFault::Write),
    }
}
