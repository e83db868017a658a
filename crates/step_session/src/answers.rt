//! The answer to each command.
ghost use Rattle.std.specs.Prelude.{◌≡◌, OnOk};
ghost use Rattle.run_text.specs.Seen.{Prints};
ghost use Rattle.step_session.specs.Answers.{interactions_text, no_choice_text, save_text, saving_text, there_text};

use crate::command::Command;
use crate::fault::AnswerFault;
use crate::help::print_help;
use crate::mistakes::{print_line, print_mistake};
use crate::saver::Saver;
use crate::session::Session;
use crate::why::{print_why, print_why_of};
use blocked_text::Reasons;
use shown_fault::shown_name;
use std::io::Write;
use text_io::{WriteFault, end_line, print_number, print_text};

impl Session<'_> {
    ghost use Rattle.blocked_text.specs.Asked.{plant_asked};
    ghost use Rattle.step_session.specs.Answers.{back_text, random_session, random_text, fire_session, fire_text, without_last};
    ghost use Rattle.step_session.specs.CommandOf.{command_of};
    ghost use Rattle.step_session.specs.SessionOf.{plant_stepped, session_of};
    ghost use Rattle.step_session.specs.Transcript.{IsAnswered, IsSaved};

    /// Answers a command. The reasons are those of the plant, and rule k of it stands on the line `rule_lines[k]` of its text.
    pub(crate) fn answer<W: Write, S: Saver>(
        &mut self,
        reasons: &Reasons<'_>,
        rule_lines: &[u32],
        command: &Command<'_>,
        output: &mut W,
        saver: &mut S,
    ) -> Result<(), AnswerFault>
        requires { plant_asked reasons.now ≡ plant_stepped self.old }
        ensures answered { OnOk result (IsAnswered S.saves (plant_stepped self.old) rule_lines.now (session_of self.old) (command_of command.now) (session_of self.new) saver.old saver.new (W.contents output.old) (W.contents output.new)) }
        ensures plant { plant_stepped self.new ≡ plant_stepped self.old }
    {
        match command {
            Command::Show => self.print_standing(output),
            Command::Fire(number) => self.fire(*number, output),
            Command::FireNamed(name) => self.fire_named(reasons, rule_lines, name, output),
            Command::Back => self.back(output),
            Command::Random(count) => self.fire_random(*count, output),
            Command::Until(name, most) => self.fire_until(name, *most, output),
            Command::Why => print_why(reasons, rule_lines, &self.run, output),
            Command::WhyOf(name) => {
                print_why_of(self.alloc, reasons, rule_lines, &self.run, name, output)
            }
            Command::Save(path) => self.save(path, output, saver),
            Command::Help => print_help(output),
            Command::Quit => Ok(()),
            Command::Mistaken(mistake) => print_mistake(self.alloc, mistake, output),
        }
    }

    /// Fires the choice with the number, and prints where the plant stands then; if it is not there, which choices there are.
    fn fire<W: Write>(&mut self, number: u64, output: &mut W) -> Result<(), AnswerFault>
        ensures session { OnOk result (session_of self.new ≡ fire_session (plant_stepped self.old) (session_of self.old) number) }
        ensures printed { Prints result (W.contents output.old) (W.contents output.new) (fire_text (plant_stepped self.old) (session_of self.old) number) }
        ensures plant { plant_stepped self.new ≡ plant_stepped self.old }
    {
        let count = self.run.count();
        let place = u128::from(number);
        if place >= count {
            print_no_choice(number, count, output)?;
            return Ok(());
        }
        self.fire_at(place, output)?;
        self.print_standing(output)
    }

    /// Takes the last firing back, and prints where the plant stands then; if there is none, that.
    fn back<W: Write>(&mut self, output: &mut W) -> Result<(), AnswerFault>
        ensures session { OnOk result (session_of self.new ≡ without_last (session_of self.old)) }
        ensures printed { Prints result (W.contents output.old) (W.contents output.new) (back_text (plant_stepped self.old) (session_of self.old)) }
        ensures plant { plant_stepped self.new ≡ plant_stepped self.old }
    {
        if self.fired.is_empty() {
            return print_line(b"nothing is fired yet\n", output);
        }
        self.take_back()?;
        self.print_standing(output)
    }

    /// Fires so many random choices, until nothing is possible, and prints where the plant stands then.
    fn fire_random<W: Write>(&mut self, count: u64, output: &mut W) -> Result<(), AnswerFault>
        ensures session { OnOk result (session_of self.new ≡ random_session (plant_stepped self.old) (session_of self.old) count) }
        ensures printed { Prints result (W.contents output.old) (W.contents output.new) (random_text (plant_stepped self.old) (session_of self.old) count) }
        ensures plant { plant_stepped self.new ≡ plant_stepped self.old }
    {
        self.fire_at_random(count, output)?;
        self.print_standing(output)
    }

    /// Has what was fired saved at the path, and prints whether it is.
    fn save<W: Write, S: Saver>(
        &self,
        path: &[u8],
        output: &mut W,
        saver: &mut S,
    ) -> Result<(), AnswerFault>
        ensures { OnOk result (IsSaved S.saves (plant_stepped self.now) (session_of self.now) path.now saver.old saver.new (W.contents output.old) (W.contents output.new)) }
    {
        let shown = shown_name(self.alloc, path)?;
        let said = saver.save(path, self);
        print_save_answer(self.fired.len() as u64, &shown, said, output)?;
        Ok(())
    }
}

/// Prints that there is no choice with the number, and which of so many there are.
fn print_no_choice<W: Write>(number: u64, count: u128, output: &mut W) -> Result<(), WriteFault>
    ensures { Prints result (W.contents output.old) (W.contents output.new) (no_choice_text number count) }
{
    print_text(output, b"no choice ")?;
    print_number(output, number)?;
    print_text(output, b": ")?;
    print_there(count, output)?;
    end_line(output)
}

/// Prints which of so many choices there are.
fn print_there<W: Write>(count: u128, output: &mut W) -> Result<(), WriteFault>
    ensures { Prints result (W.contents output.old) (W.contents output.new) (there_text count) }
{
    if count == 0 {
        return print_text(output, b"nothing can be fired");
    }
    if count == 1 {
        return print_text(output, b"there is 1 choice (0)");
    }
    let last = count - 1;
    write!(output, "there are {count} choices (0 to {last})")?;
    Ok(())
}

/// Prints that so many interactions are saved at the path, which is shown so, or that they could not be.
fn print_save_answer<W: Write>(
    count: u64,
    shown: &[u8],
    said: bool,
    output: &mut W,
) -> Result<(), WriteFault>
    ensures { Prints result (W.contents output.old) (W.contents output.new) (save_text count shown.now said) }
{
    print_save_outcome(count, said, output)?;
    print_text(output, shown)?;
    end_line(output)
}

/// Prints what stands before the path.
fn print_save_outcome<W: Write>(count: u64, said: bool, output: &mut W) -> Result<(), WriteFault>
    ensures { Prints result (W.contents output.old) (W.contents output.new) (saving_text count said) }
{
    if !said {
        return print_text(output, b"could not save to ");
    }
    print_text(output, b"saved ")?;
    print_number(output, count)?;
    print_text(output, interactions_text(count))
}

/// The word for so many interactions, and what joins it to a path.
fn interactions_text(count: u64) -> &'static [u8]
    ensures { result.now ≡ interactions_text count }
{
    if count == 1 {
        b" interaction to "
    } else {
        b" interactions to "
    }
}
