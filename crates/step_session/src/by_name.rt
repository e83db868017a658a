//! Firing by the name of a connector: its only choice, or random ones until it has a choice.
ghost use Rattle.std.specs.Prelude.{◌≡◌, OnOk};
ghost use Rattle.run_text.specs.Seen.{Prints};
ghost use Rattle.step_session.specs.Answers.{why_stopped_text};

use crate::fault::AnswerFault;
use crate::mistakes::print_no_connector;
use crate::numbers::print_several;
use crate::session::Session;
use blocked_text::Reasons;
use run_text::numbers_of;
use std::io::Write;
use text_io::{WriteFault, print_text};

impl Session<'_> {
    ghost use Rattle.blocked_text.specs.Asked.{plant_asked};
    ghost use Rattle.step_session.specs.Answers.{fire_named_session, fire_named_text, fire_only_session, fire_only_text, fire_until_session, fire_until_text, go_until_session, go_until_text, is_reached, count_until, own_numbers, stop_text};
    ghost use Rattle.step_session.specs.AtRandom.{FiresAtRandom};
    ghost use Rattle.step_session.specs.SessionOf.{plant_stepped, session_of};

    /// Fires the only choice of the connector with the name, and prints where the plant stands then; if it has none or several, that.
    pub(crate) fn fire_named<W: Write>(
        &mut self,
        reasons: &Reasons<'_>,
        rule_lines: &[u32],
        name: &[u8],
        output: &mut W,
    ) -> Result<(), AnswerFault>
        requires { plant_asked reasons.now ≡ plant_stepped self.old }
        ensures session { OnOk result (session_of self.new ≡ fire_named_session (plant_stepped self.old) (session_of self.old) name.now) }
        ensures printed { Prints result (W.contents output.old) (W.contents output.new) (fire_named_text (plant_stepped self.old) rule_lines.now (session_of self.old) name.now) }
        ensures plant { plant_stepped self.new ≡ plant_stepped self.old }
    {
        match self.run.system().connector_named(name) {
            Some(connector) => self.fire_only(reasons, rule_lines, connector, output),
            None => print_no_connector(self.alloc, name, output),
        }
    }

    /// The same of the connector with the number.
    fn fire_only<W: Write>(
        &mut self,
        reasons: &Reasons<'_>,
        rule_lines: &[u32],
        connector: u16,
        output: &mut W,
    ) -> Result<(), AnswerFault>
        requires { plant_asked reasons.now ≡ plant_stepped self.old }
        ensures session { OnOk result (session_of self.new ≡ fire_only_session (session_of self.old) (own_numbers (plant_stepped self.old) (session_of self.old) connector)) }
        ensures printed { Prints result (W.contents output.old) (W.contents output.new) (fire_only_text (plant_stepped self.old) rule_lines.now (session_of self.old) connector (own_numbers (plant_stepped self.old) (session_of self.old) connector)) }
        ensures plant { plant_stepped self.new ≡ plant_stepped self.old }
    {
        let numbers = numbers_of(&self.run, connector);
        if numbers.count() == 0 {
            reasons.print_blocked_of(self.run.states(), connector, rule_lines, output)?;
            return Ok(());
        }
        if numbers.count() == 1 {
            self.fire_at(numbers.first, output)?;
            return self.print_standing(output);
        }
        print_several(self.run.system().wire_name(connector), numbers, output)?;
        Ok(())
    }

    /// Fires random choices, so many at most, until the connector with the name can be fired, and prints where the plant stands then, and why no more
    /// are fired.
    pub(crate) fn fire_until<W: Write>(
        &mut self,
        name: &[u8],
        most: u64,
        output: &mut W,
    ) -> Result<(), AnswerFault>
        ensures session { OnOk result (session_of self.new ≡ fire_until_session (plant_stepped self.old) (session_of self.old) name.now most) }
        ensures printed { Prints result (W.contents output.old) (W.contents output.new) (fire_until_text (plant_stepped self.old) (session_of self.old) name.now most) }
        ensures plant { plant_stepped self.new ≡ plant_stepped self.old }
    {
        match self.run.system().connector_named(name) {
            Some(connector) => self.go_until(connector, most, output),
            None => print_no_connector(self.alloc, name, output),
        }
    }

    /// The same for the connector with the number.
    fn go_until<W: Write>(
        &mut self,
        connector: u16,
        most: u64,
        output: &mut W,
    ) -> Result<(), AnswerFault>
        ensures session { OnOk result (session_of self.new ≡ go_until_session (plant_stepped self.old) (session_of self.old) connector most) }
        ensures printed { Prints result (W.contents output.old) (W.contents output.new) (go_until_text (plant_stepped self.old) (session_of self.old) connector most) }
        ensures plant { plant_stepped self.new ≡ plant_stepped self.old }
    {
        self.fire_towards(connector, most, output)?;
        self.print_standing(output)?;
        self.print_stop(connector, most, output)
    }

    /// Fires random choices, so many at most, until the connector can be fired or nothing is possible, and prints their lines.
    fn fire_towards<W: Write>(
        &mut self,
        connector: u16,
        most: u64,
        output: &mut W,
    ) -> Result<(), AnswerFault>
        ensures fired { OnOk result (FiresAtRandom (count_until (plant_stepped self.old) (session_of self.old) connector most) (plant_stepped self.old) (session_of self.old) (session_of self.new) (W.contents output.old) (W.contents output.new)) }
        ensures plant { plant_stepped self.new ≡ plant_stepped self.old }
    {
        for _ in 0..most {
            if self.can_fire(connector) {
                return Ok(());
            }
            if !self.fire_any(output)? {
                return Ok(());
            }
        }
        Ok(())
    }

    /// Prints why no more choices are fired.
    fn print_stop<W: Write>(
        &self,
        connector: u16,
        most: u64,
        output: &mut W,
    ) -> Result<(), AnswerFault>
        ensures { Prints result (W.contents output.old) (W.contents output.new) (stop_text (plant_stepped self.now) (session_of self.now) connector most) }
    {
        print_text(output, self.run.system().wire_name(connector))?;
        print_why_stopped(self.can_fire(connector), self.run.count(), most, output)?;
        Ok(())
    }

    /// Whether the connector has a choice now.
    fn can_fire(&self, connector: u16) -> bool
        ensures { result ≡ is_reached (plant_stepped self.now) connector (session_of self.now) }
    {
        numbers_of(&self.run, connector).count() > 0
    }
}

/// Prints why no more choices are fired: the connector can be fired, there is none of so many choices, or the most are fired.
fn print_why_stopped<W: Write>(
    reached: bool,
    count: u128,
    most: u64,
    output: &mut W,
) -> Result<(), WriteFault>
    ensures { Prints result (W.contents output.old) (W.contents output.new) (why_stopped_text reached count most) }
{
    if reached {
        return print_text(output, b": can be fired\n");
    }
    if count == 0 {
        return print_text(output, b": can't be fired (stuck)\n");
    }
    writeln!(output, ": can't be fired yet (limit {most})")?;
    Ok(())
}
