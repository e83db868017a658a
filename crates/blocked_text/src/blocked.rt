//! The lines of a state, and of a connector.
ghost use Rattle.std.specs.Prelude.{◌≡◌, false, slice_get};
ghost use Rattle.std.specs.Option.{option_map_or};
ghost use Rattle.text_io.specs.Printing.{Prints};
ghost use Rattle.part_text.specs.Seen.{interaction_of};

use crate::reason::Reason;
use crate::reason_text::print_reason;
use crate::reasons::Reasons;
use crate::report::Report;
use plant_model::{Interaction, PlantState};
use std::io::Write;
use text_io::{WriteFault, end_line, print_text};

impl Reasons<'_> {
    ghost use Rattle.blocked_text.specs.Asked.{plant_asked};
    ghost use Rattle.blocked_text.specs.Blocked.{blocked_text, connector_text, why_text};

    /// Prints, for each connector of which the states have no choice, in order, a line for each different reason of its
    /// interactions, in their order. Rule k of the plant stands on the line `rule_lines[k]` of its text; of a rule past these no
    /// line is printed.
    pub fn print_blocked<W: Write>(
        &self,
        states: &PlantState,
        rule_lines: &[u32],
        output: &mut W,
    ) -> Result<(), WriteFault>
        ensures { Prints result (W.contents output.old) (W.contents output.new) (blocked_text (plant_asked self.now) states.now rule_lines.now) }
    {
        self.report(states, rule_lines).print_blocked(output)
    }

    /// Prints the same of every connector, and of one that can be fired a line that says so.
    pub fn print_why<W: Write>(
        &self,
        states: &PlantState,
        rule_lines: &[u32],
        output: &mut W,
    ) -> Result<(), WriteFault>
        ensures { Prints result (W.contents output.old) (W.contents output.new) (why_text (plant_asked self.now) states.now rule_lines.now) }
    {
        self.report(states, rule_lines).print_why(output)
    }

    /// Prints the same of the connector with this number alone, and if it can be fired a line that says so.
    pub fn print_blocked_of<W: Write>(
        &self,
        states: &PlantState,
        connector: u16,
        rule_lines: &[u32],
        output: &mut W,
    ) -> Result<(), WriteFault>
        ensures { Prints result (W.contents output.old) (W.contents output.new) (connector_text (plant_asked self.now) states.now rule_lines.now connector) }
    {
        self.report(states, rule_lines)
            .print_connector(connector, output)
    }
}

impl Report<'_> {
    ghost use Rattle.blocked_text.specs.Blocked.{blocked_lines, blocked_text, can_fire, connector_text, has_allowed, has_reason, is_allowed_of, is_printed_before, line_of, lines_of, reason_line, why_text};
    ghost use Rattle.blocked_text.specs.Reason.{reason_of};
    ghost use Rattle.blocked_text.specs.Report.{all_in, plant_in};
    ghost use Rattle.blocked_text.specs.SameReason.{is_same_reason};

    /// Prints the reasons of each connector that can't be fired.
    fn print_blocked<W: Write>(&self, output: &mut W) -> Result<(), WriteFault>
        ensures { Prints result (W.contents output.old) (W.contents output.new) (blocked_text (plant_in self.now) self.now.states.now self.now.lines.now) }
    {
        self.system.keeps_its_rules();
        for connector in 0..self.system.wires().len() {
            self.print_blocked_lines(connector as u16, output)?;
        }
        Ok(())
    }

    /// Prints of each connector its reasons, or that it can be fired.
    fn print_why<W: Write>(&self, output: &mut W) -> Result<(), WriteFault>
        ensures { Prints result (W.contents output.old) (W.contents output.new) (why_text (plant_in self.now) self.now.states.now self.now.lines.now) }
    {
        self.system.keeps_its_rules();
        for connector in 0..self.system.wires().len() {
            self.print_connector(connector as u16, output)?;
        }
        Ok(())
    }

    /// Prints of the connector its reasons, or that it can be fired.
    fn print_connector<W: Write>(&self, connector: u16, output: &mut W) -> Result<(), WriteFault>
        ensures { Prints result (W.contents output.old) (W.contents output.new) (connector_text (plant_in self.now) self.now.states.now self.now.lines.now connector) }
    {
        if self.can_fire(connector) {
            print_text(output, self.system.wire_name(connector))?;
            print_text(output, b": can be fired\n")
        } else {
            self.print_lines(connector, output)
        }
    }

    /// Prints the lines of a connector that can't be fired; nothing for one that can.
    fn print_blocked_lines<W: Write>(
        &self,
        connector: u16,
        output: &mut W,
    ) -> Result<(), WriteFault>
        ensures { Prints result (W.contents output.old) (W.contents output.new) (blocked_lines (plant_in self.now) self.now.states.now self.now.lines.now connector) }
    {
        if self.can_fire(connector) {
            return Ok(());
        }
        self.print_lines(connector, output)
    }

    /// Prints the different reasons of a connector's interactions, each on a line.
    fn print_lines<W: Write>(&self, connector: u16, output: &mut W) -> Result<(), WriteFault>
        ensures { Prints result (W.contents output.old) (W.contents output.new) (lines_of (plant_in self.now) self.now.states.now self.now.lines.now connector) }
    {
        self.system.keeps_its_rules();
        for (number, interaction) in self.system.interactions().iter().enumerate() {
            self.print_line(connector, number as u16, interaction, output)?;
        }
        Ok(())
    }

    /// Prints the line of the interaction with this number, if it is one of the connector and has a reason.
    fn print_line<W: Write>(
        &self,
        connector: u16,
        number: u16,
        interaction: &Interaction,
        output: &mut W,
    ) -> Result<(), WriteFault>
        ensures { Prints result (W.contents output.old) (W.contents output.new)
            (line_of (plant_in self.now) self.now.states.now (all_in self.now) self.now.lines.now connector number (interaction_of interaction.now)) }
    {
        if interaction.connector != connector {
            return Ok(());
        }
        match self.reason_of(number) {
            Some(reason) => { self.print_reason_line(number, interaction, reason, output) }
            None => Ok(()),
        }
    }

    /// Prints the line of a reason of the interaction with this number; nothing if it is printed before.
    fn print_reason_line<W: Write>(
        &self,
        number: u16,
        interaction: &Interaction,
        reason: Reason,
        output: &mut W,
    ) -> Result<(), WriteFault>
        ensures { Prints result (W.contents output.old) (W.contents output.new)
            (reason_line (plant_in self.now) self.now.states.now (all_in self.now) self.now.lines.now number (interaction_of interaction.now) reason) }
    {
        if self.is_printed_before(interaction.connector, number, reason) {
            return Ok(());
        }
        print_text(output, self.system.wire_name(interaction.connector))?;
        print_text(output, b": ")?;
        print_reason(self, interaction, reason, output)?;
        end_line(output)
    }

    /// Whether an interaction of the connector before the one with this number has the same reason.
    fn is_printed_before(&self, connector: u16, number: u16, reason: Reason) -> bool
        ensures { result ≡ is_printed_before (plant_in self.now) self.now.states.now (all_in self.now) connector number reason }
    {
        (0..number).any(|earlier| self.has_reason_at(connector, earlier, reason))
    }

    /// Whether the interaction with this number is there, is one of the connector, and has the reason.
    fn has_reason_at(&self, connector: u16, number: u16, reason: Reason) -> bool
        ensures { result ≡ option_map_or (has_reason (plant_in self.now) self.now.states.now (all_in self.now) connector reason number) (slice_get (all_in self.now) number) false }
    {
        match self.system.interactions().get(usize::from(number)) {
            Some(interaction) => {
                interaction.connector == connector && self.has_reason(number, reason)
            }
            None => false,
        }
    }

    /// Whether the interaction with this number has the reason.
    fn has_reason(&self, number: u16, reason: Reason) -> bool
        ensures { result ≡ option_map_or (is_same_reason reason) (reason_of (plant_in self.now) self.now.states.now number) false }
    {
        match self.reason_of(number) {
            Some(own) => reason.is_same(own),
            None => false,
        }
    }

    /// Whether the states have a choice of the connector.
    fn can_fire(&self, connector: u16) -> bool
        ensures { result ≡ can_fire (plant_in self.now) self.now.states.now connector }
    {
        self.has_allowed(connector)
    }

    /// Whether the states allow an interaction of the connector.
    fn has_allowed(&self, connector: u16) -> bool
        ensures { result ≡ has_allowed (plant_in self.now) self.now.states.now (all_in self.now) connector }
    {
        self.system.keeps_its_rules();
        let count = self.system.interaction_count() as u16;
        (0..count).any(|number| self.is_allowed_of(connector, number))
    }

    /// Whether the interaction with this number is there, is one of the connector, and is allowed.
    fn is_allowed_of(&self, connector: u16, number: u16) -> bool
        ensures { result ≡ option_map_or (is_allowed_of (plant_in self.now) self.now.states.now (all_in self.now) connector number) (slice_get (all_in self.now) number) false }
    {
        match self.system.interactions().get(usize::from(number)) {
            Some(interaction) => {
                interaction.connector == connector && self.reason_of(number).is_none()
            }
            None => false,
        }
    }
}
