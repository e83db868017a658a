//! What is printed of an interaction that gives way to another.
ghost use Rattle.std.specs.Prelude.{◌≡◌, [], codes, decimal, if◌then◌else◌, ◌++◌, map};
ghost use Rattle.part_text.specs.Seen.{interaction_of};
ghost use Rattle.part_text.specs.Rule.{rule_text};
ghost use Rattle.text_io.specs.Printing.{Prints};
ghost use Rattle.blocked_text.specs.Report.{by_in, interaction_in, plant_in, way_in};
ghost use Rattle.blocked_text.specs.Way.{has_several, line_text, rule_with_line};

use crate::report::Report;
use crate::rules::first_rule;
use part_text::print_rule;
use plant_model::Interaction;
use priority_filter::Rule;
use std::io::Write;
use text_io::{WriteFault, print_number, print_text};

/// Prints that the lower interaction is possible and gives way to the higher, and which rule puts it below.
pub(crate) fn print_way<W: Write>(
    report: &Report<'_>,
    lower: &Interaction,
    higher: &Interaction,
    output: &mut W,
) -> Result<(), WriteFault>
    ensures { Prints result (W.contents output.old) (W.contents output.new) (way_in report.now (interaction_of lower.now) (interaction_of higher.now)) }
{
    print_text(output, b"possible, gives way to ")?;
    print_interaction(report, higher, output)?;
    print_by(report, lower, higher, output)
}

/// Prints an interaction by its connector's name, and by its mask too if the connector has more than one interaction.
fn print_interaction<W: Write>(
    report: &Report<'_>,
    interaction: &Interaction,
    output: &mut W,
) -> Result<(), WriteFault>
    ensures { Prints result (W.contents output.old) (W.contents output.new) (interaction_in report.now (interaction_of interaction.now)) }
{
    print_text(output, report.system.wire_name(interaction.connector))?;
    let several = has_several(report.system.interactions(), interaction.connector);
    print_mask(several, interaction.mask, output)
}

/// Prints the mask of an interaction of a connector that has several; nothing for one that has no other.
fn print_mask<W: Write>(several: bool, mask: u16, output: &mut W) -> Result<(), WriteFault>
    ensures { Prints result (W.contents output.old) (W.contents output.new) (if several then codes ":" ++ decimal mask else []) }
{
    if !several {
        return Ok(());
    }
    print_text(output, b":")?;
    print_number(output, u64::from(mask))
}

/// Whether the connector has more than one of the interactions.
fn has_several(interactions: &[Interaction], connector: u16) -> bool
    ensures { result ≡ has_several (map interaction_of interactions.now) connector }
{
    interactions
        .iter()
        .filter(|interaction| interaction.connector == connector)
        .count()
        > 1
}

/// Prints the first rule that counts and puts the lower interaction below the higher, or that a chain of rules does.
fn print_by<W: Write>(
    report: &Report<'_>,
    lower: &Interaction,
    higher: &Interaction,
    output: &mut W,
) -> Result<(), WriteFault>
    ensures { Prints result (W.contents output.old) (W.contents output.new) (by_in report.now (interaction_of lower.now) (interaction_of higher.now)) }
{
    let rule = first_rule(
        report.system.rules(),
        report.states,
        (lower.connector, lower.mask),
        (higher.connector, higher.mask),
    );
    match rule {
        Some(number) => print_rule_with_line(report, number, output),
        None => print_text(output, b" (by a chain of rules)"),
    }
}

/// Prints the rule with this number, with its line, in parentheses; nothing if it is not there.
fn print_rule_with_line<W: Write>(
    report: &Report<'_>,
    number: usize,
    output: &mut W,
) -> Result<(), WriteFault>
    ensures { Prints result (W.contents output.old) (W.contents output.new) (rule_with_line (plant_in report.now) report.now.lines.now number) }
{
    match report.system.rules().get(number) {
        Some(rule) => print_rule_in(report, number, *rule, output),
        None => Ok(()),
    }
}

/// Prints the rule, which has this number, with its line, in parentheses.
fn print_rule_in<W: Write>(
    report: &Report<'_>,
    number: usize,
    rule: Rule,
    output: &mut W,
) -> Result<(), WriteFault>
    ensures { Prints result (W.contents output.old) (W.contents output.new) (codes " (" ++ line_text report.now.lines.now number ++ rule_text (plant_in report.now) rule ++ codes ")") }
{
    print_text(output, b" (")?;
    print_line_number(report.lines, number, output)?;
    print_rule(report.system, rule, output)?;
    print_text(output, b")")
}

/// Prints the line of the rule with this number; nothing if it is not known.
fn print_line_number<W: Write>(lines: &[u32], rule: usize, output: &mut W) -> Result<(), WriteFault>
    ensures { Prints result (W.contents output.old) (W.contents output.new) (line_text lines.now rule) }
{
    match lines.get(rule) {
        Some(line) => {
            print_text(output, b"line ")?;
            print_number(output, u64::from(*line))?;
            print_text(output, b": ")
        }
        None => Ok(()),
    }
}
