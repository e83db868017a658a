//! The edges of the priority rules.
ghost use Rattle.std.specs.Prelude.{flat_map};
ghost use Rattle.text_io.specs.Printing.{Prints};
ghost use Rattle.part_text.specs.Seen.{plant_of};
ghost use Rattle.plant_drawing.specs.Rule.{arrow, drawn_rule, label_of, rule_arrow, rule_line, rule_words};
ghost use Rattle.plant_drawing.specs.declared.rule.RuleLabel.TheVariants.{Written};

use crate::drawn::{is_drawn_rule, side_connector};
use crate::edges::print_from;
use crate::node::print_connector;
use part_text::{print_condition, print_sides};
use plant_model::System;
use priority_filter::Rule;
use std::io::Write;
use text_io::{WriteFault, print_text};

/// Whether the edge of a rule has the rule on it.
#[derive(Clone, Copy, Debug, PartialEq, Eq)]
pub(crate) enum RuleLabel {
    /// The edge has the words of the rule.
    Written,
    /// The edge has no label.
    Absent,
}

/// Prints the edge of each rule that is drawn.
pub(crate) fn print_rules<W: Write>(
    label: RuleLabel,
    system: &System,
    rules: &[Rule],
    drawn: u64,
    output: &mut W,
) -> Result<(), WriteFault>
    ensures { Prints result (W.contents output.old) (W.contents output.new) (flat_map (drawn_rule label drawn (plant_of system.now)) rules.now) }
{
    for rule in rules {
        print_drawn_rule(label, system, *rule, drawn, output)?;
    }
    Ok(())
}

/// Prints the edge of a rule if it is drawn; nothing of another.
fn print_drawn_rule<W: Write>(
    label: RuleLabel,
    system: &System,
    rule: Rule,
    drawn: u64,
    output: &mut W,
) -> Result<(), WriteFault>
    ensures { Prints result (W.contents output.old) (W.contents output.new) (drawn_rule label drawn (plant_of system.now) rule) }
{
    if is_drawn_rule(drawn, system, rule) {
        print_rule(label, system, rule, output)
    } else {
        Ok(())
    }
}

/// Prints the edge of a rule.
fn print_rule<W: Write>(
    label: RuleLabel,
    system: &System,
    rule: Rule,
    output: &mut W,
) -> Result<(), WriteFault>
    ensures { Prints result (W.contents output.old) (W.contents output.new) (rule_line label (plant_of system.now) rule) }
{
    print_rule_arrow(rule, output)?;
    print_text(output, b" [style=dashed, color=firebrick")?;
    print_label(label, system, rule, output)?;
    print_text(output, b"];\n")
}

/// Prints the label of a rule's edge, if it has one.
fn print_label<W: Write>(
    label: RuleLabel,
    system: &System,
    rule: Rule,
    output: &mut W,
) -> Result<(), WriteFault>
    ensures { Prints result (W.contents output.old) (W.contents output.new) (label_of label (plant_of system.now) rule) }
{
    match label {
        RuleLabel::Written => print_words_label(system, rule, output),
        RuleLabel::Absent => Ok(()),
    }
}

/// Prints the label that has the words of a rule.
fn print_words_label<W: Write>(
    system: &System,
    rule: Rule,
    output: &mut W,
) -> Result<(), WriteFault>
    ensures { Prints result (W.contents output.old) (W.contents output.new) (label_of Written (plant_of system.now) rule) }
{
    print_text(output, b", fontcolor=firebrick, label=\" ")?;
    print_rule_words(system, rule, output)?;
    print_text(output, b" \"")
}

/// Prints the words of a rule on its edge.
fn print_rule_words<W: Write>(system: &System, rule: Rule, output: &mut W) -> Result<(), WriteFault>
    ensures { Prints result (W.contents output.old) (W.contents output.new) (rule_words (plant_of system.now) rule) }
{
    match rule {
        Rule::Under(left, right) => print_sides(system, left, right, output),
        Rule::UnderAt(left, right, at) => {
            print_sides(system, left, right, output)?;
            print_condition(system, at, output)
        }
        Rule::Maximal(_) => print_text(output, b"maximal"),
    }
}

/// Prints the begin of the edge of a rule: from the lower connector to the higher, or a loop of one that is to be maximal.
fn print_rule_arrow<W: Write>(rule: Rule, output: &mut W) -> Result<(), WriteFault>
    ensures { Prints result (W.contents output.old) (W.contents output.new) (rule_arrow rule) }
{
    match rule {
        Rule::Under(left, right) | Rule::UnderAt(left, right, _) => print_arrow(
            u64::from(side_connector(left)),
            u64::from(side_connector(right)),
            output,
        ),
        Rule::Maximal(connector) => {
            print_arrow(u64::from(connector), u64::from(connector), output)
        }
    }
}

/// Prints the begin of the edge between two connectors.
fn print_arrow<W: Write>(from: u64, to: u64, output: &mut W) -> Result<(), WriteFault>
    ensures { Prints result (W.contents output.old) (W.contents output.new) (arrow from to) }
{
    print_from(from, output)?;
    print_connector(to, output)
}
