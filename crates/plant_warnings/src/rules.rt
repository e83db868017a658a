//! The warnings of priority rules.
ghost use Rattle.std.specs.Prelude.{◌≡◌, ◌==◌, ◌&&◌};
ghost use Rattle.std.specs.List.{list_any};
ghost use Rattle.priority_filter.specs.Decided.{is_proper_subset};
ghost use Rattle.priority_filter.specs.declared.rule.Rule.TheVariants.{Under};
ghost use Rattle.plant_model.specs.System.{plant_of};
ghost use Rattle.text_io.specs.Numbered.{numbered};
ghost use Rattle.text_io.specs.Printing.{Prints};
ghost use Rattle.plant_warnings.specs.Report.{Warns};
ghost use Rattle.plant_warnings.specs.Rules.{dead_side, orders_within, rule_warnings, side_connector};

use crate::connectors::is_dead;
use crate::report::{Report, print_if, print_warning};
use crate::warning::Warning;
use connector_tree::Mask;
use plant_model::{Interaction, System};
use priority_filter::{Rule, Side};
use std::io::Write;
use text_io::WriteFault;

/// Prints the warnings of rules, in the order of their numbers.
pub(crate) fn print_of_rules<W: Write>(
    report: &Report<'_>,
    rules: &[Rule],
    output: &mut W,
) -> Result<(), WriteFault>
    ensures { Warns result (W.contents output.old) (W.contents output.new) report.now (numbered (rule_warnings (plant_of report.now.system.now)) 0 rules.now) }
{
    for (number, rule) in rules.iter().enumerate() {
        print_of_rule(report, number, *rule, output)?;
    }
    Ok(())
}

/// Prints the warning of a rule, if there is one.
fn print_of_rule<W: Write>(
    report: &Report<'_>,
    number: usize,
    rule: Rule,
    output: &mut W,
) -> Result<(), WriteFault>
    ensures { Warns result (W.contents output.old) (W.contents output.new) report.now (rule_warnings (plant_of report.now.system.now) number rule) }
{
    match rule {
        Rule::Under(left, right) | Rule::UnderAt(left, right, _) => {
            print_of_sides(report, number, left, right, output)
        }
        Rule::Maximal(connector) => print_if(
            report,
            !orders_within(report.system, connector),
            Warning::NothingWithin {
                rule: number,
                connector: usize::from(connector),
            },
            output,
        ),
    }
}

/// Prints the warning of a priority with a side of a dead connector, if there is one.
fn print_of_sides<W: Write>(
    report: &Report<'_>,
    number: usize,
    left: Side,
    right: Side,
    output: &mut W,
) -> Result<(), WriteFault>
    ensures { Warns result (W.contents output.old) (W.contents output.new) report.now (rule_warnings (plant_of report.now.system.now) number (Under left right)) }
{
    match dead_side(report.system, left, right) {
        Some(connector) => print_warning(
            report,
            Warning::DeadSide {
                rule: number,
                connector,
            },
            output,
        ),
        None => Ok(()),
    }
}

/// The connector of the first of the sides whose connector is dead, if there is one.
fn dead_side(system: &System, left: Side, right: Side) -> Option<usize>
    ensures { result ≡ dead_side (plant_of system.now) left right }
{
    if is_dead(system, side_connector(left)) {
        Some(side_connector(left))
    } else if is_dead(system, side_connector(right)) {
        Some(side_connector(right))
    } else {
        None
    }
}

/// The number of the connector of a side.
fn side_connector(side: Side) -> usize
    ensures { result ≡ side_connector side }
{
    match side {
        Side::Whole(connector) => usize::from(connector),
        Side::One(connector, _) => usize::from(connector),
    }
}

/// Whether some interaction of the connector is within another one of it.
fn orders_within(system: &System, connector: u16) -> bool
    ensures { result ≡ orders_within (plant_of system.now) connector }
{
    has_one_within(system.interactions(), connector)
}

/// Whether one of these interactions is of the connector and within another one of it.
fn has_one_within(interactions: &[Interaction], connector: u16) -> bool
    ensures { result ≡ list_any (λ small. small.connector == connector && list_any (λ large. large.connector == connector && is_proper_subset small.mask large.mask) interactions.now) interactions.now }
{
    interactions.iter().any(|small| small.connector == connector
        && is_within_one(interactions, connector, small.mask))
}

/// Whether one of these interactions is of the connector and has the leaves of the mask and more.
fn is_within_one(interactions: &[Interaction], connector: u16, mask: Mask) -> bool
    ensures { result ≡ list_any (λ large. large.connector == connector && is_proper_subset mask large.mask) interactions.now }
{
    interactions.iter().any(|large| large.connector == connector
        && is_proper_subset(mask, large.mask))
}

/// Whether each leaf of the first mask is one of the second, and the masks differ.
fn is_proper_subset(small: Mask, large: Mask) -> bool
    ensures { result ≡ is_proper_subset small large }
{
    small & large == small && small != large
}
