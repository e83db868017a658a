//! The warnings of connectors.
ghost use Rattle.std.specs.Prelude.{◌≡◌, map};
ghost use Rattle.std.specs.List.{list_any};
ghost use Rattle.petri_atom.specs.Expression.{tree_of};
ghost use Rattle.plant_model.specs.System.{plant_of};
ghost use Rattle.plant_model.specs.Wire.{wire_of};
ghost use Rattle.text_io.specs.Numbered.{numbered};
ghost use Rattle.text_io.specs.Printing.{Prints};
ghost use Rattle.plant_warnings.specs.Connectors.{connector_warnings, guard_warnings, has_zero_guard, is_dead, is_zero};
ghost use Rattle.plant_warnings.specs.Report.{Warns};

use crate::report::{Report, print_if};
use crate::warning::Warning;
use petri_atom::Expression;
use plant_model::{Export, System, Wire};
use std::io::Write;
use text_io::WriteFault;

/// Prints the warnings of connectors, in the order of their numbers.
pub(crate) fn print_of_wires<W: Write>(
    report: &Report<'_>,
    wires: &[Wire],
    output: &mut W,
) -> Result<(), WriteFault>
    ensures { Warns result (W.contents output.old) (W.contents output.new) report.now (numbered connector_warnings 0 (map wire_of wires.now)) }
{
    for (number, wire) in wires.iter().enumerate() {
        print_of_guards(report, number, &wire.guards, output)?;
    }
    Ok(())
}

/// Prints the warnings of the guard clauses of a connector.
fn print_of_guards<W: Write>(
    report: &Report<'_>,
    number: usize,
    guards: &[Expression<Export>],
    output: &mut W,
) -> Result<(), WriteFault>
    ensures { Warns result (W.contents output.old) (W.contents output.new) report.now (numbered (guard_warnings number) 0 (map tree_of guards.now)) }
{
    for (guard, clause) in guards.iter().enumerate() {
        print_of_guard(report, number, guard, clause, output)?;
    }
    Ok(())
}

/// Prints the warning of a guard clause of a connector, if there is one.
fn print_of_guard<W: Write>(
    report: &Report<'_>,
    number: usize,
    guard: usize,
    clause: &Expression<Export>,
    output: &mut W,
) -> Result<(), WriteFault>
    ensures { Warns result (W.contents output.old) (W.contents output.new) report.now (guard_warnings number guard (tree_of clause.now)) }
{
    print_if(
        report,
        is_zero(clause),
        Warning::ZeroGuard {
            connector: number,
            guard,
        },
        output,
    )
}

/// Whether the connector with this number is dead: it can't be fired, since a guard clause is 0.
pub(crate) fn is_dead(system: &System, connector: usize) -> bool
    ensures { result ≡ is_dead (plant_of system.now) connector }
{
    match system.wires().get(connector) {
        Some(wire) => has_zero_guard(wire),
        None => false,
    }
}

/// Whether a guard clause of the connector is the number 0.
fn has_zero_guard(wire: &Wire) -> bool
    ensures { result ≡ has_zero_guard (wire_of wire.now) }
{
    is_one_zero(&wire.guards)
}

/// Whether one of the guard clauses is the number 0.
fn is_one_zero(clauses: &[Expression<Export>]) -> bool
    ensures { result ≡ list_any (λ clause. is_zero (tree_of clause)) clauses.now }
{
    clauses.iter().any(|clause| is_zero(clause))
}

/// Whether the expression is the number 0.
fn is_zero(expression: &Expression<Export>) -> bool
    ensures { result ≡ is_zero (tree_of expression.now) }
{
    match expression {
        Expression::Number(number) => *number == 0,
        _ => false,
    }
}
