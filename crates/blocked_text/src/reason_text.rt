//! What is printed of a reason.
ghost use Rattle.std.specs.Prelude.{◌≡◌, true, map};
ghost use Rattle.plant_model.specs.Rules.{are_small_guards};
ghost use Rattle.text_io.specs.Printing.{Prints};
ghost use Rattle.part_text.specs.Seen.{definition_of, interaction_of, wire_of};
ghost use Rattle.blocked_text.specs.ReasonText.{clause_text};
ghost use Rattle.blocked_text.specs.Report.{clause_in, reason_in, way_to};

use crate::clauses::ExportValues;
use crate::idle::print_idle_port;
use crate::reason::Reason;
use crate::report::Report;
use crate::way::print_way;
use crate::zero::print_zero;
use part_text::Exports;
use petri_atom::Atom;
use plant_model::{Interaction, PlantState, Wire};
use std::io::Write;
use text_io::WriteFault;

/// Prints a reason of the interaction.
pub(crate) fn print_reason<W: Write>(
    report: &Report<'_>,
    interaction: &Interaction,
    reason: Reason,
    output: &mut W,
) -> Result<(), WriteFault>
    ensures { Prints result (W.contents output.old) (W.contents output.new) (reason_in report.now (interaction_of interaction.now) reason) }
{
    match reason {
        Reason::NotOffered(port) => print_idle_port(report.system, report.states, port, output),
        Reason::GuardIsZero(clause) => print_clause(report, interaction.connector, clause, output),
        Reason::GivesWay(above) => print_way_to(report, interaction, above, output),
    }
}

/// Prints that the interaction gives way to the one with this number; nothing if that one is not there.
fn print_way_to<W: Write>(
    report: &Report<'_>,
    interaction: &Interaction,
    above: u16,
    output: &mut W,
) -> Result<(), WriteFault>
    ensures { Prints result (W.contents output.old) (W.contents output.new) (way_to report.now (interaction_of interaction.now) above) }
{
    match report.system.interactions().get(usize::from(above)) {
        Some(higher) => print_way(report, interaction, higher, output),
        None => Ok(()),
    }
}

/// Prints that a guard clause of the connector is 0; nothing if the connector or the clause is not there.
fn print_clause<W: Write>(
    report: &Report<'_>,
    connector: u16,
    clause: usize,
    output: &mut W,
) -> Result<(), WriteFault>
    ensures { Prints result (W.contents output.old) (W.contents output.new) (clause_in report.now connector clause) }
{
    let system = report.system;
    system.keeps_its_rules();
    match system.wires().get(usize::from(connector)) {
        Some(wire) => print_clause_of(system.atoms(), report.states, wire, clause, output),
        None => Ok(()),
    }
}

/// Prints that the guard clause of this connector with this number is 0; nothing if the clause is not there.
fn print_clause_of<W: Write>(
    atoms: &[Atom],
    states: &PlantState,
    wire: &Wire,
    clause: usize,
    output: &mut W,
) -> Result<(), WriteFault>
    requires { are_small_guards (wire_of wire.now).guards ≡ true }
    ensures { Prints result (W.contents output.old) (W.contents output.new) (clause_text (map definition_of atoms.now) states.now (wire_of wire.now) clause) }
{
    match wire.guards.get(clause) {
        Some(guard) => {
            let connector = &wire.connector;
            let values = ExportValues {
                atoms,
                connector,
                states,
            };
            print_zero(guard, &Exports { atoms, connector }, &values, output)
        }
        None => Ok(()),
    }
}
