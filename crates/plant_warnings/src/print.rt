//! The warnings of a whole plant.
ghost use Rattle.plant_model.specs.System.{plant_of};
ghost use Rattle.text_io.specs.Printing.{Prints};
ghost use Rattle.plant_warnings.specs.Warnings.{warnings_text};

use crate::atoms::print_of_atoms;
use crate::connectors::print_of_wires;
use crate::report::Report;
use crate::rules::print_of_rules;
use part_lines::PartLines;
use plant_model::System;
use std::io::Write;
use text_io::WriteFault;

/// Prints a line `PATH:LINE: warning: MESSAGE` for each warning of the plant: those of its atoms, then those of its
/// connectors, and then those of its rules. LINE is the one on which the part stands that the warning is about, as `lines` tell it,
/// and 0 if they tell none.
pub fn print_warnings<W: Write>(
    system: &System,
    lines: &PartLines,
    path: &[u8],
    output: &mut W,
) -> Result<(), WriteFault>
    ensures { Prints result (W.contents output.old) (W.contents output.new) (warnings_text (plant_of system.now) lines.now path.now) }
{
    let report = Report {
        system,
        lines,
        path,
    };
    print_of_atoms(&report, system.atoms(), output)?;
    print_of_wires(&report, system.wires(), output)?;
    print_of_rules(&report, system.rules(), output)
}
