//! The lines on which warnings are printed.
ghost use Rattle.text_io.specs.Printing.{Prints};
ghost use Rattle.plant_warnings.specs.Lines.{position_text, warned_if};
ghost use Rattle.plant_warnings.specs.Report.{Warns, line_in};

use crate::message::print_message;
use crate::warning::Warning;
use part_lines::PartLines;
use plant_model::System;
use std::io::Write;
use text_io::{WriteFault, end_line, print_number, print_text};

/// What warnings are printed about: a plant, the lines on which its parts stand in its text, and the path of the text.
#[derive(Clone, Copy)]
pub(crate) struct Report<'a> {
    pub(crate) system: &'a System,
    pub(crate) lines: &'a PartLines,
    pub(crate) path: &'a [u8],
}

/// Prints a warning on a line of its own.
pub(crate) fn print_warning<W: Write>(
    report: &Report<'_>,
    warning: Warning,
    output: &mut W,
) -> Result<(), WriteFault>
    ensures { Prints result (W.contents output.old) (W.contents output.new) (line_in report.now warning) }
{
    print_position(report, warning, output)?;
    print_text(output, b": warning: ")?;
    print_message(report.system, warning, output)?;
    end_line(output)
}

/// Prints where the part stands that the warning is about: the path of the text, and the line.
fn print_position<W: Write>(
    report: &Report<'_>,
    warning: Warning,
    output: &mut W,
) -> Result<(), WriteFault>
    ensures { Prints result (W.contents output.old) (W.contents output.new) (position_text report.now.lines.now report.now.path.now warning) }
{
    print_text(output, report.path)?;
    print_text(output, b":")?;
    print_number(output, u64::from(warning.line(report.lines)))
}

/// Prints a warning, if it applies.
pub(crate) fn print_if<W: Write>(
    report: &Report<'_>,
    applies: bool,
    warning: Warning,
    output: &mut W,
) -> Result<(), WriteFault>
    ensures { Warns result (W.contents output.old) (W.contents output.new) report.now (warned_if applies warning) }
{
    if applies {
        print_warning(report, warning, output)
    } else {
        Ok(())
    }
}
