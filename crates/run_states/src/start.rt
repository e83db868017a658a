//! What stands before the first step of a run.
ghost use Rattle.std.specs.Prelude.{◌≡◌};
ghost use Rattle.run_text.specs.Seen.{Prints, plant_of};
ghost use Rattle.run_states.specs.States.{head_line, start_begin, start_lines};

use crate::columns::print_names;
use crate::present::print_present;
use plant_model::System;
use run_text::PlantAt;
use std::io::Write;
use text_io::{Format, WriteFault, print_text};

/// Prints what comes before the run: the row that names the columns, if there are some.
pub(crate) fn print_head<W: Write>(
    format: Format,
    system: &System,
    output: &mut W,
) -> Result<(), WriteFault>
    ensures { Prints result (W.contents output.old) (W.contents output.new) (head_line format (plant_of system.now)) }
{
    match format {
        Format::Csv => print_names(system, output),
        Format::Lines | Format::Jsonl => Ok(()),
    }
}

/// Prints the state at the start.
pub(crate) fn print_start<W: Write>(
    format: Format,
    plant: &PlantAt<'_, '_>,
    output: &mut W,
) -> Result<(), WriteFault>
    ensures { Prints result (W.contents output.old) (W.contents output.new) (start_lines format (plant_of plant.now.system.now) plant.now.states.now) }
{
    print_text(output, start_begin(format))?;
    print_present(format, plant, output)
}

/// What stands before the state at the start.
fn start_begin(format: Format) -> &'static [u8]
    ensures { result.now ≡ start_begin format }
{
    match format {
        Format::Lines => b"",
        Format::Csv => b"start,,,,",
        Format::Jsonl => b"{\"kind\":\"start\"",
    }
}
