//! The steps of a run, each with the state after it.
ghost use Rattle.std.specs.Prelude.{◌≡◌};
ghost use Rattle.run_text.specs.Seen.{Prints, plant_of};
ghost use Rattle.run_states.specs.States.{stuck_begin, stuck_lines};
ghost use Rattle.run_states.specs.ByRows.{begin_by_rows};

use crate::present::print_present;
use plant_model::System;
use run_text::{Firing, PlantAt, print_fired_step, print_step_members, stuck_text};
use std::io::Write;
use text_io::{Format, WriteFault, end_line, print_text};

/// Prints a choice that was fired, up to where the state after it follows.
pub(crate) fn print_begin<W: Write>(
    format: Format,
    system: &System,
    firing: &Firing<'_>,
    output: &mut W,
) -> Result<(), WriteFault>
    ensures { Prints result (W.contents output.old) (W.contents output.new) (begin_by_rows format (plant_of system.now) firing.now) }
{
    match format {
        Format::Lines => {
            print_fired_step(Format::Lines, system, firing, output)?;
            end_line(output)
        }
        Format::Csv => print_fired_step(Format::Csv, system, firing, output),
        Format::Jsonl => print_step_members(system, firing, output),
    }
}

/// Prints that nothing is fired from the state any more, and whether it is by the weights of a random pick.
pub(crate) fn print_stuck<W: Write>(
    format: Format,
    by_weights: bool,
    plant: &PlantAt<'_, '_>,
    output: &mut W,
) -> Result<(), WriteFault>
    ensures { Prints result (W.contents output.old) (W.contents output.new) (stuck_lines format by_weights (plant_of plant.now.system.now) plant.now.states.now) }
{
    match format {
        Format::Lines | Format::Jsonl => print_text(output, stuck_text(format, by_weights)),
        Format::Csv => {
            print_text(output, stuck_begin(by_weights))?;
            print_present(Format::Csv, plant, output)
        }
    }
}

/// What stands before the state in a row that says that nothing is fired any more.
fn stuck_begin(by_weights: bool) -> &'static [u8]
    ensures { result.now ≡ stuck_begin by_weights }
{
    if by_weights {
        b"stuck,,weights,,"
    } else {
        b"stuck,,,,"
    }
}
