//! A state in each format.
ghost use Rattle.run_text.specs.Seen.{Prints, plant_of};
ghost use Rattle.run_states.specs.States.{present_part};

use crate::columns::print_columns;
use crate::objects::print_states_end;
use run_text::{PlantAt, print_states};
use std::io::Write;
use text_io::{Format, WriteFault, end_line};

/// Prints a state: in lines of its own, as the columns that end a row, or as the member that ends an object.
pub fn print_present<W: Write>(
    format: Format,
    plant: &PlantAt<'_, '_>,
    output: &mut W,
) -> Result<(), WriteFault>
    ensures { Prints result (W.contents output.old) (W.contents output.new) (present_part format (plant_of plant.now.system.now) plant.now.states.now) }
{
    match format {
        Format::Lines => print_states(plant.system, plant.states, output),
        Format::Csv => {
            print_columns(plant, output)?;
            end_line(output)
        }
        Format::Jsonl => print_states_end(plant, output),
    }
}
