//! The answers to questions.
ghost use Rattle.std.specs.Prelude.{◌≡◌, OnOk};
ghost use Rattle.std.specs.Io.KnownBytes.{Appends};
ghost use Rattle.blocked_text.specs.Asked.{plant_asked};
ghost use Rattle.plant_core.specs.Plants.{definition_of, view_of};
ghost use Rattle.plant_model.specs.Fitting.{IsOf};
ghost use Rattle.plant_model.specs.System.{plant_of};
ghost use Rattle.plant_service.specs.Queries.{mistake_line, query_text, wrong_in, too_long_line};

use crate::command::Command;
use crate::line_length::MAX_LINE;
use crate::room::print_room;
use blocked_text::Reasons;
use disk_model::Disk;
use plant_core::Plant;
use plant_model::{PlantState, System};
use run_text::print_choices;
use script_lines::{
    Mistake, Wrong, print_front, print_mistake, print_of_word, print_standing, word_in,
};
use std::io::Write;
use text_io::{WriteFault, end_line, print_number, print_text};

/// Prints the answer to a question, or what is wrong with a line: nothing for a line that asks for events, or to end. The states are room in which
/// those of the plant are looked at; the reasons are those of the plant, and rule k of it stands on the line `rule_lines[k]` of its text.
pub(crate) fn print_query<D: Disk, W: Write>(
    plant: &Plant<'_, D>,
    reasons: &Reasons<'_>,
    rule_lines: &[u32],
    states: &mut PlantState,
    command: &Command,
    line: &[u8],
    output: &mut W,
) -> Result<(), WriteFault>
    requires reasons { plant_asked reasons.now ≡ definition_of plant.now }
    requires states { IsOf (definition_of plant.now) states.old }
    ensures printed { OnOk result (Appends (W.contents output.old) (W.contents output.new)
        (query_text (definition_of plant.now) rule_lines.now (view_of plant.now) line.now command.now)) }
    ensures states { IsOf (definition_of plant.now) states.new }
{
    match command {
        Command::Choices => print_choices(plant.system(), plant, output),
        Command::State => print_standing(plant, output),
        Command::Why => {
            plant.show(states);
            reasons.print_why(states, rule_lines, output)
        }
        Command::WhyOf(connector) => {
            plant.show(states);
            reasons.print_blocked_of(states, *connector, rule_lines, output)
        }
        Command::Front => {
            print_front(plant.front(), output)?;
            end_line(output)
        }
        Command::Room => print_room(plant, output),
        Command::Mistaken(mistake) => { print_mistaken(plant.system(), line, *mistake, output) }
        Command::TooLong => print_too_long(output),
        Command::Nothing | Command::Asks(_) | Command::Save | Command::Quit => {
            print_text(output, b"")
        }
    }
}

/// Prints what is wrong with a line.
fn print_mistaken<W: Write>(
    system: &System,
    line: &[u8],
    mistake: Mistake,
    output: &mut W,
) -> Result<(), WriteFault>
    ensures { OnOk result (Appends (W.contents output.old) (W.contents output.new) (mistake_line (plant_of system.now) line.now mistake)) }
{
    print_text(output, b"mistake ")?;
    print_wrong(system, line, mistake, output)?;
    end_line(output)
}

/// Prints what is wrong with a word: of one that is no command which commands there are, and else what is said of a line of a script.
fn print_wrong<W: Write>(
    system: &System,
    line: &[u8],
    mistake: Mistake,
    output: &mut W,
) -> Result<(), WriteFault>
    ensures { OnOk result (Appends (W.contents output.old) (W.contents output.new) (wrong_in (plant_of system.now) line.now mistake mistake.wrong)) }
{
    match mistake.wrong {
        Wrong::NoEvent | Wrong::Comment => print_of_word(
            word_in(line, 0),
            b" is no command: fire, flush, ask, put, trim, begin, back, choices, state, why, front, room, save or quit",
            output,
        ),
        _ => print_mistake(system, line, mistake, output),
    }
}

/// Prints that a line is too long.
fn print_too_long<W: Write>(output: &mut W) -> Result<(), WriteFault>
    ensures { OnOk result (Appends (W.contents output.old) (W.contents output.new) too_long_line) }
{
    print_text(output, b"mistake the line has more than ")?;
    print_number(output, MAX_LINE as u64)?;
    print_text(output, b" bytes\n")
}
