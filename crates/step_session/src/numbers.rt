//! What is printed of the numbers of a connector's choices.
ghost use Rattle.std.specs.Prelude.{◌≡◌, ◌-◌, ◌<◌, drop};
ghost use Rattle.std.specs.List.{range_with_len};
ghost use Rattle.run_text.specs.Seen.{Prints};
ghost use Rattle.step_session.specs.Numbers.{dots_text, several_text, told_numbers};

use run_text::{MOST_LISTED, OwnNumbers};
use std::io::Write;
use text_io::{WriteFault, end_line, print_text};

/// Prints that the connector with the name has several choices, and their numbers.
pub(crate) fn print_several<W: Write>(
    name: &[u8],
    numbers: OwnNumbers,
    output: &mut W,
) -> Result<(), WriteFault>
    requires { 1 < numbers.end - numbers.first }
    ensures { Prints result (W.contents output.old) (W.contents output.new) (several_text name.now numbers.first (drop 1 (range_with_len numbers.first (numbers.end - numbers.first)))) }
{
    let count = numbers.count();
    print_text(output, name)?;
    write!(output, " has {count} choices: ")?;
    print_numbers(numbers, output)?;
    end_line(output)
}

/// Prints the numbers, the first ones if there are many.
fn print_numbers<W: Write>(numbers: OwnNumbers, output: &mut W) -> Result<(), WriteFault>
    requires { 1 < numbers.end - numbers.first }
    ensures { Prints result (W.contents output.old) (W.contents output.new) (told_numbers numbers.first (drop 1 (range_with_len numbers.first (numbers.end - numbers.first)))) }
{
    let first = numbers.first;
    write!(output, "{first}")?;
    let told = numbers.count().min(u128::from(MOST_LISTED));
    for number in first + 1..first + told {
        write!(output, ", {number}")?;
    }
    print_dots(numbers.count(), output)
}

/// Prints that there are more numbers than are told, if there are.
fn print_dots<W: Write>(count: u128, output: &mut W) -> Result<(), WriteFault>
    ensures { Prints result (W.contents output.old) (W.contents output.new) (dots_text count) }
{
    if count > u128::from(MOST_LISTED) {
        print_text(output, b", ..")
    } else {
        Ok(())
    }
}
