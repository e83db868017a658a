//! The signals of a value change dump: their codes, and their values.
ghost use Rattle.std.specs.Prelude.{◌≡◌};
ghost use Rattle.run_text.specs.Seen.{Prints};
ghost use Rattle.run_states.specs.Signals.{bit, place_value, signal_code, variable_value};

use std::io::Write;
use text_io::{WriteFault, end_line, print_number, print_text};

/// Prints the code of a signal: its kind, the number of its atom, and its own number in the atom.
pub(crate) fn print_code<W: Write>(
    kind: &[u8],
    atom: u64,
    number: u64,
    output: &mut W,
) -> Result<(), WriteFault>
    ensures { Prints result (W.contents output.old) (W.contents output.new) (signal_code kind.now atom number) }
{
    print_text(output, kind)?;
    print_number(output, atom)?;
    print_text(output, b"_")?;
    print_number(output, number)
}

/// Prints whether a place is marked.
pub(crate) fn print_place<W: Write>(
    atom: u64,
    number: u64,
    marked: bool,
    output: &mut W,
) -> Result<(), WriteFault>
    ensures { Prints result (W.contents output.old) (W.contents output.new) (place_value atom number marked) }
{
    print_text(output, bit(marked))?;
    print_code(b"p", atom, number, output)?;
    end_line(output)
}

/// The bit of a place.
fn bit(marked: bool) -> &'static [u8]
    ensures { result.now ≡ bit marked }
{
    if marked { b"1" } else { b"0" }
}

/// Prints the value of a variable.
pub(crate) fn print_variable<W: Write>(
    atom: u64,
    number: u64,
    value: i64,
    output: &mut W,
) -> Result<(), WriteFault>
    ensures { Prints result (W.contents output.old) (W.contents output.new) (variable_value atom number value) }
{
    write!(output, "b{value:b} ")?;
    print_code(b"v", atom, number, output)?;
    end_line(output)
}
