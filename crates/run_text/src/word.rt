//! The words of a line in each format.
ghost use Rattle.run_text.specs.Seen.{Prints};
ghost use Rattle.run_text.specs.Word.{assigned_text, name_text, quoted};

use crate::format::equals_text;
use std::io::Write;
use text_io::{Format, WriteFault, print_signed, print_text};

/// Prints a variable and its value.
pub(crate) fn print_assigned<W: Write>(
    format: Format,
    name: &[u8],
    value: i64,
    output: &mut W,
) -> Result<(), WriteFault>
    ensures { Prints result (W.contents output.old) (W.contents output.new) (assigned_text format name.now value) }
{
    print_name(format, name, output)?;
    print_text(output, equals_text(format))?;
    print_signed(output, value)
}

/// Prints a name that stands as a word of its own: in JSON between quotes.
pub(crate) fn print_name<W: Write>(
    format: Format,
    name: &[u8],
    output: &mut W,
) -> Result<(), WriteFault>
    ensures { Prints result (W.contents output.old) (W.contents output.new) (name_text format name.now) }
{
    match format {
        Format::Lines | Format::Csv => print_text(output, name),
        Format::Jsonl => print_quoted(name, output),
    }
}

/// Prints a name between quotes.
pub(crate) fn print_quoted<W: Write>(name: &[u8], output: &mut W) -> Result<(), WriteFault>
    ensures { Prints result (W.contents output.old) (W.contents output.new) (quoted name.now) }
{
    print_text(output, b"\"")?;
    print_text(output, name)?;
    print_text(output, b"\"")
}
