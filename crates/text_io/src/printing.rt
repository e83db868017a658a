//! Printing the parts of a line.
//!
//! A part that is numbers and `str`s alone is as well printed by one `write!` of std, whose error becomes a
//! [`WriteFault`] by `?`.
ghost use Rattle.std.specs.Prelude.{codes, decimal, OnOk};
ghost use Rattle.std.specs.Fmt.{signed_decimal};
ghost use Rattle.std.specs.Io.KnownBytes.{Appends};

use itoa::Buffer;
use std::io::Write;
use std::{fmt, io};
use thiserror::Error;

/// The writer answered an error. It may have taken a part of what was printed.
#[derive(Clone, Copy, Debug, PartialEq, Eq, Error)]
pub struct WriteFault;

impl fmt::Display for WriteFault {
    ghost use Rattle.std.specs.Prelude.{Some};
    ghost use Rattle.text_io.specs.Printing.{write_message};

    ghost output = { λ _. Some write_message };

    fn fmt<W: fmt::Write>(&self, f: &mut fmt::Formatter<W>) -> fmt::Result {
        f.write_str("the text could not be written")
    }
}

impl From<io::Error> for WriteFault {
    fn from(_: io::Error) -> Self {
        WriteFault
    }
}

/// Prints bytes as they are.
pub fn print_text<W: Write>(writer: &mut W, text: &[u8]) -> Result<(), WriteFault>
    ensures { OnOk result (Appends (W.contents writer.old) (W.contents writer.new) text.now) }
{
    writer.write_all(text)?;
    Ok(())
}

/// Prints a number in decimal.
pub fn print_number<W: Write>(writer: &mut W, number: u64) -> Result<(), WriteFault>
    ensures { OnOk result (Appends (W.contents writer.old) (W.contents writer.new) (decimal number)) }
{
    print_text(writer, Buffer::new().format(number).as_bytes())
}

/// Prints a number in decimal, with a minus in front where it is below 0.
pub fn print_signed<W: Write>(writer: &mut W, value: i64) -> Result<(), WriteFault>
    ensures { OnOk result (Appends (W.contents writer.old) (W.contents writer.new) (signed_decimal value)) }
{
    print_text(writer, Buffer::new().format(value).as_bytes())
}

/// Ends a line.
pub fn end_line<W: Write>(writer: &mut W) -> Result<(), WriteFault>
    ensures { OnOk result (Appends (W.contents writer.old) (W.contents writer.new) (codes "\n")) }
{
    print_text(writer, b"\n")
}
