//! The line of what was fired.
ghost use Rattle.std.specs.Prelude.{OnOk};
ghost use Rattle.std.specs.Io.KnownBytes.{Appends};
ghost use Rattle.worker_runs.specs.Printed.{by_line};

use std::io::Write;
use text_io::{WriteFault, end_line, print_number, print_text};

/// Prints how many choices were fired by all workers together.
pub(crate) fn print_fired<W: Write>(fired: u64, output: &mut W) -> Result<(), WriteFault>
    ensures { OnOk result (Appends (W.contents output.old) (W.contents output.new) (by_line fired)) }
{
    print_text(output, b"by ")?;
    print_number(output, fired)?;
    end_line(output)
}
