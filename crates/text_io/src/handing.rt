//! When what is printed is handed on.
ghost use Rattle.std.specs.Prelude.{OnOk};
ghost use Rattle.std.specs.Io.KnownBytes.{Keeps};

use crate::printing::WriteFault;
use std::io::Write;

/// Hands on what the writer still keeps, so that a reader sees all that was printed.
pub fn hand_on<W: Write>(writer: &mut W) -> Result<(), WriteFault>
    ensures { OnOk result (Keeps (W.contents writer.old) (W.contents writer.new)) }
{
    writer.flush()?;
    Ok(())
}
