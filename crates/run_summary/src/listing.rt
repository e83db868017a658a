//! The lines of parts that are counted.
ghost use Rattle.std.specs.Prelude.{◌≡◌};
ghost use Rattle.run_text.specs.Seen.{Prints};
ghost use Rattle.run_summary.specs.Lines.{after_text, before_text, is_listed};

use std::io::Write;
use text_io::{WriteFault, end_line, print_number, print_text};

/// Which parts are listed.
#[derive(Clone, Copy)]
pub(crate) enum Listing {
    /// Each, with how often it came.
    All,
    /// Those that never came.
    Never,
}

impl Listing {
    /// Whether a part that came so often is listed.
    pub(crate) fn has(self, count: u64) -> bool
        ensures { result ≡ is_listed self count }
    {
        match self {
            Listing::All => true,
            Listing::Never => count == 0,
        }
    }

    /// Prints what stands before a part on its line.
    pub(crate) fn print_before<W: Write>(self, output: &mut W) -> Result<(), WriteFault>
        ensures { Prints result (W.contents output.old) (W.contents output.new) (before_text self) }
    {
        match self {
            Listing::All => Ok(()),
            Listing::Never => print_text(output, b"never "),
        }
    }

    /// Prints what stands after it, and ends the line.
    pub(crate) fn print_after<W: Write>(self, count: u64, output: &mut W) -> Result<(), WriteFault>
        ensures { Prints result (W.contents output.old) (W.contents output.new) (after_text self count) }
    {
        match self {
            Listing::All => {
                print_text(output, b" ")?;
                print_number(output, count)?;
                end_line(output)
            }
            Listing::Never => end_line(output),
        }
    }
}
