//! Why a script is refused.
ghost use Rattle.std.specs.Prelude.{◌≡◌};

use std::alloc::AllocError;
use std::fmt;
use text_io::MAX_TEXT;
use thiserror::Error;

/// Why a script is refused.
#[derive(Clone, Copy, Debug, PartialEq, Eq, Error)]
pub enum ScriptFault {
    /// The first line that asks for no event, by its number from 1; 0 if the script is too long.
    Line(u32),
    /// There was no memory for the events. Each line asks for one, or is empty.
    Memory,
}

impl fmt::Display for ScriptFault {
    ghost use Rattle.std.specs.Prelude.{Some};
    ghost use Rattle.script_lines.specs.Message.{message_of};

    ghost output = { λ fault. Some (message_of fault) };

    fn fmt<W: fmt::Write>(&self, f: &mut fmt::Formatter<W>) -> fmt::Result {
        match self {
            ScriptFault::Line(0) => write!(f, "the script has more than {MAX_TEXT} bytes"),
            ScriptFault::Line(number) => write!(f, "line {number} of the script asks for no event"),
            ScriptFault::Memory => f.write_str("not enough memory for the events of the script"),
        }
    }
}

impl From<AllocError> for ScriptFault {
    ghost use Rattle.script_lines.specs.declared.fault.ScriptFault.TheVariants.{Memory};

    ghost from_gives = { λ _ fault. fault ≡ Memory };

    fn from(_: AllocError) -> Self {
        Self::Memory
    }
}
