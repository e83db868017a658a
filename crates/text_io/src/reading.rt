//! Reading a whole text.
ghost use Rattle.std.specs.Prelude.{◌≡◌, ◌<◌, ◌≤◌, length, Err, IfErr, IfOk, IfSome, OnOk};
ghost use Rattle.std.specs.Io.{ReadsAtMost};
ghost use Rattle.std.specs.Io.KnownBytes.{IsAtEnd, ReadConsumes};
ghost use Rattle.text_io.specs.Reading.{GivesUp};
ghost use Rattle.text_io.specs.declared.reading.TextFault.TheVariants.{TooLong, Read as ReadFault};

use std::alloc::{AllocError, Global};
use std::io::Read;
use std::{fmt, io};
use thiserror::Error;

/// The most bytes that a text may have.
pub const MAX_TEXT: usize = 1_048_576;

/// The most bytes that one read is asked for.
const PART: usize = 4_096;

/// Why a text could not be read.
#[derive(Clone, Copy, Debug, PartialEq, Eq, Error)]
pub enum TextFault {
    /// The reader gave more than `MAX_TEXT` bytes.
    TooLong,
    /// There was no memory for the text.
    Memory,
    /// The reader answered an error; that it was interrupted is one.
    Read,
}

impl fmt::Display for TextFault {
    ghost use Rattle.std.specs.Prelude.{Some};
    ghost use Rattle.text_io.specs.Reading.{message_of};

    ghost output = { λ fault. Some (message_of fault) };

    fn fmt<W: fmt::Write>(&self, f: &mut fmt::Formatter<W>) -> fmt::Result {
        match self {
            TextFault::TooLong => write!(f, "the text has more than {MAX_TEXT} bytes"),
            TextFault::Memory => f.write_str("not enough memory for the text"),
            TextFault::Read => f.write_str("the text could not be read"),
        }
    }
}

impl From<AllocError> for TextFault {
    ghost use Rattle.text_io.specs.declared.reading.TextFault.TheVariants.{Memory};

    ghost from_gives = { λ _ fault. fault ≡ Memory };

    fn from(_: AllocError) -> Self {
        Self::Memory
    }
}

/// Reads to the reader's end.
///
/// Nothing is read after an error, nor more than one byte past `MAX_TEXT`. Each read but the last gives at least
/// one byte of the text, so that at most `MAX_TEXT + 1` reads are made.
pub fn read_text<R: Read>(alloc: Global, reader: &mut R) -> Result<Vec<u8>, TextFault>
    ensures all { IfOk result (λ text. IfSome (R.remaining reader.old) (λ bytes. text.items ≡ bytes)) }
    ensures end { OnOk result (IsAtEnd (R.remaining reader.new)) }
    ensures fits { IfOk result (λ text. length text.items ≤ MAX_TEXT) }
    ensures too_long { result ≡ Err TooLong → IfSome (R.remaining reader.old) (λ bytes. MAX_TEXT < length bytes) }
    ensures gave_up { IfErr result (λ fault. GivesUp fault (R.remaining reader.old) (R.remaining reader.new)) }
{
    let mut text = Vec::new(alloc);
    let mut part = [0u8; PART];
    loop {
        let most = PART.min(MAX_TEXT + 1 - text.len());
        let count = next_part(reader, &mut part[..most])?;
        if count == 0 {
            return Ok(text);
        }
        if count > MAX_TEXT - text.len() {
            return Err(TextFault::TooLong);
        }
        text.extend_from_slice(&part[..count])?;
    }
}

// One read, whose every error is the same fault.
fn next_part<R: Read>(reader: &mut R, part: &mut [u8]) -> Result<usize, TextFault>
    ensures bound { ReadsAtMost result part.new }
    ensures bytes { ReadConsumes (R.remaining reader.old) (R.remaining reader.new) result part.new }
    ensures fault { IfErr result (λ fault. fault ≡ ReadFault) }
{
    reader.read(part).map_err(|_| TextFault::Read)
}
