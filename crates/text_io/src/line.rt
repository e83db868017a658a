//! Reading one line, and keeping of it what there is room for.
ghost use Rattle.std.specs.Prelude.{◌≡◌, ◌≢◌, ◌≤◌, ◌++◌, true, false, All, length, take, IfOk, IfSome, OnOk};
ghost use Rattle.std.specs.Io.{IsEmptyOrEndsWith, StopsAt};
ghost use Rattle.std.specs.Io.BufRead.{take_through, DropsThrough};
ghost use Rattle.text_io.specs.LineParts.{TakesPart};

use arrayvec::ArrayVec;
use std::io;
use std::io::BufRead;

const LINE_FEED: u8 = b'\n';

/// Reads a line through its line feed, and keeps of it the first `KEPT` bytes; nothing is kept where the text has ended.
///
/// A line of which `KEPT` bytes are kept may have more. A line end has two bytes at most: who takes lines of up to n bytes keeps n + 2,
/// and so sees a longer one to be too long. No memory is taken.
pub fn read_line<R: BufRead, const KEPT: usize>(
    reader: &mut R,
    line: &mut ArrayVec<u8, KEPT>,
) -> io::Result<()>
    ensures kept { OnOk result (IfSome (R.remaining reader.old) (λ bytes. line.new.items ≡ take KEPT (take_through 10 bytes))) }
    ensures left { OnOk result (DropsThrough (R.remaining reader.old) (R.remaining reader.new) 10) }
{
    line.clear();
    while !line.is_full() {
        if read_part(reader, line)? {
            return Ok(());
        }
    }
    reader.skip_until(LINE_FEED)?;
    Ok(())
}

/// Takes of the line what the reader holds ready, and says whether the line is whole then.
fn read_part<R: BufRead, const KEPT: usize>(
    reader: &mut R,
    line: &mut ArrayVec<u8, KEPT>,
) -> io::Result<bool>
    ensures { IfOk result (TakesPart KEPT (R.remaining reader.old) (R.remaining reader.new) line.old.items line.new.items) }
{
    let ready = reader.fill_buf()?;
    let (len, is_whole) = first_part(ready);
    keep(line, &ready[..len]);
    reader.consume(len);
    Ok(is_whole)
}

/// How many of the bytes belong to the line, and whether it is whole with them: through the first line feed it is, and if no
/// byte is left.
fn first_part(bytes: &[u8]) -> (usize, bool)
    ensures within { result.0 ≤ length bytes.now }
    ensures stops { StopsAt (take result.0 bytes.now) 10 }
    ensures ended { result.1 ≡ true → IsEmptyOrEndsWith (take result.0 bytes.now) 10 }
    ensures unended { result.1 ≡ false → All (λ byte. byte ≢ 10) (take result.0 bytes.now) }
    ensures nothing { result.0 ≡ 0 → length bytes.now ≡ 0 }
    ensures more { result.1 ≡ false → 1 ≤ result.0 }
{
    match bytes.iter().position(|byte| *byte == LINE_FEED) {
        Some(place) => (place + 1, true),
        None => (bytes.len(), bytes.is_empty()),
    }
}

/// Adds bytes to a line, as far as there is room for them.
fn keep<const KEPT: usize>(line: &mut ArrayVec<u8, KEPT>, bytes: &[u8])
    ensures { line.new.items ≡ take KEPT (line.old.items ++ bytes.now) }
{
    let room = line.remaining_capacity();
    // There is room for as many.
    let _ = line.try_extend_from_slice(&bytes[..bytes.len().min(room)]);
}
