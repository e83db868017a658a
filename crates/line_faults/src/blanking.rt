//! A line of a text is made blank.
ghost use Rattle.std.specs.Prelude.{◌≡◌};
ghost use Rattle.line_faults.specs.Blank.{blanked, left_after, without_line};

const LINE_FEED: u8 = b'\n';

/// Puts a space in the place of each byte of the line with this number, from 1. Its line feed stays, so the other lines keep their
/// numbers. No line has the number 0.
pub fn blank_line(text: &mut [u8], number: u32)
    ensures { text.new ≡ without_line number text.old }
{
    let mut left = number;
    for byte in text.iter_mut() {
        let seen = *byte;
        *byte = blanked(left, seen);
        left = left_after(left, seen);
    }
}

/// A byte as it stands in the text with the blank line. `left` is the number of that line, counted from the byte's own as 1.
fn blanked(left: u32, byte: u8) -> u8
    ensures { result ≡ blanked left byte }
{
    if left == 1 && byte != LINE_FEED {
        b' '
    } else {
        byte
    }
}

/// The number of the blank line, counted from the line of the next byte as 1; 0 where it is past.
fn left_after(left: u32, byte: u8) -> u32
    ensures { result ≡ left_after left byte }
{
    if byte == LINE_FEED {
        left.saturating_sub(1)
    } else {
        left
    }
}
