//! Reading from a reader that gives few bytes at a time, or fails.
use std::alloc::{AllocError, Global};
use std::io;
use std::io::{ErrorKind, Read};
use std::test::Fail;
use text_io::{MAX_TEXT, TextFault, read_text};

/// Gives its bytes so many at a read, and answers an error in place of one of its reads, counted from 1.
#[derive(Drop)]
struct Stepping<'a> {
    rest: &'a [u8],
    step: usize,
    fails_at: u64,
    reads: u64,
}

impl<'a> Read for Stepping<'a> {
    fn read(&mut self, buf: &mut [u8]) -> io::Result<usize> {
        self.reads = self.reads.saturating_add(1);
        if self.reads == self.fails_at {
            return Err(io::Error::from(ErrorKind::Interrupted));
        }
        let count = self.step.min(self.rest.len()).min(buf.len());
        buf[..count].copy_from_slice(&self.rest[..count]);
        self.rest = &self.rest[count..];
        Ok(count)
    }
}

/// So many bytes.
fn filled(alloc: Global, length: usize) -> Result<Vec<u8>, AllocError> {
    vec![in alloc; b'x'; length]
}

/// Whether the bytes, so many at a read and with an error at this one, are read by so many reads, which leave so many of them unread:
/// as the text, or to the fault.
fn is_read(
    alloc: Global,
    (bytes, step, fails_at): (&[u8], usize, u64),
    (reads, left, fault): (u64, usize, Option<TextFault>),
) -> bool {
    let mut reader = Stepping {
        rest: bytes,
        step,
        fails_at,
        reads: 0,
    };
    let is_as_wanted = match read_text(alloc, &mut reader) {
        Ok(text) => fault.is_none() && text.as_slice() == bytes,
        Err(told) => fault == Some(told),
    };
    is_as_wanted && reader.reads == reads && reader.rest.len() == left
}

#[test]
fn a_text_is_read_to_its_end(rt: HostRuntime) -> Result<(), Fail> {
    let alloc = rt.alloc();
    let longest = filled(alloc, MAX_TEXT)?;
    for (text, step, reads) in [
        (b"".as_slice(), 1, 1),
        (b"atom A\nplace p\n", 1, 16),
        (b"atom A\nplace p\n", 2, 9),
        (b"atom A\nplace p\n", 7, 4),
        (b"atom A\nplace p\n", 100, 2),
        (longest.as_slice(), 1, 1_048_577),
        (longest.as_slice(), 4_096, 257),
        (longest.as_slice(), 1_000_000, 257),
    ] {
        assert!(&rt;
            is_read(alloc, (text, step, 0), (reads, 0, None)),
            "{reads} reads"
        );
    }
    Ok(())
}

#[test]
fn what_keeps_a_text_from_being_read_is_told_at_once(rt: HostRuntime) -> Result<(), Fail> {
    let alloc = rt.alloc();
    let long = filled(alloc, MAX_TEXT + 4)?;
    for (text, step, fails_at, wanted) in [
        (b"12345".as_slice(), 1, 1, (1, 5, Some(TextFault::Read))),
        (b"12345", 1, 2, (2, 4, Some(TextFault::Read))),
        (b"12345", 1, 3, (3, 3, Some(TextFault::Read))),
        (b"12345", 1, 4, (4, 2, Some(TextFault::Read))),
        (b"12345", 1, 5, (5, 1, Some(TextFault::Read))),
        (b"12345", 1, 6, (6, 0, Some(TextFault::Read))),
        (b"12345", 1, 7, (6, 0, None)),
        (
            long.as_slice(),
            1,
            0,
            (1_048_577, 3, Some(TextFault::TooLong)),
        ),
        (
            long.as_slice(),
            4_096,
            0,
            (257, 3, Some(TextFault::TooLong)),
        ),
    ] {
        assert!(&rt;
            is_read(alloc, (text, step, fails_at), wanted),
            "{step} by {fails_at}"
        );
    }
    Ok(())
}
