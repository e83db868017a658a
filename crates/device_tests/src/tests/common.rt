//! What several tests share.
ghost use Rattle.std.specs.Prelude.{◌≤◌, ◌+◌, ◌≡◌, length};

use disk_model::Tear;
use std::fs::{Metadata, OpenFile};
use std::io;

/// All ways in which a stop tears what is pending.
pub(super) const TEARS: [Tear; 4] = [Tear::Old, Tear::New, Tear::Gates, Tear::Mixed];

/// Base 9.
pub(super) const BASE: [u8; 8] = [0, 0, 0, 0, 0, 0, 0, 9];

/// Atom 0 at count 4, copied at number 4, place 0 marked, one variable with value 4.
pub(super) const SAVED: [u8; 35] = [
    0, 0, 0, 0, 0, 0, 0, 0, 0, 4, 0, 0, 0, 0, 0, 0, 0, 4, 0, 0, 0, 0, 0, 0, 0, 1, 1, 0, 0, 0, 0, 0,
    0, 0, 4,
];

/// Record 2 of the sample plant's run: A and B took part, and 1 was delivered to B's variable.
pub(super) const RECORD: [u8; 47] = [
    0, 0, 0, 0, 0, 0, 0, 2, 0, 1, 2, 0, 0, 0, 0, 0, 0, 0, 0, 0, 0, 0, 2, 0, 0, 0, 1, 0, 0, 0, 0, 0,
    0, 0, 0, 0, 1, 1, 1, 0, 0, 0, 0, 0, 0, 0, 1,
];

/// The bytes, and zeros after them.
pub(super) fn body_of<const LENGTH: usize>(front: &[u8]) -> [u8; LENGTH]
    requires { length front.now ≤ LENGTH }
{
    let mut body = [0; LENGTH];
    body[..front.len()].copy_from_slice(front);
    body
}

/// Copies the bytes of a file from this place on, as many as there are and as fit. How many they are.
pub(super) fn read_from(file: &[u8], offset: u64, buf: &mut [u8]) -> usize
    ensures within { result ≤ length buf.new }
{
    let at = (offset as usize).min(file.len());
    let count = buf.len().min(file.len() - at);
    buf[..count].copy_from_slice(&file[at..at + count]);
    count
}

/// Puts bytes into a file from this place on, as many as fit. Where the first of them is, and how many they are.
pub(super) fn write_into(file: &mut [u8], offset: u64, buf: &[u8]) -> (usize, usize)
    ensures within { result.1 ≤ length buf.now }
    ensures place { result.0 + result.1 ≤ length file.new }
    ensures same { length file.new ≡ length file.old }
{
    let at = (offset as usize).min(file.len());
    let count = buf.len().min(file.len() - at);
    file[at..at + count].copy_from_slice(&buf[..count]);
    (at, count)
}

/// A file in memory, which keeps its size.
pub(super) trait MemoryFile {
    const BYTES: usize;

    fn sync(&self) -> io::Result<()>;
}

/// A file in memory that is open.
#[derive(Drop)]
pub(super) struct Opened<'a, F>(pub(super) &'a F);

impl<F: MemoryFile> OpenFile for Opened<'_, F> {
    fn metadata(&self) -> io::Result<Metadata> {
        Ok(Metadata::of_file(F::BYTES as u64))
    }

    fn set_len(&self, _size: u64) -> io::Result<()> {
        Err(io::ErrorKind::Unsupported.into())
    }

    fn sync_all(&self) -> io::Result<()> {
        self.0.sync()
    }

    fn sync_data(&self) -> io::Result<()> {
        self.0.sync()
    }
}
