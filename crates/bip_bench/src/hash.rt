//! FNV-1a of 64 bits, as a writer that keeps only the hash of what it took.
ghost use Rattle.std.specs.Prelude.{◌≡◌};
ghost use Rattle.bip_bench.specs.Hash.{hash_from};

use std::io;
use std::io::Write;

/// The hash of no byte.
const OFFSET: u64 = 14_695_981_039_346_656_037;

/// What each byte multiplies the hash by.
const PRIME: u64 = 1_099_511_628_211;

/// The hash of the bytes that were written so far.
#[derive(Debug, Drop)]
pub(crate) struct Hash {
    /// The hash as a number.
    pub(crate) value: u64,
}

impl Hash {
    /// The hash of no byte.
    pub(crate) fn new() -> Self
        ensures { result.value ≡ OFFSET }
    {
        Hash { value: OFFSET }
    }

    /// Goes on by these bytes.
    pub(crate) fn add(&mut self, bytes: &[u8])
        ensures { self.new.value ≡ hash_from self.old.value bytes.now }
    {
        for byte in bytes {
            self.value = (self.value ^ u64::from(*byte)).wrapping_mul(PRIME);
        }
    }
}

impl Write for Hash {
    fn write(&mut self, buf: &[u8]) -> io::Result<usize> {
        self.add(buf);
        Ok(buf.len())
    }

    fn flush(&mut self) -> io::Result<()> {
        Ok(())
    }
}
