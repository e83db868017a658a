//! A reader or a writer that remembers why it failed.
ghost use Rattle.std.specs.Prelude.{◌≡◌};

use std::io::{self, Read, Write};

/// A reader or a writer, and why it failed last. It does what the one within does.
#[derive(Drop)]
pub struct Watched<T> {
    within: T,
    failure: Option<io::Error>,
}

impl<T> Watched<T> {
    /// This reader or writer, which has not failed yet.
    pub fn new(within: T) -> Self
        ensures { result.within ≡ within }
    {
        Watched {
            within,
            failure: None,
        }
    }

    /// Why it failed last, if it ever did.
    pub fn failure(&self) -> Option<io::Error>
        ensures { result ≡ self.now.failure }
    {
        self.failure
    }
}

impl<R: Read> Read for Watched<R> {
    ghost remaining = { λ watched. R.remaining watched.within };

    fn read(&mut self, buf: &mut [u8]) -> io::Result<usize> {
        let result = self.within.read(buf);
        if let Err(failure) = result {
            self.failure = Some(failure);
        }
        result
    }
}

impl<W: Write> Write for Watched<W> {
    ghost contents = { λ watched. W.contents watched.within };

    fn write(&mut self, buf: &[u8]) -> io::Result<usize> {
        let result = self.within.write(buf);
        if let Err(failure) = result {
            self.failure = Some(failure);
        }
        result
    }

    fn flush(&mut self) -> io::Result<()> {
        let result = self.within.flush();
        if let Err(failure) = result {
            self.failure = Some(failure);
        }
        result
    }
}
