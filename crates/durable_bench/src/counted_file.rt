//! An open file that counts what is asked of it.
use std::cell::Cell;
use std::fs::{File, Metadata, OpenFile};
use std::io;
use std::os::unix::fs::FileExt;

/// What was asked of a file.
#[derive(Clone, Copy)]
pub(crate) struct Asked {
    pub(crate) syncs: u64,
    pub(crate) writes: u64,
    /// How many bytes were to be written.
    pub(crate) bytes: u64,
}

impl Asked {
    /// Nothing was asked.
    pub(crate) fn nothing() -> Asked {
        Asked {
            syncs: 0,
            writes: 0,
            bytes: 0,
        }
    }
}

/// A file that is open. It does what that does, and what is asked of it is counted outside.
#[derive(Drop)]
pub(crate) struct CountedFile<'a> {
    pub(crate) file: File,
    pub(crate) asked: &'a Cell<Asked>,
}

impl<'a> CountedFile<'a> {
    /// Counts a sync.
    fn count_sync(&self) {
        let mut asked = self.asked.get();
        asked.syncs = asked.syncs.saturating_add(1);
        self.asked.set(asked);
    }

    /// Counts a write of so many bytes.
    fn count_write(&self, bytes: usize) {
        let mut asked = self.asked.get();
        asked.writes = asked.writes.saturating_add(1);
        asked.bytes = asked.bytes.saturating_add(bytes as u64);
        self.asked.set(asked);
    }
}

impl<'a> FileExt for CountedFile<'a> {
    fn read_at(&self, buf: &mut [u8], offset: u64) -> io::Result<usize> {
        self.file.read_at(buf, offset)
    }

    fn write_at(&self, buf: &[u8], offset: u64) -> io::Result<usize> {
        self.count_write(buf.len());
        self.file.write_at(buf, offset)
    }
}

impl<'a> OpenFile for CountedFile<'a> {
    fn metadata(&self) -> io::Result<Metadata> {
        self.file.metadata()
    }

    fn set_len(&self, size: u64) -> io::Result<()> {
        self.file.set_len(size)
    }

    fn sync_all(&self) -> io::Result<()> {
        self.count_sync();
        self.file.sync_all()
    }

    fn sync_data(&self) -> io::Result<()> {
        self.count_sync();
        self.file.sync_data()
    }
}
