//! A file that is driven only as long as its path names it, and one that threads may share.
use std::alloc::AllocError;
use std::fs;
use std::fs::{File, Metadata, OpenFile};
use std::io::{self, ErrorKind};
use std::os::unix::fs::{FileExt, MetadataExt};
use std::rt::Files;

/// Which file it is, and how many bytes it has.
#[derive(Clone, Copy, PartialEq, Eq)]
pub struct FileIdentity {
    /// The file system.
    device: u64,
    /// Its number there. No other file has it while this one is open.
    number: u64,
    pub(crate) bytes: u64,
}

impl FileIdentity {
    /// The identity of the file that these data are of.
    pub(crate) fn of(metadata: &Metadata) -> FileIdentity {
        FileIdentity {
            device: metadata.dev(),
            number: metadata.ino(),
            bytes: metadata.len(),
        }
    }

    /// Whether the path names this very file, and it has as many bytes as it had.
    pub fn is_at<R: Files>(self, files: &R, path: &str) -> bool {
        match fs::metadata(files, path) {
            Ok(found) => FileIdentity::of(&found) == self,
            Err(_) => false,
        }
    }
}

/// The open file of an image. A sync first looks whether its path still names it: once it was unlinked, moved away, replaced or cut,
/// what is written to it reaches no later start, so no sync succeeds any more.
#[derive(Drop)]
pub struct ImageFile<'a, R> {
    file: File,
    files: &'a R,
    path: String,
    identity: FileIdentity,
}

impl<'a, R: Files + AllocGlobal> ImageFile<'a, R> {
    /// The open file at the path.
    pub(crate) fn new(
        files: &'a R,
        file: File,
        path: &str,
        identity: FileIdentity,
    ) -> Result<Self, AllocError> {
        Ok(ImageFile {
            file,
            files,
            path: String::from_str(files.alloc(), path)?,
            identity,
        })
    }
}

impl<'a, R> ImageFile<'a, R> {
    /// Which file it is.
    pub fn identity(&self) -> FileIdentity {
        self.identity
    }
}

/// What is answered if the path names another file, or none.
pub(crate) fn another_file() -> io::Error {
    io::Error::new(ErrorKind::NotFound, "its path names another file now")
}

impl<'a, R> FileExt for ImageFile<'a, R> {
    fn read_at(&self, buf: &mut [u8], offset: u64) -> io::Result<usize> {
        self.file.read_at(buf, offset)
    }

    fn write_at(&self, buf: &[u8], offset: u64) -> io::Result<usize> {
        self.file.write_at(buf, offset)
    }
}

impl<'a, R: Files> OpenFile for ImageFile<'a, R> {
    /// Of the file that the path names, if it is this one. It takes one call of the system.
    fn metadata(&self) -> io::Result<Metadata> {
        let found = match fs::metadata(self.files, self.path.as_str()) {
            Ok(found) => found,
            Err(error) if error.kind() == ErrorKind::NotFound => return Err(another_file()),
            Err(error) => return Err(error),
        };
        if FileIdentity::of(&found) == self.identity {
            Ok(found)
        } else {
            Err(another_file())
        }
    }

    fn set_len(&self, size: u64) -> io::Result<()> {
        self.file.set_len(size)
    }

    fn sync_all(&self) -> io::Result<()> {
        self.file.sync_all()
    }

    fn sync_data(&self) -> io::Result<()> {
        self.file.sync_data()
    }
}

/// The open file of an image that threads share. Only the program's own thread may look at paths, so a sync looks whether the file still has a name and its
/// size: not whether the name is the one by which it was opened.
#[derive(Drop)]
pub struct SharedFile {
    file: File,
}

impl SharedFile {
    /// This open file.
    pub(crate) fn new(file: File) -> Self {
        SharedFile { file }
    }
}

impl FileExt for SharedFile {
    fn read_at(&self, buf: &mut [u8], offset: u64) -> io::Result<usize> {
        self.file.read_at(buf, offset)
    }

    fn write_at(&self, buf: &[u8], offset: u64) -> io::Result<usize> {
        self.file.write_at(buf, offset)
    }
}

impl OpenFile for SharedFile {
    /// Of the file, if it has a name.
    fn metadata(&self) -> io::Result<Metadata> {
        let found = self.file.metadata()?;
        if found.nlink() == 0 {
            return Err(another_file());
        }
        Ok(found)
    }

    fn set_len(&self, size: u64) -> io::Result<()> {
        self.file.set_len(size)
    }

    fn sync_all(&self) -> io::Result<()> {
        self.file.sync_all()
    }

    fn sync_data(&self) -> io::Result<()> {
        self.file.sync_data()
    }
}
