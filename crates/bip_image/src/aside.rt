//! What is kept beside a task, for what is told if it ends early.
use file_disk::FileIdentity;
use std::alloc::Global;
use std::cell::Cell;
use std::io;
use std::rt::Files;

/// What is noted of the file of an image while that is driven.
#[derive(Drop)]
pub(crate) struct Noted {
    /// Why it failed last, if it did.
    pub(crate) failure: Cell<Option<io::Error>>,
    /// Which file it is, if it was there before.
    pub(crate) file: Cell<Option<FileIdentity>>,
}

impl Noted {
    /// Nothing was noted yet.
    fn new() -> Self {
        Noted {
            failure: Cell::new(None),
            file: Cell::new(None),
        }
    }

    /// Whether the path names another file by now, or none.
    pub(crate) fn is_another_at<R: Files>(&self, files: &R, path: &str) -> bool {
        match self.file.get() {
            Some(file) => !file.is_at(files, path),
            None => false,
        }
    }
}

/// The texts that a task read, and why a file or the output failed.
#[derive(Drop)]
pub(crate) struct Aside {
    /// Where memory is taken from.
    pub(crate) alloc: Global,
    /// The text of the plant, as far as it was read.
    pub(crate) text: Vec<u8>,
    /// The text of the script, as far as it was read.
    pub(crate) script: Vec<u8>,
    /// What is said of the script's mistake, if it has one.
    pub(crate) mistake: Vec<u8>,
    /// What more is told of an image that is refused.
    pub(crate) reason: Vec<u8>,
    /// Why a file or the output failed last, if one did.
    pub(crate) failure: Option<io::Error>,
    /// What was noted of the file of an image.
    pub(crate) device: Noted,
    /// The same of a new image.
    pub(crate) made: Noted,
    /// Whether a device failed, and the path of the image names another file by now, or none.
    pub(crate) is_another: bool,
}

impl Aside {
    /// Nothing was read yet.
    pub(crate) fn new(alloc: Global) -> Self {
        Aside {
            alloc,
            text: Vec::new(alloc),
            script: Vec::new(alloc),
            mistake: Vec::new(alloc),
            reason: Vec::new(alloc),
            failure: None,
            device: Noted::new(),
            made: Noted::new(),
            is_another: false,
        }
    }
}
