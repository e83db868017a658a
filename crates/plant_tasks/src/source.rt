//! The texts that a program reads: the standard input, or the file at a path.
use crate::ending::PlantEnding;
use crate::task::read_plant;
use crate::watched::Watched;
use command_line::is_standard_input;
use plant_model::System;
use std::fs::{self, File};
use std::io::{self, Read};
use std::rt::Files;

/// A text that is open for reading.
#[derive(Drop)]
pub enum Source<R> {
    /// The standard input.
    Input(R),
    /// A file.
    File(File),
}

impl<R: Read> Read for Source<R> {
    fn read(&mut self, buf: &mut [u8]) -> io::Result<usize> {
        match self {
            Source::Input(input) => input.read(buf),
            Source::File(file) => file.read(buf),
        }
    }
}

/// Opens the text at the path, or answers none and puts the reason into `failure`.
pub fn open_text<R: Files<File = File> + Input>(
    rt: &R,
    path: &str,
    failure: &mut Option<io::Error>,
) -> Option<Watched<Source<R::Reader>>> {
    if is_standard_input(path) {
        return Some(Watched::new(Source::Input(rt.reader())));
    }
    match fs::open(rt, path) {
        Ok(file) => Some(Watched::new(Source::File(file))),
        Err(error) => {
            *failure = Some(error);
            None
        }
    }
}

/// The plant whose text is at the path. Its text is put into `text`, and a failure of its file into `failure`.
pub fn plant_at<R: Files<File = File> + Input + AllocGlobal>(
    rt: &R,
    path: &str,
    text: &mut Vec<u8>,
    failure: &mut Option<io::Error>,
) -> Result<System, PlantEnding> {
    let Some(mut reader) = open_text(rt, path, failure) else {
        return Err(PlantEnding::Unopened);
    };
    let system = read_plant(rt.alloc(), &mut reader, text);
    *failure = reader.failure();
    system
}
