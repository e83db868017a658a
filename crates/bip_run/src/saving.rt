//! The files in which is saved what is fired.
use command_line::{Task, is_standard_input};
use plant_tasks::{PlantEnding, ReadPlant, Watched, perform};
use run_tallies::Progress;
use std::alloc::Global;
use std::fs::File;
use std::io::{BufRead, BufWriter, Write};
use std::os::unix::fs::MetadataExt;
use std::rt::Files;
use std::{fs, io, str};
use step_session::{Saver, Session};

/// Saves what was fired by hand in the files that the lines name, but not in the plant's own.
#[derive(Drop)]
pub(crate) struct FileSaver<'a, R> {
    /// What opens the files.
    pub(crate) rt: &'a R,
    /// Where the plant text is.
    pub(crate) plant: &'a str,
}

impl<'a, R: Files<File = File> + AllocGlobal> Saver for FileSaver<'a, R> {
    fn save(&mut self, path: &[u8], session: &Session<'_>) -> bool {
        match str::from_utf8(path) {
            Ok(path) if is_standard_input(path) || lead_to_one_file(self.rt, path, self.plant) => {
                false
            }
            Ok(path) => save_at(self.rt, path, session),
            Err(_) => false,
        }
    }
}

/// Whether the paths lead to one file that is there, also where they are written in different ways.
pub(crate) fn lead_to_one_file<R: Files>(rt: &R, one: &str, other: &str) -> bool {
    match (fs::metadata(rt, one), fs::metadata(rt, other)) {
        (Ok(one), Ok(other)) => one.dev() == other.dev() && one.ino() == other.ino(),
        _ => false,
    }
}

/// Saves what was fired in the session in the file at the path, which is made, or emptied. Says whether it could.
fn save_at<R: Files<File = File> + AllocGlobal>(rt: &R, path: &str, session: &Session<'_>) -> bool {
    let Ok(file) = fs::create(rt, path) else {
        return false;
    };
    let Ok(mut writer) = BufWriter::new(rt.alloc(), file) else {
        return false;
    };
    session.print_fired(&mut writer).is_ok() && writer.flush().is_ok()
}

/// Does a task of a plant, and saves what is fired in the file at the path, if there is one: it is made, or emptied. A failure of it is put into
/// `failure`.
pub(crate) fn perform_saving<
    R: Files<File = File> + AllocGlobal,
    F: BufRead + Drop,
    W: Write,
    G: Progress,
>(
    rt: &R,
    task: &Task<'_>,
    plant: &ReadPlant<'_>,
    input: F,
    output: &mut W,
    saved: Option<&str>,
    progress: &mut G,
    failure: &mut Option<io::Error>,
) -> Result<(), PlantEnding> {
    let alloc = rt.alloc();
    let Some(path) = saved else {
        return perform(alloc, task, plant, input, output, &mut io::sink(), progress);
    };
    match fs::create(rt, path) {
        Ok(file) => perform_into(alloc, task, plant, input, output, file, progress, failure),
        Err(error) => {
            *failure = Some(error);
            Err(PlantEnding::Unsaved)
        }
    }
}

/// Does a task of a plant, and saves what is fired in the file.
fn perform_into<F: BufRead + Drop, W: Write, G: Progress>(
    alloc: Global,
    task: &Task<'_>,
    plant: &ReadPlant<'_>,
    input: F,
    output: &mut W,
    file: File,
    progress: &mut G,
    failure: &mut Option<io::Error>,
) -> Result<(), PlantEnding> {
    let mut saved = BufWriter::new(alloc, Watched::new(file)).map_err(|_| PlantEnding::Memory)?;
    let ended = perform(alloc, task, plant, input, output, &mut saved, progress);
    // Of the two writers it was this one that failed, where it has a reason.
    match (ended, saved.get_ref().failure()) {
        (Err(PlantEnding::Unwritten), Some(error)) => {
            *failure = Some(error);
            Err(PlantEnding::Unsaved)
        }
        _ => ended,
    }
}
