//! A plant that is run by hand in the process: from the standard input, and behind the picks of a file.
use crate::saving::FileSaver;
use command_line::Recording;
use plant_tasks::{PlantEnding, ReadPlant, RecordedText, Watched, open_text, step};
use std::fs::File;
use std::io::{self, BufRead, BufReader, Write};
use std::rt::Files;
use step_session::Mark;

/// Lets the plant, whose text is at the path, be run by hand from the standard input, behind the picks of a text if there is one. A failure of either is
/// put into `failure`.
pub(crate) fn step_typed<R: Files<File = File> + Input + AllocGlobal, W: Write>(
    rt: &R,
    path: &str,
    recording: Option<Recording<'_>>,
    plant: &ReadPlant<'_>,
    mark: Mark,
    output: &mut W,
    failure: &mut Option<io::Error>,
) -> Result<(), PlantEnding> {
    let Some(recording) = recording else {
        let none: Option<RecordedText<io::Empty>> = None;
        return step_behind(rt, path, none, plant, mark, output, failure);
    };
    let Some(reader) = open_text(rt, recording.path, failure) else {
        return Err(PlantEnding::InputUnread);
    };
    let mut text = BufReader::new(rt.alloc(), reader).map_err(|_| PlantEnding::Memory)?;
    let recorded = RecordedText {
        text: &mut text,
        numbers: recording.numbers,
    };
    let ended = step_behind(rt, path, Some(recorded), plant, mark, output, failure);
    if let Err(PlantEnding::InputUnread) = ended {
        *failure = text.get_ref().failure();
    }
    ended
}

/// The same, behind the picks of an open text if there is one.
fn step_behind<R: Files<File = File> + Input + AllocGlobal, F: BufRead + Drop, W: Write>(
    rt: &R,
    path: &str,
    recorded: Option<RecordedText<F>>,
    plant: &ReadPlant<'_>,
    mark: Mark,
    output: &mut W,
    failure: &mut Option<io::Error>,
) -> Result<(), PlantEnding> {
    let mut input = BufReader::new(rt.alloc(), Watched::new(rt.reader())).map_err(
        |_| PlantEnding::Memory,
    )?;
    let mut saver = FileSaver { rt, plant: path };
    let ended = step(
        rt.alloc(),
        plant,
        recorded,
        mark,
        &mut input,
        output,
        &mut saver,
    );
    if let Err(PlantEnding::LinesUnread) = ended {
        *failure = input.get_ref().failure();
    }
    ended
}
