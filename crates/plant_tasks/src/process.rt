//! What both programs do in their process: words, and what is printed after the line of an ending.
use crate::ending::PlantEnding;
use crate::near::tell_near_pick;
use plant_text::{Fault, PlantFault};
use shown_fault::explain;
use std::alloc::{AllocError, Global};
use std::env::Args;
use std::io::{self, ErrorKind};
use std::rt::Env;
use std::{env, str};

/// The name by which both programs are called.
const LAUNCHER: &str = "bip_run";

/// The words of the command line, the name first by which both programs are called.
pub fn words_of_process<R: Env + Eprint + AllocGlobal>(rt: &R) -> Result<Vec<String>, PlantEnding> {
    match env::args(rt) {
        Ok(words) => renamed(rt.alloc(), words).map_err(|_| PlantEnding::Memory),
        Err(error) if error.kind() == ErrorKind::OutOfMemory => Err(PlantEnding::Memory),
        Err(_) => {
            let _ = eprintln!(rt; "error: a word of the command line is no UTF-8 text");
            Err(PlantEnding::Usage)
        }
    }
}

/// The words with that name in place of the first, which is the path of one of the programs.
fn renamed(alloc: Global, given: Args) -> Result<Vec<String>, AllocError> {
    let mut words: Vec<String> = given.collect(alloc)?;
    if !words.is_empty() {
        words[0] = String::from_str(alloc, LAUNCHER)?;
    }
    Ok(words)
}

/// Tells more of an ending than its line: of a fault of the plant at the path where it is and what can be done, of a pick that is refused for its first
/// word a connector that has nearly this name, and of a file or an output that failed the reason, if it is known. `text` is the plant's text.
pub fn tell_more<R: Eprint + AllocGlobal>(
    rt: &R,
    ending: PlantEnding,
    path: &str,
    text: &[u8],
    failure: Option<io::Error>,
) {
    match ending {
        PlantEnding::Plant(found) if found.fault != Fault::Read => show_fault(
            rt, path, text, &found,
        ),
        PlantEnding::Plant(_)
        | PlantEnding::Unopened
        | PlantEnding::InputUnread
        | PlantEnding::LinesUnread => tell_file_failure(rt, failure),
        PlantEnding::Refused(refusal) => tell_near_pick(rt, text, &refusal),
        PlantEnding::Unsaved => tell_unsaved(rt, failure),
        PlantEnding::Unwritten => tell_output_failure(rt, failure),
        PlantEnding::Usage
        | PlantEnding::NoAtom(_)
        | PlantEnding::NoConnector(_)
        | PlantEnding::BadWatch { .. }
        | PlantEnding::Held
        | PlantEnding::Memory => {}
    }
}

/// Tells why a file could not be opened or read.
pub fn tell_file_failure<R: Eprint>(rt: &R, failure: Option<io::Error>) {
    let Some(failure) = failure else {
        return;
    };
    let _ = match failure.kind() {
        ErrorKind::NotFound => eprintln!(rt; "  no such file or folder"),
        ErrorKind::PermissionDenied => eprintln!(rt; "  no right to read it"),
        ErrorKind::IsADirectory => eprintln!(rt; "  a folder, and no file"),
        _ => eprintln!(rt; "  {failure}"),
    };
}

/// Tells why a file could not be made or written.
fn tell_unsaved<R: Eprint>(rt: &R, failure: Option<io::Error>) {
    match failure {
        Some(failure) if failure.kind() == ErrorKind::PermissionDenied => {
            let _ = eprintln!(rt; "  no right to write it");
        }
        failure => tell_file_failure(rt, failure),
    }
}

/// Tells why the standard output takes nothing. Where a reader of it has gone, as `head` does when it has enough, there is nothing to tell.
pub fn tell_output_failure<R: Eprint>(rt: &R, failure: Option<io::Error>) {
    let Some(failure) = failure else {
        return;
    };
    if failure.kind() != ErrorKind::BrokenPipe {
        let _ = eprintln!(rt; "error: the standard output failed: {failure}");
    }
}

/// Shows where the fault of the text is, and what can be done about it.
fn show_fault<R: Eprint + AllocGlobal>(rt: &R, path: &str, text: &[u8], found: &PlantFault) {
    // What can't be shown for want of memory was printed as its line.
    let _ = show_explained(rt, path, text, found);
}

/// Shows the same, where there is memory for it.
fn show_explained<R: Eprint + AllocGlobal>(
    rt: &R,
    path: &str,
    text: &[u8],
    found: &PlantFault,
) -> Result<(), AllocError> {
    let shown = explain(rt.alloc(), path.as_bytes(), text, found)?;
    let _ = rt.eprint(str::from_utf8(&shown).unwrap_or(""));
    Ok(())
}
