//! The faults of a plant text behind its first one.
use line_faults::{MOST_FAULTS, blank_line, faults_of_text};
use plant_tasks::{PlantEnding, PlantEndingText, TaskPaths, tell_more};
use plant_text::PlantFault;
use std::alloc::AllocError;

/// Tells the first fault of each line of a text behind the one that has its first fault, which is told already: its line, and if `explains` what
/// more there is to tell. Where more lines than [`MOST_FAULTS`] have one, the last line says so. `path` is where the text is, as it is given.
pub(crate) fn tell_later_faults<R: Eprint + AllocGlobal>(
    rt: &R,
    paths: TaskPaths<'_>,
    path: &str,
    text: &[u8],
    explains: bool,
) {
    if tell_each(rt, paths, path, text, explains).is_err() {
        let _ = rt.eprint(PlantEndingText {
            ending: PlantEnding::Memory,
            paths,
        });
    }
}

/// Tells them, where there is memory for it.
fn tell_each<R: Eprint + AllocGlobal>(
    rt: &R,
    paths: TaskPaths<'_>,
    path: &str,
    text: &[u8],
    explains: bool,
) -> Result<(), AllocError> {
    let faults = faults_of_text(rt.alloc(), text, MOST_FAULTS + 1)?;
    // A fault is explained by the lines before it, of which those that are at fault count as empty.
    let mut rest = Vec::from_slice(rt.alloc(), text)?;
    for (place, found) in faults.iter().enumerate() {
        if found.line == 0 {
            break;
        }
        if place == MOST_FAULTS {
            let _ = eprintln!(rt;
                "more than {MOST_FAULTS} lines have a fault: the others are not told"
            );
            break;
        }
        if place > 0 {
            tell_one(rt, paths, path, &rest, *found, explains);
        }
        blank_line(&mut rest, found.line);
    }
    Ok(())
}

/// Tells one of them, by the text in which it is the first.
fn tell_one<R: Eprint + AllocGlobal>(
    rt: &R,
    paths: TaskPaths<'_>,
    path: &str,
    text: &[u8],
    found: PlantFault,
    explains: bool,
) {
    let _ = rt.eprint(PlantEndingText {
        ending: PlantEnding::Plant(found),
        paths,
    });
    if explains {
        tell_more(rt, PlantEnding::Plant(found), path, text, None);
    }
}
