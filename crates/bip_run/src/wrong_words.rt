//! What is told of words of the command line that name nothing of the plant, or can't be read.
use command_line::{Task, WatchKind, WatchWords, WeightWords, Work, shown_word};
use plant_tasks::{PlantEnding, tell_near_connector};
use run_watches::WatchFault;
use shown_fault::watch_advice;
use std::str;

/// Tells which of the words are wrong, as they are shown, where the program ends early for them; and if `explains` which name was perhaps meant. `text` is
/// the plant's. Where there is no memory to show a word, it is not told.
pub(crate) fn tell_wrong_words<R: Eprint + AllocGlobal>(
    rt: &R,
    work: &Work<'_>,
    ending: PlantEnding,
    text: &[u8],
    explains: bool,
) {
    let Work::OfPlant(task) = work else {
        return;
    };
    match ending {
        PlantEnding::NoAtom(place) => tell_no_atom(rt, task, place),
        PlantEnding::NoConnector(place) => tell_no_connector(rt, task, place, text, explains),
        PlantEnding::BadWatch { place, fault } => {
            tell_bad_watch(rt, task, place, fault);
            if explains {
                tell_watch_advice(rt, task, place, text);
            }
        }
        _ => {}
    }
}

/// Tells which of the names of atoms that are to be drawn is of no atom of the plant.
fn tell_no_atom<R: Eprint + AllocGlobal>(rt: &R, task: &Task<'_>, place: usize) {
    if let Task::Draw(drawing) = task
        && let Some(names) = &drawing.only
        && let Some(name) = names.get(place)
        && let Ok(name) = shown_word(rt.alloc(), name)
    {
        let _ = eprintln!(rt; "error: the plant has no atom '{name}', which '--only' names");
    }
}

/// Tells which of the weights is of no connector of the plant.
fn tell_no_connector<R: Eprint + AllocGlobal>(
    rt: &R,
    task: &Task<'_>,
    place: usize,
    text: &[u8],
    explains: bool,
) {
    if let Some(WeightWords { name, weight }) = weights_of(task).get(place) {
        if let Ok(name) = shown_word(rt.alloc(), name) {
            let _ = eprintln!(rt;
                "error: '--weight {name}={weight}': the plant has no connector '{name}'"
            );
        }
        if explains {
            tell_near_connector(rt, text, name.as_bytes());
        }
    }
}

/// Tells which of the words that a run is watched for can't be read, and why.
fn tell_bad_watch<R: Eprint + AllocGlobal>(
    rt: &R,
    task: &Task<'_>,
    place: usize,
    fault: WatchFault,
) {
    if let Some(WatchWords { kind, text }) = watches_of(task).get(place)
        && let Ok(text) = shown_word(rt.alloc(), text)
    {
        let option = match kind {
            WatchKind::Never => "--never",
            WatchKind::Until => "--until",
        };
        let _ = eprintln!(rt; "error: '{option} {text}': {fault}");
    }
}

/// Tells what can be done about the words that a run of a plant of this text is watched for.
fn tell_watch_advice<R: Eprint + AllocGlobal>(rt: &R, task: &Task<'_>, place: usize, text: &[u8]) {
    if let Some(words) = watches_of(task).get(place)
        && let Ok(advice) = watch_advice(rt.alloc(), text, words.text.as_bytes())
    {
        let _ = rt.eprint(str::from_utf8(&advice).unwrap_or(""));
    }
}

/// What the task watches a run for.
fn watches_of<'t, 'a>(task: &'t Task<'a>) -> &'t [WatchWords<'a>] {
    match task {
        Task::Trace(trace) => &trace.watches,
        Task::Summary(tally) => &tally.watches,
        _ => &[],
    }
}

/// The weights by which the task runs the plant.
fn weights_of<'t, 'a>(task: &'t Task<'a>) -> &'t [WeightWords<'a>] {
    match task {
        Task::Trace(trace) => &trace.weights,
        Task::Summary(tally) => &tally.weights,
        _ => &[],
    }
}
