//! The program in its process: words, files, the standard output and error.
ghost use Rattle.std.specs.Prelude.{◌≡◌};
ghost use Rattle.bip_run.specs.Status.{status_of};

use crate::asked::PlantRequest;
use crate::by_hand::step_typed;
use crate::later_faults::tell_later_faults;
use crate::paths::ShownPaths;
use crate::saving::{lead_to_one_file, perform_saving};
use crate::seed_line::SeedLine;
use crate::wrong_words::tell_wrong_words;
use command_line::{Request, Subject, Task, Work, is_standard_input, read_request};
use plant_model::System;
use plant_tasks::{
    PlantEnding, PlantEndingText, ReadPlant, TaskPaths, Watched, ended, judge_words, open_text,
    plant_at, tell_more, words_of_process,
};
use std::fs::File;
use std::io::{self, BufReader, BufWriter, Write};
use std::rt::{Env, Files};
use std::time::Clock;
use step_session::Mark;

/// Which ends of the process are a terminal.
#[derive(Clone, Copy)]
pub(crate) struct Terminals {
    /// The standard input: a person types lines. Else a program sends them.
    pub(crate) input: bool,
    /// The standard output: a person sees the answers.
    pub(crate) output: bool,
    /// The standard error: more of a fault than its line is printed there.
    pub(crate) told: bool,
}

impl Terminals {
    /// What tells who gives lines where an answer ends.
    fn mark(self) -> Mark {
        match (self.input, self.output) {
            (true, true) => Mark::Prompt,
            (true, false) => Mark::Nothing,
            (false, _) => Mark::End,
        }
    }
}

/// Does what the words of the command line ask for, and gives the exit status.
pub(crate) fn run<R: Env + Files<File = File> + Input + Print + Eprint + Clock + AllocGlobal>(
    rt: &R,
    terminals: Terminals,
) -> u8 {
    match words_of_process(rt) {
        Ok(words) => answer(rt, words.as_slice(), terminals),
        Err(ending) => end(rt, TaskPaths::of_plant(""), Err(ending)),
    }
}

/// Answers the words of the command line.
fn answer<R: Files<File = File> + Input + Print + Eprint + Clock + AllocGlobal>(
    rt: &R,
    words: &[String],
    terminals: Terminals,
) -> u8 {
    match read_request(rt, words) {
        Ok(request) => answer_request(rt, request, terminals),
        Err(answered) => end(rt, TaskPaths::of_plant(""), ended(answered)),
    }
}

/// Does what was asked for of a plant. What is asked for of an image alone is done by another program.
fn answer_request<R: Files<File = File> + Input + Print + Eprint + Clock + AllocGlobal>(
    rt: &R,
    request: Request<'_>,
    terminals: Terminals,
) -> u8 {
    let Request {
        subject,
        explain,
        all,
    } = request;
    match subject {
        Subject::Plant(plant, work) => {
            let request = PlantRequest {
                plant,
                work,
                explain,
                all,
            };
            serve(rt, &request, terminals)
        }
        Subject::Image(_, _) => end(rt, TaskPaths::of_plant(""), Err(refuse_image(rt))),
    }
}

/// Tells that a task on an image is done by another program.
fn refuse_image<R: Eprint>(rt: &R) -> PlantEnding {
    let _ = eprintln!(rt; "error: a task on an image is done by the program bip_image");
    PlantEnding::Usage
}

/// Does what was asked for, tells why not where it ends early, and gives the exit status. More is printed of an ending on a terminal, or if
/// the words ask for it.
fn serve<R: Files<File = File> + Input + Print + Eprint + Clock + AllocGlobal>(
    rt: &R,
    request: &PlantRequest<'_>,
    terminals: Terminals,
) -> u8 {
    let Ok(shown) = ShownPaths::of(rt.alloc(), request) else {
        return end(rt, TaskPaths::of_plant(""), Err(PlantEnding::Memory));
    };
    let paths = shown.lend();
    let mut text = Vec::new(rt.alloc());
    let mut failure = None;
    let explains = terminals.told || request.explain;
    match work(rt, request, paths.plant, terminals, &mut text, &mut failure) {
        Ok(()) => 0,
        Err(ending) => tell_ending(rt, request, paths, &ending, &text, failure, explains),
    }
}

/// Tells why the program ends early, and what more there is to tell of it, and gives the exit status.
fn tell_ending<R: Eprint + AllocGlobal>(
    rt: &R,
    request: &PlantRequest<'_>,
    paths: TaskPaths<'_>,
    ending: &PlantEnding,
    text: &[u8],
    failure: Option<io::Error>,
    explains: bool,
) -> u8 {
    let status = end(rt, paths, Err(*ending));
    tell_wrong_words(rt, &request.work, *ending, text, explains);
    if explains {
        tell_more(rt, *ending, request.plant, text, failure);
    }
    if let PlantEnding::Plant(first) = ending
        && request.all
        && first.line > 0
    {
        tell_later_faults(rt, paths, request.plant, text, explains);
    }
    status
}

/// Does what was asked for, where it needs no image. The text of the plant, which is shown so, is put into `text`, and a failure of the system
/// into `failure`.
fn work<R: Files<File = File> + Input + Print + Eprint + Clock + AllocGlobal>(
    rt: &R,
    request: &PlantRequest<'_>,
    shown: &str,
    terminals: Terminals,
    text: &mut Vec<u8>,
    failure: &mut Option<io::Error>,
) -> Result<(), PlantEnding> {
    if let Work::OnImage(_, _) | Work::Explored(_) = request.work {
        return Err(refuse_image(rt));
    }
    if saves_over_what_is_read(rt, request) {
        let _ = eprintln!(rt;
            "error: '--save-picks' leads to the file from which the plant or the picks are read"
        );
        return Err(PlantEnding::Usage);
    }
    let mut output = BufWriter::new(rt.alloc(), Watched::new(io::writer(rt))).map_err(
        |_| PlantEnding::Memory,
    )?;
    let system = plant_at(rt, request.plant, text, failure)?;
    let plant = ReadPlant {
        system: &system,
        text: text.as_slice(),
        path: shown,
    };
    let ended = work_on(rt, request, &plant, terminals, &mut output, failure);
    if let Err(PlantEnding::Unwritten) = ended {
        *failure = output.get_ref().failure();
    }
    ended
}

/// Whether what is fired would be saved in the file of the plant or of the picks. Where their paths are written alike, the words of the command line
/// were refused before.
fn saves_over_what_is_read<R: Files>(rt: &R, request: &PlantRequest<'_>) -> bool {
    let Some(saved) = request.work.saved() else {
        return false;
    };
    let leads_to = |path: &str| !is_standard_input(path) && lead_to_one_file(rt, saved, path);
    leads_to(request.plant) || request.work.input().is_some_and(leads_to)
}

/// Does what was asked for with a plant that was read.
fn work_on<R: Files<File = File> + Input + Eprint + Clock + AllocGlobal, W: Write>(
    rt: &R,
    request: &PlantRequest<'_>,
    plant: &ReadPlant<'_>,
    terminals: Terminals,
    output: &mut W,
    failure: &mut Option<io::Error>,
) -> Result<(), PlantEnding> {
    match &request.work {
        Work::OfPlant(task) => work_by(rt, request, task, plant, terminals, output, failure),
        Work::ByHand(recording) => step_typed(
            rt,
            request.plant,
            *recording,
            plant,
            terminals.mark(),
            output,
            failure,
        ),
        Work::OnImage(_, _) | Work::Explored(_) => Err(PlantEnding::Usage),
    }
}

/// Does a task of the plant alone, once the words by which a run is watched and weighted can be read, and what it reads beside the plant is open. On a
/// terminal a line shows how far the runs of seeds have come.
fn work_by<R: Files<File = File> + Input + Eprint + Clock + AllocGlobal, W: Write>(
    rt: &R,
    request: &PlantRequest<'_>,
    task: &Task<'_>,
    plant: &ReadPlant<'_>,
    terminals: Terminals,
    output: &mut W,
    failure: &mut Option<io::Error>,
) -> Result<(), PlantEnding> {
    judge_words(rt.alloc(), task, plant)?;
    let saved = request.work.saved();
    let mut line = SeedLine::of(rt, task, terminals.told);
    let Some(path) = request.work.input() else {
        let none = io::empty();
        let ended = perform_saving(rt, task, plant, none, output, saved, &mut line, failure);
        line.clear();
        return ended;
    };
    let Some(reader) = open_text(rt, path, failure) else {
        return Err(PlantEnding::InputUnread);
    };
    let mut input = BufReader::new(rt.alloc(), reader).map_err(|_| PlantEnding::Memory)?;
    let ended = perform_saving(
        rt, task, plant, &mut input, output, saved, &mut line, failure,
    );
    if let Err(PlantEnding::InputUnread) = ended {
        *failure = input.get_ref().failure();
    }
    ended
}

/// Tells why the program ends early, where it does, and gives the exit status.
fn end<R: Eprint>(rt: &R, paths: TaskPaths<'_>, ended: Result<(), PlantEnding>) -> u8
    ensures { result ≡ status_of ended }
{
    match ended {
        Ok(()) => 0,
        Err(ending) => {
            let _ = rt.eprint(PlantEndingText { ending, paths });
            ending.exit_status()
        }
    }
}
