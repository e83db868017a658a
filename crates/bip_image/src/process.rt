//! The program in its process: words, files, the standard output and error.
ghost use Rattle.std.specs.Prelude.{◌≡◌};
ghost use Rattle.bip_image.specs.Ending.{status_of};

use crate::alone::work_alone;
use crate::aside::Aside;
use crate::ending::{Ending, EndingText, More, Paths, ShownPaths};
use crate::looking::note_reason;
use crate::on_image::{script_at, work_on_image};
use crate::progress::ProgressLine;
use command_line::{Exploration, ImageTask, LoneTask, Request, Subject, Work, read_request};
use image_commands::{
    ImageEnding, ImageRefusal, MigrateEnding, MigrateRefusal, Progress, explore_plant,
};
use plant_core::Event;
use plant_model::System;
use plant_tasks::{
    PlantEnding, Watched, ended, plant_at, tell_file_failure, tell_more, tell_output_failure,
    words_of_process,
};
use std::alloc::Global;
use std::fs::File;
use std::io::{self, BufWriter, Write};
use std::rt::{Clock, Env, Files};
use std::sync::Wait;
use std::thread::Threads;

/// Does what the words of the command line ask for, and gives the exit status. If a terminal shows the standard error, it is printed there how far
/// a long task is, and more of a fault; of a fault also where the words ask for it.
pub(crate) fn run<
    R: Env
        + Files<File = File>
        + Input
        + Print
        + Eprint
        + Clock
        + AllocGlobal
        + Threads
        + Wait
        + Sync,
>(rt: &R, is_terminal: bool) -> u8 {
    match words_of_process(rt) {
        Ok(words) => answer(rt, words.as_slice(), is_terminal),
        Err(ending) => end(rt, Paths::none(), Err(Ending::OfPlant(ending))),
    }
}

/// Answers the words of the command line.
fn answer<
    R: Files<File = File> + Input + Print + Eprint + Clock + AllocGlobal + Threads + Wait + Sync,
>(rt: &R, words: &[String], is_terminal: bool) -> u8 {
    match read_request(rt, words) {
        Ok(request) => answer_request(rt, &request, is_terminal),
        Err(answered) => match ended(answered) {
            Ok(()) => 0,
            Err(ending) => end(rt, Paths::none(), Err(Ending::OfPlant(ending))),
        },
    }
}

/// Does what was asked for, prints why not if it ends early, and gives the exit status.
fn answer_request<
    R: Files<File = File> + Input + Print + Eprint + Clock + AllocGlobal + Threads + Wait + Sync,
>(rt: &R, request: &Request<'_>, is_terminal: bool) -> u8 {
    let (plant, paths) = match &request.subject {
        Subject::Plant(plant, work) => (*plant, Paths::of(plant, work)),
        Subject::Image(image, task) => ("", Paths::of_image(image, task)),
    };
    let Ok(paths) = ShownPaths::of(rt.alloc(), paths) else {
        return end(rt, Paths::none(), Err(Ending::OfPlant(PlantEnding::Memory)));
    };
    let paths = paths.lend();
    let mut aside = Aside::new(rt.alloc());
    let explains = is_terminal || request.explain;
    match work(rt, request, paths, is_terminal, &mut aside) {
        Ok(()) => 0,
        Err(ending) => tell_ending(rt, paths, &ending, plant, aside, explains),
    }
}

/// Tells why the program ends early, and what more there is to tell of it, and gives the exit status.
fn tell_ending<R: Eprint + AllocGlobal>(
    rt: &R,
    paths: Paths<'_>,
    ending: &Ending,
    plant: &str,
    aside: Aside,
    explains: bool,
) -> u8 {
    let status = end(rt, paths, Err(*ending));
    if aside.is_another {
        let _ = eprintln!(rt; "file {} is another file now", paths.image);
    }
    if explains {
        tell_all(rt, *ending, plant, aside);
    }
    status
}

/// Does what was asked for, where it is no task of the plant alone.
fn work<
    R: Files<File = File> + Input + Print + Eprint + Clock + AllocGlobal + Threads + Wait + Sync,
>(
    rt: &R,
    request: &Request<'_>,
    paths: Paths<'_>,
    is_terminal: bool,
    aside: &mut Aside,
) -> Result<(), Ending> {
    if let Subject::Plant(_, Work::OfPlant(_) | Work::ByHand(_)) = request.subject {
        let _ = eprintln!(rt; "error: a task of a plant alone is done by the program bip_run");
        return Err(Ending::OfPlant(PlantEnding::Usage));
    }
    let mut output = BufWriter::new(rt.alloc(), Watched::new(io::writer(rt))).map_err(
        |_| PlantEnding::Memory,
    )?;
    let ended = match &request.subject {
        Subject::Plant(plant, work) => {
            work_with(rt, plant, work, paths, is_terminal, &mut output, aside)
        }
        Subject::Image(image, task) => {
            let ended = work_alone(rt, image, *task, &mut output);
            if is_refused(&ended) {
                note_reason(rt, image, None, aside);
            }
            ended
        }
    };
    if let Some(error) = output.get_ref().failure() {
        aside.failure = Some(error);
    }
    ended
}

/// Does what was asked for with the plant whose text is at the path.
fn work_with<
    R: Files<File = File> + Input + Eprint + Clock + AllocGlobal + Threads + Wait + Sync,
    W: Write,
>(
    rt: &R,
    plant: &str,
    work: &Work<'_>,
    paths: Paths<'_>,
    is_terminal: bool,
    output: &mut W,
    aside: &mut Aside,
) -> Result<(), Ending> {
    let system = plant_at(rt, plant, &mut aside.text, &mut aside.failure)?;
    match work {
        Work::OfPlant(_) | Work::ByHand(_) => Err(Ending::OfPlant(PlantEnding::Usage)),
        Work::OnImage(image, task) => {
            let ended = work_on_image(rt, *task, paths, is_terminal, &system, image, output, aside);
            if is_refused(&ended) && !matches!(task, ImageTask::Format(_, _)) {
                note_reason(rt, image, Some(&system), aside);
            }
            if has_failed(&ended) {
                aside.is_another = aside.device.is_another_at(rt, image);
            }
            ended
        }
        Work::Explored(exploration) => {
            let events = script_at(rt, &system, exploration.script, paths, aside)?;
            let mut progress = ProgressLine::new(rt, is_terminal);
            explore(
                rt.alloc(),
                &system,
                exploration,
                &events,
                output,
                &mut progress,
            )
        }
    }
}

/// Whether an image is refused.
fn is_refused(ended: &Result<(), Ending>) -> bool {
    matches!(
        ended,
        Err(Ending::Image(ImageEnding::Refused(ImageRefusal::Image(_))))
    )
}

/// Whether the device of the image failed.
fn has_failed(ended: &Result<(), Ending>) -> bool {
    match ended {
        Err(Ending::Image(ImageEnding::Failed | ImageEnding::Refused(ImageRefusal::Disk))) => true,
        Err(Ending::Migrate(MigrateEnding::Refused(MigrateRefusal::Image(ImageRefusal::Disk)))) => {
            true
        }
        Err(Ending::Stopped(_, refusal)) => refusal.is_failure(),
        _ => false,
    }
}

/// Tells what a stop at each moment of a run leaves.
fn explore<W: Write, P: Progress>(
    alloc: Global,
    system: &System,
    exploration: &Exploration<'_>,
    events: &[Event],
    output: &mut W,
    progress: &mut P,
) -> Result<(), Ending> {
    let ring = exploration.ring.records;
    let explored = explore_plant(
        alloc,
        system,
        ring,
        events,
        exploration.list,
        output,
        progress,
    );
    progress.hide();
    if explored? == 0 {
        Ok(())
    } else {
        Err(Ending::NotRight)
    }
}

/// Prints more of an ending than its line: of a plant what [`tell_more`] prints, of a script its mistake or why it could not be read, why the output
/// takes nothing, of an image what is wrong with it, and of any other ending what it means.
fn tell_all<R: Eprint + AllocGlobal>(rt: &R, ending: Ending, plant: &str, aside: Aside) {
    match ending {
        Ending::OfPlant(ending) => tell_more(rt, ending, plant, &aside.text, aside.failure),
        Ending::ScriptUnread => tell_file_failure(rt, aside.failure),
        Ending::Image(ImageEnding::Unwritten) | Ending::Migrate(MigrateEnding::Unwritten) => {
            tell_output_failure(rt, aside.failure);
        }
        Ending::Image(ImageEnding::Failed) => tell_device_failure(rt, aside.device.failure.get()),
        Ending::Image(ImageEnding::Refused(ImageRefusal::Disk))
        | Ending::Migrate(MigrateEnding::Refused(MigrateRefusal::Image(ImageRefusal::Disk))) => {
            let _ = rt.eprint(More { ending });
            tell_device_failure(rt, aside.device.failure.get());
        }
        Ending::Migrate(MigrateEnding::Refused(MigrateRefusal::NewDisk)) => {
            let _ = rt.eprint(More { ending });
            tell_device_failure(rt, aside.made.failure.get());
        }
        Ending::Stopped(_, refusal) if refusal.is_failure() => {
            tell_device_failure(rt, aside.device.failure.get());
        }
        Ending::Script(_) if !aside.mistake.is_empty() => {
            let _ = rt.eprint(str::from_utf8(&aside.mistake).unwrap_or(""));
        }
        Ending::Image(ImageEnding::Refused(ImageRefusal::Image(_)))
        | Ending::Migrate(MigrateEnding::Refused(MigrateRefusal::NewSize)) => {
            let _ = rt.eprint(More { ending });
            let _ = rt.eprint(str::from_utf8(&aside.reason).unwrap_or(""));
        }
        Ending::Script(_)
        | Ending::ImageUnopened(_)
        | Ending::NewUnopened(_)
        | Ending::Migrate(_)
        | Ending::NotRight
        | Ending::Doubted
        | Ending::Careful
        | Ending::Stopped(_, _)
        | Ending::LongText => {
            let _ = rt.eprint(More { ending });
        }
    }
}

/// Tells why the device of an image failed.
fn tell_device_failure<R: Eprint>(rt: &R, failure: Option<io::Error>) {
    if let Some(failure) = failure {
        let _ = eprintln!(rt; "  the device failed: {failure}");
    }
}

/// Tells why the program ends early, where it does, and gives the exit status.
fn end<R: Eprint>(rt: &R, paths: Paths<'_>, ended: Result<(), Ending>) -> u8
    ensures { result ≡ status_of ended }
{
    match ended {
        Ok(()) => 0,
        Err(ending) => {
            let _ = rt.eprint(EndingText { ending, paths });
            ending.exit_status()
        }
    }
}
