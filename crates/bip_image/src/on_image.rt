//! A task of a plant on its image.
ghost use Rattle.std.specs.Prelude.{◌≤◌, length, OnOk};
ghost use Rattle.text_io.specs.declared.reading.TheConstants.{MAX_TEXT};

use crate::aside::{Aside, Noted};
use crate::ending::{Ending, Paths};
use crate::files::{Place, device_at, device_to_read, finish, place_at, room_for_line, shared_at};
use crate::looking::{inspect, looked_into, note_sizes};
use crate::script::read_events;
use crate::watched_disk::WatchedDisk;
use crate::workers_line::WorkersLine;
use command_line::{Asking, Care, IfThere, ImageTask, RingLength, WorkerCount};
use disk_model::Disk;
use file_disk::{FileDisk, ImageFile, NewFile};
use image_commands::{
    ImageEnding, booted, format_image, image_bytes, migrate_image, recover_image, run_image,
    run_image_strictly,
};
use part_lines::rule_lines;
use plant_core::Event;
use plant_model::{PlantState, System};
use plant_service::{ServiceEnding, serve_image};
use plant_tasks::{PlantEnding, Watched, open_text};
use restated_text::print_restated;
use script_lines::{
    ScriptLine, Stop, column_of_mistake, line_of_event, line_with, print_placed_mistake, read_line,
};
use std::alloc::Global;
use std::fs::File;
use std::io::{BufReader, Write};
use std::rt::{Clock, Files};
use std::sync::Wait;
use std::thread::Threads;
use text_io::hand_on;
use worker_runs::run_by_workers;

/// Does a task of the plant on its image, the file at the path.
pub(crate) fn work_on_image<
    R: Files<File = File> + Input + Eprint + Clock + AllocGlobal + Threads + Wait + Sync,
    W: Write,
>(
    rt: &R,
    task: ImageTask<'_>,
    paths: Paths<'_>,
    is_terminal: bool,
    system: &System,
    image: &str,
    output: &mut W,
    aside: &mut Aside,
) -> Result<(), Ending> {
    match task {
        ImageTask::Format(ring, if_there) => {
            format(rt, system, ring, if_there, image, output, aside)?;
        }
        ImageTask::Run(script, asking, care) => {
            let events = script_at(rt, system, script, paths, aside)?;
            run_events(
                rt,
                is_terminal,
                system,
                &events,
                asking,
                care,
                image,
                output,
                aside,
            )?;
        }
        ImageTask::Serve(care) => serve(rt, system, care, image, output, aside)?,
        ImageTask::Recover(care) => recover(rt, system, care, image, output, aside)?,
        ImageTask::Inspect(inspection) => {
            inspect(rt, image, Some(system), inspection, output)?;
        }
        ImageTask::Restate => restate(rt, system, image, output, aside)?,
        ImageTask::Migrate(made, ring) => migrate(rt, system, ring, image, made, output, aside)?,
    }
    Ok(())
}

// Each task has a frame of its own, so that none needs the stack of the plants and the devices of the others.

/// Formats the file at the path for the plant.
#[inline(never)]
fn format<R: Files<File = File> + AllocGlobal, W: Write>(
    rt: &R,
    system: &System,
    ring: RingLength,
    if_there: IfThere,
    image: &str,
    output: &mut W,
    aside: &mut Aside,
) -> Result<(), Ending> {
    let bytes = image_bytes(system, ring.records);
    let mut said = room_for_line(rt.alloc())?;
    match place_at(rt, image, bytes, if_there).map_err(Ending::of_image_file)? {
        Place::There(disk) => format_there(rt.alloc(), system, ring, disk, bytes, output, aside),
        Place::New(new) => {
            let made = format_new(rt.alloc(), system, ring, &new, &mut said, aside);
            finish(new, made, Ending::of_image_file, &said, output)
        }
    }
}

/// Formats a file that is there.
fn format_there<R: Files<File = File> + AllocGlobal, W: Write>(
    alloc: Global,
    system: &System,
    ring: RingLength,
    disk: FileDisk<ImageFile<'_, R>>,
    bytes: u64,
    output: &mut W,
    aside: &mut Aside,
) -> Result<(), Ending> {
    let mut disk = disk;
    note_sizes(alloc, disk.size(), bytes, &mut aside.reason);
    format_image(
        alloc,
        system,
        ring.records,
        WatchedDisk::new(disk, &aside.device),
        output,
    )?;
    Ok(())
}

/// Formats a new file.
fn format_new<R: Files<File = File> + AllocGlobal, W: Write>(
    alloc: Global,
    system: &System,
    ring: RingLength,
    new: &NewFile<'_, R>,
    output: &mut W,
    aside: &Aside,
) -> Result<(), Ending> {
    let disk = new.device().map_err(Ending::of_image_file)?;
    format_image(
        alloc,
        system,
        ring.records,
        WatchedDisk::new(disk, &aside.device),
        output,
    )?;
    Ok(())
}

/// Prints where the plant stands by its image.
#[inline(never)]
fn recover<R: Files<File = File> + Eprint + AllocGlobal + Threads + Sync, W: Write>(
    rt: &R,
    system: &System,
    care: Care,
    image: &str,
    output: &mut W,
    aside: &Aside,
) -> Result<(), Ending> {
    let disk = looked_into(rt, system, device_at(rt, image, &aside.device)?, care)?;
    recover_image(rt, rt.alloc(), system, disk, output)?;
    Ok(())
}

/// Brings the image of the first layout at the path over to a new one, the file at the other path.
#[inline(never)]
fn migrate<R: Files<File = File> + AllocGlobal + Threads + Sync, W: Write>(
    rt: &R,
    system: &System,
    ring: RingLength,
    image: &str,
    made: &str,
    output: &mut W,
    aside: &mut Aside,
) -> Result<(), Ending> {
    // The old image is open, and locked, before anything is done to the new one.
    let old = device_to_read(rt, image, &aside.device)?;
    migrate_from(
        rt,
        system,
        ring,
        old,
        made,
        output,
        &aside.made,
        &mut aside.reason,
    )
}

/// Brings the old image over to the file at the path.
fn migrate_from<R: Files<File = File> + AllocGlobal + Threads + Sync, W: Write>(
    rt: &R,
    system: &System,
    ring: RingLength,
    old: WatchedDisk<'_, '_, R>,
    made: &str,
    output: &mut W,
    noted: &Noted,
    reason: &mut Vec<u8>,
) -> Result<(), Ending> {
    let bytes = image_bytes(system, ring.records);
    let mut said = room_for_line(rt.alloc())?;
    match place_at(rt, made, bytes, IfThere::Formatted).map_err(Ending::of_new_file)? {
        Place::There(disk) => {
            let mut disk = disk;
            note_sizes(rt.alloc(), disk.size(), bytes, reason);
            migrate_to(rt, system, ring, old, disk, output, noted)
        }
        Place::New(new) => {
            let made = match new.device() {
                Ok(disk) => migrate_to(rt, system, ring, old, disk, &mut said, noted),
                Err(fault) => Err(Ending::of_new_file(fault)),
            };
            finish(new, made, Ending::of_new_file, &said, output)
        }
    }
}

/// Brings the old image over to the new device.
fn migrate_to<R: Files<File = File> + AllocGlobal + Threads + Sync, W: Write>(
    rt: &R,
    system: &System,
    ring: RingLength,
    old: WatchedDisk<'_, '_, R>,
    disk: FileDisk<ImageFile<'_, R>>,
    output: &mut W,
    noted: &Noted,
) -> Result<(), Ending> {
    let new = WatchedDisk::new(disk, noted);
    migrate_image(rt, rt.alloc(), system, ring.records, old, new, output)?;
    Ok(())
}

/// Runs the plant on its image by the events: they are asked one after another and answered, to the last or to the first that is refused, or are
/// shared by so many workers. The script that asks for them was put aside.
#[inline(never)]
fn run_events<
    R: Files<File = File> + Eprint + Clock + AllocGlobal + Threads + Wait + Sync,
    W: Write,
>(
    rt: &R,
    is_terminal: bool,
    system: &System,
    events: &[Event],
    asking: Asking,
    care: Care,
    image: &str,
    output: &mut W,
    aside: &Aside,
) -> Result<(), Ending>
    requires { length aside.now.script.items ≤ MAX_TEXT }
{
    let alloc = rt.alloc();
    match asking {
        Asking::InTurn => {
            let disk = looked_into(rt, system, device_at(rt, image, &aside.device)?, care)?;
            run_image(rt, alloc, system, events, disk, output)?;
        }
        Asking::Strict => {
            let disk = looked_into(rt, system, device_at(rt, image, &aside.device)?, care)?;
            let run = run_image_strictly(rt, alloc, system, events, disk, output)?;
            if let Some(Stop { place, refusal }) = run.stop {
                return Err(Ending::Stopped(line_in(&aside.script, place), refusal));
            }
        }
        Asking::Shared(WorkerCount { workers }) => {
            // A device that threads share does not note why it fails.
            let disk = looked_into(rt, system, shared_at(rt, image, &aside.device)?, care)?;
            let progress = WorkersLine::new(rt, events.len(), is_terminal);
            run_by_workers(
                rt,
                alloc,
                system,
                events,
                usize::from(workers),
                disk,
                output,
                &progress,
            )?;
            // No thread can look at the path, so it is looked at once they have ended.
            if aside.device.is_another_at(rt, image) {
                return Err(Ending::Image(ImageEnding::Failed));
            }
        }
    }
    Ok(())
}

/// Serves the plant on its image by the lines of the standard input. A failure of that is put aside.
#[inline(never)]
fn serve<R: Files<File = File> + Input + Eprint + AllocGlobal + Threads + Sync, W: Write>(
    rt: &R,
    system: &System,
    care: Care,
    image: &str,
    output: &mut W,
    aside: &mut Aside,
) -> Result<(), Ending> {
    let alloc = rt.alloc();
    let lines = rule_lines(alloc, &aside.text).map_err(|_| PlantEnding::Memory)?;
    let mut input = BufReader::new(alloc, Watched::new(rt.reader())).map_err(
        |_| PlantEnding::Memory,
    )?;
    let disk = looked_into(rt, system, device_at(rt, image, &aside.device)?, care)?;
    let Err(ending) = serve_image(rt, alloc, system, &lines, disk, &mut input, output) else {
        return Ok(());
    };
    if ending == ServiceEnding::Unread {
        aside.failure = input.get_ref().failure();
    }
    Err(ending.into())
}

/// The number of the line of the script that asks for the event with this place; 0 where there is none.
fn line_in(script: &[u8], place: usize) -> u32
    requires { length script.now ≤ MAX_TEXT }
{
    line_of_event(script, place).unwrap_or(0)
}

/// Prints the plant's text with the state that the image stands for as its first one.
#[inline(never)]
fn restate<R: Files<File = File> + AllocGlobal + Threads + Sync, W: Write>(
    rt: &R,
    system: &System,
    image: &str,
    output: &mut W,
    aside: &Aside,
) -> Result<(), Ending> {
    let alloc = rt.alloc();
    let mut states = PlantState::init(alloc, system).map_err(|_| PlantEnding::Memory)?;
    let disk = device_at(rt, image, &aside.device)?;
    let plant = match booted(rt, alloc, system, disk) {
        Ok(plant) => plant,
        Err(refusal) => return Err(Ending::Image(ImageEnding::Refused(refusal))),
    };
    system.keeps_its_rules();
    plant.show(&mut states);
    print_restated(alloc, &aside.text, &states, output)?;
    hand_on(output).map_err(|_| ImageEnding::Unwritten)?;
    Ok(())
}

/// The events that the script at the path asks of a plant of the system. A failure of its file and its text are put aside, and what is said of its
/// mistake too, if it has one.
pub(crate) fn script_at<R: Files<File = File> + Input + AllocGlobal>(
    rt: &R,
    system: &System,
    path: &str,
    paths: Paths<'_>,
    aside: &mut Aside,
) -> Result<Vec<Event>, Ending>
    ensures short { OnOk result (length aside.new.script.items ≤ MAX_TEXT) }
{
    let Some(mut reader) = open_text(rt, path, &mut aside.failure) else {
        return Err(Ending::ScriptUnread);
    };
    let events = read_events(rt.alloc(), system, &mut reader, &mut aside.script);
    aside.failure = reader.failure();
    if let Err(Ending::Script(line)) = events {
        show_mistake(system, paths.script, line, aside);
    }
    events
}

/// Puts aside what is said of the mistake of the script, which stands at the path, in the line with the number. For want of memory it stays untold.
fn show_mistake(system: &System, path: &str, number: u32, aside: &mut Aside) {
    let Some(line) = line_with(&aside.script, number) else {
        return;
    };
    if let ScriptLine::Mistaken(mistake) = read_line(system, line) {
        let column = column_of_mistake(system, line, mistake);
        let mut shown = Vec::new(aside.alloc);
        if print_placed_mistake(
            system,
            path.as_bytes(),
            number,
            column,
            line,
            mistake,
            &mut shown,
        )
        .is_ok()
        {
            aside.mistake = shown;
        }
    }
}
