//! What is measured and printed for each task.
use crate::booting::{time_boot, time_read};
use crate::command::{Crew, ImagePlan};
use crate::course::Course;
use crate::imaged::run_on_image;
use crate::opening::{Fired, Read, atoms_of, fire_and_read, fire_both, fire_shared, first_plant};
use crate::report::{Ratio, Seconds, rate};
use crate::stepping::{Presence, time_steps};
use crate::working::{Plan, Way};
use bare_disk::BareDisk;
use engine_host::name;
use plant_model::System;
use std::fs::File;
use std::marker::Brand;
use std::rt::{Clock, Files};
use std::sync::Wait;
use std::thread::Threads;

/// Prints how fast a plant fires alone and under a host, if nothing failed.
pub(crate) fn print_firing<R: Clock + Print + Wait + AllocGlobal>(
    rt: &R,
    system: &System,
    steps: u64,
) -> Option<()> {
    let fired = measure_firing(rt, system, steps)?;
    println!(rt;
        "steps {} alone_per_s {} hosted_per_s {} hosted_to_alone {}",
        fired.hosted.fired,
        fired.alone.rate(),
        fired.hosted.rate(),
        Ratio {
            of: fired.hosted.rate(),
            to: fired.alone.rate()
        }
    )
    .ok()
}

/// Prints how fast a seat fires, alone and while others read, and how fast they do, if nothing failed.
pub(crate) fn print_reading<R: Clock + Print + Threads + Wait + Sync + AllocGlobal>(
    rt: &R,
    system: &System,
    steps: u64,
) -> Option<()> {
    let read = measure_reading(rt, system, steps)?;
    println!(rt;
        "steps {} alone_per_s {} watched_per_s {} watched_to_alone {} reads_per_s {}",
        read.watched.course.fired,
        read.alone.rate(),
        read.watched.course.rate(),
        Ratio {
            of: read.watched.course.rate(),
            to: read.alone.rate()
        },
        read.watched.reads
    )
    .ok()
}

/// Fires a plant alone and one under a host, if nothing failed.
fn measure_firing<R: Clock + Wait + AllocGlobal>(
    rt: &R,
    system: &System,
    steps: u64,
) -> Option<Fired> {
    let Some(alone) = first_plant(rt.alloc(), system) else {
        return None;
    };
    let Some(plant) = first_plant(rt.alloc(), system) else {
        return None;
    };
    let Ok(named) = name(rt.alloc(), &plant, 1) else {
        return None;
    };
    fire_both::<BareDisk, Brand, R>(rt, rt.alloc(), alone, named, plant, steps)
}

/// Fires a plant under a host, alone and while others read, if nothing failed.
fn measure_reading<R: Clock + Threads + Wait + Sync + AllocGlobal>(
    rt: &R,
    system: &System,
    steps: u64,
) -> Option<Read> {
    let Some(plant) = first_plant(rt.alloc(), system) else {
        return None;
    };
    let Ok(named) = name(rt.alloc(), &plant, 1) else {
        return None;
    };
    fire_and_read::<BareDisk, Brand, R>(rt, rt.alloc(), named, plant, steps)
}

/// Prints how fast threads with a seat each fire together, with the updates outside of the lock and then under it, if nothing failed.
pub(crate) fn print_working<R: Clock + Print + Threads + Wait + Sync + AllocGlobal>(
    rt: &R,
    system: &System,
    steps: u64,
    crew: Crew,
) -> Option<()> {
    let work = measure_working(rt, system, steps, crew, Way::Work)?;
    let fire = measure_working(rt, system, steps, crew, Way::Fire)?;
    println!(rt;
        "steps {} threads {} work_per_s {} fire_per_s {} work_to_fire {}",
        work.fired,
        crew.threads,
        work.rate(),
        fire.rate(),
        Ratio {
            of: work.rate(),
            to: fire.rate()
        }
    )
    .ok()
}

/// Fires about so many choices of a plant in this way, by as many threads as the crew has, if nothing failed.
fn measure_working<R: Clock + Threads + Wait + Sync + AllocGlobal>(
    rt: &R,
    system: &System,
    steps: u64,
    crew: Crew,
    way: Way,
) -> Option<Course> {
    let plan = Plan {
        way,
        atoms: atoms_of(system),
        choices: steps / crew.threads as u64,
        attempts: steps,
    };
    let Some(plant) = first_plant(rt.alloc(), system) else {
        return None;
    };
    let Ok(named) = name(rt.alloc(), &plant, crew.threads) else {
        return None;
    };
    fire_shared::<BareDisk, Brand, R>(rt, rt.alloc(), named, plant, plan)
}

/// Prints how fast a plant that keeps no record fires, with all atoms there or with atoms away half of the time, if nothing failed.
pub(crate) fn print_stepping<R: Clock + Print + AllocGlobal>(
    rt: &R,
    system: &System,
    steps: u64,
    presence: Presence,
) -> Option<()> {
    let course = time_steps(rt, system, steps, presence)?;
    println!(rt;
        "steps {} {}_per_s {}",
        course.fired,
        presence.word(),
        course.rate()
    )
    .ok()
}

/// Runs the plant on a new image, and prints what came of it, if nothing failed.
pub(crate) fn print_durable<R: Clock + Files<File = File> + Print + AllocGlobal>(
    rt: &R,
    system: &System,
    image: &str,
    plan: ImagePlan,
) -> Option<()> {
    let run = run_on_image(rt, system, image, plan)?;
    println!(rt;
        "acked {} seconds {} steps_per_s {} syncs {} writes {} bytes {} saves {} trims {} save_seconds {}",
        run.acked,
        Seconds(run.course.time),
        rate(run.acked, run.course.time.as_nanos()),
        run.asked.syncs,
        run.asked.writes,
        run.asked.bytes,
        run.course.saves,
        run.course.trims,
        Seconds(run.course.room_time)
    )
    .ok()
}

/// Boots the image, and prints how long that took beside a read of its file, and where the plant was after it, if nothing failed.
pub(crate) fn print_boot<R: Clock + Files<File = File> + Print + Threads + Sync + AllocGlobal>(
    rt: &R,
    system: &System,
    image: &str,
    crew: Crew,
) -> Option<()> {
    let boot = time_boot(rt, system, image, crew)?;
    let read = time_read(rt, image)?;
    println!(rt;
        "records {} seconds {} read {} front {} {} {}",
        boot.records(),
        Seconds(boot.time),
        Seconds(read),
        boot.front.fired,
        boot.front.acked,
        boot.front.base
    )
    .ok()
}
