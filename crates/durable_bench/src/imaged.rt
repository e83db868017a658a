//! A run on a new image: random choices that are fired and acknowledged.
use crate::command::{ImagePlan, Ring};
use crate::counted_file::{Asked, CountedFile};
use crate::course::next_number;
use disk_model::{CELL, Disk};
use file_disk::{FileDisk, NewFile};
use plant_core::Plant;
use plant_model::{Inputs, System};
use record_codec::ring::device_cells;
use recovery::{boot, format};
use run_text::RandomPicks;
use std::cell::Cell;
use std::fs;
use std::fs::{File, OpenOptions};
use std::rt::{Clock, Files};
use std::time::{Duration, Instant};

/// What came of a run on an image.
#[derive(Clone, Copy)]
pub(crate) struct DurableRun {
    pub(crate) course: DurableCourse,
    /// How many choices are acknowledged.
    pub(crate) acked: u64,
    /// What the run asked of the file.
    pub(crate) asked: Asked,
}

/// How a run went on.
#[derive(Clone, Copy)]
pub(crate) struct DurableCourse {
    /// How long it took, with all saves and trims.
    pub(crate) time: Duration,
    /// How many states of atoms were saved.
    pub(crate) saves: u64,
    /// How often records were trimmed.
    pub(crate) trims: u64,
    /// How long the saves and the trims took.
    pub(crate) room_time: Duration,
}

/// Runs the plant on a new image at the path. None where a file, the memory or the clock failed.
pub(crate) fn run_on_image<R: Clock + Files<File = File> + AllocGlobal>(
    rt: &R,
    system: &System,
    image: &str,
    plan: ImagePlan,
) -> Option<DurableRun> {
    make_image(rt, system, image, plan.way.ring)?;
    let asked = Cell::new(Asked::nothing());
    let disk = open_counted(rt, image, &asked)?;
    let Ok(mut plant) = boot(rt.alloc(), disk, system) else {
        return None;
    };
    asked.set(Asked::nothing());
    let course = fire_and_flush(rt, &mut plant, plan)?;
    Some(DurableRun {
        course,
        acked: plant.front().acked,
        asked: asked.get(),
    })
}

/// Formats a new file at the path, in place of any that is there.
fn make_image<R: Files<File = File> + AllocGlobal>(
    rt: &R,
    system: &System,
    image: &str,
    ring: Ring,
) -> Option<()> {
    system.keeps_its_rules();
    let bytes = CELL * device_cells(system.atoms().len() as u16, ring.records);
    let _ = fs::remove_file(rt, image);
    let new = NewFile::create(rt, image, bytes).ok()?;
    if format_new(rt, system, &new, ring).is_none() {
        new.give_up();
        return None;
    }
    new.take_name().ok()
}

/// Formats a new file.
fn format_new<R: Files<File = File> + AllocGlobal>(
    rt: &R,
    system: &System,
    new: &NewFile<'_, R>,
    ring: Ring,
) -> Option<()> {
    let disk = new.device().ok()?;
    match format(rt.alloc(), disk, system, ring.records) {
        Ok(_) => Some(()),
        Err(_) => None,
    }
}

/// The file at the path as a device. What is asked of it is counted outside.
fn open_counted<'a, R: Files<File = File> + AllocGlobal>(
    rt: &R,
    image: &str,
    asked: &'a Cell<Asked>,
) -> Option<FileDisk<CountedFile<'a>>> {
    let mut options = OpenOptions::new();
    options.read(true).write(true);
    let file = options.open(rt, image).ok()?;
    let bytes = file.metadata().ok()?.len();
    FileDisk::over(rt.alloc(), CountedFile { file, asked }, bytes).ok()
}

/// Fires as many choices as the plan says, each pick modulo how many there are, with a flush behind each batch of them. Where the ring has no room
/// for another batch, the atoms are saved and the records trimmed before it. It ends early if nothing is possible any more. None where a call
/// or the clock failed.
fn fire_and_flush<D: Disk, R: Clock>(
    rt: &R,
    plant: &mut Plant<'_, D>,
    plan: ImagePlan,
) -> Option<DurableCourse> {
    let mut picks = RandomPicks::new(plan.way.seed, plan.steps);
    let mut course = DurableCourse {
        time: Duration::ZERO,
        saves: 0,
        trims: 0,
        room_time: Duration::ZERO,
    };
    let start = Instant::now(rt).ok()?;
    for _batch in 0..plan.steps.div_ceil(plan.batch) {
        if !has_room(plant, plan.batch) {
            make_room(rt, plant, &mut course)?;
        }
        let fired = fire_batch(plant, &mut picks, plan.batch);
        plant.flush().ok()?;
        if fired < plan.batch {
            break;
        }
    }
    course.time = start.elapsed(rt).ok()?;
    Some(course)
}

/// Whether the ring has room for so many records more.
fn has_room<D: Disk>(plant: &Plant<'_, D>, more: u64) -> bool {
    let front = plant.front();
    let kept = front.fired.saturating_add(1).saturating_sub(front.base);
    kept.saturating_add(more) <= u64::from(plant.ring())
}

/// Fires choices by the picks, so many or as many as there are picks and choices, and says how many it fired.
fn fire_batch<D: Disk>(plant: &mut Plant<'_, D>, picks: &mut RandomPicks, batch: u64) -> u64 {
    for fired in 0..batch {
        match next_number(picks) {
            Some(number) if plant.fire(u128::from(number), &Inputs::none()).is_ok() => {}
            _ => return fired,
        }
    }
    batch
}

/// Saves all atoms that are behind and trims the records, and adds that to the course.
fn make_room<D: Disk, R: Clock>(
    rt: &R,
    plant: &mut Plant<'_, D>,
    course: &mut DurableCourse,
) -> Option<()> {
    let start = Instant::now(rt).ok()?;
    let saved = plant.save().ok()?;
    plant.trim().ok()?;
    let time = start.elapsed(rt).ok()?;
    let saves = u64::from(saved.atoms.count_ones());
    course.saves = course.saves.saturating_add(saves);
    course.trims = course.trims.saturating_add(1);
    course.room_time = course.room_time.saturating_add(time);
    Some(())
}
