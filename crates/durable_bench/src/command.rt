//! The words of the command line.
ghost use Rattle.std.specs.Prelude.{◌≤◌};
ghost use Rattle.parallel_replay.specs.declared.workers.TheConstants.{MOST_WORKERS};
ghost use Rattle.record_codec.specs.declared.layout.TheConstants.{LEAST_RING, MOST_RING};

use crate::stepping::Presence;
use plant_core::MOST_TAIL;
use plant_words::read_decimal;
use record_codec::{LEAST_RING, MOST_RING};
use recovery::MOST_WORKERS;

/// What is printed where the words ask for nothing that the program does.
pub(crate) const USAGE: &str =
    "durable_bench fire PLANT STEPS          fires random choices of a durable plant, alone and through a seat of a host, in turns
durable_bench front PLANT STEPS         fires them through a seat, alone and while four threads read how far the plant is
durable_bench work PLANT STEPS THREADS  threads with a seat each fire them, the updates outside the lock and then under it
durable_bench there PLANT STEPS         fires random choices of a plant that keeps no record, with all atoms there
durable_bench away PLANT STEPS          the same with atoms away half of the time: of two choices one begins, and the other is fired meanwhile
durable_bench durable PLANT IMAGE STEPS BATCH ..  fires them on a new image, with a flush behind each BATCH of them: what is acknowledged,
                                        and what the file was asked for; .. is any of --ring N (4096) and --seed N (7)
durable_bench boot PLANT IMAGE [THREADS]  boots the image by THREADS workers (1), and reads its file once: records, seconds, front
PLANT is a file, or - for the standard input; IMAGE is a file. STEPS, THREADS (1 to 16), BATCH (1 to 64, and no longer than the ring) and N are in
digits.
";

/// The seed of a run on an image for which the words say none.
const SEED: u64 = 7;

/// How many threads do a task: 1 to [`MOST_WORKERS`].
#[derive(Clone, Copy)]
pub(crate) struct Crew {
    pub(crate) threads: usize,
    ghost some: { 1 ≤ threads },
    ghost few: { threads ≤ MOST_WORKERS },
}

/// For how many records an image has room: [`LEAST_RING`] to [`MOST_RING`].
#[derive(Clone, Copy)]
pub(crate) struct Ring {
    pub(crate) records: u32,
    ghost least: { LEAST_RING ≤ records },
    ghost most: { records ≤ MOST_RING },
}

/// A run on an image.
#[derive(Clone, Copy)]
pub(crate) struct ImagePlan {
    /// How many choices are fired.
    pub(crate) steps: u64,
    /// How many of them are acknowledged together.
    pub(crate) batch: u64,
    pub(crate) way: ImageWay,
    ghost some: { 1 ≤ batch },
}

/// How a run on an image goes.
#[derive(Clone, Copy)]
pub(crate) struct ImageWay {
    pub(crate) ring: Ring,
    /// The seed of the picks.
    pub(crate) seed: u64,
}

/// What is measured.
#[derive(Clone, Copy)]
pub(crate) enum Task<'a> {
    /// Firing so many choices alone and under a host.
    Fire(u64),
    /// Firing so many choices under a host, alone and while others read.
    Front(u64),
    /// Firing so many choices by threads together.
    Work(u64, Crew),
    /// Firing so many choices of a plant that keeps no record.
    Step(u64, Presence),
    /// A run on a new image at the path.
    Durable(&'a str, ImagePlan),
    /// Booting the image at the path.
    Boot(&'a str, Crew),
}

/// A task, and where the text of its plant stands.
#[derive(Clone, Copy)]
pub(crate) struct Command<'a> {
    pub(crate) task: Task<'a>,
    pub(crate) plant: &'a str,
}

/// What the words ask for, the program's own name first.
pub(crate) fn read_command<'a>(words: &'a [String]) -> Option<Command<'a>> {
    let [_, first, plant, others @ ..] = words else {
        return None;
    };
    let task = match first.as_str() {
        "durable" => read_durable(others)?,
        "boot" => read_boot(others)?,
        "work" => read_work(others)?,
        name => read_alone(name, others)?,
    };
    Some(Command {
        task,
        plant: plant.as_str(),
    })
}

/// A run on an image, as the words behind the plant ask for it.
fn read_durable<'a>(words: &'a [String]) -> Option<Task<'a>> {
    let [image, steps, batch, options @ ..] = words else {
        return None;
    };
    let steps = read_number(steps)?;
    let batch = read_number(batch)?;
    let usual = ImageWay {
        ring: Ring { records: MOST_RING },
        seed: SEED,
    };
    let way = way_by(options, usual)?;
    if batch < 1 || batch > MOST_TAIL as u64 || batch > u64::from(way.ring.records) {
        return None;
    }
    Some(Task::Durable(image, ImagePlan { steps, batch, way }))
}

/// The way with what these words say in place of what it says.
fn way_by(words: &[String], way: ImageWay) -> Option<ImageWay> {
    match words {
        [] => Some(way),
        [name, number, others @ ..] => {
            let number = read_number(number)?;
            match name.as_str() {
                "--ring" => way_by(
                    others,
                    ImageWay {
                        ring: ring_of(number)?,
                        ..way
                    },
                ),
                "--seed" => way_by(
                    others,
                    ImageWay {
                        seed: number,
                        ..way
                    },
                ),
                _ => None,
            }
        }
        _ => None,
    }
}

/// A ring of so many records.
fn ring_of(records: u64) -> Option<Ring> {
    if records < u64::from(LEAST_RING) || records > u64::from(MOST_RING) {
        return None;
    }
    Some(Ring {
        records: records as u32,
    })
}

/// A boot, as the words behind the plant ask for it.
fn read_boot<'a>(words: &'a [String]) -> Option<Task<'a>> {
    match words {
        [image] => Some(Task::Boot(image, Crew { threads: 1 })),
        [image, threads] => Some(Task::Boot(image, read_crew(threads)?)),
        _ => None,
    }
}

/// Threads that fire together, as the words behind the plant ask for them.
fn read_work<'a>(words: &'a [String]) -> Option<Task<'a>> {
    let [steps, threads] = words else {
        return None;
    };
    Some(Task::Work(read_number(steps)?, read_crew(threads)?))
}

/// The task with this name that needs no more than how many steps it makes.
fn read_alone<'a>(name: &str, words: &'a [String]) -> Option<Task<'a>> {
    let [steps] = words else {
        return None;
    };
    task_alone(name, read_number(steps)?)
}

/// The number that the word writes.
fn read_number(word: &str) -> Option<u64> {
    read_decimal(word.as_bytes())
}

/// As many threads as the word says.
fn read_crew(word: &str) -> Option<Crew> {
    let threads = read_number(word)?;
    if threads < 1 || threads > MOST_WORKERS as u64 {
        return None;
    }
    Some(Crew {
        threads: threads as usize,
    })
}

/// The task with this name, of so many steps.
fn task_alone<'a>(name: &str, steps: u64) -> Option<Task<'a>> {
    match name {
        "fire" => Some(Task::Fire(steps)),
        "front" => Some(Task::Front(steps)),
        "there" => Some(Task::Step(steps, Presence::AllThere)),
        "away" => Some(Task::Step(steps, Presence::HalfAway)),
        _ => None,
    }
}
