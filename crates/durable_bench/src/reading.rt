//! Threads that read how far a plant is, while another fires.
use crate::course::{Course, fire_all};
use crate::report::rate;
use disk_model::Disk;
use engine_host::{Entry, Host, Naming, Seat};
use front_word::Watch;
use std::alloc::{AllocError, Global};
use std::rt::Clock;
use std::sync::Wait;
use std::sync::atomic::{AtomicBool, Ordering};
use std::thread::{Threads, join, map_vec};
use std::time::Instant;

/// How many threads read.
const READERS: usize = 4;

/// What one thread fires while others read, and whether it is done.
#[derive(Drop)]
struct Job {
    steps: u64,
    /// How many atoms the plant has.
    atoms: u16,
    is_done: AtomicBool,
}

/// Reads until the job is done, and says how often.
fn read_until_done<D: Disk, N: Naming>(
    host: &Host<'_, D, N>,
    mut watch: Watch<Entry, N>,
    job: &Job,
) -> u64 {
    for reads in 0..u64::MAX {
        if job.is_done.load(Ordering::SeqCst) {
            return reads;
        }
        let _ = host.front(&mut watch);
    }
    u64::MAX
}

/// Each watch is read in a thread of its own until the job is done: how often, all of them together.
fn read_all<D: Disk + Send, N: Naming + Send + Sync, R: Threads + Sync>(
    rt: &R,
    host: &Host<'_, D, N>,
    watches: Vec<Watch<Entry, N>>,
    job: &Job,
) -> Result<u64, AllocError> {
    let reads = map_vec(
        rt,
        watches,
        &|watch: Watch<Entry, N>| { read_until_done(host, watch, job) },
    )?;
    let mut all = 0u64;
    for count in reads {
        all = all.saturating_add(count);
    }
    Ok(all)
}

/// Does the job through the seat, and says so when it is done. None where the clock failed.
fn fire_and_tell<D: Disk, N: Naming, R: Clock + Wait>(
    rt: &R,
    host: &Host<'_, D, N>,
    mut seat: Seat<N>,
    job: &Job,
) -> Option<Course> {
    let course = fire_all(rt, host, &mut seat, job.atoms, job.steps);
    job.is_done.store(true, Ordering::SeqCst);
    course.ok()
}

/// A watch for each thread that reads. They know what the seat's own does.
fn watches_of<D: Disk, N: Naming>(
    alloc: Global,
    host: &Host<'_, D, N>,
    seat: &mut Seat<N>,
) -> Result<Vec<Watch<Entry, N>>, AllocError> {
    let mut watches = Vec::new(alloc);
    for _reader in 0..READERS {
        watches.push(host.split(&mut seat.watch))?;
    }
    Ok(watches)
}

/// What a seat fired while others read, and how many fronts they read a second, all together.
#[derive(Drop)]
pub(crate) struct Watched {
    pub(crate) course: Course,
    pub(crate) reads: u128,
}

/// Fires through the seat while others read. None where the memory or the clock failed.
pub(crate) fn fire_while_read<
    D: Disk + Send,
    N: Naming + Send + Sync,
    R: Clock + Threads + Wait + Sync,
>(
    rt: &R,
    alloc: Global,
    host: &Host<'_, D, N>,
    mut seat: Seat<N>,
    atoms: u16,
    steps: u64,
) -> Option<Watched> {
    let watches = watches_of(alloc, host, &mut seat).ok()?;
    let job = Job {
        steps,
        atoms,
        is_done: AtomicBool::new(false),
    };
    let start = Instant::now(rt).ok()?;
    let (course, reads) = join(
        rt,
        || fire_and_tell(rt, host, seat, &job),
        || read_all(rt, host, watches, &job),
    );
    let time = start.elapsed(rt).ok()?;
    Some(Watched {
        course: course?,
        reads: rate(reads.ok()?, time.as_nanos()),
    })
}
