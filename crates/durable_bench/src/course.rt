//! Runs of random choices, of which the firing alone is timed.
ghost use Rattle.std.specs.Prelude.{◌≤◌};
ghost use Rattle.plant_core.specs.declared.limits.TheConstants.{MOST_TAIL};

use crate::firing::{fire_alone, fire_seated, settle_alone, settle_seated};
use crate::report::rate;
use disk_model::Disk;
use engine_host::{Host, Naming, Seat};
use plant_core::{MOST_TAIL, Plant};
use run_text::{Pick, Picks, RandomPicks, Take};
use std::io;
use std::rt::Clock;
use std::sync::Wait;
use std::time::{Duration, Instant};

/// The seed of the picks: each run has the same.
pub(crate) const SEED: u64 = 7;

/// How many choices were fired, and how long that took.
#[derive(Clone, Copy, Debug)]
pub(crate) struct Course {
    pub(crate) fired: u64,
    pub(crate) nanoseconds: u128,
}

impl Course {
    /// Nothing was fired yet.
    fn new() -> Course {
        Course {
            fired: 0,
            nanoseconds: 0,
        }
    }

    /// So many more were fired in this time.
    fn add(&mut self, fired: u64, time: Duration) {
        self.fired = self.fired.saturating_add(fired);
        self.nanoseconds = self.nanoseconds.saturating_add(time.as_nanos());
    }

    /// How many a second.
    pub(crate) fn rate(&self) -> u128 {
        rate(self.fired, self.nanoseconds)
    }
}

/// The number of the next pick, if one is left.
pub(crate) fn next_number(picks: &mut RandomPicks) -> Option<u64> {
    match picks.next_pick() {
        Ok(
            Some(
                Pick {
                    take: Take::Counted(number),
                    ..
                },
            ),
        ) => Some(number),
        _ => None,
    }
}

/// Puts the next picks into the row, as many as are left or have room, and says how many these are.
fn next_picks(picks: &mut RandomPicks, row: &mut [u64; MOST_TAIL]) -> usize
    ensures { result ≤ MOST_TAIL }
{
    for place in 0..MOST_TAIL {
        match next_number(picks) {
            Some(number) => row[place] = number,
            None => return place,
        }
    }
    MOST_TAIL
}

/// Fires a plant by these picks, which is timed, and settles it. Says whether nothing was refused.
fn time_alone<D: Disk, R: Clock>(
    rt: &R,
    plant: &mut Plant<'_, D>,
    atoms: u16,
    row: &[u64],
    course: &mut Course,
) -> io::Result<bool> {
    let start = Instant::now(rt)?;
    let fired = fire_alone(plant, row);
    course.add(fired, start.elapsed(rt)?);
    Ok(settle_alone(plant, atoms) && fired == row.len() as u64)
}

/// The same through a seat of a host.
fn time_seated<D: Disk, N: Naming, R: Clock + Wait>(
    rt: &R,
    host: &Host<'_, D, N>,
    seat: &mut Seat<N>,
    atoms: u16,
    row: &[u64],
    course: &mut Course,
) -> io::Result<bool> {
    let start = Instant::now(rt)?;
    let fired = fire_seated(rt, host, seat, row);
    course.add(fired, start.elapsed(rt)?);
    Ok(settle_seated(rt, host, seat, atoms) && fired == row.len() as u64)
}

/// So many choices through a seat, until something is refused.
pub(crate) fn fire_all<D: Disk, N: Naming, R: Clock + Wait>(
    rt: &R,
    host: &Host<'_, D, N>,
    seat: &mut Seat<N>,
    atoms: u16,
    steps: u64,
) -> io::Result<Course> {
    let mut picks = RandomPicks::new(SEED, steps);
    let mut row = [0; MOST_TAIL];
    let mut course = Course::new();
    for _round in 0..steps {
        let count = next_picks(&mut picks, &mut row);
        if count == 0 || !time_seated(rt, host, seat, atoms, &row[..count], &mut course)? {
            break;
        }
    }
    Ok(course)
}

/// The same with a plant that is alone and through a seat, by the same picks: the plant fires a row of them, then the seat.
pub(crate) fn fire_in_turns<D: Disk, N: Naming, R: Clock + Wait>(
    rt: &R,
    plant: &mut Plant<'_, D>,
    host: &Host<'_, D, N>,
    seat: &mut Seat<N>,
    atoms: u16,
    steps: u64,
) -> io::Result<(Course, Course)> {
    let mut picks = RandomPicks::new(SEED, steps);
    let mut row = [0; MOST_TAIL];
    let mut alone = Course::new();
    let mut hosted = Course::new();
    for _round in 0..steps {
        let count = next_picks(&mut picks, &mut row);
        if count == 0
            || !time_alone(rt, plant, atoms, &row[..count], &mut alone)?
            || !time_seated(rt, host, seat, atoms, &row[..count], &mut hosted)?
        {
            break;
        }
    }
    Ok((alone, hosted))
}
