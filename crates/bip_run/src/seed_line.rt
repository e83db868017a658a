//! A line on a terminal that shows how far the runs of seeds have come.
use command_line::{Runs, Task};
use run_tallies::Progress;
use std::time::{Clock, Duration};

/// How many milliseconds a line stands at least before the next one.
const PAUSE: u64 = 250;

/// Shows on a terminal how far the runs of seeds have come, four times a second at most. Runs that take no longer than that have no line.
#[derive(Drop)]
pub(crate) struct SeedLine<'a, R> {
    rt: &'a R,
    /// The first seed.
    first: u64,
    /// When the last line was shown, or when the runs began. There is none where no line is to be shown.
    since: Option<Duration>,
    /// Whether a line stands on the terminal.
    stands: bool,
}

impl<'a, R: Eprint + Clock> SeedLine<'a, R> {
    /// The line for the runs of a task, where these are of seeds and somebody sees it.
    pub(crate) fn of(rt: &'a R, task: &Task<'_>, is_seen: bool) -> Self {
        let first = first_seed(task);
        SeedLine {
            rt,
            first: first.unwrap_or(0),
            since: if is_seen && first.is_some() {
                rt.monotonic().ok()
            } else {
                None
            },
            stands: false,
        }
    }

    /// Takes the line off the terminal, if it stands there: what comes next stands at the begin of a line.
    pub(crate) fn clear(&mut self) {
        if self.stands {
            let _ = eprint!(self.rt; "\r\x1b[K");
            self.stands = false;
        }
    }
}

impl<R: Eprint + Clock> Progress for SeedLine<'_, R> {
    fn seed_done(&mut self, seed: u64, last: u64) {
        if seed == last {
            self.clear();
            return;
        }
        if let Some(since) = self.since
            && let Ok(now) = self.rt.monotonic()
            && now.saturating_sub(since) >= Duration::from_millis(PAUSE)
        {
            let first = self.first;
            let _ = eprint!(self.rt; "\r\x1b[Kseed {seed} of {first}..{last}");
            self.since = Some(now);
            self.stands = true;
        }
    }
}

/// The first of the seeds for which a task runs the plant, if it does.
fn first_seed(task: &Task<'_>) -> Option<u64> {
    match task {
        Task::Summary(tally) => match &tally.runs {
            Runs::Seeds(seeds) => Some(seeds.first),
            Runs::One(_) => None,
        },
        _ => None,
    }
}
