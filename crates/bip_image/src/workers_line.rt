//! How far a run by workers is, on a terminal.
use crate::terminal::{LEAST_SHOWN, OVER, milliseconds};
use plant_core::Front;
use std::rt::Clock;
use std::sync::atomic::{AtomicBool, AtomicU64, Ordering};
use std::time::Instant;
use worker_runs::RunProgress;

/// Tells on the standard error how far a run by workers is, in one line that is written over and over and is gone at the end: how many events were
/// passed, and how many choices were fired and acknowledged. If no terminal shows it, nothing is printed.
#[derive(Drop)]
pub(crate) struct WorkersLine<'a, R> {
    /// What prints, and has a clock.
    rt: &'a R,
    /// When the run began, if anything is printed.
    began: Option<Instant>,
    /// How many events there are.
    events: usize,
    /// How many of them were passed.
    passed: AtomicU64,
    /// How many milliseconds later a line may be written.
    next: AtomicU64,
    /// Whether a line is shown.
    shown: AtomicBool,
}

impl<'a, R: Eprint + Clock> WorkersLine<'a, R> {
    /// Nothing is shown yet.
    pub(crate) fn new(rt: &'a R, events: usize, tells: bool) -> Self {
        WorkersLine {
            rt,
            began: if tells { Instant::now(rt).ok() } else { None },
            events,
            passed: AtomicU64::new(0),
            next: AtomicU64::new(LEAST_SHOWN),
            shown: AtomicBool::new(false),
        }
    }

    /// How many milliseconds ago the run began, if anything is printed.
    fn time(&self) -> Option<u64> {
        let time = self.began?.elapsed(self.rt).ok()?;
        Some(milliseconds(time))
    }

    /// Whether it is time for a line, so many milliseconds after the beginning. Of the workers that ask it at once one is answered so.
    fn is_due(&self, time: u64) -> bool {
        let next = self.next.load(Ordering::SeqCst);
        let later = time.saturating_add(LEAST_SHOWN);
        next <= time
            && self
                .next
                .compare_exchange(next, later, Ordering::SeqCst, Ordering::SeqCst)
                .is_ok()
    }
}

impl<'a, R: Eprint + Clock + Sync> RunProgress for WorkersLine<'a, R> {
    fn passed(&self, front: Front) {
        let passed = self.passed.fetch_add(1, Ordering::SeqCst).saturating_add(1);
        let Some(time) = self.time() else {
            return;
        };
        if self.is_due(time) {
            let _ = eprint!(self.rt;
                "{OVER}{passed} of {} events, {} fired, {} saved",
                self.events, front.fired, front.acked
            );
            self.shown.store(true, Ordering::SeqCst);
        }
    }

    fn hide(&self) {
        if self.shown.load(Ordering::SeqCst) {
            let _ = eprint!(self.rt; "{OVER}");
        }
    }
}
