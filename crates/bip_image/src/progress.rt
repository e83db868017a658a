//! How far an exploration is, on a terminal.
use crate::terminal::{LEAST_SHOWN, OVER, milliseconds};
use image_commands::Progress;
use std::rt::Clock;
use std::time::Instant;

/// Tells on the standard error how far an exploration is: at first how many stops and starts there are, and then, in one line that is written over
/// and over and is gone at the end, how many stops were tried and how long the others take. If no terminal shows it, nothing is printed.
#[derive(Drop)]
pub(crate) struct ProgressLine<'a, R> {
    /// What prints, and has a clock.
    rt: &'a R,
    /// Whether anything is printed.
    tells: bool,
    /// How many stops there are.
    stops: u64,
    /// When the first was tried.
    began: Option<Instant>,
    /// How many milliseconds later a line may be written.
    next: u64,
    /// Whether a line is shown.
    shown: bool,
}

impl<'a, R: Eprint + Clock> ProgressLine<'a, R> {
    /// Nothing is shown yet.
    pub(crate) fn new(rt: &'a R, tells: bool) -> Self {
        ProgressLine {
            rt,
            tells,
            stops: 0,
            began: None,
            next: LEAST_SHOWN,
            shown: false,
        }
    }

    /// How many milliseconds ago the first stop was tried, if the clock gives the time.
    fn passed(&self) -> Option<u64> {
        let time = self.began?.elapsed(self.rt).ok()?;
        Some(milliseconds(time))
    }
}

impl<'a, R: Eprint + Clock> Progress for ProgressLine<'a, R> {
    fn begin(&mut self, stops: u64) {
        if !self.tells {
            return;
        }
        self.stops = stops;
        self.began = Instant::now(self.rt).ok();
        let boots = stops.saturating_mul(4);
        let _ = eprintln!(self.rt;
            "{stops} writes and syncs to stop at, in 4 ways each: {boots} starts to try"
        );
    }

    fn tried(&mut self, stops: u64) {
        let Some(passed) = self.passed() else {
            return;
        };
        if passed < self.next {
            return;
        }
        self.next = passed.saturating_add(LEAST_SHOWN);
        let left = seconds_left(passed, stops, self.stops);
        let _ = eprint!(self.rt; "{OVER}{stops} of {} tried, {left} s left", self.stops);
        self.shown = true;
    }

    fn hide(&mut self) {
        if self.shown {
            let _ = eprint!(self.rt; "{OVER}");
            self.shown = false;
            self.next = 0;
        }
    }
}

/// How many seconds the other stops take, where these took so many milliseconds, and each takes as long.
fn seconds_left(passed: u64, tried: u64, stops: u64) -> u64 {
    let left = stops.saturating_sub(tried);
    passed.saturating_mul(left) / tried.max(1) / 1000
}
