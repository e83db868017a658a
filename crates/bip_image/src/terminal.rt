//! One line on a terminal that is written over and over.
use std::time::Duration;

/// How long a line stands at least, in milliseconds, before another takes its place. What is done sooner has none.
pub(crate) const LEAST_SHOWN: u64 = 200;

/// Puts the line that is written next over the one that is shown.
pub(crate) const OVER: &str = "\r\x1b[K";

/// A time in milliseconds.
pub(crate) fn milliseconds(time: Duration) -> u64 {
    time.as_secs()
        .saturating_mul(1000)
        .saturating_add(u64::from(time.subsec_millis()))
}
