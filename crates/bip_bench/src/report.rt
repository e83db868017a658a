//! The lines that are printed.
ghost use Rattle.std.specs.Prelude.{◌≡◌};
ghost use Rattle.std.specs.Duration.{as_nanos};
ghost use Rattle.bip_bench.specs.Report.{rate_of};

use std::fmt;
use std::time::Duration;

/// A duration in seconds, with six places.
#[derive(Clone, Copy, Debug)]
pub(crate) struct Seconds(pub(crate) Duration);

impl fmt::Display for Seconds {
    fn fmt<W: fmt::Write>(&self, f: &mut fmt::Formatter<W>) -> fmt::Result {
        write!(f, "{}.{:06}", self.0.as_secs(), self.0.subsec_micros())
    }
}

/// How many steps a second so many in this time are, rounded down; 0 where no time went by.
pub(crate) fn rate(steps: u64, time: Duration) -> u128
    ensures { result ≡ rate_of steps (as_nanos time) }
{
    match time.as_nanos() {
        0 => 0,
        nanoseconds => u128::from(steps) * 1_000_000_000 / nanoseconds,
    }
}
