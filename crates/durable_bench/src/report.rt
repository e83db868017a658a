//! The numbers that are printed.
ghost use Rattle.std.specs.Prelude.{◌≡◌, ◌*◌, ◌/◌, ◌<◌};

use std::fmt;
use std::time::Duration;

/// A duration in seconds, with six places.
#[derive(Clone, Copy, Debug)]
pub(crate) struct Seconds(pub(crate) Duration);

impl fmt::Display for Seconds {
    fn fmt<W: fmt::Write>(&self, f: &mut fmt::Formatter<W>) -> fmt::Result {
        write!(f, "{}.{:06}", self.0.as_secs(), self.0.subsec_micros())
    }
}

/// How many a second so many in this time are, rounded down; 0 where no time went by.
pub(crate) fn rate(count: u64, nanoseconds: u128) -> u128
    ensures { 0 < nanoseconds → result ≡ count * 1000000000 / nanoseconds }
{
    match nanoseconds {
        0 => 0,
        _ => u128::from(count) * 1_000_000_000 / nanoseconds,
    }
}

/// One number divided by another, with three places, rounded down; 0 where the other is 0.
#[derive(Clone, Copy, Debug)]
pub(crate) struct Ratio {
    pub(crate) of: u128,
    pub(crate) to: u128,
}

impl Ratio {
    /// It in thousandths.
    fn thousandths(&self) -> u128 {
        match self.to {
            0 => 0,
            _ => self.of.saturating_mul(1_000) / self.to,
        }
    }
}

impl fmt::Display for Ratio {
    fn fmt<W: fmt::Write>(&self, f: &mut fmt::Formatter<W>) -> fmt::Result {
        let thousandths = self.thousandths();
        write!(f, "{}.{:03}", thousandths / 1_000, thousandths % 1_000)
    }
}
