//! The number of workers of a run, as a word of the command line.
ghost use Rattle.std.specs.Prelude.{◌≡◌, ◌≤◌, IfSome};
ghost use Rattle.command_line.specs.Workers.{workers_in};
ghost use Rattle.command_line.specs.declared.workers.TheConstants.{MOST_WORKERS};

use plant_words::read_decimal;

/// How many workers a run has at most.
pub const MOST_WORKERS: u8 = 16;

/// How many workers share the events of a run.
#[derive(Clone, Copy, Debug, PartialEq, Eq)]
pub struct WorkerCount {
    /// How many they are.
    pub workers: u8,
    ghost some: { 1 ≤ workers },
    ghost most: { workers ≤ MOST_WORKERS },
}

/// The number of workers that the word writes: digits alone, of a number that a run may have. It is 0 where events are asked one after another.
pub(crate) fn workers_named(word: &str) -> Option<u8>
    ensures number { result ≡ workers_in word.now }
    ensures most { IfSome result (λ workers. workers ≤ MOST_WORKERS) }
{
    let workers = read_decimal(word.as_bytes())?;
    if workers <= u64::from(MOST_WORKERS) {
        Some(workers as u8)
    } else {
        None
    }
}
