//! The seeds of several runs, as words of the command line.
ghost use Rattle.std.specs.Prelude.{◌≡◌, ◌≤◌, IfErr, IfOk, OnOk, None, false, option_map, true};
ghost use Rattle.command_line.specs.Said.{word_of};
ghost use Rattle.command_line.specs.Seeds.{AreSeeds, IsWrong, last_in, seeds_in};

use crate::said::Said;
use plant_words::read_decimal;

/// Why words do not name the seeds of several runs.
#[derive(Clone, Copy, Debug, PartialEq, Eq)]
pub(crate) enum SeedsFault<'a> {
    /// There are seeds, and the runs are not counted.
    Uncounted(&'a str),
    /// There are seeds, and no random picks.
    NotRandom(&'a str),
    /// There are seeds and a pick that is given, the first one.
    WithGiven(&'a str),
    /// There are seeds and the picks of a text.
    WithRecorded(&'a str),
    /// There are seeds and the seed of one run.
    WithSeed(&'a str),
    /// There are seeds, and what is fired is to be saved.
    WithSaved(&'a str),
    /// The word is no `A..B`, or A is above B.
    NoSeeds(&'a str),
}

/// The first and the last of several seeds.
#[derive(Clone, Copy, Debug, PartialEq, Eq)]
pub(crate) struct SeedRange {
    pub(crate) first: u64,
    pub(crate) last: u64,
    ghost ordered: { first ≤ last },
}

/// Whether the words name no seeds of several runs, where runs are not counted.
pub(crate) fn name_no_seeds<'a>(said: &Said<'_, 'a>) -> Result<(), SeedsFault<'a>>
    requires { said.now.summary ≡ false }
    ensures none { OnOk result (word_of said.now.seeds ≡ None) }
    ensures wrong { IfErr result (λ fault. IsWrong fault said.now) }
{
    match said.seeds {
        Some(word) => Err(SeedsFault::Uncounted(word)),
        None => Ok(()),
    }
}

/// The seeds that the words name, if they name some, where runs are counted. Then the picks are random, and nothing is said that holds of one run alone.
pub(crate) fn seeds_asked<'a>(said: &Said<'_, 'a>) -> Result<Option<SeedRange>, SeedsFault<'a>>
    requires { said.now.summary ≡ true }
    ensures seeds { IfOk result (λ seeds. AreSeeds (option_map (λ range. (range.first, range.last)) seeds) said.now) }
    ensures wrong { IfErr result (λ fault. IsWrong fault said.now) }
{
    let Some(word) = said.seeds else {
        return Ok(None);
    };
    if said.random.is_none() {
        return Err(SeedsFault::NotRandom(word));
    }
    if let Some([pick, ..]) = said.picks {
        return Err(SeedsFault::WithGiven(*pick));
    }
    if let Some(path) = said.recorded {
        return Err(SeedsFault::WithRecorded(path));
    }
    if let Some(seed) = said.seed {
        return Err(SeedsFault::WithSeed(seed));
    }
    if let Some(path) = said.saved {
        return Err(SeedsFault::WithSaved(path));
    }
    let range = seeds_named(word).ok_or(SeedsFault::NoSeeds(word))?;
    Ok(Some(range))
}

/// The seeds that the word names: `A..B`, where both are digits alone, and A is at most B.
fn seeds_named(word: &str) -> Option<SeedRange>
    ensures { option_map (λ range. (range.first, range.last)) result ≡ seeds_in word.now }
{
    let (first, behind) = word.split_once('.')?;
    let first = read_decimal(first.as_bytes())?;
    let last = last_named(behind.as_bytes())?;
    if first <= last {
        Some(SeedRange { first, last })
    } else {
        None
    }
}

/// The last seed, by what stands behind the first `.` of the word: another one, and digits alone.
fn last_named(behind: &[u8]) -> Option<u64>
    ensures { result ≡ last_in behind.now }
{
    match behind {
        [b'.', last @ ..] => read_decimal(last),
        _ => None,
    }
}
