//! How the choices of a run are picked, as words of the command line.
ghost use Rattle.std.specs.Prelude.{◌≡◌, map, IfOk, IfErr, None};
ghost use Rattle.command_line.specs.Pickings.{IsSaid, IsWrong, numbers_in};

use crate::picks::{PickFault, read_picks};
use crate::request::{Numbers, Picking};
use crate::said::Said;
use plant_words::read_decimal;
use std::alloc::Global;

/// The seed of random picks, if none is named.
pub(crate) const USUAL_SEED: u64 = 1;

/// Why words do not say how choices are picked.
#[derive(Clone, Copy, Debug, PartialEq, Eq)]
pub(crate) enum PickingFault<'a> {
    /// The first of the words for picks that is no pick.
    NoPick(&'a str),
    /// The word for how many random picks is no number.
    NoCount(&'a str),
    /// The word for a seed is no number.
    NoSeed(&'a str),
    /// There are picks and random ones.
    GivenAndRandom,
    /// There are picks and those of a text.
    GivenAndRecorded,
    /// Random picks are to be strict.
    StrictRandom,
    /// There is a seed, and no random picks.
    SeedAlone,
    /// Memory ran out.
    Memory,
}

impl<'a> From<PickFault<'a>> for PickingFault<'a> {
    ghost use Rattle.command_line.specs.Pickings.{of_picks};

    ghost from_gives = { λ fault why. why ≡ of_picks fault };

    fn from(fault: PickFault<'a>) -> Self {
        match fault {
            PickFault::NoPick(word) => PickingFault::NoPick(word),
            PickFault::Memory => PickingFault::Memory,
        }
    }
}

/// How choices are picked: by the picks that the words in `given` write, by those of a text, if a word names one, or by so many random
/// ones, if a word says how many; random ones come after those of a text, if there are both. Each number is digits alone, within a `u64`. Without a word
/// for the seed it is [`USUAL_SEED`].
pub(crate) fn picking_named<'a>(
    alloc: Global,
    given: &[&'a str],
    said: &Said<'_, 'a>,
) -> Result<Picking<'a>, PickingFault<'a>>
    ensures picking { IfOk result (λ picking. IsSaid picking (map (λ word. word.now) given.now) said.now) }
    ensures wrong { IfErr result (λ fault. IsWrong fault (map (λ word. word.now) given.now) said.now) }
{
    let Some(count) = said.random else {
        return listed_named(alloc, given, said);
    };
    if !given.is_empty() {
        return Err(PickingFault::GivenAndRandom);
    }
    if said.strict && said.recorded.is_none() {
        return Err(PickingFault::StrictRandom);
    }
    let many = read_decimal(count.as_bytes()).ok_or(PickingFault::NoCount(count))?;
    let seed = match said.seed {
        Some(word) => read_decimal(word.as_bytes()).ok_or(PickingFault::NoSeed(word))?,
        None => USUAL_SEED,
    };
    match said.recorded {
        Some(path) => Ok(Picking::Recorded(path, numbers_in(said.strict), many, seed)),
        None => Ok(Picking::Random(many, seed)),
    }
}

/// How choices are picked where none are random: by the picks that the words in `given` write, or by those of a text.
fn listed_named<'a>(
    alloc: Global,
    given: &[&'a str],
    said: &Said<'_, 'a>,
) -> Result<Picking<'a>, PickingFault<'a>>
    requires { said.now.random ≡ None }
    ensures picking { IfOk result (λ picking. IsSaid picking (map (λ word. word.now) given.now) said.now) }
    ensures wrong { IfErr result (λ fault. IsWrong fault (map (λ word. word.now) given.now) said.now) }
{
    if said.seed.is_some() {
        return Err(PickingFault::SeedAlone);
    }
    let Some(path) = said.recorded else {
        return Ok(Picking::Given(read_picks(alloc, given)?, numbers_in(said.strict)));
    };
    if given.is_empty() {
        Ok(Picking::Recorded(path, numbers_in(said.strict), 0, USUAL_SEED))
    } else {
        Err(PickingFault::GivenAndRecorded)
    }
}

/// What becomes of a pick whose number is past the list of choices, where numbers are to be strict and where not.
pub(crate) fn numbers_in(strict: bool) -> Numbers
    ensures { result ≡ numbers_in strict }
{
    if strict {
        Numbers::Strict
    } else {
        Numbers::Modulo
    }
}
