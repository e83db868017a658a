//! Where the picks of a run come from.
ghost use Rattle.std.specs.Prelude.{◌≡◌, IfOk, IsOk};
ghost use Rattle.run_text.specs.Picks.{Gives, counted_picks, given_picks, pick_at, random_picks, random_take, seeded, shifted, take_of, weighted_picks};

use crate::fault::ReadFault;
use crate::pick::{Numbers, Pick, Take};
use crate::weights::Weights;
use std::marker::Model;

/// A source of picks, that are taken one after the other.
pub trait Picks {
    ghost use Rattle.std.specs.Prelude.{List, Option};
    ghost use Rattle.run_text.specs.Picks.{PickDefinition};

    /// Those that are left; `None` if its type does not say them.
    ghost left: { Self → Option (List PickDefinition) };

    /// The next one, or `None` if none is left. After an error nothing is said of those that are left.
    fn next_pick(&mut self) -> Result<Option<Pick>, ReadFault>
        ensures { IfOk result (Gives (left self.old) (left self.new)) };
}

/// Picks that are given as numbers, one by one. In a contract it is the list of those that are left.
#[derive(Debug, Drop)]
pub struct GivenPicks<'a> {
    numbers: Numbers,
    taken: u64,
    left: &'a [u64],
}

impl<'a> Model for GivenPicks<'a> {
    ghost use Rattle.std.specs.Prelude.{◌+◌, ◌^◌, ◌<◌, List, length};
    ghost use Rattle.run_text.specs.Picks.{PickDefinition, number_as, placed};

    ghost Value = { List PickDefinition };

    ghost view = { λ given. placed (number_as given.numbers) (given.taken + 1) given.left.now };

    ghost invariant = { λ given. given.taken + length given.left.now < 2 ^ 64 };
}

impl<'a> GivenPicks<'a> {
    /// These picks, whose numbers are taken so.
    pub fn of(picks: &'a [u64], numbers: Numbers) -> Self
        ensures { result ≡ given_picks numbers picks.now }
    {
        GivenPicks {
            numbers,
            taken: 0,
            left: picks,
        }
    }
}

impl<'a> Picks for GivenPicks<'a> {
    ghost use Rattle.std.specs.Prelude.{Some};

    ghost left = { λ given. Some given };

    fn next_pick(&mut self) -> Result<Option<Pick>, ReadFault>
        ensures next { IfOk result (Gives (Some self.old) (Some self.new)) }
        ensures read { IsOk result }
    {
        match self.left.split_first() {
            Some((number, left)) => {
                self.left = left;
                self.taken += 1;
                Ok(Some(Pick {
                    place: self.taken,
                    take: self.numbers.take(*number),
                }))
            }
            None => Ok(None),
        }
    }
}

/// What stands for the seed 0, from which no other number would come.
const SEED: u64 = 0x9E37_79B9_7F4A_7C15;

/// What a state is multiplied by to make its number.
const FACTOR: u64 = 0x2545_F491_4F6C_DD1D;

/// Random numbers: xorshift64* with the shifts 12, 25 and 27. Each is taken modulo how many choices there are, or by the weights of connectors. In a
/// contract it is the list of the picks that are left.
#[derive(Debug, Drop)]
pub struct RandomPicks {
    weights: Option<Weights>,
    state: u64,
    taken: u64,
    left: u64,
}

impl Model for RandomPicks {
    ghost use Rattle.std.specs.Prelude.{◌+◌, ◌^◌, ◌<◌, List};
    ghost use Rattle.run_text.specs.Picks.{PickDefinition, placed, random_from, random_take};

    ghost Value = { List PickDefinition };

    ghost view = { λ random. placed (random_take random.weights) (random.taken + 1) (random_from random.left random.state) };

    ghost invariant = { λ random. random.taken + random.left < 2 ^ 64 };
}

impl RandomPicks {
    /// So many picks, by a seed. The same seed gives the same picks.
    pub fn new(seed: u64, count: u64) -> Self
        ensures { result ≡ counted_picks (random_picks seed count) }
    {
        RandomPicks {
            weights: None,
            state: seeded(seed),
            taken: 0,
            left: count,
        }
    }

    /// The same numbers, taken by the weights of connectors.
    pub fn weighted(seed: u64, count: u64, weights: Weights) -> Self
        ensures { result ≡ weighted_picks weights (random_picks seed count) }
    {
        RandomPicks {
            weights: Some(weights),
            state: seeded(seed),
            taken: 0,
            left: count,
        }
    }
}

impl Picks for RandomPicks {
    ghost use Rattle.std.specs.Prelude.{Some};

    ghost left = { λ random. Some random };

    fn next_pick(&mut self) -> Result<Option<Pick>, ReadFault>
        ensures next { IfOk result (Gives (Some self.old) (Some self.new)) }
        ensures read { IsOk result }
    {
        if self.left == 0 {
            return Ok(None);
        }
        self.left -= 1;
        self.taken += 1;
        self.state = next_state(self.state);
        Ok(Some(Pick {
            place: self.taken,
            take: random_take(self.weights, number_of(self.state)),
        }))
    }
}

/// Picks of any kind.
#[derive(Debug, Drop)]
pub enum RunPicks<'a, F> {
    /// They are given one by one.
    Given(GivenPicks<'a>),
    /// They are random.
    Random(RandomPicks),
    /// They come from another source, such as a file.
    From(F),
}

impl<'a, F: Picks> Picks for RunPicks<'a, F> {
    ghost use Rattle.run_text.specs.RunPicks.{picks_left};

    ghost left = { picks_left F.left };

    fn next_pick(&mut self) -> Result<Option<Pick>, ReadFault> {
        match self {
            RunPicks::Given(picks) => picks.next_pick(),
            RunPicks::Random(picks) => picks.next_pick(),
            RunPicks::From(picks) => picks.next_pick(),
        }
    }
}

/// What a random number takes.
fn random_take(weights: Option<Weights>, number: u64) -> Take
    ensures { take_of result ≡ random_take weights number }
{
    match weights {
        Some(weights) => Take::Weighted(number, weights),
        None => Take::Counted(number),
    }
}

/// The state that a seed begins with.
fn seeded(seed: u64) -> u64
    ensures { result ≡ seeded seed }
{
    if seed == 0 { SEED } else { seed }
}

/// The state after a state.
fn next_state(state: u64) -> u64
    ensures { result ≡ shifted state }
{
    let down = state ^ (state >> 12);
    let up = down ^ (down << 25);
    up ^ (up >> 27)
}

/// The number of a state.
fn number_of(state: u64) -> u64
    ensures { result ≡ pick_at state }
{
    state.wrapping_mul(FACTOR)
}
