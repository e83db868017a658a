//! How many choices the kept interactions of each connector have, and the choice with a place among them.
ghost use Rattle.std.specs.Prelude.{◌≡◌, ◌^◌, ◌+◌, ◌*◌, ◌≤◌, ◌<◌, ◌/◌, ◌%◌, ◌&&◌, if◌then◌else◌, count_ones, ℕ, true, false, Some, IfOk, IfErr, length, slice_get, slice_index_or, slice_set};
ghost use Rattle.std.specs.FinSet.{contains};
ghost use Rattle.priority_filter.specs.Members.{has_bit};
ghost use Rattle.priority_filter.specs.declared.interaction_set.TheConstants.{ROW_WORDS};
ghost use Rattle.plant_model.specs.Choice.{Interaction, choices_of};
ghost use Rattle.plant_model.specs.Chosen.{choice_of};
ghost use Rattle.plant_model.specs.ConnectorRows.{is_of_connector};
ghost use Rattle.plant_model.specs.Fitting.{IsOf};
ghost use Rattle.plant_model.specs.System.{interactions_in, plant_of};
ghost use Rattle.plant_model.specs.declared.limits.TheConstants.{MAX_WIRES};
ghost use Rattle.plant_model.specs.Ways.{ways_at};
ghost use Rattle.step_core.specs.ChoicesIn.{AreAllPossible, choices_in, choices_in_below, choices_in_from};
ghost use Rattle.step_core.specs.Judgement.{IsOffers};
ghost use Rattle.step_core.specs.Weights.{AreSums, AreWeighed, IsAtConnector, IsFound, choices_of_connector, is_kept_of, weight_of};

use crate::enabled_transitions::EnabledTransitions;
use crate::leaves::Leaves;
use crate::possible::InteractionJudge;
use plant_model::{Choice, ConnectorRows, MAX_WIRES, PlantState, System};
use priority_filter::InteractionSet;

/// How many weights a group has.
const GROUP: usize = 8;

/// How many groups there are.
const GROUPS: usize = MAX_WIRES / GROUP;

/// How many choices the kept interactions of each connector have, by the connectors' numbers, with sums by which a place is found among
/// them.
#[derive(Drop)]
pub(crate) struct Weights {
    pub(crate) of_connectors: [u128; MAX_WIRES],
    /// The sum of each eight.
    pub(crate) groups: [u128; GROUPS],
    /// The sum of all.
    pub(crate) total: u128,
}

impl Weights {
    /// No choices.
    pub(crate) fn none() -> Self
        ensures weights { (k : ℕ) → slice_index_or result.of_connectors k 0 ≡ 0 }
        ensures sums { AreSums result }
        ensures total { result.total ≡ 0 }
    {
        Weights {
            of_connectors: [0; MAX_WIRES],
            groups: [0; GROUPS],
            total: 0,
        }
    }

    /// Puts another weight in the place of the connector's. Where it is as before, it writes nothing.
    pub(crate) fn set(&mut self, connector: usize, weight: u128)
        requires connector { connector < MAX_WIRES }
        requires sums { AreSums self.old }
        requires few { self.old.total + weight < 2 ^ 128 }
        ensures weights { self.new.of_connectors ≡ slice_set self.old.of_connectors connector weight }
        ensures sums { AreSums self.new }
    {
        let old = self.of_connectors[connector];
        if weight == old {
            return;
        }
        let group = connector / GROUP;
        self.of_connectors[connector] = weight;
        self.groups[group] = self.groups[group] - old + weight;
        self.total = self.total - old + weight;
    }

    /// The connector of the choice with this place among those of all, and its place among those of that one.
    fn find(&self, place: u128) -> ConnectorPlace
        requires sums { AreSums self.now }
        requires place { place < self.now.total }
        ensures { IsAtConnector self.now.of_connectors place result.connector result.place }
    {
        if self.total <= u128::from(u64::MAX) {
            self.find_by_word(place as u64)
        } else {
            self.find_by_wide_number(place)
        }
    }

    /// The same where there are few choices: numbers of 64 bits take half of the time.
    fn find_by_word(&self, place: u64) -> ConnectorPlace
        requires sums { AreSums self.now }
        requires few { self.now.total < 2 ^ 64 }
        requires place { place < self.now.total }
        ensures { IsAtConnector self.now.of_connectors place result.connector result.place }
    {
        let mut group = 0;
        let mut left = place;
        while left >= self.groups[group] as u64 {
            left -= self.groups[group] as u64;
            group += 1;
        }
        let mut connector = GROUP * group;
        while left >= self.of_connectors[connector] as u64 {
            left -= self.of_connectors[connector] as u64;
            connector += 1;
        }
        ConnectorPlace {
            connector,
            place: u128::from(left),
        }
    }

    /// The same by numbers of 128 bits.
    fn find_by_wide_number(&self, place: u128) -> ConnectorPlace
        requires sums { AreSums self.now }
        requires place { place < self.now.total }
        ensures { IsAtConnector self.now.of_connectors place result.connector result.place }
    {
        let mut group = 0;
        let mut left = place;
        while left >= self.groups[group] {
            left -= self.groups[group];
            group += 1;
        }
        let mut connector = GROUP * group;
        while left >= self.of_connectors[connector] {
            left -= self.of_connectors[connector];
            connector += 1;
        }
        ConnectorPlace {
            connector,
            place: left,
        }
    }
}

/// A choice of a connector: the one with this place among those of its kept interactions.
#[derive(Drop)]
struct ConnectorPlace {
    connector: usize,
    place: u128,
}

/// A state with what its atoms and the leaves of its connectors offer, and the interactions that are kept.
#[derive(Drop)]
pub(crate) struct Weighing<'a> {
    pub(crate) system: &'a System,
    pub(crate) states: &'a PlantState,
    pub(crate) offers: &'a EnabledTransitions,
    pub(crate) leaves: &'a Leaves,
    pub(crate) kept: &'a InteractionSet,
    ghost of_plant: { IsOf (plant_of system.now) states.now },
    ghost offering: { IsOffers (plant_of system.now) states.now offers.now.sets offers.now.counts leaves.now },
}

impl Weighing<'_> {
    /// Weighs the connectors whose bit in the word is set again; the weights of all others are right.
    pub(crate) fn weigh_again(&self, heavy: u64, weights: &mut Weights)
        requires within { (k : ℕ) → length (plant_of self.now.system.now).wires ≤ k → has_bit heavy k ≡ false }
        requires possible { AreAllPossible (plant_of self.now.system.now).atoms (plant_of self.now.system.now).wires self.now.states.now (interactions_in self.now.system.now) (contains self.now.kept.now) }
        requires others { (k : ℕ) → has_bit heavy k ≡ false → slice_index_or weights.old.of_connectors k 0 ≡ weight_of (plant_of self.now.system.now).atoms self.now.states.now (interactions_in self.now.system.now) (contains self.now.kept.now) k }
        requires sums { AreSums weights.old }
        requires few { weights.old.total ≤ 2 ^ 122 }
        ensures { AreWeighed (plant_of self.now.system.now).atoms self.now.states.now (interactions_in self.now.system.now) (contains self.now.kept.now) weights.new }
    {
        let mut left = heavy;
        while left != 0 {
            let connector = left.trailing_zeros() as usize;
            left &= left - 1;
            weights.set(connector, self.weight_of(connector));
        }
    }

    /// How many choices the kept interactions of the connector have.
    #[inline]
    pub(crate) fn weight_of(&self, connector: usize) -> u128
        requires connector { connector < length (plant_of self.now.system.now).wires }
        requires possible { AreAllPossible (plant_of self.now.system.now).atoms (plant_of self.now.system.now).wires self.now.states.now (interactions_in self.now.system.now) (is_kept_of (interactions_in self.now.system.now) (contains self.now.kept.now) connector) }
        ensures few { result ≤ 2 ^ 122 }
        ensures weight { result ≡ weight_of (plant_of self.now.system.now).atoms self.now.states.now (interactions_in self.now.system.now) (contains self.now.kept.now) connector }
    {
        let rows = &self.system.connector_rows[connector];
        if self.leaves.many[connector] == 0 {
            u128::from(self.kept_count(connector, rows))
        } else {
            self.sum_of_ways(connector, rows)
        }
    }

    /// The same where no leaf of the connector offers more than one transition: each of them has one choice.
    #[inline]
    fn kept_count(&self, connector: usize, rows: &ConnectorRows) -> u64
        requires connector { connector < length (plant_of self.now.system.now).wires }
        requires rows { slice_get self.now.system.now.connector_rows.items connector ≡ Some rows.now }
        requires possible { AreAllPossible (plant_of self.now.system.now).atoms (plant_of self.now.system.now).wires self.now.states.now (interactions_in self.now.system.now) (is_kept_of (interactions_in self.now.system.now) (contains self.now.kept.now) connector) }
        requires single { slice_index_or self.now.leaves.now.many connector 0 ≡ 0 }
        ensures { result ≡ weight_of (plant_of self.now.system.now).atoms self.now.states.now (interactions_in self.now.system.now) (contains self.now.kept.now) connector }
    {
        let mut count = 0;
        for place in usize::from(rows.low)..usize::from(rows.high) {
            let word = self.kept.word(place) & rows.own.word(place);
            count += u64::from(word.count_ones());
        }
        count
    }

    /// The same for any connector: the choices of each are counted. Most connectors need no such sum, and their way is shorter without it.
    #[inline(never)]
    fn sum_of_ways(&self, connector: usize, rows: &ConnectorRows) -> u128
        requires connector { connector < length (plant_of self.now.system.now).wires }
        requires rows { slice_get self.now.system.now.connector_rows.items connector ≡ Some rows.now }
        requires possible { AreAllPossible (plant_of self.now.system.now).atoms (plant_of self.now.system.now).wires self.now.states.now (interactions_in self.now.system.now) (is_kept_of (interactions_in self.now.system.now) (contains self.now.kept.now) connector) }
        ensures few { result ≤ 2 ^ 122 }
        ensures weight { result ≡ weight_of (plant_of self.now.system.now).atoms self.now.states.now (interactions_in self.now.system.now) (contains self.now.kept.now) connector }
    {
        let mut sum = 0;
        for place in usize::from(rows.low)..usize::from(rows.high) {
            let word = self.kept.word(place) & rows.own.word(place);
            sum += self.weight_in(connector, place, word);
        }
        sum
    }

    /// Which of the 64 interactions from 64 times the place on are kept and of the connector, bit k for the one with k after these.
    fn kept_word(&self, connector: usize, place: usize) -> u64
        requires connector { connector < length (plant_of self.now.system.now).wires }
        requires place { place < ROW_WORDS }
        ensures { (n : ℕ) → n / 64 ≡ place → has_bit result (n % 64) ≡ is_kept_of (interactions_in self.now.system.now) (contains self.now.kept.now) connector n }
    {
        self.kept.word(place) & self.system.connector_rows[connector].own.word(place)
    }

    /// How many choices those of the 64 interactions from 64 times the place on have whose bit in the word is set. They are kept, and of
    /// the connector.
    fn weight_in(&self, connector: usize, place: usize, word: u64) -> u128
        requires connector { connector < length (plant_of self.now.system.now).wires }
        requires possible { AreAllPossible (plant_of self.now.system.now).atoms (plant_of self.now.system.now).wires self.now.states.now (interactions_in self.now.system.now) (is_kept_of (interactions_in self.now.system.now) (contains self.now.kept.now) connector) }
        requires place { place < ROW_WORDS }
        requires word { (n : ℕ) → n / 64 ≡ place → has_bit word (n % 64) ≡ is_kept_of (interactions_in self.now.system.now) (contains self.now.kept.now) connector n }
        ensures few { result ≤ 64 * 2 ^ 112 }
        ensures count { length (choices_in_below (plant_of self.now.system.now).atoms self.now.states.now (interactions_in self.now.system.now) (is_kept_of (interactions_in self.now.system.now) (contains self.now.kept.now) connector) (64 * (place + 1))) ≡ length (choices_in_below (plant_of self.now.system.now).atoms self.now.states.now (interactions_in self.now.system.now) (is_kept_of (interactions_in self.now.system.now) (contains self.now.kept.now) connector) (64 * place)) + result }
    {
        let mut sum = 0;
        let mut left = word;
        while left != 0 {
            let bit = left.trailing_zeros() as usize;
            left &= left - 1;
            sum += self.ways_of(64 * place + bit);
        }
        sum
    }

    /// How many choices the interaction with this number has, which is possible.
    #[inline]
    fn ways_of(&self, number: usize) -> u128
        requires { number < length self.now.system.now.interactions.items }
        ensures few { result ≤ 2 ^ 112 }
        ensures ways { result ≡ ways_at (plant_of self.now.system.now).atoms self.now.states.now (interactions_in self.now.system.now) number }
    {
        self.judged()
            .long_row_count(&self.system.interactions[number].ports)
    }

    /// Writes the choice with this place among those of the kept interactions.
    #[inline(always)]
    pub(crate) fn choose(&self, weights: &Weights, place: u128, choice: &mut Choice)
        requires weights { AreWeighed (plant_of self.now.system.now).atoms self.now.states.now (interactions_in self.now.system.now) (contains self.now.kept.now) weights.now }
        requires possible { AreAllPossible (plant_of self.now.system.now).atoms (plant_of self.now.system.now).wires self.now.states.now (interactions_in self.now.system.now) (contains self.now.kept.now) }
        requires place { place < length (choices_in (plant_of self.now.system.now).atoms self.now.states.now (interactions_in self.now.system.now) (contains self.now.kept.now)) }
        ensures { slice_get (choices_in (plant_of self.now.system.now).atoms self.now.states.now (interactions_in self.now.system.now) (contains self.now.kept.now)) place ≡ Some (choice_of choice.new) }
    {
        let at = weights.find(place);
        if self.leaves.many[at.connector] == 0 {
            self.choose_only(self.nth_kept(at.connector, at.place as u64), choice);
        } else {
            self.choose_found(self.found(at.connector, at.place), choice);
        }
    }

    /// The number of the interaction with this place among the kept ones of the connector, of which each has one choice.
    fn nth_kept(&self, connector: usize, place: u64) -> usize
        requires connector { connector < length (plant_of self.now.system.now).wires }
        requires possible { AreAllPossible (plant_of self.now.system.now).atoms (plant_of self.now.system.now).wires self.now.states.now (interactions_in self.now.system.now) (is_kept_of (interactions_in self.now.system.now) (contains self.now.kept.now) connector) }
        requires single { slice_index_or self.now.leaves.now.many connector 0 ≡ 0 }
        requires place { place < weight_of (plant_of self.now.system.now).atoms self.now.states.now (interactions_in self.now.system.now) (contains self.now.kept.now) connector }
        ensures { IsFound (plant_of self.now.system.now).atoms self.now.states.now (interactions_in self.now.system.now) (slice_get (choices_of_connector (plant_of self.now.system.now).atoms self.now.states.now (interactions_in self.now.system.now) (contains self.now.kept.now) connector) place) result 1 0 }
    {
        let rows = &self.system.connector_rows[connector];
        if rows.count == 1 {
            return usize::from(rows.first);
        }
        let low = usize::from(rows.low);
        let high = usize::from(rows.high);
        let mut left = place;
        for at in low..high {
            let word = self.kept_word(connector, at);
            let count = u64::from(word.count_ones());
            if left < count {
                return 64 * at + nth_bit(word, left);
            }
            left -= count;
        }
        unreachable!()
    }

    /// Where the choice with this place among those of the kept interactions of the connector stands.
    fn found(&self, connector: usize, place: u128) -> Found
        requires connector { connector < length (plant_of self.now.system.now).wires }
        requires possible { AreAllPossible (plant_of self.now.system.now).atoms (plant_of self.now.system.now).wires self.now.states.now (interactions_in self.now.system.now) (is_kept_of (interactions_in self.now.system.now) (contains self.now.kept.now) connector) }
        requires place { place < weight_of (plant_of self.now.system.now).atoms self.now.states.now (interactions_in self.now.system.now) (contains self.now.kept.now) connector }
        ensures { IsFound (plant_of self.now.system.now).atoms self.now.states.now (interactions_in self.now.system.now) (slice_get (choices_of_connector (plant_of self.now.system.now).atoms self.now.states.now (interactions_in self.now.system.now) (contains self.now.kept.now) connector) place) result.number result.ways result.place }
    {
        let rows = &self.system.connector_rows[connector];
        let low = usize::from(rows.low);
        let high = usize::from(rows.high);
        let mut left = place;
        for at in low..high {
            match self.found_in(connector, at, self.kept_word(connector, at), left) {
                Ok(found) => return found,
                Err(later) => left = later,
            }
        }
        unreachable!()
    }

    /// Where the choice with this place among those of the interactions from 64 times `at` on whose bit in the word is set stands, if it is
    /// there; else its place among those behind them.
    fn found_in(&self, connector: usize, at: usize, word: u64, place: u128) -> Result<Found, u128>
        requires connector { connector < length (plant_of self.now.system.now).wires }
        requires possible { AreAllPossible (plant_of self.now.system.now).atoms (plant_of self.now.system.now).wires self.now.states.now (interactions_in self.now.system.now) (is_kept_of (interactions_in self.now.system.now) (contains self.now.kept.now) connector) }
        requires at { at < ROW_WORDS }
        requires word { (n : ℕ) → n / 64 ≡ at → has_bit word (n % 64) ≡ is_kept_of (interactions_in self.now.system.now) (contains self.now.kept.now) connector n }
        ensures here { IfOk result (λ found. IsFound (plant_of self.now.system.now).atoms self.now.states.now (interactions_in self.now.system.now) (slice_get (choices_in_from (plant_of self.now.system.now).atoms self.now.states.now (interactions_in self.now.system.now) (is_kept_of (interactions_in self.now.system.now) (contains self.now.kept.now) connector) (64 * at)) place) found.number found.ways found.place) }
        ensures later { IfErr result (λ later. slice_get (choices_in_from (plant_of self.now.system.now).atoms self.now.states.now (interactions_in self.now.system.now) (is_kept_of (interactions_in self.now.system.now) (contains self.now.kept.now) connector) (64 * at)) place ≡ slice_get (choices_in_from (plant_of self.now.system.now).atoms self.now.states.now (interactions_in self.now.system.now) (is_kept_of (interactions_in self.now.system.now) (contains self.now.kept.now) connector) (64 * (at + 1))) later) }
    {
        let mut left = place;
        let mut bits = word;
        while bits != 0 {
            let bit = bits.trailing_zeros() as usize;
            bits &= bits - 1;
            let number = 64 * at + bit;
            let ways = self.ways_of(number);
            if left < ways {
                return Ok(Found {
                    number,
                    ways,
                    place: left,
                });
            }
            left -= ways;
        }
        Err(left)
    }

    /// Writes the choice of the interaction with this number, which has one.
    fn choose_only(&self, number: usize, choice: &mut Choice)
        requires { ways_at (plant_of self.now.system.now).atoms self.now.states.now (interactions_in self.now.system.now) number ≡ 1 }
        ensures { (i : Interaction) → slice_get (interactions_in self.now.system.now) number ≡ Some i → slice_get (choices_of (plant_of self.now.system.now).atoms self.now.states.now i) 0 ≡ Some (choice_of choice.new) }
    {
        let interaction = &self.system.interactions[number];
        choice.connector = interaction.connector;
        choice.mask = interaction.mask;
        self.judged()
            .first_row(&interaction.ports, &mut choice.moves);
    }

    /// Writes the choice that is found.
    fn choose_found(&self, found: Found, choice: &mut Choice)
        requires ways { found.ways ≡ ways_at (plant_of self.now.system.now).atoms self.now.states.now (interactions_in self.now.system.now) found.number }
        requires place { found.place < found.ways }
        ensures { (i : Interaction) → slice_get (interactions_in self.now.system.now) found.number ≡ Some i → slice_get (choices_of (plant_of self.now.system.now).atoms self.now.states.now i) found.place ≡ Some (choice_of choice.new) }
    {
        let interaction = &self.system.interactions[found.number];
        choice.connector = interaction.connector;
        choice.mask = interaction.mask;
        self.judged().nth_row(
            &interaction.ports,
            found.ways,
            found.place,
            &mut choice.moves,
        );
    }

    /// What the interactions offer.
    fn judged(&self) -> InteractionJudge<'_>
        ensures atoms { result.atoms.now ≡ self.now.system.now.atoms.items }
        ensures states { result.states.now ≡ self.now.states.now }
        ensures offers { result.offers.now ≡ self.now.offers.now }
    {
        InteractionJudge {
            atoms: &self.system.atoms,
            states: self.states,
            offers: self.offers,
        }
    }
}

/// Where a choice stands: among so many choices of an interaction it is the one with this place.
#[derive(Drop)]
struct Found {
    number: usize,
    ways: u128,
    place: u128,
}

/// The number of the bit with this place, from 0, among those that are set in the word.
fn nth_bit(word: u64, place: u64) -> usize
    requires { place < count_ones word }
    ensures low { result < 64 }
    ensures set { has_bit word result ≡ true }
    ensures place { count_ones (word % 2 ^ result) ≡ place }
{
    let mut left = word;
    for _ in 0..place {
        left &= left - 1;
    }
    left.trailing_zeros() as usize
}
