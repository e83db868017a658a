//! Which of the possible interactions are kept, connector by connector: those that no rival is above by the rules without a condition.
ghost use Rattle.std.specs.Prelude.{◌≡◌, ◌≤◌, ◌<◌, ◌/◌, ◌%◌, ◌*◌, ◌+◌, ◌&&◌, not, ℕ, true, false, Some, length, slice_get};
ghost use Rattle.std.specs.FinSet.{contains};
ghost use Rattle.priority_filter.specs.Members.{has_bit};
ghost use Rattle.priority_filter.specs.declared.interaction_set.TheConstants.{ROW_WORDS};
ghost use Rattle.plant_model.specs.ConnectorRows.{is_of_connector};
ghost use Rattle.plant_model.specs.Ranks.{is_in_parts, is_in_rest};
ghost use Rattle.plant_model.specs.System.{interactions_in, plant_of};
ghost use Rattle.plant_model.specs.declared.ranks.Part.{Part};
ghost use Rattle.step_core.specs.Standing.{IsFree, IsStanding, is_always_below, is_always_overruled};

use crate::settling::has_connector;
use crate::standing::Standing;
use crate::words::put_word;
use plant_model::{ConnectorRows, Part, Rank, System};
use priority_filter::InteractionSet;

/// The possible interactions, and the rivals that overrule what is below them.
#[derive(Drop)]
pub(crate) struct Keeping<'a> {
    pub(crate) system: &'a System,
    pub(crate) possible: &'a InteractionSet,
    pub(crate) rivals: &'a InteractionSet,
    pub(crate) standing: &'a Standing,
    ghost stands: { IsStanding (plant_of system.now) (interactions_in system.now) system.now.ranks (contains rivals.now) standing.now },
}

impl Keeping<'_> {
    /// Keeps the possible interactions of the connectors in `affected` again that no rival is above. Says of which connectors another one
    /// is kept now.
    pub(crate) fn keep_connectors(&self, affected: u64, kept: &mut InteractionSet) -> u64
        requires { (k : ℕ) → length (plant_of self.now.system.now).wires ≤ k → has_bit affected k ≡ false }
        ensures kept { (n k : ℕ) → is_of_connector (interactions_in self.now.system.now) k n ≡ true → has_bit affected k ≡ true → contains kept.new n ≡ (contains self.now.possible.now n && not (is_always_overruled (plant_of self.now.system.now) (interactions_in self.now.system.now) (contains self.now.rivals.now) n)) }
        ensures others { (n k : ℕ) → is_of_connector (interactions_in self.now.system.now) k n ≡ true → has_bit affected k ≡ false → contains kept.new n ≡ contains kept.old n }
        ensures past { (n : ℕ) → length (interactions_in self.now.system.now) ≤ n → contains kept.new n ≡ contains kept.old n }
        ensures within { (k : ℕ) → length (plant_of self.now.system.now).wires ≤ k → has_bit result k ≡ false }
        ensures told { (n k : ℕ) → is_of_connector (interactions_in self.now.system.now) k n ≡ true → has_bit result k ≡ false → contains kept.new n ≡ contains kept.old n }
    {
        let mut told = 0;
        let mut left = affected;
        while left != 0 {
            let connector = left.trailing_zeros() as usize;
            left &= left - 1;
            if self.keep_connector(connector, kept) {
                told |= 1 << connector;
            }
        }
        told
    }

    /// Keeps those of one connector again. Says whether another one is kept now.
    pub(crate) fn keep_connector(&self, connector: usize, kept: &mut InteractionSet) -> bool
        requires { connector < length (plant_of self.now.system.now).wires }
        ensures kept { (n : ℕ) → is_of_connector (interactions_in self.now.system.now) connector n ≡ true → contains kept.new n ≡ (contains self.now.possible.now n && not (is_always_overruled (plant_of self.now.system.now) (interactions_in self.now.system.now) (contains self.now.rivals.now) n)) }
        ensures others { (n : ℕ) → is_of_connector (interactions_in self.now.system.now) connector n ≡ false → contains kept.new n ≡ contains kept.old n }
        ensures same { result ≡ false → (n : ℕ) → contains kept.new n ≡ contains kept.old n }
    {
        let rows = &self.system.connector_rows[connector];
        let rank = &self.system.ranks.of_connectors[connector];
        let is_out = self.is_out(connector, rank);
        let mut is_new = false;
        for place in usize::from(rows.low)..usize::from(rows.high) {
            let word = if is_out {
                0
            } else {
                self.word_kept(connector, rows, rank, place)
            };
            is_new |= put_word(rows.own.word(place), place, word, kept);
        }
        is_new
    }

    /// Which of the 64 interactions from 64 times the place on are of the connector, possible, and below no rival.
    #[inline]
    pub(crate) fn word_again(&self, connector: usize, rows: &ConnectorRows, place: usize) -> u64
        requires place { place < ROW_WORDS }
        requires connector { connector < length (plant_of self.now.system.now).wires }
        requires rows { slice_get self.now.system.now.connector_rows.items connector ≡ Some rows.now }
        ensures { (n : ℕ) → n / 64 ≡ place → has_bit result (n % 64) ≡ (is_of_connector (interactions_in self.now.system.now) connector n && (contains self.now.possible.now n && not (is_always_overruled (plant_of self.now.system.now) (interactions_in self.now.system.now) (contains self.now.rivals.now) n))) }
    {
        let rank = &self.system.ranks.of_connectors[connector];
        if self.is_out(connector, rank) {
            0
        } else {
            self.word_kept(connector, rows, rank, place)
        }
    }

    /// Whether a rival is above each interaction of the connector, by what its rank knows to be above all of them.
    #[inline]
    fn is_out(&self, connector: usize, rank: &Rank) -> bool
        requires { slice_get self.now.system.now.ranks.of_connectors.items connector ≡ Some rank.now }
        ensures out { result ≡ true → (n : ℕ) → is_of_connector (interactions_in self.now.system.now) connector n ≡ true → is_always_overruled (plant_of self.now.system.now) (interactions_in self.now.system.now) (contains self.now.rivals.now) n ≡ true }
        ensures free { result ≡ false → IsFree (interactions_in self.now.system.now) self.now.system.now.ranks (contains self.now.rivals.now) connector rank.now }
    {
        rank.whole & self.standing.live != 0 || has_connector(self.standing.over, connector)
    }

    /// Whether an interaction in one of the parts is a rival.
    fn has_rival_in(&self, parts: &[Part]) -> bool
        requires { (k : ℕ) (p : Part) → slice_get parts.now k ≡ Some p → p.place < ROW_WORDS }
        ensures some { result ≡ true → (m : ℕ) × (is_in_parts parts.now m ≡ true) × (contains self.now.rivals.now m ≡ true) }
        ensures none { result ≡ false → (m : ℕ) → is_in_parts parts.now m ≡ true → contains self.now.rivals.now m ≡ false }
    {
        for part in parts {
            let here = self.rivals.word(usize::from(part.place));
            if here & part.word != 0 {
                return true;
            }
        }
        false
    }

    /// Which of the 64 interactions from 64 times the place on are of the connector, possible, and below no rival, where what is above all
    /// of the connector's is no rival.
    #[inline]
    fn word_kept(&self, connector: usize, rows: &ConnectorRows, rank: &Rank, place: usize) -> u64
        requires place { place < ROW_WORDS }
        requires connector { connector < length (plant_of self.now.system.now).wires }
        requires rows { slice_get self.now.system.now.connector_rows.items connector ≡ Some rows.now }
        requires rank { slice_get self.now.system.now.ranks.of_connectors.items connector ≡ Some rank.now }
        requires free { IsFree (interactions_in self.now.system.now) self.now.system.now.ranks (contains self.now.rivals.now) connector rank.now }
        ensures { (n : ℕ) → n / 64 ≡ place → has_bit result (n % 64) ≡ (is_of_connector (interactions_in self.now.system.now) connector n && (contains self.now.possible.now n && not (is_always_overruled (plant_of self.now.system.now) (interactions_in self.now.system.now) (contains self.now.rivals.now) n))) }
    {
        let mut word = self.possible.word(place) & rows.own.word(place);
        if !rank.is_flat {
            word = self.without_lower(connector, rows, place, word);
        }
        self.without_overruled(place, word)
    }

    /// Those of some of 64 interactions that are below no rival of the connector.
    pub(crate) fn without_lower(
        &self,
        connector: usize,
        rows: &ConnectorRows,
        place: usize,
        word: u64,
    ) -> u64
        requires place { place < ROW_WORDS }
        requires connector { connector < length (plant_of self.now.system.now).wires }
        requires rows { slice_get self.now.system.now.connector_rows.items connector ≡ Some rows.now }
        ensures within { (k : ℕ) → has_bit word k ≡ false → has_bit result k ≡ false }
        ensures goes { (n m : ℕ) → n / 64 ≡ place → is_of_connector (interactions_in self.now.system.now) connector m ≡ true → contains self.now.rivals.now m ≡ true → is_always_below (plant_of self.now.system.now) (interactions_in self.now.system.now) n m ≡ true → has_bit result (n % 64) ≡ false }
        ensures gone { (n : ℕ) → n / 64 ≡ place → has_bit word (n % 64) ≡ true → has_bit result (n % 64) ≡ false → is_always_overruled (plant_of self.now.system.now) (interactions_in self.now.system.now) (contains self.now.rivals.now) n ≡ true }
    {
        let mut here = word;
        for other in usize::from(rows.low)..usize::from(rows.high) {
            let rivals = self.rivals.word(other) & rows.own.word(other);
            here = self.without_below(other, rivals, place, here);
        }
        here
    }

    /// Those of some of 64 interactions that are below none of the rivals: some of the 64 from 64 times `other` on. It goes from the
    /// highest number down and passes over those that are below one that it has looked at, since what is below these is below that.
    pub(crate) fn without_below(&self, other: usize, rivals: u64, place: usize, word: u64) -> u64
        requires place { place < ROW_WORDS }
        requires other { other < ROW_WORDS }
        requires rivals { (m : ℕ) → m / 64 ≡ other → has_bit rivals (m % 64) ≡ true → contains self.now.rivals.now m ≡ true }
        ensures within { (k : ℕ) → has_bit word k ≡ false → has_bit result k ≡ false }
        ensures goes { (n m : ℕ) → n / 64 ≡ place → m / 64 ≡ other → has_bit rivals (m % 64) ≡ true → is_always_below (plant_of self.now.system.now) (interactions_in self.now.system.now) n m ≡ true → has_bit result (n % 64) ≡ false }
        ensures gone { (n : ℕ) → n / 64 ≡ place → has_bit word (n % 64) ≡ true → has_bit result (n % 64) ≡ false → is_always_overruled (plant_of self.now.system.now) (interactions_in self.now.system.now) (contains self.now.rivals.now) n ≡ true }
    {
        let mut here = word;
        let mut left = rivals;
        while left != 0 {
            let bit = 63 - left.leading_zeros() as usize;
            let rival = (64 * other + bit) as u16;
            here &= !self.system.order.below_word(rival, place);
            left &= !(1 << bit) & !self.system.order.below_word(rival, other);
        }
        here
    }

    /// Those of some of 64 interactions that have no rival in their rest.
    fn without_overruled(&self, place: usize, word: u64) -> u64
        requires place { place < ROW_WORDS }
        requires there { (n : ℕ) → n / 64 ≡ place → has_bit word (n % 64) ≡ true → n < length (interactions_in self.now.system.now) }
        ensures within { (k : ℕ) → has_bit word k ≡ false → has_bit result k ≡ false }
        ensures goes { (n m : ℕ) → n / 64 ≡ place → is_in_rest self.now.system.now.ranks n m ≡ true → contains self.now.rivals.now m ≡ true → has_bit result (n % 64) ≡ false }
        ensures gone { (n : ℕ) → n / 64 ≡ place → has_bit word (n % 64) ≡ true → has_bit result (n % 64) ≡ false → is_always_overruled (plant_of self.now.system.now) (interactions_in self.now.system.now) (contains self.now.rivals.now) n ≡ true }
    {
        let mut here = word;
        let mut left = word & self.system.ranks.with_rest.word(place);
        while left != 0 {
            let bit = left.trailing_zeros() as usize;
            left &= left - 1;
            if self.has_rival_in(&self.system.ranks.rest[64 * place + bit]) {
                here &= !(1 << bit);
            }
        }
        here
    }
}
