//! A set of interaction numbers, kept as a row of bits.
ghost use Rattle.std.specs.Prelude.{◌≡◌, ℕ, ◌*◌, ◌/◌, ◌%◌, ◌&&◌, ◌||◌, ◌<◌, ◌≤◌, ◌↔◌, true, false, not, IsTrue, bit_or, slice_index};
ghost use Rattle.std.specs.Ordering.{nat_cmp};
ghost use Rattle.std.specs.FinSet as set;
ghost use Rattle.std.specs.Coded.{coded_ℕ};
ghost use Rattle.priority_filter.specs.Members.{has_bit, holds, members_of};

use std::marker::Model;

/// How many interactions a plant has at most.
pub const INTERACTION_LIMIT: usize = 1024;

/// How many words of 64 bits a set of interactions has.
pub const ROW_WORDS: usize = INTERACTION_LIMIT / 64;

/// Interactions, by their numbers. Every operation goes over a few words and takes no memory.
#[derive(Drop)]
pub struct InteractionSet {
    words: [u64; ROW_WORDS],
}

impl Model for InteractionSet {
    ghost Value = { set.FinSet nat_cmp };

    ghost coded = { set.code coded_ℕ };

    ghost view = { λ s. members_of s.words };
}

impl InteractionSet {
    /// The set of no interaction.
    pub fn new() -> Self
        ensures { result ≡ set.empty }
    {
        InteractionSet {
            words: [0; ROW_WORDS],
        }
    }

    /// Whether the interaction is in the set.
    pub fn contains(&self, interaction: u16) -> bool
        ensures held { result ≡ set.contains self.now interaction }
        ensures past { INTERACTION_LIMIT ≤ interaction → result ≡ false }
    {
        let place = usize::from(interaction);
        place < INTERACTION_LIMIT && (self.words[place / 64] >> (place % 64)) & 1 == 1
    }

    /// A number that no interaction can have is not put in.
    pub fn insert(&mut self, interaction: u16)
        ensures within { interaction < INTERACTION_LIMIT → self.new ≡ set.insert self.old interaction }
        ensures past { INTERACTION_LIMIT ≤ interaction → self.new ≡ self.old }
    {
        let place = usize::from(interaction);
        if place < INTERACTION_LIMIT {
            self.words[place / 64] |= 1 << (place % 64);
        }
    }

    /// Takes all interactions out.
    pub fn clear(&mut self)
        ensures { self.new ≡ set.empty }
    {
        self.words = [0; ROW_WORDS];
    }

    /// The same interactions in a set of its own.
    pub fn copy(&self) -> Self
        ensures { result ≡ self.now }
    {
        InteractionSet { words: self.words }
    }

    /// Puts in each interaction of the other set.
    pub fn union_with(&mut self, other: &InteractionSet)
        ensures { self.new ≡ set.union self.old other.now }
    {
        unite(&mut self.words, &other.words, ROW_WORDS);
    }

    /// Puts in what the first words of the other set have: each interaction below 64 for each of the words.
    pub fn union_words(&mut self, other: &InteractionSet, words: usize)
        requires { words ≤ ROW_WORDS }
        ensures within { (n : ℕ) → n < 64 * words → set.contains self.new n ≡ (set.contains self.old n || set.contains other.now n) }
        ensures past { (n : ℕ) → 64 * words ≤ n → set.contains self.new n ≡ set.contains self.old n }
    {
        unite(&mut self.words, &other.words, words);
    }

    /// Which of the 64 interactions from 64 times the place on are in the set, bit k for the one with k after these.
    pub fn word(&self, place: usize) -> u64
        requires { place < ROW_WORDS }
        ensures { (n : ℕ) → n / 64 ≡ place → has_bit result (n % 64) ≡ set.contains self.now n }
    {
        self.words[place]
    }

    /// Puts in, of the 64 interactions from 64 times the place on, those whose bit is set, bit k for the one with k after these,
    /// and takes the others of them out.
    pub fn set_word(&mut self, place: usize, word: u64)
        requires { place < ROW_WORDS }
        ensures here { (n : ℕ) → n / 64 ≡ place → set.contains self.new n ≡ has_bit word (n % 64) }
        ensures others { (n : ℕ) → ¬ (n / 64 ≡ place) → set.contains self.new n ≡ set.contains self.old n }
    {
        self.words[place] = word;
    }

    /// Whether some interaction is in both sets.
    fn intersects(&self, other: &InteractionSet) -> bool
        ensures { IsTrue result
            ↔ ((a : ℕ) × IsTrue (set.contains self.now a) × IsTrue (set.contains other.now a)) }
    {
        have_common_bit(&self.words, &other.words, ROW_WORDS)
    }

    /// Whether one of the 64 interactions from 64 times the place on, if there are any, is in both sets.
    pub(crate) fn meets_at(&self, other: &InteractionSet, place: usize) -> bool
        ensures { IsTrue result
            ↔ ((a : ℕ) × (a / 64 ≡ place) × IsTrue (set.contains self.now a) × IsTrue (set.contains other.now a)) }
    {
        place < ROW_WORDS && self.words[place] & other.words[place] != 0
    }

    /// Whether some interaction below 64 for each of the words is in both sets.
    pub(crate) fn meets(&self, other: &InteractionSet, words: usize) -> bool
        requires { words ≤ ROW_WORDS }
        ensures { IsTrue result
            ↔ ((a : ℕ) × (a < 64 * words) × IsTrue (set.contains self.now a) × IsTrue (set.contains other.now a)) }
    {
        have_common_bit(&self.words, &other.words, words)
    }

    /// Whether no interaction is in the set.
    pub(crate) fn is_empty(&self) -> bool
        ensures { IsTrue result ↔ ((a : ℕ) → set.contains self.now a ≡ false) }
    {
        !self.intersects(self)
    }

    /// Puts in each interaction of the other set below 64 for each of the words, and says whether one was not in before.
    pub(crate) fn add_words(&mut self, other: &InteractionSet, words: usize) -> bool
        requires { words ≤ ROW_WORDS }
        ensures within { (n : ℕ) → n < 64 * words → set.contains self.new n ≡ (set.contains self.old n || set.contains other.now n) }
        ensures past { (n : ℕ) → 64 * words ≤ n → set.contains self.new n ≡ set.contains self.old n }
        ensures same { result ≡ false → self.new ≡ self.old }
        ensures more { result ≡ true → ((n : ℕ) × (n < 64 * words) × (set.contains self.old n ≡ false) × (set.contains self.new n ≡ true)) }
    {
        let added = has_other_bit(&other.words, &self.words, words);
        if added {
            self.union_words(other, words);
        }
        added
    }

    /// Takes out each interaction of the other set below 64 for each of the words.
    pub(crate) fn remove_words(&mut self, other: &InteractionSet, words: usize)
        requires { words ≤ ROW_WORDS }
        ensures within { (n : ℕ) → n < 64 * words → set.contains self.new n ≡ (set.contains self.old n && not (set.contains other.now n)) }
        ensures past { (n : ℕ) → 64 * words ≤ n → set.contains self.new n ≡ set.contains self.old n }
    {
        subtract(&mut self.words, &other.words, words);
    }
}

/// Sets each bit of the first words that is set in the other words.
fn unite(words: &mut [u64; ROW_WORDS], other: &[u64; ROW_WORDS], count: usize)
    requires { count ≤ ROW_WORDS }
    ensures united { (k : ℕ) → k < count
        → slice_index words.new k ≡ bit_or (slice_index words.old k) (slice_index other.now k) }
    ensures rest { (k : ℕ) → count ≤ k → slice_index words.new k ≡ slice_index words.old k }
{
    // Most plants have no more interactions than one word holds: these take no loop.
    if count == 1 {
        words[0] |= other[0];
        return;
    }
    for k in 0..count {
        words[k] |= other[k];
    }
}

/// Whether some bit of the first words is set in both.
fn have_common_bit(words: &[u64; ROW_WORDS], other: &[u64; ROW_WORDS], count: usize) -> bool
    requires { count ≤ ROW_WORDS }
    ensures { IsTrue result ↔ ((a : ℕ) × (a < 64 * count) × IsTrue (holds words.now a) × IsTrue (holds other.now a)) }
{
    for k in 0..count {
        let common = words[k] & other[k];
        if common != 0 {
            return true;
        }
    }
    false
}

/// Whether some bit of the first words is set and is not set in the others.
fn has_other_bit(words: &[u64; ROW_WORDS], other: &[u64; ROW_WORDS], count: usize) -> bool
    requires { count ≤ ROW_WORDS }
    ensures { IsTrue result ↔ ((a : ℕ) × (a < 64 * count) × IsTrue (holds words.now a) × (holds other.now a ≡ false)) }
{
    for k in 0..count {
        let more = words[k] & !other[k];
        if more != 0 {
            return true;
        }
    }
    false
}

/// Clears each bit of the first words that is set in the other words.
fn subtract(words: &mut [u64; ROW_WORDS], other: &[u64; ROW_WORDS], count: usize)
    requires { count ≤ ROW_WORDS }
    ensures cleared { (n : ℕ) → n < 64 * count → holds words.new n ≡ (holds words.old n && not (holds other.now n)) }
    ensures rest { (k : ℕ) → count ≤ k → slice_index words.new k ≡ slice_index words.old k }
{
    for k in 0..count {
        words[k] &= !other[k];
    }
}
