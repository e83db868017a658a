//! The offered transitions of a state as one set, so that each transition is judged once in a step.
ghost use Rattle.std.specs.Prelude.{◌≡◌, ℕ, ◌+◌, ◌<◌, ◌≤◌, ◌&&◌, ◌==◌, not, IsTrue, Some, bit_and, count_ones, length, slice_get, slice_index_or, slice_set};
ghost use Rattle.petri_atom.specs.Local.{Local, Row, has, numbers_below, set_below};
ghost use Rattle.petri_atom.specs.Behind.{CountsFollow, MovableFollows, OfferedFollows, movable_set};
ghost use Rattle.petri_atom.specs.Groups.{can_move_number, passes_bare, passes_guard};
ghost use Rattle.petri_atom.specs.Definition.{enabled, fired, first_from, offered_set, offers_number, offers_port};
ghost use Rattle.petri_atom.specs.Parts.{set_of_port};
ghost use Rattle.petri_atom.specs.declared.parts.TheConstants.{MAX_PORTS, MAX_TRANSITIONS};

use crate::atom::Atom;
use crate::groups::movable;
use crate::moving::{low_word, moving, moving_from};
use crate::parts::MAX_PORTS;
use crate::state::AtomState;
use std::marker::Model;

/// A set of transitions of one atom, by their numbers. In a contract it is the number whose bits they are.
#[derive(Clone, Copy, PartialEq, Eq, Drop)]
pub struct TransitionSet {
    word: u128,
}

impl Model for TransitionSet {
    ghost use Rattle.std.specs.Prelude.{ℕ};

    ghost Value = { ℕ };

    ghost view = { λ s. s.word };

    ghost inverse = { λ word. record { word = word } };
}

impl TransitionSet {
    /// No transition.
    pub fn empty() -> Self
        ensures { result ≡ 0 }
    {
        TransitionSet { word: 0 }
    }

    /// The set with these bits.
    pub(crate) fn of(word: u128) -> Self
        ensures { result ≡ word }
    {
        TransitionSet { word }
    }

    /// Whether the set has the transition.
    pub fn contains(self, transition: u16) -> bool
        ensures { result ≡ has self transition }
    {
        transition < 128 && (self.word >> transition) & 1 == 1
    }
}

impl Atom {
    ghost use Rattle.petri_atom.specs.Atom.{definition_of};

    /// The transitions that the state offers.
    pub fn offered(&self, state: &AtomState) -> TransitionSet
        ensures { result ≡ offered_set (definition_of self.now) state.now }
    {
        let movable = movable(&self.groups, state.places());
        let passing = self.unguarded_in(state, movable & !self.unguarded);
        TransitionSet {
            word: movable & self.unguarded | passing,
        }
    }

    /// The transitions that the marking of the state lets move.
    pub fn movable_in(&self, state: &AtomState) -> TransitionSet
        ensures { result ≡ movable_set (definition_of self.now) state.now }
    {
        TransitionSet {
            word: movable(&self.groups, state.places()),
        }
    }

    /// Whether a firing of the transition leaves what can move and what is offered as it was.
    pub fn is_quiet(&self, transition: u16) -> bool
        requires { transition < length (definition_of self.now).transitions }
        ensures movable { IsTrue result → (before : Local) (delivered : Row) → IsTrue (offers_number (definition_of self.now) before transition) → movable_set (definition_of self.now) (fired (definition_of self.now) transition delivered before) ≡ movable_set (definition_of self.now) before }
        ensures offered { IsTrue result → (before : Local) (delivered : Row) → IsTrue (offers_number (definition_of self.now) before transition) → offered_set (definition_of self.now) (fired (definition_of self.now) transition delivered before) ≡ offered_set (definition_of self.now) before }
    {
        let told = &self.behind[usize::from(transition)];
        told.is_quiet
    }

    /// Brings the sets of a state up to date after the transition was fired in it: the transitions that can move, and those that are
    /// offered. A marking is asked only of those of which nothing else tells, and a guard is judged only of those that can move now and
    /// could not before, or whose guard may read what was written.
    pub fn judge_behind(
        &self,
        state: &AtomState,
        transition: u16,
        movable: &mut TransitionSet,
        offered: &mut TransitionSet,
    )
        ensures movable { (before : Local) (delivered : Row) → IsTrue (offers_number (definition_of self.now) before transition) → movable.old ≡ movable_set (definition_of self.now) before → state.now ≡ fired (definition_of self.now) transition delivered before → movable.new ≡ movable_set (definition_of self.now) state.now }
        ensures offered { (before : Local) (delivered : Row) → IsTrue (offers_number (definition_of self.now) before transition) → movable.old ≡ movable_set (definition_of self.now) before → offered.old ≡ offered_set (definition_of self.now) before → state.now ≡ fired (definition_of self.now) transition delivered before → offered.new ≡ offered_set (definition_of self.now) state.now }
    {
        if self.has_few() {
            self.judge_few(state, transition, movable, offered);
        } else {
            self.judge_many(state, transition, movable, offered);
        }
    }

    /// Whether a word of 64 bits has room for all transitions. Most atoms are so, and a step then takes fewer instructions.
    fn has_few(&self) -> bool
        ensures { IsTrue result → length (definition_of self.now).transitions ≤ 64 }
    {
        self.transitions.len() <= 64
    }

    /// Brings the sets of a state up to date in words of 64 bits.
    fn judge_few(
        &self,
        state: &AtomState,
        transition: u16,
        movable: &mut TransitionSet,
        offered: &mut TransitionSet,
    )
        requires few { length (definition_of self.now).transitions ≤ 64 }
        ensures movable { MovableFollows (definition_of self.now) transition state.now movable.old movable.new }
        ensures offered { OfferedFollows (definition_of self.now) transition state.now movable.old offered.old offered.new }
    {
        if let Some(told) = self.behind.get(usize::from(transition)) {
            let could = low_word(movable.word);
            let asked = self.moving_few(state, low_word(told.ask));
            let can = could & low_word(told.keep) | low_word(told.make) | asked;
            let newly = can & !could;
            let judged = can & !low_word(self.unguarded) & (newly | low_word(told.again));
            let holding = self.bare_from(state, 0, judged);
            let passed = judged & (holding ^ low_word(self.turned));
            let was = low_word(offered.word);
            movable.word = u128::from(can);
            offered.word = u128::from((was & can | newly) & !judged | passed);
        }
    }

    /// The same in words of 128 bits, of any atom.
    fn judge_many(
        &self,
        state: &AtomState,
        transition: u16,
        movable: &mut TransitionSet,
        offered: &mut TransitionSet,
    )
        ensures movable { MovableFollows (definition_of self.now) transition state.now movable.old movable.new }
        ensures offered { OfferedFollows (definition_of self.now) transition state.now movable.old offered.old offered.new }
    {
        if let Some(told) = self.behind.get(usize::from(transition)) {
            let could = movable.word;
            let asked = self.moving(state, told.ask);
            let can = could & told.keep | told.make | asked;
            let newly = can & !could;
            let judged = can & !self.unguarded & (newly | told.again);
            let passed = self.unguarded_in(state, judged);
            movable.word = can;
            offered.word = (offered.word & can | newly) & !judged | passed;
        }
    }

    /// Those of the transitions in the set that the marking of the state lets move, tested one by one.
    fn moving(&self, state: &AtomState, set: u128) -> u128
        requires { (n : ℕ) → IsTrue (has set n) → n < length (definition_of self.now).transitions }
        ensures { result ≡ set_below MAX_TRANSITIONS (λ n. has set n && can_move_number (definition_of self.now).transitions state.now.marking n) }
    {
        moving(&self.arcs, state.places(), set)
    }

    /// The same of the transitions in a word of 64 bits.
    fn moving_few(&self, state: &AtomState, set: u64) -> u64
        requires { (n : ℕ) → IsTrue (has set n) → n < length (definition_of self.now).transitions }
        ensures { result ≡ set_below 64 (λ n. has set n && can_move_number (definition_of self.now).transitions state.now.marking n) }
    {
        moving_from(&self.arcs, state.places(), 0, set)
    }

    /// Those of the transitions in the set whose guard is not 0.
    fn unguarded_in(&self, state: &AtomState, set: u128) -> u128
        requires { (n : ℕ) → IsTrue (has set n) → n < length (definition_of self.now).transitions }
        ensures { result ≡ set_below MAX_TRANSITIONS (λ n. has set n && passes_guard (definition_of self.now).transitions state.now n) }
    {
        if set == 0 {
            return 0;
        }
        set & (self.bare_in(state, set) ^ self.turned)
    }

    /// Those of the transitions in the set whose guard is not 0 without the `!` before it.
    fn bare_in(&self, state: &AtomState, set: u128) -> u128
        requires { (n : ℕ) → IsTrue (has set n) → n < length (definition_of self.now).transitions }
        ensures { result ≡ set_below MAX_TRANSITIONS (λ n. has set n && passes_bare (definition_of self.now).transitions state.now n) }
    {
        // Most atoms have at most 64 transitions: a word of 64 bits is walked in fewer steps.
        let low = self.bare_from(state, 0, (set & u128::from(u64::MAX)) as u64);
        let high = self.bare_from(state, 64, (set >> 64) as u64);
        u128::from(high) << 64 | u128::from(low)
    }

    /// The same of the transitions from the number `first` on, of which bit k of the set stands for the k-th. A guard is judged once for all of
    /// them that have the same.
    #[inline(always)]
    fn bare_from(&self, state: &AtomState, first: usize, set: u64) -> u64
        requires few { first < MAX_TRANSITIONS }
        requires there { (n : ℕ) → IsTrue (has set n) → first + n < length (definition_of self.now).transitions }
        ensures { result ≡ set_below 64 (λ n. has set n && passes_bare (definition_of self.now).transitions state.now (first + n)) }
    {
        let mut holding = 0;
        let mut left = set;
        while left != 0 {
            let code = &self.codes[first + left.trailing_zeros() as usize];
            let alike = left & code.alike_from(first);
            if code.bare_holds(state) {
                holding |= alike;
            }
            left ^= alike;
        }
        holding
    }

    /// Whether the state offers a transition of the port.
    pub fn offers(&self, state: &AtomState, port: u16) -> bool
        ensures { result ≡ offers_port (definition_of self.now) state.now port }
    {
        self.offered(state).word & self.mask_of(port) != 0
    }

    /// The least transition of the port, from the number `from` on, that the state offers.
    pub fn first_enabled(&self, state: &AtomState, port: u16, from: u16) -> Option<u16>
        ensures { result ≡ first_from from (enabled (definition_of self.now) state.now port) }
    {
        first_in(self.offered(state).word & self.mask_of(port), from)
    }

    /// How many of the port's transitions are in the set of those that a state offers.
    fn count_among(&self, offered: TransitionSet, port: u16) -> usize
        ensures few { result ≤ MAX_TRANSITIONS }
        ensures count { (state : Local) → offered ≡ offered_set (definition_of self.now) state → result ≡ length (enabled (definition_of self.now) state port) }
    {
        let word = offered.word & self.mask_of(port);
        if word == 0 {
            return 0;
        }
        word.count_ones() as usize
    }

    /// How many transitions of each port are in the set of those that a state offers, by the ports' numbers; 0 past the last port.
    pub fn counts_among(&self, offered: TransitionSet) -> [u8; MAX_PORTS]
        ensures counts { (state : Local) → offered ≡ offered_set (definition_of self.now) state → (port : ℕ) → slice_index_or result port 0 ≡ length (enabled (definition_of self.now) state port) }
        ensures past { (port : ℕ) → length (definition_of self.now).ports ≤ port → slice_index_or result port 0 ≡ 0 }
        ensures few { (port : ℕ) → slice_index_or result port 0 ≤ MAX_TRANSITIONS }
        ensures ports { length (definition_of self.now).ports ≤ MAX_PORTS }
    {
        let mut counts = [0; MAX_PORTS];
        for port in 0..self.ports().len() {
            counts[port] = self.count_among(offered, port as u16) as u8;
        }
        counts
    }

    /// Counts again how many of each port's transitions are in the set of those that a state offers, where `before` was offered until now and
    /// `counts` is right for that: only for the ports of transitions in which the two sets differ. Says at which ports the number is another one
    /// now: bit k for port k.
    pub fn recount(
        &self,
        before: TransitionSet,
        after: TransitionSet,
        counts: &mut [u8; MAX_PORTS],
    ) -> u32
        ensures counts { (s t : Local) → before ≡ offered_set (definition_of self.now) s → after ≡ offered_set (definition_of self.now) t → (port : ℕ) → slice_index_or counts.old port 0 ≡ length (enabled (definition_of self.now) s port) → slice_index_or counts.new port 0 ≡ length (enabled (definition_of self.now) t port) }
        ensures few { ((port : ℕ) → slice_index_or counts.old port 0 ≤ MAX_TRANSITIONS) → (port : ℕ) → slice_index_or counts.new port 0 ≤ MAX_TRANSITIONS }
        ensures past { (port : ℕ) → length (definition_of self.now).ports ≤ port → slice_index_or counts.new port 0 ≡ slice_index_or counts.old port 0 }
        ensures exact { (port : ℕ) → has result port ≡ not (slice_index_or counts.new port 0 == slice_index_or counts.old port 0) }
    {
        if self.has_few() {
            self.recount_few(low_word(before.word), low_word(after.word), counts)
        } else {
            self.recount_many(before.word, after.word, counts)
        }
    }

    /// The same in words of 64 bits.
    fn recount_few(&self, before: u64, after: u64, counts: &mut [u8; MAX_PORTS]) -> u32
        requires few { length (definition_of self.now).transitions ≤ 64 }
        ensures counts { CountsFollow (definition_of self.now) before after counts.old counts.new }
        ensures few { ((port : ℕ) → slice_index_or counts.old port 0 ≤ MAX_TRANSITIONS) → (port : ℕ) → slice_index_or counts.new port 0 ≤ MAX_TRANSITIONS }
        ensures past { (port : ℕ) → length (definition_of self.now).ports ≤ port → slice_index_or counts.new port 0 ≡ slice_index_or counts.old port 0 }
        ensures exact { (port : ℕ) → has result port ≡ not (slice_index_or counts.new port 0 == slice_index_or counts.old port 0) }
    {
        let mut changed = 0;
        let mut left = before ^ after;
        while left != 0 {
            let Some(arcs) = self.arcs.get(left.trailing_zeros() as usize) else {
                break;
            };
            let port = arcs.port;
            let mask = low_word(self.mask_of(port));
            changed |= set_count(counts, port, (after & mask).count_ones() as u8);
            left &= !mask;
        }
        changed
    }

    /// The same in words of 128 bits, of any atom.
    fn recount_many(&self, before: u128, after: u128, counts: &mut [u8; MAX_PORTS]) -> u32
        ensures counts { CountsFollow (definition_of self.now) before after counts.old counts.new }
        ensures few { ((port : ℕ) → slice_index_or counts.old port 0 ≤ MAX_TRANSITIONS) → (port : ℕ) → slice_index_or counts.new port 0 ≤ MAX_TRANSITIONS }
        ensures past { (port : ℕ) → length (definition_of self.now).ports ≤ port → slice_index_or counts.new port 0 ≡ slice_index_or counts.old port 0 }
        ensures exact { (port : ℕ) → has result port ≡ not (slice_index_or counts.new port 0 == slice_index_or counts.old port 0) }
    {
        let mut changed = 0;
        let mut left = before ^ after;
        while left != 0 {
            let Some(arcs) = self.arcs.get(left.trailing_zeros() as usize) else {
                break;
            };
            let port = arcs.port;
            let mask = self.mask_of(port);
            changed |= set_count(counts, port, (after & mask).count_ones() as u8);
            left &= !mask;
        }
        changed
    }

    /// The transition with this place, from 0, among the port's transitions in the set of those that a state offers, by
    /// rising number.
    pub fn nth_among(&self, offered: TransitionSet, port: u16, place: usize) -> Option<u16>
        ensures { (state : Local) → offered ≡ offered_set (definition_of self.now) state → result ≡ slice_get (enabled (definition_of self.now) state port) place }
    {
        nth_in(offered.word & self.mask_of(port), place)
    }

    /// The least transition of the port in the set of those that a state offers, of which there is one.
    pub fn first_among(&self, offered: TransitionSet, port: u16) -> u16
        requires some { 0 < bit_and offered (set_of_port port (definition_of self.now).transitions) }
        ensures { (state : Local) → offered ≡ offered_set (definition_of self.now) state → slice_get (enabled (definition_of self.now) state port) 0 ≡ Some result }
    {
        lowest_in(offered.word & self.mask_at(port))
    }
}

/// Writes down how many transitions of the port are offered. Says whether it is another number now, by the bit of the port.
fn set_count(counts: &mut [u8; MAX_PORTS], port: u16, count: u8) -> u32
    requires { port < MAX_PORTS }
    ensures counts { counts.new ≡ slice_set counts.old port count }
    ensures exact { (k : ℕ) → has result k ≡ (k == port && not (count == slice_index_or counts.old port 0)) }
{
    let place = usize::from(port);
    let is_other = count != counts[place];
    counts[place] = count;
    u32::from(is_other) << port
}

/// The number with this place, from 0, among those in the set, by rising number.
fn nth_in(set: u128, place: usize) -> Option<u16>
    ensures { result ≡ slice_get (numbers_below MAX_TRANSITIONS set) place }
{
    // A word of 64 bits is walked in fewer steps, and by its count the lower one is passed over as a whole.
    let low = low_word(set);
    let high = (set >> 64) as u64;
    let lower = low.count_ones() as usize;
    if place < lower {
        Some(nth_in_word(low, place))
    } else if place - lower < high.count_ones() as usize {
        Some(64 + nth_in_word(high, place - lower))
    } else {
        None
    }
}

/// The number with this place, from 0, among those in the word, by rising number. There is one.
fn nth_in_word(word: u64, place: usize) -> u16
    requires { place < count_ones word }
    ensures nth { slice_get (numbers_below 64 word) place ≡ Some result }
    ensures low { result < 64 }
{
    let mut left = word;
    for _ in 0..place {
        left &= left - 1;
    }
    left.trailing_zeros() as u16
}

/// The least number in the set, which has one.
fn lowest_in(set: u128) -> u16
    requires { 0 < set }
    ensures { slice_get (numbers_below MAX_TRANSITIONS set) 0 ≡ Some result }
{
    // Of a word of 64 bits one instruction tells the lowest.
    let low = low_word(set);
    if low != 0 {
        low.trailing_zeros() as u16
    } else {
        64 + ((set >> 64) as u64).trailing_zeros() as u16
    }
}

/// The least number in the set that is not before `from`.
fn first_in(set: u128, from: u16) -> Option<u16>
    ensures { result ≡ first_from from (numbers_below MAX_TRANSITIONS set) }
{
    let mut left = set;
    while left != 0 {
        let number = left.trailing_zeros() as u16;
        if from <= number {
            return Some(number);
        }
        left &= left - 1;
    }
    None
}
