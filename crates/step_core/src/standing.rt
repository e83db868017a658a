//! Which connectors have a rival, which have one above all of them, and what other connectors see of one of which the rivals change.
ghost use Rattle.std.specs.Prelude.{◌≡◌, ◌≢◌, ◌↔◌, ◌⊎◌, ◌≤◌, ◌<◌, ◌/◌, ◌%◌, ◌&&◌, ◌||◌, ℕ, Bool, true, false, length, slice_index_or};
ghost use Rattle.std.specs.FinSet.{contains};
ghost use Rattle.priority_filter.specs.Members.{has_bit};
ghost use Rattle.priority_filter.specs.declared.interaction_set.TheConstants.{ROW_WORDS};
ghost use Rattle.plant_model.specs.ConnectorRows.{is_of_connector};
ghost use Rattle.plant_model.specs.Ranks.{HasRival, IsLive};
ghost use Rattle.plant_model.specs.System.{interactions_in, plant_of};
ghost use Rattle.step_core.specs.Standing.{AreLive, AreOver, AreRivals, IsRivalry, IsStanding, but_heads, is_always_overruled};

use crate::words::put_word;
use plant_model::{Ranks, System};
use priority_filter::InteractionSet;

/// Which connectors have a rival, an interaction that is possible, or may become so, and overrules what is below it; and of which all
/// interactions are below a head that is one.
#[derive(Drop)]
pub(crate) struct Standing {
    /// Bit k for connector k, which has a rival. That of a connector with no interaction above or below one of another connector may be anything.
    pub(crate) live: u64,
    /// Bit k for connector k, which has a head that is a rival. That of a connector without interactions may be anything.
    pub(crate) over: u64,
}

/// What other connectors see of a connector once its rivals are others than before.
#[derive(Drop)]
pub(crate) struct Rivalry {
    /// Whether one of its interactions is a rival now.
    pub(crate) has_rival: bool,
    /// Whether one that is in a rest may be a rival now and was none, or the other way round.
    pub(crate) is_watched_new: bool,
    /// Whether a head may be a rival now and was none, or the other way round.
    pub(crate) is_head_new: bool,
}

impl Rivalry {
    /// That of a connector of which nothing was looked at so far.
    pub(crate) fn none() -> Rivalry
        ensures rival { result.has_rival ≡ false }
        ensures watched { result.is_watched_new ≡ false }
        ensures head { result.is_head_new ≡ false }
    {
        Rivalry {
            has_rival: false,
            is_watched_new: false,
            is_head_new: false,
        }
    }

    /// Looks at those of its interactions that are among the 64 from 64 times the place on: which were rivals before, and which are now.
    #[inline]
    pub(crate) fn look(&mut self, ranks: &Ranks, place: usize, before: u64, now: u64)
        requires place { place < ROW_WORDS }
        ensures rival { (self.new.has_rival ≡ true) ↔ ((self.old.has_rival ≡ true) ⊎ ((k : ℕ) × (k < 64) × (has_bit now k ≡ true))) }
        ensures was_watched { self.new.is_watched_new ≡ false → self.old.is_watched_new ≡ false }
        ensures watched { self.new.is_watched_new ≡ false → (n : ℕ) → n / 64 ≡ place → contains ranks.now.watched n ≡ true → has_bit now (n % 64) ≡ has_bit before (n % 64) }
        ensures was_head { self.new.is_head_new ≡ false → self.old.is_head_new ≡ false }
        ensures head { self.new.is_head_new ≡ false → (n : ℕ) → n / 64 ≡ place → contains ranks.now.heads n ≡ true → has_bit now (n % 64) ≡ has_bit before (n % 64) }
    {
        let differing = before ^ now;
        self.has_rival |= now != 0;
        self.is_watched_new |= differing & ranks.watched.word(place) != 0;
        self.is_head_new |= differing & ranks.heads.word(place) != 0;
    }
}

/// What stands where these are the rivals.
pub(crate) fn standing_of(system: &System, rivals: &InteractionSet) -> Standing
    ensures { IsStanding (plant_of system.now) (interactions_in system.now) system.now.ranks (contains rivals.now) result }
{
    Standing {
        live: live_of(system, rivals),
        over: over_of(system, rivals),
    }
}

/// The connectors that have a rival: bit k for connector k.
fn live_of(system: &System, rivals: &InteractionSet) -> u64
    ensures { IsLive (interactions_in system.now) (contains rivals.now) result }
{
    let mut live = 0;
    for connector in 0..system.wires.len() {
        if has_rival(system, connector, rivals) {
            live |= 1 << connector;
        }
    }
    live
}

/// Whether an interaction of the connector is a rival.
fn has_rival(system: &System, connector: usize, rivals: &InteractionSet) -> bool
    requires { connector < length (plant_of system.now).wires }
    ensures { (result ≡ true) ↔ HasRival (interactions_in system.now) (contains rivals.now) connector }
{
    let rows = &system.connector_rows[connector];
    for place in usize::from(rows.low)..usize::from(rows.high) {
        if rivals.word(place) & rows.own.word(place) != 0 {
            return true;
        }
    }
    false
}

/// The connectors that have a head that is a rival: bit k for connector k.
fn over_of(system: &System, rivals: &InteractionSet) -> u64
    ensures { AreOver (plant_of system.now) (interactions_in system.now) system.now.ranks (contains rivals.now) result }
{
    let words = system.interactions.len().div_ceil(64);
    let mut over = 0;
    for place in 0..words {
        let heads = rivals.word(place) & system.ranks.heads.word(place);
        over |= below_heads(system, place, heads);
    }
    over
}

/// The connectors that have one of these heads: some of 64 interactions, those from 64 times the place on whose bit in the word is set.
fn below_heads(system: &System, place: usize, word: u64) -> u64
    requires heads { (m : ℕ) → m / 64 ≡ place → has_bit word (m % 64) ≡ true → contains system.now.ranks.heads m ≡ true }
    ensures some { (k : ℕ) → has_bit result k ≡ true → (m : ℕ) × (m / 64 ≡ place) × (has_bit word (m % 64) ≡ true) × (has_bit (slice_index_or system.now.ranks.below_head.items m 0) k ≡ true) }
    ensures all { (k m : ℕ) → m / 64 ≡ place → has_bit word (m % 64) ≡ true → has_bit (slice_index_or system.now.ranks.below_head.items m 0) k ≡ true → has_bit result k ≡ true }
{
    let mut below = 0;
    let mut left = word;
    while left != 0 {
        let bit = left.trailing_zeros() as usize;
        left &= left - 1;
        below |= system.ranks.below_head[64 * place + bit];
    }
    below
}

/// Brings the rivals up to date where those of the connectors in `changed` may be others: those that are possible, and those that are open.
/// Tells these, and each other connector of which something possible is overruled now that was not, or the other way round, by the rules
/// without a condition.
pub(crate) fn stand_again(
    system: &System,
    possible: &InteractionSet,
    opened: &InteractionSet,
    changed: u64,
    rivals: &mut InteractionSet,
    standing: &mut Standing,
) -> u64
    requires within { (k : ℕ) → length (plant_of system.now).wires ≤ k → has_bit changed k ≡ false }
    requires standing { IsStanding (plant_of system.now) (interactions_in system.now) system.now.ranks (contains rivals.old) standing.old }
    requires others { (n k : ℕ) → is_of_connector (interactions_in system.now) k n ≡ true → has_bit changed k ≡ false → contains rivals.old n ≡ (contains possible.now n || contains opened.now n) }
    ensures standing { IsStanding (plant_of system.now) (interactions_in system.now) system.now.ranks (contains rivals.new) standing.new }
    ensures rivals { AreRivals (interactions_in system.now) (λ n. contains possible.now n || contains opened.now n) rivals.new }
    ensures within { (k : ℕ) → length (plant_of system.now).wires ≤ k → has_bit result k ≡ false }
    ensures changed { (k : ℕ) → has_bit changed k ≡ true → has_bit result k ≡ true }
    ensures told { (n k : ℕ) → is_of_connector (interactions_in system.now) k n ≡ true → has_bit result k ≡ false → contains possible.now n ≡ true → is_always_overruled (plant_of system.now) (interactions_in system.now) (contains rivals.new) n ≡ is_always_overruled (plant_of system.now) (interactions_in system.now) (contains rivals.old) n }
{
    let mut reached = 0;
    let mut is_head_new = false;
    let mut left = changed;
    while left != 0 {
        let connector = left.trailing_zeros() as usize;
        left &= left - 1;
        let rivalry = copy_own(system, possible, opened, connector, rivals);
        reached |= stand_one(system, connector, &rivalry, &mut standing.live);
        is_head_new |= rivalry.is_head_new;
    }
    if is_head_new {
        reached |= stand_over(system, rivals, &mut standing.over);
    }
    // Of a connector without a rival nothing is possible.
    changed | reached & standing.live
}

/// Brings up to date whether the connector has a rival. Tells each other connector of which an interaction may be overruled now that was
/// not, or the other way round, by the rules without a condition and by rivals that are not above all of that connector as heads.
#[inline]
pub(crate) fn stand_one(system: &System, connector: usize, rivalry: &Rivalry, live: &mut u64) -> u64
    requires { connector < length (plant_of system.now).wires }
    ensures within { (k : ℕ) → length (plant_of system.now).wires ≤ k → has_bit result k ≡ false }
    ensures live { (old new : ℕ → Bool) → IsRivalry (interactions_in system.now) system.now.ranks connector old new rivalry.now → AreLive (plant_of system.now) (interactions_in system.now) old live.old → AreLive (plant_of system.now) (interactions_in system.now) new live.new }
    ensures told { (old new : ℕ → Bool) → IsRivalry (interactions_in system.now) system.now.ranks connector old new rivalry.now → AreLive (plant_of system.now) (interactions_in system.now) old live.old → (n k : ℕ) → is_of_connector (interactions_in system.now) k n ≡ true → k ≢ connector → has_bit result k ≡ false → is_always_overruled (plant_of system.now) (interactions_in system.now) (but_heads system.now.ranks (interactions_in system.now) k new) n ≡ is_always_overruled (plant_of system.now) (interactions_in system.now) (but_heads system.now.ranks (interactions_in system.now) k old) n }
{
    let rank = &system.ranks.of_connectors[connector];
    let mut reached = 0;
    if rivalry.is_watched_new {
        reached = rank.below_rest;
    }
    let now = with_bit(*live, connector, rivalry.has_rival);
    if now != *live {
        *live = now;
        reached |= rank.below_whole;
    }
    reached
}

/// Brings up to date which connectors have a head that is a rival. Tells those of which this is new.
pub(crate) fn stand_over(system: &System, rivals: &InteractionSet, over: &mut u64) -> u64
    ensures over { AreOver (plant_of system.now) (interactions_in system.now) system.now.ranks (contains rivals.now) over.new }
    ensures told { (k : ℕ) → has_bit result k ≡ false → has_bit over.new k ≡ has_bit over.old k }
    ensures within { (k : ℕ) → length (plant_of system.now).wires ≤ k → has_bit over.old k ≡ false → has_bit result k ≡ false }
{
    let now = over_of(system, rivals);
    let differing = now ^ *over;
    *over = now;
    differing
}

/// The word with this bit set, or not.
#[inline]
fn with_bit(word: u64, bit: usize, is_set: bool) -> u64
    requires { bit < 64 }
    ensures here { has_bit result bit ≡ is_set }
    ensures others { (k : ℕ) → ¬ (k ≡ bit) → has_bit result k ≡ has_bit word k }
{
    if is_set {
        word | 1 << bit
    } else {
        word & !(1 << bit)
    }
}

/// Makes the set of rivals right at each interaction of the connector: it has those that are in one of two other sets.
#[inline]
pub(crate) fn copy_own(
    system: &System,
    one: &InteractionSet,
    other: &InteractionSet,
    connector: usize,
    set: &mut InteractionSet,
) -> Rivalry
    requires { connector < length (plant_of system.now).wires }
    ensures own { (n : ℕ) → is_of_connector (interactions_in system.now) connector n ≡ true → contains set.new n ≡ (contains one.now n || contains other.now n) }
    ensures rivalry { IsRivalry (interactions_in system.now) system.now.ranks connector (contains set.old) (contains set.new) result }
{
    let rows = &system.connector_rows[connector];
    let mut rivalry = Rivalry::none();
    for place in usize::from(rows.low)..usize::from(rows.high) {
        let own = rows.own.word(place);
        let before = set.word(place) & own;
        let now = (one.word(place) | other.word(place)) & own;
        rivalry.look(&system.ranks, place, before, now);
        let _ = put_word(own, place, now, set);
    }
    rivalry
}

/// What other connectors see of the connector where these were the rivals before, and these are now.
pub(crate) fn rivalry_of(
    system: &System,
    connector: usize,
    before: &InteractionSet,
    now: &InteractionSet,
) -> Rivalry
    requires connector { connector < length (plant_of system.now).wires }
    requires others { (n : ℕ) → is_of_connector (interactions_in system.now) connector n ≡ false → contains now.now n ≡ contains before.now n }
    ensures { IsRivalry (interactions_in system.now) system.now.ranks connector (contains before.now) (contains now.now) result }
{
    let rows = &system.connector_rows[connector];
    let mut rivalry = Rivalry::none();
    for place in usize::from(rows.low)..usize::from(rows.high) {
        let own = rows.own.word(place);
        rivalry.look(
            &system.ranks,
            place,
            before.word(place) & own,
            now.word(place) & own,
        );
    }
    rivalry
}
