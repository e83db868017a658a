//! What is seen of a plant's atoms, for the conditions of priority rules: seen once, and again after a step.
ghost use Rattle.std.specs.Prelude.{◌≡◌, ◌≢◌, ◌<◌, ◌≤◌, Bool, false, length};
ghost use Rattle.priority_filter.specs.Active.{AskAlike, may_be_marked};
ghost use Rattle.priority_filter.specs.declared.seen.At.{At};
ghost use Rattle.priority_filter.specs.declared.seen.TheConstants.{SEEN_ATOMS};
ghost use Rattle.plant_model.specs.Choice.{is_marked_at};
ghost use Rattle.plant_model.specs.Sights.{AreSeen, AreSeenBut, says};
ghost use Rattle.connector_tree.specs.declared.tree.TheConstants.{MAX_LEAVES};
ghost use Rattle.step_core.specs.EnabledTransitions.{atoms_of};

use crate::parts::PlantParts;
use plant_model::{Move, PlantState, atoms_of};
use priority_filter::{At, Order, SEEN_ATOMS, Seen};

/// States of atoms of which is seen which places are marked, as far as that is known.
pub(crate) trait Sights {
    ghost marked: { Self → At → Bool };

    /// What is seen of one atom.
    fn sight(&self, atom: u16) -> Seen
        ensures { (at : At) → at.atom ≡ atom → says result at.place ≡ marked self.now at };
}

impl Sights for PlantState {
    ghost marked = { is_marked_at };

    fn sight(&self, atom: u16) -> Seen {
        self.sight_of(atom)
    }
}

impl Sights for PlantParts {
    ghost use Rattle.step_core.specs.Parts.{may_be_marked_in};

    ghost marked = { may_be_marked_in };

    /// Nothing is known of an atom that is away.
    fn sight(&self, atom: u16) -> Seen {
        if self.is_away(atom) {
            Seen {
                known: false,
                places: 0,
            }
        } else {
            self.shown().sight_of(atom)
        }
    }
}

/// Sees the changed atoms again; what is seen of all others is right. Says whether a place that a rule asks for changed. Where no
/// rule asks for any, it looks at nothing.
pub(crate) fn see_again<S: Sights>(
    order: &Order,
    states: &S,
    changed: &[u16],
    seen: &mut [Seen; SEEN_ATOMS],
) -> bool
    requires few { (at : At) → SEEN_ATOMS ≤ at.atom → S.marked states.now at ≡ false }
    requires others { AreSeenBut changed.now order.now.rules (S.marked states.now) seen.old }
    ensures seen { AreSeen order.now.rules (S.marked states.now) seen.new }
    ensures same { result ≡ false → AskAlike order.now.rules (may_be_marked seen.new) (may_be_marked seen.old) }
{
    if !order.has_conditions() {
        return false;
    }
    let mut is_new = false;
    for atom in changed {
        is_new |= see_one(order, states, *atom, seen);
    }
    is_new
}

/// Sees the atoms of the moves again; what is seen of all others is right. Says whether a place that a rule asks for changed.
pub(crate) fn see_moved<S: Sights>(
    order: &Order,
    states: &S,
    moves: &[Move],
    seen: &mut [Seen; SEEN_ATOMS],
) -> bool
    requires moves { length moves.now ≤ MAX_LEAVES }
    requires few { (at : At) → SEEN_ATOMS ≤ at.atom → S.marked states.now at ≡ false }
    requires others { AreSeenBut (atoms_of moves.now) order.now.rules (S.marked states.now) seen.old }
    ensures seen { AreSeen order.now.rules (S.marked states.now) seen.new }
    ensures same { result ≡ false → AskAlike order.now.rules (may_be_marked seen.new) (may_be_marked seen.old) }
{
    if !order.has_conditions() {
        return false;
    }
    let atoms = atoms_of(moves);
    see_again(order, states, &atoms[..moves.len()], seen)
}

/// Sees one atom again, and says whether a place of it that a rule asks for changed.
fn see_one<S: Sights>(order: &Order, states: &S, atom: u16, seen: &mut [Seen; SEEN_ATOMS]) -> bool
    requires { (at : At) → SEEN_ATOMS ≤ at.atom → S.marked states.now at ≡ false }
    ensures here { (at : At) → at.atom ≡ atom → may_be_marked seen.new at ≡ S.marked states.now at }
    ensures others { (at : At) → at.atom ≢ atom → may_be_marked seen.new at ≡ may_be_marked seen.old at }
    ensures same { result ≡ false → AskAlike order.now.rules (may_be_marked seen.new) (may_be_marked seen.old) }
{
    let place = usize::from(atom);
    if place >= SEEN_ATOMS {
        return false;
    }
    let before = seen[place];
    let now = states.sight(atom);
    seen[place] = now;
    before.known != now.known || (now.places ^ before.places) & order.watched(atom) != 0
}
