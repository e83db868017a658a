//! The transitions of a set that a marking lets move.
ghost use Rattle.std.specs.Prelude.{◌≡◌, ℕ, ◌+◌, ◌%◌, ◌^◌, ◌<◌, ◌≤◌, ◌&&◌, IsTrue, List, length};
ghost use Rattle.petri_atom.specs.Local.{has, set_below};
ghost use Rattle.petri_atom.specs.Groups.{can_move_number};
ghost use Rattle.petri_atom.specs.Arcs.{AreArcsOf};
ghost use Rattle.petri_atom.specs.Definition.{TransitionDefinition};
ghost use Rattle.petri_atom.specs.declared.parts.TheConstants.{MAX_TRANSITIONS};

use crate::arcs::Arcs;

/// The transitions of the set whose numbers are below 64.
pub(crate) fn low_word(set: u128) -> u64
    ensures { result ≡ set % 2 ^ 64 }
{
    (set & u128::from(u64::MAX)) as u64
}

/// Those of the transitions in the set, which have these arcs, that the marking lets move, tested one by one.
pub(crate) fn moving(arcs: &[Arcs], marking: u64, set: u128) -> u128
    requires { (n : ℕ) → IsTrue (has set n) → n < length arcs.now }
    ensures { (ts : List TransitionDefinition) → AreArcsOf arcs.now ts → result ≡ set_below MAX_TRANSITIONS (λ n. has set n && can_move_number ts marking n) }
{
    // Most atoms have at most 64 transitions: a word of 64 bits is walked in fewer steps.
    let low = moving_from(arcs, marking, 0, (set & u128::from(u64::MAX)) as u64);
    let high = moving_from(arcs, marking, 64, (set >> 64) as u64);
    u128::from(high) << 64 | u128::from(low)
}

/// The same of the transitions from the number `first` on, of which bit k of the set stands for the k-th.
pub(crate) fn moving_from(arcs: &[Arcs], marking: u64, first: usize, set: u64) -> u64
    requires few { first ≤ MAX_TRANSITIONS }
    requires there { (n : ℕ) → IsTrue (has set n) → first + n < length arcs.now }
    ensures { (ts : List TransitionDefinition) → AreArcsOf arcs.now ts → result ≡ set_below 64 (λ n. has set n && can_move_number ts marking (first + n)) }
{
    let mut moving = 0;
    let mut left = set;
    while left != 0 {
        let number = left.trailing_zeros();
        if arcs[first + number as usize].can_move(marking) {
            moving |= 1u64 << number;
        }
        left &= left - 1;
    }
    moving
}
