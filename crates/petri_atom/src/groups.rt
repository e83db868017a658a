//! Groups of transitions that ask the same of a marking, so that a marking is tested once for all of a group.
ghost use Rattle.std.specs.Prelude.{◌≡◌, ℕ, ◌<◌, ◌≤◌, ◌^◌, ◌&&◌, ◌||◌, ◌==◌, IsTrue, IfOk, length, map, position};
ghost use Rattle.petri_atom.specs.Local.{set_below};
ghost use Rattle.petri_atom.specs.Groups.{AreGroupsOf, asks_same, is_movable, suits};
ghost use Rattle.petri_atom.specs.Transition.{transition_of};
ghost use Rattle.petri_atom.specs.declared.parts.TheConstants.{MAX_TRANSITIONS};

use crate::transition::Transition;
use std::alloc::{AllocError, Global};

/// Transitions that ask the same of a marking: all places of one set marked, and none of another.
#[derive(Clone, Copy, Drop)]
pub(crate) struct Group {
    sources: u64,
    blocking: u64,
    members: u128,
}

impl Group {
    /// The group of one transition.
    fn of(transition: &Transition, number: usize) -> Self
        requires { number < MAX_TRANSITIONS }
        ensures asks { IsTrue (asks_same result transition.now) }
        ensures members { result.members ≡ 2 ^ number }
    {
        Group {
            sources: transition.source_word,
            blocking: transition.blocking_word,
            members: 1u128 << number,
        }
    }

    /// Whether the group asks of a marking what the transition asks.
    fn asks_same(&self, transition: &Transition) -> bool
        ensures { result ≡ asks_same self.now transition.now }
    {
        (self.sources == transition.source_word) & (self.blocking == transition.blocking_word)
    }

    /// Whether the marking lets the transitions of the group move.
    fn lets_move(&self, marking: u64) -> bool
        ensures { result ≡ suits marking self.now.sources self.now.blocking }
    {
        (marking & self.sources == self.sources) & (marking & self.blocking == 0)
    }
}

/// The transitions in groups: each stands in the one that asks what it asks.
pub(crate) fn groups_of(alloc: Global, transitions: &[Transition]) -> Result<Vec<Group>, AllocError>
    requires { length transitions.now ≤ MAX_TRANSITIONS }
    ensures { IfOk result (λ groups. AreGroupsOf groups.items (map transition_of transitions.now)) }
{
    let mut groups = Vec::new(alloc);
    for (number, transition) in transitions.iter().enumerate() {
        join(&mut groups, transition, number)?;
    }
    Ok(groups)
}

/// Puts the transition into the group that asks the same, or else into a new one.
fn join(groups: &mut Vec<Group>, transition: &Transition, number: usize) -> Result<(), AllocError>
    requires { number < MAX_TRANSITIONS }
    ensures joined { IfOk result (λ _. (marking n : ℕ) → is_movable groups.new.items marking n ≡ (is_movable groups.old.items marking n || suits marking transition.now.source_word transition.now.blocking_word && n == number)) }
{
    match find_group(groups, transition) {
        Some(place) => groups[place].members |= 1u128 << number,
        None => groups.push(Group::of(transition, number))?,
    }
    Ok(())
}

/// The index of the group that asks what the transition asks.
fn find_group(groups: &[Group], transition: &Transition) -> Option<usize>
    ensures { result ≡ position (λ g. asks_same g transition.now) groups.now }
{
    groups.iter().position(|group| group.asks_same(transition))
}

/// The set of the transitions that the marking lets move.
pub(crate) fn movable(groups: &[Group], marking: u64) -> u128
    ensures { result ≡ set_below MAX_TRANSITIONS (is_movable groups.now marking) }
{
    let mut set = 0;
    for group in groups {
        if group.lets_move(marking) {
            set |= group.members;
        }
    }
    set
}
