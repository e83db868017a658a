//! Whether two parts of atoms are the same.
ghost use Rattle.std.specs.Prelude.{◌≡◌, Bool};
ghost use Rattle.std.specs.Cmp.Lexicographic.{pointwise};

use crate::parts::{Place, Port, Variable};
use crate::transition::{Transition, Update};

/// A part that can be compared with another one, by its contents.
pub(crate) trait Same {
    ghost is_same: { Self → Self → Bool };

    fn same(&self, other: &Self) -> bool
        ensures { result ≡ is_same self.now other.now };
}

impl Same for Place {
    ghost use Rattle.petri_atom.specs.Same.{is_same_place};

    ghost is_same = { is_same_place };

    fn same(&self, other: &Self) -> bool {
        self.name.same(&other.name) & (self.marked == other.marked)
    }
}

impl Same for Variable {
    ghost use Rattle.petri_atom.specs.Same.{is_same_variable};

    ghost is_same = { is_same_variable };

    fn same(&self, other: &Self) -> bool {
        self.name.same(&other.name) & (self.first == other.first)
    }
}

impl Same for Port {
    ghost use Rattle.petri_atom.specs.Same.{is_same_port};

    ghost is_same = { is_same_port };

    fn same(&self, other: &Self) -> bool {
        self.name.same(&other.name) & (self.exports.as_slice() == other.exports.as_slice())
    }
}

impl Same for Update {
    ghost use Rattle.petri_atom.specs.Same.{is_same_update};

    ghost is_same = { is_same_update };

    fn same(&self, other: &Self) -> bool {
        (self.variable == other.variable) & self.value.same(&other.value)
    }
}

impl Same for Transition {
    ghost use Rattle.petri_atom.specs.SameTransition.{is_same_transition};

    ghost is_same = { is_same_transition };

    fn same(&self, other: &Self) -> bool {
        (self.port == other.port)
            & (self.sources.as_slice() == other.sources.as_slice())
            & (self.targets.as_slice() == other.targets.as_slice())
            & self.guard.same(&other.guard)
            & all_same(&self.updates, &other.updates)
    }
}

/// Whether the two lists have the same parts in the same order.
pub(crate) fn all_same<T: Same>(mine: &[T], theirs: &[T]) -> bool
    ensures { result ≡ pointwise T.is_same mine.now theirs.now }
{
    match (mine, theirs) {
        ([], []) => true,
        ([first, later @ ..], [other, others @ ..]) => {
            first.same(other) & all_same(later, others)
        }
        _ => false,
    }
}
