//! Priority rules as they are written, and what one of them says of two interactions.
ghost use Rattle.std.specs.Prelude.{◌≡◌, ℕ, ◌↔◌, List, IsTrue};

use crate::seen::{At, SEEN_ATOMS, Seen};

/// One side of a rule.
#[derive(Clone, Copy, Debug, PartialEq, Eq)]
pub enum Side {
    /// Each interaction of this connector.
    Whole(u16),
    /// The interaction of this connector with this leaf mask.
    One(u16, u16),
}

impl Side {
    ghost use Rattle.priority_filter.specs.Rule.{IsOn};
    ghost use Rattle.priority_filter.specs.Order.{IsKnownSide};

    /// Whether the interaction is on this side.
    pub(crate) fn names(self, interaction: (u16, u16)) -> bool
        ensures { IsTrue result ↔ IsOn self interaction }
    {
        match self {
            Side::Whole(connector) => interaction.0 == connector,
            Side::One(connector, mask) => interaction.0 == connector && interaction.1 == mask,
        }
    }

    /// Whether some interaction of the list is on this side.
    pub(crate) fn is_known(self, interactions: &[(u16, u16)]) -> bool
        ensures { IsTrue result ↔ IsKnownSide interactions.now self }
    {
        for i in 0..interactions.len() {
            if self.names(interactions[i]) {
                return true;
            }
        }
        false
    }
}

/// A written rule, which puts some interactions below others.
#[derive(Clone, Copy, Debug, PartialEq, Eq)]
pub enum Rule {
    /// Each interaction of the first side is below each of the second.
    Under(Side, Side),
    /// Each interaction of the first side is below each of the second while the place is marked.
    UnderAt(Side, Side, At),
    /// Each interaction of this connector is below each other one of it that has all its leaves.
    Maximal(u16),
}

impl Rule {
    ghost use Rattle.std.specs.Prelude.{false};
    ghost use Rattle.priority_filter.specs.Active.{is_active, may_be_marked};
    ghost use Rattle.priority_filter.specs.Order.{IsKnown};

    /// Whether it counts whatever is marked: it has no condition.
    pub(crate) fn counts_always(self) -> bool
        ensures { result ≡ is_active (λ _. false) self }
    {
        !matches!(self, Rule::UnderAt(_, _, _))
    }

    /// Whether it counts as far as is seen: it has no condition, or one whose place may be marked.
    pub(crate) fn counts_at(self, seen: &[Seen; SEEN_ATOMS]) -> bool
        ensures { result ≡ is_active (may_be_marked seen.now) self }
    {
        match self {
            Rule::UnderAt(_, _, at) => at.may_be_marked(seen),
            Rule::Under(_, _) | Rule::Maximal(_) => true,
        }
    }

    /// Whether all that the rule names is in the list, and its condition is one that can be shown.
    pub(crate) fn is_known(self, interactions: &[(u16, u16)]) -> bool
        ensures { IsTrue result ↔ IsKnown interactions.now self }
    {
        match self {
            Rule::Under(left, right) => {
                left.is_known(interactions) && right.is_known(interactions)
            }
            Rule::UnderAt(left, right, at) => {
                left.is_known(interactions) && right.is_known(interactions) && at.is_known()
            }
            Rule::Maximal(connector) => Side::Whole(connector).is_known(interactions),
        }
    }
}
