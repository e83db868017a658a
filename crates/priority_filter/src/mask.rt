//! Leaf masks: bit k of a mask stands for leaf k.
ghost use Rattle.std.specs.Prelude.{◌≡◌, ◌↔◌, IsTrue};
ghost use Rattle.priority_filter.specs.Rule.{IsProperSubset};

/// Whether the second mask has all leaves of the first, and more.
pub fn is_proper_subset(mask: u16, other: u16) -> bool
    ensures { IsTrue result ↔ IsProperSubset mask other }
{
    mask & other == mask && mask != other
}
