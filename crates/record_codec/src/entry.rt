//! One entry of a record: what one participant did.
ghost use Rattle.std.specs.Prelude.{◌≡◌, ◌≤◌};
ghost use Rattle.std.specs.List.{sum_by};
ghost use Rattle.record_codec.specs.Entry.{bit_of, mask_of, is_entry};

use crate::layout::{MOST_ATOMS, MOST_EXPORTED, MOST_TRANSITIONS};

/// What one participant did in a fired interaction.
#[derive(Clone, Copy, Debug, PartialEq, Eq)]
pub struct Entry {
    /// The number of the atom.
    pub atom: u16,
    /// The number of the transition that it fired.
    pub transition: u16,
    /// How often the atom had taken part, this time included.
    pub participation: u64,
    /// For each variable that the atom's port exports, in their order, the value that was delivered to it.
    pub delivered: [Option<i64>; MOST_EXPORTED],
}

impl Entry {
    // What stands in the places of a record after its last entry.
    pub(crate) const NOTHING: Entry = Entry {
        atom: 0,
        transition: 0,
        participation: 0,
        delivered: [None; MOST_EXPORTED],
    };

    /// The variables that a value was delivered to: bit j for variable j.
    pub fn mask(&self) -> u8
        ensures value { result ≡ mask_of self.now.delivered }
        ensures within { result ≤ 15 }
    {
        let [first, second, third, fourth] = self.delivered;
        bit(first) + 2 * (bit(second) + 2 * (bit(third) + 2 * bit(fourth)))
    }

    /// How many values were delivered.
    pub fn delivered_count(&self) -> u8
        ensures value { result ≡ sum_by bit_of self.now.delivered }
        ensures within { result ≤ 4 }
    {
        let [first, second, third, fourth] = self.delivered;
        bit(first) + bit(second) + bit(third) + bit(fourth)
    }

    /// Whether the entry is in the ranges that it has in the record with this number.
    pub(crate) fn is_within(&self, number: u64) -> bool
        ensures { result ≡ is_entry number self.now }
    {
        self.atom < MOST_ATOMS
            && self.transition < MOST_TRANSITIONS
            && self.participation >= 1
            && self.participation <= number
    }
}

fn bit(value: Option<i64>) -> u8
    ensures value { result ≡ bit_of value }
    ensures within { result ≤ 1 }
{
    match value {
        None => 0,
        Some(_) => 1,
    }
}
