//! An entry of a history, with the front after it.
ghost use Rattle.std.specs.Prelude.{◌≡◌};

use plant_core::Front;

/// The most choices that may be fired after the front where a history opens: the word has 44 bits for their number. At a million a
/// second they last for 100 days.
pub const MOST_FIRED: u64 = 1 << 43;

/// How many numbers the word tells apart of choices that are fired and not acknowledged.
pub const UNACKED_SPAN: u64 = 1 << 7;

/// How many numbers the word tells apart of records that are kept.
pub const RECORD_SPAN: u64 = 1 << 13;

/// An entry of a history, which tells how far the plant is behind it.
pub trait Fronted: Drop {
    ghost use Rattle.plant_core.specs.declared.front.Front.{Front};

    ghost front: { Self → Front };

    /// How far the plant is behind the entry.
    fn front(&self) -> Front
        ensures { result ≡ front self.now };
}
