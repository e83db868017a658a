//! The room that an image has for records, as a word of the command line.
ghost use Rattle.std.specs.Prelude.{◌≡◌, ◌≤◌};
ghost use Rattle.std.specs.Option.{option_map};
ghost use Rattle.command_line.specs.Rings.{ring_in};
ghost use Rattle.record_codec.specs.declared.layout.TheConstants.{LEAST_RING, MOST_RING};

use plant_words::read_decimal;
use record_codec::{LEAST_RING, MOST_RING};

/// For how many records an image has room: as many as the ring of an image may have.
#[derive(Clone, Copy, Debug, PartialEq, Eq)]
pub struct RingLength {
    /// How many they are.
    pub records: u32,
    ghost least: { LEAST_RING ≤ records },
    ghost most: { records ≤ MOST_RING },
}

/// The length of a ring that the word writes: digits alone, of a number that a ring may have.
pub(crate) fn ring_named(word: &str) -> Option<RingLength>
    ensures { option_map (λ ring. ring.records) result ≡ ring_in word.now }
{
    let records = read_decimal(word.as_bytes())?;
    if u64::from(LEAST_RING) <= records && records <= u64::from(MOST_RING) {
        Some(RingLength {
            records: records as u32,
        })
    } else {
        None
    }
}
