//! Where the records of a journal stand.
ghost use Rattle.std.specs.Prelude.{◌≡◌, ◌+◌, ◌^◌, ◌<◌, ◌≤◌, length, map};
ghost use Rattle.std.specs.List.{range_with_len};
ghost use Rattle.gated_journal.specs.Live.{place};

use record_codec::ring::record_cell;

/// A journal as its contracts see it: where its records stand, and which are live.
#[derive(Clone, Copy, Debug, PartialEq, Eq)]
pub struct Ring {
    /// How many atoms have their slots before the ring.
    pub atoms: u16,
    /// How many records the ring has cells for.
    pub ring: u32,
    /// The cell of the base that counts.
    pub base_cell: u64,
    /// The number of the first live record.
    pub base: u64,
    /// The number of the last live record, or base - 1 if none is live.
    pub last: u64,
}

/// The cell of record `number`.
pub(crate) fn place(ring: Ring, number: u64) -> u64
    requires { 1 ≤ ring.ring }
    ensures { result ≡ place ring number }
{
    record_cell(ring.atoms, ring.ring, number)
}

/// Writes down the cells of the records from number `first` on.
pub(crate) fn write_places(ring: Ring, first: u64, places: &mut [u64])
    requires some { 1 ≤ ring.ring }
    requires in_range { first + length places.old < 2 ^ 64 }
    ensures { places.new ≡ map (place ring) (range_with_len first (length places.old)) }
{
    for i in 0..places.len() {
        places[i] = place(ring, first + i as u64);
    }
}
