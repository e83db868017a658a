//! Which cell of a device holds what.
ghost use Rattle.std.specs.Prelude.{◌≡◌, ℕ, ◌<◌, ◌≤◌};
ghost use Rattle.record_codec.specs.Ring.{identity_cell, base_cell, slot_cell, record_cell, device_cells};

/// The cell of the identity.
pub const IDENTITY_CELL: u64 = 0;

/// The cells before the slots: the identity's and those of the two bases.
const FIRST_SLOT: u64 = 3;

/// The cell of base 0 or 1.
pub fn base_cell(base: u8) -> u64
    ensures { result ≡ base_cell base }
{
    1 + u64::from(base)
}

/// The cell of slot 0 or 1 of the atom.
pub fn slot_cell(atom: u16, slot: u8) -> u64
    ensures { result ≡ slot_cell atom slot }
{
    FIRST_SLOT + 2 * u64::from(atom) + u64::from(slot)
}

/// The cell of the record with the number.
pub fn record_cell(atoms: u16, ring: u32, number: u64) -> u64
    requires { 0 < ring }
    ensures { result ≡ record_cell atoms ring number }
{
    FIRST_SLOT + 2 * u64::from(atoms) + number % u64::from(ring)
}

/// How many cells a device has for so many atoms and a ring of so many records.
pub fn device_cells(atoms: u16, ring: u32) -> u64
    ensures { result ≡ device_cells atoms ring }
{
    FIRST_SLOT + 2 * u64::from(atoms) + u64::from(ring)
}
