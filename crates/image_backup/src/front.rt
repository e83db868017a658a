//! What the check of an image finds.
ghost use Rattle.std.specs.Prelude.{◌≡◌, ◌*◌, ◌+◌, ◌≤◌};
ghost use Rattle.disk_model.specs.declared.cells.TheConstants.{BODY};
ghost use Rattle.image_backup.specs.declared.front.TheConstants.{MOST_CELLS};

use disk_model::CELL;

/// How many cells an image has at most: two slots for each of 64 atoms, a ring of 4,096 records and three cells more.
pub const MOST_CELLS: u64 = 4_227;

/// How large an image is, and how far it leads.
#[derive(Clone, Copy, Debug, PartialEq, Eq)]
pub struct ImageFront {
    /// How many cells it has.
    pub cells: u64,
    /// The number of its last record.
    pub last: u64,
    ghost few: { cells ≤ MOST_CELLS },
    ghost some: { 1 ≤ cells },
}

impl ImageFront {
    /// How many bytes it has.
    pub fn bytes(&self) -> u64
        ensures { result ≡ (BODY + 1) * self.now.cells }
    {
        CELL * self.cells
    }
}
