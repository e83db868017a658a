//! What the cells of an image say, and what it stands for, as it was read.

use plant_model::{MAX_ATOMS, PlantState};
use record_codec::{Fired, Saved};

/// What the cells of a device hold.
#[derive(Drop)]
pub struct Held {
    /// How many records the ring has cells for.
    pub ring: u32,
    /// The cell of the base that counts.
    pub base_cell: u64,
    /// The number of the first record that is kept.
    pub base: u64,
    /// The newest saved state of each atom, by the atoms' numbers.
    pub slots: Vec<Saved>,
    /// The live records.
    pub records: Vec<Fired>,
}

/// What an image stands for: what its cells hold, and where that leads.
#[derive(Drop)]
pub struct Standing {
    /// What the cells hold.
    pub held: Held,
    /// The state that the records lead to.
    pub states: PlantState,
    /// How often each atom has taken part in it, by the atoms' numbers. Past the last atom it is 0.
    pub counts: [u64; MAX_ATOMS],
}
