//! How much room a durable plant has, and which atoms take it.
ghost use Rattle.std.specs.Prelude.{◌≡◌};
ghost use Rattle.plant_core.specs.Plants.{view_of};
ghost use Rattle.plant_core.specs.View.{is_base_held_by, is_behind};

use crate::plant::Plant;
use disk_model::Disk;
use trimmer::is_held_by;

impl<'s, D: Disk> Plant<'s, D> {
    /// For how many records the device has room.
    pub fn ring(&self) -> u32
        ensures { result ≡ (view_of self.now).ring }
    {
        self.journal.ring()
    }

    /// Whether the atom keeps the base where it is: the first record that is kept is acknowledged, and includes a firing of the atom that its
    /// newest saved state does not.
    pub fn is_base_held_by(&self, atom: u16) -> bool
        ensures { result ≡ is_base_held_by atom (view_of self.now) }
    {
        let acked = self.number + 1 - self.journal.base();
        match self.marks[..acked as usize].first() {
            Some(mark) => is_held_by(atom, mark, self.snapshots.saved()),
            None => false,
        }
    }

    /// Whether the atom's newest saved state is behind the acknowledged one.
    pub fn is_behind(&self, atom: u16) -> bool
        ensures { result ≡ is_behind atom (view_of self.now) }
    {
        match self.acked_counts.get(usize::from(atom)) {
            Some(count) => self.snapshots.saved_count(atom) < *count,
            None => false,
        }
    }
}
