//! Reading what a step needs before it is needed.

use plant_model::{Choice, System};

/// Whether steps of a plant are prefetched, and what was read last. That says nothing, and is kept so that the compiler does not leave the reads out.
#[derive(Drop)]
pub(crate) struct Prefetch {
    is_wanted: bool,
    read: u64,
}

impl Prefetch {
    /// For steps of this system.
    pub(crate) fn of(system: &System) -> Self {
        Prefetch {
            is_wanted: system.wants_prefetch(),
            read: 0,
        }
    }

    /// Reads what a step of the choice needs, if that is wanted.
    #[inline(always)]
    pub(crate) fn read(&mut self, system: &System, choice: &Choice) {
        if self.is_wanted {
            system.prefetch(choice, &mut self.read);
        }
    }
}
