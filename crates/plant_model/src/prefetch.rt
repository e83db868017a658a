//! Reading what a step needs before it is needed.

use crate::choice::{Choice, Move};
use crate::delivery::{Deliveries, MadeValues};
use crate::system::System;

/// A plant with more transitions than so many has larger rows than a near cache has room for beside the rest.
const FEW_TRANSITIONS: usize = 1_024;

impl System {
    /// Whether a step is faster if the rows that it needs are read before: the plant is large, and comes to most of them only now and then. A step of a
    /// small plant has them at hand.
    pub fn wants_prefetch(&self) -> bool {
        let mut transitions = 0_usize;
        for atom in &self.atoms {
            transitions = transitions.saturating_add(atom.transitions().len());
        }
        transitions > FEW_TRANSITIONS
    }

    /// Reads a word of each row that a firing of the choice needs: the processor then fetches them side by side. A firing comes to them one after
    /// another, and behind a sync of the disk they are in no near cache. What it writes says nothing: it keeps the compiler from leaving the
    /// reads out. Of what is not there it reads nothing.
    #[inline(never)]
    pub fn prefetch(&self, choice: &Choice, read: &mut u64) {
        let mut all = match self.bound.get(usize::from(choice.connector)) {
            Some(bound) => prefetch_deliveries(&bound.deliveries),
            None => 0,
        };
        for step in choice.moves.as_slice() {
            all ^= self.prefetch_move(*step);
        }
        *read = all;
    }

    /// The rows of a move.
    fn prefetch_move(&self, step: Move) -> u64 {
        match self.atoms.get(usize::from(step.atom)) {
            Some(atom) => atom.prefetch(step.transition),
            None => 0,
        }
    }
}

/// The transfers, of which a firing asks each whether it applies.
fn prefetch_deliveries(deliveries: &Deliveries) -> u64 {
    match deliveries {
        Deliveries::Copies(_) => 0,
        Deliveries::Values(values) => prefetch_values(values),
    }
}

/// The leaves of the first transfer: those of the others stand beside them.
fn prefetch_values(values: &MadeValues) -> u64 {
    match values.leaves.first() {
        Some(leaves) => u64::from(*leaves),
        None => 0,
    }
}
