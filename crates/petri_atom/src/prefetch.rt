//! Reading what a firing needs before it is needed.

use crate::atom::Atom;
use crate::behind::Behind;

impl Atom {
    /// Reads a word of each row that a firing of the transition needs: the processor then fetches them side by side. A firing comes to them one
    /// after another, and behind a sync of the disk they are in no near cache. The answer says nothing: it keeps the compiler from leaving the
    /// reads out. Of a transition that is not there it reads nothing.
    pub fn prefetch(&self, transition: u16) -> u64 {
        let number = usize::from(transition);
        let arcs = match self.arcs.get(number) {
            Some(arcs) => arcs.sources,
            None => 0,
        };
        let code = match self.codes.get(number) {
            Some(code) => code.prefetch(),
            None => 0,
        };
        let told = match self.behind.get(number) {
            Some(told) => prefetch_sets(told),
            None => 0,
        };
        arcs ^ code ^ told
    }
}

/// What a firing does to all transitions: the row may stand in two lines of a cache.
fn prefetch_sets(told: &Behind) -> u64 {
    u64::from(told.is_quiet) ^ (told.keep & u128::from(u64::MAX)) as u64
}
