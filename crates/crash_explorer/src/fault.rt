//! Why a run is not explored.
use std::alloc::AllocError;
use std::fmt;
use thiserror::Error;

/// Why a run is not explored, or a device not judged.
#[derive(Clone, Copy, Debug, PartialEq, Eq, Error)]
pub enum ExploreFault {
    /// Memory ran out.
    Memory,
}

impl fmt::Display for ExploreFault {
    ghost use Rattle.std.specs.Prelude.{Some, codes};

    ghost output = { λ _. Some (codes "not enough memory to explore it") };

    fn fmt<W: fmt::Write>(&self, f: &mut fmt::Formatter<W>) -> fmt::Result {
        f.write_str("not enough memory to explore it")
    }
}

impl From<AllocError> for ExploreFault {
    ghost use Rattle.std.specs.Prelude.{◌≡◌};
    ghost use Rattle.crash_explorer.specs.declared.fault.ExploreFault.TheVariants.{Memory};

    ghost from_gives = { λ _ fault. fault ≡ Memory };

    fn from(_error: AllocError) -> Self {
        Self::Memory
    }
}
