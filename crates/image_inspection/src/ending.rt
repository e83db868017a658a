//! Why an inspection ends early.
use disk_model::DiskFault;
use std::alloc::AllocError;
use std::fmt;
use text_io::WriteFault;
use thiserror::Error;

/// Why an inspection ended early. None of these says anything of the image.
#[derive(Clone, Copy, Debug, PartialEq, Eq, Error)]
pub enum InspectionEnding {
    /// The device failed. Nothing was printed.
    Disk,
    /// Memory ran out. Nothing was printed.
    Memory,
    /// The output could not be written. A part of the text may have been printed.
    Unwritten,
}

impl fmt::Display for InspectionEnding {
    ghost use Rattle.std.specs.Prelude.{Some};
    ghost use Rattle.image_inspection.specs.Endings.{message_of};

    ghost output = { λ ending. Some (message_of ending) };

    fn fmt<W: fmt::Write>(&self, f: &mut fmt::Formatter<W>) -> fmt::Result {
        f.write_str(match self {
            InspectionEnding::Disk => "the device failed",
            InspectionEnding::Memory => "not enough memory to read the image",
            InspectionEnding::Unwritten => "the text could not be written",
        })
    }
}

impl From<DiskFault> for InspectionEnding {
    ghost use Rattle.std.specs.Prelude.{◌≡◌};
    ghost use Rattle.image_inspection.specs.declared.ending.InspectionEnding.TheVariants.{Disk};

    ghost from_gives = { λ _ ending. ending ≡ Disk };

    fn from(_error: DiskFault) -> Self {
        Self::Disk
    }
}

impl From<AllocError> for InspectionEnding {
    ghost use Rattle.std.specs.Prelude.{◌≡◌};
    ghost use Rattle.image_inspection.specs.declared.ending.InspectionEnding.TheVariants.{Memory};

    ghost from_gives = { λ _ ending. ending ≡ Memory };

    fn from(_error: AllocError) -> Self {
        Self::Memory
    }
}

impl From<WriteFault> for InspectionEnding {
    ghost use Rattle.std.specs.Prelude.{◌≡◌};
    ghost use Rattle.image_inspection.specs.declared.ending.InspectionEnding.TheVariants.{Unwritten};

    ghost from_gives = { λ _ ending. ending ≡ Unwritten };

    fn from(_error: WriteFault) -> Self {
        Self::Unwritten
    }
}
