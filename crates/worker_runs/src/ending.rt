//! Why a run by workers ends early.
use image_commands::ImageEnding;
use text_io::WriteFault;

/// Why a run by workers ends early.
#[derive(Clone, Copy, Debug, PartialEq, Eq)]
pub enum WorkersEnding {
    /// There was no memory for the host and its seats, or a thread could not be made. No event was asked, and nothing was printed.
    Memory,
    /// It ended early as a run without workers may.
    Image(ImageEnding),
}

impl From<WriteFault> for WorkersEnding {
    ghost use Rattle.std.specs.Prelude.{◌≡◌};
    ghost use Rattle.image_commands.specs.declared.ending.ImageEnding.TheVariants.{Unwritten};
    ghost use Rattle.worker_runs.specs.declared.ending.WorkersEnding.TheVariants.{Image};

    ghost from_gives = { λ _ ending. ending ≡ Image Unwritten };

    fn from(_: WriteFault) -> Self {
        WorkersEnding::Image(ImageEnding::Unwritten)
    }
}
