//! Why a command on an image ends early.
use crate::refusal::ImageRefusal;
use text_io::WriteFault;

/// Why a command on an image ends early.
#[derive(Clone, Copy, Debug, PartialEq, Eq)]
pub enum ImageEnding {
    /// The image is refused, or the device or the memory failed. No event was asked of a plant, and nothing was printed.
    Refused(ImageRefusal),
    /// The device failed in some call of a run, which went on to its end. The answers that were printed say so.
    Failed,
    /// The output could not be written.
    Unwritten,
}

impl ImageEnding {
    ghost use Rattle.std.specs.Prelude.{◌≡◌};
    ghost use Rattle.image_commands.specs.Endings.{status_at};

    /// The exit status of a program that ends so: 1 where the image is refused, and 3 where the device, the memory or the output failed.
    pub fn exit_status(&self) -> u8
        ensures { result ≡ status_at self.now }
    {
        match self {
            ImageEnding::Refused(refusal) if !refusal.is_failure() => 1,
            _ => 3,
        }
    }
}

impl From<WriteFault> for ImageEnding {
    ghost use Rattle.std.specs.Prelude.{◌≡◌};
    ghost use Rattle.image_commands.specs.declared.ending.ImageEnding.TheVariants.{Unwritten};

    ghost from_gives = { λ _ ending. ending ≡ Unwritten };

    fn from(_: WriteFault) -> Self {
        ImageEnding::Unwritten
    }
}
