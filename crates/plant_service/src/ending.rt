//! Why serving a plant on its image ends early.
use crate::fault::ServeFault;
use image_commands::ImageEnding;

/// Why serving a plant on its image ends early.
#[derive(Clone, Copy, Debug, PartialEq, Eq)]
pub enum ServiceEnding {
    /// It ended early as a run may: the image is refused, the device failed in a call, or the output could not be written.
    Image(ImageEnding),
    /// There was no memory. The plant was booted, and no line was read.
    Memory,
    /// The lines of the input could not be read.
    Unread,
}

impl From<ServeFault> for ServiceEnding {
    ghost use Rattle.std.specs.Prelude.{◌≡◌};
    ghost use Rattle.plant_service.specs.Endings.{of_serve};

    ghost from_gives = { λ fault ending. ending ≡ of_serve fault };

    fn from(fault: ServeFault) -> Self {
        match fault {
            ServeFault::Memory => ServiceEnding::Memory,
            ServeFault::Read => ServiceEnding::Unread,
            ServeFault::Write => ServiceEnding::Image(ImageEnding::Unwritten),
        }
    }
}
