//! Why an image is refused.
use plant_image::ImageFault;
use recovery::{BootFault, FormatFault};
use std::fmt;
use thiserror::Error;

/// Why an image is refused, or what failed before a command on it began.
#[derive(Clone, Copy, Debug, PartialEq, Eq, Error)]
pub enum ImageRefusal {
    /// The image stands for no state of the plant, has not the size that the plant and the ring ask for, or memory ran out.
    Image(ImageFault),
    /// The device failed.
    Disk,
}

impl ImageRefusal {
    ghost use Rattle.std.specs.Prelude.{◌≡◌};
    ghost use Rattle.image_commands.specs.Refusals.{advice_for, is_failure};

    /// Whether the image is not at fault: the device failed, or memory ran out.
    pub fn is_failure(&self) -> bool
        ensures { result ≡ is_failure self.now }
    {
        matches!(
            self,
            ImageRefusal::Disk | ImageRefusal::Image(ImageFault::Memory)
        )
    }

    /// What the refusal means, and what an operator can do.
    pub fn advice(&self) -> &'static str
        ensures { result.now ≡ advice_for self.now }
    {
        match self {
            ImageRefusal::Image(ImageFault::NotFormatted) => {
                "no whole image begins in the file: keep a copy of it, and look into it by 'bip_run inspect'; to format it destroys what it holds"
            }
            ImageRefusal::Image(ImageFault::OtherVersion) => {
                "if an earlier version of this program formatted the image, bring it over to a new one by 'bip_run migrate'; if a later one did, go on with that version"
            }
            ImageRefusal::Image(ImageFault::OtherSystem) => {
                "the image was formatted for another plant text: use that very text, byte for byte, or another image"
            }
            ImageRefusal::Image(ImageFault::WrongSize) => {
                "the file has not the size of this image: it was cut short, or is for another plant or another --ring; use another file"
            }
            ImageRefusal::Image(ImageFault::Damaged(_)) => {
                "a cell does not hold what was written to it: keep the file, bring the real plant to its first state, and format another image"
            }
            ImageRefusal::Image(ImageFault::Gap(_)) => {
                "firings of an atom are missing: keep the file, bring the real plant to its first state, and format another image"
            }
            ImageRefusal::Image(ImageFault::NotEnabled(_, _)) => {
                "a record fires what its atom could not do: keep the file, bring the real plant to its first state, and format another image"
            }
            ImageRefusal::Disk => "the disk failed: see to it, and give the command again",
            ImageRefusal::Image(ImageFault::Memory) => {
                "the system has too little memory left: end other programs, and give the command again"
            }
        }
    }
}

impl fmt::Display for ImageRefusal {
    ghost use Rattle.std.specs.Prelude.{Some};
    ghost use Rattle.image_commands.specs.Refusals.{refusal_line};

    ghost output = { λ refusal. Some (refusal_line refusal) };

    fn fmt<W: fmt::Write>(&self, f: &mut fmt::Formatter<W>) -> fmt::Result {
        match self {
            ImageRefusal::Image(ImageFault::NotFormatted) => f.write_str(
                "image: refusal 1 NotFormatted",
            ),
            ImageRefusal::Image(ImageFault::OtherVersion) => f.write_str(
                "image: refusal 2 OtherVersion",
            ),
            ImageRefusal::Image(ImageFault::OtherSystem) => f.write_str(
                "image: refusal 3 OtherSystem",
            ),
            ImageRefusal::Image(ImageFault::WrongSize) => f.write_str("image: refusal 4 WrongSize"),
            ImageRefusal::Image(ImageFault::Damaged(cell)) => write!(
                f,
                "image: refusal 5 Damaged({cell})"
            ),
            ImageRefusal::Image(ImageFault::Gap(atom)) => write!(f, "image: refusal 6 Gap({atom})"),
            ImageRefusal::Image(ImageFault::NotEnabled(number, atom)) => {
                write!(f, "image: refusal 7 NotEnabled({number}, {atom})")
            }
            ImageRefusal::Disk => f.write_str("image: refusal 8 Disk"),
            ImageRefusal::Image(ImageFault::Memory) => f.write_str("image: refusal 9 Memory"),
        }
    }
}

impl From<BootFault> for ImageRefusal {
    ghost use Rattle.std.specs.Prelude.{◌≡◌};
    ghost use Rattle.image_commands.specs.Refusals.{of_boot};

    ghost from_gives = { λ fault refusal. refusal ≡ of_boot fault };

    fn from(fault: BootFault) -> Self {
        match fault {
            BootFault::Image(fault) => ImageRefusal::Image(fault),
            BootFault::Disk => ImageRefusal::Disk,
        }
    }
}

impl From<FormatFault> for ImageRefusal {
    ghost use Rattle.std.specs.Prelude.{◌≡◌};
    ghost use Rattle.image_commands.specs.Refusals.{of_format};

    ghost from_gives = { λ fault refusal. refusal ≡ of_format fault };

    fn from(fault: FormatFault) -> Self {
        match fault {
            FormatFault::WrongSize => ImageRefusal::Image(ImageFault::WrongSize),
            FormatFault::Disk => ImageRefusal::Disk,
            FormatFault::Memory => ImageRefusal::Image(ImageFault::Memory),
        }
    }
}
