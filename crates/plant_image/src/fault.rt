//! Why an image stands for no state of a plant.
use std::alloc::AllocError;
use std::fmt;
use thiserror::Error;

/// Why an image stands for no state of a plant, or that memory ran out while this was found out.
#[derive(Clone, Copy, Debug, PartialEq, Eq, Error)]
pub enum ImageFault {
    /// The first cell is empty, or no identity begins in it: the device was never formatted, or formatting was stopped.
    NotFormatted,
    /// The device was formatted for another version of the layout.
    OtherVersion,
    /// The device was formatted for another plant text, or for another number of atoms.
    OtherSystem,
    /// The device is smaller than a cell, or has not the size that its first cell tells.
    WrongSize,
    /// The cell with this number is full, but with nothing that may stand there; or it is empty if something must stand.
    Damaged(u64),
    /// Firings of the atom with this number are missing among the records.
    Gap(u16),
    /// The record with the first number fires a transition that the state of the atom with the second number does not offer.
    NotEnabled(u64, u16),
    /// Memory ran out.
    Memory,
}

impl fmt::Display for ImageFault {
    ghost use Rattle.std.specs.Prelude.{Some};
    ghost use Rattle.plant_image.specs.Messages.{message_of};

    ghost output = { λ fault. Some (message_of fault) };

    fn fmt<W: fmt::Write>(&self, f: &mut fmt::Formatter<W>) -> fmt::Result {
        match self {
            ImageFault::NotFormatted => {
                f.write_str("it was never formatted, or formatting it was cut short")
            }
            ImageFault::OtherVersion => f.write_str("it has another version of the layout"),
            ImageFault::OtherSystem => f.write_str("it was formatted for another plant text"),
            ImageFault::WrongSize => f.write_str("it does not have the size of its image"),
            ImageFault::Damaged(cell) => {
                write!(f, "cell {cell} does not hold what was written to it")
            }
            ImageFault::Gap(atom) => write!(f, "firings of atom {atom} are missing"),
            ImageFault::NotEnabled(number, _) => {
                write!(f, "record {number} fires what its atom could not do")
            }
            ImageFault::Memory => f.write_str("not enough memory to read the image"),
        }
    }
}

impl From<AllocError> for ImageFault {
    ghost use Rattle.std.specs.Prelude.{◌≡◌};
    ghost use Rattle.plant_image.specs.declared.fault.ImageFault.TheVariants.{Memory};

    ghost from_gives = { λ _ fault. fault ≡ Memory };

    fn from(_error: AllocError) -> Self {
        Self::Memory
    }
}
