//! The statuses of what the engine, the image, the file and the text refuse.
ghost use Rattle.std.specs.Prelude.{◌≡◌};
ghost use Rattle.plant_for_c.specs.Refusals.{of_plant, of_format, of_image, of_boot, of_text, plain, refusal_with};

use crate::status::Status;
use plant_core::Refused;
use plant_image::ImageFault;
use plant_text::{Fault, PlantFault};
use recovery::{BootFault, FormatFault};

/// Why a call is refused: its status, and two numbers that tell more of it, 0 where its status says nothing of them.
#[derive(Clone, Copy)]
pub struct Refusal {
    /// The status.
    pub status: Status,
    /// The first number.
    pub first: u64,
    /// The second number.
    pub second: u64,
}

impl Refusal {
    /// A status of which nothing more is told.
    pub fn plain(status: Status) -> Refusal
        ensures { result ≡ plain status }
    {
        Refusal::with(status, 0, 0)
    }

    /// A status with two numbers.
    fn with(status: Status, first: u64, second: u64) -> Refusal
        ensures { result ≡ refusal_with status first second }
    {
        Refusal {
            status,
            first,
            second,
        }
    }
}

/// Why a plant refuses an event. That an atom is not there is [`Status::NoSuch`].
pub fn of_plant(refused: Refused) -> Status
    ensures { result ≡ of_plant refused }
{
    match refused {
        Refused::Stuck => Status::Stuck,
        Refused::Busy => Status::Busy,
        Refused::TailFull => Status::TailFull,
        Refused::RingFull => Status::RingFull,
        Refused::Spent => Status::Spent,
        Refused::Away(_) => Status::Away,
        Refused::Ahead(_) => Status::Ahead,
        Refused::Stranger => Status::NoSuch,
        Refused::NothingNew => Status::NothingNew,
        Refused::Disk => Status::Disk,
        Refused::Broken => Status::Broken,
        Refused::Values => Status::Values,
    }
}

/// Why an image is not formatted.
pub fn of_format(fault: FormatFault) -> Status
    ensures { result ≡ of_format fault }
{
    match fault {
        FormatFault::WrongSize => Status::ImageWrongSize,
        FormatFault::Disk => Status::ImageDisk,
        FormatFault::Memory => Status::Memory,
    }
}

/// Why an image stands for no state of a plant.
pub fn of_image(fault: ImageFault) -> Refusal
    ensures { result ≡ of_image fault }
{
    match fault {
        ImageFault::NotFormatted => Refusal::plain(Status::ImageNotFormatted),
        ImageFault::OtherVersion => Refusal::plain(Status::ImageOtherVersion),
        ImageFault::OtherSystem => Refusal::plain(Status::ImageOtherPlant),
        ImageFault::WrongSize => Refusal::plain(Status::ImageWrongSize),
        ImageFault::Damaged(cell) => Refusal::with(Status::ImageDamaged, cell, 0),
        ImageFault::Gap(atom) => Refusal::with(Status::ImageGap, u64::from(atom), 0),
        ImageFault::NotEnabled(number, atom) => {
            Refusal::with(Status::ImageNotEnabled, number, u64::from(atom))
        }
        ImageFault::Memory => Refusal::plain(Status::Memory),
    }
}

/// Why no plant is booted.
pub fn of_boot(fault: BootFault) -> Refusal
    ensures { result ≡ of_boot fault }
{
    match fault {
        BootFault::Image(fault) => of_image(fault),
        BootFault::Disk => Refusal::plain(Status::ImageDisk),
    }
}

/// Why a text is no plant: the line, and the number of the fault. That memory ran out is no fault of the text.
pub fn of_text(told: PlantFault) -> Refusal
    ensures { result ≡ of_text told }
{
    match told.fault {
        Fault::Memory => Refusal::plain(Status::Memory),
        fault => Refusal::with(
            Status::NoPlant,
            u64::from(told.line),
            u64::from(fault.number()),
        ),
    }
}
