//! Why the program ends early.
use file_disk::FileFault;
use plant_core::Refused;
use plant_text::PlantFault;
use recovery::{BootFault, FormatFault};
use std::alloc::AllocError;
use std::{fmt, io};
use text_io::WriteFault;

/// Why the program ends early.
#[derive(Clone, Copy)]
pub(crate) enum Ending {
    /// The words of the command line are not two paths.
    Usage,
    /// The file of the plant's text can't be opened.
    NoText,
    /// The text is no plant.
    Plant(PlantFault),
    /// The text is a plant that has no connector of a name that the controller fires.
    OtherPlant,
    /// The file of the image can't be opened, or made.
    File(FileFault),
    /// The image can't be formatted.
    Format(FormatFault),
    /// The image stands for no state of the plant, or its device failed.
    Boot(BootFault),
    /// The plant refused what the controller asked of it.
    Refused(Refused),
    /// The standard input can't be read.
    Input,
    /// The standard output can't be written.
    Output,
    /// Memory ran out.
    Memory,
}

impl Ending {
    /// The exit status: 1 if the plant or the image is not what the controller is for, 2 for the words of the command line, and 3 if a file, the
    /// memory, the input or the output failed.
    pub(crate) fn status(&self) -> u8 {
        match self {
            Ending::Usage => 2,
            Ending::Plant(_) | Ending::OtherPlant | Ending::Boot(BootFault::Image(_)) => 1,
            _ => 3,
        }
    }
}

impl fmt::Display for Ending {
    fn fmt<W: fmt::Write>(&self, f: &mut fmt::Formatter<W>) -> fmt::Result {
        match self {
            Ending::Usage => f.write_str("usage: crossing_control PLANT IMAGE"),
            Ending::NoText => f.write_str("the plant's text can't be opened"),
            Ending::Plant(told) => write!(
                f,
                "plant line {}: fault {} {}",
                told.line,
                told.fault.number(),
                told.fault.name()
            ),
            Ending::OtherPlant => f.write_str("it is no plant of a crossing"),
            Ending::File(fault) => write!(f, "the image: {fault}"),
            Ending::Format(fault) => write!(f, "the image: {fault}"),
            Ending::Boot(fault) => write!(f, "the image: {fault}"),
            Ending::Refused(refused) => write!(f, "the plant: {refused}"),
            Ending::Input => f.write_str("the standard input can't be read"),
            Ending::Output => f.write_str("the standard output can't be written"),
            Ending::Memory => f.write_str("not enough memory"),
        }
    }
}

impl From<Refused> for Ending {
    fn from(refused: Refused) -> Self {
        Self::Refused(refused)
    }
}

impl From<AllocError> for Ending {
    fn from(_error: AllocError) -> Self {
        Self::Memory
    }
}

impl From<WriteFault> for Ending {
    fn from(_fault: WriteFault) -> Self {
        Self::Output
    }
}

impl From<io::Error> for Ending {
    fn from(_error: io::Error) -> Self {
        Self::Input
    }
}
