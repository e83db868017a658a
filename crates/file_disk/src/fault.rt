//! Why a file is not opened as a device.
use crate::LARGEST_IMAGE;
use std::fmt;
use thiserror::Error;

/// Why a file is not opened as a device.
#[derive(Clone, Copy, Debug, PartialEq, Eq, Error)]
pub enum FileFault {
    /// To create: more bytes than the largest image has. Nothing was made.
    TooLarge,
    /// To create: the name is taken. What has it was left as it was.
    AlreadyThere,
    /// The file to open is not there, or the folder to create it in.
    NotThere,
    /// The user has no right to the file or to its folder.
    NotAllowed,
    /// It is a folder, a pipe or a device of the system.
    NotAFile,
    /// The system did not open it for another reason.
    Unopened,
    /// There is no memory for its bytes. To create: nothing was made.
    Memory,
    /// It is open already, in another program or in this one.
    InUse,
    /// It could not be asked whether it is in use.
    Unlocked,
    /// To create: it could not be filled with zeros and put onto the disk. It was removed again, if that was possible.
    Unmade,
    /// Its name could not be put onto the disk. A new file was removed again, if that was possible.
    Unnamed,
}

impl fmt::Display for FileFault {
    ghost use Rattle.std.specs.Prelude.{Some};
    ghost use Rattle.file_disk.specs.Messages.{message_of};

    ghost output = { λ fault. Some (message_of fault) };

    fn fmt<W: fmt::Write>(&self, f: &mut fmt::Formatter<W>) -> fmt::Result {
        match self {
            FileFault::TooLarge => write!(f, "an image has at most {LARGEST_IMAGE} bytes"),
            FileFault::AlreadyThere => f.write_str("the name is taken: choose another one"),
            FileFault::NotThere => f.write_str("no such file or folder"),
            FileFault::NotAllowed => f.write_str("no right to read and write it"),
            FileFault::NotAFile => f.write_str("not a plain file"),
            FileFault::Unopened => f.write_str("the system could not open it"),
            FileFault::Memory => f.write_str("no memory for its bytes"),
            FileFault::InUse => f.write_str("in use: end the program that has it open"),
            FileFault::Unlocked => {
                f.write_str("no lock on it: its file system may have none, choose another one")
            }
            FileFault::Unmade => f.write_str("it could not be filled: the disk may be full"),
            FileFault::Unnamed => {
                f.write_str("its name could not be put onto the disk: the disk may be failing")
            }
        }
    }
}
