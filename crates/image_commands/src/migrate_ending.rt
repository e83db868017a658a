//! Why no image of the first layout is brought over to a new one.
use crate::refusal::ImageRefusal;
use plant_image::ImageFault;
use recovery::MigrateFault;
use std::fmt;
use text_io::WriteFault;
use thiserror::Error;

/// Why no image is brought over, or what failed meanwhile.
#[derive(Clone, Copy, Debug, PartialEq, Eq, Error)]
pub enum MigrateRefusal {
    /// The old image is refused, or its device failed, or memory ran out.
    Image(ImageRefusal),
    /// The new device has not the size that the plant and the ring ask for. It is as it was.
    NewSize,
    /// The new device failed, or does not give back what was written.
    NewDisk,
}

impl MigrateRefusal {
    ghost use Rattle.std.specs.Prelude.{◌≡◌};
    ghost use Rattle.image_commands.specs.Migrations.{migrate_advice, of_new};

    /// What the refusal means, and what an operator can do.
    pub fn advice(&self) -> &'static str
        ensures { result.now ≡ migrate_advice self.now }
    {
        match self {
            MigrateRefusal::Image(ImageRefusal::Image(ImageFault::OtherVersion)) => {
                "the old image is of no earlier version: go on with it as it is, or with the later version that formatted it"
            }
            MigrateRefusal::Image(refusal) => refusal.advice(),
            MigrateRefusal::NewSize => {
                "the new file is there already, and has not the size that the plant and --ring ask for: name a file that is not there"
            }
            MigrateRefusal::NewDisk => {
                "the disk of the new image failed, and the old image is as it was: see to the disk, and give the command again"
            }
        }
    }

    /// The refusal where the new image is not booted.
    pub(crate) fn of_new(refusal: ImageRefusal) -> Self
        ensures { result ≡ of_new refusal }
    {
        match refusal {
            ImageRefusal::Image(ImageFault::Memory) => MigrateRefusal::Image(refusal),
            _ => MigrateRefusal::NewDisk,
        }
    }
}

impl fmt::Display for MigrateRefusal {
    ghost use Rattle.std.specs.Prelude.{Some};
    ghost use Rattle.image_commands.specs.Migrations.{migrate_line};

    ghost output = { λ refusal. Some (migrate_line refusal) };

    fn fmt<W: fmt::Write>(&self, f: &mut fmt::Formatter<W>) -> fmt::Result {
        match self {
            MigrateRefusal::Image(refusal) => write!(f, "{refusal}"),
            MigrateRefusal::NewSize => f.write_str("new: refusal 2 NewSize"),
            MigrateRefusal::NewDisk => f.write_str("new: refusal 3 NewDisk"),
        }
    }
}

impl From<MigrateFault> for MigrateRefusal {
    ghost use Rattle.std.specs.Prelude.{◌≡◌};
    ghost use Rattle.image_commands.specs.Migrations.{of_migrate};

    ghost from_gives = { λ fault refusal. refusal ≡ of_migrate fault };

    fn from(fault: MigrateFault) -> Self {
        match fault {
            MigrateFault::Old(fault) => MigrateRefusal::Image(fault.into()),
            MigrateFault::NewSize => MigrateRefusal::NewSize,
            MigrateFault::NewDisk => MigrateRefusal::NewDisk,
            MigrateFault::Memory => MigrateRefusal::Image(ImageRefusal::Image(ImageFault::Memory)),
        }
    }
}

/// Why bringing an image over ends early.
#[derive(Clone, Copy, Debug, PartialEq, Eq)]
pub enum MigrateEnding {
    /// An image is refused, or a device or the memory failed. Nothing was printed.
    Refused(MigrateRefusal),
    /// The output could not be written. The new image is made.
    Unwritten,
}

impl MigrateEnding {
    ghost use Rattle.std.specs.Prelude.{◌≡◌};
    ghost use Rattle.image_commands.specs.Migrations.{migrate_status};

    /// The exit status of a program that ends so: 1 where the old image or the new file is refused, and 3 where a device, the memory or the
    /// output failed.
    pub fn exit_status(&self) -> u8
        ensures { result ≡ migrate_status self.now }
    {
        match self {
            MigrateEnding::Refused(MigrateRefusal::Image(refusal)) if !refusal.is_failure() => 1,
            MigrateEnding::Refused(MigrateRefusal::NewSize) => 1,
            _ => 3,
        }
    }
}

impl From<WriteFault> for MigrateEnding {
    ghost use Rattle.std.specs.Prelude.{◌≡◌};
    ghost use Rattle.image_commands.specs.declared.migrate_ending.MigrateEnding.TheVariants.{Unwritten};

    ghost from_gives = { λ _ ending. ending ≡ Unwritten };

    fn from(_: WriteFault) -> Self {
        MigrateEnding::Unwritten
    }
}
