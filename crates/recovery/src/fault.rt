//! Why a device is not formatted, and why no plant is booted from it.
use disk_model::DiskFault;
use plant_image::ImageFault;
use std::alloc::AllocError;
use std::fmt;
use thiserror::Error;

/// Why a device is not formatted.
#[derive(Clone, Copy, Debug, PartialEq, Eq, Error)]
pub enum FormatFault {
    /// The device has not the size that the plant and the ring ask for. It is as it was.
    WrongSize,
    /// The device failed. It holds what it held, or it is unformatted, or it is formatted whole.
    Disk,
    /// Memory ran out. The device is as it was.
    Memory,
}

impl fmt::Display for FormatFault {
    ghost use Rattle.std.specs.Prelude.{Some};
    ghost use Rattle.recovery.specs.Messages.{format_message};

    ghost output = { λ fault. Some (format_message fault) };

    fn fmt<W: fmt::Write>(&self, f: &mut fmt::Formatter<W>) -> fmt::Result {
        match self {
            FormatFault::WrongSize => {
                f.write_str("it does not have the size that the plant and the ring ask for")
            }
            FormatFault::Disk => f.write_str("the device failed"),
            FormatFault::Memory => f.write_str("not enough memory to format it"),
        }
    }
}

/// A device that was not formatted, and why not.
#[derive(Drop)]
pub struct FormatRefused<D> {
    /// The device.
    pub disk: D,
    /// Why it was not formatted.
    pub fault: FormatFault,
}

/// Why no plant is booted from a device.
#[derive(Clone, Copy, Debug, PartialEq, Eq, Error)]
pub enum BootFault {
    /// What the device holds stands for no state of the plant, or memory ran out while that was found out. All cells are as they were.
    Image(ImageFault),
    /// The device failed. What it stood for it still stands for.
    Disk,
}

impl fmt::Display for BootFault {
    ghost use Rattle.std.specs.Prelude.{Some};
    ghost use Rattle.recovery.specs.Messages.{boot_message};

    ghost output = { λ fault. Some (boot_message fault) };

    fn fmt<W: fmt::Write>(&self, f: &mut fmt::Formatter<W>) -> fmt::Result {
        match self {
            BootFault::Image(fault) => write!(f, "{fault}"),
            BootFault::Disk => f.write_str("the device failed"),
        }
    }
}

impl From<ImageFault> for BootFault {
    ghost use Rattle.std.specs.Prelude.{◌≡◌};
    ghost use Rattle.recovery.specs.declared.fault.BootFault.TheVariants.{Image};

    ghost from_gives = { λ fault made. made ≡ Image fault };

    fn from(fault: ImageFault) -> Self {
        Self::Image(fault)
    }
}

impl From<AllocError> for BootFault {
    ghost use Rattle.std.specs.Prelude.{◌≡◌};
    ghost use Rattle.plant_image.specs.declared.fault.ImageFault.TheVariants.{Memory};
    ghost use Rattle.recovery.specs.declared.fault.BootFault.TheVariants.{Image};

    ghost from_gives = { λ _ made. made ≡ Image Memory };

    fn from(_error: AllocError) -> Self {
        Self::Image(ImageFault::Memory)
    }
}

impl From<DiskFault> for BootFault {
    ghost use Rattle.std.specs.Prelude.{◌≡◌};
    ghost use Rattle.recovery.specs.declared.fault.BootFault.TheVariants.{Disk};

    ghost from_gives = { λ _ made. made ≡ Disk };

    fn from(_fault: DiskFault) -> Self {
        Self::Disk
    }
}

/// A device from which no plant was booted, and why not.
#[derive(Drop)]
pub struct BootRefused<D> {
    /// The device.
    pub disk: D,
    /// Why no plant was booted from it.
    pub fault: BootFault,
}

/// Why an image of the first layout is not brought over to a new device.
#[derive(Clone, Copy, Debug, PartialEq, Eq, Error)]
pub enum MigrateFault {
    /// What the old device holds stands for no state of the plant, or it failed. The new device was not called.
    Old(BootFault),
    /// The new device has not the size that the plant and the ring ask for. It is as it was.
    NewSize,
    /// The new device failed. It holds what it held, or it is unformatted, or it stands for what the old one stands for.
    NewDisk,
    /// Memory ran out. The new device was not called.
    Memory,
}

impl fmt::Display for MigrateFault {
    ghost use Rattle.std.specs.Prelude.{Some};
    ghost use Rattle.recovery.specs.Messages.{migrate_message};

    ghost output = { λ fault. Some (migrate_message fault) };

    fn fmt<W: fmt::Write>(&self, f: &mut fmt::Formatter<W>) -> fmt::Result {
        match self {
            MigrateFault::Old(BootFault::Image(fault)) => write!(f, "the old device: {fault}"),
            MigrateFault::Old(BootFault::Disk) => f.write_str("the old device failed"),
            MigrateFault::NewSize => f.write_str(
                "the new device does not have the size that the plant and the ring ask for",
            ),
            MigrateFault::NewDisk => f.write_str("the new device failed"),
            MigrateFault::Memory => f.write_str("not enough memory to bring the image over"),
        }
    }
}

// That memory ran out is no fault of the old device.
impl From<BootFault> for MigrateFault {
    ghost use Rattle.std.specs.Prelude.{◌≡◌};
    ghost use Rattle.recovery.specs.Migrating.{of_boot};

    ghost from_gives = { λ fault made. made ≡ of_boot fault };

    fn from(fault: BootFault) -> Self {
        match fault {
            BootFault::Image(ImageFault::Memory) => Self::Memory,
            other => Self::Old(other),
        }
    }
}

impl From<FormatFault> for MigrateFault {
    ghost use Rattle.std.specs.Prelude.{◌≡◌};
    ghost use Rattle.recovery.specs.Migrating.{of_writing};

    ghost from_gives = { λ fault made. made ≡ of_writing fault };

    fn from(fault: FormatFault) -> Self {
        match fault {
            FormatFault::WrongSize => Self::NewSize,
            FormatFault::Disk => Self::NewDisk,
            FormatFault::Memory => Self::Memory,
        }
    }
}

/// The devices between which no image was brought over, and why not.
#[derive(Drop)]
pub struct MigrateRefused<D1, D2> {
    /// The device of the first layout.
    pub old: D1,
    /// The new device.
    pub new: D2,
    /// Why its image was not brought over.
    pub fault: MigrateFault,
}
