//! Why an image is not copied.
use disk_model::DiskFault;
use plant_image::ImageFault;

/// Why an image is not copied.
#[derive(Clone, Copy, Debug, PartialEq, Eq)]
pub enum BackupFault {
    /// What stands on the device is no image, or has no base.
    Image(ImageFault),
    /// The device of the image failed.
    Disk,
    /// The device of the copy failed. What stands on it reads as never formatted, or is the whole copy.
    CopyDisk,
}

impl From<DiskFault> for BackupFault {
    ghost use Rattle.std.specs.Prelude.{◌≡◌};
    ghost use Rattle.image_backup.specs.declared.fault.BackupFault.TheVariants.{Disk};

    ghost from_gives = { λ _ fault. fault ≡ Disk };

    fn from(_: DiskFault) -> Self {
        BackupFault::Disk
    }
}
