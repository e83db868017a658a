//! What an inspection comes to.
use plant_image::ImageFault;

/// What an inspection comes to.
#[derive(Clone, Copy, Debug, PartialEq, Eq)]
pub struct Verdict {
    /// What a boot would answer if it were refused; without a plant, what is wrong whatever the plant.
    pub fault: Option<ImageFault>,
    /// Whether there is a doubt that a boot would not tell.
    pub doubtful: bool,
}

impl Verdict {
    ghost use Rattle.std.specs.Prelude.{◌≡◌};
    ghost use Rattle.image_inspection.specs.Verdicts.{status_of};

    /// The exit status of a program that ends so: 0, or 1 where a boot would refuse or there is a doubt.
    pub fn exit_status(self) -> u8
        ensures { result ≡ status_of self }
    {
        if self.fault.is_none() && !self.doubtful {
            0
        } else {
            1
        }
    }
}
