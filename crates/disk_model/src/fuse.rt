//! Which calls of a device in memory fail.
ghost use Rattle.std.specs.Prelude.{◌≡◌};
ghost use Rattle.disk_model.specs.Fuse.{burns, fuse_after};

/// Which of the calls to come fail. Numbers count from 1, and 0 is taken as 1.
#[derive(Clone, Copy)]
pub(crate) enum Fuse {
    Off,
    /// The call of that number.
    Once(u64),
    /// The call of that number and each one after it.
    Dead(u64),
    /// The write or sync of that number and each call after it.
    Change(u64),
}

impl Fuse {
    /// Whether this call fails.
    pub(crate) fn burn(&mut self, is_change: bool) -> bool
        ensures burns { result ≡ burns self.old is_change }
        ensures after { self.new ≡ fuse_after self.old is_change }
    {
        match *self {
            Fuse::Off => false,
            Fuse::Once(k) => {
                *self = if k <= 1 { Fuse::Off } else { Fuse::Once(k - 1) };
                k <= 1
            }
            Fuse::Dead(k) => {
                *self = Fuse::Dead(if k <= 1 { 1 } else { k - 1 });
                k <= 1
            }
            Fuse::Change(k) => {
                if !is_change {
                    return false;
                }
                *self = if k <= 1 {
                    Fuse::Dead(1)
                } else {
                    Fuse::Change(k - 1)
                };
                k <= 1
            }
        }
    }
}
