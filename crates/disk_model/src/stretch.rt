//! Bytes of a device that stand side by side.
ghost use Rattle.std.specs.Prelude.{◌≡◌, ◌+◌, ◌^◌, ◌<◌, min, max};

/// The bytes from number `from` on and before number `to`; none where `to` is not above `from`.
#[derive(Clone, Copy)]
pub(crate) struct Stretch {
    pub(crate) from: usize,
    pub(crate) to: usize,
}

impl Stretch {
    /// No byte.
    pub(crate) const EMPTY: Stretch = Stretch {
        from: usize::MAX,
        to: 0,
    };

    /// The least stretch over this one and so many bytes from number `at` on.
    pub(crate) fn over(self, at: usize, count: usize) -> Stretch
        requires { at + count < 2 ^ 64 }
        ensures { result ≡ record { from = min self.from at; to = max self.to (at + count) } }
    {
        Stretch {
            from: self.from.min(at),
            to: self.to.max(at + count),
        }
    }
}
