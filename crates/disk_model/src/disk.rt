//! The trait of a block device, and what each of its calls may change.
ghost use Rattle.std.specs.Prelude.{◌≡◌, ◌+◌, ◌^◌, ◌<◌, ◌≤◌, false, true, length, take, drop, is_ok, is_err, IfOk, OnOk, OnErr, Some, codes};
ghost use Rattle.disk_model.specs.DiskState.{DiskState, size_of, Counts, IsUnchanged, Writes, FailsToWrite, Syncs};

use std::fmt;
use thiserror::Error;

/// The device failed in this call. Its count of failures rose by one, short of the greatest `u64`.
#[derive(Clone, Copy, Debug, PartialEq, Eq, Error)]
pub struct DiskFault;

impl fmt::Display for DiskFault {
    ghost output = { λ _. Some (codes "the device failed") };

    fn fmt<W: fmt::Write>(&self, f: &mut fmt::Formatter<W>) -> fmt::Result {
        f.write_str("the device failed")
    }
}

/// A block device of a fixed size.
pub trait Disk {
    /// What the device holds and has held, what of it is pending, and its counts.
    ghost state: { Self → DiskState };

    /// The number of bytes.
    fn size(&mut self) -> Result<u64, DiskFault>
        ensures size { IfOk result (λ n. n ≡ size_of (state self.old)) }
        ensures counts { Counts (is_err result) false (state self.old) (state self.new) }
        ensures same { (state self.old).keeps ≡ true → IsUnchanged (state self.old) (state self.new) };

    /// Fills `into` with the bytes from number `at` on. After a failure it holds anything.
    fn read_at(&mut self, at: u64, into: &mut [u8]) -> Result<(), DiskFault>
        requires { at + length into.old ≤ size_of (state self.old) }
        ensures bytes { (state self.old).keeps ≡ true → OnOk result
            (into.new ≡ take (length into.old) (drop at (state self.old).now.seen)) }
        ensures counts { Counts (is_err result) false (state self.old) (state self.new) }
        ensures same { (state self.old).keeps ≡ true → IsUnchanged (state self.old) (state self.new) };

    /// Writes `from` over the bytes from number `at` on.
    fn write_at(&mut self, at: u64, from: &[u8]) -> Result<(), DiskFault>
        requires { at + length from.now ≤ size_of (state self.old) }
        ensures ok { (state self.old).keeps ≡ true → OnOk result
            (Writes at from.now (state self.old) (state self.new)) }
        ensures err { (state self.old).keeps ≡ true → OnErr result
            (FailsToWrite at from.now (state self.old) (state self.new)) }
        ensures counts { Counts (is_err result) false (state self.old) (state self.new) };

    /// Puts everything written so far onto the disk.
    fn sync(&mut self) -> Result<(), DiskFault>
        ensures ok { (state self.old).keeps ≡ true → OnOk result
            (Syncs (state self.old) (state self.new)) }
        ensures err { (state self.old).keeps ≡ true → OnErr result
            (IsUnchanged (state self.old) (state self.new)) }
        ensures counts { Counts (is_err result) (is_ok result) (state self.old) (state self.new) };

    /// Each place of the device has a number of 64 bits.
    ghost fits: { (device : Self) → size_of (state device) < 2 ^ 64 };
}
