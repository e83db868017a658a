//! The entries of a record, wherever they come from.
ghost use Rattle.std.specs.Prelude.{◌≡◌, ◌<◌, Some, length, slice_get};

use crate::entry::Entry;

/// What has the entries of a record. A record is spelled from it, so that a step needs to make no list of them first.
pub trait EntrySource {
    ghost use Rattle.std.specs.Prelude.{List};
    ghost use Rattle.record_codec.specs.declared.entry.Entry.{Entry};

    /// The entries, in their order.
    ghost entries: { Self → List Entry };

    /// How many there are.
    fn count(&self) -> usize
        ensures { result ≡ length (entries self.now) };

    /// The one at this place.
    fn entry(&self, place: usize) -> Entry
        requires { place < length (entries self.now) }
        ensures { slice_get (entries self.now) place ≡ Some result };
}
