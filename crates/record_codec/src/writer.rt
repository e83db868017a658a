//! Writing a body, one field after another.
ghost use Rattle.std.specs.Prelude.{◌≡◌, ℕ, ◌+◌, ◌*◌, ◌-◌, ◌≤◌, List, [], ◌++◌, length, take, drop, All, IfSome, FitsSigned};
ghost use Rattle.std.specs.Int.{w64};
ghost use Rattle.std.specs.List.{flat_map};
ghost use Rattle.record_codec.specs.declared.layout.TheConstants.{LONGEST_ENTRY};
ghost use Rattle.record_codec.specs.Entry.{EntryFits, value_bytes, entry_bytes};
ghost use Rattle.record_codec.specs.Bytes.{one_byte, two_bytes, four_bytes, eight_bytes, signed_bytes, zeros, padded};

use crate::entry::Entry;
use std::marker::Model;

/// Writes a body from its front: what was written so far, and zeros after it.
#[derive(Drop)]
pub(crate) struct Writer<const LENGTH: usize> {
    body: [u8; LENGTH],
    position: usize,
}

// Clauses see the bytes that were written.
impl<const LENGTH: usize> Model for Writer<LENGTH> {
    ghost Value = { List ℕ };

    ghost view = { λ w. take w.position w.body };

    ghost invariant = { λ w. (w.position ≤ LENGTH) × (drop w.position w.body ≡ zeros (LENGTH - w.position)) };
}

impl<const LENGTH: usize> Writer<LENGTH> {
    #[tactic(auto, unfolding(crate::specs::Bytes::zeros))]
    pub(crate) fn new() -> Self
        ensures { result ≡ [] }
    {
        Writer {
            body: [0; LENGTH],
            position: 0,
        }
    }

    pub(crate) fn bytes(&mut self, bytes: &[u8])
        requires { length self.old + length bytes.now ≤ LENGTH }
        ensures written { self.new ≡ self.old ++ bytes.now }
        ensures len { length self.new ≡ length self.old + length bytes.now }
    {
        let end = self.position + bytes.len();
        let body = &mut self.body[..];
        body[self.position..end].copy_from_slice(bytes);
        self.position = end;
    }

    #[tactic(auto, unfolding(crate::specs::Bytes::one_byte))]
    pub(crate) fn one(&mut self, number: u8)
        requires { length self.old + 1 ≤ LENGTH }
        ensures written { self.new ≡ self.old ++ one_byte number }
        ensures len { length self.new ≡ length self.old + 1 }
    {
        self.bytes(&[number]);
    }

    #[tactic(auto, unfolding(crate::specs::Bytes::two_bytes))]
    pub(crate) fn two(&mut self, number: u16)
        requires { length self.old + 2 ≤ LENGTH }
        ensures written { self.new ≡ self.old ++ two_bytes number }
        ensures len { length self.new ≡ length self.old + 2 }
    {
        self.bytes(&number.to_be_bytes());
    }

    #[tactic(auto, unfolding(crate::specs::Bytes::four_bytes))]
    pub(crate) fn four(&mut self, number: u32)
        requires { length self.old + 4 ≤ LENGTH }
        ensures written { self.new ≡ self.old ++ four_bytes number }
        ensures len { length self.new ≡ length self.old + 4 }
    {
        self.bytes(&number.to_be_bytes());
    }

    #[tactic(auto, unfolding(crate::specs::Bytes::eight_bytes))]
    pub(crate) fn eight(&mut self, number: u64)
        requires { length self.old + 8 ≤ LENGTH }
        ensures written { self.new ≡ self.old ++ eight_bytes number }
        ensures len { length self.new ≡ length self.old + 8 }
    {
        self.bytes(&number.to_be_bytes());
    }

    #[tactic(auto, unfolding(crate::specs::Bytes::signed_bytes))]
    pub(crate) fn signed(&mut self, number: i64)
        requires { length self.old + 8 ≤ LENGTH }
        ensures written { self.new ≡ self.old ++ signed_bytes number }
        ensures len { length self.new ≡ length self.old + 8 }
        ensures fits { FitsSigned w64 number }
    {
        self.bytes(&number.to_be_bytes());
    }

    /// Writes signed numbers, one after the other.
    pub(crate) fn signed_run(&mut self, numbers: &[i64])
        requires { length self.old + 8 * length numbers.now ≤ LENGTH }
        ensures written { self.new ≡ self.old ++ flat_map signed_bytes numbers.now }
        ensures len { length self.new ≡ length self.old + 8 * length numbers.now }
        ensures fits { All (FitsSigned w64) numbers.now }
    {
        for number in numbers {
            self.signed(*number);
        }
    }

    pub(crate) fn body(&self) -> [u8; LENGTH]
        ensures { result ≡ padded LENGTH self.now }
    {
        self.body
    }

    /// How many bytes were written.
    pub(crate) fn len(&self) -> usize
        ensures { result ≡ length self.now }
    {
        self.position
    }

    /// Writes a value, if there is one.
    pub(crate) fn value(&mut self, value: Option<i64>)
        requires { length self.old + 8 ≤ LENGTH }
        ensures written { self.new ≡ self.old ++ value_bytes value }
        ensures len { length self.new ≤ length self.old + 8 }
        ensures fits { IfSome value (FitsSigned w64) }
    {
        if let Some(value) = value {
            self.signed(value);
        }
    }

    #[tactic(auto, unfolding(crate::specs::Entry::entry_bytes))]
    pub(crate) fn entry(&mut self, entry: &Entry)
        requires { length self.old + LONGEST_ENTRY ≤ LENGTH }
        ensures written { self.new ≡ self.old ++ entry_bytes entry.now }
        ensures len { length self.new ≤ length self.old + LONGEST_ENTRY }
        ensures fits { EntryFits entry.now }
    {
        self.two(entry.atom);
        self.two(entry.transition);
        self.eight(entry.participation);
        self.one(entry.delivered_count());
        self.one(entry.mask());
        let [first, second, third, fourth] = entry.delivered;
        self.value(first);
        self.value(second);
        self.value(third);
        self.value(fourth);
    }
}
