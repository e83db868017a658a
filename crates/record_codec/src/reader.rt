//! Reading a body, one field after another.
ghost use Rattle.std.specs.Prelude.{◌≡◌, ℕ, ◌+◌, ◌*◌, ◌≤◌, List, length, take, drop};
ghost use Rattle.record_codec.specs.Bytes.{one_byte_number, two_byte_number, four_byte_number, eight_byte_number, signed_number, signed_numbers};
ghost use Rattle.record_codec.specs.declared.layout.TheConstants.{DIGEST, MOST_EXPORTED, LONGEST_ENTRY};
ghost use Rattle.record_codec.specs.Entry.{bits_of, value_at, after_value, values_at, after_values, entry_at, after_entry, entries_at};

use crate::entry::Entry;
use crate::layout::{DIGEST, MOST_EXPORTED};
use std::marker::Model;

/// Reads a body from its front.
#[derive(Drop)]
pub(crate) struct Reader<'a> {
    rest: &'a [u8],
}

// Clauses see the bytes that are left.
impl<'a> Model for Reader<'a> {
    ghost Value = { List ℕ };

    ghost view = { λ r. r.rest.now };
}

impl<'a> Reader<'a> {
    pub(crate) fn new(body: &'a [u8]) -> Self
        ensures { result ≡ body.now }
    {
        Reader { rest: body }
    }

    pub(crate) fn skip(&mut self, count: usize)
        requires { count ≤ length self.old }
        ensures rest { self.new ≡ drop count self.old }
        ensures left { length self.new + count ≡ length self.old }
    {
        let (_, rest) = self.rest.split_at(count);
        self.rest = rest;
    }

    #[tactic(auto, unfolding(crate::specs::Bytes::one_byte_number))]
    pub(crate) fn one(&mut self) -> u8
        requires { 1 ≤ length self.old }
        ensures value { result ≡ one_byte_number self.old }
        ensures rest { self.new ≡ drop 1 self.old }
        ensures left { length self.new + 1 ≡ length self.old }
    {
        let (front, rest) = self.rest.split_at(1);
        self.rest = rest;
        front[0]
    }

    #[tactic(auto, unfolding(crate::specs::Bytes::two_byte_number))]
    pub(crate) fn two(&mut self) -> u16
        requires { 2 ≤ length self.old }
        ensures value { result ≡ two_byte_number self.old }
        ensures rest { self.new ≡ drop 2 self.old }
        ensures left { length self.new + 2 ≡ length self.old }
    {
        let (front, rest) = self.rest.split_at(2);
        self.rest = rest;
        u16::from_be_bytes([front[0], front[1]])
    }

    #[tactic(auto, unfolding(crate::specs::Bytes::four_byte_number))]
    pub(crate) fn four(&mut self) -> u32
        requires { 4 ≤ length self.old }
        ensures value { result ≡ four_byte_number self.old }
        ensures rest { self.new ≡ drop 4 self.old }
        ensures left { length self.new + 4 ≡ length self.old }
    {
        let (front, rest) = self.rest.split_at(4);
        self.rest = rest;
        u32::from_be_bytes([front[0], front[1], front[2], front[3]])
    }

    #[tactic(auto, unfolding(crate::specs::Bytes::eight_byte_number))]
    pub(crate) fn eight(&mut self) -> u64
        requires { 8 ≤ length self.old }
        ensures value { result ≡ eight_byte_number self.old }
        ensures rest { self.new ≡ drop 8 self.old }
        ensures left { length self.new + 8 ≡ length self.old }
    {
        let (front, rest) = self.rest.split_at(8);
        self.rest = rest;
        u64::from_be_bytes([
            front[0], front[1], front[2], front[3], front[4], front[5], front[6], front[7],
        ])
    }

    #[tactic(auto, unfolding(crate::specs::Bytes::signed_number))]
    pub(crate) fn signed(&mut self) -> i64
        requires { 8 ≤ length self.old }
        ensures value { result ≡ signed_number self.old }
        ensures rest { self.new ≡ drop 8 self.old }
        ensures left { length self.new + 8 ≡ length self.old }
    {
        let (front, rest) = self.rest.split_at(8);
        self.rest = rest;
        i64::from_be_bytes([
            front[0], front[1], front[2], front[3], front[4], front[5], front[6], front[7],
        ])
    }

    /// Fills the slice with signed numbers.
    pub(crate) fn signed_run(&mut self, into: &mut [i64])
        requires { 8 * length into.old ≤ length self.old }
        ensures values { into.new ≡ signed_numbers (length into.old) self.old }
        ensures rest { self.new ≡ drop (8 * length into.old) self.old }
        ensures left { length self.new + 8 * length into.old ≡ length self.old }
    {
        for i in 0..into.len() {
            into[i] = self.signed();
        }
    }

    pub(crate) fn digest(&mut self) -> [u8; DIGEST]
        requires { DIGEST ≤ length self.old }
        ensures value { result ≡ take DIGEST self.old }
        ensures rest { self.new ≡ drop DIGEST self.old }
        ensures left { length self.new + DIGEST ≡ length self.old }
    {
        let (front, rest) = self.rest.split_at(DIGEST);
        self.rest = rest;
        let mut digest = [0; DIGEST];
        digest.copy_from_slice(front);
        digest
    }

    /// A value, if one was given.
    pub(crate) fn value(&mut self, given: bool) -> Option<i64>
        requires { 8 ≤ length self.old }
        ensures value { result ≡ value_at given self.old }
        ensures rest { self.new ≡ after_value given self.old }
        ensures left { length self.old ≤ length self.new + 8 }
    {
        if given { Some(self.signed()) } else { None }
    }

    /// The values that the mask has a bit for, in the order of the bits.
    pub(crate) fn values(&mut self, mask: u8) -> [Option<i64>; MOST_EXPORTED]
        requires { 8 * MOST_EXPORTED ≤ length self.old }
        ensures value { result ≡ values_at (bits_of MOST_EXPORTED mask) self.old }
        ensures rest { self.new ≡ after_values (bits_of MOST_EXPORTED mask) self.old }
        ensures left { length self.old ≤ length self.new + 8 * MOST_EXPORTED }
    {
        let half = mask / 2;
        let quarter = half / 2;
        let eighth = quarter / 2;
        let first = self.value(mask % 2 == 1);
        let second = self.value(half % 2 == 1);
        let third = self.value(quarter % 2 == 1);
        let fourth = self.value(eighth % 2 == 1);
        [first, second, third, fourth]
    }

    // The number of values is not read: it follows from the mask, and the whole body is compared at the end.
    #[tactic(auto, unfolding(crate::specs::Entry::entry_at, crate::specs::Entry::after_entry))]
    pub(crate) fn entry(&mut self) -> Entry
        requires { LONGEST_ENTRY ≤ length self.old }
        ensures value { result ≡ entry_at self.old }
        ensures rest { self.new ≡ after_entry self.old }
        ensures left { length self.old ≤ length self.new + LONGEST_ENTRY }
    {
        let atom = self.two();
        let transition = self.two();
        let participation = self.eight();
        self.skip(1);
        let mask = self.one();
        let delivered = self.values(mask);
        Entry {
            atom,
            transition,
            participation,
            delivered,
        }
    }

    /// Fills the slice with entries.
    pub(crate) fn entries(&mut self, into: &mut [Entry])
        requires { LONGEST_ENTRY * length into.old ≤ length self.old }
        ensures { into.new ≡ entries_at (length into.old) self.old }
    {
        for i in 0..into.len() {
            into[i] = self.entry();
        }
    }
}
