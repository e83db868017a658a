//! The record of one fired interaction.
ghost use Rattle.std.specs.Prelude.{◌≡◌, ◌+◌, ◌*◌, ◌≤◌, ◌++◌, ℕ, IfSome, Some, length, take};
ghost use Rattle.record_codec.specs.declared.layout.TheConstants.{BODY, LONGEST_ENTRY};
ghost use Rattle.record_codec.specs.declared.fired.TheConstants.{HEAD};
ghost use Rattle.std.specs.List.{list_all};
ghost use Rattle.record_codec.specs.Answers.{IsAnswer};
ghost use Rattle.record_codec.specs.Bytes.{eight_bytes, two_bytes, one_byte, zeros, padded};
ghost use Rattle.record_codec.specs.Entry.{EntryFits, entry_bytes, is_entry};
ghost use Rattle.record_codec.specs.Fired.{IsFired, IsFiredBody, IsFiredBodyUpTo, FiredFits, atoms_of, is_rising, is_fired_up_to, fired_bytes, fired_in, fired_up_to};

use crate::entry::Entry;
use crate::entry_source::EntrySource;
use crate::layout::{
    BODY, ENTRY_COUNT_AT, LAST_NUMBER, LONGEST_ENTRY, MOST_CONNECTORS, MOST_ENTRIES,
};
use crate::reader::Reader;
use crate::writer::Writer;
use std::marker::Model;

/// How many bytes of a record stand before its entries.
const HEAD: usize = ENTRY_COUNT_AT + 1;

/// A fired interaction: the record of it.
#[derive(Debug, Drop)]
pub struct Fired {
    number: u64,
    connector: u16,
    participants: usize,
    entries: [Entry; MOST_ENTRIES],
}

// Clauses see the fields, and the entries as a list.
impl Model for Fired {
    ghost use Rattle.std.specs.Prelude.{◌≤◌, take};
    ghost use Rattle.record_codec.specs.declared.layout.TheConstants.{MOST_ENTRIES};
    ghost use Rattle.record_codec.specs.Fired.{FiredFields, IsFired};

    ghost Value = { FiredFields };

    ghost view = { λ f. record { number = f.number; connector = f.connector; entries = take f.participants f.entries } };

    ghost invariant = { λ f. (f.participants ≤ MOST_ENTRIES) × IsFired (record { number = f.number; connector = f.connector; entries = take f.participants f.entries }) };
}

impl Fired {
    /// The record with the number, of an interaction of the connector, with an entry for each participant.
    pub fn new(number: u64, connector: u16, entries: &[Entry]) -> Fired
        requires { IsFired (record { number = number; connector = connector; entries = entries.now }) }
        ensures { result ≡ record { number = number; connector = connector; entries = entries.now } }
    {
        let participants = entries.len();
        let mut stored = [Entry::NOTHING; MOST_ENTRIES];
        stored[..participants].copy_from_slice(entries);
        Fired {
            number,
            connector,
            participants,
            entries: stored,
        }
    }

    /// The number of the record, from 1 on.
    pub fn number(&self) -> u64
        ensures value { result ≡ self.now.number }
        ensures in_range { IsFired self.now }
    {
        self.number
    }

    /// The number of the connector.
    pub fn connector(&self) -> u16
        ensures value { result ≡ self.now.connector }
        ensures in_range { IsFired self.now }
    {
        self.connector
    }

    /// An entry for each participant, in rising atom number.
    pub fn entries(&self) -> &[Entry]
        ensures entries { result.now ≡ self.now.entries }
        ensures in_range { IsFired self.now }
    {
        &self.entries[..self.participants]
    }

    /// The body of a cell that holds this record.
    pub fn to_body(&self) -> [u8; BODY]
        ensures spelled { result ≡ padded BODY (fired_bytes self.now) }
        ensures reads_back { fired_in result ≡ Some self.now }
    {
        // A body has room for so many entries.
        prove!(self.participants <= MOST_ENTRIES);
        self.spelled()
    }

    /// The record that the body holds, or `None` if it is no record's body.
    #[tactic(auto, unfolding(crate::specs::Fired::fired_in))]
    pub fn from_body(body: &[u8; BODY]) -> Option<Fired>
        ensures { IsAnswer (fired_in body.now) (IsFiredBody body.now) result }
    {
        Fired::read(body, MOST_ENTRIES)
    }

    /// The body of this length that holds this record.
    pub(crate) fn spelled<const LENGTH: usize>(&self) -> [u8; LENGTH]
        requires room { HEAD + LONGEST_ENTRY * length self.now.entries ≤ LENGTH }
        requires within { LENGTH ≤ BODY }
        ensures spelled { result ≡ padded LENGTH (fired_bytes self.now) }
        ensures fits { FiredFits self.now }
        ensures reads_back { (most : ℕ) → length self.now.entries ≤ most → fired_up_to most result ≡ Some self.now }
    {
        spelled(self.number, self.connector, self)
    }

    /// The record of at most so many entries that a body of this length holds, or `None` if it is no such record's body.
    pub(crate) fn read<const LENGTH: usize>(body: &[u8; LENGTH], most: usize) -> Option<Fired>
        requires few { most ≤ MOST_ENTRIES }
        requires room { HEAD + LONGEST_ENTRY * most ≤ LENGTH }
        requires within { LENGTH ≤ BODY }
        ensures { IsAnswer (fired_up_to most body.now) (IsFiredBodyUpTo most body.now) result }
    {
        Fired::held(body, most)
    }

    // The body of what the fields say is compared with the whole body, so nothing else of it is judged here.
    fn held<const LENGTH: usize>(body: &[u8; LENGTH], most: usize) -> Option<Fired>
        requires few { most ≤ MOST_ENTRIES }
        requires room { HEAD + LONGEST_ENTRY * most ≤ LENGTH }
        requires within { LENGTH ≤ BODY }
        ensures exact { result ≡ fired_up_to most body.now }
        ensures fits { IfSome result FiredFits }
    {
        let mut reader = Reader::new(body);
        let number = reader.eight();
        let connector = reader.two();
        let participants = reader.one() as usize;
        if participants > most {
            return None;
        }
        let mut entries = [Entry::NOTHING; MOST_ENTRIES];
        let entries = &mut entries[..participants];
        reader.entries(entries);
        if !is_in_range(number, connector, entries, most) {
            return None;
        }
        let fired = Fired::new(number, connector, entries);
        if fired.spelled() == *body {
            Some(fired)
        } else {
            None
        }
    }
}

impl EntrySource for Fired {
    ghost entries = { λ f. f.entries };

    fn count(&self) -> usize {
        self.entries().len()
    }

    fn entry(&self, place: usize) -> Entry {
        self.entries()[place]
    }
}

/// Writes, over a body of zeros, that of a cell that holds the record with the number, of an interaction of the connector, with these entries.
#[tactic(auto, unfolding(crate::specs::Fired::fired_in))]
pub fn spell_over<E: EntrySource>(number: u64, connector: u16, entries: &E, body: &mut [u8; BODY])
    requires in_range { IsFired (record { number = number; connector = connector; entries = E.entries entries.now }) }
    requires clear { body.old ≡ zeros BODY }
    ensures { fired_in body.new ≡ Some (record { number = number; connector = connector; entries = E.entries entries.now }) }
{
    spell(number, connector, entries, body);
}

/// The body of this length that holds such a record.
#[tactic(auto, unfolding(crate::specs::Bytes::zeros))]
fn spelled<E: EntrySource, const LENGTH: usize>(
    number: u64,
    connector: u16,
    entries: &E,
) -> [u8; LENGTH]
    requires in_range { IsFired (record { number = number; connector = connector; entries = E.entries entries.now }) }
    requires room { HEAD + LONGEST_ENTRY * length (E.entries entries.now) ≤ LENGTH }
    ensures spelled { result ≡ padded LENGTH (fired_bytes (record { number = number; connector = connector; entries = E.entries entries.now })) }
    ensures fits { FiredFits (record { number = number; connector = connector; entries = E.entries entries.now }) }
    ensures reads_back { (most : ℕ) → length (E.entries entries.now) ≤ most
        → fired_up_to most result ≡ Some (record { number = number; connector = connector; entries = E.entries entries.now }) }
{
    let mut body = [0; LENGTH];
    spell(number, connector, entries, &mut body);
    body
}

/// Writes such a record over zeros that have room for it.
fn spell<E: EntrySource>(number: u64, connector: u16, entries: &E, body: &mut [u8])
    requires in_range { IsFired (record { number = number; connector = connector; entries = E.entries entries.now }) }
    requires room { HEAD + LONGEST_ENTRY * length (E.entries entries.now) ≤ length body.old }
    requires clear { body.old ≡ zeros (length body.old) }
    ensures spelled { body.new ≡ padded (length body.old) (fired_bytes (record { number = number; connector = connector; entries = E.entries entries.now })) }
    ensures fits { FiredFits (record { number = number; connector = connector; entries = E.entries entries.now }) }
{
    let count = entries.count();
    put_head(number, connector, count as u8, body);
    let mut end = HEAD;
    for place in 0..count {
        end = put_entry(&entries.entry(place), end, body);
    }
}

/// Writes what stands before the entries over zeros.
fn put_head(number: u64, connector: u16, count: u8, body: &mut [u8])
    requires room { HEAD ≤ length body.old }
    requires clear { body.old ≡ zeros (length body.old) }
    ensures { body.new ≡ padded (length body.old) (eight_bytes number ++ two_bytes connector ++ one_byte count) }
{
    let mut head = Writer::<HEAD>::new();
    head.eight(number);
    head.two(connector);
    head.one(count);
    body[..HEAD].copy_from_slice(&head.body());
}

/// Writes an entry at this place, from which on only zeros stand, and says where it ends. The zeros up to the length of the longest entry are written
/// with it, so that always as many bytes are copied.
fn put_entry(entry: &Entry, at: usize, body: &mut [u8]) -> usize
    requires room { at + LONGEST_ENTRY ≤ length body.old }
    requires clear { body.old ≡ padded (length body.old) (take at body.old) }
    ensures end { result ≡ at + length (entry_bytes entry.now) }
    ensures few { result ≤ at + LONGEST_ENTRY }
    ensures written { body.new ≡ padded (length body.old) (take at body.old ++ entry_bytes entry.now) }
    ensures fits { EntryFits entry.now }
{
    let mut writer = Writer::<LONGEST_ENTRY>::new();
    writer.entry(entry);
    body[at..at + LONGEST_ENTRY].copy_from_slice(&writer.body());
    at + writer.len()
}

fn is_in_range(number: u64, connector: u16, entries: &[Entry], most: usize) -> bool
    ensures { result ≡ is_fired_up_to most (record { number = number; connector = connector; entries = entries.now }) }
{
    number >= 1
        && number <= LAST_NUMBER
        && connector < MOST_CONNECTORS
        && !entries.is_empty()
        && entries.len() <= most
        && all_within(number, entries)
        && atoms_rise(entries)
}

fn all_within(number: u64, entries: &[Entry]) -> bool
    ensures { result ≡ list_all (is_entry number) entries.now }
{
    for entry in entries {
        if !entry.is_within(number) {
            return false;
        }
    }
    true
}

fn atoms_rise(entries: &[Entry]) -> bool
    ensures { result ≡ is_rising (atoms_of entries.now) }
{
    for next in 1..entries.len() {
        if entries[next - 1].atom >= entries[next].atom {
            return false;
        }
    }
    true
}
