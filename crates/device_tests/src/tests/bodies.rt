//! The bodies of cells, byte for byte, and which single bytes of them may change.
ghost use Rattle.std.specs.Prelude.{◌<◌};

use super::common::{BASE, RECORD, SAVED, body_of};
use record_codec::{BODY, Base, Entry, Fired, Identity, Saved};

// What an identity begins with, of two atoms and a ring of 8, and of the most that there may be.
const SAMPLE_FRONT: [u8; 12] = [0x42, 0x49, 0x50, 0x46, 0, 2, 0, 2, 0, 0, 0, 8];

const LARGEST_FRONT: [u8; 12] = [0x42, 0x49, 0x50, 0x46, 0, 2, 0, 64, 0, 0, 0x10, 0];

// The SHA-256 of the sample plant's text, with which each identity here ends.
const DIGEST: [u8; 32] = [
    0x9c, 0x7e, 0x11, 0x45, 0xc9, 0xae, 0x08, 0xc4, 0x23, 0xf0, 0xf7, 0xca, 0x90, 0xe4, 0x33, 0x10,
    0xe0, 0xae, 0xdb, 0xd9, 0x4c, 0xbd, 0xbf, 0xb8, 0x25, 0xa0, 0xdd, 0xef, 0xb2, 0x08, 0x1b, 0x48,
];

// Atom 63, count and number 2^63 - 1, all places marked, and 16 values -1: 155 bytes.
fn longest_saved() -> [u8; BODY] {
    let mut body: [u8; BODY] = body_of(&[0xff; 155]);
    body[..3].copy_from_slice(&[0, 63, 0x7f]);
    body[10] = 0x7f;
    body[26] = 16;
    body
}

// Number 2^63 - 1, connector 63, and sixteen entries of atoms 48 to 63, each with transition 127,
// participation number 2^63 - 1 and four values -1: 747 bytes.
fn longest_record() -> [u8; BODY] {
    let mut body: [u8; BODY] = body_of(&[0xff; 747]);
    body[0] = 0x7f;
    body[8..11].copy_from_slice(&[0, 63, 16]);
    for entry in 0..16 {
        let at = 11 + 46 * entry;
        body[at] = 0;
        body[at + 1] = 48 + entry as u8;
        body[at + 2] = 0;
        body[at + 3] = 127;
        body[at + 4] = 0x7f;
        body[at + 12] = 4;
        body[at + 13] = 15;
    }
    body
}

// What the bodies hold, with no contract: a test compares values alone.
fn base_in(body: &[u8; BODY]) -> Option<u64> {
    let base = Base::from_body(body)?;
    Some(base.number())
}

fn is_base(body: &[u8; BODY]) -> bool {
    Base::from_body(body).is_some()
}

fn is_identity(body: &[u8; BODY]) -> bool {
    Identity::from_body(body).is_some()
}

fn is_saved(body: &[u8; BODY]) -> bool {
    Saved::from_body(body).is_some()
}

fn is_record(body: &[u8; BODY]) -> bool {
    Fired::from_body(body).is_some()
}

/// The body with another byte at that place.
fn with_byte(body: [u8; BODY], at: usize, byte: u8) -> [u8; BODY]
    requires { at < BODY }
{
    let mut body = body;
    body[at] = byte;
    body
}

fn base_of_nine() -> [u8; BODY] {
    Base::new(9).to_body()
}

/// Number 2^63 is the last. A byte after the number, an empty body and a number past the last are refused.
#[test]
fn bases(rt: HostRuntime) {
    for (front, at_the_end, number) in [
        (BASE, 0, Some(9)),
        (BASE, 1, None),
        ([0; 8], 0, None),
        ([128, 0, 0, 0, 0, 0, 0, 0], 0, Some(1 << 63)),
        ([128, 0, 0, 0, 0, 0, 0, 1], 0, None),
    ] {
        let body = with_byte(body_of(&front), BODY - 1, at_the_end);
        assert_eq!(rt; base_in(&body), number);
    }
    assert!(rt; base_of_nine() == body_of(&BASE));
}

/// An identity with this front.
fn identity_after(front: [u8; 12]) -> [u8; BODY] {
    let mut body = body_of(&front);
    body[12..44].copy_from_slice(&DIGEST);
    body
}

/// The numbers of atoms and of records in an identity with the digest.
fn identity_numbers(body: &[u8; BODY]) -> Option<(u16, u32)> {
    let identity = Identity::from_body(body)?;
    if *identity.digest() != DIGEST {
        return None;
    }
    Some((identity.atoms(), identity.ring()))
}

fn version_in(body: &[u8; BODY]) -> Option<u16> {
    Identity::version_in(body)
}

/// A ring of 4,097 records, 65 atoms, another version and an empty body are refused.
#[test]
fn identities(rt: HostRuntime) {
    for (front, version, numbers) in [
        (SAMPLE_FRONT, Some(2), Some((2, 8))),
        (LARGEST_FRONT, Some(2), Some((64, 4096))),
        (
            [0x42, 0x49, 0x50, 0x46, 0, 2, 0, 64, 0, 0, 0x10, 1],
            Some(2),
            None,
        ),
        (
            [0x42, 0x49, 0x50, 0x46, 0, 2, 0, 65, 0, 0, 0x10, 0],
            Some(2),
            None,
        ),
        (
            [0x42, 0x49, 0x50, 0x46, 0, 1, 0, 2, 0, 0, 0, 8],
            Some(1),
            None,
        ),
        ([0; 12], None, None),
    ] {
        let body = identity_after(front);
        assert_eq!(rt;
            (version_in(&body), identity_numbers(&body)),
            (version, numbers)
        );
    }
}

fn identities_of(digest: [u8; 32]) -> [[u8; BODY]; 2] {
    [
        Identity::new(2, 8, digest).to_body(),
        Identity::new(64, 4096, digest).to_body(),
    ]
}

#[test]
fn identities_are_written(rt: HostRuntime) {
    let wanted = [identity_after(SAMPLE_FRONT), identity_after(LARGEST_FRONT)];
    assert!(rt; identities_of(DIGEST) == wanted);
}

/// Whether the body holds a state with these values that is written so again, and its atom, count, number of the copy and marking.
fn state_in(body: &[u8; BODY], values: &[i64]) -> Option<(u16, u64, u64, u64)> {
    let saved = Saved::from_body(body)?;
    if saved.values() != values || saved.to_body() != *body {
        return None;
    }
    Some((saved.atom(), saved.count(), saved.at(), saved.marking()))
}

/// The most of a count and of a number of a copy.
const MOST: u64 = (1 << 63) - 1;

#[test]
fn saved_states(rt: HostRuntime) {
    let longest = Some((63, MOST, MOST, u64::MAX));
    assert_eq!(rt; state_in(&body_of(&SAVED), &[4]), Some((0, 4, 4, 1)));
    assert_eq!(rt; state_in(&longest_saved(), &[-1; 16]), longest);
}

fn sample_saved() -> [u8; BODY] {
    Saved::new(0, 4, 4, 1, &[4]).to_body()
}

/// A count of 5 is past the number of the copy.
#[test]
fn saved_states_are_written_or_refused(rt: HostRuntime) {
    assert!(rt; sample_saved() == body_of(&SAVED));
    assert!(rt; !is_saved(&with_byte(body_of(&SAVED), 9, 5)));
}

const FIRST: Entry = Entry {
    atom: 0,
    transition: 0,
    participation: 2,
    delivered: [None; 4],
};

const SECOND: Entry = Entry {
    atom: 1,
    transition: 0,
    participation: 1,
    delivered: [Some(1), None, None, None],
};

fn sample_record() -> [u8; BODY] {
    Fired::new(2, 1, &[FIRST, SECOND]).to_body()
}

/// The number, the connector and how many entries there are, if the record is written so again.
fn numbers_in(body: &[u8; BODY]) -> Option<(u64, u16, usize)> {
    let record = Fired::from_body(body)?;
    if record.to_body() != *body {
        return None;
    }
    Some((record.number(), record.connector(), record.entries().len()))
}

#[test]
fn records(rt: HostRuntime) {
    assert_eq!(rt; numbers_in(&body_of(&RECORD)), Some((2, 1, 2)));
    assert_eq!(rt; numbers_in(&longest_record()), Some((MOST, 63, 16)));
    assert!(rt; sample_record() == body_of(&RECORD));
}

/// The mask of what is delivered, and how many values that are.
fn delivered_in(entry: &Entry) -> (u8, u8) {
    (entry.mask(), entry.delivered_count())
}

/// Whether the body holds a record with these entries.
fn has_entries(body: &[u8; BODY], entries: &[Entry]) -> bool {
    match Fired::from_body(body) {
        Some(record) => record.entries() == entries,
        None => false,
    }
}

#[test]
fn entries(rt: HostRuntime) {
    assert!(rt; has_entries(&body_of(&RECORD), &[FIRST, SECOND]));
    for (entry, delivered) in [(FIRST, (0, 0)), (SECOND, (1, 1))] {
        assert_eq!(rt; delivered_in(&entry), delivered);
    }
}

/// Participation 3 in record 2, participation 2 in record 1, and atoms 1 and 0 in this order.
#[test]
fn records_refused(rt: HostRuntime) {
    let body = body_of(&RECORD);
    let turned = with_byte(with_byte(body, 12, 1), 26, 0);
    for refused in [with_byte(body, 22, 3), with_byte(body, 7, 1), turned] {
        assert!(rt; !is_record(&refused));
    }
}

#[derive(Clone, Copy)]
enum Kind {
    Base,
    Identity,
    Saved,
    LongestSaved,
    Record,
    LongestRecord,
}

/// The body of this kind.
fn body_for(kind: Kind) -> [u8; BODY] {
    match kind {
        Kind::Base => body_of(&BASE),
        Kind::Identity => identity_after(SAMPLE_FRONT),
        Kind::Saved => body_of(&SAVED),
        Kind::LongestSaved => longest_saved(),
        Kind::Record => body_of(&RECORD),
        Kind::LongestRecord => longest_record(),
    }
}

fn reads(kind: Kind, body: &[u8; BODY]) -> bool {
    match kind {
        Kind::Base => is_base(body),
        Kind::Identity => is_identity(body),
        Kind::Saved | Kind::LongestSaved => is_saved(body),
        Kind::Record | Kind::LongestRecord => is_record(body),
    }
}

// How many of the bodies are read that differ from that of this kind in a single byte, which is one of six values.
fn changes_read(kind: Kind) -> u32 {
    let body = body_for(kind);
    let mut count = 0u32;
    for i in 0..BODY {
        for value in [0, 1, 2, 127, 128, 255] {
            let mut changed = body;
            changed[i] = value;
            if value != body[i] && reads(kind, &changed) {
                count = count.saturating_add(1);
            }
        }
    }
    count
}

// The counts are those of the grammar.
#[test]
fn single_bytes_changed(rt: HostRuntime) {
    for (kind, count) in [
        // the first byte, and each of the next seven
        (Kind::Base, 3 + 7 * 5),
        // atoms, ring, digest
        (Kind::Identity, 1 + 5 + 32 * 6),
        // atom, count, at, marking, variables, value
        (Kind::Saved, 2 + 3 + 36 + 40 + 1 + 41),
        (Kind::LongestSaved, 3 + 38 + 40 + 16 * 40),
        // number, connector, and of the entries the atom, transition, participation, mask, value
        (Kind::Record, 36 + 2 + 3 + 1 + 1 + 3 + 1 + 1 + 40),
        (Kind::LongestRecord, 3 + 3 + 16 * (3 + 38 + 4 * 40)),
    ] {
        assert_eq!(rt; changes_read(kind), count);
    }
}
