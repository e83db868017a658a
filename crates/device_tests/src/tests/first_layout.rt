//! The bodies of the first layout, byte for byte, and what today's readers make of them.
use super::common::{BASE, RECORD, SAVED, body_of};
use record_codec::{Base, Fired, Identity, Saved, v1};

// What an identity begins with, of two atoms and a ring of 8, and the SHA-256 of the sample plant's text, with which it ends.
const IDENTITY: [u8; 44] = [
    0x42, 0x49, 0x50, 0x46, 0, 1, 0, 2, 0, 0, 0, 8, 0x9c, 0x7e, 0x11, 0x45, 0xc9, 0xae, 0x08, 0xc4,
    0x23, 0xf0, 0xf7, 0xca, 0x90, 0xe4, 0x33, 0x10, 0xe0, 0xae, 0xdb, 0xd9, 0x4c, 0xbd, 0xbf, 0xb8,
    0x25, 0xa0, 0xdd, 0xef, 0xb2, 0x08, 0x1b, 0x48,
];

/// An identity of the sample plant with this version.
fn identity_of(version: u8) -> [u8; v1::BODY] {
    let mut body: [u8; v1::BODY] = body_of(&IDENTITY);
    body[5] = version;
    body
}

/// Record 9, in which the atoms 0 to 8 and more took part, so many of them.
fn record_of(entries: u8) -> [u8; v1::BODY] {
    let mut body: [u8; v1::BODY] = body_of(&[0, 0, 0, 0, 0, 0, 0, 9, 0, 1]);
    body[10] = entries;
    for entry in 0..usize::from(entries.min(9)) {
        body[11 + 14 * entry + 1] = entry as u8;
        body[11 + 14 * entry + 11] = 1;
    }
    body
}

// What a body holds and whether it is written so again, as the first layout says, and what its body of today holds.
fn identities(body: &[u8; v1::BODY]) -> (Option<(u16, u32)>, Option<(u16, u32)>) {
    let first = match v1::identity_from_body(body) {
        Some(read) if v1::identity_to_body(&read) == *body => Some((read.atoms(), read.ring())),
        _ => None,
    };
    let today = Identity::from_body(&v1::todays_identity(body));
    (first, today.map(|read| (read.atoms(), read.ring())))
}

fn bases(body: &[u8; v1::BODY]) -> (Option<u64>, Option<u64>) {
    let first = match Base::from_body(body) {
        Some(read) if read.to_body() == *body => Some(read.number()),
        _ => None,
    };
    let today = Base::from_body(&v1::todays_body(body));
    (first, today.map(|read| read.number()))
}

fn saved_states(body: &[u8; v1::BODY]) -> (Option<u64>, Option<u64>) {
    let first = match Saved::from_body(body) {
        Some(read) if read.to_body() == *body => Some(read.count()),
        _ => None,
    };
    match Saved::from_body(&v1::todays_body(body)) {
        Some(today) => (first, Some(today.count())),
        None => (first, None),
    }
}

fn records(body: &[u8; v1::BODY]) -> (Option<usize>, Option<usize>) {
    let first = match v1::fired_from_body(body) {
        Some(read) => written_again(&read, body),
        None => None,
    };
    match Fired::from_body(&v1::todays_record(body)) {
        Some(today) => (first, Some(today.entries().len())),
        None => (first, None),
    }
}

/// How many entries the record has, if it is written as this body.
fn written_again(record: &Fired, body: &[u8; v1::BODY]) -> Option<usize> {
    let entries = record.entries().len();
    if entries > v1::MOST_ENTRIES || v1::fired_to_body(record) != *body {
        return None;
    }
    Some(entries)
}

/// An identity of version 1 holds the same today, and one of version 2 nothing: it was none of the first layout.
#[test]
fn identities_of_the_first_layout(rt: HostRuntime) {
    let sample = Some((2, 8));
    for (version, wanted) in [(1, (sample, sample)), (2, (None, None)), (3, (None, None))] {
        assert_eq!(rt; identities(&identity_of(version)), wanted);
    }
}

#[test]
fn bases_and_saved_states_of_the_first_layout(rt: HostRuntime) {
    assert_eq!(rt; bases(&body_of(&BASE)), (Some(9), Some(9)));
    assert_eq!(rt; saved_states(&body_of(&SAVED)), (Some(4), Some(4)));
}

/// A record of nine entries is one today, and was none in the first layout: its body of today holds none either.
#[test]
fn records_of_the_first_layout(rt: HostRuntime) {
    assert_eq!(rt; records(&body_of(&RECORD)), (Some(2), Some(2)));
    for (entries, wanted) in [
        (8, (Some(8), Some(8))),
        (9, (None, None)),
        (0, (None, None)),
    ] {
        assert_eq!(rt; records(&record_of(entries)), wanted);
    }
}
