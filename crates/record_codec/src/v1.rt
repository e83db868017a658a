//! The bodies of the first layout: cells of 512 bytes, and records of at most eight entries. They hold the
//! same values, spelled the same but for the version of an identity. A base and a saved state are written and read by
//! [`Base`](crate::Base) and [`Saved`](crate::Saved) in bodies of either length.
//!
//! `todays_body`, `todays_identity` and `todays_record` make today's body of one, so that an old device is
//! read as today's is. `laws` says that the two hold the same, and refuse the same.

ghost use Rattle.std.specs.Prelude.{◌≡◌, ◌≤◌, Some, length};
ghost use Rattle.record_codec.specs.declared.v1.TheConstants.{BODY, VERSION, MOST_ENTRIES};
ghost use Rattle.record_codec.specs.Answers.{IsAnswer};
ghost use Rattle.record_codec.specs.Bytes.{padded};
ghost use Rattle.record_codec.specs.Identity.{IsIdentityBodyOf, identity_bytes_of, identity_of};
ghost use Rattle.record_codec.specs.Fired.{IsFiredBodyUpTo, fired_bytes, fired_up_to};
ghost use Rattle.record_codec.specs.FirstLayout.{todays_body, todays_version, todays_identity, todays_record};

use crate::fired::Fired;
use crate::identity::Identity;
use crate::layout;
use crate::layout::{ENTRY_COUNT_AT, MAGIC};
use crate::writer::Writer;

/// How many bytes a body has.
pub const BODY: usize = 511;

/// The version of this layout.
pub const VERSION: u16 = 1;

/// How many entries a record has at most.
pub const MOST_ENTRIES: usize = 8;

/// The body of the cell that holds the identity.
pub fn identity_to_body(identity: &Identity) -> [u8; BODY]
    ensures spelled { result ≡ padded BODY (identity_bytes_of VERSION identity.now) }
    ensures reads_back { identity_of VERSION result ≡ Some identity.now }
{
    identity.spelled(VERSION)
}

/// The identity that the body holds, or `None` if it is no identity's body.
pub fn identity_from_body(body: &[u8; BODY]) -> Option<Identity>
    ensures { IsAnswer (identity_of VERSION body.now) (IsIdentityBodyOf VERSION body.now) result }
{
    Identity::read(body, VERSION)
}

/// The body of a cell that holds the record.
pub fn fired_to_body(fired: &Fired) -> [u8; BODY]
    requires { length fired.now.entries ≤ MOST_ENTRIES }
    ensures spelled { result ≡ padded BODY (fired_bytes fired.now) }
    ensures reads_back { fired_up_to MOST_ENTRIES result ≡ Some fired.now }
{
    fired.spelled()
}

/// The record that the body holds, or `None` if it is no record's body.
pub fn fired_from_body(body: &[u8; BODY]) -> Option<Fired>
    ensures { IsAnswer (fired_up_to MOST_ENTRIES body.now) (IsFiredBodyUpTo MOST_ENTRIES body.now) result }
{
    Fired::read(body, MOST_ENTRIES)
}

/// Today's body of the base or the saved state that the body holds: zeros follow it.
#[tactic(auto, unfolding(crate::specs::FirstLayout::todays_body))]
pub fn todays_body(body: &[u8; BODY]) -> [u8; layout::BODY]
    ensures { result ≡ todays_body body.now }
{
    let mut writer = Writer::new();
    writer.bytes(body);
    writer.body()
}

/// Today's body of the identity that the body holds. This version and today's change places, so that today's
/// reading takes a body of this version, and refuses all others.
#[tactic(auto, unfolding(crate::specs::FirstLayout::todays_identity, crate::specs::FirstLayout::todays_body))]
pub fn todays_identity(body: &[u8; BODY]) -> [u8; layout::BODY]
    ensures { result ≡ todays_identity body.now }
{
    let Some(version) = Identity::version_written(body) else {
        return todays_body(body);
    };
    let (_, after_version) = body.split_at(MAGIC.len() + 2);
    let mut writer = Writer::new();
    writer.bytes(&MAGIC);
    writer.two(todays_version(version));
    writer.bytes(after_version);
    writer.body()
}

fn todays_version(version: u16) -> u16
    ensures { result ≡ todays_version version }
{
    if version == VERSION {
        layout::VERSION
    } else if version == layout::VERSION {
        VERSION
    } else {
        version
    }
}

/// Today's body of the record that the body holds. A body that says more entries than a record has in this
/// layout becomes one that says none, so that today's reading refuses it too.
#[tactic(auto, unfolding(crate::specs::FirstLayout::todays_record))]
pub fn todays_record(body: &[u8; BODY]) -> [u8; layout::BODY]
    ensures { result ≡ todays_record body.now }
{
    if usize::from(body[ENTRY_COUNT_AT]) <= MOST_ENTRIES {
        return todays_body(body);
    }
    let mut without_entries = *body;
    without_entries[ENTRY_COUNT_AT] = 0;
    todays_body(&without_entries)
}
