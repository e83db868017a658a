//! The identity: what a device was formatted for.
ghost use Rattle.std.specs.Prelude.{◌≡◌, ◌+◌, ◌≤◌, Some, length};
ghost use Rattle.record_codec.specs.Answers.{IsAnswer};
ghost use Rattle.record_codec.specs.Bytes.{padded};
ghost use Rattle.record_codec.specs.Identity.{IsIdentity, IsIdentityBody, IsIdentityBodyOf, identity_bytes, identity_bytes_of, identity_in, identity_of, version_in};

use crate::layout::{BODY, DIGEST, LEAST_RING, MAGIC, MOST_ATOMS, MOST_RING, VERSION};
use crate::reader::Reader;
use crate::writer::Writer;
use std::marker::Model;

/// What a device was formatted for: how many atoms, how many records the ring holds, and the digest of
/// the plant text.
#[derive(Clone, Copy, Debug, PartialEq, Eq)]
pub struct Identity {
    atoms: u16,
    ring: u32,
    digest: [u8; DIGEST],
}

// Clauses see the three fields.
impl Model for Identity {
    ghost use Rattle.record_codec.specs.Identity.{IdentityFields, IsIdentity};

    ghost Value = { IdentityFields };

    ghost view = { λ i. record { atoms = i.atoms; ring = i.ring; digest = i.digest } };

    ghost invariant = { λ i. IsIdentity (record { atoms = i.atoms; ring = i.ring; digest = i.digest }) };

    ghost inverse = { λ i. record { atoms = i.atoms; ring = i.ring; digest = i.digest } };
}

impl Identity {
    /// The identity of a device for so many atoms and records, and for the plant text with the digest.
    pub fn new(atoms: u16, ring: u32, digest: [u8; DIGEST]) -> Identity
        requires { IsIdentity (record { atoms = atoms; ring = ring; digest = digest }) }
        ensures { result ≡ record { atoms = atoms; ring = ring; digest = digest } }
    {
        Identity {
            atoms,
            ring,
            digest,
        }
    }

    /// How many atoms the plant has.
    pub fn atoms(&self) -> u16
        ensures value { result ≡ self.now.atoms }
        ensures in_range { IsIdentity self.now }
    {
        self.atoms
    }

    /// How many records the ring holds.
    pub fn ring(&self) -> u32
        ensures value { result ≡ self.now.ring }
        ensures in_range { IsIdentity self.now }
    {
        self.ring
    }

    /// The digest of the plant text.
    pub fn digest(&self) -> &[u8; DIGEST]
        ensures { result.now ≡ self.now.digest }
    {
        &self.digest
    }

    /// The body of the cell that holds this identity.
    #[tactic(auto, unfolding(crate::specs::Identity::identity_in))]
    pub fn to_body(&self) -> [u8; BODY]
        ensures spelled { result ≡ padded BODY (identity_bytes self.now) }
        ensures reads_back { identity_in result ≡ Some self.now }
    {
        self.spelled(VERSION)
    }

    /// The identity that the body holds, or `None` if it is no identity's body.
    #[tactic(auto, unfolding(crate::specs::Identity::identity_in))]
    pub fn from_body(body: &[u8; BODY]) -> Option<Identity>
        ensures { IsAnswer (identity_in body.now) (IsIdentityBody body.now) result }
    {
        Identity::read(body, VERSION)
    }

    /// The version of the layout that the device is formatted with, or `None` if the body does not begin
    /// as an identity of any version does. Of another version nothing else can be read.
    pub fn version_in(body: &[u8; BODY]) -> Option<u16>
        ensures { result ≡ version_in body.now }
    {
        Identity::version_written(body)
    }

    /// The body of this length that holds this identity in a layout of the version.
    pub(crate) fn spelled<const LENGTH: usize>(&self, version: u16) -> [u8; LENGTH]
        requires room { 12 + DIGEST ≤ LENGTH }
        requires within { LENGTH ≤ BODY }
        ensures spelled { result ≡ padded LENGTH (identity_bytes_of version self.now) }
        ensures reads_back { identity_of version result ≡ Some self.now }
    {
        let mut writer = Writer::new();
        writer.bytes(&MAGIC);
        writer.two(version);
        writer.two(self.atoms);
        writer.four(self.ring);
        writer.bytes(&self.digest);
        writer.body()
    }

    /// The identity that a body of this length holds in a layout of the version, or `None` if it is no identity's body of that version.
    pub(crate) fn read<const LENGTH: usize>(body: &[u8; LENGTH], version: u16) -> Option<Identity>
        requires room { 12 + DIGEST ≤ LENGTH }
        requires within { LENGTH ≤ BODY }
        ensures { IsAnswer (identity_of version body.now) (IsIdentityBodyOf version body.now) result }
    {
        Identity::held(body, version)
    }

    /// The version that a body of any length is written in, or `None` if it does not begin as an identity does.
    #[tactic(auto, unfolding(crate::specs::Identity::version_in))]
    pub(crate) fn version_written(body: &[u8]) -> Option<u16>
        requires { 6 ≤ length body.now }
        ensures { result ≡ version_in body.now }
    {
        if !body.starts_with(&MAGIC) {
            return None;
        }
        let mut reader = Reader::new(body);
        reader.skip(MAGIC.len());
        Some(reader.two())
    }

    // The body of what the fields say is compared with the whole body, so nothing else of it is judged here.
    fn held<const LENGTH: usize>(body: &[u8; LENGTH], version: u16) -> Option<Identity>
        requires room { 12 + DIGEST ≤ LENGTH }
        requires within { LENGTH ≤ BODY }
        ensures { result ≡ identity_of version body.now }
    {
        let mut reader = Reader::new(body);
        reader.skip(MAGIC.len());
        reader.skip(2);
        let atoms = reader.two();
        let ring = reader.four();
        let digest = reader.digest();
        if atoms < 1 || atoms > MOST_ATOMS || ring < LEAST_RING || ring > MOST_RING {
            return None;
        }
        let identity = Identity::new(atoms, ring, digest);
        if identity.spelled(version) == *body {
            Some(identity)
        } else {
            None
        }
    }
}
