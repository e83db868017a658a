//! The bytes of a device in memory, with a record of their changes.
ghost use Rattle.std.specs.Prelude.{◌≡◌, ℕ, ◌+◌, ◌<◌, ◌≤◌, ◌++◌, ◌∷◌, [], ◌↔◌, IsTrue, IfOk, false, true, length, take, replicate, slice_index, slice_index_or};
ghost use Rattle.disk_model.specs.DiskState.{Moment, overwritten, is_pending};
ghost use Rattle.disk_model.specs.Recording.{Recording, at_rest, byte_left};

use crate::bytes::{mark, overwrite, take_over, tear_marked, unmark};
use crate::change::{Change, LONGEST, Piece, Tear};
use crate::stretch::Stretch;
use std::alloc::{AllocError, Global};
use std::marker::Model;
use std::vec;

/// The bytes of a device as they are and as they were: each earlier moment follows from the first bytes and the changes.
//
// No call reads `first` or what the changes hold. They are there for the contracts, which say by them what a stop may have left
// at an earlier moment.
#[derive(Drop)]
pub(crate) struct Recorded {
    /// What stood there before the first change.
    first: Vec<u8>,
    /// What a read gives.
    bytes: Vec<u8>,
    /// What stood there at the last successful sync.
    synced: Vec<u8>,
    /// Whether each byte is pending.
    marks: Vec<bool>,
    /// What was written since: outside of it all bytes are as synced, and none is pending. So a sync looks at no other byte.
    written: Stretch,
    /// What was written and synced since, the earliest first.
    changes: Vec<Change>,
    /// How many changes have room.
    room: usize,
}

impl Model for Recorded {
    ghost use Rattle.disk_model.specs.Recording.{Recording};

    ghost Value = { Recording };

    ghost use Rattle.disk_model.specs.Recorded.{recording_of, IsSound};

    ghost view = { recording_of };

    ghost invariant = { IsSound };
}

impl Recorded {
    /// All zeros, nothing pending, with room for so many changes.
    pub(crate) fn new(alloc: Global, size: usize, room: usize) -> Result<Self, AllocError>
        ensures present { IfOk result (λ r. r.present ≡ at_rest (replicate size 0)) }
        ensures past { IfOk result (λ r. r.past ≡ []) }
        ensures synced { IfOk result (λ r. r.synced ≡ replicate size 0) }
        ensures room { IfOk result (λ r. r.room ≡ room) }
    {
        Recorded::at_rest(alloc, vec![in alloc; 0; size]?, room)
    }

    /// These bytes, nothing pending, with room for so many changes.
    fn at_rest(alloc: Global, bytes: Vec<u8>, room: usize) -> Result<Self, AllocError>
        ensures present { IfOk result (λ r. r.present ≡ at_rest bytes.items) }
        ensures past { IfOk result (λ r. r.past ≡ []) }
        ensures synced { IfOk result (λ r. r.synced ≡ bytes.items) }
        ensures room { IfOk result (λ r. r.room ≡ room) }
    {
        Ok(Recorded {
            first: Vec::from_slice(alloc, &bytes)?,
            synced: Vec::from_slice(alloc, &bytes)?,
            marks: vec![in alloc; false; bytes.len()]?,
            written: Stretch::EMPTY,
            changes: Vec::with_capacity(alloc, room)?,
            room,
            bytes,
        })
    }

    pub(crate) fn bytes(&self) -> &[u8]
        ensures { result.now ≡ self.now.present.seen }
    {
        &self.bytes
    }

    pub(crate) fn has_room(&self) -> bool
        ensures { IsTrue result ↔ (0 < self.now.room) }
    {
        self.changes.len() < self.room
    }

    /// Writes the first `put` of these bytes and has the whole range pending.
    pub(crate) fn write(&mut self, at: usize, from: &[u8], put: usize)
        requires room { 0 < self.old.room }
        requires short { length from.now ≤ LONGEST }
        requires part { put ≤ length from.now }
        requires inside { at + length from.now ≤ length self.old.present.seen }
        ensures seen { self.new.present.seen ≡ overwritten at (take put from.now) self.old.present.seen }
        ensures pending { self.new.present.pending ≡ overwritten at (replicate (length from.now) true) self.old.present.pending }
        ensures past { self.new.past ≡ self.old.past ++ self.old.present ∷ [] }
        ensures synced { self.new.synced ≡ self.old.synced }
        ensures room { self.new.room + 1 ≡ self.old.room }
        ensures marks { length self.old.present.pending ≡ length self.old.present.seen }
    {
        overwrite(&mut self.bytes, at, &from[..put]);
        mark(&mut self.marks, at, from.len(), true);
        self.written = self.written.over(at, from.len());
        let mut bytes = [0; LONGEST];
        overwrite(&mut bytes, 0, &from[..put]);
        let piece = Piece {
            at,
            count: from.len(),
            put,
            bytes,
        };
        self.changes.push(Change::Write(piece)).unwrap();
    }

    /// Nothing is pending any more.
    pub(crate) fn sync(&mut self)
        requires { 0 < self.old.room }
        ensures present { self.new.present ≡ at_rest self.old.present.seen }
        ensures past { self.new.past ≡ self.old.past ++ self.old.present ∷ [] }
        ensures synced { self.new.synced ≡ self.old.present.seen }
        ensures room { self.new.room + 1 ≡ self.old.room }
    {
        take_over(&mut self.synced, &self.bytes, self.written);
        unmark(&mut self.marks, self.written);
        self.written = Stretch::EMPTY;
        self.changes.push(Change::Sync).unwrap();
    }

    /// Makes the bytes what a stop leaves of them, and forgets all that came before.
    pub(crate) fn tear(&mut self, tear: Tear, cell: u64)
        requires { 0 < cell }
        ensures size { length self.new.present.seen ≡ length self.old.present.seen }
        ensures each { (i : ℕ) → i < length self.old.present.seen → slice_index self.new.present.seen i ≡ byte_left tear cell
            (is_pending self.old.present i) i (slice_index self.old.present.seen i) (slice_index self.old.synced i) }
        ensures present { self.new.present ≡ at_rest self.new.present.seen }
        ensures past { self.new.past ≡ [] }
        ensures synced { self.new.synced ≡ self.new.present.seen }
        ensures room { self.new.room ≡ self.old.room + length self.old.past }
    {
        tear_marked(
            &mut self.bytes,
            &self.synced,
            &self.marks,
            self.written,
            tear,
            cell,
        );
        unmark(&mut self.marks, self.written);
        take_over(&mut self.synced, &self.bytes, self.written);
        self.written = Stretch::EMPTY;
        self.first.copy_from_slice(&self.bytes);
        self.changes.clear();
    }

    /// The bytes that a stop leaves, with nothing pending and room for so many changes.
    pub(crate) fn torn(
        &self,
        alloc: Global,
        tear: Tear,
        cell: u64,
        room: usize,
    ) -> Result<Self, AllocError>
        requires { 0 < cell }
        ensures size { IfOk result (λ r. length r.present.seen ≡ length self.now.present.seen) }
        ensures each { IfOk result (λ r. (i : ℕ) → i < length self.now.present.seen → slice_index r.present.seen i ≡ byte_left tear cell
            (is_pending self.now.present i) i (slice_index self.now.present.seen i) (slice_index self.now.synced i)) }
        ensures present { IfOk result (λ r. r.present ≡ at_rest r.present.seen) }
        ensures past { IfOk result (λ r. r.past ≡ []) }
        ensures synced { IfOk result (λ r. r.synced ≡ r.present.seen) }
        ensures room { IfOk result (λ r. r.room ≡ room) }
    {
        let mut bytes = Vec::from_slice(alloc, &self.bytes)?;
        tear_marked(
            &mut bytes,
            &self.synced,
            &self.marks,
            self.written,
            tear,
            cell,
        );
        Recorded::at_rest(alloc, bytes, room)
    }
}
