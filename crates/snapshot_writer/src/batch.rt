//! States of several atoms on their way to slots.
ghost use Rattle.std.specs.Prelude.{◌≡◌, ℕ, ◌<◌, ◌++◌, ◌∷◌, [], IfOk, Some, length, nat_eq, slice_get};
ghost use Rattle.snapshot_writer.specs.Batches.{SlottedFields};

use crate::parcel::Parcel;
use crate::reading::FreeSlot;
use disk_model::BODY;
use record_codec::MOST_ATOMS;
use record_codec::ring::slot_cell;
use std::alloc::{AllocError, Global};
use std::marker::Model;

/// A state, and where it goes.
#[derive(Drop)]
struct Slotted {
    free: FreeSlot,
    parcel: Parcel,
}

// Clauses see the state, its slot, and whether that is full.
impl Model for Slotted {
    ghost use Rattle.snapshot_writer.specs.Batches.{SlottedFields};

    ghost Value = { SlottedFields };

    ghost view = { λ s. record { slot = s.free.slot; full = s.free.full; saved = s.parcel } };
}

/// States of several atoms on their way to slots, with their bodies. The numbers of the atoms rise. Only making it takes memory: it has room for
/// a state of each atom that a plant may have.
#[derive(Drop)]
pub struct Batch {
    /// The states and their slots.
    states: Vec<Slotted>,
    /// The cells of the slots.
    pub(crate) cells: Vec<u64>,
    /// Those of them that are full.
    pub(crate) full: Vec<u64>,
    /// The bodies that go in them.
    pub(crate) bodies: Vec<[u8; BODY]>,
}

// Clauses see the states with their slots.
impl Model for Batch {
    ghost use Rattle.std.specs.Prelude.{◌≤◌, List, vec_capacity};
    ghost use Rattle.record_codec.specs.declared.layout.TheConstants.{MOST_ATOMS};
    ghost use Rattle.snapshot_writer.specs.Batches.{SlottedFields, AreOfBatch};

    ghost Value = { List SlottedFields };

    ghost view = { λ b. b.states.items };

    ghost invariant = { λ b. record {
      parts : AreOfBatch b.states.items b.cells.items b.full.items b.bodies.items;
      room_of_states : MOST_ATOMS ≤ vec_capacity b.states;
      room_of_cells : MOST_ATOMS ≤ vec_capacity b.cells;
      room_of_full : MOST_ATOMS ≤ vec_capacity b.full;
      room_of_bodies : MOST_ATOMS ≤ vec_capacity b.bodies;
    } };
}

impl Batch {
    /// A batch of no state.
    pub fn of(alloc: Global) -> Result<Batch, AllocError>
        ensures { IfOk result (λ batch. batch ≡ []) }
    {
        let most = usize::from(MOST_ATOMS);
        Ok(Batch {
            states: Vec::with_capacity(alloc, most)?,
            cells: Vec::with_capacity(alloc, most)?,
            full: Vec::with_capacity(alloc, most)?,
            bodies: Vec::with_capacity(alloc, most)?,
        })
    }

    /// Gives all its states up.
    pub fn clear(&mut self)
        ensures { self.new ≡ [] }
    {
        self.states.clear();
        self.cells.clear();
        self.full.clear();
        self.bodies.clear();
    }

    /// How many states it has.
    pub fn len(&self) -> usize
        ensures { result ≡ length self.now }
    {
        self.states.len()
    }

    /// Whether it has none.
    pub fn is_empty(&self) -> bool
        ensures { result ≡ nat_eq (length self.now) 0 }
    {
        self.states.is_empty()
    }

    /// The state with the number.
    pub fn parcel(&self, i: usize) -> &Parcel
        requires { i < length self.now }
        ensures { (s : SlottedFields) → slice_get self.now i ≡ Some s → result.now ≡ s.saved }
    {
        let state = &self.states[i];
        &state.parcel
    }

    /// The slot in which it goes.
    pub fn slot(&self, i: usize) -> u8
        requires { i < length self.now }
        ensures is { (s : SlottedFields) → slice_get self.now i ≡ Some s → result ≡ s.slot }
        ensures in_range { result < 2 }
    {
        let state = &self.states[i];
        state.free.slot
    }

    /// Takes the state of one more atom, which goes in this slot of it. Its body is spelled, and no memory taken.
    pub fn push(&mut self, free: FreeSlot, parcel: Parcel)
        requires slot { free.slot < 2 }
        requires rises { (i : ℕ) (s : SlottedFields) → slice_get self.old i ≡ Some s → s.saved.atom < parcel.atom }
        ensures { self.new ≡ self.old ++ record { slot = free.slot; full = free.full; saved = parcel } ∷ [] }
    {
        let cell = slot_cell(parcel.atom(), free.slot);
        self.cells.push_reserved(cell);
        self.bodies.push_reserved(parcel.to_saved().to_body());
        self.states.push_reserved(Slotted { free, parcel });
        if free.full {
            self.full.push_reserved(cell);
        }
    }
}
