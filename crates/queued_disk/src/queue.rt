//! What is still to be done to a device, in order.
ghost use Rattle.std.specs.Prelude.{◌≡◌, ◌⊎◌, ◌++◌, ◌∷◌, [], ◌+◌, ◌≤◌, true, false, length, IfOk, IfSome, OnOk, OnErr};
ghost use Rattle.queued_disk.specs.Queued.{AreWithin};

use std::alloc::{AllocError, Global};
use std::cell::Cell;

/// A step of the real device.
pub enum Step<'q> {
    /// These bytes are written from a place on.
    Write {
        /// The place of the first byte.
        at: u64,
        /// The bytes.
        bytes: &'q [u8],
    },
    /// All that was written is put onto the disk.
    Sync,
}

/// A step, with the bytes of a write by their places in the queue.
#[derive(Clone, Copy)]
pub(crate) struct Entry {
    at: u64,
    first: usize,
    end: usize,
    is_sync: bool,
}

/// Steps, in the order in which they are to be done. Once all are taken, the next one makes the queue empty: so it grows no further than by the steps of one event.
#[derive(Drop)]
pub(crate) struct Queue {
    entries: Vec<Entry>,
    /// The bytes of all writes.
    bytes: Vec<u8>,
    /// How many steps are taken. A plant lends its device only to look at.
    taken: Cell<usize>,
    ghost within: { AreWithin entries.items bytes.items },
}

impl Queue {
    ghost use Rattle.std.specs.Prelude.{Some, None};
    ghost use Rattle.queued_disk.specs.Steps.{IsAdded, IsToldOf, steps_in};

    /// No step, with room for so many steps and bytes.
    pub(crate) fn new(alloc: Global, steps: usize, bytes: usize) -> Result<Queue, AllocError>
        ensures { IfOk result (λ queue. queue.entries.items ≡ []) }
    {
        Ok(Queue {
            entries: Vec::with_capacity(alloc, steps)?,
            bytes: Vec::with_capacity(alloc, bytes)?,
            taken: Cell::new(0),
        })
    }

    /// Forgets the steps, if all are taken.
    fn begin(&mut self)
        ensures { ((self.new.entries.items ≡ self.old.entries.items) × (self.new.bytes.items ≡ self.old.bytes.items)) ⊎ ((self.new.entries.items ≡ []) × (self.new.bytes.items ≡ [])) }
    {
        if self.taken.get() >= self.entries.len() {
            self.entries.clear();
            self.bytes.clear();
            self.taken.set(0);
        }
    }

    /// Adds a write. If there is no memory for it, no step is added.
    pub(crate) fn add_write(&mut self, at: u64, bytes: &[u8]) -> Result<(), AllocError>
        ensures { OnOk result (IsAdded (Some (at, bytes.now)) (steps_in self.old) (steps_in self.new)) }
    {
        self.begin();
        let first = self.bytes.len();
        self.bytes.extend_from_slice(bytes)?;
        let end = self.bytes.len();
        self.add(Entry {
            at,
            first,
            end,
            is_sync: false,
        })
    }

    /// Adds a sync, as [`Queue::add_write`] does a write.
    pub(crate) fn add_sync(&mut self) -> Result<(), AllocError>
        ensures { OnOk result (IsAdded None (steps_in self.old) (steps_in self.new)) }
    {
        self.begin();
        self.add(Entry {
            at: 0,
            first: 0,
            end: 0,
            is_sync: true,
        })
    }

    /// Adds a step.
    fn add(&mut self, entry: Entry) -> Result<(), AllocError>
        requires ordered { entry.first ≤ entry.end }
        requires within { entry.end ≤ length self.old.bytes.items }
        ensures ok { OnOk result (self.new.entries.items ≡ self.old.entries.items ++ entry ∷ []) }
        ensures err { OnErr result (self.new.entries.items ≡ self.old.entries.items) }
        ensures bytes { self.new.bytes.items ≡ self.old.bytes.items }
    {
        match self.entries.push(entry) {
            Ok(()) => Ok(()),
            Err(_) => Err(AllocError),
        }
    }

    /// The first step that is not taken.
    pub(crate) fn next(&self) -> Option<Step<'_>>
        ensures { IfSome result (IsToldOf (steps_in self.now)) }
    {
        let Some(entry) = self.entries.get(self.taken.get()) else {
            return None;
        };
        if entry.is_sync {
            return Some(Step::Sync);
        }
        Some(Step::Write {
            at: entry.at,
            bytes: &self.bytes[entry.first..entry.end],
        })
    }

    /// Takes that step.
    pub(crate) fn take(&self) {
        self.taken.set(self.taken.get().saturating_add(1));
    }
}
