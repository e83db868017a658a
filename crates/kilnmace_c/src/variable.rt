//! The variable in which C holds a text, or an image or a plant.
ghost use Rattle.std.specs.Prelude.{◌≡◌, ◌≢◌, None, Some, Err, IfOk, IfErr, IsOk};
ghost use Rattle.plant_for_c.specs.declared.status.Status.TheVariants.{Closed, NoHandle, AlreadyOpen};
ghost use Rattle.kilnmace_c.specs.declared.variable.TheConstants.{NOTHING, TEXT};
ghost use Rattle.kilnmace_c.specs.Calls.{IsHeldText};

use crate::handle::Handle;
use plant_for_c::{Status, Thing};
use plant_model::System;
use std::alloc::Global;

/// The mark of a variable that holds nothing.
pub const NOTHING: u64 = 0;

/// The mark of a variable that holds a text: bytes that no one has there by chance.
pub const TEXT: u64 = 0x6b69_6c6e_7465_7874;

/// The mark of a variable that holds an image, or a plant on one.
pub const PLANT: u64 = 0x6b69_6c6e_6d61_6365;

/// A variable of C's: what it holds, and its mark. With another mark than its kind's it was not begun as it has to be, and no call goes to what it holds.
#[repr(C)]
#[derive(Drop)]
pub struct Variable {
    /// What it holds, if its mark is that of its kind.
    pub handle: Handle,
    /// The mark.
    pub mark: u64,
}

impl Variable {
    /// Takes out what is held, and leaves the mark; or says why nothing of this kind is held.
    pub(crate) fn take(&mut self, kind: u64, alloc: Global) -> Result<Box<Thing>, Status>
        ensures closed { self.old.mark ≡ NOTHING → result ≡ Err Closed }
        ensures no_handle { self.old.mark ≢ NOTHING → self.old.mark ≢ kind → result ≡ Err NoHandle }
        ensures unmarked { self.old.mark ≢ kind → self.new ≡ self.old }
        ensures nothing { self.old.mark ≡ NOTHING → self.new ≡ self.old }
        ensures mark { self.new.mark ≡ self.old.mark }
        ensures taken { IfOk result (λ thing. self.old.handle.held ≡ Some thing.value) }
        ensures after { IfOk result (λ thing. self.new.handle.held ≡ None) }
        ensures same { IfErr result (λ status. self.new.handle.held ≡ self.old.handle.held) }
        ensures none { IfErr result (λ status. self.old.mark ≡ kind → self.old.mark ≢ NOTHING → (self.old.handle.held ≡ None) × (status ≡ NoHandle)) }
    {
        if self.mark == NOTHING {
            return Err(Status::Closed);
        }
        if self.mark != kind {
            return Err(Status::NoHandle);
        }
        match self.handle.take(alloc) {
            Some(thing) => Ok(thing),
            None => Err(Status::NoHandle),
        }
    }

    /// Puts back what was taken out.
    pub(crate) fn put(&mut self, thing: Box<Thing>)
        ensures held { self.new.handle.held ≡ Some thing.value }
        ensures mark { self.new.mark ≡ self.old.mark }
    {
        self.handle.put(thing);
    }

    /// Whether it holds nothing: else why nothing of this kind is opened in it.
    pub(crate) fn is_free(&self, kind: u64) -> Result<(), Status>
        ensures free { self.now.mark ≡ NOTHING → IsOk result }
        ensures already { self.now.mark ≢ NOTHING → self.now.mark ≡ kind → result ≡ Err AlreadyOpen }
        ensures no_handle { self.now.mark ≢ NOTHING → self.now.mark ≢ kind → result ≡ Err NoHandle }
        ensures refused { IfErr result (λ _. self.now.mark ≢ NOTHING) }
    {
        if self.mark == NOTHING {
            return Ok(());
        }
        if self.mark == kind {
            return Err(Status::AlreadyOpen);
        }
        Err(Status::NoHandle)
    }

    /// Opens it with this in it. It holds nothing before.
    pub(crate) fn open(&mut self, kind: u64, thing: Box<Thing>)
        ensures held { self.new.handle.held ≡ Some thing.value }
        ensures mark { self.new.mark ≡ kind }
    {
        self.handle.put(thing);
        self.mark = kind;
    }

    /// What was taken out is dropped: it holds nothing from now on.
    pub(crate) fn end(&mut self)
        ensures held { self.new.handle.held ≡ self.old.handle.held }
        ensures mark { self.new.mark ≡ NOTHING }
    {
        self.mark = NOTHING;
    }

    /// Drops what is held, and holds nothing from then on.
    pub(crate) fn close(&mut self, kind: u64, alloc: Global) -> Result<(), Status>
        ensures closed { self.old.mark ≡ NOTHING → (result ≡ Err Closed) × (self.new ≡ self.old) }
        ensures no_handle { self.old.mark ≢ NOTHING → self.old.mark ≢ kind → (result ≡ Err NoHandle) × (self.new ≡ self.old) }
        ensures done { self.old.mark ≢ NOTHING → self.old.mark ≡ kind → IsOk result × (self.new.handle.held ≡ None) × (self.new.mark ≡ NOTHING) }
    {
        if self.mark == NOTHING {
            return Err(Status::Closed);
        }
        if self.mark != kind {
            return Err(Status::NoHandle);
        }
        drop(self.handle.take(alloc));
        self.mark = NOTHING;
        Ok(())
    }

    /// The plant of the text that is held. The variable is as it was.
    pub(crate) fn system(&mut self, alloc: Global) -> Result<&'static System, Status>
        ensures closed { self.old.mark ≡ NOTHING → result ≡ Err Closed }
        ensures no_handle { self.old.mark ≢ NOTHING → self.old.mark ≢ TEXT → result ≡ Err NoHandle }
        ensures mark { self.new.mark ≡ self.old.mark }
        ensures same { self.new.handle.held ≡ self.old.handle.held }
        ensures text { self.old.mark ≡ TEXT → IsHeldText self.old.handle.held result }
    {
        let thing = match self.take(TEXT, alloc) {
            Ok(thing) => thing,
            Err(status) => return Err(status),
        };
        let system = thing.text();
        self.put(thing);
        match system {
            Some(system) => Ok(system),
            None => Err(Status::NoHandle),
        }
    }
}
