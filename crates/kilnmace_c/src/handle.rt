//! The handle that C holds: a pointer that is null when nothing is held.
ghost use Rattle.std.specs.Prelude.{◌≡◌, Option, None, Some};
ghost use Rattle.std.specs.Option.{MatchOption};
ghost use Rattle.plant_for_c.specs.declared.thing.Thing.{Thing as Held};
ghost use Rattle.std.specs.Coded.{coded_option};
ghost use Rattle.kilnmace_c.specs.Held.{Row, held_at};

use crate::parts::Parts;
use plant_for_c::Thing;
use std::alloc::Global;
use std::marker::Model;
use std::ptr::null_mut;

/// What C holds, or nothing.
#[repr(C)]
#[derive(Drop)]
pub struct Handle {
    at: *mut u8,
    pub ghost held: { Option Held } by { coded_option Row.coded },
}

impl Model for Handle {
    ghost also_owns = { λ h. held_at h.at h.held };
}

impl Handle {
    fn closed() -> Handle
        ensures { result.held ≡ None }
    {
        Handle { at: null_mut() }
    }

    fn seal(parts: Parts<Thing, Global>) -> Handle
        ensures { result.held ≡ Some parts.value }
    {
        let Parts { ptr, alloc: _ } = parts;
        Handle { at: ptr as *mut u8 }
    }

    fn unseal(self, alloc: Global) -> Option<Parts<Thing, Global>>
        ensures { MatchOption result (self.held ≡ None) (λ p. self.held ≡ Some p.value) }
    {
        let Handle { at } = self;
        if at.is_null() {
            None
        } else {
            Some(Parts {
                ptr: at as *mut Thing,
                alloc,
            })
        }
    }

    /// Takes out what is held, and leaves nothing.
    pub(crate) fn take(&mut self, alloc: Global) -> Option<Box<Thing>>
        ensures taken { MatchOption result (self.old.held ≡ None) (λ b. self.old.held ≡ Some b.value) }
        ensures after { self.new.held ≡ None }
    {
        let was = std::mem::replace(self, Handle::closed());
        match was.unseal(alloc) {
            None => None,
            Some(parts) => Some(parts.into_box()),
        }
    }

    /// Puts it in. What the handle held before is forgotten: call it on one that holds nothing.
    pub(crate) fn put(&mut self, thing: Box<Thing>)
        ensures { self.new.held ≡ Some thing.value }
    {
        *self = Handle::seal(Parts::of(thing));
    }
}
