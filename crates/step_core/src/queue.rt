//! A row of places, in which items stand one after another.
ghost use Rattle.std.specs.Prelude.{◌≡◌, ◌<◌, ◌+◌, ◌++◌, ◌∷◌, [], None, option_map, slice_get, slice_index_or, slice_set, drop};
ghost use Rattle.connector_tree.specs.declared.tree.TheConstants.{MAX_LEAVES};

use connector_tree::MAX_LEAVES;
use std::mem;

/// A row of places, each empty or with an item; as many as a connector may have leaves. It takes no memory.
#[derive(Drop)]
pub(crate) struct Queue<T> {
    places: [Option<T>; MAX_LEAVES],
}

impl<T> Queue<T> {
    ghost use Rattle.step_core.specs.Queue.{IsFreeFrom, items_in};

    /// A row of empty places.
    pub(crate) fn new() -> Self
        ensures { items_in result ≡ [] }
    {
        Queue {
            places: [const { None }; MAX_LEAVES],
        }
    }

    /// The item at this place among those that are there.
    pub(crate) fn get(&self, place: usize) -> Option<&T>
        ensures { option_map (λ item. item.now) result ≡ slice_get (items_in self.now) place }
    {
        let places = &self.places[..];
        let mut left = place;
        for k in 0..places.len() {
            if let Some(item) = &places[k] {
                if left == 0 {
                    return Some(item);
                }
                left -= 1;
            }
        }
        None
    }

    /// Takes the first item out, if there is one.
    pub(crate) fn take(&mut self) -> Option<T>
        ensures first { result ≡ slice_get (items_in self.old) 0 }
        ensures rest { items_in self.new ≡ drop 1 (items_in self.old) }
    {
        for place in 0..MAX_LEAVES {
            if self.places[place].is_some() {
                return self.replace(place, None);
            }
        }
        None
    }

    /// Puts what stands at this place in the place of what stood there, and returns that.
    fn replace(&mut self, place: usize, item: Option<T>) -> Option<T>
        requires { place < MAX_LEAVES }
        ensures value { result ≡ slice_index_or self.old.places place None }
        ensures after { self.new.places ≡ slice_set self.old.places place item }
    {
        mem::replace(&mut self.places[place], item)
    }

    /// Puts an item at this place, from which on all are empty.
    pub(crate) fn put(&mut self, place: usize, item: T)
    where
        T: Drop,
        requires place { place < MAX_LEAVES }
        requires free { IsFreeFrom place self.old }
        ensures items { items_in self.new ≡ items_in self.old ++ item ∷ [] }
        ensures free { IsFreeFrom (place + 1) self.new }
    {
        self.places[place] = Some(item);
    }
}
