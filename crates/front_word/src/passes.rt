//! The pass that publishes, and those that watch.
ghost use Rattle.std.specs.Prelude.{◌≡◌, ◌++◌, ◌∷◌, [], map, true};
ghost use mathlib.Core.List.{IsPrefix};
ghost use Rattle.front_word.specs.Fronts.{IsNotBelow, IsRising, IsWithin, last_of};
ghost use Rattle.front_word.specs.Passes.{IsPass};

use crate::front::Fronted;
use crate::knowing::Known;
use crate::naming::WordNaming;
use crate::word::FrontWord;
use atomic_table::Seat;
use plant_core::Front;
use std::marker::{Model, PhantomData};

/// The pass that publishes: each word has one. It has seen all that was published, which is the whole history, and clauses see that.
#[derive(Drop)]
pub struct Publisher<E: Fronted, N: WordNaming> {
    seat: Seat<E, Known<E>>,
    last: Front,
    of: PhantomData<N>,
}

impl<E: Fronted, N: WordNaming> Model for Publisher<E, N> {
    ghost use Rattle.std.specs.Prelude.{◌≡◌, List, map, true};
    ghost use Rattle.front_word.specs.Fronts.{last_of};
    ghost use Rattle.front_word.specs.Passes.{IsPass};

    ghost Value = { List E };

    ghost view = { λ p. p.seat.me.0.seen };

    ghost invariant = { λ p. IsPass E.front N.table N.opening true p.seat × (p.last ≡ last_of N.opening (map E.front p.seat.me.0.seen)) };
}

impl<E: Fronted, N: WordNaming> Publisher<E, N> {
    /// The pass with an empty history.
    pub(crate) fn first(seat: Seat<E, Known<E>>, opening: Front) -> Publisher<E, N>
        requires opening { opening ≡ N.opening }
        requires pass { IsPass E.front N.table N.opening true seat }
        requires empty { seat.me.0.seen ≡ [] }
        ensures { result ≡ [] }
    {
        Publisher {
            seat,
            last: opening,
            of: PhantomData,
        }
    }

    /// The last front of the history, and the one where it opens if it is empty. It reads no word: nobody else publishes.
    pub fn front(&self) -> Front
        ensures front { result ≡ last_of N.opening (map E.front self.now) }
        ensures within { IsWithin N.opening result }
        ensures rises { IsRising N.opening N.opening (map E.front self.now) }
    {
        self.last
    }

    /// Adds an entry to the history, and stores the front after it in the word. Each watch that reads from then on sees it.
    pub fn publish(&mut self, word: &FrontWord<E, N>, entry: &E)
        requires within { IsWithin N.opening (E.front entry.now) }
        requires rises { IsNotBelow (last_of N.opening (map E.front self.old)) (E.front entry.now) }
        ensures { self.new ≡ self.old ++ entry.now ∷ [] }
    {
        let last = self.last;
        word.publish(&mut self.seat, last, entry);
        self.last = entry.front();
    }

    /// A watch that has seen the whole history.
    pub fn watch(&mut self, word: &FrontWord<E, N>) -> Watch<E, N>
        ensures same { self.new ≡ self.old }
        ensures whole { result ≡ self.old }
    {
        Watch {
            seat: word.split(&mut self.seat),
            of: PhantomData,
        }
    }

    /// Tells the watch the whole history, and gives its last front. What the watch had read or was told before begins it.
    pub fn tell(&mut self, word: &FrontWord<E, N>, watch: &mut Watch<E, N>) -> Front
        ensures same { self.new ≡ self.old }
        ensures whole { watch.new ≡ self.old }
        ensures grows { IsPrefix watch.old watch.new }
        ensures rises { IsRising N.opening N.opening (map E.front watch.new) }
        ensures front { result ≡ last_of N.opening (map E.front watch.new) }
    {
        // The publishing pass alone has seen all. Only a read orders what was joined, so it takes a copy of the watch in and reads; a
        // new watch beside it then takes the place of the old one.
        let copy = word.split(&mut watch.seat);
        word.join(&mut self.seat, copy);
        let front = word.read(&mut self.seat);
        watch.seat = word.split(&mut self.seat);
        front
    }

    /// Takes in a watch: all that it had seen begins the history.
    pub fn hear(&mut self, word: &FrontWord<E, N>, watch: Watch<E, N>)
        ensures same { self.new ≡ self.old }
        ensures begins { IsPrefix watch self.old }
    {
        let Watch { seat, of: _ } = watch;
        word.join(&mut self.seat, seat);
        word.read(&mut self.seat);
    }
}

/// A pass that watches. It takes no lock and waits for nobody. Clauses see the part of the history that it has read or was told.
#[derive(Drop)]
pub struct Watch<E: Fronted, N: WordNaming> {
    seat: Seat<E, Known<E>>,
    of: PhantomData<N>,
}

impl<E: Fronted, N: WordNaming> Model for Watch<E, N> {
    ghost use Rattle.std.specs.Prelude.{List, false};
    ghost use Rattle.front_word.specs.Passes.{IsPass};

    ghost Value = { List E };

    ghost view = { λ w. w.seat.me.0.seen };

    ghost invariant = { λ w. IsPass E.front N.table N.opening false w.seat };
}

impl<E: Fronted, N: WordNaming> Watch<E, N> {
    /// The front that the word holds. It was published, after all that the watch had read or was told: no part of it is below what the
    /// watch knew. Others may have been published since.
    pub fn front(&mut self, word: &FrontWord<E, N>) -> Front
        ensures front { result ≡ last_of N.opening (map E.front self.new) }
        ensures grows { IsPrefix self.old self.new }
        ensures rises { IsRising N.opening N.opening (map E.front self.new) }
        ensures within { IsWithin N.opening result }
    {
        word.read(&mut self.seat)
    }

    /// A second watch that has seen as much.
    pub fn split(&mut self, word: &FrontWord<E, N>) -> Watch<E, N>
        ensures same { self.new ≡ self.old }
        ensures as_much { result ≡ self.old }
    {
        Watch {
            seat: word.split(&mut self.seat),
            of: PhantomData,
        }
    }

    /// Takes in another watch, and reads the word: the history begins with all that both had seen.
    pub fn join(&mut self, word: &FrontWord<E, N>, other: Watch<E, N>)
        ensures grows { IsPrefix self.old self.new }
        ensures grows_from_other { IsPrefix other self.new }
        ensures rises { IsRising N.opening N.opening (map E.front self.new) }
    {
        let Watch { seat, of: _ } = other;
        word.join(&mut self.seat, seat);
        word.read(&mut self.seat);
    }
}
