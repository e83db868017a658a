//! The word, and its steps.
ghost use Rattle.std.specs.Prelude.{◌≡◌, ℕ, ◌++◌, ◌∷◌, [], false, true, map, IfOk};
ghost use Rattle.front_word.specs.Fronts.{IsNotBelow, IsWithin, last_of};
ghost use Rattle.front_word.specs.Passes.{IsPass};
ghost use Rattle.front_word.specs.Rules.{IsRead, joined, watching};

use crate::front::Fronted;
use crate::knowing::{Beside, Known, Publish, Read, Rising, Together};
use crate::naming::WordNaming;
use crate::packing::{pack, unpack};
use crate::passes::Publisher;
use atomic_table::{Seat, Table};
use plant_core::Front;
use std::alloc::{AllocError, Global};
use std::marker::{Model, PhantomData};

/// A word with an empty history, which has no name yet. Clauses see which table has it and where its history opens, and so which names fit.
#[derive(Drop)]
pub struct Unnamed<E: Fronted> {
    table: Table<E, Known<E>, Front, Rising, Global>,
    seat: Seat<E, Known<E>>,
    opening: Front,
}

impl<E: Fronted> Model for Unnamed<E> {
    ghost use Rattle.std.specs.Prelude.{◌≡◌, [], true};
    ghost use Rattle.front_word.specs.Passes.{IsPass};
    ghost use Rattle.front_word.specs.Which.{Which};

    ghost Value = { Which };

    ghost view = { λ u. record { table = u.table.shared.table_id; opening = u.opening } };

    ghost invariant = { λ u. (u.table.shared.key ≡ u.opening) × (u.table.shared.table_id.words ≡ 1)
        × IsPass E.front u.table.shared.table_id u.opening true u.seat × (u.seat.me.0.seen ≡ []) };
}

impl<E: Fronted> Unnamed<E> {
    /// A word whose history opens at this front. Only this takes memory.
    pub fn new(alloc: Global, opening: Front) -> Result<Unnamed<E>, AllocError>
        requires { IsWithin opening opening }
        ensures { IfOk result (λ u. u.opening ≡ opening) }
    {
        let (table, seat) = Table::of_words(alloc, &[pack(opening, opening)], &opening)?;
        Ok(Unnamed {
            table,
            seat,
            opening,
        })
    }

    /// The word under a name, and the pass that publishes.
    pub fn named<N: WordNaming>(self) -> (FrontWord<E, N>, Publisher<E, N>)
        requires table { self.table ≡ N.table }
        requires opening { self.opening ≡ N.opening }
        ensures { result.1 ≡ [] }
    {
        let Unnamed {
            table,
            seat,
            opening,
        } = self;
        (
            FrontWord {
                table,
                opening,
                of: PhantomData,
            },
            Publisher::first(seat, opening),
        )
    }
}

/// The word that all threads share. It holds the last front of the history.
#[derive(Drop)]
pub struct FrontWord<E: Fronted, N: WordNaming> {
    table: Table<E, Known<E>, Front, Rising, Global>,
    opening: Front,
    of: PhantomData<N>,
    ghost table_is: { table.shared.table_id ≡ N.table },
    ghost key_is: { table.shared.key ≡ N.opening },
    ghost opening_is: { opening ≡ N.opening },
    ghost words_are: { N.table.words ≡ 1 },
}

impl<E: Fronted, N: WordNaming> FrontWord<E, N> {
    /// The front where the history opens.
    pub fn opening(&self) -> Front
        ensures { result ≡ N.opening }
    {
        self.opening
    }

    /// Adds the entry to the history of the pass that publishes, where it is behind the front `last`.
    pub(crate) fn publish(&self, seat: &mut Seat<E, Known<E>>, last: Front, entry: &E)
        requires pass { IsPass E.front N.table N.opening true seat.old }
        requires last { last ≡ last_of N.opening (map E.front seat.old.me.0.seen) }
        requires within { IsWithin N.opening (E.front entry.now) }
        requires rises { IsNotBelow last (E.front entry.now) }
        ensures pass { IsPass E.front N.table N.opening true seat.new }
        ensures seen { seat.new.me.0.seen ≡ seat.old.me.0.seen ++ entry.now ∷ [] }
    {
        let old = pack(self.opening, last);
        let new = pack(self.opening, entry.front());
        self.table
            .shared
            .compare_exchange_with::<Publish>(seat, 0, old, new, entry);
    }

    /// Reads the word.
    pub(crate) fn read(&self, seat: &mut Seat<E, Known<E>>) -> Front
        requires table { seat.old.table_id ≡ N.table }
        requires opening { seat.old.me.0.opening ≡ N.opening }
        requires unspent { seat.old.me.0.spent ≡ false }
        requires opens { IsWithin N.opening N.opening }
        ensures table { seat.new.table_id ≡ seat.old.table_id }
        ensures holds { seat.new.me.1 ≡ seat.old.me.1 }
        ensures read { (found : ℕ) × IsRead E.front seat.old.me.0 found seat.new.me.0 }
        ensures front { result ≡ last_of N.opening (map E.front seat.new.me.0.seen) }
        ensures within { IsWithin N.opening result }
    {
        let found = self.table.shared.load::<Read>(seat, 0);
        unpack(self.opening, found)
    }

    /// A new watch that has seen what this pass has.
    pub(crate) fn split(&self, seat: &mut Seat<E, Known<E>>) -> Seat<E, Known<E>>
        requires table { seat.old.table_id ≡ N.table }
        requires unspent { seat.old.me.0.spent ≡ false }
        ensures table { seat.new.table_id ≡ seat.old.table_id }
        ensures me { seat.new.me ≡ seat.old.me }
        ensures new_table { result.table_id ≡ N.table }
        ensures new { result.me ≡ (watching seat.old.me.0, []) }
    {
        self.table.shared.split_seat::<Beside>(seat)
    }

    /// Joins the other pass to this one.
    pub(crate) fn join(&self, seat: &mut Seat<E, Known<E>>, other: Seat<E, Known<E>>)
        requires table { seat.old.table_id ≡ N.table }
        requires other_table { other.table_id ≡ N.table }
        requires other_holds { other.me.1 ≡ [] }
        requires unspent { seat.old.me.0.spent ≡ false }
        requires other_unspent { other.me.0.spent ≡ false }
        ensures table { seat.new.table_id ≡ seat.old.table_id }
        ensures me { seat.new.me ≡ (joined seat.old.me.0 other.me.0, seat.old.me.1) }
    {
        self.table.shared.join_seat::<Together>(seat, other);
    }
}
