//! Naming and opening a host.
ghost use Rattle.std.specs.Prelude.{◌≡◌, ◌+◌, ◌≤◌, [], All, IfOk, length, vec_capacity};
ghost use Rattle.plant_core.specs.Plants.{view_of};
ghost use Rattle.engine_host.specs.Names.{IsNamedFor, hosted};
ghost use Rattle.engine_host.specs.Views.{front_in};

use crate::entry::Entry;
use crate::host::Host;
use crate::locked::Locked;
use crate::making::front_of;
use crate::naming::Naming;
use crate::seat::Seat;
use disk_model::Disk;
use front_word::{FrontWord, Publisher, Unnamed};
use plant_core::Plant;
use std::alloc::{AllocError, Global};
use std::marker::Model;
use std::sync::Mutex;
use std::sync::ledger::{Blank, Share};

/// How many seats a host has at most.
pub const MOST_SEATS: usize = 64;

/// What a host of a plant is made of, before a type stands for it. Clauses see which host it will be.
#[derive(Drop)]
pub struct Named {
    word: Unnamed<Entry>,
    blank: Blank,
    seats: usize,
}

impl Model for Named {
    ghost use Rattle.std.specs.Prelude.{◌≡◌, ◌≤◌};
    ghost use Rattle.engine_host.specs.Names.{Names};

    ghost Value = { Names };

    ghost view = { λ n. record { table = n.word.table; opening = n.word.opening; ledger = n.blank.name; parts = n.blank.parts; seats = n.seats } };

    ghost invariant = { λ n. n.blank.parts ≡ n.seats };
}

impl Named {
    /// Room for the seats of the host, which [`open`] puts there.
    pub fn room<N: Naming>(&self, alloc: Global) -> Result<Vec<Seat<N>>, AllocError>
        ensures none { IfOk result (λ room. room.items ≡ []) }
        ensures room { IfOk result (λ room. self.now.seats ≤ vec_capacity room) }
    {
        Vec::with_capacity(alloc, self.seats)
    }
}

/// Makes the word and the ledger of a host of this plant, with so many seats: 1 to [`MOST_SEATS`].
pub fn name<D: Disk>(alloc: Global, plant: &Plant<'_, D>, seats: usize) -> Result<Named, AllocError>
    requires from { 1 ≤ seats }
    requires to { seats ≤ MOST_SEATS }
    ensures opening { IfOk result (λ n. n.opening ≡ front_in (view_of plant.now)) }
    ensures seats { IfOk result (λ n. n.seats ≡ seats) }
    ensures parts { IfOk result (λ n. n.parts ≡ seats) }
{
    let word = Unnamed::new(alloc, front_of(plant))?;
    Ok(Named {
        word,
        blank: Blank::new(seats as u64),
        seats,
    })
}

/// Opens a host of the plant, with its seats, each with an empty share and a watch that knows nothing yet. They stand in the room that
/// [`Named::room`] made. Neither this call nor any of the host takes memory.
pub fn open<'s, D: Disk, N: Naming>(
    named: Named,
    plant: Plant<'s, D>,
    room: Vec<Seat<N>>,
) -> (Host<'s, D, N>, Vec<Seat<N>>)
    requires named { IsNamedFor named (record { table = N.table; opening = N.opening; ledger = N.name; parts = N.parts; seats = N.seats }) (record { plant = N.plant; view = N.view; digest = N.digest; keeps = N.keeps }) (hosted plant) }
    requires none { room.items ≡ [] }
    requires room { N.seats ≤ vec_capacity room }
    ensures seats { length result.1.items ≡ N.seats }
    ensures empty { All (λ s. (s.share.amount ≡ 0) × (s.watch ≡ [])) result.1.items }
{
    let Named {
        word,
        blank,
        seats: count,
    } = named;
    let (word, mut publisher) = word.named::<N>();
    let (book, mut share) = blank.open::<N>();
    let mut seats = room;
    take_seats(&word, &mut publisher, &mut share, count, &mut seats);
    let host = Host {
        lock: Mutex::new(Locked::new(plant, publisher, book)),
        word,
        seats: count,
    };
    (host, seats)
}

/// Makes the seats of a host, for which there is room.
fn take_seats<N: Naming>(
    word: &FrontWord<Entry, N>,
    publisher: &mut Publisher<Entry, N>,
    share: &mut Share<N>,
    count: usize,
    seats: &mut Vec<Seat<N>>,
)
    requires parts { count ≤ share.old.parts }
    requires amount { share.old.amount ≡ 0 }
    requires none { seats.old.items ≡ [] }
    requires room { count ≤ vec_capacity seats.old }
    requires empty { publisher.old ≡ [] }
    ensures same { publisher.new ≡ publisher.old }
    ensures seats { length seats.new.items ≡ count }
    ensures each { All (λ s. (s.share.amount ≡ 0) × (s.watch ≡ [])) seats.new.items }
{
    for _i in 0..count {
        seats.push_reserved(take_seat(word, publisher, share));
    }
}

/// Makes one seat.
fn take_seat<N: Naming>(
    word: &FrontWord<Entry, N>,
    publisher: &mut Publisher<Entry, N>,
    share: &mut Share<N>,
) -> Seat<N>
    requires parts { 1 ≤ share.old.parts }
    requires amount { share.old.amount ≡ 0 }
    requires empty { publisher.old ≡ [] }
    ensures same { publisher.new ≡ publisher.old }
    ensures parts { share.new.parts + 1 ≡ share.old.parts }
    ensures amount { share.new.amount ≡ 0 }
    ensures seat { (result.share.amount ≡ 0) × (result.watch ≡ []) }
{
    Seat {
        share: share.split_off(1, 0),
        watch: publisher.watch(word),
    }
}
