//! Closing a host.
ghost use Rattle.std.specs.Prelude.{◌≡◌, ◌+◌, ◌<◌, ◌≤◌, ◌↔◌, IfErr, IfOk, IsOk, All, List, length, map, sum_by};
ghost use mathlib.Core.List.{IsPrefix};
ghost use Rattle.plant_core.specs.Plants.{definition_of, device_of, text_digest, view_of};
ghost use Rattle.engine_host.specs.Told.{IsClosed};
ghost use Rattle.plant_core.specs.View.{fired_number};

use crate::entry::Entry;
use crate::host::Host;
use crate::naming::Naming;
use crate::seat::Seat;
use disk_model::Disk;
use front_word::{FrontWord, Publisher};
use plant_core::Plant;
use std::sync::ledger::Share;

/// A host that was closed.
#[derive(Drop)]
pub struct Closed<'s, D: Disk> {
    /// How many choices were fired since it opened.
    pub fired: u64,
    /// The plant.
    pub plant: Plant<'s, D>,
}

// The fields of both results stand in this order so that the plant, some 16 KB, is at one place of the memory of either. Where they put it at two
// places, LLVM cuts it into thousands of parts, and takes many minutes.

/// A host that was not closed: some seats are not there. Host and seats come back.
#[derive(Drop)]
pub struct CloseRefused<'s, D: Disk, N: Naming> {
    /// The host.
    pub host: Host<'s, D, N>,
    /// The seats that were handed in.
    pub seats: Vec<Seat<N>>,
    /// How many seats are missing.
    pub missing: usize,
}

impl<'s, D: Disk, N: Naming> Host<'s, D, N> {
    /// Closes the host, and gives the plant with how many choices were fired since it opened, which is the sum of all shares. One legal
    /// history leads to where the plant then stands, and what each seat's watch knew begins it. It takes no memory and makes no call of the
    /// device.
    pub fn close(self, seats: Vec<Seat<N>>) -> Result<Closed<'s, D>, CloseRefused<'s, D, N>>
        requires whole { N.parts ≡ N.seats }
        requires some { 0 < N.seats }
        ensures all { IsOk result ↔ (length seats.items ≡ N.seats) }
        ensures sum { IfOk result (λ r. r.fired ≡ sum_by (λ s. s.share.amount) seats.items) }
        ensures fired { IfOk result (λ r. r.fired + fired_number N.view ≡ fired_number (view_of r.plant)) }
        ensures plant { IfOk result (λ r. definition_of r.plant ≡ N.plant) }
        ensures digest { IfOk result (λ r. text_digest r.plant ≡ N.digest) }
        ensures keeps { IfOk result (λ r. (device_of r.plant).keeps ≡ N.keeps) }
        ensures history { IfOk result (λ r. IsClosed N.plant N.view (map (λ s. s.watch) seats.items) (view_of r.plant)) }
        ensures missing { IfErr result (λ r. (0 < r.missing) × (r.missing + length seats.items ≡ N.seats)) }
        ensures seats_back { IfErr result (λ r. r.seats.items ≡ seats.items) }
    {
        if seats.len() < self.seats {
            return Err(CloseRefused {
                missing: self.seats - seats.len(),
                host: self,
                seats,
            });
        }
        let Host { lock, word, .. } = self;
        Ok(lock.into_inner().close(&word, seats))
    }
}

/// All shares of the seats in one; the pass that publishes hears what they know.
pub(crate) fn gather<N: Naming>(
    word: &FrontWord<Entry, N>,
    publisher: &mut Publisher<Entry, N>,
    mut seats: Vec<Seat<N>>,
) -> Share<N>
    requires { 0 < length seats.items }
    ensures same { publisher.new ≡ publisher.old }
    ensures parts { result.parts ≡ length seats.items }
    ensures within { result.parts ≤ N.parts }
    ensures amount { result.amount ≡ sum_by (λ s. s.share.amount) seats.items }
    ensures known { All (λ s. IsPrefix s.watch publisher.old) seats.items }
{
    let Some(
        Seat {
            share: mut all,
            watch,
        },
    ) = seats.pop()
    else {
        unreachable!()
    };
    publisher.hear(word, watch);
    let none = all.empty();
    all.merge(none);
    for Seat { share, watch } in seats {
        all.merge(share);
        publisher.hear(word, watch);
    }
    all
}
