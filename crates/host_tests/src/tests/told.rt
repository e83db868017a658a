//! What one thread asks of a host, and what it is answered.
use super::common::Open;
use disk_model::Disk;
use engine_host::{Host, Naming, Seat};
use plant_core::FiredAs;
use plant_model::Inputs;
use std::alloc::{AllocError, Global};
use std::sync::Wait;

/// How many events each thread asks for.
const EVENTS: u64 = 1_000;

/// A choice that was fired, and the pick that asked for it.
#[derive(Drop)]
pub(super) struct Fire {
    pub(super) pick: u64,
    pub(super) fired: FiredAs,
}

/// What a thread was answered.
#[derive(Drop)]
pub(super) struct Told {
    /// Each choice that it fired.
    pub(super) fires: Vec<Fire>,
    /// How many flushes, saves and trims were not refused.
    pub(super) others: u64,
    /// Whether each flush acknowledged all that this thread knew of, and each look at the word showed it.
    pub(super) is_in_order: bool,
    /// The highest number that it was answered.
    highest: u64,
}

impl Told {
    /// Nothing yet.
    pub(super) fn nothing(alloc: Global) -> Told {
        Told {
            fires: Vec::new(alloc),
            others: 0,
            is_in_order: true,
            highest: 0,
        }
    }

    /// A choice was fired. Where there is no memory to keep it, it is missing in the end.
    fn fire(&mut self, pick: u64, fired: FiredAs) {
        self.highest = self.highest.max(fired.number);
        let _ = self.fires.push(Fire { pick, fired });
    }

    /// All up to this number is there: that has to be all that was answered.
    fn reach(&mut self, number: u64) {
        self.is_in_order &= self.highest <= number;
        self.highest = number;
    }

    /// A flush, a save or a trim was not refused.
    fn count(&mut self, is_ok: bool) {
        self.others = self.others.saturating_add(u64::from(is_ok));
    }

    /// Adds what another thread was answered.
    pub(super) fn add(&mut self, mut other: Told) -> Result<(), AllocError> {
        self.others = self.others.saturating_add(other.others);
        self.is_in_order &= other.is_in_order;
        self.fires.append(&mut other.fires)
    }
}

/// A thread's seat, and what it was answered.
#[derive(Drop)]
pub(super) struct Worker<N: Naming> {
    pub(super) seat: Seat<N>,
    pub(super) told: Told,
}

/// Asks for one event: mostly a fire, now and then a flush, a save of one of four atoms or of all that are behind, and a trim.
fn ask_one<D: Disk, N: Naming>(
    rt: &impl Wait,
    host: &Host<'_, D, N>,
    seat: &mut Seat<N>,
    told: &mut Told,
    number: u64,
) {
    match number % 8 {
        5 => {
            if let Ok(acked) = host.flush(rt, seat) {
                told.reach(acked);
                told.count(true);
            }
        }
        6 if number % 5 == 0 => told.count(host.save(rt, seat).is_ok()),
        6 => told.count(
            host.save_one(rt, seat, (number / 8 % 4) as u16, &Open)
                .is_ok(),
        ),
        7 => told.count(host.trim(rt, seat).is_ok()),
        _ => {
            if let Ok(fired) = host.fire(rt, seat, u128::from(number), &Inputs::none()) {
                told.fire(number, fired);
            }
        }
    }
}

/// How many choices were fired, as the word shows it.
fn fired_by_word<D: Disk, N: Naming>(host: &Host<'_, D, N>, seat: &mut Seat<N>) -> u64 {
    host.front(&mut seat.watch).fired
}

/// Asks for all events of one thread, and looks at the word after each of them.
pub(super) fn ask_all<D: Disk, N: Naming>(
    rt: &impl Wait,
    host: &Host<'_, D, N>,
    worker: Worker<N>,
) -> Worker<N> {
    let Worker { mut seat, mut told } = worker;
    for number in 0..EVENTS {
        ask_one(rt, host, &mut seat, &mut told, number);
        told.reach(fired_by_word(host, &mut seat));
    }
    Worker { seat, told }
}
