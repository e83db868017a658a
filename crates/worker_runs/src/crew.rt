//! The workers of a run, each in a thread of its own.
//!
//! All threads are made before any of them asks for an event: each first takes a lock, which the thread that makes them holds meanwhile. So where one
//! can't be made, no event was asked.
ghost use Rattle.std.specs.Prelude.{◌≡◌, ℕ, ◌+◌, ◌<◌, ◌≤◌, [], All, IfOk, IfSome, OnOk, get_or, length, vec_capacity};
ghost use Rattle.worker_runs.specs.Asked.{AreAsked};
ghost use Rattle.worker_runs.specs.Shares.{HasAsked, IsShare};

use crate::progress::RunProgress;
use crate::worker::ask_own;
use disk_model::Disk;
use engine_host::{Host, Naming, Seat};
use plant_core::Event;
use std::alloc::{AllocError, Global};
use std::marker::PhantomData;
use std::sync::{Mutex, Wait};
use std::thread::{Promise, PromisedHandle, Scope, Threads, scope, scope_env};

/// Which of the events are a worker's own.
#[derive(Clone, Copy)]
struct Share<'a> {
    events: &'a [Event],
    workers: usize,
    worker: usize,
}

/// A worker comes back with its seat once it has asked its share of the events; or without, if it was not to begin.
#[derive(Drop)]
struct AsksItsShare<'a, N>(Share<'a>, PhantomData<N>);

impl<'a, N: Naming> Promise<Option<Seat<N>>> for AsksItsShare<'a, N> {
    ghost use Rattle.std.specs.Prelude.{IfSome};
    ghost use Rattle.worker_runs.specs.Shares.{HasAsked};

    ghost kept_by = { λ p r. IfSome r (λ seat. HasAsked N.plant N.view p.0 seat.watch) };
}

/// The thread of a worker.
type Worker<'a, N> = PromisedHandle<Option<Seat<N>>, AsksItsShare<'a, N>>;

/// Has a worker in each seat ask its share of the events, each in a thread of its own, and gives the seats back when all are done. Where there is no
/// memory, or a thread can't be made, no event was asked. By `start` the workers learn whether to begin.
pub(crate) fn ask_all<
    'a,
    D: Disk + Drop + Send,
    N: Naming + Send + Sync,
    R: Threads + Wait + Sync,
    P: RunProgress,
>(
    rt: &'a R,
    alloc: Global,
    host: &'a Host<'_, D, N>,
    seats: Vec<Seat<N>>,
    events: &'a [Event],
    progress: &'a P,
    start: &'a Mutex<bool>,
) -> Result<Vec<Seat<N>>, AllocError>
    requires { All (λ s. (s.share.amount ≡ 0) × (s.watch ≡ [])) seats.items }
    ensures len { IfOk result (λ back. length back.items ≡ length seats.items) }
    ensures each { IfOk result (λ back. (worker : ℕ) (d : _) → worker < length seats.items
        → AreAsked N.plant N.view (length seats.items) worker 0 events.now [] (get_or back.items worker d).watch) }
{
    scope(
        scope_env(),
        rt,
        |threads| -> Result<Vec<Seat<N>>, AllocError>
            requires { All (λ s. (s.share.amount ≡ 0) × (s.watch ≡ [])) seats.items }
            ensures { IfOk result (λ back. (length back.items ≡ length seats.items) × ((worker : ℕ) (d : _) → worker < length seats.items
                → AreAsked N.plant N.view (length seats.items) worker 0 events.entry.now [] (get_or back.items worker d).watch)) }
        {
            let crew = Vec::with_capacity(alloc, seats.len())?;
            let back = Vec::with_capacity(alloc, seats.len())?;
            let mut has_begun = start.lock(rt);
            let crew = start_all(threads, rt, host, seats, events, progress, start, crew)?;
            *has_begun = true;
            drop(has_begun);
            join_all(rt, crew, back)
        },
    )
}

/// Makes a thread for each seat. None of their workers asks before the lock is given up.
fn start_all<
    's,
    E,
    D: Disk + Drop + Send,
    N: Naming + Send + Sync,
    R: Threads + Wait + Sync,
    P: RunProgress,
>(
    threads: &Scope<'s, E>,
    rt: &'s R,
    host: &'s Host<'_, D, N>,
    mut seats: Vec<Seat<N>>,
    events: &'s [Event],
    progress: &'s P,
    start: &'s Mutex<bool>,
    mut crew: Vec<Worker<'s, N>>,
) -> Result<Vec<Worker<'s, N>>, AllocError>
    requires empty { All (λ s. (s.share.amount ≡ 0) × (s.watch ≡ [])) seats.items }
    requires none { crew.items ≡ [] }
    requires room { length seats.items ≤ vec_capacity crew }
    ensures len { IfOk result (λ crew. length crew.items ≡ length seats.items) }
    ensures each { IfOk result (λ crew. (k : ℕ) (d : _) → k < length seats.items
        → IsShare events.now (length seats.items) k (get_or crew.items k d).promise.0) }
{
    let workers = seats.len();
    for worker in 0..workers {
        let Some(seat) = seats.pop() else {
            unreachable!()
        };
        let share = Share {
            events,
            workers,
            worker,
        };
        let handle = threads.spawn_with(
            AsksItsShare(share, PhantomData),
            move || -> Option<Seat<N>>
                requires { (0 < share.workers) × (seat.watch ≡ []) }
                ensures { IfSome result (λ seat. HasAsked N.plant N.view share.entry seat.watch) }
            { ask_once_begun(rt, host, seat, share, progress, start) },
        )?;
        crew.push_reserved(handle);
    }
    Ok(crew)
}

/// Waits for all workers, and puts their seats into the room.
fn join_all<'a, N: Naming, R: Threads>(
    rt: &R,
    crew: Vec<Worker<'a, N>>,
    mut seats: Vec<Seat<N>>,
) -> Result<Vec<Seat<N>>, AllocError>
    requires none { seats.items ≡ [] }
    requires room { length crew.items ≤ vec_capacity seats }
    ensures len { IfOk result (λ seats. length seats.items ≡ length crew.entry.items) }
    ensures each { IfOk result (λ seats. (k : ℕ) (d : _) (e : _) → k < length crew.entry.items → HasAsked N.plant N.view (get_or crew.entry.items k d).promise.0 (get_or seats.items k e).watch) }
{
    for worker in crew {
        let Some(seat) = worker.join(rt) else {
            return Err(AllocError);
        };
        seats.push_reserved(seat);
    }
    Ok(seats)
}

/// Asks the worker's share of the events once it may begin, and gives the seat back; none where it may not.
fn ask_once_begun<D: Disk, N: Naming, P: RunProgress>(
    rt: &impl Wait,
    host: &Host<'_, D, N>,
    mut seat: Seat<N>,
    share: Share<'_>,
    progress: &P,
    start: &Mutex<bool>,
) -> Option<Seat<N>>
    requires some { 0 < share.workers }
    requires empty { seat.watch ≡ [] }
    ensures { IfSome result (λ seat. HasAsked N.plant N.view share.entry seat.watch) }
{
    let has_begun = *start.lock(rt);
    if !has_begun {
        return None;
    }
    ask_own(
        rt,
        host,
        &mut seat,
        share.worker,
        share.workers,
        share.events,
        progress,
    );
    Some(seat)
}
