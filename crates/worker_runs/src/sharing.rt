//! A host whose events are shared out.
ghost use Rattle.std.specs.Prelude.{◌≡◌, ◌+◌, ◌<◌, IfOk};
ghost use Rattle.plant_core.specs.Plants.{definition_of, device_of, text_digest, view_of};
ghost use Rattle.plant_core.specs.View.{fired_number};
ghost use Rattle.engine_host.specs.Names.{IsNamedFor, hosted};
ghost use Rattle.worker_runs.specs.Asked.{AreShared};

use crate::crew::ask_all;
use crate::progress::RunProgress;
use disk_model::Disk;
use engine_host::{Closed, Named, Naming, open};
use plant_core::{Event, Plant};
use std::alloc::{AllocError, Global};
use std::sync::{Mutex, Wait};
use std::thread::Threads;

/// Opens the host that was named over the plant, has a worker in each of its seats ask its share of the events, each in a thread of its own, and
/// closes it after the last. It gives the plant, and how many choices were fired. Where there is no memory to open the host, or a worker
/// can't be started, no event was asked.
// The plant is moved several times here: a frame of its own has the boot before it need no more stack.
#[inline(never)]
pub(crate) fn share_out<
    's,
    D: Disk + Drop + Send,
    N: Naming + Send + Sync,
    R: Threads + Wait + Sync,
    P: RunProgress,
>(
    rt: &R,
    alloc: Global,
    named: Named,
    plant: Plant<'s, D>,
    events: &[Event],
    progress: &P,
) -> Result<Closed<'s, D>, AllocError>
    requires named { IsNamedFor named (record { table = N.table; opening = N.opening; ledger = N.name; parts = N.parts; seats = N.seats }) (record { plant = N.plant; view = N.view; digest = N.digest; keeps = N.keeps }) (hosted plant) }
    requires whole { N.parts ≡ N.seats }
    requires some { 0 < N.seats }
    ensures plant { IfOk result (λ r. definition_of r.plant ≡ N.plant) }
    ensures digest { IfOk result (λ r. text_digest r.plant ≡ N.digest) }
    ensures keeps { IfOk result (λ r. (device_of r.plant).keeps ≡ N.keeps) }
    ensures shared { IfOk result (λ r. AreShared N.plant N.view N.seats events.now (view_of r.plant)) }
    ensures fired { IfOk result (λ r. r.fired + fired_number N.view ≡ fired_number (view_of r.plant)) }
{
    let Ok(room) = named.room(alloc) else {
        return Err(AllocError);
    };
    let (host, seats) = open::<D, N>(named, plant, room);
    let start = Mutex::new(false);
    let Ok(seats) = ask_all(rt, alloc, &host, seats, events, progress, &start) else {
        return Err(AllocError);
    };
    let Ok(closed) = host.close(seats) else {
        unreachable!()
    };
    Ok(closed)
}
