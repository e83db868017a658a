//! What one worker does.
ghost use Rattle.std.specs.Prelude.{◌≡◌, ◌+◌, ◌<◌};
ghost use Rattle.worker_runs.specs.Asked.{AreAsked, IsAsked, IsTurn};

use crate::progress::RunProgress;
use disk_model::Disk;
use engine_host::{Gate, Host, Naming, Seat};
use plant_core::Event;
use std::sync::Wait;

/// Nobody is held outside the lock.
struct NoGate;

impl Gate for NoGate {
    fn outside(&self, _atom: u16) {}
}

/// Asks those of the events that are the worker's, one after another: each at whose place, modulo the number of workers, the worker has its own.
pub(crate) fn ask_own<D: Disk, N: Naming, P: RunProgress>(
    rt: &impl Wait,
    host: &Host<'_, D, N>,
    seat: &mut Seat<N>,
    worker: usize,
    workers: usize,
    events: &[Event],
    progress: &P,
)
    requires { 0 < workers }
    ensures { AreAsked N.plant N.view workers worker 0 events.now seat.old.watch seat.new.watch }
{
    for (place, event) in events.iter().enumerate() {
        take_turn(rt, host, seat, place % workers == worker, event, progress);
    }
}

/// Asks an event if it is the worker's own, and gives how far the plant is then.
fn take_turn<D: Disk, N: Naming, P: RunProgress>(
    rt: &impl Wait,
    host: &Host<'_, D, N>,
    seat: &mut Seat<N>,
    is_own: bool,
    event: &Event,
    progress: &P,
)
    ensures { IsTurn N.plant N.view is_own event.now seat.old.watch seat.new.watch }
{
    if is_own {
        ask(rt, host, seat, event);
        progress.passed(host.front(&mut seat.watch));
    }
}

/// Asks one event of the host, in the worker's seat. Its answer stands in the history, and is not looked at. A state that is asked for is
/// stored at once, and a choice that begins is worked to its end, so that nothing is left to be put or to be taken back.
fn ask<D: Disk, N: Naming>(rt: &impl Wait, host: &Host<'_, D, N>, seat: &mut Seat<N>, event: &Event)
    ensures { IsAsked N.plant N.view event.now seat.old.watch seat.new.watch }
{
    match event {
        Event::Fire(pick, inputs) => {
            let _ = host.fire(rt, seat, *pick, inputs);
        }
        Event::FireChoice(choice, inputs) => {
            let _ = host.fire_choice(rt, seat, choice, inputs);
        }
        Event::Flush => {
            let _ = host.flush(rt, seat);
        }
        Event::Ask(atom) => {
            let _ = host.save_one(rt, seat, *atom, &NoGate);
        }
        Event::Save => {
            let _ = host.save(rt, seat);
        }
        Event::Trim => {
            let _ = host.trim(rt, seat);
        }
        Event::Begin(pick, inputs) => {
            let _ = host.work(rt, seat, *pick, inputs, &NoGate);
        }
        Event::Put(_) | Event::Back(_) => {}
    }
}
