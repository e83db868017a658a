//! What a host answers, worked out by hand.
ghost use Rattle.std.specs.Prelude.{◌≡◌};
ghost use Rattle.engine_host.specs.Names.{IsNamedFor, hosted};

use super::common::{Open, SAMPLE, first_plant, value_of};
use bare_disk::BareDisk;
use disk_model::Disk;
use engine_host::{CloseRefused, Closed, Entry, Host, Named, Naming, Seat, name, open};
use front_word::Watch;
use plant_core::{Front, Plant};
use plant_model::Inputs;
use plant_text::plant_of_text;
use std::alloc::Global;
use std::marker::Brand;
use std::process::Abort;
use std::sync::Wait;
use std::test::*;

pub(super) fn is_front(front: Front, fired: u64, acked: u64, base: u64) -> bool {
    front.fired == fired && front.acked == acked && front.base == base
}

pub(super) fn fires<D: Disk, N: Naming>(
    rt: &impl Wait,
    host: &Host<'_, D, N>,
    seat: &mut Seat<N>,
    picks: &[u128],
) -> bool {
    let mut all = true;
    for pick in picks {
        all &= host.fire(rt, seat, *pick, &Inputs::none()).is_ok();
    }
    all
}

/// A watch that knows the history so far, and another seat that fires.
fn told<D: Disk, N: Naming, R: Wait + Abort>(
    rt: &R,
    host: &Host<'_, D, N>,
    seat: &mut Seat<N>,
    watch: &mut Watch<Entry, N>,
) {
    assert!(rt; is_front(host.front(watch), 0, 0, 1));
    assert!(rt; fires(rt, host, seat, &[0, 1]));
    assert!(rt; host.flush(rt, seat).is_ok());
    assert!(rt; fires(rt, host, seat, &[0, 1]));
    assert!(rt; is_front(host.tell(rt, watch), 4, 2, 1));
    assert!(rt; is_front(host.front(watch), 4, 2, 1));
    assert!(rt; fires(rt, host, seat, &[0]));
    assert!(rt; is_front(host.front(watch), 5, 2, 1));
}

fn run_row<D: Disk + Drop, N: Naming, R: Wait + Abort>(
    rt: &R,
    alloc: Global,
    named: Named,
    plant: Plant<'_, D>,
) -> Result<(), Fail>
    requires named { IsNamedFor named (record { table = N.table; opening = N.opening; ledger = N.name; parts = N.parts; seats = N.seats }) (record { plant = N.plant; view = N.view; digest = N.digest; keeps = N.keeps }) (hosted plant) }
{
    let room = named.room(alloc)?;
    let (host, mut seats) = open::<D, N>(named, plant, room);
    let Some(mut seat) = seats.pop() else {
        return Err(Fail::new("a seat"));
    };
    let mut watch = host.split(&mut seat.watch);
    told(rt, &host, &mut seat, &mut watch);
    Ok(())
}

#[test]
fn a_watch_reads_no_less_than_it_was_told(rt: HostRuntime) -> Result<(), Fail> {
    let system = plant_of_text(rt.alloc(), SAMPLE)?;
    let plant = first_plant(rt.alloc(), &system, 8)?;
    let named = name(rt.alloc(), &plant, 1)?;
    run_row::<BareDisk, Brand, _>(&rt, rt.alloc(), named, plant)
}

/// Three seats of a host fire five times, never and twice. With one of them missing it does not close; with all three it answers seven.
fn three_seats<D: Disk + Drop, N: Naming, R: Wait + Abort>(
    rt: &R,
    alloc: Global,
    named: Named,
    plant: Plant<'_, D>,
) -> Result<(), Fail>
    requires named { IsNamedFor named (record { table = N.table; opening = N.opening; ledger = N.name; parts = N.parts; seats = N.seats }) (record { plant = N.plant; view = N.view; digest = N.digest; keeps = N.keeps }) (hosted plant) }
    requires seats { N.seats ≡ 3 }
    requires parts { N.parts ≡ 3 }
{
    let room = named.room(alloc)?;
    let (host, mut seats) = open::<D, N>(named, plant, room);
    let (Some(mut first), Some(mut third)) = (seats.pop(), seats.pop()) else {
        return Err(Fail::new("three seats"));
    };
    assert!(rt; fires(rt, &host, &mut first, &[0, 0, 0, 0, 0]));
    assert!(rt; fires(rt, &host, &mut third, &[0, 0]));
    seats.push(first)?;
    let Err(
        CloseRefused {
            missing,
            host,
            mut seats,
        },
    ) = host.close(seats)
    else {
        return Err(Fail::new("a seat is missing"));
    };
    assert_eq!(rt; (missing, seats.len()), (1, 2));
    seats.push(third)?;
    let Ok(Closed { fired, plant }) = host.close(seats) else {
        return Err(Fail::new("all seats are there"));
    };
    assert_eq!(rt; (fired, plant.front().fired), (7, 7));
    Ok(())
}

#[test]
fn three_seats_fire_seven_in_all(rt: HostRuntime) -> Result<(), Fail> {
    let system = plant_of_text(rt.alloc(), SAMPLE)?;
    let plant = first_plant(rt.alloc(), &system, 8)?;
    let named = name(rt.alloc(), &plant, 3)?;
    three_seats::<BareDisk, Brand, _>(&rt, rt.alloc(), named, plant)
}

/// The number and the connector of what was fired by this pick.
fn fired_by<D: Disk, N: Naming>(
    rt: &impl Wait,
    host: &Host<'_, D, N>,
    seat: &mut Seat<N>,
    pick: u128,
) -> Option<(u64, u16)> {
    match host.fire(rt, seat, pick, &Inputs::none()) {
        Ok(fired) => Some((fired.number, fired.choice.connector)),
        Err(_) => None,
    }
}

/// One seat fires tick, send, tick and send, flushes, saves A and drops what no restart needs, and then saves B, which alone is behind.
fn save_and_trim<D: Disk, N: Naming, R: Wait + Abort>(
    rt: &R,
    host: &Host<'_, D, N>,
    seat: &mut Seat<N>,
) {
    for (number, pick) in [(1, 0), (2, 1), (3, 0), (4, 1)] {
        assert_eq!(rt; fired_by(rt, host, seat, pick), Some((number, pick as u16)));
    }
    assert!(rt; host.flush(rt, seat) == Ok(4));
    assert!(rt; host.save_one(rt, seat, 0, &Open) == Ok(4));
    assert!(rt; host.trim(rt, seat) == Ok(2));
    assert!(rt; is_front(host.front(&mut seat.watch), 4, 4, 2));
    assert!(rt;
        matches!(host.save(rt, seat), Ok(saved) if saved.number == 4 && saved.atoms == 0b10)
    );
}

/// One seat works tick and then send, whose updates run outside the lock.
fn work_twice<D: Disk, N: Naming, R: Wait + Abort>(
    rt: &R,
    host: &Host<'_, D, N>,
    seat: &mut Seat<N>,
) {
    for (number, pick) in [(1, 0), (2, 1)] {
        let answer = host.work(rt, seat, pick, &Inputs::none(), &Open);
        assert!(rt; matches!(answer, Ok(fired) if fired.number == number));
    }
}

/// What one seat does.
#[derive(Clone, Copy)]
enum Course {
    SaveAndTrim,
    WorkTwice,
    /// It ticks three times.
    Tick,
}

/// One seat does this, and the host is closed: so many were fired since it opened and in all, and the variables have these values.
fn one_seat<D: Disk + Drop, N: Naming, R: Wait + Abort>(
    rt: &R,
    alloc: Global,
    named: Named,
    plant: Plant<'_, D>,
    course: Course,
    wanted: (u64, u64),
    values: (i64, i64),
) -> Result<(), Fail>
    requires named { IsNamedFor named (record { table = N.table; opening = N.opening; ledger = N.name; parts = N.parts; seats = N.seats }) (record { plant = N.plant; view = N.view; digest = N.digest; keeps = N.keeps }) (hosted plant) }
    requires seats { N.seats ≡ 1 }
    requires parts { N.parts ≡ 1 }
{
    let room = named.room(alloc)?;
    let (host, mut seats) = open::<D, N>(named, plant, room);
    let Some(mut seat) = seats.pop() else {
        return Err(Fail::new("a seat"));
    };
    match course {
        Course::SaveAndTrim => save_and_trim(rt, &host, &mut seat),
        Course::WorkTwice => work_twice(rt, &host, &mut seat),
        Course::Tick => assert!(rt; fires(rt, &host, &mut seat, &[0, 0, 0])),
    }
    seats.push(seat)?;
    let Ok(Closed { fired, plant }) = host.close(seats) else {
        return Err(Fail::new("the seat is there"));
    };
    assert_eq!(rt; (fired, plant.front().fired), wanted);
    assert_eq!(rt; (value_of(&plant, 0), value_of(&plant, 1)), values);
    Ok(())
}

/// One seat does this to a plant after so many ticks and sends in turn.
fn one_seat_behind<R: Wait + Abort>(
    rt: &R,
    alloc: Global,
    before: u64,
    course: Course,
    wanted: (u64, u64),
    values: (i64, i64),
) -> Result<(), Fail> {
    let system = plant_of_text(alloc, SAMPLE)?;
    let mut plant = first_plant(alloc, &system, 8)?;
    for pick in 0..before {
        assert!(rt; plant.fire(u128::from(pick), &Inputs::none()).is_ok());
    }
    let named = name(alloc, &plant, 1)?;
    one_seat::<BareDisk, Brand, R>(rt, alloc, named, plant, course, wanted, values)
}

#[test]
fn one_seat_saves_and_trims(rt: HostRuntime) -> Result<(), Fail> {
    one_seat_behind(&rt, rt.alloc(), 0, Course::SaveAndTrim, (4, 4), (4, 3))
}

#[test]
fn one_seat_works_outside_the_lock(rt: HostRuntime) -> Result<(), Fail> {
    one_seat_behind(&rt, rt.alloc(), 0, Course::WorkTwice, (2, 2), (2, 1))
}

/// A counts each of the four before and the three since, and the last send gave B the three before it.
#[test]
fn a_host_counts_from_where_it_opened(rt: HostRuntime) -> Result<(), Fail> {
    one_seat_behind(&rt, rt.alloc(), 4, Course::Tick, (3, 7), (7, 3))
}
