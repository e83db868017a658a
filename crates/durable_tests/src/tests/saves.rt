//! States that are asked for and put, but are not those that a plant keeps. What is put as it was asked for is a case of the program.
use super::common::{OpaqueDisk, sample};
use super::runs::{fire_0, new_device, try_boot, whole_run};
use petri_atom::AtomState;
use plant_core::{Event, Plant, PutRefused, Refused};
use plant_model::{Inputs, System};
use snapshot_writer::{Parcel, encode};
use std::alloc::Global;
use std::test::Fail;

/// Why the last event is refused, and how many calls of the device are made.
fn asked(alloc: Global, system: &System, events: &[Event]) -> Result<(Option<Refused>, u64), Fail> {
    let ran = whole_run(alloc, system, events)?;
    Ok((ran.refused, ran.calls))
}

/// There is no such atom, and no hand for one. No call of the device is made.
#[test]
fn an_atom_that_is_not_there_is_neither_copied_nor_stored(rt: HostRuntime) -> Result<(), Fail> {
    let alloc = rt.alloc();
    let system = sample(alloc)?;
    let (_, calls) = asked(alloc, &system, &[])?;
    for (event, refused) in [
        (Event::Ask(7), Some(Refused::Stranger)),
        (Event::Put(7), None),
    ] {
        let found = asked(alloc, &system, &[fire_0(), event])?;
        assert_eq!(rt; found, (refused, calls));
    }
    Ok(())
}

/// A new plant.
fn booted<'s>(alloc: Global, system: &'s System) -> Result<Plant<'s, OpaqueDisk>, Fail> {
    match try_boot(
        alloc,
        OpaqueDisk::over(new_device(alloc, system, 8)?),
        system,
    )? {
        Ok(plant) => Ok(plant),
        Err(_) => Err(Fail::new("the device failed")),
    }
}

/// Ticks, and asks for A.
fn ticked(plant: &mut Plant<'_, OpaqueDisk>) -> Result<Parcel, Fail> {
    if plant.fire(0, &Inputs::none()).is_err() {
        return Err(Fail::new("the tick is refused"));
    }
    match plant.ask(0) {
        Ok(state) => Ok(state),
        Err(_) => Err(Fail::new("the ask is refused")),
    }
}

/// The sample after two ticks, of which A was asked for after each, all of it acknowledged: the plant, the first state and the second.
fn asked_twice<'s>(
    alloc: Global,
    system: &'s System,
) -> Result<(Plant<'s, OpaqueDisk>, Parcel, Parcel), Fail> {
    let mut plant = booted(alloc, system)?;
    let first = ticked(&mut plant)?;
    let second = ticked(&mut plant)?;
    match plant.flush() {
        Ok(2) => Ok((plant, first, second)),
        _ => Err(Fail::new("the flush is refused")),
    }
}

/// The last record of the state that is stored, or why it is not.
fn put(plant: &mut Plant<'_, OpaqueDisk>, state: Parcel) -> Result<u64, Refused> {
    match plant.put(encode(state)) {
        Ok(at) => Ok(at),
        Err(PutRefused { refused, .. }) => Err(refused),
    }
}

/// Why the state is not stored, and the state, which comes back.
fn refused_put(
    plant: &mut Plant<'_, OpaqueDisk>,
    state: Parcel,
) -> Result<(Refused, Parcel), Fail> {
    match plant.put(encode(state)) {
        Ok(_) => Err(Fail::new("the state is stored")),
        Err(PutRefused { encoded, refused }) => Ok((refused, encoded.into_parcel())),
    }
}

/// Puts the first state, then the second, and then the first again, as it came back.
fn put_in_turn(
    plant: &mut Plant<'_, OpaqueDisk>,
    first: Parcel,
    second: Parcel,
) -> Result<[Result<u64, Refused>; 3], Fail> {
    let (refused, back) = refused_put(plant, first)?;
    if (back.count(), back.at()) != (1, 1) {
        return Err(Fail::new("another state comes back"));
    }
    let stored = put(plant, second);
    Ok([Err(refused), stored, put(plant, back)])
}

/// The first state was asked for once, and another since. It comes back, and the second is stored. It is stored once: then no copy of it is kept.
#[test]
fn only_the_state_that_was_asked_for_last_is_stored(rt: HostRuntime) -> Result<(), Fail> {
    let system = sample(rt.alloc())?;
    let (mut plant, first, second) = asked_twice(rt.alloc(), &system)?;
    let found = put_in_turn(&mut plant, first, second)?;
    let stranger = Err(Refused::Stranger);
    assert!(rt; found == [stranger, Ok(2), stranger]);
    Ok(())
}

/// The state of an atom with one value.
fn state_of(atom: u16, count: u64, at: u64, marking: u64, value: i64) -> Result<Parcel, Fail> {
    if atom >= 64 || count > at || at > 100 {
        return Err(Fail::new("no such state"));
    }
    Ok(Parcel::new(atom, count, at, AtomState::with(marking, &[value])))
}

/// Atom, count, last record, marking and value of a state, and what comes of putting it.
type Row = (u16, u64, u64, u64, i64, Result<u64, Refused>);

/// Whether that comes of it, and it is the same as the one that was asked for if it is stored.
fn is_right(plant: &mut Plant<'_, OpaqueDisk>, asked: &Parcel, row: &Row) -> Result<bool, Fail> {
    let (atom, count, at, marking, value, wanted) = *row;
    let state = state_of(atom, count, at, marking, value)?;
    let is_same = state.same(asked);
    Ok(put(plant, state) == wanted && is_same == wanted.is_ok())
}

/// The number of the first row of which another thing comes.
fn first_wrong(
    plant: &mut Plant<'_, OpaqueDisk>,
    asked: &Parcel,
    rows: &[Row],
) -> Result<Option<usize>, Fail> {
    for (number, row) in rows.iter().enumerate() {
        if !is_right(plant, asked, row)? {
            return Ok(Some(number));
        }
    }
    Ok(None)
}

/// A state that differs from the one that was asked for in its atom, its count, its last record, a place or a value is none that was asked for. Behind
/// them nothing has changed: an equal one is taken for it.
#[test]
fn a_state_that_was_not_asked_for_is_not_stored(rt: HostRuntime) -> Result<(), Fail> {
    let system = sample(rt.alloc())?;
    let (mut plant, _, second) = asked_twice(rt.alloc(), &system)?;
    let rows = [
        (1, 2, 2, 1, 2, Err(Refused::Stranger)),
        (0, 1, 2, 1, 2, Err(Refused::Stranger)),
        (0, 2, 3, 1, 2, Err(Refused::Stranger)),
        (0, 2, 2, 3, 2, Err(Refused::Stranger)),
        (0, 2, 2, 1, 3, Err(Refused::Stranger)),
        (7, 2, 2, 1, 2, Err(Refused::Stranger)),
        (0, 2, 2, 1, 2, Ok(2)),
    ];
    assert_eq!(rt; first_wrong(&mut plant, &second, &rows)?, None);
    Ok(())
}
