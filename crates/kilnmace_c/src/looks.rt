//! What a plant has and where it stands. The plant stays as it is.
ghost use Rattle.std.specs.Prelude.{◌≡◌, ◌++◌, ◌<◌, ◌≤◌, ℕ, Err, Ok, Option, drop, length, map, slice_get};
ghost use Rattle.std.specs.Option.{option_map};
ghost use Rattle.plant_model.specs.Chosen.{choice_of};
ghost use Rattle.plant_core.specs.View.{sure_in};
ghost use Rattle.plant_for_c.specs.Fires.{told_count};
ghost use Rattle.plant_for_c.specs.Looks.{IsStandingOf};
ghost use Rattle.kilnmace_c.specs.Calls.{IsHeldLook, IsToldAs, IsTurnedAway, absent_in};
ghost use Rattle.kilnmace_c.specs.Looks.{IsToldChoice, IsToldState, participant_of};
ghost use Rattle.kilnmace_c.specs.Told.{IsToldRow, found_status};
ghost use Rattle.kilnmace_c.specs.declared.variable.TheConstants.{PLANT};

use crate::told::{of_look, tell};
use crate::variable::{PLANT, Variable};
use petri_atom::AtomState;
use plant_for_c::{Standing, Status};
use plant_model::{Choice, Move};
use std::alloc::Global;

/// A participant of a choice, as C has it.
#[repr(C)]
#[derive(Clone, Copy)]
pub struct Participant {
    /// The number of the atom.
    pub atom: u16,
    /// The number of the transition.
    pub transition: u16,
}

/// How far the plant is.
#[unsafe(no_mangle)]
pub extern "C" fn kilnmace_raw_front_of(
    alloc: Global,
    plant: &mut Variable,
    front: &mut Standing,
) -> u32
    ensures same { (plant.new.handle.held ≡ plant.old.handle.held) × (plant.new.mark ≡ plant.old.mark) }
    ensures turned_away { IsTurnedAway PLANT plant.old.mark result (front.new ≡ front.old) }
    ensures told { plant.old.mark ≡ PLANT → IsHeldLook plant.old.handle.held (IsToldAs (Err (absent_in plant.old.handle.held)) result front.old front.new)
        (λ definition v. (found : Standing) × IsStandingOf v found × IsToldAs (Ok found) result front.old front.new) }
{
    let thing = match plant.take(PLANT, alloc) {
        Ok(thing) => thing,
        Err(status) => return status.number(),
    };
    let absent = thing.absent();
    let found = thing.standing();
    plant.put(thing);
    tell(of_look(found, absent), front)
}

/// How many choices the present state has.
#[unsafe(no_mangle)]
pub extern "C" fn kilnmace_raw_count(alloc: Global, plant: &mut Variable, count: &mut u64) -> u32
    ensures same { (plant.new.handle.held ≡ plant.old.handle.held) × (plant.new.mark ≡ plant.old.mark) }
    ensures turned_away { IsTurnedAway PLANT plant.old.mark result (count.new ≡ count.old) }
    ensures told { plant.old.mark ≡ PLANT → IsHeldLook plant.old.handle.held (IsToldAs (Err (absent_in plant.old.handle.held)) result count.old count.new)
        (λ definition v. (found : ℕ) × (found ≡ told_count (length (sure_in definition v))) × IsToldAs (Ok found) result count.old count.new) }
{
    let thing = match plant.take(PLANT, alloc) {
        Ok(thing) => thing,
        Err(status) => return status.number(),
    };
    let absent = thing.absent();
    let found = thing.count();
    plant.put(thing);
    tell(of_look(found, absent), count)
}

/// The choice with the number.
#[unsafe(no_mangle)]
pub extern "C" fn kilnmace_raw_choice(
    alloc: Global,
    plant: &mut Variable,
    number: u64,
    connector: &mut u16,
    moves: &mut [Participant],
    count: &mut usize,
) -> u32
    ensures same { (plant.new.handle.held ≡ plant.old.handle.held) × (plant.new.mark ≡ plant.old.mark) }
    ensures turned_away { IsTurnedAway PLANT plant.old.mark result ((connector.new ≡ connector.old) × (moves.new ≡ moves.old) × (count.new ≡ count.old)) }
    ensures told { plant.old.mark ≡ PLANT → IsHeldLook plant.old.handle.held
        (IsToldChoice (Err (absent_in plant.old.handle.held)) result connector.old connector.new moves.old moves.new count.old count.new)
        (λ definition v. (found : Option Choice) × (option_map choice_of found ≡ slice_get (sure_in definition v) number)
        × IsToldChoice (found_status found) result connector.old connector.new moves.old moves.new count.old count.new) }
{
    let thing = match plant.take(PLANT, alloc) {
        Ok(thing) => thing,
        Err(status) => return status.number(),
    };
    let absent = thing.absent();
    let found = thing.choice(number);
    plant.put(thing);
    match found {
        Some(Some(choice)) => tell_choice(&choice, connector, moves, count),
        Some(None) => Status::NoSuch.number(),
        None => absent.number(),
    }
}

/// Tells how many participants a choice has, and the choice, if there is room.
fn tell_choice(
    choice: &Choice,
    connector: &mut u16,
    moves: &mut [Participant],
    count: &mut usize,
) -> u32
    ensures row { IsToldRow (map participant_of choice.now.moves) result moves.old moves.new count.new }
    ensures room { length choice.now.moves ≤ length moves.old → connector.new ≡ choice.now.connector }
    ensures no_room { length moves.old < length choice.now.moves → connector.new ≡ connector.old }
{
    let found = choice.moves.as_slice();
    *count = found.len();
    if found.len() > moves.len() {
        return Status::NoRoom.number();
    }
    *connector = choice.connector;
    copy_moves(found, moves);
    Status::Done.number()
}

/// Copies these moves to the beginning of the room.
fn copy_moves(found: &[Move], moves: &mut [Participant])
    requires { length found.now ≤ length moves.old }
    ensures { moves.new ≡ map participant_of found.now ++ drop (length found.now) moves.old }
{
    for place in 0..found.len() {
        moves[place] = Participant {
            atom: found[place].atom,
            transition: found[place].transition,
        };
    }
}

/// The present state of an atom.
#[unsafe(no_mangle)]
pub extern "C" fn kilnmace_raw_state(
    alloc: Global,
    plant: &mut Variable,
    atom: u16,
    marked: &mut u64,
    values: &mut [i64],
    count: &mut usize,
) -> u32
    ensures same { (plant.new.handle.held ≡ plant.old.handle.held) × (plant.new.mark ≡ plant.old.mark) }
    ensures turned_away { IsTurnedAway PLANT plant.old.mark result ((marked.new ≡ marked.old) × (values.new ≡ values.old) × (count.new ≡ count.old)) }
    ensures told { plant.old.mark ≡ PLANT → IsHeldLook plant.old.handle.held
        (IsToldState (Err (absent_in plant.old.handle.held)) result marked.old marked.new values.old values.new count.old count.new)
        (λ definition v. IsToldState (found_status (slice_get v.present atom)) result marked.old marked.new values.old values.new count.old count.new) }
{
    let thing = match plant.take(PLANT, alloc) {
        Ok(thing) => thing,
        Err(status) => return status.number(),
    };
    let absent = thing.absent();
    let found = thing.state(atom);
    plant.put(thing);
    match found {
        Some(Some(state)) => tell_state(&state, marked, values, count),
        Some(None) => Status::NoSuch.number(),
        None => absent.number(),
    }
}

/// Tells how many variables a state has, and the state, if there is room.
fn tell_state(state: &AtomState, marked: &mut u64, values: &mut [i64], count: &mut usize) -> u32
    ensures row { IsToldRow state.now.values result values.old values.new count.new }
    ensures room { length state.now.values ≤ length values.old → marked.new ≡ state.now.marking }
    ensures no_room { length values.old < length state.now.values → marked.new ≡ marked.old }
{
    let found = state.values();
    let used = found.len();
    *count = used;
    if used > values.len() {
        return Status::NoRoom.number();
    }
    *marked = state.places();
    values[..used].copy_from_slice(found);
    Status::Done.number()
}
