//! How an answer is told to C: as a status, and into a variable of C's.
ghost use Rattle.std.specs.Prelude.{◌≡◌, Ok};
ghost use Rattle.plant_for_c.specs.Refusals.{of_plant};
ghost use Rattle.plant_for_c.specs.Statuses.{number_of};
ghost use Rattle.kilnmace_c.specs.Told.{IsToldRow, event_status, fill_status, fire_status, found_status, or_absent, save_status};
ghost use Rattle.kilnmace_c.specs.Calls.{IsStatusOf, IsToldAs};

use plant_core::{FiredAs, Refused, SavedTo};
use plant_for_c::{Refusal, Status, Unfired, of_plant};

/// More of a refusal, as C has it.
#[repr(C)]
#[derive(Clone, Copy)]
pub struct Detail {
    /// What the status says of the first number.
    pub first: u64,
    /// What the status says of the second number.
    pub second: u64,
}

impl Detail {
    /// Tells what is told with the refusal, and gives its status.
    pub(crate) fn tell(&mut self, refusal: Refusal) -> u32
        ensures status { result ≡ number_of refusal.status }
        ensures first { self.new.first ≡ refusal.first }
        ensures second { self.new.second ≡ refusal.second }
    {
        self.first = refusal.first;
        self.second = refusal.second;
        refusal.status.number()
    }
}

/// Tells a number of an answer, and gives its status. A refusal tells nothing.
pub(crate) fn tell<T: Copy>(answer: Result<T, Status>, into: &mut T) -> u32
    ensures { IsToldAs answer result into.old into.new }
{
    match answer {
        Ok(value) => {
            *into = value;
            Status::Done.number()
        }
        Err(status) => status.number(),
    }
}

/// The status of an answer of which nothing more is told.
pub(crate) fn status_of<T: Copy>(answer: Result<T, Status>) -> u32
    ensures { IsStatusOf answer result }
{
    match answer {
        Ok(_) => Status::Done.number(),
        Err(status) => status.number(),
    }
}

/// What an event of a plant answers to C; where there is no plant, why.
pub(crate) fn of_event<T: Copy>(
    answer: Option<Result<T, Refused>>,
    absent: Status,
) -> Result<T, Status>
    ensures { result ≡ or_absent event_status absent answer }
{
    match answer {
        None => Err(absent),
        Some(Ok(value)) => Ok(value),
        Some(Err(refused)) => Err(of_plant(refused)),
    }
}

/// What a save answers to C: the atoms.
pub(crate) fn of_save(
    answer: Option<Result<SavedTo, Refused>>,
    absent: Status,
) -> Result<u64, Status>
    ensures { result ≡ or_absent save_status absent answer }
{
    match of_event(answer, absent) {
        Ok(saved) => Ok(saved.atoms),
        Err(status) => Err(status),
    }
}

/// What a fire answers to C: the number of its record.
pub(crate) fn of_fire(
    answer: Option<Result<FiredAs, Unfired>>,
    absent: Status,
) -> Result<u64, Status>
    ensures { result ≡ or_absent fire_status absent answer }
{
    match answer {
        None => Err(absent),
        Some(Ok(fired)) => Ok(fired.number),
        Some(Err(Unfired::NoSuch)) => Err(Status::NoSuch),
        Some(Err(Unfired::NoChoice)) => Err(Status::NoChoice),
        Some(Err(Unfired::Several)) => Err(Status::Several),
        Some(Err(Unfired::Refused(refused))) => Err(of_plant(refused)),
    }
}

/// What a look at a plant answers to C; where there is no plant, why.
pub(crate) fn of_look<T: Copy>(found: Option<T>, absent: Status) -> Result<T, Status>
    ensures { result ≡ or_absent Ok absent found }
{
    match found {
        Some(found) => Ok(found),
        None => Err(absent),
    }
}

/// What is found; or that there is no such.
pub(crate) fn found<T: Copy>(found: Option<T>) -> Result<T, Status>
    ensures { result ≡ found_status found }
{
    of_look(found, Status::NoSuch)
}

/// What a fill answers to C: nothing more.
pub(crate) fn of_fill(answer: Option<bool>, absent: Status) -> Result<u64, Status>
    ensures { result ≡ or_absent fill_status absent answer }
{
    match answer {
        None => Err(absent),
        Some(true) => Ok(0),
        Some(false) => Err(Status::NoSuch),
    }
}

/// Tells how many bytes there are, and the bytes, if there is room.
pub(crate) fn tell_bytes(bytes: &[u8], into: &mut [u8], length: &mut usize) -> u32
    ensures told { IsToldRow bytes.now result into.old into.new length.new }
{
    let count = bytes.len();
    *length = count;
    if count > into.len() {
        return Status::NoRoom.number();
    }
    into[..count].copy_from_slice(bytes);
    Status::Done.number()
}
