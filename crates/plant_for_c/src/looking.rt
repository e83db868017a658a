//! What a plant has and where it stands, for C.
ghost use Rattle.std.specs.Prelude.{◌≡◌, length, slice_get};
ghost use Rattle.std.specs.Option.{option_map};
ghost use Rattle.plant_model.specs.Chosen.{choice_of};
ghost use Rattle.plant_core.specs.Plants.{definition_of, view_of};
ghost use Rattle.plant_core.specs.View.{sure_in};
ghost use Rattle.plant_for_c.specs.Fires.{told_count};
ghost use Rattle.plant_for_c.specs.Looks.{IsStandingOf};

use disk_model::Disk;
use plant_core::Plant;
use plant_model::Choice;

/// How far a plant is, as C has it.
#[repr(C)]
#[derive(Clone, Copy)]
pub struct Standing {
    /// The number of the last move that was fired, and 0 if none was.
    pub fired: u64,
    /// The number of the last move that is acknowledged.
    pub acked: u64,
    /// The number of the first record that is kept, or of the next.
    pub base: u64,
    /// For how many records the image has room.
    pub ring: u32,
}

/// How far the plant is.
pub fn standing_of<D: Disk>(plant: &Plant<'_, D>) -> Standing
    ensures { IsStandingOf (view_of plant.now) result }
{
    let front = plant.front();
    Standing {
        fired: front.fired,
        acked: front.acked,
        base: front.base,
        ring: plant.ring(),
    }
}

/// How many choices the plant has now; the largest number stands for as many or more.
pub fn count_choices<D: Disk>(plant: &Plant<'_, D>) -> u64
    ensures { result ≡ told_count (length (sure_in (definition_of plant.now) (view_of plant.now))) }
{
    let count = plant.count();
    if count < u128::from(u64::MAX) {
        count as u64
    } else {
        u64::MAX
    }
}

/// The choice with the number, if the plant has so many now.
pub fn choice_at<D: Disk>(plant: &Plant<'_, D>, number: u64) -> Option<Choice>
    ensures { option_map choice_of result ≡ slice_get (sure_in (definition_of plant.now) (view_of plant.now)) number }
{
    let place = u128::from(number);
    if place < plant.count() {
        Some(plant.nth(place))
    } else {
        None
    }
}
