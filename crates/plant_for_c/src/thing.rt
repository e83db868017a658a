//! What C holds, and what is asked of it.
ghost use Rattle.std.specs.Prelude.{◌≡◌, None, IsSomeAnd, length, slice_get};
ghost use Rattle.std.specs.Option.{option_map};
ghost use Rattle.plant_model.specs.Chosen.{choice_of};
ghost use Rattle.plant_model.specs.System.{digest_of, plant_of};
ghost use Rattle.plant_core.specs.Events.{IsFlush, IsSave, IsTrim};
ghost use Rattle.plant_core.specs.View.{sure_in};
ghost use Rattle.plant_for_c.specs.Fires.{IsFireByConnector, IsFireByNumber, told_count};
ghost use Rattle.plant_for_c.specs.Looks.{IsStandingOf};
ghost use Rattle.plant_for_c.specs.Puts.{IsPutOf};
ghost use Rattle.plant_for_c.specs.Things.{IsBoot, IsDeviceOf, IsFill, IsFormat, IsLook, IsStep, IsTextOf, absent_of, no_image_of};
ghost use Rattle.plant_for_c.specs.declared.thing.Thing.TheVariants.{Failed as FailedThing};

use crate::firing::{Unfired, fire_by_connector, fire_by_number};
use crate::images::{QueuedPlant, boot_image, format_image};
use crate::looking::{Standing, choice_at, count_choices, standing_of};
use crate::putting::put_state;
use crate::refusal::Refusal;
use crate::status::Status;
use petri_atom::AtomState;
use plant_core::{FiredAs, Refused, SavedTo};
use plant_model::{Choice, System};
use queued_disk::QueuedDisk;
use std::alloc::Global;
use std::mem;

/// What C holds behind a handle.
#[derive(Drop)]
pub enum Thing {
    /// The plant of a text.
    Text(&'static System),
    /// The bytes of a device, which are to be formatted or booted.
    Image(QueuedDisk),
    /// A durable plant that is open.
    Plant(QueuedPlant<'static>),
    /// What is left of an image or a plant whose device failed.
    Failed,
}

// Each call answers nothing, and changes nothing, if what is held is of another kind than it asks for.
impl Thing {
    /// Why no plant is held: the device failed, or it is something else.
    pub fn absent(&self) -> Status
        ensures { result ≡ absent_of self.now }
    {
        match self {
            Thing::Text(_) | Thing::Image(_) => Status::NoHandle,
            Thing::Plant(_) | Thing::Failed => Status::Broken,
        }
    }

    /// Why no image is held: it is a plant by now, the device failed, or it is something else.
    pub fn no_image(&self) -> Status
        ensures { result ≡ no_image_of self.now }
    {
        match self {
            Thing::Text(_) | Thing::Image(_) => Status::NoHandle,
            Thing::Plant(_) => Status::AlreadyOpen,
            Thing::Failed => Status::Broken,
        }
    }

    /// The plant of the text.
    pub fn text(&self) -> Option<&'static System>
        ensures { IsTextOf self.now result }
    {
        match self {
            Thing::Text(system) => Some(*system),
            _ => None,
        }
    }

    /// Takes over what the device of the image holds from this place on; or not, if it has not all these places.
    pub fn fill(&mut self, at: u64, bytes: &[u8]) -> Option<bool>
        ensures { IsFill self.old at bytes.now result self.new }
    {
        match self {
            Thing::Image(disk) => Some(disk.fill(at, bytes)),
            _ => None,
        }
    }

    /// Formats the image.
    pub fn format(
        &mut self,
        alloc: Global,
        system: &System,
        ring: u32,
    ) -> Option<Result<(), Status>>
        ensures { IsFormat (plant_of system.now) ring self.old result self.new }
    {
        match mem::replace(self, Thing::Failed) {
            Thing::Image(disk) => {
                let (disk, answer) = format_image(alloc, disk, system, ring);
                *self = Thing::Image(disk);
                Some(answer)
            }
            other => {
                *self = other;
                None
            }
        }
    }

    /// Boots the plant on the image. If that is refused the image is dropped.
    pub fn boot(&mut self, alloc: Global, system: &'static System) -> Option<Result<(), Refusal>>
        ensures { IsBoot (plant_of system.now) (digest_of system.now) self.old result self.new }
    {
        match mem::replace(self, Thing::Failed) {
            Thing::Image(disk) => match boot_image(alloc, disk, system) {
                Ok(plant) => {
                    *self = Thing::Plant(plant);
                    Some(Ok(()))
                }
                Err(refusal) => Some(Err(refusal)),
            },
            other => {
                *self = other;
                None
            }
        }
    }

    /// The device of the image or of the plant: what is still to be done to the real one.
    pub fn device(&self) -> Option<&QueuedDisk>
        ensures { IsDeviceOf self.now result }
    {
        match self {
            Thing::Image(disk) => Some(disk),
            Thing::Plant(plant) => Some(plant.device()),
            _ => None,
        }
    }

    /// Drops what is held: its device failed.
    pub fn fail(&mut self)
        ensures { self.new ≡ FailedThing }
    {
        *self = Thing::Failed;
    }

    /// How far the plant is.
    pub fn standing(&self) -> Option<Standing>
        ensures { IsLook self.now (result ≡ None) (λ plant v. IsSomeAnd result (IsStandingOf v)) }
    {
        match self {
            Thing::Plant(plant) => Some(standing_of(plant)),
            _ => None,
        }
    }

    /// How many choices it has now; the largest number stands for as many or more.
    pub fn count(&self) -> Option<u64>
        ensures { IsLook self.now (result ≡ None) (λ plant v. IsSomeAnd result (λ count. count ≡ told_count (length (sure_in plant v)))) }
    {
        match self {
            Thing::Plant(plant) => Some(count_choices(plant)),
            _ => None,
        }
    }

    /// The choice with the number, if it has so many now.
    pub fn choice(&self, number: u64) -> Option<Option<Choice>>
        ensures { IsLook self.now (result ≡ None) (λ plant v. IsSomeAnd result (λ found. option_map choice_of found ≡ slice_get (sure_in plant v) number)) }
    {
        match self {
            Thing::Plant(plant) => Some(choice_at(plant, number)),
            _ => None,
        }
    }

    /// The present state of the atom with the number, where the plant has it.
    pub fn state(&self, atom: u16) -> Option<Option<AtomState>>
        ensures { IsLook self.now (result ≡ None) (λ plant v. IsSomeAnd result (λ found. found ≡ slice_get v.present atom)) }
    {
        match self {
            Thing::Plant(plant) => Some(plant.look(atom)),
            _ => None,
        }
    }

    /// Fires the choice with the number.
    pub fn fire(&mut self, number: u64) -> Option<Result<FiredAs, Unfired>>
        ensures { IsStep self.old self.new (result ≡ None) (λ plant v w. IsSomeAnd result (λ answer. IsFireByNumber plant v number answer w)) }
    {
        match self {
            Thing::Plant(plant) => Some(fire_by_number(plant, number)),
            _ => None,
        }
    }

    /// Fires the only choice of the connector.
    pub fn fire_connector(&mut self, connector: u16) -> Option<Result<FiredAs, Unfired>>
        ensures { IsStep self.old self.new (result ≡ None) (λ plant v w. IsSomeAnd result (λ answer. IsFireByConnector plant v connector answer w)) }
    {
        match self {
            Thing::Plant(plant) => Some(fire_by_connector(plant, connector)),
            _ => None,
        }
    }

    /// Acknowledges all that was fired, once the steps are done.
    pub fn flush(&mut self) -> Option<Result<u64, Refused>>
        ensures { IsStep self.old self.new (result ≡ None) (λ plant v w. IsSomeAnd result (λ answer. IsFlush v answer w)) }
    {
        match self {
            Thing::Plant(plant) => Some(plant.flush()),
            _ => None,
        }
    }

    /// Stores the acknowledged state of each atom that is behind.
    pub fn save(&mut self) -> Option<Result<SavedTo, Refused>>
        ensures { IsStep self.old self.new (result ≡ None) (λ plant v w. IsSomeAnd result (λ answer. IsSave v answer w)) }
    {
        match self {
            Thing::Plant(plant) => Some(plant.save()),
            _ => None,
        }
    }

    /// Copies the present state of the atom and stores it.
    pub fn put(&mut self, atom: u16) -> Option<Result<u64, Refused>>
        ensures { IsStep self.old self.new (result ≡ None) (λ plant v w. IsSomeAnd result (λ answer. IsPutOf v atom answer w)) }
    {
        match self {
            Thing::Plant(plant) => Some(put_state(plant, atom)),
            _ => None,
        }
    }

    /// Drops the records that no restart needs.
    pub fn trim(&mut self) -> Option<Result<u64, Refused>>
        ensures { IsStep self.old self.new (result ≡ None) (λ plant v w. IsSomeAnd result (λ answer. IsTrim v answer w)) }
    {
        match self {
            Thing::Plant(plant) => Some(plant.trim()),
            _ => None,
        }
    }
}
