//! By which plant atoms are named, and how many there are.
ghost use Rattle.std.specs.Prelude.{◌≡◌, ◌≤◌, option_copied, length, IfSome};
ghost use Rattle.image_inspection.specs.Inspected.{atoms_in, atoms_told, names_for, names_told};
ghost use Rattle.image_inspection.specs.Seen.{digest_of, plant_of};
ghost use Rattle.plant_image.specs.Faults.{is_for};
ghost use Rattle.record_codec.specs.declared.layout.TheConstants.{MOST_ATOMS};

use plant_model::System;
use record_codec::Identity;

/// How many atoms the image has slots for: what it says itself, and else as many as the plant has.
pub(crate) fn atoms_told(plant: Option<&System>, identity: &Option<Identity>) -> u16
    ensures atoms { result ≡ atoms_told (option_copied plant.entry) identity.now }
    ensures few { result ≤ MOST_ATOMS }
{
    match identity {
        Some(identity) => identity.atoms(),
        None => atoms_in(plant),
    }
}

/// A plant has no more atoms than an image has slots for.
pub(crate) fn keeps_its_rules(plant: Option<&System>)
    ensures { IfSome (option_copied plant.entry) (λ system. length (plant_of system).atoms ≤ MOST_ATOMS) }
{
    if let Some(system) = plant {
        system.keeps_its_rules();
    }
}

/// How many atoms the plant has; none without a plant.
fn atoms_in(plant: Option<&System>) -> u16
    ensures atoms { result ≡ atoms_in (option_copied plant.entry) }
    ensures few { result ≤ MOST_ATOMS }
{
    match plant {
        Some(system) => atom_count(system),
        None => 0,
    }
}

/// How many atoms the plant has.
pub(crate) fn atom_count(system: &System) -> u16
    ensures atoms { result ≡ length (plant_of system.now).atoms }
    ensures few { result ≤ MOST_ATOMS }
{
    system.keeps_its_rules();
    system.atoms().len() as u16
}

/// The plant by which atoms are named: the given one, if the image was formatted for it or does not say for which.
pub(crate) fn names_told<'s>(
    plant: Option<&'s System>,
    identity: &Option<Identity>,
) -> Option<&'s System>
    ensures { option_copied result ≡ names_told (option_copied plant.entry) identity.now }
{
    match plant {
        Some(system) => names_for(system, identity),
        None => None,
    }
}

/// The plant, if the image was formatted for it or does not say for which.
fn names_for<'s>(system: &'s System, identity: &Option<Identity>) -> Option<&'s System>
    ensures { option_copied result ≡ names_for system.now identity.now }
{
    match identity {
        Some(identity) if !is_for(system, identity) => None,
        _ => Some(system),
    }
}

/// Whether an image with this identity was formatted for the plant.
fn is_for(system: &System, identity: &Identity) -> bool
    ensures { result ≡ is_for (length (plant_of system.now).atoms) (digest_of system.now) identity.now }
{
    identity.atoms() == atom_count(system) && identity.digest() == system.digest()
}
