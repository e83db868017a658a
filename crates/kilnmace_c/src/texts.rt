//! A plant's text, and the parts of it by their names and numbers.
ghost use Rattle.std.specs.Prelude.{◌≡◌, ◌≢◌, ℕ, Option, length, slice_get};
ghost use Rattle.std.specs.Option.{option_map};
ghost use Rattle.plant_model.specs.Lookup.{atom_named, connector_named};
ghost use Rattle.plant_model.specs.System.{plant_of};
ghost use Rattle.kilnmace_c.specs.Calls.{IsHeldPlant, IsTaken, IsToldAs, IsTurnedAway};
ghost use Rattle.plant_for_c.specs.Names.{atom_name, connector_name, place_name, place_named, variable_name, variable_named};
ghost use Rattle.kilnmace_c.specs.Parts.{ArePartsOf, IsIn16Bits};
ghost use Rattle.kilnmace_c.specs.Images.{IsReadOf};
ghost use Rattle.kilnmace_c.specs.Told.{IsToldName, found_status};
ghost use Rattle.kilnmace_c.specs.declared.variable.TheConstants.{NOTHING, TEXT};

use crate::told::{Detail, found, tell, tell_bytes};
use crate::variable::{TEXT, Variable};
use plant_for_c::{
    Refusal, Status, Thing, atom_at, atom_name, connector_name, place_name, place_named,
    read_system, variable_name, variable_named,
};
use plant_model::System;
use std::alloc::Global;

/// How many parts a plant has, as C has it.
#[repr(C)]
#[derive(Clone, Copy)]
pub struct PlantParts {
    /// How many atoms, 64 at most.
    pub atoms: u16,
    /// How many connectors.
    pub connectors: u16,
}

/// How many parts an atom has, as C has it.
#[repr(C)]
#[derive(Clone, Copy)]
pub struct AtomParts {
    /// How many places, 64 at most.
    pub places: u16,
    /// How many variables, 16 at most.
    pub variables: u16,
}

/// Reads a plant's text into a variable that holds nothing.
#[unsafe(no_mangle)]
pub extern "C" fn kilnmace_raw_text_read(
    alloc: Global,
    text: &mut Variable,
    bytes: &[u8],
    detail: &mut Detail,
) -> u32
    ensures taken { IsTaken TEXT text.old.mark result (text.new ≡ text.old) }
    ensures read { text.old.mark ≡ NOTHING → text.new.mark ≡ TEXT → (result ≡ 0) × IsReadOf text.new.handle.held bytes.now }
    ensures refused { text.new.mark ≢ TEXT → text.new ≡ text.old }
{
    if let Err(status) = text.is_free(TEXT) {
        return detail.tell(Refusal::plain(status));
    }
    let system = match read_system(alloc, bytes) {
        Ok(system) => system,
        Err(refusal) => return detail.tell(refusal),
    };
    match Box::new(alloc, Thing::Text(system)) {
        Ok(thing) => {
            text.open(TEXT, thing);
            detail.tell(Refusal::plain(Status::Done))
        }
        Err(_) => detail.tell(Refusal::plain(Status::Memory)),
    }
}

/// How many atoms and connectors the plant has.
#[unsafe(no_mangle)]
pub extern "C" fn kilnmace_raw_parts(
    alloc: Global,
    text: &mut Variable,
    parts: &mut PlantParts,
) -> u32
    ensures same { (text.new.handle.held ≡ text.old.handle.held) × (text.new.mark ≡ text.old.mark) }
    ensures turned_away { IsTurnedAway TEXT text.old.mark result (parts.new ≡ parts.old) }
    ensures told { text.old.mark ≡ TEXT → IsHeldPlant text.old.handle.held
        (λ plant. (result ≡ 0) × (parts.new.atoms ≡ length plant.atoms) × (parts.new.connectors ≡ length plant.wires)) }
{
    match text.system(alloc) {
        Ok(system) => tell(Ok(parts_of(system)), parts),
        Err(status) => status.number(),
    }
}

/// How many parts a plant has.
fn parts_of(system: &System) -> PlantParts
    ensures atoms { result.atoms ≡ length (plant_of system.now).atoms }
    ensures connectors { result.connectors ≡ length (plant_of system.now).wires }
{
    system.keeps_its_rules();
    PlantParts {
        atoms: system.atoms().len() as u16,
        connectors: system.wires().len() as u16,
    }
}

/// How many places and variables an atom has.
#[unsafe(no_mangle)]
pub extern "C" fn kilnmace_raw_atom_parts(
    alloc: Global,
    text: &mut Variable,
    atom: u16,
    parts: &mut AtomParts,
) -> u32
    ensures same { (text.new.handle.held ≡ text.old.handle.held) × (text.new.mark ≡ text.old.mark) }
    ensures turned_away { IsTurnedAway TEXT text.old.mark result (parts.new ≡ parts.old) }
    ensures told { text.old.mark ≡ TEXT → IsHeldPlant text.old.handle.held
        (λ plant. (counts : Option AtomParts) × ArePartsOf (slice_get plant.atoms atom) counts × IsToldAs (found_status counts) result parts.old parts.new) }
{
    match text.system(alloc) {
        Ok(system) => tell(found(parts_of_atom(system, atom)), parts),
        Err(status) => status.number(),
    }
}

/// How many parts the atom with the number has, if it is there.
fn parts_of_atom(system: &System, atom: u16) -> Option<AtomParts>
    ensures { ArePartsOf (slice_get (plant_of system.now).atoms atom) result }
{
    match atom_at(system, atom) {
        Some(found) => Some(AtomParts {
            places: found.places().len() as u16,
            variables: found.variables().len() as u16,
        }),
        None => None,
    }
}

/// The number of the first atom with the name.
#[unsafe(no_mangle)]
pub extern "C" fn kilnmace_raw_atom(
    alloc: Global,
    text: &mut Variable,
    name: &[u8],
    atom: &mut u16,
) -> u32
    ensures same { (text.new.handle.held ≡ text.old.handle.held) × (text.new.mark ≡ text.old.mark) }
    ensures turned_away { IsTurnedAway TEXT text.old.mark result (atom.new ≡ atom.old) }
    ensures told { text.old.mark ≡ TEXT → IsHeldPlant text.old.handle.held (λ plant. IsToldAs (found_status (atom_named plant name.now)) result atom.old atom.new) }
{
    match text.system(alloc) {
        Ok(system) => tell(found(system.atom_named(name)), atom),
        Err(status) => status.number(),
    }
}

/// The number of the first connector with the name.
#[unsafe(no_mangle)]
pub extern "C" fn kilnmace_raw_connector(
    alloc: Global,
    text: &mut Variable,
    name: &[u8],
    connector: &mut u16,
) -> u32
    ensures same { (text.new.handle.held ≡ text.old.handle.held) × (text.new.mark ≡ text.old.mark) }
    ensures turned_away { IsTurnedAway TEXT text.old.mark result (connector.new ≡ connector.old) }
    ensures told { text.old.mark ≡ TEXT → IsHeldPlant text.old.handle.held (λ plant. IsToldAs (found_status (connector_named plant name.now)) result connector.old connector.new) }
{
    match text.system(alloc) {
        Ok(system) => tell(found(system.connector_named(name)), connector),
        Err(status) => status.number(),
    }
}

/// The number of the first place of the atom with the name.
#[unsafe(no_mangle)]
pub extern "C" fn kilnmace_raw_place(
    alloc: Global,
    text: &mut Variable,
    atom: u16,
    name: &[u8],
    place: &mut u16,
) -> u32
    ensures same { (text.new.handle.held ≡ text.old.handle.held) × (text.new.mark ≡ text.old.mark) }
    ensures turned_away { IsTurnedAway TEXT text.old.mark result (place.new ≡ place.old) }
    ensures told { text.old.mark ≡ TEXT → IsHeldPlant text.old.handle.held
        (λ plant. (index : Option ℕ) × IsIn16Bits (place_named plant atom name.now) index × IsToldAs (found_status index) result place.old place.new) }
{
    match text.system(alloc) {
        Ok(system) => tell(found(in_16_bits(place_named(system, atom, name))), place),
        Err(status) => status.number(),
    }
}

/// The number of the first variable of the atom with the name.
#[unsafe(no_mangle)]
pub extern "C" fn kilnmace_raw_variable(
    alloc: Global,
    text: &mut Variable,
    atom: u16,
    name: &[u8],
    variable: &mut u16,
) -> u32
    ensures same { (text.new.handle.held ≡ text.old.handle.held) × (text.new.mark ≡ text.old.mark) }
    ensures turned_away { IsTurnedAway TEXT text.old.mark result (variable.new ≡ variable.old) }
    ensures told { text.old.mark ≡ TEXT → IsHeldPlant text.old.handle.held
        (λ plant. (index : Option ℕ) × IsIn16Bits (variable_named plant atom name.now) index × IsToldAs (found_status index) result variable.old variable.new) }
{
    match text.system(alloc) {
        Ok(system) => tell(
            found(in_16_bits(variable_named(system, atom, name))),
            variable,
        ),
        Err(status) => status.number(),
    }
}

/// A number in 16 bits: an atom has fewer places and variables.
fn in_16_bits(found: Option<usize>) -> Option<u16>
    ensures { IsIn16Bits found result }
{
    match found {
        Some(number) if number < 1 << 16 => Some(number as u16),
        _ => None,
    }
}

/// The name of an atom.
#[unsafe(no_mangle)]
pub extern "C" fn kilnmace_raw_atom_name(
    alloc: Global,
    text: &mut Variable,
    atom: u16,
    name: &mut [u8],
    length: &mut usize,
) -> u32
    ensures same { (text.new.handle.held ≡ text.old.handle.held) × (text.new.mark ≡ text.old.mark) }
    ensures turned_away { IsTurnedAway TEXT text.old.mark result ((name.new ≡ name.old) × (length.new ≡ length.old)) }
    ensures told { text.old.mark ≡ TEXT → IsHeldPlant text.old.handle.held (λ plant. IsToldName (atom_name plant atom) result name.old name.new length.old length.new) }
{
    match text.system(alloc) {
        Ok(system) => tell_name(atom_name(system, atom), name, length),
        Err(status) => status.number(),
    }
}

/// The name of a connector.
#[unsafe(no_mangle)]
pub extern "C" fn kilnmace_raw_connector_name(
    alloc: Global,
    text: &mut Variable,
    connector: u16,
    name: &mut [u8],
    length: &mut usize,
) -> u32
    ensures same { (text.new.handle.held ≡ text.old.handle.held) × (text.new.mark ≡ text.old.mark) }
    ensures turned_away { IsTurnedAway TEXT text.old.mark result ((name.new ≡ name.old) × (length.new ≡ length.old)) }
    ensures told { text.old.mark ≡ TEXT → IsHeldPlant text.old.handle.held (λ plant. IsToldName (connector_name plant connector) result name.old name.new length.old length.new) }
{
    match text.system(alloc) {
        Ok(system) => tell_name(connector_name(system, connector), name, length),
        Err(status) => status.number(),
    }
}

/// The name of a place of an atom.
#[unsafe(no_mangle)]
pub extern "C" fn kilnmace_raw_place_name(
    alloc: Global,
    text: &mut Variable,
    atom: u16,
    place: u16,
    name: &mut [u8],
    length: &mut usize,
) -> u32
    ensures same { (text.new.handle.held ≡ text.old.handle.held) × (text.new.mark ≡ text.old.mark) }
    ensures turned_away { IsTurnedAway TEXT text.old.mark result ((name.new ≡ name.old) × (length.new ≡ length.old)) }
    ensures told { text.old.mark ≡ TEXT → IsHeldPlant text.old.handle.held (λ plant. IsToldName (place_name plant atom place) result name.old name.new length.old length.new) }
{
    match text.system(alloc) {
        Ok(system) => tell_name(place_name(system, atom, place), name, length),
        Err(status) => status.number(),
    }
}

/// The name of a variable of an atom.
#[unsafe(no_mangle)]
pub extern "C" fn kilnmace_raw_variable_name(
    alloc: Global,
    text: &mut Variable,
    atom: u16,
    variable: u16,
    name: &mut [u8],
    length: &mut usize,
) -> u32
    ensures same { (text.new.handle.held ≡ text.old.handle.held) × (text.new.mark ≡ text.old.mark) }
    ensures turned_away { IsTurnedAway TEXT text.old.mark result ((name.new ≡ name.old) × (length.new ≡ length.old)) }
    ensures told { text.old.mark ≡ TEXT → IsHeldPlant text.old.handle.held (λ plant. IsToldName (variable_name plant atom variable) result name.old name.new length.old length.new) }
{
    match text.system(alloc) {
        Ok(system) => tell_name(variable_name(system, atom, variable), name, length),
        Err(status) => status.number(),
    }
}

/// Tells a name, if it is there.
fn tell_name(found: Option<&[u8]>, name: &mut [u8], length: &mut usize) -> u32
    ensures { IsToldName (option_map (λ name. name.now) found.entry) result name.old name.new length.old length.new }
{
    match found {
        Some(found) => tell_bytes(found, name, length),
        None => Status::NoSuch.number(),
    }
}
