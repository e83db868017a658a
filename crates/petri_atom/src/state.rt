//! Local states of atoms, and the values that a firing delivers to one.
ghost use Rattle.std.specs.Prelude.{◌≡◌, ◌≤◌, ◌<◌, ◌^◌, ◌↔◌, ℕ, None, take, map, IsTrue, length, replicate, slice_set};
ghost use Rattle.petri_atom.specs.Local.{has, set_below, value_in, IsZeroFrom, mask_of, values_of, delivered_value, given};
ghost use Rattle.petri_atom.specs.declared.state.TheConstants.{MAX_EXPORTS};
ghost use Rattle.petri_atom.specs.Definition.{delivered_to, is_marked_first};
ghost use Rattle.std.specs.Option.{option_map_or};

use crate::expression::Valuation;
use crate::parts::{Place, Variable};
use std::marker::Model;

/// How many places an atom may have: each is a bit of a marking.
pub const MAX_PLACES: usize = 64;
/// How many variables an atom may have.
pub const MAX_VARIABLES: usize = 16;
/// How many variables a port may export.
pub const MAX_EXPORTS: usize = 4;

/// The state of one atom: the marked places, bit k for place k, and the values of its variables.
#[derive(Drop)]
pub struct AtomState {
    places: u64,
    used: u8,
    vars: [i64; MAX_VARIABLES],
}

impl Model for AtomState {
    ghost use Rattle.std.specs.Prelude.{◌≤◌, take};
    ghost use Rattle.petri_atom.specs.Local.{Local, IsZeroFrom};
    ghost use Rattle.petri_atom.specs.declared.state.TheConstants.{MAX_VARIABLES};

    ghost Value = { Local };

    ghost view = { λ s. record { marking = s.places; values = take s.used s.vars } };

    ghost invariant = { λ s. (s.used ≤ MAX_VARIABLES) × IsZeroFrom s.used s.vars };
}

/// What a firing delivers to an atom: for each exported variable of its port, in their order, a value or none.
///
/// It is kept as a mask, bit k for exported variable k, and as the values, 0 if there is none, so that equal deliveries are
/// equal values.
#[derive(Clone, Copy, Debug, PartialEq, Eq)]
pub struct Delivered {
    mask: u8,
    values: [i64; MAX_EXPORTS],
}

impl Model for Delivered {
    ghost use Rattle.petri_atom.specs.Local.{Row, row_in, mask_of, values_of, AreOfRow};

    ghost Value = { Row };

    ghost view = { λ d. row_in d.mask d.values };

    ghost invariant = { λ d. AreOfRow d.mask d.values };

    ghost inverse = { λ row. record { mask = mask_of row; values = values_of row } };
}

/// The word whose bits are the places that are marked at first.
fn first_marking(places: &[Place]) -> u64
    requires { length places.now ≤ MAX_PLACES }
    ensures { result ≡ set_below (length places.now) (is_marked_first places.now) }
{
    let mut word = 0;
    for (number, place) in places.iter().enumerate() {
        word |= u64::from(place.marked) << number;
    }
    word
}

/// The variables' first values, and zeros after them.
fn first_values(variables: &[Variable]) -> [i64; MAX_VARIABLES]
    requires { length variables.now ≤ MAX_VARIABLES }
    ensures values { take (length variables.now) result ≡ map (λ v. v.first) variables.now }
    ensures zeros { IsZeroFrom (length variables.now) result }
{
    let mut values = [0; MAX_VARIABLES];
    for (number, variable) in variables.iter().enumerate() {
        values[number] = variable.first;
    }
    values
}

/// The values, and zeros after them.
fn padded(values: &[i64]) -> [i64; MAX_VARIABLES]
    requires { length values.now ≤ MAX_VARIABLES }
    ensures values { take (length values.now) result ≡ values.now }
    ensures zeros { IsZeroFrom (length values.now) result }
{
    let mut all = [0; MAX_VARIABLES];
    all[..values.len()].copy_from_slice(values);
    all
}

impl AtomState {
    /// The first state of an atom with these places and variables.
    pub(crate) fn first(places: &[Place], variables: &[Variable]) -> Self
        requires places { length places.now ≤ MAX_PLACES }
        requires variables { length variables.now ≤ MAX_VARIABLES }
        ensures marking { result.marking ≡ set_below (length places.now) (is_marked_first places.now) }
        ensures values { result.values ≡ map (λ v. v.first) variables.now }
    {
        let values = first_values(variables);
        AtomState::of(first_marking(places), variables.len() as u8, values)
    }

    /// The state with these marked places and the first `used` of `vars` as values.
    pub fn of(places: u64, used: u8, vars: [i64; MAX_VARIABLES]) -> Self
        requires at_most { used ≤ MAX_VARIABLES }
        requires zeros { IsZeroFrom used vars }
        ensures marking { result.marking ≡ places }
        ensures values { result.values ≡ take used vars }
    {
        AtomState { places, used, vars }
    }

    /// The state with these marked places, bit k for place k, and these values, one for each variable.
    pub fn with(places: u64, values: &[i64]) -> Self
        requires { length values.now ≤ MAX_VARIABLES }
        ensures marking { result.marking ≡ places }
        ensures values { result.values ≡ values.now }
    {
        AtomState::of(places, values.len() as u8, padded(values))
    }

    /// A second state that is equal to this one.
    pub fn copy(&self) -> Self
        ensures { result ≡ self.now }
    {
        AtomState {
            places: self.places,
            used: self.used,
            vars: self.vars,
        }
    }

    /// Makes the state equal to the other one, with no third copy between them.
    pub fn copy_from(&mut self, other: &AtomState)
        ensures { self.new ≡ other.now }
    {
        self.places = other.places;
        self.used = other.used;
        self.vars = other.vars;
    }

    /// The marked places, bit k for place k.
    pub fn places(&self) -> u64
        ensures { result ≡ self.now.marking }
    {
        self.places
    }

    /// How many variables there are.
    pub fn used(&self) -> u8
        ensures { result ≡ length self.now.values }
    {
        self.used
    }

    /// The values of the variables, in the variables' order.
    pub fn values(&self) -> &[i64]
        ensures { result.now ≡ self.now.values }
    {
        &self.vars[..usize::from(self.used)]
    }

    /// The values of the variables, and zeros after them.
    pub fn variables(&self) -> &[i64; MAX_VARIABLES]
        ensures values { (k : ℕ) → value_in result.now k ≡ value_in self.now.values k }
        ensures length { length result.now ≡ MAX_VARIABLES }
    {
        &self.vars
    }

    /// The value of one variable, 0 of one that is not there.
    pub fn value(&self, variable: u8) -> i64
        ensures { result ≡ value_in self.now.values variable }
    {
        if variable < self.used {
            self.vars[usize::from(variable)]
        } else {
            0
        }
    }

    /// Whether the two states are equal.
    pub fn same(&self, other: &AtomState) -> bool
        ensures { IsTrue result ↔ (self.now ≡ other.now) }
    {
        self.places == other.places && self.values() == other.values()
    }

    /// Gives a variable a value; one that is not there is passed over.
    pub(crate) fn assign(&mut self, variable: u8, value: i64)
        ensures marking { self.new.marking ≡ self.old.marking }
        ensures values { self.new.values ≡ slice_set self.old.values variable value }
    {
        if variable < self.used {
            self.vars[usize::from(variable)] = value;
        }
    }

    /// Assigns what is delivered to the exported variables.
    pub(crate) fn deliver(&mut self, exports: &[u8], delivered: &Delivered)
        ensures marking { self.new.marking ≡ self.old.marking }
        ensures values { self.new.values ≡ delivered_to delivered.now 0 exports.now self.old.values }
    {
        for (export, variable) in exports.iter().enumerate() {
            self.assign_some(*variable, delivered.value(export));
        }
    }

    /// Gives a variable a value, if there is one.
    fn assign_some(&mut self, variable: u8, value: Option<i64>)
        ensures marking { self.new.marking ≡ self.old.marking }
        ensures values { self.new.values ≡ option_map_or (slice_set self.old.values variable) value self.old.values }
    {
        if let Some(value) = value {
            self.assign(variable, value);
        }
    }

    /// Puts another marking in the place of the present one.
    pub(crate) fn mark(&mut self, places: u64)
        ensures marking { self.new.marking ≡ places }
        ensures values { self.new.values ≡ self.old.values }
    {
        self.places = places;
    }
}

/// The word whose bits are the variables that get a value.
fn delivered_mask(values: &[Option<i64>; MAX_EXPORTS]) -> u8
    ensures { result ≡ mask_of values.now }
{
    let mut mask = 0;
    for number in 0..MAX_EXPORTS {
        mask |= u8::from(values[number].is_some()) << number;
    }
    mask
}

/// The values, 0 if there is none.
fn delivered_values(values: &[Option<i64>; MAX_EXPORTS]) -> [i64; MAX_EXPORTS]
    ensures values { result ≡ values_of values.now }
    ensures four { length values.now ≡ MAX_EXPORTS }
{
    let mut all = [0; MAX_EXPORTS];
    for number in 0..MAX_EXPORTS {
        all[number] = values[number].unwrap_or(0);
    }
    all
}

impl Delivered {
    /// What is delivered if each exported variable gets a value or none.
    pub fn of(values: [Option<i64>; MAX_EXPORTS]) -> Self
        ensures { result ≡ values }
    {
        Delivered {
            mask: delivered_mask(&values),
            values: delivered_values(&values),
        }
    }

    /// Whether nothing is delivered.
    pub(crate) fn is_empty(&self) -> bool
        ensures { IsTrue result ↔ (self.now ≡ replicate MAX_EXPORTS None) }
    {
        self.mask == 0
    }

    /// Takes back all that is delivered. Most rows have nothing, and are only looked at.
    pub fn clear(&mut self)
        ensures { self.new ≡ replicate MAX_EXPORTS None }
    {
        if self.mask != 0 {
            self.mask = 0;
            self.values = [0; MAX_EXPORTS];
        }
    }

    /// What each exported variable gets.
    pub fn row(&self) -> [Option<i64>; MAX_EXPORTS]
        ensures { result ≡ self.now }
    {
        let _ = &self.mask;
        [self.value(0), self.value(1), self.value(2), self.value(3)]
    }

    /// Gives the exported variable with this number the value, unless it has one; a number that no port exports is passed over.
    pub fn give(&mut self, export: u8, value: i64)
        ensures { self.new ≡ given export value self.old }
    {
        let _ = &self.mask;
        if usize::from(export) < MAX_EXPORTS {
            self.give_at(export, 1 << export, value);
        }
    }

    /// The same, of a number that a port may export, with its bit in a mask.
    pub fn give_at(&mut self, export: u8, bit: u8, value: i64)
        requires export { export < MAX_EXPORTS }
        requires bit { bit ≡ 2 ^ export }
        ensures { self.new ≡ given export value self.old }
    {
        if self.mask & bit == 0 {
            self.mask |= bit;
            self.values[usize::from(export)] = value;
        }
    }

    /// What is delivered to the exported variable with this number, if anything is.
    pub fn value(&self, export: usize) -> Option<i64>
        ensures { result ≡ delivered_value self.now export }
    {
        match self.values.get(export) {
            Some(value) if has_bit(self.mask, export) => Some(*value),
            _ => None,
        }
    }
}

/// Whether the bit of the mask is set.
fn has_bit(mask: u8, bit: usize) -> bool
    ensures { result ≡ has mask bit }
{
    bit < 8 && (mask >> bit) & 1 == 1
}

impl Valuation<u8> for AtomState {
    ghost use Rattle.petri_atom.specs.Local.{value_in};

    ghost value_at = { λ s v. value_in s.values v };

    fn value_at(&self, variable: &u8) -> i64 {
        self.value(*variable)
    }
}
