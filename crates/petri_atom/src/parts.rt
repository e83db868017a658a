//! Places, variables and ports of an atom.
ghost use Rattle.std.specs.Prelude.{◌≡◌, List, ℕ, nat_eq};
ghost use Rattle.petri_atom.specs.Name.{is_same_text};
ghost use Rattle.petri_atom.specs.Definition.{is_each_once, are_below};
ghost use Rattle.std.specs.List.{list_any};

use crate::name::Name;

/// How many ports an atom may have.
pub const MAX_PORTS: usize = 32;
/// How many transitions an atom may have.
pub const MAX_TRANSITIONS: usize = 128;
/// How many updates a transition may have.
pub const MAX_UPDATES: usize = 16;
/// How many words an expression may have.
pub const MAX_WORDS: usize = 64;

/// A place: its name, and whether it is marked at first.
#[derive(Drop)]
pub struct Place {
    /// The name of the place.
    pub name: Name,
    /// Whether it is marked at first.
    pub marked: bool,
}

/// A variable: its name and its first value.
#[derive(Drop)]
pub struct Variable {
    /// The name of the variable.
    pub name: Name,
    /// Its first value.
    pub first: i64,
}

/// A port: its name, and the numbers of the variables that it exports, in order.
#[derive(Drop)]
pub struct Port {
    /// The name of the port.
    pub name: Name,
    /// The numbers of the variables that it exports, in order.
    pub exports: Vec<u8>,
}

/// A part of an atom that has a name.
pub(crate) trait Named {
    ghost name_of: { Self → List ℕ };

    fn name(&self) -> &Name
        ensures { result.now ≡ name_of self.now };
}

impl Named for Place {
    ghost name_of = { λ place. place.name };

    fn name(&self) -> &Name {
        &self.name
    }
}

impl Named for Variable {
    ghost name_of = { λ variable. variable.name };

    fn name(&self) -> &Name {
        &self.name
    }
}

impl Named for Port {
    ghost name_of = { λ port. port.name };

    fn name(&self) -> &Name {
        &self.name
    }
}

/// Whether no two of the parts have the same name.
pub(crate) fn names_stand_once<T: Named>(parts: &[T]) -> bool
    ensures { result ≡ is_each_once (λ a b. is_same_text (T.name_of a) (T.name_of b)) parts.now }
{
    match parts {
        [] => true,
        [first, later @ ..] => !has_name(later, first.name()) && names_stand_once(later),
    }
}

/// Whether one of the parts has the name.
fn has_name<T: Named>(parts: &[T], name: &Name) -> bool
    ensures { result ≡ list_any (λ part. is_same_text (T.name_of part) name.now) parts.now }
{
    parts.iter().any(|part| part.name().same(name))
}

/// Whether no number stands in the list twice.
pub(crate) fn numbers_stand_once(numbers: &[u8]) -> bool
    ensures { result ≡ is_each_once nat_eq numbers.now }
{
    match numbers {
        [] => true,
        [first, later @ ..] => !has_number(later, *first) && numbers_stand_once(later),
    }
}

/// Whether the number is in the list.
fn has_number(numbers: &[u8], number: u8) -> bool
    ensures { result ≡ list_any (λ k. nat_eq k number) numbers.now }
{
    numbers.iter().any(|other| *other == number)
}

/// Whether each number of the list is below the bound.
pub(crate) fn are_below(bound: usize, numbers: &[u8]) -> bool
    ensures { result ≡ are_below bound numbers.now }
{
    numbers.iter().all(|number| usize::from(*number) < bound)
}
