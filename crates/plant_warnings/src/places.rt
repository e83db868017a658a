//! The tests of the places of an atom.
ghost use Rattle.std.specs.Prelude.{◌≡◌};
ghost use Rattle.std.specs.List.{list_any};
ghost use Rattle.petri_atom.specs.Atom.{definition_of};
ghost use Rattle.petri_atom.specs.Local.{is_in};
ghost use Rattle.petri_atom.specs.Transition.{transition_of};
ghost use Rattle.plant_warnings.specs.Places.{is_never_marked, is_target};

use petri_atom::{Atom, Place, Transition};

/// Whether the place with this number is neither marked at first nor a target of a transition.
pub(crate) fn is_never_marked(atom: &Atom, number: usize, place: &Place) -> bool
    ensures { result ≡ is_never_marked (definition_of atom.now) number place.now }
{
    !place.marked && !is_target(atom, number)
}

/// Whether some transition of the atom has the place with this number as a target.
fn is_target(atom: &Atom, place: usize) -> bool
    ensures { result ≡ is_target (definition_of atom.now) place }
{
    is_target_of_one(atom.transitions(), place)
}

/// Whether one of the transitions has the place with this number as a target.
fn is_target_of_one(transitions: &[Transition], place: usize) -> bool
    ensures { result ≡ list_any (λ t. is_in (transition_of t).targets place) transitions.now }
{
    transitions
        .iter()
        .any(|transition| is_in(transition.targets(), place))
}

/// Whether the number is in the list.
fn is_in(numbers: &[u8], number: usize) -> bool
    ensures { result ≡ is_in numbers.now number }
{
    numbers.iter().any(|other| usize::from(*other) == number)
}
