//! Why a state does not offer a transition.
ghost use Rattle.std.specs.Prelude.{◌≡◌};
ghost use Rattle.petri_atom.specs.Local.{has, is_in};
ghost use Rattle.part_text.specs.Seen.{transition_of};
ghost use Rattle.blocked_text.specs.Hindrance.{first_marked, first_unmarked, hindrance_of};

use petri_atom::{AtomState, MAX_PLACES, Transition};

/// Why a state does not offer a transition.
#[derive(Clone, Copy, Debug, PartialEq, Eq)]
pub enum Hindrance {
    /// This source is not marked.
    Unmarked(u8),
    /// This target is marked, and is no source.
    Marked(u8),
    /// The value of the guard is 0.
    ZeroGuard,
}

/// Why the state does not offer the transition: the first source that is not marked, or else the first target that is marked and
/// is no source, or else that its guard is 0. `None` if the state offers it.
pub fn hindrance_of(transition: &Transition, state: &AtomState) -> Option<Hindrance>
    ensures { result ≡ hindrance_of state.now (transition_of transition.now) }
{
    if let Some(place) = first_unmarked(state.places(), transition.sources()) {
        return Some(Hindrance::Unmarked(place));
    }
    if let Some(place) = first_marked(state.places(), transition.targets(), transition.sources()) {
        return Some(Hindrance::Marked(place));
    }
    if transition.guard().value(state) == 0 {
        Some(Hindrance::ZeroGuard)
    } else {
        None
    }
}

/// The first of the places that is not marked.
fn first_unmarked(marking: u64, sources: &[u8]) -> Option<u8>
    ensures { result ≡ first_unmarked marking sources.now }
{
    sources
        .iter()
        .copied()
        .find(|place| !is_marked(marking, *place))
}

/// The first of the targets that is marked and is no source.
fn first_marked(marking: u64, targets: &[u8], sources: &[u8]) -> Option<u8>
    ensures { result ≡ first_marked marking targets.now sources.now }
{
    targets.iter().copied().find(|place| is_marked(marking, *place) && !is_in(sources, *place))
}

/// Whether the place is marked.
fn is_marked(marking: u64, place: u8) -> bool
    ensures { result ≡ has marking place }
{
    usize::from(place) < MAX_PLACES && (marking >> place) & 1 == 1
}

/// Whether the place is in the list.
fn is_in(places: &[u8], place: u8) -> bool
    ensures { result ≡ is_in places.now place }
{
    places.iter().any(|other| *other == place)
}
