//! The rules that the parts of an atom keep, as tests.
ghost use Rattle.std.specs.Prelude.{◌≡◌, [], map};
ghost use Rattle.std.specs.List.{list_all};
ghost use Rattle.petri_atom.specs.Definition.{is_small_transition, exports_few, exports_once, exports_known, has_each_place_once, has_known_numbers_in, has_source_and_target, is_within_limits, has_each_once, has_known_numbers, fault_of};
ghost use Rattle.petri_atom.specs.Transition.{transition_of};
ghost use Rattle.petri_atom.specs.Parts.{port_of, definition_by};

use crate::fault::AtomFault;
use crate::parts::{
    MAX_PORTS, MAX_TRANSITIONS, Place, Port, Variable, are_below, names_stand_once,
    numbers_stand_once,
};
use crate::state::{MAX_EXPORTS, MAX_PLACES, MAX_VARIABLES};
use crate::transition::Transition;

/// The first kind of rule that the parts break, if they break one.
pub(crate) fn fault_of(
    places: &[Place],
    variables: &[Variable],
    ports: &[Port],
    transitions: &[Transition],
) -> Option<AtomFault>
    ensures { result ≡ fault_of (definition_by [] places.now variables.now ports.now transitions.now) }
{
    if !is_within_limits(places, variables, ports, transitions) {
        Some(AtomFault::Limit)
    } else if !has_each_once(places, variables, ports, transitions) {
        Some(AtomFault::Twice)
    } else if !has_known_numbers(places, variables, ports, transitions) {
        Some(AtomFault::Unknown)
    } else if !has_sources_and_targets(transitions) {
        Some(AtomFault::NoPlace)
    } else {
        None
    }
}

/// Whether the parts are within the limits of their numbers.
fn is_within_limits(
    places: &[Place],
    variables: &[Variable],
    ports: &[Port],
    transitions: &[Transition],
) -> bool
    ensures { result ≡ is_within_limits (definition_by [] places.now variables.now ports.now transitions.now) }
{
    (places.len() <= MAX_PLACES)
        & (variables.len() <= MAX_VARIABLES)
        & (ports.len() <= MAX_PORTS)
        & (transitions.len() <= MAX_TRANSITIONS)
        & export_few(ports)
        & are_small(transitions)
}

/// Whether each port exports as many variables as one may.
fn export_few(ports: &[Port]) -> bool
    ensures { result ≡ list_all (λ p. exports_few (port_of p)) ports.now }
{
    ports.iter().all(|port| port.exports.len() <= MAX_EXPORTS)
}

/// Whether each transition is within the limits of updates and words.
fn are_small(transitions: &[Transition]) -> bool
    ensures { result ≡ list_all (λ t. is_small_transition (transition_of t)) transitions.now }
{
    transitions.iter().all(|transition| transition.is_small())
}

/// Whether names, exported variables and places stand once where they are listed.
fn has_each_once(
    places: &[Place],
    variables: &[Variable],
    ports: &[Port],
    transitions: &[Transition],
) -> bool
    ensures { result ≡ has_each_once (definition_by [] places.now variables.now ports.now transitions.now) }
{
    names_stand_once(places)
        & names_stand_once(variables)
        & names_stand_once(ports)
        & export_once(ports)
        & have_each_place_once(transitions)
}

/// Whether no port exports a variable twice.
fn export_once(ports: &[Port]) -> bool
    ensures { result ≡ list_all (λ p. exports_once (port_of p)) ports.now }
{
    ports.iter().all(|port| numbers_stand_once(&port.exports))
}

/// Whether no transition has a place twice in one of its lists.
fn have_each_place_once(transitions: &[Transition]) -> bool
    ensures { result ≡ list_all (λ t. has_each_place_once (transition_of t)) transitions.now }
{
    transitions
        .iter()
        .all(|transition| transition.has_each_place_once())
}

/// Whether each number in the parts is of a part that is there.
fn has_known_numbers(
    places: &[Place],
    variables: &[Variable],
    ports: &[Port],
    transitions: &[Transition],
) -> bool
    ensures { result ≡ has_known_numbers (definition_by [] places.now variables.now ports.now transitions.now) }
{
    export_known(variables.len(), ports)
        & have_known_numbers(ports.len(), places.len(), variables.len(), transitions)
}

/// Whether each port exports variables below the bound alone.
fn export_known(variables: usize, ports: &[Port]) -> bool
    ensures { result ≡ list_all (λ p. exports_known variables (port_of p)) ports.now }
{
    ports.iter().all(|port| are_below(variables, &port.exports))
}

/// Whether each transition names ports, places and variables below the bounds alone.
fn have_known_numbers(
    ports: usize,
    places: usize,
    variables: usize,
    transitions: &[Transition],
) -> bool
    ensures { result ≡ list_all (λ t. has_known_numbers_in ports places variables (transition_of t)) transitions.now }
{
    transitions.iter().all(|transition| transition.has_known_numbers(ports, places, variables))
}

/// Whether each transition has a source and a target.
fn has_sources_and_targets(transitions: &[Transition]) -> bool
    ensures { result ≡ list_all has_source_and_target (map transition_of transitions.now) }
{
    each_has_source_and_target(transitions)
}

/// The same, of the transitions as they stand in memory.
fn each_has_source_and_target(transitions: &[Transition]) -> bool
    ensures { result ≡ list_all (λ t. has_source_and_target (transition_of t)) transitions.now }
{
    transitions
        .iter()
        .all(|transition| transition.has_source_and_target())
}
