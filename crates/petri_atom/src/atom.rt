//! Atoms: what they are made of, which transitions a state offers, and what firing one leaves.
ghost use Rattle.std.specs.Prelude.{◌≡◌, ◌<◌, ◌≤◌, ◌↔◌, IsTrue, IfOk, IfErr, None, map, length};
ghost use Rattle.petri_atom.specs.Definition.{is_well_formed, fault_of, IsFaultOf};
ghost use Rattle.petri_atom.specs.Parts.{port_of, definition_by, set_of_port, sets_below};
ghost use Rattle.petri_atom.specs.Arcs.{AreArcsOf, AreExported};
ghost use Rattle.petri_atom.specs.StraightCode.{AreCodesOf};
ghost use Rattle.petri_atom.specs.Groups.{AreGroupsOf, turned_set, unguarded_set};
ghost use Rattle.petri_atom.specs.Behind.{AreBehind};
ghost use Rattle.petri_atom.specs.Transition.{transition_of};
ghost use Rattle.petri_atom.specs.declared.parts.TheConstants.{MAX_PORTS, MAX_TRANSITIONS};

use crate::arcs::{Arcs, arcs_of};
use crate::behind::{Behind, all_behind};
use crate::fault::AtomFault;
use crate::groups::{Group, groups_of};
use crate::marking::is_within;
use crate::name::Name;
use crate::parts::{MAX_PORTS, MAX_TRANSITIONS, Place, Port, Variable};
use crate::rules;
use crate::same::{Same, all_same};
use crate::state::{AtomState, Delivered};
use crate::transition::Transition;
use crate::transition_code::{TransitionCode, codes_of};
use std::alloc::{AllocError, Global};

/// An atom: a one-safe Petri net with variables and ports.
///
/// Its places, variables, ports and transitions are numbered from 0 in the order of their lists. It keeps each rule of
/// an atom, so that what can be asked of it cannot fail. What a step needs of a transition stands in a small row too, so that near caches
/// have room for those of a large plant. For each port it has the set of the port's transitions, so that what
/// a set of transitions has of a port is one operation. Transitions that ask the same of a
/// marking are a group, so that it is tested once for all of them; to find all that is offered, no guard that is a number other than 0 is looked at.
/// Guards and updates are kept as straight code too, by which a step judges and runs them. Guards that are the same, or the same but for `!`
/// before them, are judged once.
/// For each transition it has what a firing of it can change, so that a step asks no more than that.
#[derive(Drop)]
pub struct Atom {
    name: Name,
    places: Vec<Place>,
    variables: Vec<Variable>,
    ports: Vec<Port>,
    pub(crate) transitions: Vec<Transition>,
    masks: Vec<u128>,
    pub(crate) groups: Vec<Group>,
    pub(crate) unguarded: u128,
    pub(crate) turned: u128,
    pub(crate) codes: Vec<TransitionCode>,
    pub(crate) behind: Vec<Behind>,
    pub(crate) arcs: Vec<Arcs>,
    ghost well_formed: { IsTrue (is_well_formed (definition_by name places.items variables.items ports.items transitions.items)) },
    ghost masked: { masks.items ≡ sets_below (length ports.items) (map transition_of transitions.items) },
    ghost grouped: { AreGroupsOf groups.items (map transition_of transitions.items) },
    ghost unguarded_bits: { unguarded ≡ unguarded_set (map transition_of transitions.items) },
    ghost turned_bits: { turned ≡ turned_set (map transition_of transitions.items) },
    ghost coded: { AreCodesOf codes.items (map transition_of transitions.items) },
    ghost told: { AreBehind (map port_of ports.items) (map transition_of transitions.items) behind.items },
    ghost drawn: { AreArcsOf arcs.items (map transition_of transitions.items) },
    ghost exported: { AreExported (map port_of ports.items) arcs.items (map transition_of transitions.items) },
}

impl Atom {
    ghost use Rattle.petri_atom.specs.Atom.{definition_of};
    ghost use Rattle.petri_atom.specs.Definition.{Fits, exports_of, offers_number, fired, initial, port_name, variable_name};

    /// The atom that is made of these parts, or the rule that they break first.
    pub fn new(
        alloc: Global,
        name: Name,
        places: Vec<Place>,
        variables: Vec<Variable>,
        ports: Vec<Port>,
        transitions: Vec<Transition>,
    ) -> Result<Self, AtomFault>
        ensures made { IfOk result (λ atom. definition_of atom ≡ definition_by name places.items variables.items ports.items transitions.items) }
        ensures sound { IfOk result (λ _. fault_of (definition_by name places.items variables.items ports.items transitions.items) ≡ None) }
        ensures fault { IfErr result (λ fault. IsFaultOf fault (fault_of (definition_by name places.items variables.items ports.items transitions.items))) }
    {
        if let Some(fault) = rules::fault_of(&places, &variables, &ports, &transitions) {
            return Err(fault);
        }
        let masks = masks_by_port(alloc, ports.len(), &transitions)?;
        let groups = groups_of(alloc, &transitions)?;
        let unguarded = mask_of_unguarded(&transitions);
        let turned = mask_of_turned(&transitions);
        let codes = codes_of(alloc, &transitions)?;
        let behind = all_behind(alloc, &ports, &transitions)?;
        let arcs = arcs_of(alloc, &ports, &transitions)?;
        Ok(Atom {
            name,
            places,
            variables,
            ports,
            transitions,
            masks,
            groups,
            unguarded,
            turned,
            codes,
            behind,
            arcs,
        })
    }

    /// The first state: the places that are marked at first, and the variables' first values.
    pub fn initial(&self) -> AtomState
        ensures initial { result ≡ initial (definition_of self.now) }
        ensures fits { Fits (definition_of self.now) result }
    {
        AtomState::first(&self.places, &self.variables)
    }

    /// Whether the state is one of this atom: it has as many values as the atom has variables, and marks no place that the atom hasn't.
    pub fn fits(&self, state: &AtomState) -> bool
        ensures { IsTrue result ↔ Fits (definition_of self.now) state.now }
    {
        usize::from(state.used()) == self.variables.len()
            && is_within(state.places(), self.places.len())
    }

    /// Whether the two atoms have the same definition: the same name, and the same parts in the same order.
    pub fn same(&self, other: &Atom) -> bool
        ensures { IsTrue result ↔ (definition_of self.now ≡ definition_of other.now) }
    {
        self.name.same(&other.name)
            & all_same(&self.places, &other.places)
            & all_same(&self.variables, &other.variables)
            & all_same(&self.ports, &other.ports)
            & all_same(&self.transitions, &other.transitions)
    }

    /// The name of the atom.
    pub fn name(&self) -> &Name
        ensures { result.now ≡ (definition_of self.now).name }
    {
        &self.name
    }

    /// The places, in the order of their numbers.
    pub fn places(&self) -> &[Place]
        ensures { result.now ≡ (definition_of self.now).places }
    {
        &self.places
    }

    /// The variables, in the order of their numbers.
    pub fn variables(&self) -> &[Variable]
        ensures { result.now ≡ (definition_of self.now).variables }
    {
        &self.variables
    }

    /// The ports, in the order of their numbers.
    pub fn ports(&self) -> &[Port]
        ensures { map port_of result.now ≡ (definition_of self.now).ports }
    {
        &self.ports
    }

    /// The name of the variable with this number; empty if it is not there.
    pub fn variable_name(&self, variable: u8) -> &[u8]
        ensures { result.now ≡ variable_name (definition_of self.now) variable }
    {
        match self.variables().get(usize::from(variable)) {
            Some(variable) => variable.name.as_bytes(),
            None => &[],
        }
    }

    /// The name of the port with this number; empty if it is not there.
    pub fn port_name(&self, port: u16) -> &[u8]
        ensures { result.now ≡ port_name (definition_of self.now) port }
    {
        match self.ports().get(usize::from(port)) {
            Some(port) => port.name.as_bytes(),
            None => &[],
        }
    }

    /// The transitions, in the order of their numbers.
    pub fn transitions(&self) -> &[Transition]
        ensures { map transition_of result.now ≡ (definition_of self.now).transitions }
    {
        &self.transitions
    }

    /// Whether the state offers the transition with this number.
    pub fn is_offered(&self, state: &AtomState, transition: u16) -> bool
        ensures { result ≡ offers_number (definition_of self.now) state.now transition }
    {
        match self.transitions.get(usize::from(transition)) {
            Some(transition) => transition.is_offered(state),
            None => false,
        }
    }

    /// The set of the port's transitions, empty of a port that is not there.
    pub(crate) fn mask_of(&self, port: u16) -> u128
        ensures { result ≡ set_of_port port (definition_of self.now).transitions }
    {
        if usize::from(port) < self.ports.len() {
            self.mask_at(port)
        } else {
            0
        }
    }

    /// The same of a port that is there.
    pub(crate) fn mask_at(&self, port: u16) -> u128
        requires { port < length (definition_of self.now).ports }
        ensures { result ≡ set_of_port port (definition_of self.now).transitions }
    {
        self.masks[usize::from(port)]
    }

    /// The numbers of the variables that the port exports, in order; none of a port that is not there.
    pub fn exports(&self, port: u16) -> &[u8]
        ensures { result.now ≡ exports_of (definition_of self.now) port }
    {
        match self.ports.get(usize::from(port)) {
            Some(port) => &port.exports,
            None => &[],
        }
    }

    /// Fires the transition: assigns what is delivered to the exported variables of its port, runs its updates in order,
    /// and moves the marking.
    pub fn apply(&self, state: &mut AtomState, transition: u16, delivered: &Delivered)
        requires { IsTrue (offers_number (definition_of self.now) state.old transition) }
        ensures fired { state.new ≡ fired (definition_of self.now) transition delivered.now state.old }
        ensures fits { Fits (definition_of self.now) state.old → Fits (definition_of self.now) state.new }
    {
        self.fire(state, transition, delivered);
    }

    /// The same, of which `apply` also says that the state goes on to fit the atom.
    fn fire(&self, state: &mut AtomState, transition: u16, delivered: &Delivered)
        requires { IsTrue (offers_number (definition_of self.now) state.old transition) }
        ensures { state.new ≡ fired (definition_of self.now) transition delivered.now state.old }
    {
        let number = usize::from(transition);
        let arcs = &self.arcs[number];
        if !delivered.is_empty() {
            state.deliver(arcs.exports.as_slice(), delivered);
        }
        // No update reads the marking: moved before them, the places need not be kept while they run.
        arcs.shift(state);
        self.codes[number].update(state);
    }
}

/// For each port below the number, the set of its transitions.
fn masks_by_port(
    alloc: Global,
    ports: usize,
    transitions: &[Transition],
) -> Result<Vec<u128>, AllocError>
    requires ports { ports ≤ MAX_PORTS }
    requires transitions { length transitions.now ≤ MAX_TRANSITIONS }
    ensures { IfOk result (λ masks. masks.items ≡ sets_below ports (map transition_of transitions.now)) }
{
    let mut masks = Vec::with_capacity(alloc, ports)?;
    for port in 0..ports {
        masks.push(mask_of_port(port as u16, transitions))?;
    }
    Ok(masks)
}

/// The set of the port's transitions.
fn mask_of_port(port: u16, transitions: &[Transition]) -> u128
    requires { length transitions.now ≤ MAX_TRANSITIONS }
    ensures { result ≡ set_of_port port (map transition_of transitions.now) }
{
    let mut mask = 0;
    for (number, transition) in transitions.iter().enumerate() {
        mask |= u128::from(transition.port() == port) << number;
    }
    mask
}

/// The set of the transitions whose guard is a number other than 0.
fn mask_of_unguarded(transitions: &[Transition]) -> u128
    requires { length transitions.now ≤ MAX_TRANSITIONS }
    ensures { result ≡ unguarded_set (map transition_of transitions.now) }
{
    let mut mask = 0;
    for (number, transition) in transitions.iter().enumerate() {
        mask |= u128::from(transition.guard().is_true_number()) << number;
    }
    mask
}

/// The set of the transitions whose guard has an odd number of `!` before it.
fn mask_of_turned(transitions: &[Transition]) -> u128
    requires { length transitions.now ≤ MAX_TRANSITIONS }
    ensures { result ≡ turned_set (map transition_of transitions.now) }
{
    let mut mask = 0;
    for (number, transition) in transitions.iter().enumerate() {
        mask |= u128::from(transition.guard().is_turned()) << number;
    }
    mask
}
