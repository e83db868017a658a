//! The connectors, the atoms and the moves of a plant, by their names.
ghost use Rattle.std.specs.Prelude.{◌≡◌, ◌≤◌, length, map, None, IfOk, IfSome};
ghost use Rattle.std.specs.List.{after_first, before_first, position_or_len};
ghost use Rattle.std.proofs.Props.{props};
ghost use Rattle.run_text.specs.Seen.{definition_of, plant_of};
ghost use Rattle.plant_model.specs.Rules.{fault_of};
ghost use Rattle.plant_model.specs.declared.limits.TheConstants.{MAX_ATOMS, MAX_WIRES};
ghost use Rattle.recorded_picks.specs.Moves.{is_fired_at, is_of_named_port, is_slash, move_in, move_named, transition_in};
ghost use Rattle.recorded_picks.specs.Names.{AreApart, atom_names, atom_named, connector_names, connector_named};

use petri_atom::{Atom, MAX_TRANSITIONS};
use plant_model::{Move, System, Wire};
use plant_words::{NameIndex, read_decimal, split_export};
use std::alloc::{AllocError, Global};

/// The names of the connectors and of the atoms, each found by one look-up.
#[derive(Drop)]
struct Index {
    connectors: NameIndex,
    atoms: NameIndex,
    ghost few_connectors: { length connectors ≤ MAX_WIRES },
    ghost few_atoms: { length atoms ≤ MAX_ATOMS },
}

/// A plant whose connectors and atoms are found by their names.
#[derive(Drop)]
pub struct PlantNames<'a> {
    pub(crate) system: &'a System,
    index: Option<Index>,
    ghost valid: { fault_of (plant_of system.now) ≡ None },
    ghost connectors_named: { IfSome index (λ i. i.connectors ≡ connector_names (plant_of system.now)) } by { Prim.hlevel props },
    ghost atoms_named: { IfSome index (λ i. i.atoms ≡ atom_names (plant_of system.now)) } by { Prim.hlevel props },
}

impl<'a> PlantNames<'a> {
    /// The plant of the system, with an index, so that many names are found, each by one look-up.
    pub(crate) fn new(alloc: Global, system: &'a System) -> Result<Self, AllocError>
        ensures { IfOk result (λ names. names.system.now ≡ system.now) }
    {
        system.keeps_its_rules();
        let connectors = index_of_wires(alloc, system.wires())?;
        let atoms = index_of_atoms(alloc, system.atoms())?;
        let index = Some(Index { connectors, atoms });
        Ok(PlantNames { system, index })
    }

    /// The plant of the system, without an index: each name is looked for among all. It takes no memory.
    pub fn plain(system: &'a System) -> Self
        ensures { result.system.now ≡ system.now }
    {
        system.keeps_its_rules();
        PlantNames {
            system,
            index: None,
        }
    }

    /// The number of the connector with the name.
    pub fn find_connector(&self, name: &[u8]) -> Option<u16>
        ensures { result ≡ connector_named (plant_of self.now.system.now) name.now }
    {
        match &self.index {
            Some(index) => Some(index.connectors.find(name)? as u16),
            None => self.system.connector_named(name),
        }
    }

    /// The number of the atom with the name.
    fn find_atom(&self, name: &[u8]) -> Option<u16>
        ensures { result ≡ atom_named (plant_of self.now.system.now) name.now }
    {
        match &self.index {
            Some(index) => Some(index.atoms.find(name)? as u16),
            None => self.system.atom_named(name),
        }
    }

    /// The move that a word `ATOM.PORT/NUMBER` names.
    pub fn find_move(&self, word: &[u8]) -> Option<Move>
        ensures { result ≡ move_in (plant_of self.now.system.now) word.now }
    {
        let (port, number) = around_slash(word);
        let (atom, port) = split_export(port)?;
        self.find_move_of(atom, port, read_transition(number)?)
    }

    /// The move of the atom by its transition with the number, if that is of the port.
    fn find_move_of(&self, atom: &[u8], port: &[u8], transition: u16) -> Option<Move>
        ensures { result ≡ move_named (plant_of self.now.system.now) (atom.now, port.now) transition }
    {
        let atom = self.find_atom(atom)?;
        if is_fired_at(self.system.atoms(), atom, port, transition) {
            Some(Move { atom, transition })
        } else {
            None
        }
    }
}

/// The names of the connectors, by their numbers.
fn index_of_wires(alloc: Global, wires: &[Wire]) -> Result<NameIndex, AllocError>
    requires { AreApart (map (λ w. w.name) wires.now) }
    ensures { IfOk result (λ names. names ≡ map (λ w. w.name) wires.now) }
{
    let mut names = NameIndex::new(alloc);
    for wire in wires {
        names.add(wire.name.as_bytes())?;
    }
    Ok(names)
}

/// The names of the atoms, by their numbers.
fn index_of_atoms(alloc: Global, atoms: &[Atom]) -> Result<NameIndex, AllocError>
    requires { AreApart (map (λ a. (definition_of a).name) atoms.now) }
    ensures { IfOk result (λ names. names ≡ map (λ a. (definition_of a).name) atoms.now) }
{
    let mut names = NameIndex::new(alloc);
    for atom in atoms {
        names.add(atom.name().as_bytes())?;
    }
    Ok(names)
}

/// What stands before the first slash of a word, and what stands after it.
fn around_slash(word: &[u8]) -> (&[u8], &[u8])
    ensures before { result.0.now ≡ before_first is_slash word.now }
    ensures after { result.1.now ≡ after_first is_slash word.now }
{
    let (before, behind) = word.split_at(len_before_slash(word));
    match behind {
        [_, after @ ..] => (before, after),
        [] => (before, behind),
    }
}

/// How many bytes of a word stand before its first slash.
fn len_before_slash(word: &[u8]) -> usize
    ensures value { result ≡ position_or_len is_slash word.now }
    ensures within { result ≤ length word.now }
{
    word.iter().take_while(|byte| **byte != b'/').count()
}

/// The number of a transition.
fn read_transition(word: &[u8]) -> Option<u16>
    ensures { result ≡ transition_in word.now }
{
    let number = read_decimal(word)?;
    if number < MAX_TRANSITIONS as u64 {
        Some(number as u16)
    } else {
        None
    }
}

/// Whether the atom with the number has the transition, and that is of the port with the name.
fn is_fired_at(atoms: &[Atom], atom: u16, port: &[u8], transition: u16) -> bool
    ensures { result ≡ is_fired_at (map definition_of atoms.now) atom port.now transition }
{
    match atoms.get(usize::from(atom)) {
        Some(atom) => is_of_named_port(atom, transition, port),
        None => false,
    }
}

/// Whether the atom has the transition, and that is of the port with the name.
fn is_of_named_port(atom: &Atom, transition: u16, port: &[u8]) -> bool
    ensures { result ≡ is_of_named_port (definition_of atom.now) transition port.now }
{
    match atom.transitions().get(usize::from(transition)) {
        Some(transition) => atom.port_name(transition.port()) == port,
        None => false,
    }
}
