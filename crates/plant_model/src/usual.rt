//! What the most usual firings change at the leaves of the connectors: those behind which the marking alone decides what the atom offers. It
//! is made once, with the system, so that a step only looks it up.
ghost use Rattle.std.specs.Prelude.{◌≡◌, ◌≤◌, ◌<◌, ◌==◌, ◌&&◌, ◌||◌, ℕ, true, IfOk, List, Some, map, length, slice_get};
ghost use Rattle.std.specs.List.{list_any};
ghost use Rattle.petri_atom.specs.Atom.{definition_of};
ghost use Rattle.connector_tree.specs.declared.tree.Port.{Port};
ghost use Rattle.connector_tree.specs.declared.tree.TheConstants.{MAX_LEAVES};
ghost use Rattle.priority_filter.specs.Members.{has_bit};
ghost use Rattle.connector_tree.specs.Masks.{is_set};
ghost use Rattle.plant_model.specs.Usual.{AreUsual, IsPut, IsUsual, count_in, has_other, has_put, is_nothing, is_other, is_several};
ghost use Rattle.plant_model.specs.declared.limits.TheConstants.{MAX_ATOMS, MAX_WIRES};
ghost use Rattle.plant_model.specs.declared.usual.Put.{Put};
ghost use Rattle.plant_model.specs.declared.usual.Usual.{Usual};

use connector_tree::{Mask, Port};
use petri_atom::{Atom, MAX_PORTS, TransitionSet};
use std::alloc::{AllocError, Global};

/// What a connector's leaves on an atom offer behind a firing: the leaves in `mask` are those of the atom; of these the ones in `off`
/// offer nothing, those in `many` more than one transition.
#[derive(Clone, Copy, Drop)]
pub struct Put {
    pub connector: u16,
    pub mask: Mask,
    pub off: Mask,
    pub many: Mask,
}

/// What a firing of a transition changes, where the atom offered `before`, and behind which exactly `places` are marked.
#[derive(Drop)]
pub struct Usual {
    /// The set that the atom offered.
    pub before: TransitionSet,
    /// The places that are marked behind it: bit k for place k.
    pub places: u64,
    /// What can move, and is offered, behind it.
    pub after: TransitionSet,
    /// How many transitions each port has in that.
    pub counts: [u8; MAX_PORTS],
    /// The connectors of which a leaf offers something now that offered nothing, or nothing any more: bit k for connector k.
    pub dirty: u64,
    /// The connectors of which a leaf offers another number of transitions.
    pub heavy: u64,
    /// What the leaves of these on the atom offer.
    pub puts: Vec<Put>,
}

/// What firings of the atoms' transitions change, by atom and transition; `ports` are the leaves of the connectors.
pub(crate) fn usual_of(
    alloc: Global,
    atoms: &[Atom],
    ports: &[Vec<Port>],
) -> Result<Vec<Vec<Option<Usual>>>, AllocError>
    requires atoms { length atoms.now ≤ MAX_ATOMS }
    requires few_connectors { length ports.now ≤ MAX_WIRES }
    requires few_leaves { (k : ℕ) (ps : List Port) → slice_get (map (λ list. list.items) ports.now) k ≡ Some ps → length ps ≤ MAX_LEAVES }
    ensures { IfOk result (λ rows. AreUsual (map definition_of atoms.now) (map (λ list. list.items) ports.now) (map (λ row. row.items) rows.items)) }
{
    let mut rows = Vec::with_capacity(alloc, atoms.len())?;
    for (number, atom) in atoms.iter().enumerate() {
        rows.push(usual_row(alloc, atom, number as u16, ports)?)?;
    }
    Ok(rows)
}

/// The same of the transitions of one atom, which has this number.
fn usual_row(
    alloc: Global,
    atom: &Atom,
    number: u16,
    ports: &[Vec<Port>],
) -> Result<Vec<Option<Usual>>, AllocError>
    requires few_connectors { length ports.now ≤ MAX_WIRES }
    requires few_leaves { (k : ℕ) (ps : List Port) → slice_get (map (λ list. list.items) ports.now) k ≡ Some ps → length ps ≤ MAX_LEAVES }
    ensures as_many { IfOk result (λ row. length row.items ≡ length (definition_of atom.now).transitions) }
    ensures right { IfOk result (λ row. (t : ℕ) (u : Usual) → slice_get row.items t ≡ Some (Some u) → IsUsual (definition_of atom.now) (map (λ list. list.items) ports.now) number u) }
{
    let count = atom.transitions().len();
    let mut row = Vec::with_capacity(alloc, count)?;
    for transition in 0..count {
        row.push(usual_at(alloc, atom, number, transition as u16, ports)?)?;
    }
    Ok(row)
}

/// What a firing of the atom's transition changes, if the marking behind it, where its sources alone were marked, decides what the atom offers.
fn usual_at(
    alloc: Global,
    atom: &Atom,
    number: u16,
    transition: u16,
    ports: &[Vec<Port>],
) -> Result<Option<Usual>, AllocError>
    requires few_connectors { length ports.now ≤ MAX_WIRES }
    requires few_leaves { (k : ℕ) (ps : List Port) → slice_get (map (λ list. list.items) ports.now) k ≡ Some ps → length ps ≤ MAX_LEAVES }
    ensures { IfOk result (λ found. (u : Usual) → found ≡ Some u → IsUsual (definition_of atom.now) (map (λ list. list.items) ports.now) number u) }
{
    let places = atom.targets_of(transition);
    let Some(after) = atom.settled_at(places) else {
        return Ok(None);
    };
    let before = atom.offered_from(transition);
    let counts = Counts {
        atom: number,
        before: atom.counts_among(before),
        after: atom.counts_among(after),
    };
    let heavy = counts.differing(ports, u8::MAX);
    let puts = counts.puts(alloc, ports, heavy)?;
    Ok(Some(Usual {
        before,
        places,
        after,
        counts: counts.after,
        dirty: counts.differing(ports, 1),
        heavy,
        puts,
    }))
}

/// How many transitions each port of an atom has in what was offered before a firing, and in what is behind it.
#[derive(Drop)]
struct Counts {
    atom: u16,
    before: [u8; MAX_PORTS],
    after: [u8; MAX_PORTS],
}

impl Counts {
    /// The connectors of which a leaf on the atom offers another number now, bit k for connector k; of numbers above `most` it is all the
    /// same which.
    fn differing(&self, ports: &[Vec<Port>], most: u8) -> u64
        requires { length ports.now ≤ MAX_WIRES }
        ensures { (k : ℕ) → has_bit result k ≡ has_other most self.now.atom self.now.before self.now.after (map (λ list. list.items) ports.now) k }
    {
        let mut connectors = 0;
        for number in 0..ports.len() {
            if self.has_other(&ports[number], most) {
                connectors |= 1 << number;
            }
        }
        connectors
    }

    /// Whether one of the ports is such a leaf.
    fn has_other(&self, leaves: &[Port], most: u8) -> bool
        ensures { result ≡ list_any (is_other most self.now.atom self.now.before self.now.after) leaves.now }
    {
        leaves.iter().any(|leaf| self.is_other(leaf, most))
    }

    /// Whether the port is one.
    fn is_other(&self, leaf: &Port, most: u8) -> bool
        ensures { result ≡ is_other most self.now.atom self.now.before self.now.after leaf.now }
    {
        leaf.atom == self.atom
            && count_in(&self.after, leaf.port).min(most)
                != count_in(&self.before, leaf.port).min(most)
    }

    /// What the leaves on the atom offer now, for each of the connectors whose bit is set.
    fn puts(
        &self,
        alloc: Global,
        ports: &[Vec<Port>],
        connectors: u64,
    ) -> Result<Vec<Put>, AllocError>
        requires few_connectors { length ports.now ≤ MAX_WIRES }
        requires few_leaves { (k : ℕ) (ps : List Port) → slice_get (map (λ list. list.items) ports.now) k ≡ Some ps → length ps ≤ MAX_LEAVES }
        ensures each { IfOk result (λ puts. (k : ℕ) → k < length ports.now → has_bit connectors k ≡ true → has_put puts.items k ≡ true) }
        ensures right { IfOk result (λ puts. (n : ℕ) (p : Put) → slice_get puts.items n ≡ Some p → IsPut (map (λ list. list.items) ports.now) self.now.atom self.now.after p) }
    {
        let mut puts = Vec::new(alloc);
        for number in 0..ports.len() {
            if (connectors >> number) & 1 == 1 {
                puts.push(self.put(number as u16, &ports[number]))?;
            }
        }
        Ok(puts)
    }

    /// What the leaves on the atom offer now, of a connector that has these.
    fn put(&self, connector: u16, leaves: &[Port]) -> Put
        requires { length leaves.now ≤ MAX_LEAVES }
        ensures connector { result.connector ≡ connector }
        ensures right { (all : List (List Port)) → slice_get all connector ≡ Some leaves.now → IsPut all self.now.atom self.now.after result }
    {
        let mut put = Put {
            connector,
            mask: 0,
            off: 0,
            many: 0,
        };
        for (number, leaf) in leaves.iter().enumerate() {
            if leaf.atom == self.atom {
                put.add(number, count_in(&self.after, leaf.port));
            }
        }
        put
    }
}

impl Put {
    /// Adds a leaf that offers so many transitions.
    fn add(&mut self, leaf: usize, count: u8)
        requires { leaf < MAX_LEAVES }
        ensures connector { self.new.connector ≡ self.old.connector }
        ensures mask { (k : ℕ) → is_set self.new.mask k ≡ (is_set self.old.mask k || k == leaf) }
        ensures off { (k : ℕ) → is_set self.new.off k ≡ (is_set self.old.off k || k == leaf && is_nothing count) }
        ensures many { (k : ℕ) → is_set self.new.many k ≡ (is_set self.old.many k || k == leaf && is_several count) }
    {
        self.mask |= 1 << leaf;
        self.off |= u16::from(count == 0) << leaf;
        self.many |= u16::from(count > 1) << leaf;
    }
}

/// How many transitions the port has in the row; none past it.
fn count_in(counts: &[u8; MAX_PORTS], port: u16) -> u8
    ensures { result ≡ count_in counts.now port }
{
    match counts.get(usize::from(port)) {
        Some(count) => *count,
        None => 0,
    }
}
