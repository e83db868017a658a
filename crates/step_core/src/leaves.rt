//! Of each connector the leaves that offer nothing, and those that offer more than one transition.
ghost use Rattle.std.specs.Prelude.{◌≡◌, ◌<◌, ◌≤◌, ◌==◌, ◌&&◌, ◌||◌, if◌then◌else◌, ℕ, Bool, nat_lt, Some, length, slice_get, slice_index_or};
ghost use Rattle.connector_tree.specs.Masks.{is_set};
ghost use Rattle.connector_tree.specs.declared.tree.TheConstants.{MAX_LEAVES};
ghost use Rattle.plant_model.specs.System.{plant_of};
ghost use Rattle.plant_model.specs.declared.limits.TheConstants.{MAX_WIRES};
ghost use Rattle.plant_model.specs.declared.reach.ConnectorLeaf.{ConnectorLeaf};
ghost use Rattle.plant_model.specs.declared.usual.Put.{Put};
ghost use Rattle.step_core.specs.Leaves.{AreLeaves, count_of, is_many, is_none};
ghost use Rattle.step_core.specs.Puts.{IsRight, is_put};

use crate::enabled_transitions::EnabledTransitions;
use connector_tree::{Mask, Port};
use plant_model::{ConnectorLeaf, MAX_WIRES, Put, System};

/// What the leaves of each connector offer, by the connectors' numbers: bit j stands for leaf j.
#[derive(Drop)]
pub(crate) struct Leaves {
    /// Those that offer nothing.
    pub(crate) off: [Mask; MAX_WIRES],
    /// Those that offer more than one transition.
    pub(crate) many: [Mask; MAX_WIRES],
}

impl Leaves {
    /// What the leaves of each connector offer.
    pub(crate) fn of(system: &System, offers: &EnabledTransitions) -> Self
        ensures { AreLeaves (plant_of system.now).wires offers.now.counts result }
    {
        let mut leaves = Leaves {
            off: [0; MAX_WIRES],
            many: [0; MAX_WIRES],
        };
        for connector in 0..system.ports.len() {
            leaves.set_connector(connector as u16, &system.ports[connector], offers);
        }
        leaves
    }

    /// Notes what each leaf of the connector offers, of which these are the ports.
    fn set_connector(&mut self, connector: u16, ports: &[Port], offers: &EnabledTransitions)
        requires connector { connector < MAX_WIRES }
        requires ports { length ports.now ≤ MAX_LEAVES }
        ensures off { (leaf : ℕ) (p : _) → slice_get ports.now leaf ≡ Some p → is_set (slice_index_or self.new.off connector 0) leaf ≡ is_none (count_of offers.now.counts p) }
        ensures many { (leaf : ℕ) (p : _) → slice_get ports.now leaf ≡ Some p → is_set (slice_index_or self.new.many connector 0) leaf ≡ is_many (count_of offers.now.counts p) }
        ensures others_off { (k leaf : ℕ) → (k ≡ connector → length ports.now ≤ leaf) → is_set (slice_index_or self.new.off k 0) leaf ≡ is_set (slice_index_or self.old.off k 0) leaf }
        ensures others_many { (k leaf : ℕ) → (k ≡ connector → length ports.now ≤ leaf) → is_set (slice_index_or self.new.many k 0) leaf ≡ is_set (slice_index_or self.old.many k 0) leaf }
    {
        for (leaf, port) in ports.iter().enumerate() {
            let at = ConnectorLeaf {
                connector,
                leaf: leaf as u8,
            };
            self.set(at, offers.count_at(port));
        }
    }

    /// Notes that each of the leaves offers so many transitions.
    pub(crate) fn set_all(&mut self, leaves: &[ConnectorLeaf], count: u8)
        requires there { (n : ℕ) (l : ConnectorLeaf) → slice_get leaves.now n ≡ Some l → (l.connector < MAX_WIRES) × (l.leaf < MAX_LEAVES) }
        ensures off { (n : ℕ) (l : ConnectorLeaf) → slice_get leaves.now n ≡ Some l → is_set (slice_index_or self.new.off l.connector 0) l.leaf ≡ is_none count }
        ensures many { (n : ℕ) (l : ConnectorLeaf) → slice_get leaves.now n ≡ Some l → is_set (slice_index_or self.new.many l.connector 0) l.leaf ≡ is_many count }
        ensures others_off { (k leaf : ℕ) → ((n : ℕ) (l : ConnectorLeaf) → slice_get leaves.now n ≡ Some l → ¬ ((l.connector ≡ k) × (l.leaf ≡ leaf))) → is_set (slice_index_or self.new.off k 0) leaf ≡ is_set (slice_index_or self.old.off k 0) leaf }
        ensures others_many { (k leaf : ℕ) → ((n : ℕ) (l : ConnectorLeaf) → slice_get leaves.now n ≡ Some l → ¬ ((l.connector ≡ k) × (l.leaf ≡ leaf))) → is_set (slice_index_or self.new.many k 0) leaf ≡ is_set (slice_index_or self.old.many k 0) leaf }
    {
        for leaf in leaves {
            self.set(*leaf, count);
        }
    }

    /// Notes what is put of some leaves, one put after the other.
    pub(crate) fn put_all(&mut self, puts: &[Put])
        requires { (n : ℕ) (p : Put) → slice_get puts.now n ≡ Some p → p.connector < MAX_WIRES }
        ensures off { (right : ℕ → ℕ → Bool) → ((n : ℕ) (p : Put) → slice_get puts.now n ≡ Some p → IsRight right p.off p) → (k leaf : ℕ) → is_set (slice_index_or self.new.off k 0) leaf ≡ (if is_put puts.now k leaf then right k leaf else is_set (slice_index_or self.old.off k 0) leaf) }
        ensures many { (right : ℕ → ℕ → Bool) → ((n : ℕ) (p : Put) → slice_get puts.now n ≡ Some p → IsRight right p.many p) → (k leaf : ℕ) → is_set (slice_index_or self.new.many k 0) leaf ≡ (if is_put puts.now k leaf then right k leaf else is_set (slice_index_or self.old.many k 0) leaf) }
    {
        for put in puts {
            let Put {
                connector,
                mask,
                off,
                many,
            } = *put;
            let index = usize::from(connector);
            self.off[index] = self.off[index] & !mask | off;
            self.many[index] = self.many[index] & !mask | many;
        }
    }

    /// Notes that the leaf offers so many transitions.
    fn set(&mut self, at: ConnectorLeaf, count: u8)
        requires connector { at.connector < MAX_WIRES }
        requires leaf { at.leaf < MAX_LEAVES }
        ensures off { (k leaf : ℕ) → is_set (slice_index_or self.new.off k 0) leaf ≡ (if k == at.connector && leaf == at.leaf then is_none count else is_set (slice_index_or self.old.off k 0) leaf) }
        ensures many { (k leaf : ℕ) → is_set (slice_index_or self.new.many k 0) leaf ≡ (if k == at.connector && leaf == at.leaf then is_many count else is_set (slice_index_or self.old.many k 0) leaf) }
    {
        let connector = usize::from(at.connector);
        put_bit(&mut self.off[connector], at.leaf, count == 0);
        put_bit(&mut self.many[connector], at.leaf, count > 1);
    }
}

/// Sets the bit of the word, or clears it.
fn put_bit(word: &mut Mask, bit: u8, set: bool)
    requires { bit < MAX_LEAVES }
    ensures { (j : ℕ) → is_set word.new j ≡ (if j == bit then set else is_set word.old j) }
{
    *word = *word & !(1 << bit) | u16::from(set) << bit;
}
