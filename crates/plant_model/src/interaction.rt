//! An interaction of a plant, with its ports in rising order of their atoms.
ghost use Rattle.std.specs.Prelude.{◌≤◌, length};
ghost use Rattle.connector_tree.specs.declared.tree.TheConstants.{MAX_LEAVES};

use connector_tree::{Mask, Port};

/// An interaction: the number of its connector, its leaves as a mask, and its ports in rising order of their atoms.
#[derive(Drop)]
pub struct Interaction {
    pub connector: u16,
    pub mask: Mask,
    pub ports: Vec<Port>,
    ghost few: { length ports.items ≤ MAX_LEAVES },
}
