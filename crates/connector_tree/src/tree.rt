//! A connector, as a tree of ports, and how large one may be.

/// A set of leaves: bit j for leaf j.
pub type Mask = u16;

/// How many leaves a connector may have.
pub const MAX_LEAVES: usize = 16;

/// How many levels a connector may have: the root is the first, and each bracket adds one.
pub const MAX_DEPTH: usize = 8;

/// A port of an atom, by their numbers.
#[derive(Clone, Copy, Debug, PartialEq, Eq)]
pub struct Port {
    pub atom: u16,
    pub port: u16,
}

/// A connector: a tree of ports. Its leaves are numbered from 0, left to right.
#[derive(Drop)]
pub struct Connector {
    pub root: Vec<Child>,
}

/// One child of the root or of a bracket: a trigger, or else a synchron.
#[derive(Drop)]
#[cycle(tree)]
pub struct Child {
    pub trigger: bool,
    pub node: Node,
}

/// A port of an atom, or a bracket with children of its own.
#[derive(Drop)]
#[cycle(tree)]
pub enum Node {
    Leaf { atom: u16, port: u16 },
    Fusion(Vec<Child>),
}
