//! The algebra of connectors: which sets of ports may act together.
//!
//! A connector is a tree of ports. Each child of the root or of a bracket is a trigger or a
//! synchron. Contracts speak of it as a tree without addresses: `tree_of` (`specs/Tree.antt`) says which one it is in
//! memory. What it means is a set of sets of ports (`specs/PortSets.antt`), as in the algebra of connectors of
//! BIP:
//!
//! - a port p means `{{p}}`;
//! - with no trigger among the children of a bracket the meaning is the product of theirs, which is all
//!   unions of one set from each;
//! - with triggers it is the sum, over each trigger, of its sets times the product over all other children
//!   of the empty set or one of theirs.
//!
//! The leaves are numbered from 0, left to right, and a mask has bit j for leaf j (`specs/Masks.antt`).
//! [`interactions`] lists exactly the masks whose ports are a port set, rising, each once. A tree with a fault has none: its
//! first fault is found before, without memory ([`first_fault`], `specs/Faults.antt`).
//!
//! A connector is also written as a flat list of tokens: a port with its mark, a bracket that begins, a bracket that
//! ends. `tokens_of` (`specs/Tokens.antt`) writes it so; `fault_in` and `interactions_in` (`specs/TokenFaults.antt`,
//! `specs/TokenMeaning.antt`) say of tokens which fault and which interactions they have. [`connector_of`] makes the
//! connector of tokens whose brackets are balanced and that have no fault. It does so by a loop: however the tokens nest, no
//! call does.
//!
//! - `tree`: a connector, and how large one may be.
//! - `ports`: its leaves, as a list. `row`: the same in a row of fixed size, which takes no memory.
//! - `shape`: its first fault. `faults`: which faults there are, and what is printed of each.
//! - `walk`: its interactions. It makes the masks of a bracket from those of its children (`specs/MaskLists.antt`), so it looks at
//!   no mask in which a child has leaves that are none of its port sets. `specs/Walk.antt` says of one mask whether its ports are a
//!   port set, and the proof compares the list with it. No public clause cites either.
//! - `token`: a token. `tree_draft`: a connector made from tokens.
//! - `laws`: what follows for each connector, and that its tokens say all of it.
#![tactic(auto)]

mod faults;
pub mod laws;
mod ports;
mod row;
mod shape;
mod token;
mod tree;
mod tree_draft;
mod walk;

pub use faults::TreeFault;
pub use ports::leaves;
pub use row::LeafRow;
pub use shape::first_fault;
pub use token::Token;
pub use tree::{Child, Connector, MAX_DEPTH, MAX_LEAVES, Mask, Node, Port};
pub use tree_draft::connector_of;
pub use walk::interactions;
