//! The drawings of a plant, as texts for Graphviz's `dot`.
//!
//! [`draw_to`] writes a directed graph of a plant in a state, [`machines_to`] one of its atoms alone as state machines, and [`outline_to`] a
//! smaller one of its atoms and connectors. Their texts are defined in `specs/Drawing.antt` and `specs/Outline.antt`, and the contracts say
//! that exactly these texts were appended to a writer, where its type says which bytes it took; they say nothing of when a writer fails.
//!
//! | Part of the plant | Is drawn as |
//! |---|---|
//! | an atom | a cluster with its name below, and a line `n = 4` for each variable with its value |
//! | a place | a circle with its name, filled if it is marked |
//! | a port | an ellipse with its name and the variables that it exports |
//! | a transition | a box with the name of its port and its number (`move/1`), its guard and its updates; a dotted line from its port, and arrows from its sources and to its targets |
//! | a connector | a rounded box with its name and its tree, a line for each guard clause, and a line `A.n := EXPR` for each transfer; an edge to each of its ports, which ends in a triangle at a trigger and in a dot at a synchron |
//! | a priority rule | a dashed edge from the lower connector to the higher, with the rule on it; a loop for a connector that is to be maximal |
//!
//! **Of a part of a plant.** A drawing is of the atoms of a set ([`ALL_ATOMS`] for the whole plant). A connector is drawn if it has a
//! leaf of one of these; its label has its whole tree, and its edges go to the ports that are drawn. A rule is drawn if both of its
//! connectors are.
//!
//! **Of a state.** Marked places and the values of variables are those of the present state of the plant that runs. With
//! [`Filling::ByChoice`] each connector that has a choice in it is green, and the others are yellow; with [`Filling::Alike`] all are yellow.
//!
//! **The machines** have the cluster of each atom with its places, and no ports. A transition between two places is an arrow with the label
//! of its box; those from a place to itself share an arrow, with their labels one below the other; and one that has several sources or targets
//! keeps its box. There are no connectors and no rules.
//!
//! **The outline** has a box for each atom, a small oval for each connector with an edge to the atom of each of its leaves, and an edge
//! without words for each priority rule.
//!
//! **Long lines.** A label's guard, update, tree, guard clause or transfer is broken into lines of 48 columns, between two words; each
//! further line begins with four spaces. A longer word stands alone on its line.
//!
//! Nodes are named by numbers (`place_0_3`, `connector_1`), and all names of the plant stand in quoted labels. A name has
//! letters, digits and `_` alone, so no label needs an escape but for its own line ends.
//!
//! - `plant`: the whole drawing of a state, its machines, and how a graph is laid out. `outline`: the outline.
//! - `atom`: the cluster of an atom: its label, its places and its ports. `transition`: its transitions and their edges. `interior`: whether
//!   it is drawn as a machine; `machine`: the transitions of one.
//! - `connector`: the node of a connector and its edges. `clauses`: its guard clauses and its transfers. `edges`: how its edges begin and
//!   end, and which leaf of its tree has one. `rule`: the edges of the priority rules.
//! - `node`: the names of nodes. `wrapping`: words that are broken into lines, and those of an expression. `tree`: those of a
//!   connector's tree.
//! - `drawn`: what is drawn of a plant, by the set of atoms. `filling`: how connectors are filled. `choice`: which connectors have a choice.
//!
//! The words are those of `part_text`. Nothing here takes memory.
#![tactic(auto)]

mod atom;
mod choice;
mod clauses;
mod connector;
mod drawn;
mod edges;
mod filling;
mod interior;
mod machine;
mod node;
mod outline;
mod plant;
mod rule;
mod transition;
mod tree;
mod wrapping;

pub use drawn::ALL_ATOMS;
pub use filling::Filling;
pub use outline::outline_to;
pub use plant::{draw_to, machines_to};
