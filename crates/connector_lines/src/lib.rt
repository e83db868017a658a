//! The lines of a plant text that describe one connector, and those that write a priority rule.
//!
//! A layer above cuts a line into words, knows by its first word which kind of line it is, and hands on the words after it. It
//! says by a trait what there is to be named: [`Ports`], [`Exports`], [`Connectors`] and [`Places`].
//!
//! | Line | Says | Read by |
//! |---|---|---|
//! | `connector NAME TREE` | a connector, of which the name is read above | [`read_tree`] |
//! | `guard EXPR` | a guard clause of it; one that names no variable always applies | [`WireDraft::add_guard`] |
//! | `move ATOM.VAR := EXPR` | a transfer of it, to a variable that is no target of the connector yet | [`WireDraft::add_transfer`] |
//! | `prio SIDE < SIDE` | each interaction of the left side is below each of the right side | [`read_priority`] |
//! | .. then `when ATOM at PLACE` | the rule counts only while this place of the atom is marked | [`read_priority`] |
//! | `maximal NAME` | each interaction of the connector is below those that have all its leaves and more | [`read_maximal`] |
//!
//! What a line says, or which fault it has, is one definition for each kind, on its words: `tree_in` (`specs/Trees.antt`),
//! `guard_row` and `transfer_row` (`specs/Rows.antt`), `priority_in` and `maximal_in` (`specs/Rules.antt`). A fault is found at the
//! first word from the left that is at fault, and want of memory only of a line without one: where a part is refused memory,
//! the words after are read on.
//!
//! # The tree of a connector
//!
//! The tree is ports and brackets, one word each, and a quote marks a trigger: `s.p' [ r.p q.p ]` says that the port p of s leads,
//! and that those of r and q may follow, together only.
//!
//! | Word | Is |
//! |---|---|
//! | `ATOM.PORT`, `ATOM.PORT'` | the port that [`Ports`] names by it, as a synchron or as a trigger |
//! | `[` | the begin of a bracket |
//! | `]`, `]'` | the end of the bracket that began last, which is a synchron or a trigger |
//!
//! What words say is a flat list of tokens, one for each word: `tree_in` gives the tokens of a line, or its fault. The
//! connector that is read has exactly the tokens of the line, and no other connector has them
//! ([`laws`](connector_tree::laws) of `connector_tree`).
//!
//! - The faults of the tree itself are found when each word is read, in the order in which `connector_tree` finds them, so that
//!   [`interactions`](connector_tree::interactions) of a tree that was read fails for want of memory alone.
//! - No line can make the calls nest deeper: words become a flat list of tokens, and a tree is made only of a list
//!   without fault, by a loop ([`connector_of`](connector_tree::connector_of)). Each step takes time that grows with the
//!   number of words and no faster.
//!
//! # Guard clauses and transfers
//!
//! A [`WireDraft`] is a connector with a name, to which lines add guard clauses and transfers in written order. A variable is
//! written `ATOM.VAR`: the atom has a leaf in the connector, and that leaf's port exports the variable. Where the connector breaks
//! the rule that an atom stands in it once, the atom's first leaf counts. Which atoms there are, and what their ports export, the
//! layer above says by [`Exports`].
//!
//! Where a part would be one too many for the connector, the line's first word is at fault. A target that isn't written
//! `ATOM.VAR` names nothing, and is an unknown name like one that no leaf exports. A refused line leaves the draft as it was.
//!
//! What a draft makes keeps the rules of a wire that are about its lines: [`WireDraft::into_wire`] says that it is within
//! the limits of a wire and has each target once, and the lines that add parts say that a test which each variable passes
//! that may be named is passed by the variables of all parts, where it was before (`specs/Parts.antt`).
//!
//! # Rules
//!
//! A side is a connector's `NAME`, for each of its interactions, or `NAME:MASK`, for one of them: the mask is decimal,
//! and is an interaction of that connector. Which connectors there are, and what their interactions are, the layer
//! above says by [`Connectors`]. Nothing here takes memory, so the result of such a line is an equation.
//!
//! Within `NAME:MASK` the name is at fault before the mask. A word that is not written `NAME:MASK`, as one with two colons, is
//! looked up whole, and so is the word after `maximal`: with a colon in it, it names nothing, since no connector's name has one.
//!
//! A condition names an atom, and a place of that atom: a place that another atom alone has is an unknown name. Which atoms
//! there are, and which places they have, the layer above says by [`Places`].
//!
//! # Modules
//!
//! - `token`: what one word of a tree says, and which ports there are ([`Ports`]).
//! - `tree`: the words of a line as a connector ([`read_tree`]).
//! - `shape`: the faults of a tree, as its tokens are read, without memory.
//! - `tree_words_fault`: why words are no tree ([`TreeWordsFault`]).
//! - `draft`: the connector so far, and its lines ([`WireDraft`]).
//! - `exports`: which variable a word names ([`Exports`]).
//! - `parts`: a guard clause, and a transfer.
//! - `connectors`: what rules may name ([`Connectors`]).
//! - `places`: what the conditions of rules may name ([`Places`]).
//! - `side`: one side of a rule.
//! - `condition`: what a rule asks for that does not count always.
//! - `rule`: the lines of rules ([`read_priority`], [`read_maximal`]).
#![tactic(auto)]

mod condition;
mod connectors;
mod draft;
mod exports;
mod parts;
mod places;
mod rule;
mod shape;
mod side;
mod token;
mod tree;
mod tree_words_fault;

pub use connectors::Connectors;
pub use draft::WireDraft;
pub use exports::Exports;
pub use places::Places;
pub use rule::{read_maximal, read_priority};
pub use token::Ports;
pub use tree::read_tree;
pub use tree_words_fault::TreeWordsFault;
