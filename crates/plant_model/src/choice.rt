//! Choices: an interaction, and one transition for each participant.
ghost use Rattle.std.specs.Prelude.{◌≡◌, ◌≤◌, ◌↔◌, IsTrue, take, map, length};
ghost use Rattle.connector_tree.specs.declared.tree.TheConstants.{MAX_LEAVES};

use connector_tree::{MAX_LEAVES, Mask};
use std::marker::Model;

/// What one participant of a choice does: a transition of an atom, both by number.
#[derive(Clone, Copy, PartialEq, Eq)]
pub struct Move {
    pub atom: u16,
    pub transition: u16,
}

/// The moves of a choice, in rising order of their atoms; at most as many as a connector has leaves. It takes no memory. In a
/// contract it is the list of the moves.
#[derive(Drop)]
pub struct Moves {
    row: [Move; MAX_LEAVES],
    count: usize,
}

impl Model for Moves {
    ghost use Rattle.std.specs.Prelude.{◌≤◌, List, take};
    ghost use Rattle.plant_model.specs.declared.choice.Move.{Move};
    ghost use Rattle.connector_tree.specs.declared.tree.TheConstants.{MAX_LEAVES};

    ghost Value = { List Move };

    ghost view = { λ m. take m.count m.row };

    ghost invariant = { λ m. m.count ≤ MAX_LEAVES };
}

impl Moves {
    ghost use Rattle.std.specs.Prelude.{◌≡◌, ◌≤◌, ◌<◌, ◌+◌, ◌++◌, [], ◌∷◌, take, length};
    ghost use Rattle.connector_tree.specs.declared.tree.TheConstants.{MAX_LEAVES};

    /// No move.
    pub fn none() -> Self
        ensures { result ≡ [] }
    {
        let none = Move {
            atom: 0,
            transition: 0,
        };
        Moves {
            row: [none; MAX_LEAVES],
            count: 0,
        }
    }

    /// Takes all moves away.
    pub fn clear(&mut self)
        ensures { self.new ≡ [] }
    {
        self.count = 0;
    }

    /// Adds a move at the end.
    pub fn push(&mut self, added: Move)
        requires { length self.old + 1 ≤ MAX_LEAVES }
        ensures { self.new ≡ self.old ++ added ∷ [] }
    {
        self.row[self.count] = added;
        self.count += 1;
    }

    /// A second row of the same moves.
    fn copy(&self) -> Self
        ensures { result ≡ self.now }
    {
        Moves {
            row: self.row,
            count: self.count,
        }
    }

    /// Whether the two are the same moves in the same order.
    fn same(&self, other: &Moves) -> bool
        ensures { IsTrue result ↔ (self.now ≡ other.now) }
    {
        are_same(self.as_slice(), other.as_slice())
    }

    /// The moves, in rising order of their atoms.
    pub fn as_slice(&self) -> &[Move]
        ensures moves { result.now ≡ self.now }
        ensures few { length result.now ≤ MAX_LEAVES }
    {
        &self.row[..self.count]
    }
}

/// Whether the two are the same moves in the same order.
fn are_same(one: &[Move], other: &[Move]) -> bool
    ensures { IsTrue result ↔ (one.now ≡ other.now) }
{
    one == other
}

/// The atoms of the moves, in the moves' order, with zeros after them.
pub fn atoms_of(moves: &[Move]) -> [u16; MAX_LEAVES]
    requires { length moves.now ≤ MAX_LEAVES }
    ensures atoms { take (length moves.now) result ≡ map (λ m. m.atom) moves.now }
    ensures row { length result ≡ MAX_LEAVES }
{
    let mut atoms = [0; MAX_LEAVES];
    for (place, step) in moves.iter().enumerate() {
        atoms[place] = step.atom;
    }
    atoms
}

/// A choice: an interaction by its connector's number and its mask, and one offered transition for each of its ports.
#[derive(Drop)]
pub struct Choice {
    pub connector: u16,
    pub mask: Mask,
    pub moves: Moves,
}

impl Choice {
    ghost use Rattle.std.specs.Prelude.{[]};
    ghost use Rattle.plant_model.specs.Chosen.{choice_of};

    /// A choice of no moves, as room in which another one is written.
    pub fn none() -> Self
        ensures connector { result.connector ≡ 0 }
        ensures mask { result.mask ≡ 0 }
        ensures moves { result.moves ≡ [] }
    {
        Choice {
            connector: 0,
            mask: 0,
            moves: Moves::none(),
        }
    }

    /// A second choice that is equal to this one.
    pub fn copy(&self) -> Self
        ensures { result ≡ self.now }
    {
        Choice {
            connector: self.connector,
            mask: self.mask,
            moves: self.moves.copy(),
        }
    }

    /// Whether the two choices are equal.
    pub fn same(&self, other: &Choice) -> bool
        ensures { IsTrue result ↔ (choice_of self.now ≡ choice_of other.now) }
    {
        self.connector == other.connector
            && self.mask == other.mask
            && self.moves.same(&other.moves)
    }
}
