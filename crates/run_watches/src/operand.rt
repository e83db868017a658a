//! What an expression over the states of a plant may name, and the value that it has.
ghost use Rattle.std.specs.Prelude.{◌≡◌};
ghost use Rattle.run_watches.specs.Operands.{atom_of, value_in_state};

use petri_atom::{AtomState, Valuation};
use plant_model::PlantState;
use run_text::{is_marked, value_at};

/// What an expression over the states of a plant may name.
#[derive(Clone, Copy, Debug, PartialEq, Eq)]
pub enum Operand {
    /// A variable of an atom.
    Variable {
        /// The number of the atom.
        atom: u16,
        /// The number of the variable in its atom.
        variable: usize,
    },
    /// Whether a place of an atom is marked: 1 if it is, and else 0.
    Place {
        /// The number of the atom.
        atom: u16,
        /// The number of the place in its atom.
        place: usize,
    },
}

impl Operand {
    /// The number of the atom that it is of.
    fn atom(&self) -> u16
        ensures { result ≡ atom_of self.now }
    {
        match *self {
            Operand::Variable { atom, .. } | Operand::Place { atom, .. } => atom,
        }
    }
}

/// The states of a plant, as the values of operands. What names nothing of the plant has the value 0.
#[derive(Clone, Copy)]
pub(crate) struct StateValues<'a> {
    pub(crate) states: &'a PlantState,
}

impl Valuation<Operand> for StateValues<'_> {
    ghost use Rattle.run_watches.specs.Operands.{operand_value};

    ghost value_at = { λ values operand. operand_value values.states.now operand };

    fn value_at(&self, operand: &Operand) -> i64 {
        let atom = usize::from(operand.atom());
        if atom < self.states.len() {
            value_in(self.states.state(atom as u16), *operand)
        } else {
            0
        }
    }
}

/// The value of an operand of an atom in this state of the atom.
fn value_in(state: &AtomState, operand: Operand) -> i64
    ensures { result ≡ value_in_state state.now operand }
{
    match operand {
        Operand::Variable { variable, .. } => value_at(state.values(), variable),
        Operand::Place { place, .. } => i64::from(is_marked(state.places(), place)),
    }
}
