//! Where the value of a variable stands in a global state.
ghost use Rattle.std.specs.Prelude.{◌≡◌, ◌<◌, ◌≤◌, None};
ghost use Rattle.petri_atom.specs.declared.state.TheConstants.{MAX_VARIABLES};
ghost use Rattle.plant_model.specs.Values.{value_there};

use crate::bound_expressions::AtomVariable;
use crate::state::PlantState;
use petri_atom::MAX_VARIABLES;

/// A variable with a number that an atom's variable can have, so that each atom has a cell for its value.
#[derive(Clone, Copy)]
pub(crate) struct VariableCell {
    variable: AtomVariable,
    ghost here: { variable.variable < MAX_VARIABLES },
}

impl VariableCell {
    ghost use Rattle.std.specs.Prelude.{IfSome};

    /// The cell of the variable, if there is one.
    pub(crate) fn of(variable: AtomVariable) -> Option<Self>
        ensures cell { IfSome result (λ cell. cell.variable ≡ variable) }
        ensures none { result ≡ None → MAX_VARIABLES ≤ variable.variable }
    {
        if usize::from(variable.variable) < MAX_VARIABLES {
            Some(VariableCell { variable })
        } else {
            None
        }
    }

    /// The value that stands there; 0 if there is no such atom.
    pub(crate) fn value(&self, states: &PlantState) -> i64
        ensures { result ≡ value_there states.now self.now.variable }
    {
        match states.states.get(usize::from(self.variable.atom)) {
            Some(state) => state.variables()[usize::from(self.variable.variable)],
            None => 0,
        }
    }
}
