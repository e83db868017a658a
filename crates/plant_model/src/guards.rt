//! The values of atoms' variables in a global state, and guard clauses on them.
ghost use Rattle.std.specs.Prelude.{◌≡◌, map};
ghost use Rattle.std.specs.List.{list_all};
ghost use Rattle.petri_atom.specs.Expression.{is_true, value_of};
ghost use Rattle.plant_model.specs.BoundExpressions.{bound_of, clause_of, clause_holds};
ghost use Rattle.plant_model.specs.Values.{value_there};

use crate::bound_expressions::{AtomVariable, BoundExpressions, Clause, has_all};
use crate::state::PlantState;
use connector_tree::Mask;
use petri_atom::Valuation;

impl Valuation<AtomVariable> for PlantState {
    ghost use Rattle.plant_model.specs.Values.{value_there};

    ghost value_at = { value_there };

    fn value_at(&self, variable: &AtomVariable) -> i64 {
        match self.states.get(usize::from(variable.atom)) {
            Some(state) => state.value(variable.variable),
            None => 0,
        }
    }
}

impl BoundExpressions {
    /// Whether each guard clause that applies to an interaction with this mask is not 0 in this state.
    pub fn hold(&self, states: &PlantState, mask: Mask) -> bool
        ensures { result ≡ list_all (clause_holds states.now mask) (bound_of self.now).clauses }
    {
        each_holds(&self.clauses, states, mask)
    }
}

/// The same, of the clauses as they stand in memory.
fn each_holds(clauses: &[Clause], states: &PlantState, mask: Mask) -> bool
    ensures { result ≡ list_all (λ c. clause_holds states.now mask (clause_of c)) clauses.now }
{
    clauses.iter().all(|clause| clause.holds(states, mask))
}

impl Clause {
    /// Whether the clause is not 0, or does not apply.
    fn holds(&self, states: &PlantState, mask: Mask) -> bool
        ensures { result ≡ clause_holds states.now mask (clause_of self.now) }
    {
        !has_all(mask, self.leaves) || self.is_true(states)
    }

    /// Whether the clause is not 0.
    pub(crate) fn is_true(&self, states: &PlantState) -> bool
        ensures { result ≡ is_true (value_of (value_there states.now) (clause_of self.now).value) }
    {
        self.value.value(states) != 0
    }
}
