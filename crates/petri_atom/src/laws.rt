//! What the definitions say of one another. These functions make no call: their clauses are the laws.
ghost use Rattle.std.specs.Prelude.{◌≡◌, ◌<◌, ◌^◌, ◌&&◌, ◌||◌, not, ℕ, Some, length, slice_get};
ghost use Rattle.petri_atom.specs.Definition.{AtomDefinition, TransitionDefinition, Fits, fired};
ghost use Rattle.petri_atom.specs.Local.{Local, Row, has, is_in};
ghost use Rattle.petri_atom.specs.declared.state.TheConstants.{MAX_PLACES};

/// After a firing a place is marked exactly if it is a target of the transition, or was marked and is no source.
pub fn a_firing_moves_the_marking()
    ensures { (a : AtomDefinition) (n : ℕ) (t : TransitionDefinition) (row : Row) (state : Local) (p : ℕ) → slice_get a.transitions n ≡ Some t → p < MAX_PLACES → has (fired a n row state).marking p ≡ ((has state.marking p && not (is_in t.sources p)) || is_in t.targets p) }
{}

/// A state with a value for each variable and no marked place past those of the atom is one of the atom.
pub fn a_marking_within_the_places_fits()
    ensures { (a : AtomDefinition) (state : Local) → state.marking < 2 ^ length a.places → length state.values ≡ length a.variables → Fits a state }
{}
