//! The moves of what is fired.
ghost use Rattle.std.specs.Prelude.{◌≡◌, ℕ, List, [], ◌∷◌, IfOk, length, map};
ghost use Rattle.petri_atom.specs.Atom.{definition_of};
ghost use Rattle.petri_atom.specs.Definition.{AtomDefinition};
ghost use Rattle.run_summary.specs.Moves.{Moved, all_moved_to, moved_to};
ghost use Rattle.run_summary.specs.Totals.{totals_from};

use crate::atom_summary::AtomSummary;
use petri_atom::Atom;
use plant_model::{Move, PlantState};
use std::alloc::{AllocError, Global};

/// Atoms that made no move. It takes memory for each.
pub(crate) fn unmoved(alloc: Global, atoms: &[Atom]) -> Result<Vec<AtomSummary>, AllocError>
    ensures { IfOk result (λ summaries. summaries.items ≡ totals_from 0 (map definition_of atoms.now) []) }
{
    let mut summaries = Vec::with_capacity(alloc, atoms.len())?;
    for atom in atoms {
        summaries.push(AtomSummary::of(alloc, atom)?)?;
    }
    Ok(summaries)
}

/// Moves were made that led to these states.
pub(crate) fn add_moves(summaries: &mut Vec<AtomSummary>, moves: &[Move], states: &PlantState)
    requires { length summaries.old.items ≡ length states.now }
    ensures { (atoms : List AtomDefinition) (past : List Moved) → summaries.old.items ≡ totals_from 0 atoms past
        → summaries.new.items ≡ totals_from 0 atoms (all_moved_to states.now moves.now past) }
{
    for step in moves {
        add_move(summaries, *step, states);
    }
}

/// A move was made that led to these states. That of an atom that is not there is not counted.
fn add_move(summaries: &mut Vec<AtomSummary>, step: Move, states: &PlantState)
    requires { length summaries.old.items ≡ length states.now }
    ensures as_many { length summaries.new.items ≡ length summaries.old.items }
    ensures added { (atoms : List AtomDefinition) (past : List Moved) → summaries.old.items ≡ totals_from 0 atoms past
        → summaries.new.items ≡ totals_from 0 atoms (moved_to states.now step ∷ past) }
{
    let number = usize::from(step.atom);
    if number < summaries.len() {
        let state = states.state(step.atom);
        summaries[number].add(step.transition, state.values());
    }
}
