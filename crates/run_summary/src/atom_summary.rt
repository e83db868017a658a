//! The moves of an atom in numbers.
ghost use Rattle.std.specs.Prelude.{◌≡◌, ℕ, List, [], ◌∷◌, IfOk};
ghost use Rattle.petri_atom.specs.Atom.{definition_of};
ghost use Rattle.petri_atom.specs.Definition.{AtomDefinition};
ghost use Rattle.run_summary.specs.Moves.{Moved};
ghost use Rattle.run_summary.specs.Totals.{atom_totals};

use crate::bounds::{Bounds, first_bounds, widen};
use crate::counts::Counts;
use petri_atom::Atom;
use std::alloc::{AllocError, Global};
use std::marker::Model;

/// How often each transition of an atom moved, and the bounds of each variable.
#[derive(Drop)]
pub struct AtomSummary {
    transitions: Counts,
    bounds: Vec<Bounds>,
}

impl Model for AtomSummary {
    ghost use Rattle.run_summary.specs.Totals.{AtomTotals};

    ghost Value = { AtomTotals };

    ghost view = { λ s. record { transitions = s.transitions; bounds = s.bounds.items } };
}

impl AtomSummary {
    /// The atom made no move. It takes memory.
    pub(crate) fn of(alloc: Global, atom: &Atom) -> Result<Self, AllocError>
        ensures { IfOk result (λ summary. summary ≡ atom_totals (definition_of atom.now) []) }
    {
        let transitions = Counts::none(alloc, atom.transitions().len())?;
        let bounds = first_bounds(alloc, atom.variables())?;
        Ok(AtomSummary {
            transitions,
            bounds,
        })
    }

    /// The atom moved by a transition, and its variables have these values.
    pub(crate) fn add(&mut self, transition: u16, values: &[i64])
        ensures { (a : AtomDefinition) (atom : ℕ) (moves : List Moved) → self.old ≡ atom_totals a moves
            → self.new ≡ atom_totals a (record { atom = atom; transition = transition; values = values.now } ∷ moves) }
    {
        self.transitions.count(usize::from(transition));
        widen(&mut self.bounds, values);
    }

    /// How often each transition moved.
    pub(crate) fn transitions(&self) -> &Counts
        ensures { result.now ≡ self.now.transitions }
    {
        &self.transitions
    }

    /// The bounds of each variable.
    pub(crate) fn bounds(&self) -> &[Bounds]
        ensures { result.now ≡ self.now.bounds }
    {
        &self.bounds
    }
}
