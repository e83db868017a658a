//! The committed state, as it is kept.
ghost use Rattle.std.specs.Prelude.{◌≡◌, ◌<◌, ◌||◌, ℕ, Some, None, IfOk, length, option_map, slice_get, slice_set, if◌then◌else◌};
ghost use Rattle.petri_atom.specs.Local.{has};
ghost use Rattle.plant_model.specs.Fitting.{IsOf};
ghost use Rattle.plant_model.specs.System.{plant_of};
ghost use Rattle.plant_model.specs.declared.choice.Move.{Move};
ghost use Rattle.plant_model.specs.declared.limits.TheConstants.{MAX_ATOMS};
ghost use Rattle.step_core.specs.Sure.{has_move};
ghost use Rattle.step_executor.specs.Outstanding.{AreMarked, is_part_away};

use petri_atom::AtomState;
use plant_model::{Move, PlantState, System};
use std::alloc::{AllocError, Global};
use step_core::PlantParts;

/// A second copy of a state of the system's plant.
pub(crate) fn copied(
    alloc: Global,
    system: &System,
    from: &PlantState,
) -> Result<PlantState, AllocError>
    requires { IsOf (plant_of system.now) from.now }
    ensures { IfOk result (λ states. states ≡ from.now) }
{
    system.keeps_its_rules();
    let mut states = PlantState::init(alloc, system)?;
    for atom in 0..from.len() {
        states.set(atom as u16, from.state(atom as u16).copy());
    }
    Ok(states)
}

/// The set of the atoms that have moved, with those of the moves.
pub(crate) fn mark_moved(moved: u64, moves: &[Move]) -> u64
    requires { (place : ℕ) (m : Move) → slice_get moves.now place ≡ Some m → m.atom < MAX_ATOMS }
    ensures { (n : ℕ) → has result n ≡ (has moved n || has_move moves.now n) }
{
    let mut marked = moved;
    for step in moves {
        marked |= 1 << step.atom;
    }
    marked
}

/// Makes parts those of other parts of the same plant, from which only the parts of atoms that have moved may differ. It copies no others.
pub(crate) fn copy_parts(parts: &mut PlantParts, from: &PlantParts, moved: u64)
    requires as_many { length parts.old ≡ length from.now }
    requires marked { AreMarked moved parts.old from.now }
    ensures { parts.new ≡ from.now }
{
    let mut left = moved;
    while left != 0 {
        let atom = left.trailing_zeros() as u16;
        left &= left - 1;
        copy_part(parts, from, atom);
    }
}

/// Makes the part of one atom that of other parts.
fn copy_part(parts: &mut PlantParts, from: &PlantParts, atom: u16)
    requires as_many { length parts.old ≡ length from.now }
    requires there { atom < length from.now }
    ensures { Some (parts.new) ≡ option_map (slice_set parts.old atom) (slice_get from.now atom) }
{
    match from.state(atom) {
        Some(state) => parts.put(atom, state),
        None => leave(parts, atom),
    }
}

/// Takes the state of the atom out, where it is present.
fn leave(parts: &mut PlantParts, atom: u16)
    requires { atom < length parts.old }
    ensures { parts.new ≡ slice_set parts.old atom None }
{
    if !parts.is_away(atom) {
        parts.take(atom);
    }
}

/// Puts the state of an atom that has come back in its place, where nothing is kept of it.
pub(crate) fn commit_back(parts: &mut PlantParts, atom: u16, state: &AtomState)
    requires { atom < length parts.old }
    ensures { parts.new ≡ (if is_part_away parts.old atom then slice_set parts.old atom (Some state.now) else parts.old) }
{
    if parts.is_away(atom) {
        parts.put(atom, state);
    }
}
