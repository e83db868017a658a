//! The names of a plant's atoms, by their numbers.
ghost use Rattle.std.specs.Prelude.{◌≡◌};
ghost use Rattle.plant_model.specs.System.{plant_of};
ghost use Rattle.script_lines.specs.Atoms.{atom_name};

use plant_model::System;

/// The name of the atom with the number; empty if there is no such atom.
pub fn atom_name(system: &System, atom: u16) -> &[u8]
    ensures { result.now ≡ atom_name (plant_of system.now) atom }
{
    match system.atoms().get(usize::from(atom)) {
        Some(atom) => atom.name().as_bytes(),
        None => &[],
    }
}
