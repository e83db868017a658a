//! Which atoms have a part in a record, as words, so that the replay of an atom looks at no record of others.
ghost use Rattle.std.specs.Prelude.{◌≡◌};
ghost use Rattle.petri_atom.specs.Local.{has};
ghost use Rattle.record_replay.specs.Parts.{IsOfParts};

use record_codec::Fired;

/// The atoms that have a part in the record: bit n for atom n.
pub fn atoms_in(fired: &Fired) -> u64
    ensures { IsOfParts fired.now result }
{
    let mut atoms = 0;
    for entry in fired.entries() {
        atoms |= 1 << entry.atom;
    }
    atoms
}

/// Whether the word has the atom.
pub(crate) fn has_atom(atoms: u64, atom: u16) -> bool
    ensures { result ≡ has atoms atom }
{
    atom < 64 && (atoms >> atom) & 1 == 1
}
