//! The parts of an atom, each added by its line.
ghost use Rattle.std.specs.Prelude.{◌≡◌, IfErr, OnOk, Ok};
ghost use Rattle.atom_lines.specs.Draft.{drafted};
ghost use Rattle.plant_words.specs.LineFaults.{IsFaultOf};
ghost use Rattle.plant_text.specs.Rows.{atom_part_row};

use atom_lines::AtomDraft;
use plant_words::{AtomPart, LineFault, Words};

/// Adds a part to the atom, by the words after the line's first.
pub(crate) fn change_atom(
    atom: &mut AtomDraft,
    part: AtomPart,
    words: &mut Words,
) -> Result<(), LineFault>
    ensures added { OnOk result (atom_part_row part words.old (drafted atom.old) ≡ Ok (drafted atom.new)) }
    ensures fault { IfErr result (IsFaultOf (atom_part_row part words.old (drafted atom.old))) }
    ensures same_name { (drafted atom.new).name ≡ (drafted atom.old).name }
{
    match part {
        AtomPart::Place => atom.add_place(words),
        AtomPart::Variable => atom.add_variable(words),
        AtomPart::Port => atom.add_port(words),
        AtomPart::Transition => atom.add_transition(words),
    }
}
