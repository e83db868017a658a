//! How many parts of atoms stand before a line.
ghost use Rattle.std.specs.Prelude.{◌≡◌, ◌<◌};
ghost use Rattle.restated_text.specs.Counts.{after_kind, kind_of, no_parts, HaveRoom};

use plant_words::{AtomPart, LineKind, Words};

/// How many atoms lines begin, and how many places and variables they add to the latest one.
#[derive(Clone, Copy)]
pub struct Counts {
    /// How many atoms.
    pub atoms: usize,
    /// How many places of the latest atom.
    pub places: usize,
    /// How many variables of the latest atom.
    pub variables: usize,
}

impl Counts {
    /// The counts before all lines.
    pub(crate) fn none() -> Self
        ensures { result ≡ no_parts }
    {
        Counts {
            atoms: 0,
            places: 0,
            variables: 0,
        }
    }

    /// The counts after a line of the kind.
    pub(crate) fn after(self, kind: LineKind) -> Self
        requires { HaveRoom self }
        ensures { result ≡ after_kind kind self }
    {
        match kind {
            LineKind::Atom => Counts {
                atoms: self.atoms + 1,
                places: 0,
                variables: 0,
            },
            LineKind::OfAtom(AtomPart::Place) => Counts {
                places: self.places + 1,
                ..self
            },
            LineKind::OfAtom(AtomPart::Variable) => Counts {
                variables: self.variables + 1,
                ..self
            },
            _ => self,
        }
    }
}

/// What a line adds to a plant, by its first word.
pub(crate) fn kind_of(line: &[u8]) -> Option<LineKind>
    ensures { result ≡ kind_of line.now }
{
    LineKind::of(Words::new(line).next_word()?)
}
