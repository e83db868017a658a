//! Which lines are numbered together: those that add parts of one kind.
ghost use Rattle.std.specs.Prelude.{◌≡◌};
ghost use Rattle.part_lines.specs.Kind.{kind_code, is_same_kind};

use plant_words::{AtomPart, LineKind, WirePart};

/// Whether lines of the two kinds add parts of one kind, which are numbered together. Both kinds of rules are.
pub(crate) fn is_same_kind(a: LineKind, b: LineKind) -> bool
    ensures { result ≡ is_same_kind a b }
{
    kind_code(a) == kind_code(b)
}

/// A number for each kind of part.
fn kind_code(kind: LineKind) -> u8
    ensures { result ≡ kind_code kind }
{
    match kind {
        LineKind::Atom => 0,
        LineKind::OfAtom(AtomPart::Place) => 1,
        LineKind::OfAtom(AtomPart::Variable) => 2,
        LineKind::OfAtom(AtomPart::Port) => 3,
        LineKind::OfAtom(AtomPart::Transition) => 4,
        LineKind::Connector => 5,
        LineKind::OfConnector(WirePart::Guard) => 6,
        LineKind::OfConnector(WirePart::Transfer) => 7,
        LineKind::Rule(_) => 8,
    }
}
