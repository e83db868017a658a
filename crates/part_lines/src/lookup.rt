//! The line of a part, as it is looked up in the table.
ghost use Rattle.std.specs.Prelude.{◌≡◌, ◌≤◌, drop, length, not};
ghost use Rattle.std.specs.List.{prefix_len};
ghost use Rattle.part_lines.specs.Kind.{is_same_kind};
ghost use Rattle.part_lines.specs.Lookup.{behind, line_at, own_parts};

use crate::kind::is_same_kind;
use crate::table::{PartLine, PartLines};
use plant_words::{AtomPart, LineKind, RuleKind, WirePart};

impl PartLines {
    ghost use Rattle.part_lines.specs.Lookup.{atom_line, atom_part_line, connector_line, connector_part_line, rule_line};

    /// The line of the atom.
    pub fn atom(&self, atom: usize) -> Option<u32>
        ensures { result ≡ atom_line self.now atom }
    {
        line_at(&self.entries, LineKind::Atom, atom)
    }

    /// The line of a part of the atom: the one with this number among those of its kind.
    pub fn part_of_atom(&self, atom: usize, part: AtomPart, number: usize) -> Option<u32>
        ensures { result ≡ atom_part_line self.now atom part number }
    {
        line_at(
            own_parts(&self.entries, LineKind::Atom, atom),
            LineKind::OfAtom(part),
            number,
        )
    }

    /// The line of the connector.
    pub fn connector(&self, connector: usize) -> Option<u32>
        ensures { result ≡ connector_line self.now connector }
    {
        line_at(&self.entries, LineKind::Connector, connector)
    }

    /// The line of a part of the connector: the one with this number among those of its kind.
    pub fn part_of_connector(&self, connector: usize, part: WirePart, number: usize) -> Option<u32>
        ensures { result ≡ connector_part_line self.now connector part number }
    {
        line_at(
            own_parts(&self.entries, LineKind::Connector, connector),
            LineKind::OfConnector(part),
            number,
        )
    }

    /// The line of the priority rule.
    pub fn rule(&self, rule: usize) -> Option<u32>
        ensures { result ≡ rule_line self.now rule }
    {
        line_at(&self.entries, LineKind::Rule(RuleKind::Priority), rule)
    }
}

/// The line of the part with this number among those of the kind.
fn line_at(entries: &[PartLine], kind: LineKind, number: usize) -> Option<u32>
    ensures { result ≡ line_at kind number entries.now }
{
    let mut left = number;
    for entry in entries {
        if is_same_kind(entry.kind, kind) {
            if left == 0 {
                return Some(entry.line);
            }
            left -= 1;
        }
    }
    None
}

/// The entries after the one with this number among those of the kind, and before the next one of the kind.
fn own_parts(entries: &[PartLine], kind: LineKind, number: usize) -> &[PartLine]
    ensures { result.now ≡ own_parts kind number entries.now }
{
    let (_, behind) = entries.split_at(end_of(entries, kind, number));
    let (own, _) = behind.split_at(own_len(behind, kind));
    own
}

/// How many entries there are up to the one with this number among those of the kind, itself included; all, if it is not there.
fn end_of(entries: &[PartLine], kind: LineKind, number: usize) -> usize
    ensures behind { drop result entries.now ≡ behind kind number entries.now }
    ensures within { result ≤ length entries.now }
{
    let mut left = number;
    for (place, entry) in entries.iter().enumerate() {
        if is_same_kind(entry.kind, kind) {
            if left == 0 {
                return place + 1;
            }
            left -= 1;
        }
    }
    entries.len()
}

/// How many entries stand before the first one of the kind.
fn own_len(entries: &[PartLine], kind: LineKind) -> usize
    ensures value { result ≡ prefix_len (λ entry. not (is_same_kind entry.kind kind)) entries.now }
    ensures within { result ≤ length entries.now }
{
    entries
        .iter()
        .take_while(|entry| !is_same_kind(entry.kind, kind))
        .count()
}
