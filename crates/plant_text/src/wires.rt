//! The connectors so far, by the names that rules use.
ghost use Rattle.std.specs.Prelude.{◌≡◌, ◌+◌, ◌<◌, ◌≤◌, length, nat_le, map, IfSome};
ghost use Rattle.plant_model.specs.declared.limits.TheConstants.{MAX_WIRES, MAX_INTERACTIONS};
ghost use Rattle.atom_lines.specs.Draft.{drafted};
ghost use Rattle.plant_text.specs.Index.{names_of_wires};
ghost use Rattle.plant_text.specs.Interactions.{interactions_of};
ghost use Rattle.plant_text.specs.Names.{wire_number};
ghost use Rattle.plant_text.specs.Parts.{wire_listed};
ghost use Rattle.plant_text.specs.Rows.{rule_in};

use crate::listed::ListedWire;
use crate::names::AtomTable;
use connector_lines::{Connectors, read_maximal, read_priority};
use plant_model::{MAX_INTERACTIONS, MAX_WIRES};
use plant_words::{LineFault, NameIndex, RuleKind, Words};
use priority_filter::Rule;

/// Whether a plant with these connectors may have so many interactions more.
pub(crate) fn have_room(wires: &[ListedWire], more: usize) -> bool
    requires { length wires.now ≤ MAX_WIRES }
    ensures { result ≡ nat_le (length (interactions_of (map wire_listed wires.now)) + more) MAX_INTERACTIONS }
{
    let mut total = more as u128;
    for wire in wires {
        total += wire.masks.len() as u128;
    }
    total <= MAX_INTERACTIONS as u128
}

/// The connectors so far, numbered from 0. The `ghost` lines are for contracts alone: there are few enough, and `names` has their names.
#[derive(Drop)]
pub(crate) struct WireTable<'a> {
    pub(crate) wires: &'a [ListedWire],
    pub(crate) names: &'a NameIndex,
    ghost few: { length wires.now ≤ MAX_WIRES },
    ghost named: { names.now ≡ names_of_wires wires.now },
}

impl WireTable<'_> {
    /// The index of the first connector with the name.
    pub(crate) fn find(&self, name: &[u8]) -> Option<usize>
        ensures first { result ≡ wire_number (map wire_listed self.now.wires.now) name.now }
        ensures within { IfSome result (λ index. index < length self.now.wires.now) }
    {
        self.names.find(name)
    }
}

impl Connectors for WireTable<'_> {
    ghost use Rattle.std.specs.Prelude.{map};
    ghost use Rattle.plant_text.specs.Interactions as interactions;
    ghost use Rattle.plant_text.specs.Names as names;
    ghost use Rattle.plant_text.specs.Parts.{wire_listed};

    ghost connector_named = { λ table name. names.wire_number (map wire_listed table.wires.now) name };

    ghost has_interaction = { λ table connector mask. interactions.has_interaction (map wire_listed table.wires.now) connector mask };

    fn find_connector(&self, name: &[u8]) -> Option<u16> {
        Some(self.find(name)? as u16)
    }

    fn has_interaction(&self, connector: u16, mask: u16) -> bool {
        match self.wires.get(usize::from(connector)) {
            Some(wire) => wire.masks.contains(&mask),
            None => false,
        }
    }
}

/// The rule that the words write over these connectors and atoms, after the line's first.
pub(crate) fn read_rule(
    kind: RuleKind,
    words: &mut Words,
    wires: &WireTable,
    atoms: &AtomTable,
) -> Result<Rule, LineFault>
    ensures { result ≡ rule_in kind (map drafted atoms.now.drafts.now) (map wire_listed wires.now.wires.now) words.old }
{
    match kind {
        RuleKind::Priority => read_priority(words, wires, atoms),
        RuleKind::Maximal => read_maximal(words, wires),
    }
}
