//! The atoms so far, by the names that connectors and conditions use.
ghost use Rattle.std.specs.Prelude.{◌≡◌, ◌<◌, ◌≤◌, length, map, IfSome};
ghost use Rattle.plant_model.specs.declared.limits.TheConstants.{MAX_ATOMS};
ghost use Rattle.atom_lines.specs.Draft.{drafted};
ghost use Rattle.plant_text.specs.Index.{names_of_atoms};
ghost use Rattle.plant_text.specs.Names.{atom_number};

use atom_lines::AtomDraft;
use connector_lines::{Exports, Places, Ports};
use connector_tree::Port;
use plant_model::MAX_ATOMS;
use plant_words::NameIndex;

/// The atoms so far, numbered from 0. The `ghost` lines are for contracts alone: there are few enough, and `names` has their names.
#[derive(Drop)]
pub(crate) struct AtomTable<'a> {
    pub(crate) drafts: &'a [AtomDraft],
    pub(crate) names: &'a NameIndex,
    ghost few: { length drafts.now ≤ MAX_ATOMS },
    ghost named: { names.now ≡ names_of_atoms drafts.now },
}

impl AtomTable<'_> {
    /// The index of the first atom with the name.
    pub(crate) fn find(&self, name: &[u8]) -> Option<usize>
        ensures first { result ≡ atom_number (map drafted self.now.drafts.now) name.now }
        ensures within { IfSome result (λ index. index < length self.now.drafts.now) }
    {
        self.names.find(name)
    }
}

impl Ports for AtomTable<'_> {
    ghost use Rattle.std.specs.Prelude.{map};
    ghost use Rattle.atom_lines.specs.Draft.{drafted};
    ghost use Rattle.plant_text.specs.Names as names;

    ghost port_named = { λ table atom port. names.port_named (map drafted table.drafts.now) atom port };

    fn find_port(&self, atom: &[u8], port: &[u8]) -> Option<Port> {
        let index = self.find(atom)?;
        let port = self.drafts[index].find_port(port)?;
        Some(Port {
            atom: index as u16,
            port,
        })
    }
}

impl Exports for AtomTable<'_> {
    ghost use Rattle.std.specs.Prelude.{map};
    ghost use Rattle.atom_lines.specs.Draft.{drafted};
    ghost use Rattle.plant_text.specs.Names as names;

    ghost atom_named = { λ table name. names.atom_number (map drafted table.drafts.now) name };

    ghost export_named = { λ table port name. names.export_named (map drafted table.drafts.now) port name };

    fn find_atom(&self, name: &[u8]) -> Option<u16> {
        Some(self.find(name)? as u16)
    }

    fn find_export(&self, port: Port, variable: &[u8]) -> Option<u8> {
        self.drafts
            .get(usize::from(port.atom))?
            .find_export(port.port, variable)
    }
}

impl Places for AtomTable<'_> {
    ghost use Rattle.std.specs.Prelude.{map};
    ghost use Rattle.atom_lines.specs.Draft.{drafted};
    ghost use Rattle.plant_text.specs.Names as names;

    ghost atom_named = { λ table name. names.atom_number (map drafted table.drafts.now) name };

    ghost place_named = { λ table atom name. names.place_named (map drafted table.drafts.now) atom name };

    fn find_atom(&self, name: &[u8]) -> Option<u16> {
        Some(self.find(name)? as u16)
    }

    fn find_place(&self, atom: u16, name: &[u8]) -> Option<u16> {
        let place = self.drafts.get(usize::from(atom))?.find_place(name)?;
        Some(u16::from(place))
    }
}
