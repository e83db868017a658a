//! The plant as its lines have written it so far.
ghost use Rattle.std.specs.Prelude.{◌≡◌, ◌<◌, ◌≤◌, [], ◌∷◌, ◌++◌, length, map, false, is_ok, IfOk, IfErr, IfNone, IfSome, OnOk, Ok, None};
ghost use Rattle.petri_atom.specs.Parts.{definition_by};
ghost use Rattle.plant_model.specs.declared.limits.TheConstants.{MAX_ATOMS, MAX_WIRES, MAX_RULES};
ghost use Rattle.connector_tree.specs.Tree.{tree_of};
ghost use Rattle.connector_tree.specs.Faults.{fault_of};
ghost use Rattle.atom_lines.specs.Draft.{drafted as atom_drafted};
ghost use Rattle.connector_tree.specs.Tokens.{tokens_of};
ghost use Rattle.connector_lines.specs.Trees.{tree_in};
ghost use Rattle.plant_words.specs.Words.{words_of};
ghost use Rattle.plant_text.specs.Fault.{IsFaultOf};
ghost use Rattle.plant_text.specs.Index.{names_of_atoms, names_of_wires};
ghost use Rattle.plant_text.specs.Names.{atom_number, wire_number, port_named};
ghost use Rattle.plant_text.specs.Parts.{wire_listed};
ghost use Rattle.plant_text.specs.Rows.{found_tree, atom_row, connector_row, rule_row, row_of, words_row, line_row};

use crate::fault::Fault;
use crate::listed::ListedWire;
use crate::marks::Mark;
use crate::names::AtomTable;
use crate::parts::change_atom;
use crate::wires::{WireTable, have_room, read_rule};
use atom_lines::AtomDraft;
use connector_lines::read_tree;
use connector_tree::Connector;
use petri_atom::Name;
use plant_model::{MAX_ATOMS, MAX_RULES, MAX_WIRES};
use plant_words::reading::{check, end, next_name};
use plant_words::{
    AtomPart, LineKind, NameIndex, RuleKind, WirePart, Words, is_legal, is_passed_over,
};
use priority_filter::Rule;
use std::alloc::{AllocError, Global};

/// A plant to which lines add parts.
///
/// The `ghost` lines are for contracts alone: the lists are within the limits, and each index has the names of its list.
#[derive(Drop)]
pub(crate) struct PlantDraft {
    pub(crate) alloc: Global,
    pub(crate) atoms: Vec<AtomDraft>,
    atom_names: NameIndex,
    pub(crate) wires: Vec<ListedWire>,
    wire_names: NameIndex,
    pub(crate) rules: Vec<Rule>,
    ghost few_atoms: { length atoms.items ≤ MAX_ATOMS },
    ghost few_wires: { length wires.items ≤ MAX_WIRES },
    ghost few_rules: { length rules.items ≤ MAX_RULES },
    ghost atoms_named: { atom_names ≡ names_of_atoms atoms.items },
    ghost wires_named: { wire_names ≡ names_of_wires wires.items },
}

impl PlantDraft {
    ghost use Rattle.plant_text.specs.Draft.{drafted};
    ghost use Rattle.plant_text.specs.Meaning.{nothing};

    /// The plant with no parts.
    pub(crate) fn new(alloc: Global) -> Self
        ensures { drafted result ≡ nothing }
    {
        PlantDraft {
            alloc,
            atoms: Vec::new(alloc),
            atom_names: NameIndex::new(alloc),
            wires: Vec::new(alloc),
            wire_names: NameIndex::new(alloc),
            rules: Vec::new(alloc),
        }
    }

    /// What a line says. After a fault nothing is said of the plant.
    pub(crate) fn add_line(&mut self, line: &[u8]) -> Result<(), Fault>
        ensures added { OnOk result (line_row line.now (drafted self.old) ≡ Ok (drafted self.new)) }
        ensures fault { IfErr result (IsFaultOf (line_row line.now (drafted self.old))) }
    {
        self.add_read(line, &mut Words::new(line))
    }

    /// What a line says, that is read by these words of it. After a fault nothing is said of the plant.
    fn add_read(&mut self, line: &[u8], words: &mut Words) -> Result<(), Fault>
        requires { words.old ≡ words_of line.now }
        ensures added { OnOk result (line_row line.now (drafted self.old) ≡ Ok (drafted self.new)) }
        ensures fault { IfErr result (IsFaultOf (line_row line.now (drafted self.old))) }
    {
        if is_passed_over(line) {
            return check(is_legal(line), Fault::NotAscii);
        }
        self.add_words(words)
    }

    /// What a line says; or, where it has a fault, where that stands in it.
    pub(crate) fn mark_of<'a>(&mut self, line: &'a [u8]) -> Result<Option<Mark<'a>>, AllocError>
        ensures added { IfOk result (λ found. IfNone found (line_row line.now (drafted self.old) ≡ Ok (drafted self.new))) }
        ensures line { IfOk result (λ found. IfSome found (λ mark. mark.line.now ≡ line.now)) }
        ensures refused { IfOk result (λ found. IfSome found (λ _. is_ok (line_row line.now (drafted self.old)) ≡ false)) }
    {
        let mut words = Words::new(line);
        match self.add_read(line, &mut words) {
            Ok(()) => Ok(None),
            Err(Fault::Memory) => Err(AllocError),
            Err(fault) => Ok(Some(Mark::of(line, fault, words.seen()))),
        }
    }

    /// What the words of a line say.
    fn add_words(&mut self, words: &mut Words) -> Result<(), Fault>
        ensures added { OnOk result (words_row words.old (drafted self.old) ≡ Ok (drafted self.new)) }
        ensures fault { IfErr result (IsFaultOf (words_row words.old (drafted self.old))) }
    {
        let Some(word) = words.next_word() else {
            return Ok(());
        };
        check(is_legal(word), Fault::NotAscii)?;
        let kind = LineKind::of(word).ok_or(Fault::UnknownWord)?;
        self.add_of_kind(kind, words)
    }

    /// What a line of the kind says, by the words after its first.
    fn add_of_kind(&mut self, kind: LineKind, words: &mut Words) -> Result<(), Fault>
        ensures added { OnOk result (row_of kind words.old (drafted self.old) ≡ Ok (drafted self.new)) }
        ensures fault { IfErr result (IsFaultOf (row_of kind words.old (drafted self.old))) }
    {
        match kind {
            LineKind::Atom => self.add_atom(words),
            LineKind::Connector => self.add_connector(words),
            LineKind::OfAtom(part) => self.add_atom_part(part, words),
            LineKind::OfConnector(part) => self.add_wire_part(part, words),
            LineKind::Rule(kind) => self.add_rule(kind, words),
        }
    }

    /// Adds the atom of a line `atom NAME`, by the words after its first.
    fn add_atom(&mut self, words: &mut Words) -> Result<(), Fault>
        ensures added { OnOk result (atom_row words.old (drafted self.old) ≡ Ok (drafted self.new)) }
        ensures fault { IfErr result (IsFaultOf (atom_row words.old (drafted self.old))) }
    {
        check(self.atoms.len() < MAX_ATOMS, Fault::Limit)?;
        let name = next_name(words)?;
        let before = self.table().find(name.as_bytes());
        check(before.is_none(), Fault::Twice)?;
        end(words)?;
        self.push_atom(name)?;
        Ok(())
    }

    /// Puts an atom with a new name and no parts after the others. It comes into the list and into the index of names, or,
    /// if there is no memory, into neither: so the list has its room first.
    fn push_atom(&mut self, name: Name) -> Result<(), AllocError>
        requires few { length self.old.atoms.items < MAX_ATOMS }
        requires new { atom_number (drafted self.old).atoms name ≡ None }
        ensures pushed { OnOk result (drafted self.new ≡ record (drafted self.old) { atoms = (drafted self.old).atoms ++ definition_by name [] [] [] [] ∷ [] }) }
    {
        self.atoms.reserve(1)?;
        self.atom_names.add(name.as_bytes())?;
        self.atoms.push(AtomDraft::new(self.alloc, name)).unwrap();
        Ok(())
    }

    /// Adds a part to the latest atom, by the words after the line's first.
    fn add_atom_part(&mut self, part: AtomPart, words: &mut Words) -> Result<(), Fault>
        ensures added { OnOk result (row_of (LineKind.OfAtom part) words.old (drafted self.old) ≡ Ok (drafted self.new)) }
        ensures fault { IfErr result (IsFaultOf (row_of (LineKind.OfAtom part) words.old (drafted self.old))) }
    {
        let Some(atom) = self.atoms.last_mut() else {
            return Err(Fault::Misplaced);
        };
        change_atom(atom, part, words)?;
        Ok(())
    }

    /// Adds the connector of a line `connector NAME TREE`, by the words after its first.
    fn add_connector(&mut self, words: &mut Words) -> Result<(), Fault>
        ensures added { OnOk result (connector_row words.old (drafted self.old) ≡ Ok (drafted self.new)) }
        ensures fault { IfErr result (IsFaultOf (connector_row words.old (drafted self.old))) }
    {
        check(self.wires.len() < MAX_WIRES, Fault::Limit)?;
        let name = next_name(words)?;
        let earlier = self.wire_table().find(name.as_bytes());
        check(earlier.is_none(), Fault::Twice)?;
        let connector = self.read_tree(words)?;
        let wire = ListedWire::new(self.alloc, name, connector)?;
        check(have_room(&self.wires, wire.masks.len()), Fault::Limit)?;
        self.push_wire(wire)?;
        Ok(())
    }

    /// Puts a connector with a new name after the others, into the list and into the index of names, or into neither.
    fn push_wire(&mut self, wire: ListedWire) -> Result<(), AllocError>
        requires few { length self.old.wires.items < MAX_WIRES }
        requires new { wire_number (drafted self.old).wires (wire_listed wire).name ≡ None }
        ensures pushed { OnOk result (drafted self.new ≡ record (drafted self.old) { wires = (drafted self.old).wires ++ wire_listed wire ∷ [] }) }
    {
        self.wires.reserve(1)?;
        self.wire_names.add(wire.draft.name().as_bytes())?;
        self.wires.push(wire).unwrap();
        Ok(())
    }

    /// The atoms so far, by their names.
    fn table(&self) -> AtomTable<'_>
        ensures { map atom_drafted result.drafts.now ≡ (drafted self.now).atoms }
    {
        AtomTable {
            drafts: &self.atoms,
            names: &self.atom_names,
        }
    }

    /// The connectors so far, by their names.
    fn wire_table(&self) -> WireTable<'_>
        ensures { map wire_listed result.wires.now ≡ (drafted self.now).wires }
    {
        WireTable {
            wires: &self.wires,
            names: &self.wire_names,
        }
    }

    /// The tree that the words are, over ports of the atoms so far.
    fn read_tree(&self, words: &mut Words) -> Result<Connector, Fault>
        ensures tree { IfOk result (λ connector. found_tree (tree_in (port_named (drafted self.now).atoms) words.old) ≡ Ok (tokens_of (tree_of connector))) }
        ensures fault { IfErr result (IsFaultOf (found_tree (tree_in (port_named (drafted self.now).atoms) words.old))) }
        ensures sound { IfOk result (λ connector. fault_of (tree_of connector) ≡ None) }
    {
        Ok(read_tree(self.alloc, words, &self.table())?)
    }

    /// Adds a part to the latest connector, by the words after the line's first.
    fn add_wire_part(&mut self, part: WirePart, words: &mut Words) -> Result<(), Fault>
        ensures added { OnOk result (row_of (LineKind.OfConnector part) words.old (drafted self.old) ≡ Ok (drafted self.new)) }
        ensures fault { IfErr result (IsFaultOf (row_of (LineKind.OfConnector part) words.old (drafted self.old))) }
    {
        let table = AtomTable {
            drafts: &self.atoms,
            names: &self.atom_names,
        };
        let Some(wire) = self.wires.last_mut() else {
            return Err(Fault::Misplaced);
        };
        wire.add_part(part, words, &table)?;
        Ok(())
    }

    /// Adds the rule of a line `prio SIDE < SIDE ..` or `maximal NAME`, by the words after its first.
    fn add_rule(&mut self, kind: RuleKind, words: &mut Words) -> Result<(), Fault>
        ensures added { OnOk result (rule_row kind words.old (drafted self.old) ≡ Ok (drafted self.new)) }
        ensures fault { IfErr result (IsFaultOf (rule_row kind words.old (drafted self.old))) }
    {
        check(self.rules.len() < MAX_RULES, Fault::Limit)?;
        let rule = read_rule(kind, words, &self.wire_table(), &self.table())?;
        self.rules.push(rule)?;
        Ok(())
    }
}
