//! Which exported variable a word of a connector's line names.
ghost use Rattle.std.specs.Prelude.{◌≡◌, ◌≤◌, ◌<◌, ℕ, List, Option, length, IfSome};
ghost use Rattle.connector_tree.specs.declared.tree.Port.{Port};
ghost use Rattle.connector_tree.specs.declared.tree.TheConstants.{MAX_LEAVES};
ghost use Rattle.connector_lines.specs.Exports.{leaf_of};

use connector_tree::{MAX_LEAVES, Port};
use plant_model::Export;
use plant_words::{Variables, split_export};

/// The atoms whose variables a connector's lines may name.
pub trait Exports {
    ghost atom_named: { Self → List ℕ → Option ℕ };

    ghost export_named: { Self → Port → List ℕ → Option ℕ };

    /// The number of the atom with the name.
    fn find_atom(&self, name: &[u8]) -> Option<u16>
        ensures { result ≡ atom_named self.now name.now };

    /// The place, among the variables that the port exports, of the one with the name.
    fn find_export(&self, port: Port, variable: &[u8]) -> Option<u8>
        ensures { result ≡ export_named self.now port variable.now };
}

/// The number of the first of the leaves that is of the atom.
fn find_leaf(ports: &[Port], atom: u16) -> Option<usize>
    ensures first { result ≡ leaf_of ports.now atom }
    ensures within { IfSome result (λ leaf. leaf < length ports.now) }
{
    ports.iter().position(|port| port.atom == atom)
}

/// The variables that the leaves of a connector export.
#[derive(Drop)]
pub(crate) struct LeafVariables<'a, N> {
    pub(crate) ports: &'a [Port],
    pub(crate) names: &'a N,
    ghost few_leaves: { length ports.now ≤ MAX_LEAVES },
}

impl<N: Exports> Variables<Export> for LeafVariables<'_, N> {
    ghost use Rattle.connector_lines.specs.Exports.{variable_in};

    ghost variable_named = { λ known word.
        variable_in (N.atom_named known.names.now) (N.export_named known.names.now) known.ports.now word };

    fn find(&self, word: &[u8]) -> Option<Export> {
        let (atom, variable) = split_export(word)?;
        let leaf = find_leaf(self.ports, self.names.find_atom(atom)?)?;
        let export = self.names.find_export(self.ports[leaf], variable)?;
        Some(Export {
            leaf: leaf as u8,
            export,
        })
    }
}
