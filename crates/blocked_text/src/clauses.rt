//! The guard clauses of a connector in a state.
ghost use Rattle.std.specs.Prelude.{◌≡◌, ℤ, map, pos, slice_get};
ghost use Rattle.std.specs.List.{position_from};
ghost use Rattle.std.specs.Option.{option_map_or};
ghost use Rattle.petri_atom.specs.Definition.{exported_value};
ghost use Rattle.connector_tree.specs.Tree as connectors;
ghost use Rattle.plant_model.specs.Exports.{clause_applies, exported_at};
ghost use Rattle.part_text.specs.Seen.{definition_of, tree_of};
ghost use Rattle.blocked_text.specs.Reason.{first_zero, is_zero_clause};

use connector_tree::{Connector, Mask, Port};
use part_text::leaf_at;
use petri_atom::{Atom, Expression, Valuation, VariableTest};
use plant_model::{Export, PlantState};

/// The values of the variables that the ports of a connector's leaves export.
#[derive(Clone, Copy)]
pub(crate) struct ExportValues<'a> {
    pub(crate) atoms: &'a [Atom],
    pub(crate) connector: &'a Connector,
    pub(crate) states: &'a PlantState,
}

impl Valuation<Export> for ExportValues<'_> {
    ghost use Rattle.plant_model.specs.Exports.{value_at};

    ghost value_at = { λ values export. value_at (map definition_of values.atoms.now) values.states.now (connectors.leaves (connectors.tree_of values.connector.now)) export };

    fn value_at(&self, variable: &Export) -> i64 {
        match leaf_at(self.connector, usize::from(variable.leaf)) {
            Some(port) => exported_at(self.atoms, self.states, port, variable.export),
            None => 0,
        }
    }
}

/// The value of a variable that a port exports; 0 if there is none.
fn exported_at(atoms: &[Atom], states: &PlantState, port: Port, export: u8) -> i64
    ensures { result ≡ exported_at (map definition_of atoms.now) states.now port export }
{
    match atoms.get(usize::from(port.atom)) {
        Some(atom) => exported_by(atom, states, port, export),
        None => 0,
    }
}

/// The value of a variable that a port of this atom exports; 0 if there is none.
fn exported_by(atom: &Atom, states: &PlantState, port: Port, export: u8) -> i64
    ensures { result ≡ option_map_or (λ s. exported_value (definition_of atom.now) s port.port export) (slice_get states.now port.atom) (pos 0) }
{
    if usize::from(port.atom) >= states.len() {
        return 0;
    }
    match atom.exports(port.port).get(usize::from(export)) {
        Some(variable) => states.state(port.atom).value(*variable),
        None => 0,
    }
}

/// The leaves that take part in an interaction.
#[derive(Clone, Copy)]
struct TakingPart {
    mask: Mask,
}

impl VariableTest<Export> for TakingPart {
    ghost use Rattle.plant_model.specs.Exports.{takes_part};

    ghost passes = { λ taking export. takes_part taking.mask export };

    fn passes(&self, variable: &Export) -> bool {
        let mask = self.mask;
        variable.leaf < 16 && (mask >> variable.leaf) & 1 == 1
    }
}

/// The number of the first of the clauses that applies to the interaction with this mask, and is 0.
pub(crate) fn first_zero(
    values: &ExportValues<'_>,
    mask: Mask,
    clauses: &[Expression<Export>],
) -> Option<usize>
    ensures { result ≡ first_zero (map definition_of values.now.atoms.now) values.now.states.now (connectors.leaves (connectors.tree_of values.now.connector.now)) mask (map tree_of clauses.now) }
{
    zero_among(values, mask, clauses)
}

/// The same, of the clauses as they stand in memory.
fn zero_among(
    values: &ExportValues<'_>,
    mask: Mask,
    clauses: &[Expression<Export>],
) -> Option<usize>
    ensures { result ≡ position_from (λ clause. is_zero_clause (map definition_of values.now.atoms.now) values.now.states.now (connectors.leaves (connectors.tree_of values.now.connector.now)) mask (tree_of clause)) 0 clauses.now }
{
    clauses
        .iter()
        .position(|clause| is_zero(values, mask, clause))
}

/// Whether the clause applies to the interaction with this mask, and is 0.
fn is_zero(values: &ExportValues<'_>, mask: Mask, clause: &Expression<Export>) -> bool
    ensures { result ≡ is_zero_clause (map definition_of values.now.atoms.now) values.now.states.now (connectors.leaves (connectors.tree_of values.now.connector.now)) mask (tree_of clause.now) }
{
    applies(mask, clause) && clause.value(values) == 0
}

/// Whether the clause applies to the interaction with this mask.
fn applies(mask: Mask, clause: &Expression<Export>) -> bool
    ensures { result ≡ clause_applies mask (tree_of clause.now) }
{
    clause.all_variables(&TakingPart { mask })
}
