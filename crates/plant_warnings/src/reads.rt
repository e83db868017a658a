//! Whether anything reads a variable of an atom.
ghost use Rattle.std.specs.Prelude.{◌≡◌, ◌≤◌, length, map, None};
ghost use Rattle.std.specs.List.{list_any};
ghost use Rattle.petri_atom.specs.Atom.{definition_of};
ghost use Rattle.petri_atom.specs.Expression.{tree_of};
ghost use Rattle.petri_atom.specs.Transition.{transition_of};
ghost use Rattle.petri_atom.specs.Update.{update_of};
ghost use Rattle.connector_tree.specs.Tree.{leaves};
ghost use Rattle.connector_tree.specs.declared.tree.TheConstants.{MAX_LEAVES};
ghost use Rattle.plant_model.specs.Rules.{first_fault_in, tree_fault};
ghost use Rattle.plant_model.specs.System.{plant_of};
ghost use Rattle.plant_model.specs.Wire.{transfer_of, wire_of};
ghost use Rattle.plant_warnings.specs.Reads.{has_export, has_variable, is_never_read, is_read_by_leaf, is_read_in, is_read_inside, reads_export, reads_variable};

use connector_tree::LeafRow;
use petri_atom::{Atom, Expression, Transition, Update, VariableTest};
use plant_model::{Export, System, Transfer, Wire};

/// Whether nothing reads the variable of the atom with this number: no transition of the atom, and no connector.
pub(crate) fn is_never_read(system: &System, number: usize, atom: &Atom, variable: usize) -> bool
    ensures { result ≡ is_never_read (plant_of system.now) number (definition_of atom.now) variable }
{
    system.keeps_its_rules();
    !is_read_inside(atom, variable) && !is_read_in_some(system.wires(), number, atom, variable)
}

/// Whether a guard or an update of a transition of the atom reads the variable.
fn is_read_inside(atom: &Atom, variable: usize) -> bool
    ensures { result ≡ is_read_inside (definition_of atom.now) variable }
{
    is_read_by_one(atom.transitions(), variable)
}

/// Whether a guard or an update of one of the transitions reads the variable.
fn is_read_by_one(transitions: &[Transition], variable: usize) -> bool
    ensures { result ≡ list_any (λ t. reads_variable variable (transition_of t)) transitions.now }
{
    transitions
        .iter()
        .any(|transition| reads_variable(transition, variable))
}

/// Whether the guard or an update of the transition reads the variable.
fn reads_variable(transition: &Transition, variable: usize) -> bool
    ensures { result ≡ reads_variable variable (transition_of transition.now) }
{
    has_variable(transition.guard(), variable) | is_read_by_update(transition.updates(), variable)
}

/// Whether one of the updates reads the variable.
fn is_read_by_update(updates: &[Update], variable: usize) -> bool
    ensures { result ≡ list_any (λ u. has_variable variable (update_of u).value) updates.now }
{
    updates
        .iter()
        .any(|update| has_variable(&update.value, variable))
}

/// Whether the variable stands in the expression.
fn has_variable(expression: &Expression<u8>, variable: usize) -> bool
    ensures { result ≡ has_variable variable (tree_of expression.now) }
{
    !expression.all_variables(&OtherVariable { variable })
}

/// Another variable than this one.
#[derive(Clone, Copy)]
struct OtherVariable {
    variable: usize,
}

impl VariableTest<u8> for OtherVariable {
    ghost use Rattle.std.specs.Prelude.{not, ◌==◌};

    ghost passes = { λ other variable. not (variable == other.variable) };

    fn passes(&self, variable: &u8) -> bool {
        usize::from(*variable) != self.variable
    }
}

/// Whether one of the connectors reads the variable.
fn is_read_in_some(wires: &[Wire], number: usize, atom: &Atom, variable: usize) -> bool
    requires { first_fault_in tree_fault 0 (map wire_of wires.now) ≡ None }
    ensures { result ≡ list_any (is_read_in number (definition_of atom.now) variable) (map wire_of wires.now) }
{
    for wire in wires {
        if is_read_in(wire, number, atom, variable) {
            return true;
        }
    }
    false
}

/// Whether the connector reads the variable by a leaf of the atom.
fn is_read_in(wire: &Wire, number: usize, atom: &Atom, variable: usize) -> bool
    requires { length (leaves (wire_of wire.now).connector) ≤ MAX_LEAVES }
    ensures { result ≡ is_read_in number (definition_of atom.now) variable (wire_of wire.now) }
{
    LeafRow::of(&wire.connector)
        .as_slice()
        .iter()
        .enumerate()
        .any(|(leaf, port)| usize::from(port.atom) == number
            && is_read_by_leaf(wire, leaf, atom, port.port, variable))
}

/// Whether the connector reads the variable by the leaf with this number, which is this port of the atom.
fn is_read_by_leaf(wire: &Wire, leaf: usize, atom: &Atom, port: u16, variable: usize) -> bool
    ensures { result ≡ is_read_by_leaf (definition_of atom.now) variable (wire_of wire.now) leaf port }
{
    atom.exports(port).iter().enumerate().any(|(export, exported)| usize::from(*exported)
        == variable
        && reads_export(wire, leaf, export))
}

/// Whether a guard clause or the value of a transfer reads the exported variable of the leaf.
fn reads_export(wire: &Wire, leaf: usize, export: usize) -> bool
    ensures { result ≡ reads_export (wire_of wire.now) leaf export }
{
    is_read_by_clause(&wire.guards, leaf, export)
        | is_read_by_transfer(&wire.transfers, leaf, export)
}

/// Whether one of the guard clauses reads the exported variable of the leaf.
fn is_read_by_clause(clauses: &[Expression<Export>], leaf: usize, export: usize) -> bool
    ensures { result ≡ list_any (λ clause. has_export leaf export (tree_of clause)) clauses.now }
{
    clauses
        .iter()
        .any(|clause| has_export(clause, leaf, export))
}

/// Whether the value of one of the transfers reads the exported variable of the leaf.
fn is_read_by_transfer(transfers: &[Transfer], leaf: usize, export: usize) -> bool
    ensures { result ≡ list_any (λ t. has_export leaf export (transfer_of t).value) transfers.now }
{
    transfers
        .iter()
        .any(|transfer| has_export(&transfer.value, leaf, export))
}

/// Whether the exported variable of the leaf stands in the expression.
fn has_export(expression: &Expression<Export>, leaf: usize, export: usize) -> bool
    ensures { result ≡ has_export leaf export (tree_of expression.now) }
{
    !expression.all_variables(&OtherExport { leaf, export })
}

/// Another exported variable than this one.
#[derive(Clone, Copy)]
struct OtherExport {
    leaf: usize,
    export: usize,
}

impl VariableTest<Export> for OtherExport {
    ghost use Rattle.std.specs.Prelude.{not, ◌&&◌, ◌==◌};

    ghost passes = { λ other variable. not (variable.leaf == other.leaf && variable.export == other.export) };

    fn passes(&self, variable: &Export) -> bool {
        !(usize::from(variable.leaf) == self.leaf && usize::from(variable.export) == self.export)
    }
}
