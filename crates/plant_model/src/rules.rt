//! The rules that atoms and wires have to keep to make a plant, as tests.
ghost use Rattle.std.specs.Prelude.{◌≡◌, ◌<◌, ◌≤◌, map, length, nat_le};
ghost use Rattle.std.specs.List.{list_all, list_any};
ghost use Rattle.petri_atom.specs.Expression.{tree_of, word_count};
ghost use Rattle.petri_atom.specs.declared.parts.TheConstants.{MAX_WORDS};
ghost use Rattle.plant_model.specs.declared.limits.TheConstants.{MAX_ATOMS, MAX_INPUTS, MAX_WIRES};
ghost use Rattle.petri_atom.specs.Atom.{definition_of};
ghost use Rattle.petri_atom.specs.Name.{is_same_text};
ghost use Rattle.plant_model.specs.Made.{plant_by};
ghost use Rattle.plant_model.specs.Rules.{are_small_guards, are_small_transfers, is_small_wire, is_known_place, is_known_condition, are_rules_over, is_within_limits, first_fault_in, atom_fault, tree_fault, early_fault};
ghost use Rattle.plant_model.specs.Wire.{wire_of, transfer_of};

use crate::fault::SystemFault;
use crate::limits::{MAX_ATOMS, MAX_GUARDS, MAX_INPUTS, MAX_RULES, MAX_TRANSFERS, MAX_WIRES};
use crate::wire::{Export, Input, Transfer, Wire};
use petri_atom::{Atom, Expression, Name};
use priority_filter::{At, Rule};

/// The first rule that is broken of those about limits, names of atoms and trees.
pub(crate) fn early_fault(atoms: &[Atom], wires: &[Wire], rules: &[Rule]) -> Option<SystemFault>
    ensures { result ≡ early_fault (plant_by atoms.now wires.now rules.now) }
{
    if !is_within_limits(atoms, wires, rules) {
        return Some(SystemFault::Limit);
    }
    match fault_of_atoms(atoms) {
        Some(fault) => Some(fault),
        None => fault_of_trees(wires),
    }
}

/// Whether there is an atom, no limit of atoms, wires and rules is passed, and each condition asks for a place that is there.
fn is_within_limits(atoms: &[Atom], wires: &[Wire], rules: &[Rule]) -> bool
    ensures { result ≡ is_within_limits (plant_by atoms.now wires.now rules.now) }
{
    (0 < atoms.len())
        & (atoms.len() <= MAX_ATOMS)
        & (wires.len() <= MAX_WIRES)
        & are_rules_over(atoms, rules)
        & are_small(wires)
}

/// Whether there are no more rules than a plant may have, and each condition names an atom and a place of it.
fn are_rules_over(atoms: &[Atom], rules: &[Rule]) -> bool
    ensures { result ≡ are_rules_over (map definition_of atoms.now) rules.now }
{
    (rules.len() <= MAX_RULES) & have_known_conditions(atoms, rules)
}

/// Whether the condition of each rule names an atom and a place of it.
fn have_known_conditions(atoms: &[Atom], rules: &[Rule]) -> bool
    ensures { result ≡ list_all (is_known_condition (map definition_of atoms.now)) rules.now }
{
    rules.iter().all(|rule| is_known_condition(atoms, rule))
}

/// Whether the rule has no condition, or one that names an atom and a place of it.
fn is_known_condition(atoms: &[Atom], rule: &Rule) -> bool
    ensures { result ≡ is_known_condition (map definition_of atoms.now) rule.now }
{
    match rule {
        Rule::UnderAt(_, _, at) => is_known_place(atoms, *at),
        Rule::Under(_, _) | Rule::Maximal(_) => true,
    }
}

/// Whether the atom is there, and has the place.
fn is_known_place(atoms: &[Atom], at: At) -> bool
    ensures { result ≡ is_known_place (map definition_of atoms.now) at }
{
    match atoms.get(usize::from(at.atom)) {
        Some(atom) => usize::from(at.place) < atom.places().len(),
        None => false,
    }
}

/// Whether each wire is within its limits.
fn are_small(wires: &[Wire]) -> bool
    ensures { result ≡ list_all is_small_wire (map wire_of wires.now) }
{
    each_is_small(wires)
}

/// The same, of the wires as they stand in memory.
fn each_is_small(wires: &[Wire]) -> bool
    ensures { result ≡ list_all (λ w. is_small_wire (wire_of w)) wires.now }
{
    wires.iter().all(|wire| are_small_guards(&wire.guards)
        & is_small(&wire.transfers)
        & are_few(&wire.inputs))
}

/// Whether there are no more guard clauses than a wire may have, each with no more words than an expression may have.
fn are_small_guards(clauses: &[Expression<Export>]) -> bool
    ensures { result ≡ are_small_guards (map tree_of clauses.now) }
{
    (clauses.len() <= MAX_GUARDS) & are_small_clauses(clauses)
}

/// Whether each clause has no more words than an expression may have.
fn are_small_clauses(clauses: &[Expression<Export>]) -> bool
    ensures { result ≡ list_all (λ clause. nat_le (word_count (tree_of clause)) MAX_WORDS) clauses.now }
{
    clauses.iter().all(|clause| clause.is_small())
}

/// Whether there are no more transfers than a wire may make, each with no more words than an expression may have.
fn is_small(transfers: &[Transfer]) -> bool
    ensures { result ≡ are_small_transfers (map transfer_of transfers.now) }
{
    (transfers.len() <= MAX_TRANSFERS) & have_small_values(transfers)
}

/// Whether there are no more inputs than a wire may have.
fn are_few(inputs: &[Input]) -> bool
    ensures { result ≡ nat_le (length inputs.now) MAX_INPUTS }
{
    inputs.len() <= MAX_INPUTS
}

/// Whether each transfer's expression has no more words than one may have.
fn have_small_values(transfers: &[Transfer]) -> bool
    ensures { result ≡ list_all (λ t. nat_le (word_count (tree_of t.value)) MAX_WORDS) transfers.now }
{
    transfers.iter().all(|transfer| transfer.value.is_small())
}

/// The first atom that has the name of an earlier one.
fn fault_of_atoms(atoms: &[Atom]) -> Option<SystemFault>
    requires { length atoms.now ≤ MAX_ATOMS }
    ensures { result ≡ first_fault_in (atom_fault (map definition_of atoms.now)) 0 (map definition_of atoms.now) }
{
    for (number, atom) in atoms.iter().enumerate() {
        if let Some(fault) = atom_fault(atoms, number, atom) {
            return Some(fault);
        }
    }
    None
}

/// The fault of the atom with the number, if an earlier one has its name.
fn atom_fault(atoms: &[Atom], number: usize, atom: &Atom) -> Option<SystemFault>
    requires limit { number < MAX_ATOMS }
    requires there { number < length atoms.now }
    ensures { result ≡ atom_fault (map definition_of atoms.now) number (definition_of atom.now) }
{
    if has_name(&atoms[..number], atom.name()) {
        Some(SystemFault::BadAtom(number as u16))
    } else {
        None
    }
}

/// Whether one of the atoms has the name.
fn has_name(atoms: &[Atom], name: &Name) -> bool
    ensures { result ≡ list_any (λ a. is_same_text (definition_of a).name name.now) atoms.now }
{
    atoms.iter().any(|atom| atom.name().same(name))
}

/// The first connector whose tree breaks a rule.
fn fault_of_trees(wires: &[Wire]) -> Option<SystemFault>
    requires { length wires.now ≤ MAX_WIRES }
    ensures { result ≡ first_fault_in tree_fault 0 (map wire_of wires.now) }
{
    for (number, wire) in wires.iter().enumerate() {
        if let Some(fault) = connector_tree::first_fault(&wire.connector) {
            return Some(SystemFault::BadConnector(number as u16, fault));
        }
    }
    None
}
