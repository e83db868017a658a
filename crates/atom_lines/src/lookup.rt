//! What a port exports, by the names of variables.
ghost use Rattle.std.specs.Prelude.{◌≡◌, ◌<◌, length, position, IfSome};
ghost use Rattle.petri_atom.specs.Name.{is_same_text};
ghost use Rattle.atom_lines.specs.Lookup.{is_named};

use petri_atom::Variable;

/// The place, among these numbers of variables, of the first one whose variable has the name.
pub(crate) fn find_export(variables: &[Variable], exports: &[u8], name: &[u8]) -> Option<usize>
    ensures first { result ≡ position (is_named variables.now name.now) exports.now }
    ensures within { IfSome result (λ index. index < length exports.now) }
{
    exports
        .iter()
        .position(|number| is_named(variables, *number, name))
}

/// Whether the variable with the number is there, and has the name.
fn is_named(variables: &[Variable], number: u8, name: &[u8]) -> bool
    ensures { result ≡ is_named variables.now name.now number }
{
    match variables.get(usize::from(number)) {
        Some(variable) => variable.name.as_bytes() == name,
        None => false,
    }
}
