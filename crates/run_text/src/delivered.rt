//! The values that a firing delivers, as words.
ghost use Rattle.std.specs.Prelude.{◌≡◌, IfOk};
ghost use Rattle.run_text.specs.Seen.{Prints, definition_of};
ghost use Rattle.run_text.specs.Delivered.{delivered_words, export_text, export_words, exports_by, owner_text};
ghost use Rattle.run_text.specs.Word.{after_words, between_text, separated_after};

use crate::format::between_text;
use crate::word::print_assigned;
use petri_atom::{Atom, Delivered};
use std::io::Write;
use text_io::{Format, WriteFault, print_text};

/// Prints what is delivered to an atom that fires the transition, in the order of what its port exports, with `before`
/// before the first value; returns what is to stand before the value that is printed next.
pub(crate) fn print_delivered<W: Write>(
    format: Format,
    atom: &Atom,
    transition: u16,
    delivered: &Delivered,
    before: &'static [u8],
    output: &mut W,
) -> Result<&'static [u8], WriteFault>
    ensures printed { Prints result (W.contents output.old) (W.contents output.new)
        (separated_after before.now (between_text format) (delivered_words format (definition_of atom.now) transition delivered.now)) }
    ensures next { IfOk result (λ next. next.now ≡ after_words before.now (between_text format) (delivered_words format (definition_of atom.now) transition delivered.now)) }
{
    let mut between = before;
    for (export, variable) in exports_by(atom, transition).iter().enumerate() {
        let value = delivered.value(export);
        between = print_export(format, atom, *variable, value, between, output)?;
    }
    Ok(between)
}

/// Prints the value that an exported variable of the atom gets, if it gets one, with `before` before it; returns what is to
/// stand before the value that is printed next.
fn print_export<W: Write>(
    format: Format,
    atom: &Atom,
    variable: u8,
    value: Option<i64>,
    before: &'static [u8],
    output: &mut W,
) -> Result<&'static [u8], WriteFault>
    ensures printed { Prints result (W.contents output.old) (W.contents output.new)
        (separated_after before.now (between_text format) (export_words format (definition_of atom.now) variable value)) }
    ensures next { IfOk result (λ next. next.now ≡ after_words before.now (between_text format) (export_words format (definition_of atom.now) variable value)) }
{
    match value {
        Some(value) => {
            print_text(output, before)?;
            print_value(format, atom, variable, value, output)?;
            Ok(between_text(format))
        }
        None => Ok(before),
    }
}

/// Prints a value that the variable of the atom gets.
fn print_value<W: Write>(
    format: Format,
    atom: &Atom,
    variable: u8,
    value: i64,
    output: &mut W,
) -> Result<(), WriteFault>
    ensures { Prints result (W.contents output.old) (W.contents output.new) (export_text format (definition_of atom.now) variable value) }
{
    print_owner(format, atom, output)?;
    print_assigned(format, atom.variable_name(variable), value, output)
}

/// Prints what stands before a variable of the atom: in JSON nothing, and else the atom's name.
fn print_owner<W: Write>(format: Format, atom: &Atom, output: &mut W) -> Result<(), WriteFault>
    ensures { Prints result (W.contents output.old) (W.contents output.new) (owner_text format (definition_of atom.now).name) }
{
    match format {
        Format::Lines | Format::Csv => {
            print_text(output, atom.name().as_bytes())?;
            print_text(output, b".")
        }
        Format::Jsonl => print_text(output, b""),
    }
}

/// The variables that the port of the transition exports; none if the transition is not there.
fn exports_by(atom: &Atom, transition: u16) -> &[u8]
    ensures { result.now ≡ exports_by (definition_of atom.now) transition }
{
    match atom.transitions().get(usize::from(transition)) {
        Some(transition) => atom.exports(transition.port()),
        None => &[],
    }
}
