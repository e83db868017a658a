//! Priority rules as the plant text writes them.
ghost use Rattle.std.specs.Prelude.{◌++◌, codes};
ghost use Rattle.plant_model.specs.Plant.{wire_name};
ghost use Rattle.std.specs.Prelude.{◌≡◌, map};
ghost use Rattle.text_io.specs.Printing.{Prints};
ghost use Rattle.part_text.specs.Seen.{definition_of, plant_of};
ghost use Rattle.part_text.specs.Rule.{atom_name, condition_text, name_of_place, place_name, rule_text, side_word, sides_text};

use petri_atom::Atom;
use plant_model::System;
use priority_filter::{At, Rule, Side};
use std::io::Write;
use text_io::{WriteFault, print_number, print_text};

/// Prints a rule as the words of its line: `prio LEFT < RIGHT`, with ` when ATOM at PLACE` if it has a condition, or `maximal NAME`,
/// with no end of the line.
pub fn print_rule<W: Write>(system: &System, rule: Rule, output: &mut W) -> Result<(), WriteFault>
    ensures { Prints result (W.contents output.old) (W.contents output.new) (rule_text (plant_of system.now) rule) }
{
    match rule {
        Rule::Under(left, right) => print_under(system, left, right, output),
        Rule::UnderAt(left, right, at) => {
            print_under(system, left, right, output)?;
            print_condition(system, at, output)
        }
        Rule::Maximal(connector) => print_maximal(system, connector, output),
    }
}

/// Prints the rule that each interaction of the left side is below each of the right side.
fn print_under<W: Write>(
    system: &System,
    left: Side,
    right: Side,
    output: &mut W,
) -> Result<(), WriteFault>
    ensures { Prints result (W.contents output.old) (W.contents output.new) (codes "prio " ++ sides_text (plant_of system.now) left right) }
{
    print_text(output, b"prio ")?;
    print_sides(system, left, right, output)
}

/// Prints the rule that a connector is to be maximal.
fn print_maximal<W: Write>(
    system: &System,
    connector: u16,
    output: &mut W,
) -> Result<(), WriteFault>
    ensures { Prints result (W.contents output.old) (W.contents output.new) (codes "maximal " ++ wire_name (plant_of system.now) connector) }
{
    print_text(output, b"maximal ")?;
    print_text(output, system.wire_name(connector))
}

/// Prints the sides of a rule, the lower first.
pub fn print_sides<W: Write>(
    system: &System,
    left: Side,
    right: Side,
    output: &mut W,
) -> Result<(), WriteFault>
    ensures { Prints result (W.contents output.old) (W.contents output.new) (sides_text (plant_of system.now) left right) }
{
    print_side(system, left, output)?;
    print_text(output, b" < ")?;
    print_side(system, right, output)
}

/// Prints the condition of a rule: ` when ATOM at PLACE`.
pub fn print_condition<W: Write>(system: &System, at: At, output: &mut W) -> Result<(), WriteFault>
    ensures { Prints result (W.contents output.old) (W.contents output.new) (condition_text (plant_of system.now) at) }
{
    print_text(output, b" when ")?;
    print_text(output, atom_name(system.atoms(), at.atom))?;
    print_text(output, b" at ")?;
    print_text(output, name_of_place(system.atoms(), at.atom, at.place))
}

/// The name of the atom with this number; empty if it is not there.
fn atom_name(atoms: &[Atom], atom: u16) -> &[u8]
    ensures { result.now ≡ atom_name (map definition_of atoms.now) atom }
{
    match atoms.get(usize::from(atom)) {
        Some(atom) => atom.name().as_bytes(),
        None => &[],
    }
}

/// The name of a place of the atom with this number; empty if the atom or the place is not there.
fn name_of_place(atoms: &[Atom], atom: u16, place: u16) -> &[u8]
    ensures { result.now ≡ name_of_place (map definition_of atoms.now) atom place }
{
    match atoms.get(usize::from(atom)) {
        Some(atom) => place_name(atom, place),
        None => &[],
    }
}

/// The name of the place of the atom with this number; empty if it is not there.
pub fn place_name(atom: &Atom, place: u16) -> &[u8]
    ensures { result.now ≡ place_name (definition_of atom.now) place }
{
    match atom.places().get(usize::from(place)) {
        Some(place) => place.name.as_bytes(),
        None => &[],
    }
}

/// Prints a side as the plant text writes it: `NAME` or `NAME:MASK`.
fn print_side<W: Write>(system: &System, side: Side, output: &mut W) -> Result<(), WriteFault>
    ensures { Prints result (W.contents output.old) (W.contents output.new) (side_word (plant_of system.now) side) }
{
    match side {
        Side::Whole(connector) => print_text(output, system.wire_name(connector)),
        Side::One(connector, mask) => {
            print_text(output, system.wire_name(connector))?;
            print_text(output, b":")?;
            print_number(output, u64::from(mask))
        }
    }
}
