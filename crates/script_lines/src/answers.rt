//! The lines of answers, refusals and fronts.
ghost use Rattle.std.specs.Prelude.{◌≡◌, ◌++◌, [], codes, if◌then◌else◌, OnOk};
ghost use Rattle.std.specs.Io.KnownBytes.{Appends};
ghost use Rattle.petri_atom.specs.Atom.{definition_of as atom_definition_of};
ghost use Rattle.plant_model.specs.Chosen.{choice_of};
ghost use Rattle.plant_model.specs.System.{plant_of};
ghost use Rattle.text_io.specs.Numbered.{numbered};
ghost use Rattle.script_lines.specs.Answers.{asked_line, atom_in, atom_said, back_line, base_line, begun_line, fire_line, flushed_line, front_line, happened_line, name_if_in, name_of, not_now_line, nothing_line, refused_line, saved_line, stored_line};

use crate::atoms::atom_name;
use petri_atom::Atom;
use plant_core::{FiredAs, Front, Happened, Refused, SavedTo};
use plant_model::System;
use run_text::print_choice;
use std::io::Write;
use text_io::{WriteFault, print_number, print_text};

/// Prints what happened to a durable plant of the system: a choice that was fired as a trace prints it, with ` begun` after it where its
/// participants went away, `flushed N` where all up to number N is acknowledged, `asked NAME COUNT` where the state of the atom was copied,
/// `stored NAME COUNT` where it was stored, `saved N NAME ..` where the acknowledged states of these atoms were, `back NAME` where the atom is present
/// again, `nothing NAME` where no state or no job of it was at hand, `base N` where records were dropped and N is the first that is kept, and `refused NUMBER NAME` where the plant refused, or did not have the choice
/// that was to be fired. The line is not ended.
pub fn print_happened<W: Write>(
    system: &System,
    happened: &Happened,
    output: &mut W,
) -> Result<(), WriteFault>
    ensures { OnOk result (Appends (W.contents output.old) (W.contents output.new)
        (happened_line (plant_of system.now) happened.now)) }
{
    match happened {
        Happened::Fire(_, _, answer) => print_fired(system, answer, output),
        Happened::FireChoice(_, _, Some(answer)) => print_fired(system, answer, output),
        Happened::FireChoice(_, _, None) => print_not_now(output),
        Happened::Flush(Ok(number)) => print_flushed(*number, output),
        Happened::Flush(Err(refused)) => print_refused(*refused, output),
        Happened::Ask(atom, Ok(copy)) => {
            print_asked(atom_name(system, *atom), copy.count(), output)
        }
        Happened::Ask(_, Err(refused)) => print_refused(*refused, output),
        Happened::Put(handed, Ok(count)) => {
            print_stored(atom_name(system, handed.atom()), *count, output)
        }
        Happened::Put(_, Err(refused)) => print_refused(*refused, output),
        Happened::Empty(atom) => print_nothing(atom_name(system, *atom), output),
        Happened::Save(Ok(saved)) => print_saved(system, *saved, output),
        Happened::Save(Err(refused)) => print_refused(*refused, output),
        Happened::Trim(Ok(base)) => print_base(*base, output),
        Happened::Trim(Err(refused)) => print_refused(*refused, output),
        Happened::Begin(_, _, Ok(fired)) => print_begun(system, fired, output),
        Happened::Begin(_, _, Err(refused)) => print_refused(*refused, output),
        Happened::Back(returned, Ok(())) => print_back(atom_name(system, returned.atom), output),
        Happened::Back(_, Err(refused)) => print_refused(*refused, output),
        Happened::Idle(atom) => print_nothing(atom_name(system, *atom), output),
    }
}

/// Prints a choice that was fired, or why none was.
fn print_fired<W: Write>(
    system: &System,
    answer: &Result<FiredAs, Refused>,
    output: &mut W,
) -> Result<(), WriteFault>
    ensures { OnOk result (Appends (W.contents output.old) (W.contents output.new) (fire_line (plant_of system.now) answer.now)) }
{
    match answer {
        Ok(fired) => print_choice(fired.number, system, &fired.choice, output),
        Err(refused) => print_refused(*refused, output),
    }
}

/// Prints that the plant does not have the choice that was to be fired.
pub(crate) fn print_not_now<W: Write>(output: &mut W) -> Result<(), WriteFault>
    ensures { OnOk result (Appends (W.contents output.old) (W.contents output.new) not_now_line) }
{
    print_text(output, b"refused 12 NotNow")
}

/// Prints up to which number all is acknowledged.
fn print_flushed<W: Write>(number: u64, output: &mut W) -> Result<(), WriteFault>
    ensures { OnOk result (Appends (W.contents output.old) (W.contents output.new) (flushed_line number)) }
{
    print_text(output, b"flushed ")?;
    print_number(output, number)
}

/// Prints that the state of the atom with the name was copied, and how often the atom has taken part.
fn print_asked<W: Write>(name: &[u8], count: u64, output: &mut W) -> Result<(), WriteFault>
    ensures { OnOk result (Appends (W.contents output.old) (W.contents output.new) (asked_line name.now count)) }
{
    print_text(output, b"asked ")?;
    print_text(output, name)?;
    print_text(output, b" ")?;
    print_number(output, count)
}

/// Prints that the state of the atom with the name was stored, and how often the atom had taken part.
fn print_stored<W: Write>(name: &[u8], count: u64, output: &mut W) -> Result<(), WriteFault>
    ensures { OnOk result (Appends (W.contents output.old) (W.contents output.new) (stored_line name.now count)) }
{
    print_text(output, b"stored ")?;
    print_text(output, name)?;
    print_text(output, b" ")?;
    print_number(output, count)
}

/// Prints up to which number all is acknowledged, and the names of the atoms whose states were stored.
fn print_saved<W: Write>(system: &System, saved: SavedTo, output: &mut W) -> Result<(), WriteFault>
    ensures { OnOk result (Appends (W.contents output.old) (W.contents output.new) (saved_line (plant_of system.now) saved)) }
{
    print_text(output, b"saved ")?;
    print_number(output, saved.number)?;
    print_names(system, saved, output)
}

/// Prints the name of each atom whose state was stored, behind a space.
fn print_names<W: Write>(system: &System, saved: SavedTo, output: &mut W) -> Result<(), WriteFault>
    ensures { OnOk result (Appends (W.contents output.old) (W.contents output.new)
        (numbered (name_if_in saved.atoms) 0 (plant_of system.now).atoms)) }
{
    system.keeps_its_rules();
    for (number, atom) in system.atoms().iter().enumerate() {
        print_name_if(saved.has(number as u16), atom, output)?;
    }
    Ok(())
}

/// Prints the name of the atom behind a space, if it is to be named.
fn print_name_if<W: Write>(named: bool, atom: &Atom, output: &mut W) -> Result<(), WriteFault>
    ensures { OnOk result (Appends (W.contents output.old) (W.contents output.new)
        (if named then codes " " ++ (atom_definition_of atom.now).name else [])) }
{
    if named {
        print_text(output, b" ")?;
        print_text(output, atom.name().as_bytes())
    } else {
        print_text(output, b"")
    }
}

/// Prints a choice whose participants went away.
fn print_begun<W: Write>(system: &System, fired: &FiredAs, output: &mut W) -> Result<(), WriteFault>
    ensures { OnOk result (Appends (W.contents output.old) (W.contents output.new)
        (begun_line (plant_of system.now) fired.now.number (choice_of fired.now.choice))) }
{
    print_choice(fired.number, system, &fired.choice, output)?;
    print_text(output, b" begun")
}

/// Prints that the atom with the name is present again.
fn print_back<W: Write>(name: &[u8], output: &mut W) -> Result<(), WriteFault>
    ensures { OnOk result (Appends (W.contents output.old) (W.contents output.new) (back_line name.now)) }
{
    print_text(output, b"back ")?;
    print_text(output, name)
}

/// Prints that nothing of the atom with the name was at hand: no state to be stored, or no job to be handed in.
fn print_nothing<W: Write>(name: &[u8], output: &mut W) -> Result<(), WriteFault>
    ensures { OnOk result (Appends (W.contents output.old) (W.contents output.new) (nothing_line name.now)) }
{
    print_text(output, b"nothing ")?;
    print_text(output, name)
}

/// Prints the number of the first record that is kept.
fn print_base<W: Write>(number: u64, output: &mut W) -> Result<(), WriteFault>
    ensures { OnOk result (Appends (W.contents output.old) (W.contents output.new) (base_line number)) }
{
    print_text(output, b"base ")?;
    print_number(output, number)
}

/// Prints a refusal: its number, its name, and in parentheses the number of the atom that it speaks of.
fn print_refused<W: Write>(refused: Refused, output: &mut W) -> Result<(), WriteFault>
    ensures { OnOk result (Appends (W.contents output.old) (W.contents output.new) (refused_line refused)) }
{
    print_text(output, b"refused ")?;
    print_number(output, u64::from(refused.number()))?;
    print_text(output, b" ")?;
    print_text(output, refused_name(refused).as_bytes())?;
    print_atom(atom_in(refused), output)
}

/// Prints the number of an atom in parentheses, where there is one.
fn print_atom<W: Write>(atom: Option<u16>, output: &mut W) -> Result<(), WriteFault>
    ensures { OnOk result (Appends (W.contents output.old) (W.contents output.new) (atom_said atom)) }
{
    match atom {
        Some(atom) => {
            print_text(output, b"(")?;
            print_number(output, u64::from(atom))?;
            print_text(output, b")")
        }
        None => print_text(output, b""),
    }
}

/// The name of a refusal.
pub fn refused_name(refused: Refused) -> &'static str
    ensures { result.now ≡ name_of refused }
{
    match refused {
        Refused::Stuck => "Stuck",
        Refused::Busy => "Busy",
        Refused::TailFull => "TailFull",
        Refused::RingFull => "RingFull",
        Refused::Spent => "Spent",
        Refused::Away(_) => "Away",
        Refused::Ahead(_) => "Ahead",
        Refused::Stranger => "Stranger",
        Refused::NothingNew => "NothingNew",
        Refused::Disk => "Disk",
        Refused::Broken => "Broken",
        Refused::Values => "Values",
    }
}

/// The number of the atom that a refusal speaks of.
pub(crate) fn atom_in(refused: Refused) -> Option<u16>
    ensures { result ≡ atom_in refused }
{
    match refused {
        Refused::Away(atom) | Refused::Ahead(atom) => Some(atom),
        _ => None,
    }
}

/// Prints how far a plant is: the number of the last choice that was fired, of the last that is acknowledged, and of the first record that is
/// kept. The line is not ended.
pub fn print_front<W: Write>(front: Front, output: &mut W) -> Result<(), WriteFault>
    ensures { OnOk result (Appends (W.contents output.old) (W.contents output.new) (front_line front)) }
{
    print_text(output, b"front ")?;
    print_number(output, front.fired)?;
    print_text(output, b" ")?;
    print_number(output, front.acked)?;
    print_text(output, b" ")?;
    print_number(output, front.base)
}
