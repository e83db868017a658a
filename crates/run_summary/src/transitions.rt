//! The lines of transitions.
ghost use Rattle.std.specs.Prelude.{map};
ghost use Rattle.petri_atom.specs.Atom.{definition_of};
ghost use Rattle.run_text.specs.Seen.{Prints};
ghost use Rattle.text_io.specs.Numbered.{numbered};
ghost use Rattle.run_summary.specs.Lines.{part_line, transition_line, transition_lines, transition_words};

use crate::atom_summary::AtomSummary;
use crate::counts::Counts;
use crate::listing::Listing;
use petri_atom::Atom;
use run_text::print_transition_name;
use std::io::Write;
use text_io::{WriteFault, print_text};

/// Prints the transitions of atoms that are listed.
pub(crate) fn print_transitions<W: Write>(
    listing: Listing,
    atoms: &[Atom],
    summaries: &[AtomSummary],
    output: &mut W,
) -> Result<(), WriteFault>
    ensures { Prints result (W.contents output.old) (W.contents output.new) (numbered (transition_lines listing summaries.now) 0 (map definition_of atoms.now)) }
{
    for (number, atom) in atoms.iter().enumerate() {
        print_of_atom(listing, number, atom, summaries, output)?;
    }
    Ok(())
}

/// Prints the transitions of the atom with this number that are listed; nothing if there is no summary of it.
fn print_of_atom<W: Write>(
    listing: Listing,
    number: usize,
    atom: &Atom,
    summaries: &[AtomSummary],
    output: &mut W,
) -> Result<(), WriteFault>
    ensures { Prints result (W.contents output.old) (W.contents output.new) (transition_lines listing summaries.now number (definition_of atom.now)) }
{
    match summaries.get(number) {
        Some(summary) => print_counted(listing, atom, summary.transitions(), output),
        None => Ok(()),
    }
}

/// Prints the transitions of an atom that are listed, by how often each moved.
fn print_counted<W: Write>(
    listing: Listing,
    atom: &Atom,
    counts: &Counts,
    output: &mut W,
) -> Result<(), WriteFault>
    ensures { Prints result (W.contents output.old) (W.contents output.new)
        (numbered (transition_line listing (definition_of atom.now) counts.now) 0 (definition_of atom.now).transitions) }
{
    for number in 0..atom.transitions().len() {
        print_transition(listing, atom, number as u16, counts.of(number), output)?;
    }
    Ok(())
}

/// Prints a transition of an atom, if it is listed.
fn print_transition<W: Write>(
    listing: Listing,
    atom: &Atom,
    transition: u16,
    count: u64,
    output: &mut W,
) -> Result<(), WriteFault>
    ensures { Prints result (W.contents output.old) (W.contents output.new) (part_line listing (transition_words (definition_of atom.now) transition) count) }
{
    if !listing.has(count) {
        return Ok(());
    }
    listing.print_before(output)?;
    print_words(atom, transition, output)?;
    listing.print_after(count, output)
}

/// Prints which transition it is.
fn print_words<W: Write>(atom: &Atom, transition: u16, output: &mut W) -> Result<(), WriteFault>
    ensures { Prints result (W.contents output.old) (W.contents output.new) (transition_words (definition_of atom.now) transition) }
{
    print_text(output, b"transition ")?;
    print_transition_name(atom, transition, output)
}
