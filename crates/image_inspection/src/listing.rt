//! The live records, and the states in the slots.
ghost use Rattle.std.specs.Prelude.{◌≡◌, [], flat_map, map, option_copied, slice_get};
ghost use Rattle.std.specs.Option.{option_map_or};
ghost use Rattle.run_text.specs.Line.{state_line};
ghost use Rattle.std.specs.List.{range_with_len};
ghost use Rattle.image_inspection.specs.Listing.{choice_in, entry_word, local_words, move_in, record_line, record_words, records_text, saved_words, slot_line, slot_text, slots_lines, slots_text, value_word};
ghost use Rattle.image_inspection.specs.Seen.{Prints, plant_of};
ghost use Rattle.snapshot_writer.specs.Parcels.{local_in};
ghost use Rattle.plant_model.specs.Chosen.{choice_of};

use crate::contents::saved_at;
use crate::places::print_slot;
use disk_model::BODY;
use petri_atom::AtomState;
use plant_model::{Choice, Move, Moves, System};
use record_codec::{Entry, Fired, Saved};
use run_text::{print_choice, print_state};
use std::io::Write;
use text_io::{WriteFault, end_line, print_number, print_signed, print_text};

// ---- records

/// Prints the live records, if they are asked for.
pub(crate) fn print_records<W: Write>(
    asked: bool,
    names: Option<&System>,
    records: &[Fired],
    output: &mut W,
) -> Result<(), WriteFault>
    ensures { Prints result (W.contents output.old) (W.contents output.new) (records_text asked (option_copied names.entry) records.now) }
{
    if asked {
        print_all_records(names, records, output)
    } else {
        print_text(output, b"")
    }
}

/// Prints a line for each of the records.
fn print_all_records<W: Write>(
    names: Option<&System>,
    records: &[Fired],
    output: &mut W,
) -> Result<(), WriteFault>
    ensures { Prints result (W.contents output.old) (W.contents output.new) (flat_map (record_line (option_copied names.entry)) records.now) }
{
    for fired in records {
        print_record_line(names, fired, output)?;
    }
    Ok(())
}

/// Prints the line of a record.
fn print_record_line<W: Write>(
    names: Option<&System>,
    fired: &Fired,
    output: &mut W,
) -> Result<(), WriteFault>
    ensures { Prints result (W.contents output.old) (W.contents output.new) (record_line (option_copied names.entry) fired.now) }
{
    print_record(names, fired, output)?;
    end_line(output)
}

/// Prints a record, as the printed run has it, and by numbers without names.
fn print_record<W: Write>(
    names: Option<&System>,
    fired: &Fired,
    output: &mut W,
) -> Result<(), WriteFault>
    ensures { Prints result (W.contents output.old) (W.contents output.new) (record_words (option_copied names.entry) fired.now) }
{
    match names {
        Some(system) => print_choice(fired.number(), system, &choice_in(fired), output),
        None => {
            print_number(output, fired.number())?;
            print_text(output, b" ")?;
            print_number(output, u64::from(fired.connector()))?;
            print_entries(fired.entries(), output)
        }
    }
}

/// The choice that was fired.
fn choice_in(fired: &Fired) -> Choice
    ensures { choice_of result ≡ choice_in fired.now }
{
    Choice {
        connector: fired.connector(),
        mask: 0,
        moves: moves_in(fired),
    }
}

/// What each participant did.
fn moves_in(fired: &Fired) -> Moves
    ensures { result ≡ map move_in fired.now.entries }
{
    let mut moves = Moves::none();
    for entry in fired.entries() {
        moves.push(Move {
            atom: entry.atom,
            transition: entry.transition,
        });
    }
    moves
}

/// Prints each participant by numbers, with a space before it.
fn print_entries<W: Write>(entries: &[Entry], output: &mut W) -> Result<(), WriteFault>
    ensures { Prints result (W.contents output.old) (W.contents output.new) (flat_map entry_word entries.now) }
{
    for entry in entries {
        print_entry(entry, output)?;
    }
    Ok(())
}

/// Prints a participant by numbers, with a space before it.
fn print_entry<W: Write>(entry: &Entry, output: &mut W) -> Result<(), WriteFault>
    ensures { Prints result (W.contents output.old) (W.contents output.new) (entry_word entry.now) }
{
    print_text(output, b" ")?;
    print_number(output, u64::from(entry.atom))?;
    print_text(output, b"/")?;
    print_number(output, u64::from(entry.transition))
}

// ---- states

/// Prints the states in the slots of the atoms, if they are asked for.
pub(crate) fn print_slots<W: Write>(
    asked: bool,
    names: Option<&System>,
    atoms: u16,
    cells: &[Option<[u8; BODY]>],
    output: &mut W,
) -> Result<(), WriteFault>
    ensures { Prints result (W.contents output.old) (W.contents output.new) (slots_text asked (option_copied names.entry) cells.now atoms) }
{
    if asked {
        print_all_slots(names, atoms, cells, output)
    } else {
        print_text(output, b"")
    }
}

/// Prints the states in the slots of the atoms.
fn print_all_slots<W: Write>(
    names: Option<&System>,
    atoms: u16,
    cells: &[Option<[u8; BODY]>],
    output: &mut W,
) -> Result<(), WriteFault>
    ensures { Prints result (W.contents output.old) (W.contents output.new) (flat_map (slots_lines (option_copied names.entry) cells.now) (range_with_len 0 atoms)) }
{
    for atom in 0..atoms {
        print_both_slots(names, atom, cells, output)?;
    }
    Ok(())
}

/// Prints the states in both slots of an atom.
fn print_both_slots<W: Write>(
    names: Option<&System>,
    atom: u16,
    cells: &[Option<[u8; BODY]>],
    output: &mut W,
) -> Result<(), WriteFault>
    ensures { Prints result (W.contents output.old) (W.contents output.new) (slots_lines (option_copied names.entry) cells.now atom) }
{
    print_slot_line(names, atom, 0, cells, output)?;
    print_slot_line(names, atom, 1, cells, output)
}

/// Prints the state in slot 0 or 1 of an atom, if the slot holds one of it.
fn print_slot_line<W: Write>(
    names: Option<&System>,
    atom: u16,
    slot: u8,
    cells: &[Option<[u8; BODY]>],
    output: &mut W,
) -> Result<(), WriteFault>
    ensures { Prints result (W.contents output.old) (W.contents output.new) (slot_line (option_copied names.entry) cells.now atom slot) }
{
    match saved_at(atom, slot, cells) {
        Some(saved) => print_slot_text(names, atom, slot, &saved, output),
        None => print_text(output, b""),
    }
}

/// Prints a state in a slot.
fn print_slot_text<W: Write>(
    names: Option<&System>,
    atom: u16,
    slot: u8,
    saved: &Saved,
    output: &mut W,
) -> Result<(), WriteFault>
    ensures { Prints result (W.contents output.old) (W.contents output.new) (slot_text (option_copied names.entry) atom slot saved.now) }
{
    print_slot(names, atom, slot, output)?;
    print_text(output, b" ")?;
    print_saved(saved, output)?;
    print_text(output, b": ")?;
    print_local(names, atom, saved, output)?;
    end_line(output)
}

/// Prints how often an atom had taken part, and the last record when its state was copied.
pub(crate) fn print_saved<W: Write>(saved: &Saved, output: &mut W) -> Result<(), WriteFault>
    ensures { Prints result (W.contents output.old) (W.contents output.new) (saved_words saved.now) }
{
    print_text(output, b"saved ")?;
    print_number(output, saved.count())?;
    print_text(output, b" at ")?;
    print_number(output, saved.at())
}

/// Prints the state of an atom, as the printed run has it, and by numbers without names.
fn print_local<W: Write>(
    names: Option<&System>,
    atom: u16,
    saved: &Saved,
    output: &mut W,
) -> Result<(), WriteFault>
    ensures { Prints result (W.contents output.old) (W.contents output.new) (local_words (option_copied names.entry) atom (local_in saved.now)) }
{
    match names {
        Some(system) => print_named(system, atom, saved, output),
        None => {
            print_text(output, b"marking ")?;
            print_number(output, saved.marking())?;
            print_values(saved.values(), output)
        }
    }
}

/// Prints the state of an atom of the plant, as the printed run has it; nothing if there is no such atom.
fn print_named<W: Write>(
    system: &System,
    atom: u16,
    saved: &Saved,
    output: &mut W,
) -> Result<(), WriteFault>
    ensures { Prints result (W.contents output.old) (W.contents output.new)
        (option_map_or (λ a. state_line a (local_in saved.now)) (slice_get (plant_of system.now).atoms atom) []) }
{
    match system.atoms().get(usize::from(atom)) {
        Some(atom) => print_state(
            atom,
            &AtomState::with(saved.marking(), saved.values()),
            output,
        ),
        None => print_text(output, b""),
    }
}

/// Prints each value with a space before it.
fn print_values<W: Write>(values: &[i64], output: &mut W) -> Result<(), WriteFault>
    ensures { Prints result (W.contents output.old) (W.contents output.new) (flat_map value_word values.now) }
{
    for value in values {
        print_value(*value, output)?;
    }
    Ok(())
}

/// Prints a value with a space before it.
fn print_value<W: Write>(value: i64, output: &mut W) -> Result<(), WriteFault>
    ensures { Prints result (W.contents output.old) (W.contents output.new) (value_word value) }
{
    print_text(output, b" ")?;
    print_signed(output, value)
}
