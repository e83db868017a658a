//! The replay of one atom.
ghost use Rattle.std.specs.Prelude.{◌≡◌, ◌≤◌, Ok, Err, IfSome, MatchResult};
ghost use Rattle.petri_atom.specs.Atom.{definition_of};
ghost use Rattle.petri_atom.specs.Definition.{Fits};
ghost use Rattle.record_replay.specs.Parts.{AreParts};
ghost use Rattle.record_replay.specs.Replay.{part_of, replay_entry, replay_from, replay_record};

use crate::fault::ReplayFault;
use crate::parts::has_atom;
use petri_atom::{Atom, AtomState, Delivered};
use record_codec::{Entry, Fired};

/// Brings the state of the atom with the number forward over the records, in place. The state is the one after `saved` firings; the answer is
/// after how many it is then. After a fault the state is one on the way. `parts` has at the place of each record the atoms that have a part in
/// it, as [`crate::atoms_in`] gives them, so that no other record is looked at. It takes no memory.
pub fn replay_atom(
    atom: &Atom,
    number: u16,
    saved: u64,
    records: &[Fired],
    parts: &[u64],
    state: &mut AtomState,
) -> Result<u64, ReplayFault>
    requires fits { Fits (definition_of atom.now) state.old }
    requires parts { AreParts records.now parts.now }
    ensures replayed { MatchResult result
        (λ count. replay_from (definition_of atom.now) number (record { state = state.old; count = saved }) records.now ≡ Ok (record { state = state.new; count = count }))
        (λ fault. replay_from (definition_of atom.now) number (record { state = state.old; count = saved }) records.now ≡ Err fault) }
    ensures fits { Fits (definition_of atom.now) state.new }
{
    let mut count = saved;
    for place in 0..records.len() {
        if has_atom(parts[place], number) {
            count = replay_record(atom, number, saved, &records[place], state, count)?;
        }
    }
    Ok(count)
}

/// Brings the state, which is after `count` firings, forward by the record.
fn replay_record(
    atom: &Atom,
    number: u16,
    saved: u64,
    fired: &Fired,
    state: &mut AtomState,
    count: u64,
) -> Result<u64, ReplayFault>
    requires fits { Fits (definition_of atom.now) state.old }
    ensures replayed { MatchResult result
        (λ after. replay_record (definition_of atom.now) number saved fired.now (record { state = state.old; count = count }) ≡ Ok (record { state = state.new; count = after }))
        (λ fault. replay_record (definition_of atom.now) number saved fired.now (record { state = state.old; count = count }) ≡ Err fault) }
    ensures fits { Fits (definition_of atom.now) state.new }
{
    match part_of(fired, number) {
        Some(entry) => replay_entry(atom, saved, fired.number(), entry, state, count),
        None => Ok(count),
    }
}

/// What the atom with the number did in the record, if it took part.
fn part_of(fired: &Fired, number: u16) -> Option<Entry>
    ensures part { result ≡ part_of number fired.now }
    ensures positive { IfSome result (λ entry. 1 ≤ entry.participation) }
{
    let entries = fired.entries();
    for entry in entries {
        if entry.atom == number {
            return Some(*entry);
        }
    }
    None
}

/// Brings the state, which is after `count` firings, forward by the entry of the record with the number.
fn replay_entry(
    atom: &Atom,
    saved: u64,
    number: u64,
    entry: Entry,
    state: &mut AtomState,
    count: u64,
) -> Result<u64, ReplayFault>
    requires positive { 1 ≤ entry.participation }
    requires fits { Fits (definition_of atom.now) state.old }
    ensures replayed { MatchResult result
        (λ after. replay_entry (definition_of atom.now) saved number entry (record { state = state.old; count = count }) ≡ Ok (record { state = state.new; count = after }))
        (λ fault. replay_entry (definition_of atom.now) saved number entry (record { state = state.old; count = count }) ≡ Err fault) }
    ensures fits { Fits (definition_of atom.now) state.new }
{
    if entry.participation <= saved {
        return Ok(count);
    }
    if entry.participation - 1 != count {
        return Err(ReplayFault::Gap);
    }
    if !atom.is_offered(state, entry.transition) {
        return Err(ReplayFault::NotEnabled(number));
    }
    atom.apply(state, entry.transition, &Delivered::of(entry.delivered));
    Ok(entry.participation)
}
