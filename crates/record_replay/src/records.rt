//! The record of a step.
ghost use Rattle.std.specs.Prelude.{◌≡◌, ◌+◌, ◌<◌, ◌≤◌, ◌^◌, ◌++◌, ◌∷◌, [], Contains, Some, length, map, vec_capacity, vec_len};
ghost use Rattle.std.specs.List.Sorted.{IsStrictlyIncreasing};
ghost use Rattle.record_codec.specs.Fired.{IsFired, fired_in};
ghost use Rattle.plant_model.specs.Chosen.{choice_of};
ghost use Rattle.plant_model.specs.Laws.{atoms_of};
ghost use Rattle.plant_model.specs.declared.choice.Move.{Move};
ghost use Rattle.record_replay.specs.Records.{count_of, counts_after, entries_delivered, entry_by, record_delivered};

use connector_tree::MAX_LEAVES;
use petri_atom::Delivered;
use plant_model::{Choice, MAX_ATOMS, Move};
use record_codec::{BODY, Entry, EntrySource, spell_over};

/// A choice that was fired, as its record tells of it.
#[derive(Clone, Copy)]
pub struct FiredStep<'a> {
    /// The number of the record.
    pub number: u64,
    /// The choice.
    pub choice: &'a Choice,
    /// At the place of each move, what its atom got.
    pub delivered: &'a [Delivered; MAX_LEAVES],
    /// How often each atom had taken part before.
    pub counts: &'a [u64; MAX_ATOMS],
    pub ghost each: { length choice.now.moves ≤ length delivered.now },
    pub ghost in_range: { IsFired (record_delivered number (choice_of choice.now) delivered.now counts.now) },
}

impl EntrySource for FiredStep<'_> {
    ghost entries = { λ step. entries_delivered step.counts.now step.choice.now.moves step.delivered.now };

    fn count(&self) -> usize {
        self.choice.moves.as_slice().len()
    }

    fn entry(&self, place: usize) -> Entry {
        let moves = self.choice.moves.as_slice();
        entry_of(moves[place], &self.delivered[place], self.counts)
    }
}

/// Adds the body of a cell that holds the record of the step behind the bodies, where there is room for it. It is written where it stays, and no list
/// of its entries is made.
pub fn push_record(step: &FiredStep<'_>, bodies: &mut Vec<[u8; BODY]>)
    requires { vec_len bodies.old < vec_capacity bodies.old }
    ensures held { map fired_in bodies.new.items ≡ map fired_in bodies.old.items
        ++ Some (record_delivered step.now.number (choice_of step.now.choice.now) step.now.delivered.now step.now.counts.now) ∷ [] }
    ensures capacity { vec_capacity bodies.new ≡ vec_capacity bodies.old }
{
    let place = bodies.len();
    bodies.push_reserved([0; BODY]);
    spell_over(step.number, step.choice.connector, step, &mut bodies[place]);
}

/// What the participant did, which got `delivered`.
fn entry_of(step: Move, delivered: &Delivered, counts: &[u64; MAX_ATOMS]) -> Entry
    requires there { step.atom < MAX_ATOMS }
    requires room { count_of counts.now step.atom + 1 < 2 ^ 64 }
    ensures { result ≡ entry_by counts.now step delivered.now }
{
    Entry {
        atom: step.atom,
        transition: step.transition,
        participation: counts[usize::from(step.atom)] + 1,
        delivered: delivered.row(),
    }
}

/// Counts the participants of a choice: each has taken part once more.
pub fn count_participants(choice: &Choice, counts: &mut [u64; MAX_ATOMS])
    requires rising { IsStrictlyIncreasing (atoms_of choice.now.moves) }
    requires there { (m : Move) → Contains choice.now.moves m → m.atom < MAX_ATOMS }
    requires room { (m : Move) → Contains choice.now.moves m → count_of counts.old m.atom + 1 < 2 ^ 64 }
    ensures { counts.new ≡ counts_after choice.now.moves counts.old }
{
    let moves = choice.moves.as_slice();
    for step in moves {
        counts[usize::from(step.atom)] += 1;
    }
}
