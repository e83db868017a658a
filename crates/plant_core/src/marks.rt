//! What a durable plant knows of the records that are kept.
ghost use Rattle.std.specs.Prelude.{◌≡◌, ◌<◌, ◌≤◌, ◌++◌, ◌∷◌, [], IfOk, length, map, vec_capacity, vec_len};
ghost use Rattle.plant_core.specs.Marks.{marks_of, participation_in};
ghost use Rattle.trimmer.specs.declared.mark.TheConstants.{MOST_PARTICIPANTS};

use record_codec::{Entry, EntrySource, Fired};
use std::alloc::{AllocError, Global};
use trimmer::{Mark, Participation};

/// The marks of these records, in their order, with room for those of a full ring.
pub fn marks_of(alloc: Global, records: &[Fired], ring: u32) -> Result<Vec<Mark>, AllocError>
    requires { length records.now ≤ ring }
    ensures marks { IfOk result (λ marks. marks.items ≡ marks_of records.now) }
    ensures room { IfOk result (λ marks. ring ≤ vec_capacity marks) }
{
    let mut marks = Vec::with_capacity(alloc, ring as usize)?;
    for fired in records {
        push_mark(fired.number(), fired, &mut marks);
    }
    Ok(marks)
}

/// Adds the mark of the record with the number that has these entries behind the marks, where there is room for it. It is written where it stays.
pub(crate) fn push_mark<E: EntrySource>(number: u64, entries: &E, marks: &mut Vec<Mark>)
    requires few { length (E.entries entries.now) ≤ MOST_PARTICIPANTS }
    requires room { vec_len marks.old < vec_capacity marks.old }
    ensures marks { marks.new.items ≡ marks.old.items ++ record { number = number; participations = map participation_in (E.entries entries.now) } ∷ [] }
    ensures capacity { vec_capacity marks.new ≡ vec_capacity marks.old }
{
    let last = marks.len();
    marks.push_reserved(Mark::new(number));
    add_participants(entries, &mut marks[last]);
}

/// Adds what the entries tell of to a mark of nobody.
fn add_participants<E: EntrySource>(entries: &E, mark: &mut Mark)
    requires few { length (E.entries entries.now) ≤ MOST_PARTICIPANTS }
    requires nobody { mark.old.participations ≡ [] }
    ensures { mark.new ≡ record mark.old { participations = map participation_in (E.entries entries.now) } }
{
    for place in 0..entries.count() {
        mark.push(participation_in(&entries.entry(place)));
    }
}

/// Which firing of its atom the entry tells of.
fn participation_in(entry: &Entry) -> Participation
    ensures { result ≡ participation_in entry.now }
{
    Participation {
        atom: entry.atom,
        number: entry.participation,
    }
}
