//! Which records an atom holds.
ghost use Rattle.std.specs.Prelude.{◌≡◌, ◌≤◌, length};
ghost use Rattle.trimmer.specs.Covered.{saved_count};
ghost use Rattle.image_inspection.specs.Holding.{behind, first_held, keeps_base, missing};

use trimmer::{Mark, SavedAt, is_held_by};

/// How many of the records the atom holds: its firings there come after its newest saved state.
pub(crate) fn behind(saved: &[SavedAt], marks: &[Mark], atom: u16) -> u64
    ensures count { result ≡ behind saved.now marks.now atom }
    ensures few { result ≤ length marks.now }
{
    let mut count = 0;
    for mark in marks {
        if is_held_by(atom, mark, saved) {
            count += 1;
        }
    }
    count
}

/// The number of the first of them.
pub(crate) fn first_held(saved: &[SavedAt], marks: &[Mark], atom: u16) -> Option<u64>
    ensures { result ≡ first_held saved.now marks.now atom }
{
    for mark in marks {
        if is_held_by(atom, mark, saved) {
            return Some(mark.number());
        }
    }
    None
}

/// Whether the atom keeps the base where it is: it holds the first record.
pub(crate) fn keeps_base(saved: &[SavedAt], marks: &[Mark], atom: u16) -> bool
    ensures { result ≡ keeps_base saved.now marks.now atom }
{
    match marks.first() {
        Some(mark) => is_held_by(atom, mark, saved),
        None => false,
    }
}

/// How many more interactions there are than the first so many atoms took part in.
pub(crate) fn missing(last: u64, saved: &[SavedAt], marks: &[Mark], atoms: u16) -> u64
    ensures { result ≡ missing last saved.now marks.now atoms }
{
    let mut left = last;
    for atom in 0..atoms {
        left = left.saturating_sub(saved_count(saved, atom));
        left = left.saturating_sub(behind(saved, marks, atom));
    }
    left
}

/// How often the atom had taken part when its newest state was saved.
fn saved_count(saved: &[SavedAt], atom: u16) -> u64
    ensures { result ≡ saved_count saved.now atom }
{
    match saved.get(usize::from(atom)) {
        Some(newest) => newest.count,
        None => 0,
    }
}
