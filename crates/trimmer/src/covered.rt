//! How many records may go.
ghost use Rattle.std.specs.Prelude.{◌≡◌};
ghost use Rattle.std.specs.List.{prefix_len};
ghost use Rattle.trimmer.specs.Covered.{is_covered, is_held_by, is_saved};

use crate::mark::{Mark, Participation};
use crate::saved::SavedAt;

/// The length of the longest front of records that are all covered. Entry n of `saved` is the newest snapshot of atom n.
pub fn cut(records: &[Mark], saved: &[SavedAt]) -> usize
    ensures { result ≡ prefix_len (is_covered saved.now) records.now }
{
    let mut covered = 0;
    while covered < records.len() && is_covered(&records[covered], saved) {
        covered += 1;
    }
    covered
}

/// Whether the record is covered: the newest snapshot of each participant was made after it.
pub fn is_covered(mark: &Mark, saved: &[SavedAt]) -> bool
    ensures { result ≡ is_covered saved.now mark.now }
{
    mark.participations().iter().all(|one| is_saved(one, saved))
}

/// Whether the atom keeps the record: it is a participant whose newest snapshot was made before its firing.
pub fn is_held_by(atom: u16, mark: &Mark, saved: &[SavedAt]) -> bool
    ensures { result ≡ is_held_by atom saved.now mark.now }
{
    mark.participations()
        .iter()
        .any(|one| one.atom == atom && !is_saved(one, saved))
}

/// Whether the newest snapshot of the participant was made after its firing; an atom without one has saved none.
fn is_saved(one: &Participation, saved: &[SavedAt]) -> bool
    ensures { result ≡ is_saved saved.now one.now }
{
    match saved.get(usize::from(one.atom)) {
        Some(newest) => one.number <= newest.count,
        None => one.number == 0,
    }
}
