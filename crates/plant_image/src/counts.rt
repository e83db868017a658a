//! How often the atoms have taken part, beside what the live records and the saved states account for.
ghost use Rattle.std.specs.Prelude.{◌≡◌, ◌+◌, ◌-◌, ◌<◌, ◌≤◌, ◌||◌, ℕ, length, map, nat_lt};
ghost use Rattle.petri_atom.specs.Atom.{definition_of};
ghost use Rattle.petri_atom.specs.Definition.{AtomDefinition};
ghost use Rattle.plant_model.specs.Rules.{first_fault_in};
ghost use Rattle.plant_model.specs.declared.limits.TheConstants.{MAX_ATOMS};
ghost use Rattle.record_codec.specs.declared.layout.TheConstants.{LAST_NUMBER};
ghost use Rattle.record_replay.specs.Records.{count_of};
ghost use Rattle.plant_image.specs.Contents.{most_at, most_by};
ghost use Rattle.plant_image.specs.Faults.{fault_where, is_unaccounted};
ghost use Rattle.plant_image.specs.Reading.{Tells, contents_in};
ghost use Rattle.plant_image.specs.declared.fault.ImageFault.TheVariants.{Gap};

use crate::fault::ImageFault;
use crate::standing::Held;
use petri_atom::Atom;
use plant_model::MAX_ATOMS;
use record_codec::Fired;

/// So many interactions a plant fires at most before it acknowledges them: no state is copied later than so many after the last live record.
pub const MOST_AHEAD: u64 = 64;

/// Judges that no record is missing by which an atom took part, or after which its saved state was copied.
pub(crate) fn judge_counts(
    atoms: &[Atom],
    held: &Held,
    counts: &[u64; MAX_ATOMS],
) -> Result<(), ImageFault>
    requires many { length atoms.now ≤ MAX_ATOMS }
    requires slots { length held.now.slots.items ≡ length atoms.now }
    requires base { 1 ≤ held.now.base }
    requires last { held.now.base + length held.now.records.items ≤ LAST_NUMBER + 1 }
    ensures { Tells (first_fault_in (λ atom (a : AtomDefinition). fault_where (is_unaccounted (contents_in held.now) atom (count_of counts.now atom)) (Gap atom)) 0 (map definition_of atoms.now))
        (λ _. Unit {0}) result }
{
    let last = held.base + held.records.len() as u64 - 1;
    let most = most_firings(held.base, &held.records);
    for number in 0..atoms.len() {
        if is_past(counts[number], most[number], held.slots[number].at(), last) {
            return Err(ImageFault::Gap(number as u16));
        }
    }
    Ok(())
}

/// Whether a count is above the most that it can be, or a state was copied later than a plant can have been ahead of the last live record.
fn is_past(count: u64, most: u64, copied_at: u64, last: u64) -> bool
    requires { last ≤ LAST_NUMBER }
    ensures { result ≡ (nat_lt most count || nat_lt (last + MOST_AHEAD) copied_at) }
{
    count > most || copied_at > last + MOST_AHEAD
}

/// How often each atom can have taken part after the live records from the base on.
fn most_firings(base: u64, records: &[Fired]) -> [u64; MAX_ATOMS]
    requires base { 1 ≤ base }
    requires last { base + length records.now ≤ LAST_NUMBER + 1 }
    ensures { (atom : ℕ) → atom < MAX_ATOMS → count_of result atom ≡ most_by atom (base - 1) base records.now }
{
    let mut most = [base - 1; MAX_ATOMS];
    for (place, fired) in records.iter().enumerate() {
        add_record(&mut most, base + place as u64, fired);
    }
    most
}

/// The same after one record more, which has this number.
fn add_record(most: &mut [u64; MAX_ATOMS], number: u64, fired: &Fired)
    ensures { (atom : ℕ) → atom < MAX_ATOMS → count_of most.new atom ≡ most_at atom (count_of most.old atom) number fired.now }
{
    let entries = fired.entries();
    // From the last one on, since the first entry of an atom counts.
    for place in (0..entries.len()).rev() {
        let entry = &entries[place];
        most[entry.atom as usize] = entry.participation.min(number);
    }
}
