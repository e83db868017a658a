//! Where the records bring each atom.
ghost use Rattle.std.specs.Prelude.{◌≡◌, true, Ok, IfOk};
ghost use Rattle.petri_atom.specs.Atom.{definition_of};
ghost use Rattle.petri_atom.specs.Definition.{Fits};
ghost use Rattle.record_replay.specs.Parts.{AreParts};
ghost use Rattle.record_replay.specs.Replay.{replay_from};
ghost use Rattle.snapshot_writer.specs.Parcels.{local_in};
ghost use Rattle.plant_model.specs.Rules.{first_fault_in};
ghost use Rattle.plant_model.specs.System.{plant_of};
ghost use Rattle.plant_image.specs.Faults.{is_of_atom, replay_fault, fault_of_replay};
ghost use Rattle.plant_image.specs.Reading.{IsLed, IsSound, Tells, contents_in};

use crate::fault::ImageFault;
use crate::parts::parts_of;
use crate::standing::{Held, Standing};
use petri_atom::{Atom, AtomState};
use plant_model::{MAX_ATOMS, PlantState, System};
use record_codec::{Fired, Saved};
use record_replay::{ReplayFault, replay_atom};
use std::alloc::Global;

/// Where the records bring one atom.
#[derive(Drop)]
pub struct Reached {
    /// Its state there.
    pub state: AtomState,
    /// How often it has taken part then.
    pub count: u64,
}

/// Brings each atom from its newest saved state to where the records lead it, one after another.
pub(crate) fn replay_all(alloc: Global, system: &System, held: Held) -> Result<Standing, ImageFault>
    requires { IsSound (plant_of system.now) (contents_in held) }
    ensures { Tells (first_fault_in (replay_fault (contents_in held)) 0 (plant_of system.now).atoms)
        (IsLed (plant_of system.now) (contents_in held)) result }
{
    system.keeps_its_rules();
    let parts = parts_of(alloc, &held.records)?;
    let mut states = PlantState::init(alloc, system)?;
    let mut counts = [0; MAX_ATOMS];
    for (number, atom) in system.atoms().iter().enumerate() {
        let saved = &held.slots[number];
        let reached = replay_saved(atom, number as u16, saved, &held.records, &parts)?;
        let Reached { state, count } = reached;
        states.set(number as u16, state);
        counts[number] = count;
    }
    Ok(Standing {
        held,
        states,
        counts,
    })
}

/// Brings the atom with the number from the saved state to where the records lead it. `parts` has at the place of each record the atoms that
/// have a part in it, as [`crate::parts_of`] gives them. It looks at no other atom, and takes no memory.
pub fn replay_saved(
    atom: &Atom,
    number: u16,
    saved: &Saved,
    records: &[Fired],
    parts: &[u64],
) -> Result<Reached, ImageFault>
    requires of_atom { is_of_atom number (definition_of atom.now) saved.now ≡ true }
    requires parts { AreParts records.now parts.now }
    ensures reached { Tells (fault_of_replay number (replay_from (definition_of atom.now) number (record { state = local_in saved.now; count = saved.now.count }) records.now))
        (λ reached. replay_from (definition_of atom.now) number (record { state = local_in saved.now; count = saved.now.count }) records.now
        ≡ Ok (record { state = reached.state; count = reached.count })) result }
    ensures fits { IfOk result (λ reached. Fits (definition_of atom.now) reached.state) }
{
    let mut state = AtomState::with(saved.marking(), saved.values());
    match replay_atom(atom, number, saved.count(), records, parts, &mut state) {
        Ok(count) => Ok(Reached { state, count }),
        Err(ReplayFault::Gap) => Err(ImageFault::Gap(number)),
        Err(ReplayFault::NotEnabled(record)) => Err(ImageFault::NotEnabled(record, number)),
    }
}
